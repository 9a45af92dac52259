// What an accepted call answers: the lengths of its lists and its report, as plain numbers and structs.
ghost use Rattle.std.specs.Prelude.{◌≡◌};
ghost use Rattle.replies.specs.Plain.{lengths_are};
ghost use Rattle.calls.specs.Plain.{plain_report, accepted_reply};

use crate::reports;
use crate::reports::Lists;
use replies::{Lengths, Reply, Report};

// After acceptance.
pub(crate) fn accepted(lengths: Lengths, report: reports::Report) -> Reply
    ensures { result ≡ accepted_reply lengths report }
{
    Reply {
        lengths,
        report: plain_report(report),
        number: 0,
    }
}

// The lengths of a batch's lists.
pub(crate) fn lengths_of(l: Lists) -> Lengths
    ensures { result ≡ lengths_are l.added l.updated l.removed l.relinked }
{
    Lengths {
        added: l.added,
        updated: l.updated,
        removed: l.removed,
        relinked: l.relinked,
    }
}

// A report, its enums as plain ids.
fn plain_report(r: reports::Report) -> Report
    ensures { result ≡ plain_report r }
{
    let focus_before = r.focus_before;
    let focus_after = r.focus_after;
    let extra_before = r.extra_before;
    let extra_after = r.extra_after;
    Report {
        focus_before: replies::plain_id(focus_before),
        focus_after: replies::plain_id(focus_after),
        extra_before: replies::plain_id(extra_before),
        extra_after: replies::plain_id(extra_after),
    }
}
