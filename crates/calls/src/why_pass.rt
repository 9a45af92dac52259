// Why rows 9 to 14 refuse a batch: the number of what makes the first of them hold, the ids that the notes have of it, its tree and place.
ghost use Rattle.std.specs.Prelude.{◌≡◌, ◌+◌, ◌<◌};
ghost use Rattle.reasons.specs.Reasons.{without_place};
ghost use Rattle.reasons_why.specs.Why.{why_of, why_for};
ghost use Rattle.calls.specs.Layout.{LISTED, NAMED};
ghost use Rattle.calls.specs.Noted.{id_noted};
ghost use Rattle.calls.specs.Setting.{forest, asked};
ghost use Rattle.calls.specs.Says.{Told, READ};
ghost use Rattle.calls.specs.Causes.{cause_reason, Within};
ghost use Rattle.calls.specs.Pass.{row_reason};
ghost use Rattle.calls.specs.WhyPass.{namer_at, claimed_noted, plain_nodes};

use crate::notes::{Notes, Scope};
use crate::pass::Cause;
use crate::{notes, pass};
use ids::{FullNodeId, NodeId, TreeId};
use reasons_why::Why;
use state_array::State;

// Why rows 9 to 14 refuse the batch.
pub(crate) fn pass_why<'a>(state: &'a State, batch: &'a [u8], scope: Scope, notes: &'a Notes) -> Why
    requires { Told READ state.now batch.now scope notes.now }
    ensures { result ≡ why_for (row_reason (forest state.now) (asked batch.now scope)) }
{
    let Some(cause) = pass::cause_of(state, batch, scope, notes) else {
        return reasons_why::no_reason();
    };
    of_cause(state, batch, scope, notes, cause)
}

// Of any cause.
fn of_cause<'a>(
    state: &'a State,
    batch: &'a [u8],
    scope: Scope,
    notes: &'a Notes,
    cause: Cause,
) -> Why
    requires told { Told READ state.now batch.now scope notes.now }
    requires within { Within (asked batch.now scope) cause }
    ensures { result ≡ why_of (cause_reason (forest state.now) (asked batch.now scope) cause) }
{
    match cause {
        Cause::NamedTwice(j) => named_twice(state, batch, scope, notes, j),
        Cause::GraftOverChildren(i) => {
            let x = notes::listed_id(scope, notes, i);
            of_nodes(10, x, None, None)
        }
        Cause::GraftOfRoot(i) => {
            let x = notes::listed_id(scope, notes, i);
            of_nodes(11, x, None, None)
        }
        Cause::ClaimedTwice(i, m) => claimed_twice(batch, scope, notes, i, m),
        Cause::WithoutPlace(i) => without_place(scope, notes, i),
        Cause::ChildNowhere(j) => child_nowhere(state, batch, scope, notes, j),
    }
}

// 9: the child of entry j, and the first two nodes that name it.
fn named_twice<'a>(
    state: &'a State,
    batch: &'a [u8],
    scope: Scope,
    notes: &'a Notes,
    j: usize,
) -> Why
    requires told { Told READ state.now batch.now scope notes.now }
    requires j_lt_named { j < scope.named }
    ensures { result ≡ why_of (cause_reason (forest state.now) (asked batch.now scope) (Cause.NamedTwice j)) }
{
    let e = scope.named;
    let x = notes[notes::NAMED + j];
    let first = notes::position_in(notes, notes::NAMED, e, x);
    let next = first + 1;
    let second = next + notes::position_in(notes, notes::NAMED + next, e - next, x);
    let child = child_id(scope, notes, j);
    let by = namer(state, batch, scope, notes, second);
    let also = namer(state, batch, scope, notes, first);
    of_nodes(9, child, by, also)
}

// 12: listed node i claims the tree that listed node m claimed before.
fn claimed_twice<'a>(batch: &'a [u8], scope: Scope, notes: &'a Notes, i: usize, m: usize) -> Why
    requires { (i < 64) × (m < 64) }
    ensures { result ≡ why_of (claimed_noted batch.now scope notes.now i m) }
{
    let tree = record_reader::graft(batch, i);
    let x = notes::listed_id(scope, notes, i);
    let y = notes::listed_id(scope, notes, m);
    Why {
        number: 12,
        rule: 1,
        place: 0,
        other: 0,
        tree,
        node: Some(x),
        by: None,
        also: Some(y),
    }
}

// 13: listed node i.
fn without_place(scope: Scope, notes: &Notes, i: usize) -> Why
    requires { i < 64 }
    ensures { result ≡ why_of (without_place (id_noted scope notes.now (LISTED + i)) i) }
{
    let x = notes::listed_id(scope, notes, i);
    Why {
        number: 13,
        rule: 0,
        place: i,
        other: 0,
        tree: TreeId { high: 0, low: 0 },
        node: Some(x),
        by: None,
        also: None,
    }
}

// 14: the child of entry j, and the node whose entry it is.
fn child_nowhere<'a>(
    state: &'a State,
    batch: &'a [u8],
    scope: Scope,
    notes: &'a Notes,
    j: usize,
) -> Why
    requires told { Told READ state.now batch.now scope notes.now }
    requires j_lt_named { j < scope.named }
    ensures { result ≡ why_of (cause_reason (forest state.now) (asked batch.now scope) (Cause.ChildNowhere j)) }
{
    let child = child_id(scope, notes, j);
    let by = namer(state, batch, scope, notes, j);
    of_nodes(14, child, by, None)
}

// A number and nodes alone.
pub(crate) fn of_nodes(
    number: u8,
    x: FullNodeId,
    by: Option<FullNodeId>,
    also: Option<FullNodeId>,
) -> Why
    ensures { result ≡ plain_nodes number x by also }
{
    Why {
        number,
        rule: 0,
        place: 0,
        other: 0,
        tree: TreeId { high: 0, low: 0 },
        node: Some(x),
        by,
        also,
    }
}

// The id of the child of entry j.
fn child_id(scope: Scope, notes: &Notes, j: usize) -> FullNodeId
    requires { j < 256 }
    ensures { result ≡ id_noted scope notes.now (NAMED + j) }
{
    let tree = scope.tree;
    FullNodeId {
        tree,
        node: NodeId(notes[notes::NAMED + j]),
    }
}

// The listed node whose entry j is, nothing past the last entry.
fn namer<'a>(
    state: &'a State,
    batch: &'a [u8],
    scope: Scope,
    notes: &'a Notes,
    j: usize,
) -> Option<FullNodeId>
    requires { Told READ state.now batch.now scope notes.now }
    ensures { result ≡ namer_at (forest state.now) (asked batch.now scope) j }
{
    for i in 0..scope.listed {
        if j < notes[notes::ENDS + i] as usize {
            return Some(notes::listed_id(scope, notes, i));
        }
    }
    None
}
