// Why rows 5 to 8 and 21 refuse a batch.
ghost use Rattle.std.specs.Prelude.{true, ◌≡◌};
ghost use Rattle.base.specs.Tests.{first_given};
ghost use Rattle.record.specs.Parse.{well_formed, batch_of};
ghost use Rattle.reasons_calls.specs.Explain.{reasons_before_pass, slice_reason};
ghost use Rattle.calls.specs.WhyRows.{AgainIs};
ghost use Rattle.reasons_why.specs.Why.{of_tree, why_for};
ghost use Rattle.calls.specs.Setting.{Scoped, asked, forest};
ghost use Rattle.calls.specs.Says.{PLANNED};
ghost use Rattle.calls.specs.Outcomes.{Outcomes};

use crate::notes::{Notes, Scope};
use crate::{reports, rows};
use ids::{FullNodeId, TreeId, TreeIndex};
use reasons_why::Why;
use state_array::State;

// Rows 5 to 8.
pub(crate) fn before_pass<'a>(state: &'a State, batch: &'a [u8], scope: Scope) -> Why
    requires batch_value { well_formed batch.now ≡ true }
    requires scoped { Scoped (forest state.now) (batch_of batch.now) scope }
    ensures { result ≡ why_for (first_given (λ o. o) (reasons_before_pass (forest state.now) (batch_of batch.now))) }
{
    let again = listed_again(batch, scope.tree);
    if again.number != 0 {
        return again;
    }
    let id = record_reader::tree_id(batch);
    if rows::is_ungrafted(state, batch) {
        return of_tree(6, id);
    }
    if rows::is_missing(state, batch) {
        return of_tree(7, id);
    }
    if rows::is_full(state, batch) {
        return of_tree(8, id);
    }
    reasons_why::no_reason()
}

// Row 5: the first listed node that was listed before; `tree` is the number of its tree.
pub(crate) fn listed_again(batch: &[u8], tree: TreeIndex) -> Why
    requires { well_formed batch.now ≡ true }
    ensures { AgainIs batch.now tree result }
{
    let Some(again) = rows::listed_again(batch) else {
        return reasons_why::no_reason();
    };
    let node = record_reader::node_id(batch, again.second);
    Why {
        number: 5,
        rule: 0,
        place: again.second,
        other: again.first,
        tree: TreeId { high: 0, low: 0 },
        node: Some(FullNodeId { tree, node }),
        by: None,
        also: None,
    }
}

// A number and a tree.
pub(crate) fn of_tree(number: u8, tree: TreeId) -> Why
    ensures { result ≡ of_tree number tree }
{
    Why {
        number,
        rule: 0,
        place: 0,
        other: 0,
        tree,
        node: None,
        by: None,
        also: None,
    }
}

// Row 21: how many elements the lists take, where fewer are lent.
pub(crate) fn slice_why<'a>(
    state: &'a State,
    batch: &'a [u8],
    scope: Scope,
    notes: &mut Notes,
    next: &'a State,
    room: usize,
) -> Why
    requires { Outcomes PLANNED state.now batch.now scope notes.old next.now }
    ensures { result ≡ why_for (slice_reason (forest state.now) (asked batch.now scope) room) }
{
    reports::write_changed(state, batch, scope, notes, next);
    let mut lent = [0u64; 1];
    let Err(short) = reports::write_lists(state, notes, next, &mut lent) else {
        return reasons_why::no_reason();
    };
    let most = short.words;
    if most <= room {
        return reasons_why::no_reason();
    }
    Why {
        number: 21,
        rule: 0,
        place: most,
        other: room,
        tree: TreeId { high: 0, low: 0 },
        node: None,
        by: None,
        also: None,
    }
}
