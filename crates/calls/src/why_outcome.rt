// Why an outcome is refused for what the batch does to the old state: 12's second part and 18. Both are read from the notes; 12 from the
// outcome too, and 18 from the old links.
mod climb;
mod grafts;

ghost use Rattle.std.specs.Prelude.{◌≡◌, ◌<◌};
ghost use Rattle.reasons.specs.Reasons.{claimed_from_holder, updated_and_gone};
ghost use Rattle.reasons_calls.specs.Outcome.{removed_reason, clash_reason};
ghost use Rattle.reasons_why.specs.Why.{why_of, why_for};
ghost use Rattle.calls.specs.Climbs.{dropped_from};
ghost use Rattle.state_array.specs.View.{slots_of, view};
ghost use Rattle.calls.specs.Codes.{id_at};
ghost use Rattle.calls.specs.Says.{Told, PLANNED};
ghost use Rattle.calls.specs.Setting.{asked};

use crate::notes::{Notes, Scope};
use crate::{notes, rows, why_pass};
use ids::{FullNodeId, TreeId};
use reasons_why::Why;
use state_array::State;

// 12, where two nodes of the outcome graft one tree: the node that claims it, and the other.
pub(crate) fn clash_why<'a>(
    state: &'a State,
    batch: &'a [u8],
    scope: Scope,
    notes: &'a Notes,
    next: &'a State,
) -> Why
    requires { Told PLANNED state.now batch.now scope notes.now }
    ensures { result ≡ why_for (clash_reason (view state.now).forest (asked batch.now scope) (view next.now).forest) }
{
    let Some(g) = grafts::grafted_twice(next) else {
        return reasons_why::no_reason();
    };
    let tree = g.tree;
    let x = g.node;
    let y = g.other;
    if grafts::claims(state, batch, scope, notes, x) {
        return claimed_why(tree, y, x);
    }
    claimed_why(tree, x, y)
}

// 18: the first listed node that is updated and removed, the node whose place is gone, and the listed node that dropped it.
pub(crate) fn removed_why<'a>(
    state: &'a State,
    batch: &'a [u8],
    scope: Scope,
    notes: &'a Notes,
) -> Why
    requires { Told PLANNED state.now batch.now scope notes.now }
    ensures { result ≡ why_for (removed_reason (view state.now).forest (asked batch.now scope)) }
{
    let i = rows::first_clash(notes, scope.listed);
    if scope.listed <= i {
        return reasons_why::no_reason();
    }
    let slot = notes[notes::LISTED_SLOTS + i] as usize;
    gone_why(state, batch, scope, notes, slot)
}

// 12: the node that holds a tree, and the one that claims it.
fn claimed_why(tree: TreeId, holder: FullNodeId, claimer: FullNodeId) -> Why
    ensures { result ≡ why_of (claimed_from_holder tree holder claimer) }
{
    Why {
        number: 12,
        rule: 2,
        place: 0,
        other: 0,
        tree,
        node: Some(claimer),
        by: None,
        also: Some(holder),
    }
}

// 18 of the node in a slot.
fn gone_why<'a>(
    state: &'a State,
    batch: &'a [u8],
    scope: Scope,
    notes: &'a Notes,
    slot: usize,
) -> Why
    requires told { Told PLANNED state.now batch.now scope notes.now }
    requires slot_bound { slot < slots_of state.now }
    ensures { result ≡ why_of (updated_and_gone (id_at (view state.now).forest slot) (dropped_from state.now batch.now scope slot)) }
{
    let x = state_array::id_at(state, slot);
    let Some(lost) = climb::dropped(state, batch, scope, notes, slot) else {
        return why_pass::of_nodes(18, x, None, None);
    };
    why_pass::of_nodes(18, x, lost.by, Some(lost.node))
}
