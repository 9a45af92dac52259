// Trees that two nodes of an outcome graft, and which node claims one.
ghost use Rattle.std.specs.Prelude.{◌≡◌, ◌<◌, ◌+◌, drop};
ghost use Rattle.reasons_calls.specs.Outcome.{claims};
ghost use Rattle.reasons.specs.Shape.{graft_twice_from};
ghost use Rattle.calls.specs.Regrafts.{regraft_of, regrafter};
ghost use Rattle.state.specs.State.{holder};
ghost use Rattle.state_array.specs.View.{slots_of, view};
ghost use Rattle.calls.specs.Says.{Told, PLANNED};
ghost use Rattle.calls.specs.Setting.{asked};

use crate::notes;
use crate::notes::{Notes, Scope};
use ids::{FullNodeId, TreeId};
use state_array::State;

// A tree, the first node that grafts it and its slot, and the next one that does.
#[derive(Clone, Copy)]
pub(crate) struct Regraft {
    pub tree: TreeId,
    pub slot: usize,
    pub node: FullNodeId,
    pub other: FullNodeId,
}

// The first node whose tree a later one grafts too, if there is one.
pub(crate) fn grafted_twice(next: &State) -> Option<Regraft>
    ensures { regraft_of result ≡ graft_twice_from 0 (view next.now).forest.nodes }
{
    let n = state_array::slots(next);
    for i in 0..n {
        let found = other_graft(next, i);
        if let Some(other) = found {
            let d = state_array::shape_at(next, i);
            let tree = d.graft;
            return Some(Regraft {
                tree,
                slot: i,
                node: state_array::id_at(next, i),
                other,
            });
        }
    }
    None
}

// Whether a node is listed and claims a tree.
pub(crate) fn claims<'a>(
    state: &'a State,
    batch: &'a [u8],
    scope: Scope,
    notes: &'a Notes,
    x: FullNodeId,
) -> bool
    requires { Told PLANNED state.now batch.now scope notes.now }
    ensures { result ≡ claims (view state.now).forest (asked batch.now scope) x }
{
    if x.tree != scope.tree {
        return false;
    }
    let k = scope.listed;
    let turn = notes::position_in(notes, notes::LISTED, k, x.node.0);
    if k <= turn {
        return false;
    }
    notes[notes::CLAIMS + turn] == 1
}

// The first node after slot i that grafts what the node in slot i grafts.
fn other_graft(next: &State, i: usize) -> Option<FullNodeId>
    requires { i < slots_of next.now }
    ensures { result ≡ regrafter (view next.now).forest.nodes i }
{
    let d = state_array::shape_at(next, i);
    if !state_array::is_graft(d.flags) {
        return None;
    }
    holder_from(next, i + 1, d.graft)
}

// The first node from slot `from` on that grafts a tree.
fn holder_from(next: &State, from: usize, t: TreeId) -> Option<FullNodeId>
    ensures { result ≡ holder (drop from (view next.now).forest.nodes) t }
{
    let n = state_array::slots(next);
    for j in from..n {
        let d = state_array::shape_at(next, j);
        if state_array::is_graft(d.flags) & (d.graft == t) {
            return Some(state_array::id_at(next, j));
        }
    }
    None
}
