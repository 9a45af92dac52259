// The way through the grafts: from ROOT's focus to the focus of the tree that it grafts, and so on.
ghost use Rattle.std.specs.Prelude.{◌≡◌, length, get_or, drop};
ghost use Rattle.ids.specs.Ids.{id_words};
ghost use Rattle.reasons_calls.specs.Outcome.{focus_way, last_graft};
ghost use Rattle.reasons.specs.Reasons.{last_of};
ghost use Rattle.reasons_why.specs.Why.{first_id, or_root};
ghost use Rattle.update_focus.specs.Ways.{focus_of, way_after};
ghost use Rattle.state.specs.State.{graft_at};
ghost use Rattle.state.specs.Down.{root_of};
ghost use Rattle.state_array.specs.View.{view};

use ids::{FullNodeId, TreeId};
use state_array::State;

// How many nodes the way has.
pub(crate) fn length(state: &State) -> usize
    ensures { result ≡ length (focus_way (view state.now).forest) }
{
    for k in 0..34 {
        if node_at(state, k).is_none() {
            return k;
        }
    }
    34
}

// The last of them.
pub(crate) fn last(state: &State) -> Option<FullNodeId>
    ensures { result ≡ last_of (focus_way (view state.now).forest) }
{
    let n = length(state);
    if n < 1 {
        return None;
    }
    node_at(state, n - 1)
}

// The tree that the last of them grafts, ROOT where it grafts none.
pub(crate) fn last_graft(state: &State) -> TreeId
    ensures { result ≡ or_root (last_graft (view state.now).forest (focus_way (view state.now).forest)) }
{
    let Some(x) = last(state) else {
        return TreeId { high: 0, low: 0 };
    };
    graft_of(state, x).unwrap_or(TreeId { high: 0, low: 0 })
}

// Word j of the way, two for a node, 0 past the last.
pub(crate) fn word_at(state: &State, j: usize) -> u64
    ensures { result ≡ get_or (id_words (focus_way (view state.now).forest)) j 0 }
{
    let Some(x) = node_at(state, j / 2) else {
        return 0;
    };
    if j % 2 == 0 {
        x.tree.0 as u64
    } else {
        x.node.0
    }
}

// ROOT's root.
pub(crate) fn root(state: &State) -> Option<FullNodeId>
    ensures { result ≡ root_of (view state.now).forest }
{
    let e = state_lookup::tree_of(state, TreeId { high: 0, low: 0 })?;
    Some(e.root)
}

// Node k of the way.
fn node_at(state: &State, k: usize) -> Option<FullNodeId>
    ensures { result ≡ first_id (drop k (focus_way (view state.now).forest)) }
{
    let mut at = focus_of(state, TreeId { high: 0, low: 0 })?;
    let m = state_array::trees(state);
    for i in 0..k {
        if m <= i {
            return None;
        }
        at = after(state, at)?;
    }
    Some(at)
}

// The focus of a tree.
fn focus_of(state: &State, t: TreeId) -> Option<FullNodeId>
    ensures { result ≡ focus_of (view state.now).forest t }
{
    let e = state_lookup::tree_of(state, t)?;
    Some(e.focus)
}

// The focus of the tree that x grafts.
fn after(state: &State, x: FullNodeId) -> Option<FullNodeId>
    ensures { result ≡ way_after (view state.now).forest x }
{
    let t = graft_of(state, x)?;
    focus_of(state, t)
}

// The tree that x grafts.
fn graft_of(state: &State, x: FullNodeId) -> Option<TreeId>
    ensures { result ≡ graft_at (view state.now).forest.nodes x }
{
    let i = state_lookup::find_in(state, x);
    let d = state_array::shape_at(state, i);
    if (i < state_array::slots(state)) & state_array::is_graft(d.flags) {
        return Some(d.graft);
    }
    None
}
