// Module 4: the effective focus, and the answer of `TreeState::focus`, of any state.
#![tactic(auto)]

ghost use Rattle.std.specs.Prelude.{◌≡◌, ◌+◌};
ghost use Rattle.state.specs.Focus.{through_grafts, effective_focus, or_active_descendant, state_focus};
ghost use Rattle.state_array.specs.View.{trees_of, view};

use ids::{FullNodeId, TreeId};
use state_array::State;

// `TreeState::focus`: from the effective focus to the active descendant; none without host focus.
pub fn focus(state: &State) -> Option<FullNodeId>
    ensures { result ≡ state_focus (view state.now) }
{
    if state_array::host(state) == 0 {
        return None;
    }
    let x = effective_focus(state)?;
    Some(or_active_descendant(state, x))
}

// The effective focus: from ROOT's focus through the grafts.
pub fn effective_focus(state: &State) -> Option<FullNodeId>
    ensures { result ≡ effective_focus (view state.now).forest }
{
    let e = state_lookup::tree_of(state, TreeId { high: 0, low: 0 })?;
    let x = e.focus;
    through_grafts(state, x)
}

// Going on from x to the tree's focus while it is present and a graft.
fn through_grafts(state: &State, x: FullNodeId) -> Option<FullNodeId>
    ensures { result ≡ through_grafts (trees_of state.now + 1) (view state.now).forest x }
{
    let n = state_array::slots(state);
    let mut at = x;
    for _ in 0..state_array::trees(state) + 1 {
        let i = state_lookup::find_in(state, at);
        if n <= i {
            return Some(at);
        }
        let d = state_array::shape_at(state, i);
        if !state_array::is_graft(d.flags) {
            return Some(at);
        }
        let e = state_lookup::tree_of(state, d.graft)?;
        at = e.focus;
    }
    None
}

// The active descendant of x, looked up in the same tree, if present; else x.
fn or_active_descendant(state: &State, x: FullNodeId) -> FullNodeId
    ensures { result ≡ or_active_descendant (view state.now).forest.nodes x }
{
    let n = state_array::slots(state);
    let i = state_lookup::find_in(state, x);
    if n <= i {
        return x;
    }
    let d = state_array::shape_at(state, i);
    if d.flags / 4 % 2 != 1 {
        return x;
    }
    let tree = x.tree;
    let y = FullNodeId {
        tree,
        node: state_array::active_descendant_at(state, i),
    };
    if state_lookup::find_in(state, y) < n {
        y
    } else {
        x
    }
}
