// Rules of a sound state, for any words, that why a state is not sound asks too: what is met one step below a node, grafts, ROOT, the focus.
#![tactic(auto)]

ghost use Rattle.std.specs.Prelude.{◌≡◌};
ghost use Rattle.state.specs.Sound.{root_first, focus_present};
ghost use Rattle.state_array.specs.View.{id_in, view};
ghost use Rattle.state_rules.specs.Parts.{bare_in, grafts_tree, none_grafts, below_in, KidSays};

use ids::{FullNodeId, TreeId};
use state_array::State;

// What is met at place j one step below the node in slot p.
pub fn kid_at(state: &State, p: usize, j: usize) -> Option<FullNodeId>
    ensures { KidSays (below_in state.now p) j (id_in state.now p) result }
{
    let d = state_array::shape_at(state, p);
    if !state_array::is_graft(d.flags) {
        if d.child_count <= j as u64 {
            return None;
        }
        let x = state_array::id_at(state, p);
        let tree = x.tree;
        let node = state_array::child_at(state, x.node, d.first_child, j);
        return Some(FullNodeId { tree, node });
    }
    if 0 < j {
        return None;
    }
    let e = state_lookup::tree_of(state, d.graft)?;
    let root = e.root;
    Some(root)
}

// Whether none of the first n nodes grafts a tree.
pub fn is_free(state: &State, n: usize, t: TreeId) -> bool
    ensures { result ≡ none_grafts state.now t n }
{
    for i in 0..n {
        if is_graft_of(state, i, t) {
            return false;
        }
    }
    true
}

// Whether a node grafts a tree.
pub fn is_graft_of(state: &State, i: usize, t: TreeId) -> bool
    ensures { result ≡ grafts_tree state.now t i }
{
    let d = state_array::shape_at(state, i);
    state_array::is_graft(d.flags) & (t == d.graft)
}

// Whether a node is no graft, or has no children.
pub fn is_bare(state: &State, i: usize) -> bool
    ensures { result ≡ bare_in state.now i }
{
    let d = state_array::shape_at(state, i);
    !state_array::is_graft(d.flags) | (d.child_count == 0)
}

// Whether ROOT exists and has number 0.
pub fn root_is_first(state: &State) -> bool
    ensures { result ≡ root_first (view state.now).forest.trees }
{
    let m = state_array::trees(state);
    let t = state_array::tree_at(state, 0);
    (0 < m) & (t.id == TreeId { high: 0, low: 0 }) & (t.exists != 0)
}

// Whether the effective focus is present, and no graft.
pub fn focus_is_present(state: &State) -> bool
    ensures { result ≡ focus_present (view state.now).forest }
{
    let Some(x) = state_focus::effective_focus(state) else {
        return false;
    };
    state_lookup::find_in(state, x) < state_array::slots(state)
}
