// Searches in a state: the slot of a node, the tree of a tree id. Each answers for any words.
#![tactic(auto)]

ghost use Rattle.std.specs.Prelude.{true, ◌≡◌, get_or};
ghost use Rattle.base.specs.Search.{First};
ghost use Rattle.ids.specs.Ids.{same_tree};
ghost use Rattle.state.specs.State.{subtree_of};
ghost use Rattle.state.specs.Sound.{ascending};
ghost use Rattle.state_array.specs.View.{view, slots_of, trees_of, id_in, tree_in};
ghost use Rattle.state_lookup.specs.Lookup.{stands_at, in_slot, SlotOf, with_hint};

use ids::{FullNodeId, TreeId, TreeIndex};
use state::SubtreeState;
use state_array::{State, id_at, tree_at};

// The first slot that holds an id, in any state, or their number.
#[tactic(auto, using(ids::proofs::Ids::id_test))]
pub fn find_in(state: &State, id: FullNodeId) -> usize
    ensures { First (stands_at state.now id) (slots_of state.now) result }
{
    let n = state_array::slots(state);
    for i in 0..n {
        if id == id_at(state, i) {
            return i;
        }
    }
    n
}

// Whether the ids ascend.
pub fn ordered(state: &State) -> bool
    ensures { result ≡ ascending (view state.now).forest.nodes }
{
    let n = state_array::slots(state);
    for i in 1..n {
        if !ids::is_before(id_at(state, i - 1), id_at(state, i)) {
            return false;
        }
    }
    true
}

// The slot of an id, or the number of slots: right where the ids ascend. Where it would stand if the numbers went up by one is tried first.
pub fn slot_of(state: &State, id: FullNodeId) -> usize
    ensures { SlotOf state.now id result }
{
    slot_hinted(state, rank(state, id), id)
}

// The same, with the slot `hint` tried first.
pub fn slot_hinted(state: &State, hint: usize, id: FullNodeId) -> usize
    ensures { SlotOf state.now id result }
{
    let n = state_array::slots(state);
    if stands(state, n, hint, id) {
        return hint;
    }
    bisected(state, id)
}

// How far the id's number lies past that of the first slot.
fn rank(state: &State, id: FullNodeId) -> usize {
    let first = state_array::id_at(state, 0);
    if id.node.0 < first.node.0 {
        return 0;
    }
    (id.node.0 - first.node.0) as usize
}

// The same by bisection: the slots from `low` on that are `left` hold the last id that stands before `id`, if any does. A step goes no other way
// for either answer, so that no guess of the machine's fails.
fn bisected(state: &State, id: FullNodeId) -> usize
    ensures { SlotOf state.now id result }
{
    let n = state_array::slots(state);
    let mut low = 0usize;
    let mut left = n;
    // Not a `for`: what is left is halved each time.
    while 1 < left {
        let half = left / 2;
        if ids::is_before(id_at(state, low + half - 1), id) {
            low += half;
        }
        left -= half;
    }
    if stands(state, n, low, id) {
        return low;
    }
    if stands(state, n, low + 1, id) {
        return low + 1;
    }
    n
}

// The same, with the slots beside `near` tried first.
pub fn slot_near(state: &State, near: usize, id: FullNodeId) -> usize
    ensures { SlotOf state.now id result }
{
    let n = state_array::slots(state);
    if n <= near {
        return slot_of(state, id);
    }
    if stands(state, n, near + 1, id) {
        return near + 1;
    }
    if near < 1 {
        return slot_of(state, id);
    }
    if stands(state, n, near - 1, id) {
        return near - 1;
    }
    slot_of(state, id)
}

// The slot that a list of hints has for slot i, whatever it is; 0 past the last.
pub fn hint_at(hints: &[u16], i: usize) -> usize
    ensures { result ≡ get_or hints.now i 0 }
{
    if i < hints.len() {
        hints[i] as usize
    } else {
        0
    }
}

// Writes a hint for slot i, if the list is that long and the hint fits.
pub fn set_hint(hints: &mut [u16], i: usize, hint: usize)
    ensures { hints.new ≡ with_hint hints.old i hint }
{
    if hints.len() <= i {
        return;
    }
    if 65536 <= hint {
        return;
    }
    hints[i] = hint as u16;
}

// The number of the tree `id`, or how many numbers are taken where it is not there.
#[tactic(auto, using(ids::proofs::Ids::tree_test))]
pub fn find_tree(state: &State, id: TreeId) -> usize
    ensures { First (λ k. same_tree id (tree_in state.now k).id) (trees_of state.now) result }
{
    let m = state_array::trees(state);
    for k in 0..m {
        let t = tree_at(state, k);
        if id == t.id {
            return k;
        }
    }
    m
}

// The root and the focus of the tree `id`, if it exists.
pub fn tree_of(state: &State, id: TreeId) -> Option<SubtreeState>
    ensures { result ≡ subtree_of (view state.now).forest id }
{
    let k = find_tree(state, id);
    if state_array::trees(state) <= k {
        return None;
    }
    let t = tree_at(state, k);
    if t.exists == 0 {
        return None;
    }
    let tree = TreeIndex(k as u32);
    let root = t.root;
    let focus = t.focus;
    Some(SubtreeState {
        root: FullNodeId { tree, node: root },
        focus: FullNodeId { tree, node: focus },
    })
}

// Whether an id stands in slot i, one of the first n.
fn stands(state: &State, n: usize, i: usize, id: FullNodeId) -> bool
    ensures { result ≡ in_slot n (id_in state.now) id i }
{
    if n <= i {
        return false;
    }
    id == id_at(state, i)
}
