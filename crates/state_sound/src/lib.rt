// Whether a state is sound, for any words. Each part is lent the whole state, and says what it decides of the forest that it shows.
#![tactic(auto)]

mod walk;

ghost use Rattle.std.specs.Prelude.{◌≡◌, true, ◌<◌};
ghost use Rattle.base.specs.Tests.{all};
ghost use Rattle.state.specs.Sound.{graft_is_bare, grafts_differ, one_id_each, sound_shape, sound};
ghost use Rattle.state_array.specs.View.{trees_of, view};
ghost use Rattle.state_lookup.specs.Lookup.{in_order};
ghost use Rattle.state_rules.specs.Parts.{none_grafts, Marked, rooted_in, all_rooted};
ghost use Rattle.state_sound.specs.Parts.{sound_grafts};

use ids::{FullNodeId, TreeId, TreeIndex};
use state_array::State;

// Whether a state is sound.
pub fn sound(state: &State) -> bool
    ensures { result ≡ sound (view state.now).forest }
{
    let mut parents = [0u16; state_array::SLOTS];
    sound_noting(state, &mut parents)
}

// The same; `parents` gets the slot of each node's parent, as a hint.
pub fn sound_noting<'a, 'b>(state: &'a State, parents: &'b mut [u16]) -> bool
    ensures { result ≡ sound (view state.now).forest }
{
    if state_array::MOST_NODES < state_array::slots(state) {
        return false;
    }
    if state_array::TREES < state_array::trees(state) {
        return false;
    }
    shape_noting(state, parents)
        & state_fields::fields_are_ok(state)
        & state_rules::focus_is_present(state)
}

// Whether its links and its trees are.
pub fn shape_is_sound(state: &State) -> bool
    ensures { result ≡ sound_shape (view state.now).forest }
{
    let mut parents = [0u16; state_array::SLOTS];
    shape_noting(state, &mut parents)
}

// The same; `parents` gets the slot of each node's parent.
fn shape_noting<'a, 'b>(state: &'a State, parents: &'b mut [u16]) -> bool
    ensures { result ≡ sound_shape (view state.now).forest }
{
    if !state_lookup::ordered(state) {
        return false;
    }
    trees_are_sound(state) & walk::is_linked(state, parents)
}

// Whether no tree is grafted by two nodes: row 12. A tree whose low half has no mark yet is new; else the nodes before it are searched.
pub fn grafts_differ(state: &State) -> bool
    ensures { result ≡ grafts_differ (view state.now).forest.nodes }
{
    let n = state_array::slots(state);
    let mut seen = [0u8; 4096];
    for i in 0..n {
        let d = state_array::shape_at(state, i);
        if !state_array::is_graft(d.flags) {
            continue;
        }
        if !is_new(&seen, state, i, d.graft) {
            return false;
        }
        let mark = (d.graft.low % 4096) as usize;
        seen[mark] = 1;
    }
    true
}

// Whether none of the first n nodes grafts a tree, where `seen` has a mark for each tree that they graft.
fn is_new<'a>(seen: &'a [u8; 4096], state: &'a State, n: usize, t: TreeId) -> bool
    requires { Marked seen.now state.now n }
    ensures { result ≡ none_grafts state.now t n }
{
    let mark = (t.low % 4096) as usize;
    if seen[mark] == 0 {
        return true;
    }
    state_rules::is_free(state, n, t)
}

// Whether no graft has children.
fn grafts_are_bare(state: &State) -> bool
    ensures { result ≡ all graft_is_bare (view state.now).forest.nodes }
{
    let n = state_array::slots(state);
    for i in 0..n {
        if !state_rules::is_bare(state, i) {
            return false;
        }
    }
    true
}

// Whether each tree number has an id of its own.
fn ids_differ(state: &State) -> bool
    ensures { result ≡ one_id_each (view state.now).forest.trees }
{
    let m = state_array::trees(state);
    for k in 0..m {
        let t = state_array::tree_at(state, k);
        if state_lookup::find_tree(state, t.id) < k {
            return false;
        }
    }
    true
}

// Whether tree k, if it exists, has its root among the nodes and, but for ROOT, a graft there.
fn is_rooted(state: &State, k: usize) -> bool
    requires { (in_order state.now ≡ true) × (k < trees_of state.now) }
    ensures { result ≡ rooted_in state.now k }
{
    let n = state_array::slots(state);
    let t = state_array::tree_at(state, k);
    if t.exists == 0 {
        return true;
    }
    let node = t.root;
    let number = k as u32;
    let id = FullNodeId {
        tree: TreeIndex(number),
        node,
    };
    (state_lookup::slot_of(state, id) < n) & ((k == 0) | !state_rules::is_free(state, n, t.id))
}

// Whether every tree is rooted.
fn all_rooted(state: &State) -> bool
    requires { in_order state.now ≡ true }
    ensures { result ≡ all_rooted state.now (trees_of state.now) }
{
    let m = state_array::trees(state);
    for k in 0..m {
        if !is_rooted(state, k) {
            return false;
        }
    }
    true
}

// Whether the grafts and the table of trees are sound.
fn trees_are_sound(state: &State) -> bool
    requires { in_order state.now ≡ true }
    ensures { result ≡ sound_grafts (view state.now).forest }
{
    grafts_are_bare(state)
        & grafts_differ(state)
        & state_rules::root_is_first(state)
        & ids_differ(state)
        & all_rooted(state)
}
