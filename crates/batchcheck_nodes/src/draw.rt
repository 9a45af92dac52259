// The tree, a node to a line, each two spaces to the right of the node above it. The way goes to the first child, else to the next sibling,
// else to the next sibling of a node above, and keeps nothing but where it is.
use crate::print::node;
use ids::{FullNodeId, TreeId, TreeIndex};
use program_text::print::{Out, id, put, tree_name};
use state_array::State;

// A node on the way: its slot, and how deep it is.
#[derive(Clone, Copy)]
pub struct Place {
    pub slot: usize,
    pub depth: usize,
}

// Draws a state's tree.
pub fn draw<'a>(out: &mut Out, state: &'a State, roles: &'a [u8; 4096]) {
    let n = state_array::slots(state);
    if n < 1 {
        put(out, b"  no nodes\n");
        return;
    }
    let mut at = top(state);
    for _ in 0..n {
        let Some(place) = at else {
            break;
        };
        indent(out, place.depth);
        line(out, state, place.slot, roles);
        at = next(state, place);
    }
    kept_focuses(out, state);
}

// The focus that each tree keeps, a line for each.
fn kept_focuses(out: &mut Out, state: &State) {
    for k in 0..state_array::trees(state) {
        let t = state_array::tree_at(state, k);
        if t.exists != 0 {
            put(out, b"  ");
            kept_focus(out, state, k);
            put(out, b"\n");
        }
    }
}

// The focus that the tree with a number keeps.
pub fn kept_focus(out: &mut Out, state: &State, k: usize) {
    let t = state_array::tree_at(state, k);
    let node = t.focus;
    let x = FullNodeId {
        tree: TreeIndex((k % 4294967296) as u32),
        node,
    };
    put(out, b"focus of ");
    tree_name(out, t.id);
    put(out, b": ");
    id(out, x);
    if present(state, x).is_none() {
        put(out, b", which is absent");
    }
}

// Two spaces, and two more a level.
pub fn indent(out: &mut Out, depth: usize) {
    for _ in 0..=depth {
        put(out, b"  ");
    }
}

// The node in a slot with its marks.
fn line<'a>(out: &mut Out, state: &'a State, i: usize, roles: &'a [u8; 4096]) {
    let x = state_array::id_at(state, i);
    let d = state_array::shape_at(state, i);
    node(out, state, x, roles);
    if d.flags % 2 == 1 {
        put(out, b" hidden");
    }
    if state_array::is_graft(d.flags) {
        put(out, b" grafts ");
        tree_name(out, d.graft);
    }
    focus_mark(out, state, x);
    put(out, b"\n");
}

// Whether the focus is at a node, or what is heard is.
fn focus_mark(out: &mut Out, state: &State, x: FullNodeId) {
    if state_focus::effective_focus(state) == Some(x) {
        put(out, b" <- focus");
        return;
    }
    if state_focus::focus(state) == Some(x) {
        put(out, b" <- heard");
    }
}

// ## The way

// ROOT's root.
fn top(state: &State) -> Option<Place> {
    let slot = root_slot(state, TreeId { high: 0, low: 0 })?;
    Some(Place { slot, depth: 0 })
}

// The node after a node.
pub fn next(state: &State, p: Place) -> Option<Place> {
    let Some(slot) = below(state, p.slot) else {
        return next_beside(state, p);
    };
    Some(Place {
        slot,
        depth: std::num::wrapping_add_usize(p.depth, 1),
    })
}

// The next sibling of a node or of the nearest node above it that has one.
fn next_beside(state: &State, p: Place) -> Option<Place> {
    let mut at = p.slot;
    for depth in (1..=p.depth).rev() {
        if let Some(slot) = beside(state, at) {
            return Some(Place { slot, depth });
        }
        at = above(state, at)?;
    }
    None
}

// The slot of the node above the one in a slot, if there is one; so with the slots below.
fn above(state: &State, i: usize) -> Option<usize> {
    let l = state_array::link_at(state, i);
    if l.linked == 0 {
        return None;
    }
    present(state, l.parent)
}

// The first child; a graft's is the root of its tree.
fn below(state: &State, i: usize) -> Option<usize> {
    let d = state_array::shape_at(state, i);
    if state_array::is_graft(d.flags) {
        return root_slot(state, d.graft);
    }
    nth_child(state, i, 0)
}

// The next sibling.
fn beside(state: &State, i: usize) -> Option<usize> {
    let l = state_array::link_at(state, i);
    let p = above(state, i)?;
    let d = state_array::shape_at(state, p);
    if state_array::is_graft(d.flags) {
        return None;
    }
    nth_child(state, p, (l.index % 512) as usize + 1)
}

// Child j of the node in a slot.
fn nth_child(state: &State, i: usize, j: usize) -> Option<usize> {
    if child_count(state, i) <= j {
        return None;
    }
    present(state, child(state, i, j))
}

// The root of a tree that exists.
fn root_slot(state: &State, t: TreeId) -> Option<usize> {
    let e = state_lookup::tree_of(state, t)?;
    present(state, e.root)
}

// A node that is present.
pub fn present(state: &State, x: FullNodeId) -> Option<usize> {
    let i = state_lookup::find_in(state, x);
    (i < state_array::slots(state)).then_some(i)
}

// How many children the node in a slot names.
pub fn child_count(state: &State, i: usize) -> usize {
    let d = state_array::shape_at(state, i);
    (d.child_count % 512) as usize
}

// The id of child j of the node in a slot.
pub fn child(state: &State, i: usize, j: usize) -> FullNodeId {
    let x = state_array::id_at(state, i);
    let d = state_array::shape_at(state, i);
    let tree = x.tree;
    FullNodeId {
        tree,
        node: state_array::child_at(state, x.node, d.first_child, j),
    }
}
