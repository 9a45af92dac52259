// The way down, in one pass: every node is met once, by the link that it records.
ghost use Rattle.std.specs.Prelude.{◌≡◌, true, ◌+◌, ◌<◌};
ghost use Rattle.base.specs.Tests.{same_option};
ghost use Rattle.state.specs.State.{same_link};
ghost use Rattle.state_array.specs.Layout.{SLOTS};
ghost use Rattle.state_array.specs.View.{link_of, slots_of};
ghost use Rattle.state_lookup.specs.Lookup.{in_order};
ghost use Rattle.state_sound.specs.Parts.{MetAt, counted_below, counted_all};

use ids::{FullNodeId, TreeIndex};
use state_array::{LinkRow, State};

// Whether a node records the parent p and the place j.
fn agrees(l: LinkRow, p: FullNodeId, j: usize) -> bool
    ensures { result ≡ same_option same_link (link_of l) (Some (record { parent = p; index = j })) }
{
    (l.linked != 0) & ((l.parent == p) & (l.index == j as u64))
}

// The slot of the node that is met at place j below slot p, with the slots beside `near` tried first; the number of slots where it is
// absent or records another link.
fn met_at(state: &State, near: usize, p: usize, j: usize, id: FullNodeId) -> usize
    requires { in_order state.now ≡ true }
    ensures { MetAt state.now p j id result }
{
    let n = state_array::slots(state);
    let i = state_lookup::slot_near(state, near, id);
    if n <= i {
        return n;
    }
    let l = state_array::link_at(state, i);
    let x = state_array::id_at(state, p);
    if agrees(l, x, j) {
        return i;
    }
    n
}

// Whether going down from the node in slot r, which has no parent, meets every node, each recorded with its parent and place.
// The nodes gone down from stand in `path`, the deepest last, each with the place of its next child in `nexts`.
fn goes_down<'a, 'b>(state: &'a State, r: usize, parents: &'b mut [u16]) -> bool
    requires { (r < slots_of state.now) × (in_order state.now ≡ true) }
    ensures { result ≡ counted_below state.now r }
{
    let n = state_array::slots(state);
    let mut path = [r; state_array::SLOTS];
    let mut nexts = [0usize; state_array::SLOTS];
    let mut depth = 1usize;
    let mut left = n - 1;
    let mut near = r;
    // Not a `for`: a step goes down to a child, or back where the node has no more.
    while 0 < depth {
        let top = depth - 1;
        let p = path[top];
        let j = nexts[top];
        let Some(id) = state_rules::kid_at(state, p, j) else {
            depth = top;
            continue;
        };
        near = met_at(state, near, p, j, id);
        if (n <= near) | (left < 1) {
            return false;
        }
        left -= 1;
        state_lookup::set_hint(parents, near, p);
        nexts[top] = j + 1;
        path[depth] = near;
        nexts[depth] = 0;
        depth += 1;
    }
    left == 0
}

// Whether going down from ROOT's root, which has no parent, meets each node once, by its recorded link.
pub(crate) fn is_linked<'a, 'b>(state: &'a State, parents: &'b mut [u16]) -> bool
    requires { in_order state.now ≡ true }
    ensures { result ≡ counted_all state.now }
{
    let n = state_array::slots(state);
    let t = state_array::tree_at(state, 0);
    let node = t.root;
    let root = FullNodeId {
        tree: TreeIndex(0),
        node,
    };
    let r = state_lookup::slot_of(state, root);
    if n <= r {
        return false;
    }
    let l = state_array::link_at(state, r);
    if l.linked != 0 {
        return false;
    }
    goes_down(state, r, parents)
}
