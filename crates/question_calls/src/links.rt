// Module 6 over the state in memory, a node by its slot: parent, children, siblings, the inherited hidden flag, transform, bounding box.
// Each answers for any words, and where the state is sound and slot i holds a node, what questions/Links and questions/Boxes say.
// A slot that is handed out is the number of slots where there is no such node.
ghost use Rattle.base.specs.Tests.{head_of};
ghost use Rattle.std.specs.Prelude.{◌≡◌, ◌+◌, ◌<◌, length, get_or, slice_get};
ghost use Rattle.state.specs.State.{parent_at};
ghost use Rattle.questions.specs.Links.{child_ids, siblings, ancestors, hidden_at, is_hidden};
ghost use Rattle.questions.specs.Boxes.{direct_transform, transform, bounding_box};
ghost use Rattle.questions.specs.Walks.{turned};
ghost use Rattle.questions.specs.declared.Side.TheVariants.{Following, Preceding};
ghost use Rattle.question_calls.specs.Slots.{slot_id, OfSlot};

use geometry::Affine;
use geometry_box::BoundingBox;
use ids::FullNodeId;
use questions::Side;
use state_array::State;

// The parent's slot.
pub(crate) fn parent_slot(state: &State, parents: &[u16], i: usize) -> usize
    ensures { OfSlot state.now i (λ f x. slot_id state.now result ≡ parent_at f.nodes x) }
{
    let link = state_array::link_at(state, i);
    if link.linked == 0 {
        return state_array::slots(state);
    }
    state_lookup::slot_hinted(state, state_lookup::hint_at(parents, i), link.parent)
}

// How many children there are; of a graft 1 where its tree exists, else 0.
pub(crate) fn child_count(state: &State, i: usize) -> usize
    ensures { OfSlot state.now i (λ f x. result ≡ length (child_ids f x)) }
{
    let shape = state_array::shape_at(state, i);
    if !state_array::is_graft(shape.flags) {
        return shape.child_count as usize;
    }
    match state_lookup::tree_of(state, shape.graft) {
        Some(_) => 1,
        None => 0,
    }
}

// Child k, without a search for its slot.
pub(crate) fn child_id(state: &State, i: usize, k: usize) -> FullNodeId
    ensures { OfSlot state.now i (λ f x. (k < length (child_ids f x) → result ≡ get_or (child_ids f x) k x)) }
{
    let shape = state_array::shape_at(state, i);
    let x = state_array::id_at(state, i);
    if !state_array::is_graft(shape.flags) {
        let tree = x.tree;
        let node = state_array::child_at(state, x.node, shape.first_child, k);
        return FullNodeId { tree, node };
    }
    match state_lookup::tree_of(state, shape.graft) {
        Some(e) => e.root,
        None => x,
    }
}

// The slot of child k.
fn child_slot(state: &State, i: usize, k: usize) -> usize
    ensures { OfSlot state.now i (λ f x. slot_id state.now result ≡ slice_get (child_ids f x) k) }
{
    if child_count(state, i) <= k {
        return state_array::slots(state);
    }
    state_lookup::slot_near(state, i, child_id(state, i, k))
}

// The slot of the first child, or on the preceding side of the last.
pub(crate) fn first_child_slot(state: &State, side: Side, i: usize) -> usize
    ensures { OfSlot state.now i (λ f x. slot_id state.now result ≡ head_of (turned side (child_ids f x))) }
{
    match side {
        Side::Following => child_slot(state, i, 0),
        Side::Preceding => last_child_slot(state, i),
    }
}

// The slot of the last child.
fn last_child_slot(state: &State, i: usize) -> usize
    ensures { OfSlot state.now i (λ f x. slot_id state.now result ≡ head_of (turned Preceding (child_ids f x))) }
{
    let count = child_count(state, i);
    if count == 0 {
        return state_array::slots(state);
    }
    state_lookup::slot_near(state, i, child_id(state, i, count - 1))
}

// The slot of the next sibling on a side, from the recorded link and the parent's children.
pub(crate) fn sibling_slot(state: &State, parents: &[u16], side: Side, i: usize) -> usize
    ensures { OfSlot state.now i (λ f x. slot_id state.now result ≡ head_of (siblings side f x)) }
{
    match side {
        Side::Following => following_slot(state, parents, i),
        Side::Preceding => preceding_slot(state, parents, i),
    }
}

// That of the next one in order.
fn following_slot(state: &State, parents: &[u16], i: usize) -> usize
    ensures { OfSlot state.now i (λ f x. slot_id state.now result ≡ head_of (siblings Following f x)) }
{
    let n = state_array::slots(state);
    let link = state_array::link_at(state, i);
    let p = parent_slot(state, parents, i);
    if n <= p {
        return n;
    }
    let count = child_count(state, p) as u64;
    let index = link.index;
    if count <= index {
        return n;
    }
    if count - index < 2 {
        return n;
    }
    state_lookup::slot_near(state, i, child_id(state, p, index as usize + 1))
}

// That of the one before it.
fn preceding_slot(state: &State, parents: &[u16], i: usize) -> usize
    ensures { OfSlot state.now i (λ f x. slot_id state.now result ≡ head_of (siblings Preceding f x)) }
{
    let n = state_array::slots(state);
    let link = state_array::link_at(state, i);
    let p = parent_slot(state, parents, i);
    if n <= p {
        return n;
    }
    let index = link.index;
    if index == 0 {
        return n;
    }
    state_lookup::slot_near(state, i, child_id(state, p, index as usize - 1))
}

// Whether the node or one of its ancestors is hidden.
pub(crate) fn is_hidden(state: &State, parents: &[u16], i: usize) -> bool
    ensures { OfSlot state.now i (λ f x. result ≡ is_hidden f x) }
{
    hidden_up(state, parents, i, state_array::SLOTS)
}

// The same, asked of the parent in turn: right where there are fewer ancestors than `room`.
fn hidden_up(state: &State, parents: &[u16], i: usize, room: usize) -> bool
    ensures { OfSlot state.now i (λ f x. (length (ancestors f x) < room → result ≡ is_hidden f x)) }
{
    if room == 0 {
        return false;
    }
    if hidden_at(state, i) {
        return true;
    }
    let p = parent_slot(state, parents, i);
    if state_array::slots(state) <= p {
        return false;
    }
    hidden_up(state, parents, p, room - 1)
}

// The node's own hidden flag.
pub(crate) fn hidden_at(state: &State, i: usize) -> bool
    ensures { OfSlot state.now i (λ f x. result ≡ hidden_at f x) }
{
    state_array::word_at(state, state_array::FLAGS, i) % 2 == 1
}

// The bounding box: that of the node's bounds under its transform, if it has bounds.
pub(crate) fn bounding_box(state: &State, parents: &[u16], i: usize) -> BoundingBox
    ensures { OfSlot state.now i (λ f x. result ≡ bounding_box f x) }
{
    if state_array::word_at(state, state_array::FLAGS, i) / 16 % 2 != 1 {
        return BoundingBox::None;
    }
    geometry_box::box_of(
        transform_of(state, parents, i),
        state_array::bounds_at(state, i),
    )
}

// The node's transform under its ancestors', each multiplied on the left: right where there are fewer ancestors than room for them.
pub(crate) fn transform_of(state: &State, parents: &[u16], i: usize) -> Affine
    ensures { OfSlot state.now i (λ f x. result ≡ transform f x) }
{
    let n = state_array::slots(state);
    let mut whole = direct_transform(state, i);
    let mut p = parent_slot(state, parents, i);
    // Left by `break`, so that there is one return: with a second one in the loop the products are compiled to slower code.
    for _ in 0..state_array::SLOTS {
        if n <= p {
            break;
        }
        whole = geometry_box::product(direct_transform(state, p), whole);
        p = parent_slot(state, parents, p);
    }
    whole
}

// The node's own transform.
fn direct_transform(state: &State, i: usize) -> Affine
    ensures { OfSlot state.now i (λ f x. result ≡ direct_transform f x) }
{
    if state_array::word_at(state, state_array::FLAGS, i) / 32 % 2 == 1 {
        state_array::transform_at(state, i)
    } else {
        geometry_box::identity()
    }
}
