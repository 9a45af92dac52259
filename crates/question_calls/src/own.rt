// What one slot of the state says of its node.
ghost use Rattle.std.specs.Prelude.{◌≡◌, ◌*◌, ◌≤◌, ◌<◌, length};
ghost use Rattle.base.specs.Bytes.{bit};
ghost use Rattle.ids.specs.Ids.{id_words};
ghost use Rattle.record.specs.Batch.{active_descendant?, graft?, bounds?, transform?};
ghost use Rattle.state_array.specs.View.{body_in, id_in, label_in, view};
ghost use Rattle.questions.specs.Answers.{written};
ghost use Rattle.questions.specs.Links.{child_ids};
ghost use Rattle.question_calls.specs.Asks.{NodeAt};
ghost use Rattle.question_calls.specs.Slots.{slot_id};
ghost use Rattle.node_answers.specs.Reading.{reading_of};

use crate::links;
use geometry::{Affine, Rect};
use ids::{FullNodeId, NodeId, TreeId};
use node_answers::NodeReading;
use state_array::State;

// What the node in slot i says of itself.
pub(crate) fn reading(state: &State, i: usize) -> NodeReading
    requires { NodeAt state.now (id_in state.now i) i }
    ensures { result ≡ reading_of (view state.now).forest (id_in state.now i) (body_in state.now i) }
{
    let flags = state_array::word_at(state, state_array::FLAGS, i);
    NodeReading {
        role: state_array::role_at(state, i) as u8,
        hidden: flag(flags, 1),
        clips_children: flag(flags, 2),
        label_length: state_array::label_len(state, i) as usize,
        child_count: links::child_count(state, i),
        bounds: bounds(state, i),
        transform: transform(state, i),
        active_descendant: active_descendant(state, i),
        graft: graft(state, i),
    }
}

// The label of the node in slot i at the start of a slice that has room for it.
pub(crate) fn put_label<'a, 'b>(state: &'a State, i: usize, n: usize, out: &'b mut [u8])
    requires { (n ≡ length (label_in state.now i)) × (n ≤ length out.old) }
    ensures { out.new ≡ written (label_in state.now i) out.old }
{
    for j in 0..n {
        out[j] = state_array::label_byte(state, i, j);
    }
}

// The ids of the children of the node in slot i, at the start of a slice that has room for them.
pub(crate) fn put_children<'a, 'b>(state: &'a State, i: usize, n: usize, out: &'b mut [u64])
    requires node_at { NodeAt state.now (id_in state.now i) i }
    requires n_value { (n ≡ length (child_ids (view state.now).forest (id_in state.now i))) × (2 * n ≤ length out.old) }
    ensures { out.new ≡ written (id_words (child_ids (view state.now).forest (id_in state.now i))) out.old }
{
    for k in 0..n {
        let x = links::child_id(state, i, k);
        let at = 2 * k;
        out[at] = x.tree.0 as u64;
        out[at + 1] = x.node.0;
    }
}

// The node in a slot; none past the last.
pub(crate) fn node_at(state: &State, i: usize) -> Option<FullNodeId>
    ensures { result ≡ slot_id state.now i }
{
    if state_array::slots(state) <= i {
        return None;
    }
    Some(state_array::id_at(state, i))
}

// A node's own bounds.
fn bounds(state: &State, i: usize) -> Option<Rect>
    ensures { result ≡ bounds? (body_in state.now i) }
{
    if !flag(state_array::word_at(state, state_array::FLAGS, i), 16) {
        return None;
    }
    Some(state_array::bounds_at(state, i))
}

// A node's own transform.
fn transform(state: &State, i: usize) -> Option<Affine>
    ensures { result ≡ transform? (body_in state.now i) }
{
    if !flag(state_array::word_at(state, state_array::FLAGS, i), 32) {
        return None;
    }
    Some(state_array::transform_at(state, i))
}

// The active descendant that a node names.
fn active_descendant(state: &State, i: usize) -> Option<NodeId>
    ensures { result ≡ active_descendant? (body_in state.now i) }
{
    if !flag(state_array::word_at(state, state_array::FLAGS, i), 4) {
        return None;
    }
    Some(state_array::active_descendant_at(state, i))
}

// The tree that a node grafts.
fn graft(state: &State, i: usize) -> Option<TreeId>
    ensures { result ≡ graft? (body_in state.now i) }
{
    let shape = state_array::shape_at(state, i);
    if !state_array::is_graft(shape.flags) {
        return None;
    }
    let tree = shape.graft;
    Some(tree)
}

// Whether the flag of a weight is set.
fn flag(flags: u64, weight: u64) -> bool
    requires { 0 < weight }
    ensures { result ≡ bit weight flags }
{
    flags / weight % 2 == 1
}
