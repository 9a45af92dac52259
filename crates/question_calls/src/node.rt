// Questions about a node: what it says of itself, and module 6's links and boxes. Every question answers for any words: it is refused where the state
// is not sound, where the node is not there, where the lent slice is too short. Document 01 has no rule for reading a node or a tree.
pub mod tree_state;

ghost use Rattle.std.specs.Prelude.{◌≡◌};
ghost use Rattle.state_array.specs.View.{view};
ghost use Rattle.node_answers.specs.Reading.{reading, Labels};
ghost use Rattle.node_answers.specs.Links.{parent_answer, Children, hidden_answer, transform_answer, box_answer};

use crate::{links, node_asked, own};
use geometry::Affine;
use geometry_box::BoundingBox;
use ids::FullNodeId;
use node_answers::{NodeReading, Refusal};
use state_array::State;

// What a node says of itself.
pub fn read(state: &State, id: FullNodeId) -> Result<NodeReading, Refusal>
    ensures { result ≡ reading (view state.now).forest id }
{
    let mut parents = [0u16; state_array::SLOTS];
    let slot = node_asked::asked(state, id, &mut parents)?;
    Ok(own::reading(state, slot))
}

// A node's label, its bytes in the lent slice; how many they are.
pub fn label<'a, 'b>(state: &'a State, id: FullNodeId, out: &'b mut [u8]) -> Result<usize, Refusal>
    ensures { Labels (view state.now).forest id out.old result out.new }
{
    let mut parents = [0u16; state_array::SLOTS];
    let slot = node_asked::asked(state, id, &mut parents)?;
    let length = state_array::label_len(state, slot) as usize;
    if out.len() < length {
        return Err(Refusal::TooShort);
    }
    own::put_label(state, slot, length, out);
    Ok(length)
}

// The parent: of a pane's root its graft node, of ROOT's root none.
pub fn parent(state: &State, id: FullNodeId) -> Result<Option<FullNodeId>, Refusal>
    ensures { result ≡ parent_answer (view state.now).forest id }
{
    let mut parents = [0u16; state_array::SLOTS];
    let slot = node_asked::asked(state, id, &mut parents)?;
    Ok(own::node_at(state, links::parent_slot(state, &parents, slot)))
}

// The children, two u64 each in the lent slice; of a graft its tree's root, if that tree exists. How many they are.
pub fn children<'a, 'b>(
    state: &'a State,
    id: FullNodeId,
    out: &'b mut [u64],
) -> Result<usize, Refusal>
    ensures { Children (view state.now).forest id out.old result out.new }
{
    let mut parents = [0u16; state_array::SLOTS];
    let slot = node_asked::asked(state, id, &mut parents)?;
    let length = links::child_count(state, slot);
    if out.len() / 2 < length {
        return Err(Refusal::TooShort);
    }
    own::put_children(state, slot, length, out);
    Ok(length)
}

// Whether the node or one of its ancestors is hidden.
pub fn is_hidden(state: &State, id: FullNodeId) -> Result<bool, Refusal>
    ensures { result ≡ hidden_answer (view state.now).forest id }
{
    let mut parents = [0u16; state_array::SLOTS];
    let slot = node_asked::asked(state, id, &mut parents)?;
    Ok(links::is_hidden(state, &parents, slot))
}

// The transform, its ancestors' included.
pub fn transform(state: &State, id: FullNodeId) -> Result<Affine, Refusal>
    ensures { result ≡ transform_answer (view state.now).forest id }
{
    let mut parents = [0u16; state_array::SLOTS];
    let slot = node_asked::asked(state, id, &mut parents)?;
    Ok(links::transform_of(state, &parents, slot))
}

// The bounding box: none without bounds, or where a number on the way is not finite.
pub fn bounding_box(state: &State, id: FullNodeId) -> Result<BoundingBox, Refusal>
    ensures { result ≡ box_answer (view state.now).forest id }
{
    let mut parents = [0u16; state_array::SLOTS];
    let slot = node_asked::asked(state, id, &mut parents)?;
    Ok(links::bounding_box(state, &parents, slot))
}
