// The questions that terminals ask of a state, one exported function each.
ghost use Rattle.std.specs.Prelude.{◌≡◌};
ghost use Rattle.state_array.specs.View.{view};
ghost use Rattle.questions.specs.Links.{child_ids};
ghost use Rattle.questions.specs.Walks.{filtered_parent, first_filtered_child, last_filtered_child, deepest_first_filtered_child, deepest_last_filtered_child};
ghost use Rattle.node_answers.specs.Reading.{reading};
ghost use Rattle.node_answers.specs.Links.{parent_answer, hidden_answer, transform_answer, box_answer};
ghost use Rattle.node_answers.specs.TreeState.{focus_answer, root_answer, tree_id_answer, tree_index_answer, tree_ends_answer, counts_answer};
ghost use Rattle.cartgravel_plain.specs.Plain.{plain_node, plain_found, plain_flag, plain_transform, plain_box, plain_tree_id};
ghost use Rattle.cartgravel_plain.specs.Plain.{plain_index, plain_ends, plain_counts, side_numbered, filter_numbered};
ghost use Rattle.cartgravel.specs.Questions.{PlainLabel, PlainIds, filter_reply, node_reply, SiblingsOn, FilteredChildren, FilteredOn, FilteredSiblings};

use cartgravel_plain::{
    Flag, FoundId, Listed, PlainBox, PlainCounts, PlainEnds, PlainIndex, PlainNode, PlainResult,
    PlainTransform, PlainTreeId,
};
use ids::{FullNodeId, TreeId, TreeIndex};
use question_calls::{iterators, node};
use questions::Filter;
use state_array::State;

// What a node says of itself.
#[unsafe(no_mangle)]
pub extern "C" fn cartgravel_node(state: &State, id: FullNodeId) -> PlainNode
    ensures { result ≡ plain_node (reading (view state.now).forest id) }
{
    cartgravel_plain::node(node::read(state, id))
}

// A node's label, its bytes in the lent slice.
#[unsafe(no_mangle)]
pub extern "C" fn cartgravel_label<'a, 'b>(
    state: &'a State,
    id: FullNodeId,
    out: &'b mut [u8],
) -> Listed
    ensures { PlainLabel (view state.now).forest id out.old result out.new }
{
    cartgravel_plain::list(node::label(state, id, out))
}

// The answer of `TreeState::focus`.
#[unsafe(no_mangle)]
pub extern "C" fn cartgravel_focus(state: &State) -> FoundId
    ensures { result ≡ plain_found (focus_answer (view state.now)) }
{
    cartgravel_plain::found(node::tree_state::focus(state))
}

// ROOT's root.
#[unsafe(no_mangle)]
pub extern "C" fn cartgravel_root(state: &State) -> FoundId
    ensures { result ≡ plain_found (root_answer (view state.now).forest) }
{
    cartgravel_plain::found(node::tree_state::root(state))
}

// The tree id of a tree number.
#[unsafe(no_mangle)]
pub extern "C" fn cartgravel_tree_id(state: &State, index: TreeIndex) -> PlainTreeId
    ensures { result ≡ plain_tree_id (tree_id_answer (view state.now).forest index) }
{
    cartgravel_plain::tree_id(node::tree_state::tree_id(state, index))
}

// The number of a tree id.
#[unsafe(no_mangle)]
pub extern "C" fn cartgravel_tree_index(state: &State, id: TreeId) -> PlainIndex
    ensures { result ≡ plain_index (tree_index_answer (view state.now).forest id) }
{
    cartgravel_plain::tree_index(node::tree_state::tree_index(state, id))
}

// The root and the focus of a tree.
#[unsafe(no_mangle)]
pub extern "C" fn cartgravel_tree_ends(state: &State, index: TreeIndex) -> PlainEnds
    ensures { result ≡ plain_ends (tree_ends_answer (view state.now).forest index) }
{
    cartgravel_plain::tree_ends(node::tree_state::tree_ends(state, index))
}

// How many nodes and tree numbers there are, and whether the host has the focus.
#[unsafe(no_mangle)]
pub extern "C" fn cartgravel_counts(state: &State) -> PlainCounts
    ensures { result ≡ plain_counts (counts_answer (view state.now)) }
{
    cartgravel_plain::counts(node::tree_state::counts(state))
}

// The parent; of a pane's root its graft node.
#[unsafe(no_mangle)]
pub extern "C" fn cartgravel_parent(state: &State, id: FullNodeId) -> FoundId
    ensures { result ≡ plain_found (parent_answer (view state.now).forest id) }
{
    cartgravel_plain::found(node::parent(state, id))
}

// The children, two elements an id; of a graft its tree's root.
#[unsafe(no_mangle)]
pub extern "C" fn cartgravel_children<'a, 'b>(
    state: &'a State,
    id: FullNodeId,
    out: &'b mut [u64],
) -> Listed
    ensures { PlainIds (view state.now).forest id (child_ids (view state.now).forest id) out.old result out.new }
{
    cartgravel_plain::list(node::children(state, id, out))
}

// The inherited hidden flag.
#[unsafe(no_mangle)]
pub extern "C" fn cartgravel_hidden(state: &State, id: FullNodeId) -> Flag
    ensures { result ≡ plain_flag (hidden_answer (view state.now).forest id) }
{
    cartgravel_plain::hidden(node::is_hidden(state, id))
}

// The transform under those of the ancestors.
#[unsafe(no_mangle)]
pub extern "C" fn cartgravel_transform(state: &State, id: FullNodeId) -> PlainTransform
    ensures { result ≡ plain_transform (transform_answer (view state.now).forest id) }
{
    cartgravel_plain::transform(node::transform(state, id))
}

// The bounding box.
#[unsafe(no_mangle)]
pub extern "C" fn cartgravel_bounding_box(state: &State, id: FullNodeId) -> PlainBox
    ensures { result ≡ plain_box (box_answer (view state.now).forest id) }
{
    cartgravel_plain::bounding_box(node::bounding_box(state, id))
}

// What a filter says of a node.
#[unsafe(no_mangle)]
pub extern "C" fn cartgravel_filter(state: &State, id: FullNodeId, filter: u32) -> PlainResult
    ensures { result ≡ filter_reply (view state.now) id filter }
{
    match cartgravel_plain::filter_of(filter) {
        Some(f) => cartgravel_plain::filter_result(question_calls::filter(state, id, f)),
        None => cartgravel_plain::filter_result(Err(cartgravel_plain::unknown(state))),
    }
}

// The nearest included ancestor.
#[unsafe(no_mangle)]
pub extern "C" fn cartgravel_filtered_parent(state: &State, id: FullNodeId, filter: u32) -> FoundId
    ensures { result ≡ node_reply (view state.now) id filtered_parent filter }
{
    match cartgravel_plain::filter_of(filter) {
        Some(f) => cartgravel_plain::found(iterators::filtered_parent(state, id, f)),
        None => cartgravel_plain::no_node(state),
    }
}

// The first filtered child.
#[unsafe(no_mangle)]
pub extern "C" fn cartgravel_first_filtered_child(
    state: &State,
    id: FullNodeId,
    filter: u32,
) -> FoundId
    ensures { result ≡ node_reply (view state.now) id first_filtered_child filter }
{
    match cartgravel_plain::filter_of(filter) {
        Some(f) => cartgravel_plain::found(iterators::first_filtered_child(state, id, f)),
        None => cartgravel_plain::no_node(state),
    }
}

// The last filtered child.
#[unsafe(no_mangle)]
pub extern "C" fn cartgravel_last_filtered_child(
    state: &State,
    id: FullNodeId,
    filter: u32,
) -> FoundId
    ensures { result ≡ node_reply (view state.now) id last_filtered_child filter }
{
    match cartgravel_plain::filter_of(filter) {
        Some(f) => cartgravel_plain::found(iterators::last_filtered_child(state, id, f)),
        None => cartgravel_plain::no_node(state),
    }
}

// Where the way down by first filtered children ends.
#[unsafe(no_mangle)]
pub extern "C" fn cartgravel_deepest_first_filtered_child(
    state: &State,
    id: FullNodeId,
    filter: u32,
) -> FoundId
    ensures { result ≡ node_reply (view state.now) id deepest_first_filtered_child filter }
{
    match cartgravel_plain::filter_of(filter) {
        Some(f) => cartgravel_plain::found(iterators::deepest_first_filtered_child(state, id, f)),
        None => cartgravel_plain::no_node(state),
    }
}

// Where the way down by last filtered children ends.
#[unsafe(no_mangle)]
pub extern "C" fn cartgravel_deepest_last_filtered_child(
    state: &State,
    id: FullNodeId,
    filter: u32,
) -> FoundId
    ensures { result ≡ node_reply (view state.now) id deepest_last_filtered_child filter }
{
    match cartgravel_plain::filter_of(filter) {
        Some(f) => cartgravel_plain::found(iterators::deepest_last_filtered_child(state, id, f)),
        None => cartgravel_plain::no_node(state),
    }
}

// The siblings on a side, nearest first.
#[unsafe(no_mangle)]
pub extern "C" fn cartgravel_siblings<'a, 'b>(
    state: &'a State,
    id: FullNodeId,
    side: u32,
    out: &'b mut [u64],
) -> Listed
    ensures { SiblingsOn (view state.now).forest id out.old result out.new (side_numbered side) }
{
    match cartgravel_plain::side_of(side) {
        Some(d) => cartgravel_plain::list(iterators::siblings(state, id, d, out)),
        None => cartgravel_plain::no_list(state),
    }
}

// The filtered children, in order.
#[unsafe(no_mangle)]
pub extern "C" fn cartgravel_filtered_children<'a, 'b>(
    state: &'a State,
    id: FullNodeId,
    filter: u32,
    out: &'b mut [u64],
) -> Listed
    ensures { FilteredChildren (view state.now) id out.old result out.new (filter_numbered filter) }
{
    match cartgravel_plain::filter_of(filter) {
        Some(f) => cartgravel_plain::list(iterators::filtered_children(state, id, f, out)),
        None => cartgravel_plain::no_list(state),
    }
}

// The filtered siblings on a side, nearest first.
#[unsafe(no_mangle)]
pub extern "C" fn cartgravel_filtered_siblings<'a, 'b>(
    state: &'a State,
    id: FullNodeId,
    filter: u32,
    side: u32,
    out: &'b mut [u64],
) -> Listed
    ensures { FilteredSiblings (view state.now) id out.old result out.new (side_numbered side) (filter_numbered filter) }
{
    match cartgravel_plain::filter_of(filter) {
        Some(f) => filtered_on(state, id, f, side, out),
        None => cartgravel_plain::no_list(state),
    }
}

// The same of a filter.
fn filtered_on<'a, 'b>(
    state: &'a State,
    id: FullNodeId,
    filter: Filter,
    side: u32,
    out: &'b mut [u64],
) -> Listed
    ensures { FilteredOn (view state.now) id filter out.old result out.new (side_numbered side) }
{
    match cartgravel_plain::side_of(side) {
        Some(d) => cartgravel_plain::list(iterators::filtered_siblings(state, id, filter, d, out)),
        None => cartgravel_plain::no_list(state),
    }
}
