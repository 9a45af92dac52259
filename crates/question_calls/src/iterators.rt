// Module 8, names as in src/iterators.rs and src/node.rs: lists of ids in a lent slice, two u64 for an id, and single nodes. Every question answers
// for any words: it is refused where the state is not sound, where the node is not there, where the slice is too short. A list is answered with how
// many ids it has.
ghost use Rattle.std.specs.Prelude.{◌*◌, ◌≤◌, length, take};
ghost use Rattle.state_array.specs.View.{view};
ghost use Rattle.questions.specs.Filters.{filter_of};
ghost use Rattle.questions.specs.Links as links;
ghost use Rattle.questions.specs.Walks.{filtered_parent, first_filtered_child, last_filtered_child};
ghost use Rattle.questions.specs.Walks.{deepest_first_filtered_child, deepest_last_filtered_child};
ghost use Rattle.question_calls.specs.Slots.{Sound};
ghost use Rattle.question_calls.specs.Plain.{seen_at, listed_from};
ghost use Rattle.question_calls.specs.Filters.{Knows};
ghost use Rattle.question_calls.specs.Shown.{filtered_child_on, deepest_on};
ghost use Rattle.question_calls.specs.Iterators.{ListOf, ChildList, SiblingList, Puts, PutsList, NodeOf};

use crate::shown::Start;
use crate::{filters, lists, node_asked, own, plain, shown};
use ids::FullNodeId;
use node_answers::Refusal;
use questions::{Filter, Side};
use state_array::State;

// The words of the longest list: two for each id.
const LIST_WORDS: usize = 2 * state_array::MOST_NODES;

// The siblings on a side, nearest first.
pub fn siblings<'a, 'b>(
    state: &'a State,
    id: FullNodeId,
    side: Side,
    out: &'b mut [u64],
) -> Result<usize, Refusal>
    ensures { ListOf (view state.now).forest id (links.siblings side (view state.now).forest id) out.old result out.new }
{
    let mut parents = [0u16; state_array::SLOTS];
    let slot = node_asked::asked(state, id, &mut parents)?;
    let run = lists::siblings_run(state, &parents, side, slot);
    let n = run.count;
    if out.len() / 2 < n {
        return Err(Refusal::TooShort);
    }
    lists::put_siblings(state, &parents, side, slot, out);
    Ok(n)
}

// The filtered children, in order.
pub fn filtered_children<'a, 'b>(
    state: &'a State,
    id: FullNodeId,
    filter: Filter,
    out: &'b mut [u64],
) -> Result<usize, Refusal>
    ensures { ChildList (view state.now) id filter out.old result out.new }
{
    let mut parents = [0u16; state_array::SLOTS];
    let slot = node_asked::asked(state, id, &mut parents)?;
    let focused = plain::focused_slot(state);
    let known = filters::known_at(state, &parents, focused, filter, slot);
    let side = Side::Following;
    let place = shown::shown_child(state, &parents, focused, filter, known, side, slot);
    list_from(
        state,
        &parents,
        focused,
        filter,
        side,
        Start { known, place },
        out,
    )
}

// The filtered siblings on a side, nearest first.
pub fn filtered_siblings<'a, 'b>(
    state: &'a State,
    id: FullNodeId,
    filter: Filter,
    side: Side,
    out: &'b mut [u64],
) -> Result<usize, Refusal>
    ensures { SiblingList (view state.now) id filter side out.old result out.new }
{
    let mut parents = [0u16; state_array::SLOTS];
    let slot = node_asked::asked(state, id, &mut parents)?;
    let focused = plain::focused_slot(state);
    let start = shown::shown_sibling(state, &parents, focused, filter, side, slot);
    list_from(state, &parents, focused, filter, side, start, out)
}

// Writes what is listed from a place on, if the slice has room for it.
fn list_from<'a, 'b>(
    state: &'a State,
    parents: &'a [u16],
    focused: usize,
    filter: Filter,
    side: Side,
    start: Start,
    out: &'b mut [u64],
) -> Result<usize, Refusal>
    requires sound { Sound state.now }
    requires knows { Knows state.now focused start.known }
    ensures { PutsList (listed_from (filter_of filter (seen_at state.now focused)) side state.now start.place) out.old result out.new }
{
    if state_array::slots(state) <= start.place.slot {
        return Ok(0);
    }
    let mut ids = [0u64; LIST_WORDS];
    let n = shown::collect(
        state,
        parents,
        focused,
        filter,
        start.known,
        side,
        start.place,
        &mut ids,
    );
    put(&ids, n, out)
}

// Copies the first n ids of a buffer into the lent slice, if it has room for them.
fn put<'a, 'b>(ids: &'a [u64], n: usize, out: &'b mut [u64]) -> Result<usize, Refusal>
    requires { 2 * n ≤ length ids.now }
    ensures { Puts (take (2 * n) ids.now) n out.old result out.new }
{
    let words = 2 * n;
    if out.len() < words {
        return Err(Refusal::TooShort);
    }
    out[..words].copy_from_slice(&ids[..words]);
    Ok(n)
}

// The filtered parent: the nearest ancestor that is included.
pub fn filtered_parent(
    state: &State,
    id: FullNodeId,
    filter: Filter,
) -> Result<Option<FullNodeId>, Refusal>
    ensures { NodeOf (view state.now) id filter filtered_parent result }
{
    let mut parents = [0u16; state_array::SLOTS];
    let slot = node_asked::asked(state, id, &mut parents)?;
    let focused = plain::focused_slot(state);
    Ok(own::node_at(
        state,
        shown::filtered_parent(state, &parents, focused, filter, slot),
    ))
}

// The first filtered child.
pub fn first_filtered_child(
    state: &State,
    id: FullNodeId,
    filter: Filter,
) -> Result<Option<FullNodeId>, Refusal>
    ensures { NodeOf (view state.now) id filter first_filtered_child result }
{
    filtered_child(state, id, filter, Side::Following)
}

// The last filtered child.
pub fn last_filtered_child(
    state: &State,
    id: FullNodeId,
    filter: Filter,
) -> Result<Option<FullNodeId>, Refusal>
    ensures { NodeOf (view state.now) id filter last_filtered_child result }
{
    filtered_child(state, id, filter, Side::Preceding)
}

// The deepest first filtered child: the first filtered child, that of it, and so on.
pub fn deepest_first_filtered_child(
    state: &State,
    id: FullNodeId,
    filter: Filter,
) -> Result<Option<FullNodeId>, Refusal>
    ensures { NodeOf (view state.now) id filter deepest_first_filtered_child result }
{
    deepest_child(state, id, filter, Side::Following)
}

// The deepest last filtered child.
pub fn deepest_last_filtered_child(
    state: &State,
    id: FullNodeId,
    filter: Filter,
) -> Result<Option<FullNodeId>, Refusal>
    ensures { NodeOf (view state.now) id filter deepest_last_filtered_child result }
{
    deepest_child(state, id, filter, Side::Preceding)
}

// The first filtered child, or on the preceding side the last.
fn filtered_child(
    state: &State,
    id: FullNodeId,
    filter: Filter,
    side: Side,
) -> Result<Option<FullNodeId>, Refusal>
    ensures { NodeOf (view state.now) id filter (filtered_child_on side) result }
{
    let mut parents = [0u16; state_array::SLOTS];
    let slot = node_asked::asked(state, id, &mut parents)?;
    let focused = plain::focused_slot(state);
    let known = filters::known_at(state, &parents, focused, filter, slot);
    Ok(own::node_at(
        state,
        shown::filtered_child(state, &parents, focused, filter, known, side, slot),
    ))
}

// The deepest of them.
fn deepest_child(
    state: &State,
    id: FullNodeId,
    filter: Filter,
    side: Side,
) -> Result<Option<FullNodeId>, Refusal>
    ensures { NodeOf (view state.now) id filter (deepest_on side) result }
{
    let mut parents = [0u16; state_array::SLOTS];
    let slot = node_asked::asked(state, id, &mut parents)?;
    let focused = plain::focused_slot(state);
    Ok(own::node_at(
        state,
        shown::deepest_child(state, &parents, focused, filter, side, slot),
    ))
}
