// Module 8, the sibling walk that the caller keeps, by value; `cartgravel_next` is lent it by `&mut`. No list is made: the sibling at the walk's
// count is found by its place, or by as many steps of the walking engine.
ghost use Rattle.std.specs.Prelude.{◌≡◌, ◌+◌, ◌<◌, slice_get};
ghost use Rattle.state_array.specs.View.{slots_of, view};
ghost use Rattle.questions.specs.Filters.{seen, filter_of};
ghost use Rattle.questions.specs.Kept.{side_of, filter_choice, next_of};
ghost use Rattle.questions.specs.Links.{siblings};
ghost use Rattle.questions.specs.Walks.{filtered_siblings};
ghost use Rattle.question_calls.specs.Slots.{Sound, OfSlot};
ghost use Rattle.question_calls.specs.Walk.{stepped_of, handed_out, AsksWalk, Ours, FindsAt};

use crate::{lists, node_asked, plain, shown};
use ids::FullNodeId;
use node_answers::Refusal;
use questions::{Filter, Side, Walk};
use state_array::State;

// What a call answers, and the walk after it.
#[derive(Clone, Copy)]
pub struct Stepped {
    pub walk: Walk,
    pub answer: Result<Option<FullNodeId>, Refusal>,
}

// The next sibling in the state given, or nothing at the end. The walk moves on with an answer alone.
pub fn step(state: &State, walk: Walk) -> Stepped
    ensures { result ≡ stepped_of (next_of (view state.now) walk) }
{
    let mut parents = [0u16; state_array::SLOTS];
    let slot = match asked(state, walk, &mut parents) {
        Ok(slot) => slot,
        Err(refusal) => return hand_out(walk, walk.count, Err(refusal)),
    };
    let found = sibling_at(state, &parents, slot, walk.side, walk.filter, walk.count);
    let further = one_more(walk.count);
    match found {
        None => hand_out(walk, walk.count, Ok(None)),
        Some(_) => hand_out(walk, further, Ok(found)),
    }
}

// An answer, and the walk with a count.
fn hand_out(walk: Walk, count: u64, answer: Result<Option<FullNodeId>, Refusal>) -> Stepped
    ensures { result ≡ handed_out walk count answer }
{
    let node = walk.node;
    Stepped {
        walk: Walk {
            node,
            side: walk.side,
            filter: walk.filter,
            count,
        },
        answer,
    }
}

// One more was handed out. A list has at most 256.
fn one_more(count: u64) -> u64
    ensures { count < 256 → result ≡ count + 1 }
{
    if count < state_array::MOST_NODES as u64 {
        count + 1
    } else {
        count
    }
}

// The slot of the node that a walk is about. Before it is looked for, the side and the filter must be ours.
fn asked<'a, 'b>(state: &'a State, walk: Walk, parents: &'b mut [u16]) -> Result<usize, Refusal>
    ensures { AsksWalk state.now walk result }
{
    node_asked::noted(state, parents)?;
    if 1 < walk.side {
        return Err(Refusal::NotOurs);
    }
    if 3 < walk.filter {
        return Err(Refusal::NotOurs);
    }
    let node = walk.node;
    node_asked::standing(state, node)
}

// The sibling at a place of the walk's list, if there is one.
fn sibling_at(
    state: &State,
    parents: &[u16],
    i: usize,
    side: u32,
    filter: u32,
    count: u64,
) -> Option<FullNodeId>
    requires sound { Sound state.now }
    requires i_bound { i < slots_of state.now }
    requires ours { Ours side filter }
    ensures { FindsAt state.now i side filter count result }
{
    let on = side_of(side);
    if filter == 0 {
        return plain_at(state, parents, i, on, count);
    }
    shown_at(state, parents, i, on, filter_of(filter), count)
}

// Without a filter, by its place among the parent's children.
fn plain_at(state: &State, parents: &[u16], i: usize, side: Side, count: u64) -> Option<FullNodeId>
    requires sound { Sound state.now }
    requires i_bound { i < slots_of state.now }
    ensures { OfSlot state.now i (λ f x. result ≡ slice_get (siblings side f x) count) }
{
    let run = lists::siblings_run(state, parents, side, i);
    let k = count as usize;
    if run.count <= k {
        return None;
    }
    Some(lists::sibling_at(state, side, run, k))
}

// Under a filter, by the walking engine.
fn shown_at(
    state: &State,
    parents: &[u16],
    i: usize,
    side: Side,
    filter: Filter,
    count: u64,
) -> Option<FullNodeId>
    requires { Sound state.now }
    ensures { OfSlot state.now i (λ f x. result ≡ slice_get (filtered_siblings (filter_of filter (seen (view state.now))) side f x) count) }
{
    let focused = plain::focused_slot(state);
    let start = shown::shown_sibling(state, parents, focused, filter, side, i);
    let slot = shown::listed_at(
        state,
        parents,
        focused,
        filter,
        start.known,
        side,
        start.place,
        count,
    );
    if state_array::slots(state) <= slot {
        return None;
    }
    Some(state_array::id_at(state, slot))
}

// The side that a number means.
fn side_of(number: u32) -> Side
    requires { number < 2 }
    ensures { side_of number ≡ Some result }
{
    if number == 0 {
        Side::Following
    } else {
        Side::Preceding
    }
}

// The filter that a number means.
fn filter_of(number: u32) -> Filter
    requires { (0 < number) × (number < 4) }
    ensures { filter_choice number ≡ Some (Some result) }
{
    match number {
        1 => Filter::Common,
        2 => Filter::WithRootException,
        _ => Filter::WithoutParentChecks,
    }
}
