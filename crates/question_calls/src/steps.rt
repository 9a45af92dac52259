// The steps of a walk over the state in memory, as next_filtered_sibling and its twin go (src/iterators.rs): aside to the next sibling, up
// where none is left, down into a node. No filter is asked here.
ghost use Rattle.std.specs.Prelude.{◌++◌, ◌≡◌};
ghost use Rattle.questions.specs.Ahead.{ahead};
ghost use Rattle.questions.specs.Links.{child_ids};
ghost use Rattle.questions.specs.Walks.{turned};
ghost use Rattle.question_calls.specs.Slots.{OfSlot};
ghost use Rattle.question_calls.specs.Places.{met_from, one_more};

use crate::links;
use questions::Side;
use state_array::State;

// Where a walk stands: the slot of a node, and how many levels it may climb. Past the last slot it is at its end.
#[derive(Clone, Copy)]
pub struct Place {
    pub slot: usize,
    pub level: usize,
}

// To what is met next after a node and all below it: its next sibling, or that of the nearest ancestor that has one.
pub(crate) fn after(state: &State, parents: &[u16], side: Side, at: Place) -> Place
    ensures { OfSlot state.now at.slot (λ f x. met_from side state.now result ≡ ahead side f at.level x) }
{
    let n = state_array::slots(state);
    let mut i = at.slot;
    for level in (0..=at.level).rev() {
        let next = links::sibling_slot(state, parents, side, i);
        if next < n {
            return Place { slot: next, level };
        }
        i = links::parent_slot(state, parents, i);
        if n <= i {
            return Place { slot: n, level: 0 };
        }
    }
    Place { slot: n, level: 0 }
}

// To what is met next after a node: its first child on this side, or what comes after it.
pub(crate) fn into(state: &State, parents: &[u16], side: Side, at: Place) -> Place
    ensures { OfSlot state.now at.slot (λ f x. met_from side state.now result ≡ turned side (child_ids f x) ++ ahead side f at.level x) }
{
    let child = links::first_child_slot(state, side, at.slot);
    if child < state_array::slots(state) {
        return Place {
            slot: child,
            level: one_more(at.level),
        };
    }
    after(state, parents, side, at)
}

// One level more, as far as there can be any.
fn one_more(level: usize) -> usize
    ensures { result ≡ one_more level }
{
    if level < state_array::SLOTS {
        level + 1
    } else {
        level
    }
}
