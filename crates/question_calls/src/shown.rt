// Module 8 under a filter, over the state in memory, a node by its slot: the steps of src/iterators.rs, and what src/node.rs asks of ancestors
// and children. A list is named by the place of its first node; no list is made twice.
ghost use Rattle.std.specs.Prelude.{◌≡◌, ◌≤◌, length, slice_get};
ghost use Rattle.questions.specs.Filters.{without_parent_checks, filter_of};
ghost use Rattle.questions.specs.Walks.{filtered_parent};
ghost use Rattle.question_calls.specs.Slots.{Sound, slot_id, OfSlot};
ghost use Rattle.question_calls.specs.Places.{met_from};
ghost use Rattle.question_calls.specs.Lists.{Collected};
ghost use Rattle.question_calls.specs.Plain.{seen_at, listed_from, Lists, first_included, up_from};
ghost use Rattle.question_calls.specs.Filters.{Knows, Included};
ghost use Rattle.question_calls.specs.Shown.{met_after, ListsAhead, ListsBelow, ListsSiblings, Climbs, filtered_child_on, deepest_on};

use crate::filters::Known;
use crate::steps::Place;
use crate::{filters, links, lists, plain, steps};
use questions::{Filter, Side};
use state_array::State;

// Where a list begins, and what is known of the parent of its first nodes.
#[derive(Clone, Copy)]
pub struct Start {
    pub known: Known,
    pub place: Place,
}

// From where a walk stands to the first node that is listed: past a node that is dropped, into one whose children stand in its place.
fn shown_from(
    state: &State,
    parents: &[u16],
    focused: usize,
    filter: Filter,
    known: Known,
    side: Side,
    at: Place,
) -> Place
    requires sound { Sound state.now }
    requires knows { Knows state.now focused known }
    ensures lists { Lists (filter_of filter (seen_at state.now focused)) side state.now at result }
    ensures included { Included filter state.now focused result.slot }
{
    let n = state_array::slots(state);
    let mut here = at;
    let mut consider_children = false;
    // Not a `for`: each step finds where the walk goes on.
    loop {
        let i = here.slot;
        if n <= i {
            return here;
        }
        let result = filters::filter_knowing(state, parents, focused, filter, known, i);
        if plain::is_include(result) {
            return here;
        }
        consider_children = filters::is_exclude_node(result);
        here = go_on(state, parents, side, here, consider_children);
    }
}

// On from a node: into it, or past it.
fn go_on(state: &State, parents: &[u16], side: Side, at: Place, inside: bool) -> Place
    ensures { OfSlot state.now at.slot (λ f x. met_from side state.now result ≡ met_after side f at.level x inside) }
{
    if inside {
        return steps::into(state, parents, side, at);
    }
    steps::after(state, parents, side, at)
}

// To the first node that is listed of what is ahead of a node.
fn shown_after(
    state: &State,
    parents: &[u16],
    focused: usize,
    filter: Filter,
    known: Known,
    side: Side,
    at: Place,
) -> Place
    requires sound { Sound state.now }
    requires knows { Knows state.now focused known }
    ensures { OfSlot state.now at.slot (ListsAhead (filter_of filter (seen_at state.now focused)) side state.now at.level result) }
{
    shown_from(
        state,
        parents,
        focused,
        filter,
        known,
        side,
        steps::after(state, parents, side, at),
    )
}

// To the first filtered child on a side.
pub(crate) fn shown_child(
    state: &State,
    parents: &[u16],
    focused: usize,
    filter: Filter,
    known: Known,
    side: Side,
    i: usize,
) -> Place
    requires sound { Sound state.now }
    requires knows { Knows state.now focused known }
    ensures of_slot { OfSlot state.now i (ListsBelow (filter_of filter (seen_at state.now focused)) side state.now result) }
    ensures included { Included filter state.now focused result.slot }
{
    let slot = links::first_child_slot(state, side, i);
    shown_from(
        state,
        parents,
        focused,
        filter,
        known,
        side,
        Place { slot, level: 0 },
    )
}

// Past the ancestors from the parent on that are ExcludeNode: the slot of the next one, and how many were passed.
fn climb(state: &State, parents: &[u16], focused: usize, filter: Filter, i: usize) -> Place
    requires { Sound state.now }
    ensures { OfSlot state.now i (λ f x. Climbs (filter_of filter (seen_at state.now focused)) state.now x result) }
{
    let n = state_array::slots(state);
    let mut p = links::parent_slot(state, parents, i);
    let mut level = 0usize;
    // Not a `for`: each step asks for the parent of the one before.
    while p < n {
        if !filters::is_passed(state, parents, focused, filter, p) {
            return Place { slot: p, level };
        }
        p = links::parent_slot(state, parents, p);
        level += 1;
    }
    Place { slot: n, level }
}

// The nearest included node from a node up, and what is known of the node.
#[derive(Clone, Copy)]
struct Near {
    known: Known,
    included: usize,
}

// The same, from the node in a slot.
fn nearest(state: &State, parents: &[u16], focused: usize, filter: Filter, i: usize) -> Near
    requires { Sound state.now }
    ensures included_value { slot_id state.now result.included ≡ first_included (filter_of filter (seen_at state.now focused)) (up_from state.now i) }
    ensures knows { Knows state.now focused result.known }
{
    if filters::is_plain(filter) {
        return Near {
            known: Known {
                slot: state_array::slots(state),
                dropped: false,
            },
            included: included_from(state, parents, focused, i),
        };
    }
    let excepted = filters::has_root_exception(filter);
    let up = filters::nearest_up(state, parents, focused, excepted, i);
    Near {
        known: Known {
            slot: i,
            dropped: up.dropped,
        },
        included: up.included,
    }
}

// The first that the filter without parent checks includes of a node and its ancestors.
fn included_from(state: &State, parents: &[u16], focused: usize, from: usize) -> usize
    requires { Sound state.now }
    ensures { slot_id state.now result ≡ first_included (without_parent_checks (seen_at state.now focused)) (up_from state.now from) }
{
    let n = state_array::slots(state);
    let mut p = from;
    // Not a `for`: each step asks for the parent of the one before.
    while p < n {
        if plain::is_include(plain::common_filter_without_parent_checks(
            state, parents, focused, p,
        )) {
            return p;
        }
        p = links::parent_slot(state, parents, p);
    }
    n
}

// The filtered parent.
pub(crate) fn filtered_parent(
    state: &State,
    parents: &[u16],
    focused: usize,
    filter: Filter,
    i: usize,
) -> usize
    requires { Sound state.now }
    ensures { OfSlot state.now i (λ f x. slot_id state.now result ≡ filtered_parent (filter_of filter (seen_at state.now focused)) f x) }
{
    let p = links::parent_slot(state, parents, i);
    let up = nearest(state, parents, focused, filter, p);
    up.included
}

// The first filtered child, or on the preceding side the last.
pub(crate) fn filtered_child(
    state: &State,
    parents: &[u16],
    focused: usize,
    filter: Filter,
    known: Known,
    side: Side,
    i: usize,
) -> usize
    requires sound { Sound state.now }
    requires knows { Knows state.now focused known }
    ensures of_slot { OfSlot state.now i (λ f x. slot_id state.now result ≡ filtered_child_on side (filter_of filter (seen_at state.now focused)) f x) }
    ensures included { Included filter state.now focused result }
{
    let first = shown_child(state, parents, focused, filter, known, side, i);
    first.slot
}

// The deepest first filtered child, or on the preceding side the deepest last.
pub(crate) fn deepest_child(
    state: &State,
    parents: &[u16],
    focused: usize,
    filter: Filter,
    side: Side,
    i: usize,
) -> usize
    requires { Sound state.now }
    ensures { OfSlot state.now i (λ f x. slot_id state.now result ≡ deepest_on side (filter_of filter (seen_at state.now focused)) f x) }
{
    let n = state_array::slots(state);
    let top = filters::known_at(state, parents, focused, filter, i);
    let mut deepest = filtered_child(state, parents, focused, filter, top, side, i);
    if n <= deepest {
        return n;
    }
    // Not a `for`: each step goes down to the child that it finds.
    loop {
        let known = filters::known_included(state, filter, deepest);
        let next = filtered_child(state, parents, focused, filter, known, side, deepest);
        if n <= next {
            return deepest;
        }
        deepest = next;
    }
}

// To the nearest filtered sibling on a side. Where nothing is ahead, no ancestor is asked for.
pub(crate) fn shown_sibling(
    state: &State,
    parents: &[u16],
    focused: usize,
    filter: Filter,
    side: Side,
    i: usize,
) -> Start
    requires { Sound state.now }
    ensures of_slot { OfSlot state.now i (ListsSiblings (filter_of filter (seen_at state.now focused)) side state.now result.place) }
    ensures knows { Knows state.now focused result.known }
{
    let n = state_array::slots(state);
    let up = climb(state, parents, focused, filter, i);
    let level = up.level;
    let next = steps::after(state, parents, side, Place { slot: i, level });
    let end = Place { slot: n, level: 0 };
    if n <= next.slot {
        return Start {
            known: filters::nothing_known(state),
            place: end,
        };
    }
    let near = nearest(state, parents, focused, filter, up.slot);
    let parent = near.included;
    let known = near.known;
    if n <= parent {
        return Start { known, place: end };
    }
    let told = filters::known_included(state, filter, parent);
    let on = Side::Following;
    let first = filtered_child(state, parents, focused, filter, told, on, parent);
    if n <= first {
        return Start { known, place: end };
    }
    let place = shown_from(state, parents, focused, filter, known, side, next);
    Start { known, place }
}

// Collects the ids that are listed from a place on; answers how many there are.
pub(crate) fn collect(
    state: &State,
    parents: &[u16],
    focused: usize,
    filter: Filter,
    known: Known,
    side: Side,
    start: Place,
    ids: &mut [u64],
) -> usize
    requires sound { Sound state.now }
    requires knows { Knows state.now focused known }
    requires in_bounds { 512 ≤ length ids.old }
    ensures { Collected (listed_from (filter_of filter (seen_at state.now focused)) side state.now start) ids.old ids.new result }
{
    let n = state_array::slots(state);
    let mut here = start;
    let mut k = 0usize;
    // Not a `for`: the walk finds where the list ends.
    loop {
        let i = here.slot;
        if n <= i {
            return k;
        }
        lists::store(ids, k, state_array::id_at(state, i));
        k += 1;
        here = shown_after(state, parents, focused, filter, known, side, here);
    }
}

// The slot of the node at a place of the list.
pub(crate) fn listed_at(
    state: &State,
    parents: &[u16],
    focused: usize,
    filter: Filter,
    known: Known,
    side: Side,
    start: Place,
    count: u64,
) -> usize
    requires sound { Sound state.now }
    requires knows { Knows state.now focused known }
    ensures { slot_id state.now result ≡ slice_get (listed_from (filter_of filter (seen_at state.now focused)) side state.now start) count }
{
    let n = state_array::slots(state);
    let mut here = start;
    for _ in 0..count {
        if n <= here.slot {
            return n;
        }
        here = shown_after(state, parents, focused, filter, known, side, here);
    }
    here.slot
}
