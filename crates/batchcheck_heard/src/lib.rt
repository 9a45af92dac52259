// The items that a cardholder can reach, as `batchcheck --heard` prints them: ROOT's filtered tree, an item to a line. Proved safe and ending,
// no more. The way goes to the first filtered child, else to the next filtered sibling, else to that of an item above, and keeps nothing but
// where it is. It goes by `common_filter_with_root_exception`, which says of every node but ROOT's root what `common_filter` says: so what lies
// right below the root has siblings where the root itself is no item.
#![tactic(auto)]

use batchcheck_nodes::draw;
use batchcheck_nodes::draw::Place;
use batchcheck_nodes::print::spoken;
use ids::FullNodeId;
use node_answers::Refusal;
use program_text::print::{Out, put};
use question_calls::node::tree_state;
use question_calls::{iterators, walk};
use questions::{Filter, FilterResult, Walk};
use state_array::State;

// A walk's numbers for the siblings that follow, and for `common_filter_with_root_exception`.
const FOLLOWING: u32 = 0;

const WITH_ROOT_EXCEPTION: u32 = 2;

// Prints the items of a state, each two spaces to the right of the one above it.
pub fn items<'a>(out: &mut Out, state: &'a State, roles: &'a [u8; 4096]) {
    let Some(first) = first_item(state) else {
        put(out, b"  items: none\n");
        return;
    };
    put(out, b"  items:\n");
    lines(out, state, first, focused_slot(state), roles);
}

// A line for each item from the first on. There are at most as many as nodes.
fn lines<'a>(
    out: &mut Out,
    state: &'a State,
    first: Place,
    focused: Option<usize>,
    roles: &'a [u8; 4096],
) {
    let mut at = Some(first);
    for _ in 0..state_array::slots(state) {
        let Some(place) = at else {
            return;
        };
        draw::indent(out, level(first.depth, place.depth));
        line(out, state, place.slot, focused, roles);
        at = next(state, place);
    }
}

// How far to the right an item stands, where the first has a depth.
fn level(first: usize, depth: usize) -> usize {
    std::num::wrapping_sub_usize(std::num::wrapping_add_usize(depth, 1), first)
}

// The item in a slot, marked where it has the focus.
fn line<'a>(
    out: &mut Out,
    state: &'a State,
    i: usize,
    focused: Option<usize>,
    roles: &'a [u8; 4096],
) {
    spoken(out, state, state_array::id_at(state, i), roles);
    if focused == Some(i) {
        put(out, b" <- focus");
    }
    put(out, b"\n");
}

// The slot of what has the focus, as `TreeState::focus` answers it.
fn focused_slot(state: &State) -> Option<usize> {
    slot_of(state, tree_state::focus(state))
}

// The slot of a node, if the question finds one.
fn slot_of(state: &State, found: Result<Option<FullNodeId>, Refusal>) -> Option<usize> {
    let Ok(Some(x)) = found else {
        return None;
    };
    draw::present(state, x)
}

// ## The way

// The first item: ROOT's root if it is one, else the first below it.
fn first_item(state: &State) -> Option<Place> {
    let Ok(Some(root)) = tree_state::root(state) else {
        return None;
    };
    if is_item(question_calls::filter(state, root, Filter::Common)) {
        let slot = draw::present(state, root)?;
        return Some(Place { slot, depth: 0 });
    }
    let slot = below(state, root)?;
    Some(Place { slot, depth: 1 })
}

// Whether the filter includes a node.
fn is_item(answer: Result<FilterResult, Refusal>) -> bool {
    matches!(answer, Ok(FilterResult::Include))
}

// The item after an item.
fn next(state: &State, p: Place) -> Option<Place> {
    let Some(slot) = below(state, state_array::id_at(state, p.slot)) else {
        return next_beside(state, p);
    };
    Some(Place {
        slot,
        depth: std::num::wrapping_add_usize(p.depth, 1),
    })
}

// The next filtered sibling of an item or of the nearest item above it that has one.
fn next_beside(state: &State, p: Place) -> Option<Place> {
    let mut at = p.slot;
    for depth in (1..=p.depth).rev() {
        if let Some(slot) = beside(state, state_array::id_at(state, at)) {
            return Some(Place { slot, depth });
        }
        at = above(state, state_array::id_at(state, at))?;
    }
    None
}

// The first filtered child; a slot, so with the two below.
fn below(state: &State, x: FullNodeId) -> Option<usize> {
    slot_of(
        state,
        iterators::first_filtered_child(state, x, Filter::WithRootException),
    )
}

// The next filtered sibling: where a walk begins.
fn beside(state: &State, x: FullNodeId) -> Option<usize> {
    let walk = Walk {
        node: x,
        side: FOLLOWING,
        filter: WITH_ROOT_EXCEPTION,
        count: 0,
    };
    let stepped = walk::step(state, walk);
    slot_of(state, stepped.answer)
}

// The filtered parent.
fn above(state: &State, x: FullNodeId) -> Option<usize> {
    slot_of(
        state,
        iterators::filtered_parent(state, x, Filter::WithRootException),
    )
}
