// Module 7 over the state in memory, a node by its slot: what `common_filter` asks of a node, of its ancestors and of its neighbours. The slot
// of the focused node is worked out once for a question and handed on.
ghost use Rattle.std.specs.Prelude.{false, ◌≡◌};
ghost use Rattle.base.specs.Tests.{head_of};
ghost use Rattle.questions.specs.Filters.{active_descendant_at, is_transparent, without_parent_checks};
ghost use Rattle.questions.specs.Links.{is_hidden};
ghost use Rattle.question_calls.specs.Slots.{Sound, slot_id, OfSlot};
ghost use Rattle.question_calls.specs.Places.{met_from};
ghost use Rattle.question_calls.specs.Plain.{seen_at, Focused, own_filter, Above, Lists, unlisted, shown_ahead, is_include};

use crate::steps::Place;
use crate::{links, steps};
use ids::FullNodeId;
use questions::{FilterResult, Side};
use state_array::State;

// The slot of the node that is focused for the filters; past the last slot where none is.
pub(crate) fn focused_slot(state: &State) -> usize
    ensures { Sound state.now → Focused state.now result }
{
    let n = state_array::slots(state);
    if state_array::host(state) == 0 {
        return n;
    }
    let Some(x) = state_focus::effective_focus(state) else {
        return n;
    };
    let i = state_lookup::slot_of(state, x);
    let a = active_descendant_slot(state, i);
    if n <= a {
        return i;
    }
    if a == i {
        return n;
    }
    a
}

// The slot of the active descendant, looked up in the same tree, if present.
fn active_descendant_slot(state: &State, i: usize) -> usize
    ensures { OfSlot state.now i (λ f x. slot_id state.now result ≡ active_descendant_at f.nodes x) }
{
    if state_array::word_at(state, state_array::FLAGS, i) / 4 % 2 != 1 {
        return state_array::slots(state);
    }
    let x = state_array::id_at(state, i);
    let tree = x.tree;
    let y = FullNodeId {
        tree,
        node: state_array::active_descendant_at(state, i),
    };
    state_lookup::slot_near(state, i, y)
}

// Whether its children stand in its place: a graft, a GenericContainer or a TextRun.
pub(crate) fn is_transparent(state: &State, i: usize) -> bool
    ensures { OfSlot state.now i (λ f x. result ≡ is_transparent f x) }
{
    let flags = state_array::word_at(state, state_array::FLAGS, i);
    let role = state_array::role_at(state, i);
    state_array::is_graft(flags) | (role == 0) | (role == 1)
}

// `common_filter_without_parent_checks` of a node none of whose ancestors is hidden.
fn own_filter_at(state: &State, focused: usize, i: usize) -> FilterResult
    ensures { OfSlot state.now i (λ f x. result ≡ own_filter (seen_at state.now focused) x) }
{
    if i == focused {
        return FilterResult::Include;
    }
    if links::hidden_at(state, i) {
        return FilterResult::ExcludeSubtree;
    }
    if is_transparent(state, i) {
        return FilterResult::ExcludeNode;
    }
    FilterResult::Include
}

// `common_filter_without_parent_checks`
pub(crate) fn common_filter_without_parent_checks(
    state: &State,
    parents: &[u16],
    focused: usize,
    i: usize,
) -> FilterResult
    ensures { OfSlot state.now i (λ f x. result ≡ without_parent_checks (seen_at state.now focused) x) }
{
    if i == focused {
        return FilterResult::Include;
    }
    if links::is_hidden(state, parents, i) {
        return FilterResult::ExcludeSubtree;
    }
    if is_transparent(state, i) {
        return FilterResult::ExcludeNode;
    }
    FilterResult::Include
}

// The filtered parent of a node that is not hidden, and how many ancestors before it are passed over; past the last slot where there is none.
// No ancestor of such a node is hidden.
pub(crate) fn included_above(state: &State, parents: &[u16], focused: usize, i: usize) -> Place
    requires { Sound state.now }
    ensures { OfSlot state.now i (λ f x. (is_hidden f x ≡ false → Above (without_parent_checks (seen_at state.now focused)) state.now x result)) }
{
    let n = state_array::slots(state);
    let mut p = links::parent_slot(state, parents, i);
    let mut level = 0usize;
    // Not a `for`: each step asks for the parent of the one before.
    while p < n {
        if is_include(own_filter_at(state, focused, p)) {
            return Place { slot: p, level };
        }
        p = links::parent_slot(state, parents, p);
        level += 1;
    }
    Place { slot: n, level }
}

// From where a walk stands to the first node that is listed.
pub(crate) fn shown_from(
    state: &State,
    parents: &[u16],
    focused: usize,
    side: Side,
    at: Place,
) -> Place
    requires { Sound state.now }
    ensures { Lists (own_filter (seen_at state.now focused)) side state.now at result }
{
    let n = state_array::slots(state);
    let mut here = at;
    // Not a `for`: each step finds where the walk goes on.
    loop {
        let i = here.slot;
        if n <= i {
            return here;
        }
        let result = own_filter_at(state, focused, i);
        if is_include(result) {
            return here;
        }
        here = unlisted(state, parents, side, here, result);
    }
}

// The nearest node that is listed of what is ahead of a node on one side.
pub(crate) fn neighbour(
    state: &State,
    parents: &[u16],
    focused: usize,
    side: Side,
    at: Place,
) -> usize
    requires { Sound state.now }
    ensures { OfSlot state.now at.slot (λ f x. slot_id state.now result ≡ head_of (shown_ahead (seen_at state.now focused) side at.level x)) }
{
    let next = steps::after(state, parents, side, at);
    let found = shown_from(state, parents, focused, side, next);
    found.slot
}

// Where a walk goes on from a node that is not listed: into it for ExcludeNode, else past it.
fn unlisted(state: &State, parents: &[u16], side: Side, at: Place, res: FilterResult) -> Place
    ensures { OfSlot state.now at.slot (λ f x. met_from side state.now result ≡ unlisted side f at.level x res) }
{
    match res {
        FilterResult::Include => steps::after(state, parents, side, at),
        FilterResult::ExcludeNode => steps::into(state, parents, side, at),
        FilterResult::ExcludeSubtree => steps::after(state, parents, side, at),
    }
}

// Whether the node is listed.
pub(crate) fn is_include(res: FilterResult) -> bool
    ensures { result ≡ is_include res }
{
    match res {
        FilterResult::Include => true,
        FilterResult::ExcludeNode => false,
        FilterResult::ExcludeSubtree => false,
    }
}
