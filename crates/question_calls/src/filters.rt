// Module 7: the three filters of src/filters.rs over the state in memory, in its order, and the question. A node that a function here is asked
// about is named by its slot.
ghost use Rattle.std.specs.Prelude.{false, ◌≡◌, ℕ};
ghost use Rattle.base.specs.Tests.{same_option};
ghost use Rattle.ids.specs.Ids.{same_id};
ghost use Rattle.state.specs.Down.{root_of};
ghost use Rattle.state_array.specs.View.{id_in, view};
ghost use Rattle.questions.specs.Filters.{is_transparent, clips_at, is_clipped, is_exclude_subtree, common_filter, with_root_exception, filter_of};
ghost use Rattle.question_calls.specs.Slots.{Sound, OfSlot};
ghost use Rattle.question_calls.specs.Plain.{seen_at};
ghost use Rattle.question_calls.specs.Filters.{Unhidden, nearest_inside, parent_dropped, Knows, Included, Told, is_plain, has_root_exception, is_kept, is_exclude_node, Near};
ghost use Rattle.node_answers.specs.Filter.{filter_answer};

use crate::steps::Place;
use crate::{links, node_asked, plain};
use geometry_box::BoundingBox;
use ids::{FullNodeId, TreeId};
use node_answers::Refusal;
use questions::{Filter, FilterResult, Side};
use state_array::State;

// The question: what a filter says of a node.
pub fn filter(state: &State, id: FullNodeId, filter: Filter) -> Result<FilterResult, Refusal>
    ensures { result ≡ filter_answer (view state.now) id filter }
{
    let mut parents = [0u16; state_array::SLOTS];
    let slot = node_asked::asked(state, id, &mut parents)?;
    let focused = plain::focused_slot(state);
    Ok(filter_at(state, &parents, focused, filter, slot))
}

// One of the three.
fn filter_at(
    state: &State,
    parents: &[u16],
    focused: usize,
    filter: Filter,
    i: usize,
) -> FilterResult
    requires { Sound state.now }
    ensures { OfSlot state.now i (λ f x. result ≡ filter_of filter (seen_at state.now focused) x) }
{
    match filter {
        Filter::Common => common_filter_or_hidden(state, parents, focused, i),
        Filter::WithRootException => common_filter_with_root_exception(state, parents, focused, i),
        Filter::WithoutParentChecks => {
            plain::common_filter_without_parent_checks(state, parents, focused, i)
        }
    }
}

// Whether the nearest filtered sibling on a side lies inside the parent's box.
fn is_first_sibling_in_parent_bbox(
    state: &State,
    parents: &[u16],
    focused: usize,
    side: Side,
    at: Place,
    bbox: BoundingBox,
) -> bool
    requires { Sound state.now }
    ensures { OfSlot state.now at.slot (λ f x. result ≡ nearest_inside (seen_at state.now focused) side at.level x bbox) }
{
    let sibling = plain::neighbour(state, parents, focused, side, at);
    if state_array::slots(state) <= sibling {
        return false;
    }
    geometry_box::do_meet(links::bounding_box(state, parents, sibling), bbox)
}

// Whether a node lies outside the box of its filtered parent, which clips its children, and no neighbour of it lies inside. The neighbours are asked last.
fn is_clipped(state: &State, parents: &[u16], focused: usize, i: usize) -> bool
    requires { Unhidden state.now i }
    ensures { OfSlot state.now i (λ f x. (is_transparent f x ≡ false → result ≡ is_clipped (seen_at state.now focused) x)) }
{
    let above = plain::included_above(state, parents, focused, i);
    let p = above.slot;
    if state_array::slots(state) <= p {
        return false;
    }
    if !clips_children(state, p) {
        return false;
    }
    let parent_bbox = links::bounding_box(state, parents, p);
    if !geometry_box::are_apart(links::bounding_box(state, parents, i), parent_bbox) {
        return false;
    }
    let level = above.level;
    let at = Place { slot: i, level };
    if is_first_sibling_in_parent_bbox(state, parents, focused, Side::Following, at, parent_bbox) {
        return false;
    }
    !is_first_sibling_in_parent_bbox(state, parents, focused, Side::Preceding, at, parent_bbox)
}

// `common_filter` of any node: whether it or an ancestor is hidden is asked here, once.
fn common_filter_or_hidden(state: &State, parents: &[u16], focused: usize, i: usize) -> FilterResult
    requires { Sound state.now }
    ensures { OfSlot state.now i (λ f x. result ≡ common_filter (seen_at state.now focused) x) }
{
    if i == focused {
        return FilterResult::Include;
    }
    if state_array::slots(state) <= i {
        return FilterResult::Include;
    }
    if links::is_hidden(state, parents, i) {
        return FilterResult::ExcludeSubtree;
    }
    common_filter(state, parents, focused, i)
}

// `common_filter` of a node that is not hidden, so that no ancestor is: it asks the same question of the parent, one step nearer the root.
fn common_filter(state: &State, parents: &[u16], focused: usize, i: usize) -> FilterResult
    requires { Unhidden state.now i }
    ensures { result ≡ common_filter (seen_at state.now focused) (id_in state.now i) }
{
    if focused == i {
        return FilterResult::Include;
    }
    if plain::is_transparent(state, i) {
        return FilterResult::ExcludeNode;
    }
    let p = links::parent_slot(state, parents, i);
    if state_array::slots(state) <= p {
        return FilterResult::Include;
    }
    if is_exclude_subtree(common_filter(state, parents, focused, p)) {
        return FilterResult::ExcludeSubtree;
    }
    if is_clipped(state, parents, focused, i) {
        return FilterResult::ExcludeSubtree;
    }
    FilterResult::Include
}

// `common_filter_with_root_exception`
fn common_filter_with_root_exception(
    state: &State,
    parents: &[u16],
    focused: usize,
    i: usize,
) -> FilterResult
    requires { Sound state.now }
    ensures { OfSlot state.now i (λ f x. result ≡ with_root_exception (seen_at state.now focused) x) }
{
    if is_root(state, i) {
        return FilterResult::Include;
    }
    common_filter_or_hidden(state, parents, focused, i)
}

// ## By what is known of the parent

// Whether `common_filter` drops the node in a slot. Past the last slot nothing is known.
#[derive(Clone, Copy)]
pub struct Known {
    pub slot: usize,
    pub dropped: bool,
}

// What is known where nothing is, whichever node is focused.
pub(crate) fn nothing_known(state: &State) -> Known
    ensures { (k : ℕ) → Knows state.now k result }
{
    Known {
        slot: state_array::slots(state),
        dropped: false,
    }
}

// What a filter needs to know of a node, to be asked of those below it: nothing where it asks no parent, or where no node below would ask: there
// is no child, or all are hidden or transparent.
pub(crate) fn known_at(
    state: &State,
    parents: &[u16],
    focused: usize,
    filter: Filter,
    i: usize,
) -> Known
    requires { Sound state.now }
    ensures { Knows state.now focused result }
{
    if is_plain(filter) {
        return nothing_known(state);
    }
    let on = Side::Following;
    let slot = links::first_child_slot(state, on, i);
    let met = plain::shown_from(state, parents, focused, on, Place { slot, level: 0 });
    if state_array::slots(state) <= met.slot {
        return nothing_known(state);
    }
    let result = common_filter_or_hidden(state, parents, focused, i);
    Known {
        slot: i,
        dropped: is_exclude_subtree(result),
    }
}

// The same of a node that the filter includes: `common_filter` does not drop it, unless it is ROOT's root.
pub(crate) fn known_included(state: &State, filter: Filter, i: usize) -> Known
    ensures { (k : ℕ) → Included filter state.now k i → Knows state.now k result }
{
    if is_plain(filter) {
        return nothing_known(state);
    }
    if is_root(state, i) {
        return nothing_known(state);
    }
    Known {
        slot: i,
        dropped: false,
    }
}

// One of the three, where something is known of a node above.
pub(crate) fn filter_knowing(
    state: &State,
    parents: &[u16],
    focused: usize,
    filter: Filter,
    known: Known,
    i: usize,
) -> FilterResult
    requires sound { Sound state.now }
    requires knows { Knows state.now focused known }
    ensures { OfSlot state.now i (λ f x. result ≡ filter_of filter (seen_at state.now focused) x) }
{
    match filter {
        Filter::Common => common_filter_knowing(state, parents, focused, known, i),
        Filter::WithRootException => {
            if is_root(state, i) {
                FilterResult::Include
            } else {
                common_filter_knowing(state, parents, focused, known, i)
            }
        }
        Filter::WithoutParentChecks => {
            plain::common_filter_without_parent_checks(state, parents, focused, i)
        }
    }
}

// `common_filter`, where something is known of a node above. A node that is hidden itself or transparent asks no parent.
fn common_filter_knowing(
    state: &State,
    parents: &[u16],
    focused: usize,
    known: Known,
    i: usize,
) -> FilterResult
    requires sound { Sound state.now }
    requires knows { Knows state.now focused known }
    ensures { OfSlot state.now i (λ f x. result ≡ common_filter (seen_at state.now focused) x) }
{
    if state_array::slots(state) <= i {
        return FilterResult::Include;
    }
    if plain::is_transparent(state, i) | links::hidden_at(state, i) {
        return common_filter_or_hidden(state, parents, focused, i);
    }
    let hidden = links::is_hidden(state, parents, i);
    let dropped = is_parent_dropped(state, parents, focused, known, i);
    common_filter_told(state, parents, focused, i, hidden, dropped)
}

// Whether `common_filter` drops the parent.
fn is_parent_dropped(state: &State, parents: &[u16], focused: usize, known: Known, i: usize) -> bool
    requires sound { Sound state.now }
    requires knows { Knows state.now focused known }
    ensures { OfSlot state.now i (λ f x. result ≡ parent_dropped (seen_at state.now focused) x) }
{
    let p = links::parent_slot(state, parents, i);
    if state_array::slots(state) <= p {
        return false;
    }
    if p == known.slot {
        return known.dropped;
    }
    is_exclude_subtree(common_filter_or_hidden(state, parents, focused, p))
}

// `common_filter` of a node, told whether it is hidden and whether its parent is dropped.
fn common_filter_told(
    state: &State,
    parents: &[u16],
    focused: usize,
    i: usize,
    hidden: bool,
    dropped: bool,
) -> FilterResult
    requires { Told state.now focused i hidden dropped }
    ensures { result ≡ common_filter (seen_at state.now focused) (id_in state.now i) }
{
    if focused == i {
        return FilterResult::Include;
    }
    if hidden {
        return FilterResult::ExcludeSubtree;
    }
    if plain::is_transparent(state, i) {
        return FilterResult::ExcludeNode;
    }
    if dropped {
        return FilterResult::ExcludeSubtree;
    }
    if is_clipped(state, parents, focused, i) {
        return FilterResult::ExcludeSubtree;
    }
    FilterResult::Include
}

// What the ancestors of a node tell of it: whether it is hidden, whether `common_filter` drops it, the nearest included node from it up.
#[derive(Clone, Copy)]
pub struct Nearest {
    pub hidden: bool,
    pub dropped: bool,
    pub included: usize,
}

// The same worked out from the root down: `excepted` where ROOT's root is included, whatever it is.
pub(crate) fn nearest_up(
    state: &State,
    parents: &[u16],
    focused: usize,
    excepted: bool,
    i: usize,
) -> Nearest
    requires { Sound state.now }
    ensures { Near state.now focused excepted i result }
{
    let n = state_array::slots(state);
    if n <= i {
        return Nearest {
            hidden: false,
            dropped: false,
            included: n,
        };
    }
    let p = links::parent_slot(state, parents, i);
    let above = nearest_up(state, parents, focused, excepted, p);
    let hidden = above.hidden | links::hidden_at(state, i);
    let result = common_filter_told(state, parents, focused, i, hidden, above.dropped);
    let dropped = is_exclude_subtree(result);
    if is_kept(state, excepted, result, i) {
        return Nearest {
            hidden,
            dropped,
            included: i,
        };
    }
    Nearest {
        hidden,
        dropped,
        included: above.included,
    }
}

// Whether a node that `common_filter` says this of is included, ROOT's root being excepted or not.
fn is_kept(state: &State, excepted: bool, res: FilterResult, i: usize) -> bool
    ensures { result ≡ is_kept (view state.now).forest excepted res (id_in state.now i) }
{
    let included = plain::is_include(res);
    if !excepted {
        return included;
    }
    included | is_root(state, i)
}

// Whether a filter asks no parent.
pub(crate) fn is_plain(filter: Filter) -> bool
    ensures { result ≡ is_plain filter }
{
    match filter {
        Filter::Common => false,
        Filter::WithRootException => false,
        Filter::WithoutParentChecks => true,
    }
}

// Whether a filter includes ROOT's root, whatever it is.
pub(crate) fn has_root_exception(filter: Filter) -> bool
    ensures { result ≡ has_root_exception filter }
{
    match filter {
        Filter::Common => false,
        Filter::WithRootException => true,
        Filter::WithoutParentChecks => false,
    }
}

// Whether a filter says ExcludeNode, for which no parent is asked.
pub(crate) fn is_passed(
    state: &State,
    parents: &[u16],
    focused: usize,
    filter: Filter,
    i: usize,
) -> bool
    ensures { OfSlot state.now i (λ f x. result ≡ is_exclude_node (filter_of filter (seen_at state.now focused) x)) }
{
    let result = plain::common_filter_without_parent_checks(state, parents, focused, i);
    let passed = is_exclude_node(result);
    if !has_root_exception(filter) {
        return passed;
    }
    passed & !is_root(state, i)
}

// Whether it is ROOT's root.
fn is_root(state: &State, i: usize) -> bool
    ensures { result ≡ same_option same_id (root_of (view state.now).forest) (Some (id_in state.now i)) }
{
    match state_lookup::tree_of(state, TreeId { high: 0, low: 0 }) {
        Some(e) => e.root == state_array::id_at(state, i),
        None => false,
    }
}

// Whether it clips its children.
fn clips_children(state: &State, i: usize) -> bool
    ensures { OfSlot state.now i (λ f x. result ≡ clips_at f x) }
{
    state_array::word_at(state, state_array::FLAGS, i) / 2 % 2 == 1
}

// Whether the node's children stand in its place.
pub(crate) fn is_exclude_node(res: FilterResult) -> bool
    ensures { result ≡ is_exclude_node res }
{
    match res {
        FilterResult::Include => false,
        FilterResult::ExcludeNode => true,
        FilterResult::ExcludeSubtree => false,
    }
}

// Whether the node and all below it are dropped.
fn is_exclude_subtree(res: FilterResult) -> bool
    ensures { result ≡ is_exclude_subtree res }
{
    match res {
        FilterResult::Include => false,
        FilterResult::ExcludeNode => false,
        FilterResult::ExcludeSubtree => true,
    }
}
