// The rows of document 01's table of numbers but the pass, in the order in which a call asks them, and the scope of a batch.
ghost use Rattle.std.specs.Prelude.{true, not, ◌≡◌, ◌+◌, ◌≤◌, ◌<◌, length, get_or};
ghost use Rattle.base.specs.Tests.{is_some, distinct};
ghost use Rattle.base.specs.Tables.{first};
ghost use Rattle.base.specs.Search.{First};
ghost use Rattle.ids.specs.Ids.{ROOT, same_tree, same_node};
ghost use Rattle.record.specs.Batch.{listed_ids, named_ids};
ghost use Rattle.record.specs.Parse.{well_formed, batch_of};
ghost use Rattle.state.specs.State.{subtree_of};
ghost use Rattle.state.specs.Sound.{grafts_differ, sound_shape};
ghost use Rattle.state_array.specs.Layout.{SLOTS};
ghost use Rattle.state_array.specs.View.{view};
ghost use Rattle.update.specs.Numbers.{rows_before_pass};
ghost use Rattle.update.specs.Calls.{seed, without_tree_data};
ghost use Rattle.calls.specs.Layout.{LISTED_SLOTS, DIFFERS};
ghost use Rattle.calls.specs.Setting.{Scoped};
ghost use Rattle.calls.specs.Refusals.{verdict};
ghost use Rattle.calls.specs.Noted.{ClashRoom, clash_noted};
ghost use Rattle.calls.specs.Rows.{first_number, start_rows, last_number};
ghost use Rattle.calls.specs.Parts.{ListedAgain, ungrafted, missing, full, RootAfter};

use crate::notes;
use crate::notes::{Notes, Refusal, Scope};
use ids::{NodeId, TreeId, TreeIndex};
use state_array::State;

// Two places of one node among the listed ones.
#[derive(Clone, Copy)]
pub struct Again {
    pub first: usize,
    pub second: usize,
}

// Rows 1, 2 and 5 to 8.
pub(crate) fn first_rows<'a>(state: &'a State, batch: &'a [u8]) -> Result<(), Refusal>
    ensures { result ≡ verdict (first_number (view state.now).forest batch.now) }
{
    if !state_sound::sound(state) {
        return notes::refuse(1);
    }
    if !record_layout::layout(batch) {
        return notes::refuse(2);
    }
    rows_before_pass(state, batch)
}

// Rows 5 to 8 of a record.
fn rows_before_pass<'a>(state: &'a State, batch: &'a [u8]) -> Result<(), Refusal>
    requires { well_formed batch.now ≡ true }
    ensures { result ≡ verdict (first (rows_before_pass (view state.now).forest (batch_of batch.now))) }
{
    if listed_twice(batch) {
        return notes::refuse(5);
    }
    if is_ungrafted(state, batch) {
        return notes::refuse(6);
    }
    if is_missing(state, batch) {
        return notes::refuse(7);
    }
    if is_full(state, batch) {
        return notes::refuse(8);
    }
    Ok(())
}

// Rows 2 to 5 of a start.
pub(crate) fn start_rows(batch: &[u8]) -> Result<(), Refusal>
    ensures { result ≡ verdict (start_rows batch.now) }
{
    if !record_layout::layout(batch) {
        return notes::refuse(2);
    }
    if !record_reader::has_tree_data(batch) {
        return notes::refuse(3);
    }
    if !is_root_id(record_reader::tree_id(batch)) {
        return notes::refuse(4);
    }
    if listed_twice(batch) {
        return notes::refuse(5);
    }
    Ok(())
}

// What a batch on a state is about.
pub(crate) fn scope_of<'a>(state: &'a State, batch: &'a [u8]) -> Scope
    ensures { well_formed batch.now ≡ true → Scoped (view state.now).forest (batch_of batch.now) result }
{
    let header = record_view::read_header(batch);
    let id = header.tree;
    let number = state_lookup::find_tree(state, id) as u32;
    let root = root_after(state, batch);
    Scope {
        tree: TreeIndex(number),
        is_root_tree: is_root_id(id),
        listed: header.nodes,
        named: entries_of(batch),
        with_tree_data: header.has_tree_data,
        root,
    }
}

// What a start is about.
pub(crate) fn start_scope(batch: &[u8]) -> Scope
    ensures { start_rows batch.now ≡ 0 → Scoped (seed (batch_of batch.now)) (without_tree_data (batch_of batch.now)) result }
{
    let header = record_view::read_header(batch);
    let root = header.root;
    Scope {
        tree: TreeIndex(0),
        is_root_tree: true,
        listed: header.nodes,
        named: entries_of(batch),
        with_tree_data: false,
        root: Some(root),
    }
}

// 12's second part and rows 15 to 20, of the outcome that stands in `next`; `clash` is row 18.
pub(crate) fn last_rows(next: &State, clash: bool) -> Result<(), Refusal>
    ensures { result ≡ verdict (last_number (view next.now).forest clash) }
{
    let sound = state_sound::shape_is_sound(next);
    let twice = grafted_twice(next, sound);
    let number = update_focus::focus_number(next);
    if twice {
        return notes::refuse(12);
    }
    if number != 0 {
        return notes::refuse(number);
    }
    if clash {
        return notes::refuse(18);
    }
    if !sound {
        return notes::refuse(19);
    }
    if state_array::MOST_NODES < state_array::slots(next) {
        return notes::refuse(20);
    }
    Ok(())
}

// Row 18: the first of k listed nodes that has other data than before, so that it is old, and goes; or k.
pub(crate) fn first_clash(notes: &Notes, k: usize) -> usize
    requires k_bound { k ≤ 64 }
    requires clash_room { ClashRoom notes.now k }
    ensures { First (clash_noted notes.now) k result }
{
    for i in 0..k {
        if clashes_at(notes, i) {
            return i;
        }
    }
    k
}

// Whether listed node i does.
fn clashes_at(notes: &Notes, i: usize) -> bool
    requires i_bound { i < 64 }
    requires i_bound_2 { get_or notes.now (DIFFERS + i) 0 ≡ 1 → get_or notes.now (LISTED_SLOTS + i) 0 < SLOTS }
    ensures { result ≡ clash_noted notes.now i }
{
    if notes[notes::DIFFERS + i] != 1 {
        return false;
    }
    let slot = notes[notes::LISTED_SLOTS + i] as usize;
    notes[notes::FATES + slot] == 1
}

// Row 5: whether a record lists a node twice.
fn listed_twice(batch: &[u8]) -> bool
    requires { well_formed batch.now ≡ true }
    ensures { result ≡ not (distinct same_node (listed_ids (batch_of batch.now).nodes)) }
{
    listed_again(batch).is_some()
}

// The first listed node that was listed before, if there is one, and where.
pub(crate) fn listed_again(batch: &[u8]) -> Option<Again>
    requires { well_formed batch.now ≡ true }
    ensures { ListedAgain (batch_of batch.now) result }
{
    let k = record_reader::node_count(batch);
    let mut seen = [0u64; 64];
    for i in 0..k {
        let x = record_reader::node_id(batch, i);
        let first = notes::first_of(&seen[..i], x.0);
        if first < i {
            return Some(Again { first, second: i });
        }
        seen[i] = x.0;
    }
    None
}

// Row 6: tree data for a tree other than ROOT that no node grafts.
pub(crate) fn is_ungrafted<'a>(state: &'a State, batch: &'a [u8]) -> bool
    ensures { result ≡ ungrafted (view state.now).forest (batch_of batch.now) }
{
    if !record_reader::has_tree_data(batch) {
        return false;
    }
    let id = record_reader::tree_id(batch);
    !is_root_id(id) & (state_array::slots(state) <= notes::holder_of(state, id))
}

// Row 7: no tree data for a tree other than ROOT that does not exist.
pub(crate) fn is_missing<'a>(state: &'a State, batch: &'a [u8]) -> bool
    ensures { result ≡ missing (view state.now).forest (batch_of batch.now) }
{
    let id = record_reader::tree_id(batch);
    !record_reader::has_tree_data(batch) & !is_root_id(id) & !exists(state, id)
}

// Row 8: a tree without a number, where none is left.
pub(crate) fn is_full<'a>(state: &'a State, batch: &'a [u8]) -> bool
    ensures { result ≡ full (view state.now).forest (batch_of batch.now) }
{
    let m = state_array::trees(state);
    (m <= state_lookup::find_tree(state, record_reader::tree_id(batch))) & (state_array::TREES <= m)
}

// Whether a tree id is ROOT.
fn is_root_id(id: TreeId) -> bool
    ensures { result ≡ same_tree id ROOT }
{
    id == TreeId { high: 0, low: 0 }
}

// Whether a tree exists.
fn exists(state: &State, id: TreeId) -> bool
    ensures { result ≡ is_some (subtree_of (view state.now).forest id) }
{
    let Some(e) = state_lookup::tree_of(state, id) else {
        return false;
    };
    true
}

// The root of the batch's tree as the batch leaves it, if it has one then.
fn root_after<'a>(state: &'a State, batch: &'a [u8]) -> Option<NodeId>
    ensures { RootAfter (view state.now).forest (batch_of batch.now) result }
{
    if record_reader::has_tree_data(batch) {
        return Some(record_reader::tree_root(batch));
    }
    let e = state_lookup::tree_of(state, record_reader::tree_id(batch))?;
    let root = e.root;
    Some(root.node)
}

// How many children the listed nodes name.
fn entries_of(batch: &[u8]) -> usize
    ensures { well_formed batch.now ≡ true → result ≡ length (named_ids (batch_of batch.now).nodes) }
{
    let k = record_reader::node_count(batch);
    if k < 1 {
        return 0;
    }
    record_view::children_end(batch, k - 1)
}

// 12's second part: whether a tree is grafted twice; where the shape is sound, none is.
fn grafted_twice(next: &State, sound: bool) -> bool
    requires { sound ≡ sound_shape (view next.now).forest }
    ensures { result ≡ not (grafts_differ (view next.now).forest.nodes) }
{
    if sound {
        return false;
    }
    !state_sound::grafts_differ(next)
}
