// What a batch reports: what changed of each node, the four change lists in the lent slice, the focus before and after with the extra ids.
ghost use Rattle.std.specs.Prelude.{true, not, ◌++◌, ◌≡◌, ◌+◌, ◌*◌, ◌≤◌, ◌<◌, get_or};
ghost use Rattle.base.specs.Tests.{◌and◌, is_some, same_option, has};
ghost use Rattle.base.specs.Bytes.{bit};
ghost use Rattle.ids.specs.Ids.{same_id};
ghost use Rattle.state.specs.State.{same_link, parent_of};
ghost use Rattle.state.specs.Sound.{ascending};
ghost use Rattle.state_array.specs.View.{view, slots_of, link_of};
ghost use Rattle.state_array.specs.Layout.{SLOTS};
ghost use Rattle.update.specs.Reports.{unless_in};
ghost use Rattle.calls.specs.Layout.{TURNS, CHANGED};
ghost use Rattle.calls.specs.Codes.{flag};
ghost use Rattle.calls.specs.Says.{changed_word, PLANNED, REPORTED};
ghost use Rattle.calls.specs.Noted.{differ_noted};
ghost use Rattle.calls.specs.Outcomes.{Outcomes, PaneRootIs};
ghost use Rattle.calls.specs.Slice.{Marks, Counted, picked, changes_noted, Room, ListWritten, ListsWritten};
ghost use Rattle.calls.specs.Reported.{Reported, HostReported, ReportOf, OnlyAfter, unless_before};

use crate::notes;
use crate::notes::{CHANGED, FATES, Notes, Scope};
use ids::FullNodeId;
use state_array::{LinkRow, State};

// The bits of a node's mark in the column CHANGED, and of the mark of an old node in the column FATES.
const ADDED: u64 = 1;

const UPDATED: u64 = 2;

const RELINKED: u64 = 4;

const REMOVED: u64 = 1;

// The lengths of the four lists.
#[derive(Clone, Copy)]
pub struct Lists {
    pub added: usize,
    pub updated: usize,
    pub removed: usize,
    pub relinked: usize,
}

// The lent slice has fewer elements than the lists take: how many they take.
#[derive(Clone, Copy)]
pub struct TooShort {
    pub words: usize,
}

// The focus before and after, and the extra ids.
#[derive(Clone, Copy)]
pub struct Report {
    pub focus_before: Option<FullNodeId>,
    pub focus_after: Option<FullNodeId>,
    pub extra_before: Option<FullNodeId>,
    pub extra_after: Option<FullNodeId>,
}

// The phase: what changed of each node of the outcome, which stands in `next`.
pub(crate) fn write_changed<'a>(
    state: &'a State,
    batch: &'a [u8],
    scope: Scope,
    notes: &mut Notes,
    next: &'a State,
)
    requires { Outcomes PLANNED state.now batch.now scope notes.old next.now }
    ensures { Outcomes REPORTED state.now batch.now scope notes.new next.now }
{
    let n = state_array::slots(next);
    for r in 0..n {
        let change = change_at(state, batch, scope, notes, next, r);
        notes[CHANGED + r] = change;
    }
}

// What changed of node r: 1 where it is new, else 2 where it is updated and 4 where it is relinked.
fn change_at<'a>(
    state: &'a State,
    batch: &'a [u8],
    scope: Scope,
    notes: &'a Notes,
    next: &'a State,
    r: usize,
) -> u64
    requires outcomes { Outcomes PLANNED state.now batch.now scope notes.now next.now }
    requires r_bound { r < slots_of next.now }
    ensures { result ≡ changed_word state.now batch.now scope r }
{
    let code = notes[notes::CODES + r] as usize;
    if state_array::SLOTS <= code {
        return ADDED;
    }
    let was = state_array::link_at(state, code);
    let link = state_array::link_at(next, r);
    let updated = data_differs(notes, code)
        | link_changed(was, link)
        | is_pane_root(scope, state_array::id_at(next, r));
    change_of(updated, parent_changed(was, link))
}

// Whether the node in a slot is listed with other data than before.
fn data_differs(notes: &Notes, slot: usize) -> bool
    requires { (slot < SLOTS) × (get_or notes.now (TURNS + slot) 0 ≤ 64) }
    ensures { result ≡ differ_noted notes.now slot }
{
    let turn = notes[notes::TURNS + slot];
    if turn < 1 {
        return false;
    }
    let at = (turn - 1) as usize;
    notes[notes::DIFFERS + at] == 1
}

// Whether a node has another link; to none does not count.
fn link_changed(was: LinkRow, next: LinkRow) -> bool
    ensures { result ≡ (is_some (link_of next) and not (same_option same_link (link_of was) (link_of next))) }
{
    if next.linked == 0 {
        return false;
    }
    (was.linked == 0) | (was.index != next.index) | (was.parent != next.parent)
}

// Whether the parent is another; to or from no parent counts.
fn parent_changed(was: LinkRow, next: LinkRow) -> bool
    ensures { result ≡ not (same_option same_id (parent_of (link_of was)) (parent_of (link_of next))) }
{
    if next.linked == 0 {
        return was.linked != 0;
    }
    (was.linked == 0) | (was.parent != next.parent)
}

// Whether x is the root that tree data gives a tree other than ROOT.
fn is_pane_root(scope: Scope, x: FullNodeId) -> bool
    ensures { PaneRootIs scope x result }
{
    notes::is_root(scope, x) & scope.with_tree_data & !scope.is_root_tree
}

// The mark of an old node.
fn change_of(updated: bool, relinked: bool) -> u64
    ensures { result ≡ 2 * flag updated + 4 * flag relinked }
{
    if updated & relinked {
        return UPDATED + RELINKED;
    }
    if updated {
        return UPDATED;
    }
    if relinked { RELINKED } else { 0 }
}

// Writes the four lists one after another, if the slice has room for them.
pub(crate) fn write_lists<'a>(
    state: &'a State,
    notes: &'a Notes,
    next: &'a State,
    changes: &mut [u64],
) -> Result<Lists, TooShort>
    ensures { ListsWritten (changes_noted state.now notes.now next.now) changes.old changes.new result }
{
    let n = state_array::slots(state);
    let m = state_array::slots(next);
    let added = count_of(notes, CHANGED, m, ADDED);
    let updated = count_of(notes, CHANGED, m, UPDATED);
    let removed = count_of(notes, FATES, n, REMOVED);
    let relinked = count_of(notes, CHANGED, m, RELINKED);
    let words = 2 * (added + updated + removed + relinked);
    if changes.len() < words {
        return Err(TooShort { words });
    }
    let from_updated = write_list(next, notes, CHANGED, ADDED, 0, changes);
    let from_removed = write_list(next, notes, CHANGED, UPDATED, from_updated, changes);
    let from_relinked = write_list(state, notes, FATES, REMOVED, from_removed, changes);
    let end = write_list(next, notes, CHANGED, RELINKED, from_relinked, changes);
    Ok(Lists {
        added,
        updated,
        removed,
        relinked,
    })
}

// How many of n words of the notes, from a place on, have the bit of a weight.
fn count_of(notes: &Notes, start: usize, n: usize, weight: u64) -> usize
    requires { Marks start n weight }
    ensures { Counted weight notes.now start n result }
{
    let mut count = 0usize;
    for i in 0..n {
        if has_bit(notes[start + i], weight) {
            count += 1;
        }
    }
    count
}

// Whether the bit of a weight is set.
fn has_bit(word: u64, weight: u64) -> bool
    requires { 0 < weight }
    ensures { result ≡ bit weight word }
{
    word / weight % 2 == 1
}

// Writes the ids of a state's slots whose word has the bit of a weight, two words each, from a place on; answers the place after them.
fn write_list<'a>(
    state: &'a State,
    notes: &'a Notes,
    start: usize,
    weight: u64,
    at: usize,
    changes: &mut [u64],
) -> usize
    requires { Room weight notes.now start state.now at changes.old }
    ensures { ListWritten (picked weight notes.now start state.now) at changes.old changes.new result }
{
    let mut to = at;
    for i in 0..state_array::slots(state) {
        if has_bit(notes[start + i], weight) {
            let x = state_array::id_at(state, i);
            changes[to] = x.tree.0 as u64;
            changes[to + 1] = x.node.0;
            to += 2;
        }
    }
    to
}

// The focus before and after a batch, and the extra ids by the marks.
pub(crate) fn report_update<'a>(state: &'a State, notes: &'a Notes, next: &'a State) -> Report
    requires state_value { ascending (view state.now).forest.nodes ≡ true }
    requires next_value { ascending (view next.now).forest.nodes ≡ true }
    ensures { Reported (view state.now) (view next.now) (changes_noted state.now notes.now next.now) result }
{
    let before = state_focus::focus(state);
    let after = state_focus::focus(next);
    let lost = unless_before(state, notes, next, before);
    let got = unless_after(notes, next, after);
    report_of(before, after, lost, got)
}

// The focus before and after a host focus change, which has empty lists, and the extra ids.
pub(crate) fn report_host(before: Option<FullNodeId>, after: Option<FullNodeId>) -> Report
    ensures { HostReported before after result }
{
    report_of(before, after, before, after)
}

// What a start reports: its focus.
pub(crate) fn report_start(after: Option<FullNodeId>) -> Report
    ensures { OnlyAfter after result }
{
    Report {
        focus_before: None,
        focus_after: after,
        extra_before: None,
        extra_after: None,
    }
}

// Two answers, with what is left of them as extra ids where they differ.
fn report_of(
    before: Option<FullNodeId>,
    after: Option<FullNodeId>,
    lost: Option<FullNodeId>,
    got: Option<FullNodeId>,
) -> Report
    ensures { ReportOf before after lost got result }
{
    if before == after {
        return Report {
            focus_before: before,
            focus_after: after,
            extra_before: None,
            extra_after: None,
        };
    }
    Report {
        focus_before: before,
        focus_after: after,
        extra_before: lost,
        extra_after: got,
    }
}

// A node, unless it is updated or removed.
fn unless_before<'a>(
    state: &'a State,
    notes: &'a Notes,
    next: &'a State,
    found: Option<FullNodeId>,
) -> Option<FullNodeId>
    requires state_value { ascending (view state.now).forest.nodes ≡ true }
    requires next_value { ascending (view next.now).forest.nodes ≡ true }
    ensures { result ≡ unless_before (changes_noted state.now notes.now next.now) found }
{
    let x = found?;
    if is_marked(next, notes, CHANGED, UPDATED, x) | is_marked(state, notes, FATES, REMOVED, x) {
        return None;
    }
    found
}

// A node, unless it is added or updated.
fn unless_after<'a>(
    notes: &'a Notes,
    next: &'a State,
    found: Option<FullNodeId>,
) -> Option<FullNodeId>
    requires { ascending (view next.now).forest.nodes ≡ true }
    ensures { result ≡ unless_in (picked 1 notes.now CHANGED next.now ++ picked 2 notes.now CHANGED next.now) found }
{
    let x = found?;
    if is_marked(next, notes, CHANGED, ADDED, x) | is_marked(next, notes, CHANGED, UPDATED, x) {
        return None;
    }
    found
}

// Whether a node stands in one of a state's slots whose word has the bit of a weight.
fn is_marked<'a>(
    state: &'a State,
    notes: &'a Notes,
    start: usize,
    weight: u64,
    x: FullNodeId,
) -> bool
    requires marks { Marks start (slots_of state.now) weight }
    requires state_value { ascending (view state.now).forest.nodes ≡ true }
    ensures { result ≡ has same_id (picked weight notes.now start state.now) x }
{
    let i = state_lookup::slot_of(state, x);
    if state_array::slots(state) <= i {
        return false;
    }
    has_bit(notes[start + i], weight)
}
