// Which nodes a batch removes, told by climbing the old parent links.
ghost use Rattle.std.specs.Prelude.{true, ◌≡◌, ◌<◌};
ghost use Rattle.update.specs.Gone.{goes_if};
ghost use Rattle.state.specs.Sound.{ascending};
ghost use Rattle.state_array.specs.View.{view, slots_of, link_of};
ghost use Rattle.calls.specs.Says.{Told, READ, GONE, slot_above, goes_word};
ghost use Rattle.calls.specs.Fates.{fate_code, fate_word, ABOVE_TOLD, ReplacedIs, FateHereIs, FateUnderIs, Fated};

use crate::notes;
use crate::notes::{Notes, Scope};
use ids::FullNodeId;
use state_array::{LinkRow, State};

// What becomes of an old node: it stays, it goes, or it fares as its parent does.
const STAYS: u64 = 0;

pub const GOES: u64 = 1;

pub const AS_PARENT: u64 = 2;

// The phase: the parents' slots, and which nodes go.
pub(crate) fn write_gone<'a>(state: &'a State, batch: &'a [u8], scope: Scope, notes: &mut Notes)
    requires { Told READ state.now batch.now scope notes.old }
    ensures { Told GONE state.now batch.now scope notes.new }
{
    write_above(state, batch, scope, notes);
    write_fates(state, batch, scope, notes);
    write_goes(state, batch, scope, notes);
}

// The slot of the parent of each node, their number where it has none.
fn write_above<'a>(state: &'a State, batch: &'a [u8], scope: Scope, notes: &mut Notes)
    requires { Told READ state.now batch.now scope notes.old }
    ensures { Told ABOVE_TOLD state.now batch.now scope notes.new }
{
    let mut near = 0usize;
    for i in 0..state_array::slots(state) {
        near = parent_slot(state, near, state_array::link_at(state, i));
        notes[notes::ABOVE + i] = near as u64;
    }
}

// The slot of a link's parent, with the slot `near` tried first.
fn parent_slot(state: &State, near: usize, l: LinkRow) -> usize
    requires { ascending (view state.now).forest.nodes ≡ true }
    ensures { result ≡ slot_above state.now (link_of l) }
{
    let n = state_array::slots(state);
    if l.linked == 0 {
        return n;
    }
    let parent = l.parent;
    if near < n {
        if parent == state_array::id_at(state, near) {
            return near;
        }
    }
    state_lookup::slot_near(state, near, parent)
}

// The fate of each node, where it is to be told whether it goes.
fn write_fates<'a>(state: &'a State, batch: &'a [u8], scope: Scope, notes: &mut Notes)
    requires { Told ABOVE_TOLD state.now batch.now scope notes.old }
    ensures { Fated 0 state.now batch.now scope notes.new }
{
    for i in 0..state_array::slots(state) {
        let fate = fate_at(state, batch, scope, notes, i);
        notes[notes::FATES + i] = fate;
    }
}

// The fate of the node in slot i.
pub(crate) fn fate_at<'a>(
    state: &'a State,
    batch: &'a [u8],
    scope: Scope,
    notes: &'a Notes,
    i: usize,
) -> u64
    requires told { Told ABOVE_TOLD state.now batch.now scope notes.now }
    requires i_bound { i < slots_of state.now }
    ensures { result ≡ fate_word state.now batch.now scope i }
{
    let x = state_array::id_at(state, i);
    let l = state_array::link_at(state, i);
    let turn = notes[notes::TURNS + i];
    let naming = notes[notes::NAMINGS + i];
    if l.linked == 0 {
        return goes_if(replaced(scope, x, turn, naming));
    }
    let p = l.parent;
    let slot = notes[notes::ABOVE + i] as usize;
    if x.tree == scope.tree {
        let parent_turn = notes[notes::TURNS + slot];
        return fate_here(scope, x, p, turn, naming, parent_turn);
    }
    if p.tree == x.tree {
        return AS_PARENT;
    }
    fate_under(state, batch, scope, notes, slot)
}

// Going or staying.
fn goes_if(goes: bool) -> u64
    ensures { result ≡ fate_code (goes_if goes) }
{
    if goes { GOES } else { STAYS }
}

// Whether x is a root that tree data puts another in the place of, and that the batch does not speak of.
fn replaced(scope: Scope, x: FullNodeId, turn: u64, naming: u64) -> bool
    ensures { ReplacedIs scope x turn naming result }
{
    (x.tree == scope.tree)
        & scope.with_tree_data
        & !notes::is_root(scope, x)
        & (turn == 0)
        & (naming == 0)
}

// The fate of a node x of the batch's tree under p.
fn fate_here(
    scope: Scope,
    x: FullNodeId,
    p: FullNodeId,
    turn: u64,
    naming: u64,
    parent_turn: u64,
) -> u64
    ensures { FateHereIs scope x p turn naming parent_turn result }
{
    if p.tree != scope.tree {
        return goes_if(replaced(scope, x, turn, naming));
    }
    if 0 < naming {
        return STAYS;
    }
    if 0 < parent_turn {
        return goes_if(turn <= parent_turn);
    }
    if scope.with_tree_data & notes::is_root(scope, x) {
        return STAYS;
    }
    AS_PARENT
}

// The fate of the root of another tree than the batch's, whose graft stands in a slot.
fn fate_under<'a>(
    state: &'a State,
    batch: &'a [u8],
    scope: Scope,
    notes: &'a Notes,
    slot: usize,
) -> u64
    requires told { Told ABOVE_TOLD state.now batch.now scope notes.now }
    requires slot_bound { slot < slots_of state.now }
    ensures { FateUnderIs state.now batch.now scope slot result }
{
    let k = scope.listed;
    if notes::claimed_from(state, batch, notes, k, slot) < k {
        return STAYS;
    }
    let turn = notes[notes::TURNS + slot];
    if turn < 1 {
        return AS_PARENT;
    }
    if notes::same_graft(state, batch, (turn - 1) as usize, slot) {
        return AS_PARENT;
    }
    GOES
}

// Whether each node goes. What is told of a node is told of all that were passed on the way, so each is passed twice at most.
fn write_goes<'a>(state: &'a State, batch: &'a [u8], scope: Scope, notes: &mut Notes)
    requires { Fated 0 state.now batch.now scope notes.old }
    ensures { Told GONE state.now batch.now scope notes.new }
{
    for i in 0..state_array::slots(state) {
        let goes = climbed(state, batch, scope, notes, i);
        pass_on(state, batch, scope, notes, i, goes);
        notes[notes::FATES + i] = goes;
    }
}

// Whether the node in slot i goes, by climbing to one of which it is known.
fn climbed<'a>(state: &'a State, batch: &'a [u8], scope: Scope, notes: &'a Notes, i: usize) -> u64
    requires fated { Fated i state.now batch.now scope notes.now }
    requires i_bound { i < slots_of state.now }
    ensures { result ≡ goes_word state.now batch.now scope i }
{
    let mut at = i;
    // No way up has more steps than there are slots.
    for _ in 0..state_array::slots(state) {
        let known = notes[notes::FATES + at];
        if known != AS_PARENT {
            return known;
        }
        at = notes[notes::ABOVE + at] as usize;
    }
    STAYS
}

// The same way again: what is told of slot i is told of each slot on it.
fn pass_on<'a>(
    state: &'a State,
    batch: &'a [u8],
    scope: Scope,
    notes: &mut Notes,
    i: usize,
    goes: u64,
)
    requires fated { Fated i state.now batch.now scope notes.old }
    requires i_bound { (i < slots_of state.now) × (goes ≡ goes_word state.now batch.now scope i) }
    ensures { Fated i state.now batch.now scope notes.new }
{
    let mut at = i;
    // No way up has more steps than there are slots.
    for _ in 0..state_array::slots(state) {
        if notes[notes::FATES + at] != AS_PARENT {
            return;
        }
        let next = notes[notes::ABOVE + at] as usize;
        notes[notes::FATES + at] = goes;
        at = next;
    }
}
