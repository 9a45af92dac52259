// Which nodes the outcome has, in order, and where the data of each comes from.
ghost use Rattle.std.specs.Prelude.{◌≡◌, ◌+◌, ◌≤◌, ◌<◌, length};
ghost use Rattle.state_array.specs.Layout.{SLOTS};
ghost use Rattle.state_array.specs.View.{slots_of};
ghost use Rattle.calls.specs.Layout.{WORDS};
ghost use Rattle.calls.specs.Says.{Told, COMPARED, PLANNED, outcome_count, source_word};
ghost use Rattle.calls.specs.Plan.{CODED, PlaceIn, Inserted, Planned};

use crate::notes;
use crate::notes::{Notes, Scope};
use state_array::State;

// The phase: the codes of the outcome's nodes in ascending order of their ids, how many there are, and the sources of their data.
pub(crate) fn write_plan<'a>(state: &'a State, batch: &'a [u8], scope: Scope, notes: &mut Notes)
    requires { Told COMPARED state.now batch.now scope notes.old }
    ensures { Told PLANNED state.now batch.now scope notes.new }
{
    write_codes(state, batch, scope, notes);
    write_sources(state, batch, scope, notes);
}

// The codes, and how many there are.
fn write_codes<'a>(state: &'a State, batch: &'a [u8], scope: Scope, notes: &mut Notes)
    requires { Told COMPARED state.now batch.now scope notes.old }
    ensures { Told CODED state.now batch.now scope notes.new }
{
    let staying = write_staying(state, batch, scope, notes);
    let count = write_new(state, batch, scope, notes, staying);
    notes[notes::COUNT] = count as u64;
}

// The slots of the old nodes that stay; how many.
fn write_staying<'a>(state: &'a State, batch: &'a [u8], scope: Scope, notes: &mut Notes) -> usize
    requires { Told COMPARED state.now batch.now scope notes.old }
    ensures { Planned (slots_of state.now) 0 state.now batch.now scope notes.new result }
{
    let mut count = 0usize;
    for i in 0..state_array::slots(state) {
        count = keep_slot(state, batch, scope, notes, i, count);
    }
    count
}

// Slot i after the `count` codes of those before it, if its node stays; how many there are then.
fn keep_slot<'a>(
    state: &'a State,
    batch: &'a [u8],
    scope: Scope,
    notes: &mut Notes,
    i: usize,
    count: usize,
) -> usize
    requires planned { Planned i 0 state.now batch.now scope notes.old count }
    requires i_bound { i < slots_of state.now }
    ensures { Planned (i + 1) 0 state.now batch.now scope notes.new result }
{
    if notes[notes::FATES + i] == 1 {
        return count;
    }
    notes[notes::CODES + count] = i as u64;
    count + 1
}

// The listed nodes that are new, put among the `staying` codes of old nodes; how many there are then.
fn write_new<'a>(
    state: &'a State,
    batch: &'a [u8],
    scope: Scope,
    notes: &mut Notes,
    staying: usize,
) -> usize
    requires { Planned (slots_of state.now) 0 state.now batch.now scope notes.old staying }
    ensures { Planned (slots_of state.now) scope.listed state.now batch.now scope notes.new result }
{
    let mut count = staying;
    for j in 0..scope.listed {
        count = add_listed(state, batch, scope, notes, j, count);
    }
    count
}

// Listed node j put among `count` codes, if it is new; how many there are then.
fn add_listed<'a>(
    state: &'a State,
    batch: &'a [u8],
    scope: Scope,
    notes: &mut Notes,
    j: usize,
    count: usize,
) -> usize
    requires planned { Planned (slots_of state.now) j state.now batch.now scope notes.old count }
    requires j_lt_listed { j < scope.listed }
    ensures { Planned (slots_of state.now) (j + 1) state.now batch.now scope notes.new result }
{
    let n = state_array::slots(state);
    let slot = notes[notes::LISTED_SLOTS + j] as usize;
    if slot < n {
        return count;
    }
    let at = place_of(state, batch, scope, notes, j, count);
    insert(notes, count, at, (state_array::SLOTS + j) as u64);
    count + 1
}

// Where listed node j belongs among `count` codes: before the first id that does not come before it.
fn place_of<'a>(
    state: &'a State,
    batch: &'a [u8],
    scope: Scope,
    notes: &'a Notes,
    j: usize,
    count: usize,
) -> usize
    requires planned { Planned (slots_of state.now) j state.now batch.now scope notes.now count }
    requires j_lt_listed { j < scope.listed }
    ensures { PlaceIn state.now batch.now scope notes.now j count result }
{
    let x = notes::id_of(state, scope, notes, state_array::SLOTS + j);
    let mut low = 0usize;
    let mut high = count;
    // Not a `for`: what is left is halved each time.
    while low < high {
        let middle = low + (high - low) / 2;
        let code = notes[notes::CODES + middle] as usize;
        if ids::is_before(notes::id_of(state, scope, notes, code), x) {
            low = middle + 1;
        } else {
            high = middle;
        }
    }
    low
}

// Puts a code at a place among `count`, those from there on moved up by one.
fn insert(notes: &mut Notes, count: usize, at: usize, code: u64)
    requires at_le_count { (at ≤ count) × (count < SLOTS) }
    requires notes_len { length notes.old ≡ WORDS }
    ensures { Inserted notes.old count at code notes.new }
{
    notes.copy_within(
        notes::CODES + at..notes::CODES + count,
        notes::CODES + at + 1,
    );
    notes[notes::CODES + at] = code;
}

// Where the data of each of the outcome's nodes comes from: the slot of an old node whose data stays, or 320 and the listed node.
fn write_sources<'a>(state: &'a State, batch: &'a [u8], scope: Scope, notes: &mut Notes)
    requires { Told CODED state.now batch.now scope notes.old }
    ensures { Told PLANNED state.now batch.now scope notes.new }
{
    let count = notes[notes::COUNT] as usize;
    for r in 0..count {
        let source = source_of(state, batch, scope, notes, r);
        notes[notes::SOURCES + r] = source;
    }
}

// Where the data of the outcome's node r comes from.
fn source_of<'a>(state: &'a State, batch: &'a [u8], scope: Scope, notes: &'a Notes, r: usize) -> u64
    requires told { Told CODED state.now batch.now scope notes.now }
    requires r_bound { r < outcome_count state.now batch.now scope }
    ensures { result ≡ source_word state.now batch.now scope r }
{
    let first = state_array::SLOTS as u64;
    let code = notes[notes::CODES + r];
    if first <= code {
        return code;
    }
    let turn = notes[notes::TURNS + code as usize];
    if turn < 1 {
        return code;
    }
    if notes[notes::DIFFERS + (turn - 1) as usize] == 1 {
        first + (turn - 1)
    } else {
        code
    }
}
