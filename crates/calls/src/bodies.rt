// Which listed nodes of a batch have other data, by value, than those of a state.
ghost use Rattle.std.specs.Prelude.{◌≡◌, ◌<◌, min};
ghost use Rattle.record.specs.Batch.{same_data};
ghost use Rattle.record.specs.Parse.{batch_of};
ghost use Rattle.record_reader.specs.Reader.{listed_at};
ghost use Rattle.state_array.specs.Layout.{ENTRIES};
ghost use Rattle.state_array.specs.View.{slots_of, node_in};
ghost use Rattle.calls.specs.Says.{Told, GONE, COMPARED, differ_word};

use crate::notes;
use crate::notes::{Notes, Scope};
use state_array::State;

// The phase: which listed nodes are old and have other data, by value, than before.
pub(crate) fn write_differs<'a>(state: &'a State, batch: &'a [u8], scope: Scope, notes: &mut Notes)
    requires { Told GONE state.now batch.now scope notes.old }
    ensures { Told COMPARED state.now batch.now scope notes.new }
{
    for i in 0..scope.listed {
        let differs = differs_at(state, batch, scope, notes, i);
        notes[notes::DIFFERS + i] = differs;
    }
}

// 1 where listed node i is old and differs, else 0.
fn differs_at<'a>(
    state: &'a State,
    batch: &'a [u8],
    scope: Scope,
    notes: &'a Notes,
    i: usize,
) -> u64
    requires told { Told GONE state.now batch.now scope notes.now }
    requires i_lt_listed { i < scope.listed }
    ensures { result ≡ differ_word state.now batch.now scope i }
{
    let slot = notes[notes::LISTED_SLOTS + i] as usize;
    if state_array::slots(state) <= slot {
        return 0;
    }
    if same_data(state, batch, scope, notes, i, slot) {
        return 0;
    }
    1
}

// Whether the node in a slot has the data of listed node i, by value.
fn same_data<'a>(
    state: &'a State,
    batch: &'a [u8],
    scope: Scope,
    notes: &'a Notes,
    i: usize,
    slot: usize,
) -> bool
    requires told { Told GONE state.now batch.now scope notes.now }
    requires i_lt_listed { (i < scope.listed) × (slot < slots_of state.now) }
    ensures { result ≡ same_data (node_in state.now slot).body (listed_at (batch_of batch.now) i).body }
{
    let old = update_bodies::body_of(state, batch, slot);
    let new = update_bodies::body_of(state, batch, state_array::SLOTS + i);
    if !update_bodies::same_body(old, new) {
        return false;
    }
    let own = state_array::id_at(state, slot);
    let shape = state_array::shape_at(state, slot);
    let from = first_entry(shape.first_child);
    let to = notes::NAMED + record_reader::first_child(batch, i);
    let count = shape.child_count as usize;
    let entries = state_array::child_entries(state);
    let named: &[u64] = notes;
    update_bodies::same_run(entries, from, named, to, own.node.0, count)
}

// Where a node's children start among the child entries, at most their number.
fn first_entry(first: u64) -> usize
    ensures { result ≡ min first ENTRIES }
{
    if first < state_array::ENTRIES as u64 {
        first as usize
    } else {
        state_array::ENTRIES
    }
}
