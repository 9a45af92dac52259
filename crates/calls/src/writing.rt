// The outcome of a batch, written into a second array: words that it does not use stay 0.
ghost use Rattle.std.specs.Prelude.{◌≡◌, ◌+◌, ◌≤◌, ◌<◌, length, get_or};
ghost use Rattle.state_array.specs.Layout.{blank_words, ENTRIES};
ghost use Rattle.state_array.specs.Stored.{no_node, stored};
ghost use Rattle.state_array.specs.Filled.{nodes_written, run_written, children_written, head_written};
ghost use Rattle.calls.specs.Says.{Told, PLANNED};
ghost use Rattle.calls.specs.Written.{nodes_after, source_children, slot_child, host_word};
ghost use Rattle.calls.specs.Says.{outcome_state};

use crate::notes::{Notes, Scope};
use crate::{links, notes, trees};
use ids::NodeId;
use state_array::State;

// The outcome, written into an array of zeros: its nodes, their children, the table of trees, the head.
pub(crate) fn write_outcome<'a>(
    state: &'a State,
    batch: &'a [u8],
    scope: Scope,
    notes: &'a Notes,
    next: &mut State,
)
    requires told { Told PLANNED state.now batch.now scope notes.now }
    requires next_value { next.old ≡ blank_words }
    ensures { next.new ≡ stored (outcome_state state.now batch.now scope) }
{
    write_nodes(state, batch, scope, notes, next);
    write_children(state, batch, scope, notes, next);
    trees::write_trees(state, batch, scope, notes, next);
    write_head(state, batch, scope, notes, next);
}

// The ids, the links and the data of the outcome's nodes.
fn write_nodes<'a>(
    state: &'a State,
    batch: &'a [u8],
    scope: Scope,
    notes: &'a Notes,
    next: &mut State,
)
    requires { Told PLANNED state.now batch.now scope notes.now }
    ensures { next.new ≡ nodes_written (nodes_after state.now batch.now scope) next.old }
{
    let count = notes[notes::COUNT] as usize;
    for r in 0..count {
        let code = notes[notes::CODES + r] as usize;
        let x = notes::id_of(state, scope, notes, code);
        let l = links::link_of(state, batch, scope, notes, code);
        let source = notes[notes::SOURCES + r] as usize;
        let body = update_bodies::body_of(state, batch, source);
        state_array::put_id(next, r, x);
        state_array::put_link(next, r, l);
        state_array::put_body(next, r, body);
    }
}

// The children of the outcome's nodes, run after run, and where the run of each starts.
fn write_children<'a>(
    state: &'a State,
    batch: &'a [u8],
    scope: Scope,
    notes: &'a Notes,
    next: &mut State,
)
    requires { Told PLANNED state.now batch.now scope notes.now }
    ensures { next.new ≡ children_written (nodes_after state.now batch.now scope) next.old }
{
    let count = notes[notes::COUNT] as usize;
    let mut first = 0usize;
    for r in 0..count {
        let source = notes[notes::SOURCES + r] as usize;
        state_array::put_first_child(next, r, first as u64);
        first = write_run(state, batch, next, source, first);
    }
}

// The children that a source names, as the child entries from `first` on; answers where they end.
fn write_run<'a>(
    state: &'a State,
    batch: &'a [u8],
    next: &mut State,
    source: usize,
    first: usize,
) -> usize
    requires { first + length (source_children state.now batch.now source) ≤ ENTRIES }
    ensures value { result ≡ first + length (source_children state.now batch.now source) }
    ensures next_after { next.new ≡ run_written (source_children state.now batch.now source) first next.old }
{
    let count = child_count(state, batch, source);
    for j in 0..count {
        let x = child_of(state, batch, source, j);
        state_array::put_child(next, first + j, x);
    }
    first + count
}

// How many children a source names.
fn child_count<'a>(state: &'a State, batch: &'a [u8], source: usize) -> usize
    ensures { result ≡ length (source_children state.now batch.now source) }
{
    if source < state_array::SLOTS {
        let d = state_array::shape_at(state, source);
        return d.child_count as usize;
    }
    record_reader::child_count(batch, source - state_array::SLOTS)
}

// Child j of those that a source names.
fn child_of<'a>(state: &'a State, batch: &'a [u8], source: usize, j: usize) -> NodeId
    requires { j < length (source_children state.now batch.now source) }
    ensures { result ≡ get_or (source_children state.now batch.now source) j no_node }
{
    if source < state_array::SLOTS {
        return old_child(state, source, j);
    }
    record_reader::child(batch, source - state_array::SLOTS, j)
}

// Child j of the node in a slot, the node itself where there is no such entry.
fn old_child(state: &State, slot: usize, j: usize) -> NodeId
    ensures { result ≡ slot_child state.now slot j }
{
    let x = state_array::id_at(state, slot);
    let d = state_array::shape_at(state, slot);
    state_array::child_at(state, x.node, d.first_child, j)
}

// The head: how many nodes and trees, and the host flag as it was.
fn write_head<'a>(
    state: &'a State,
    batch: &'a [u8],
    scope: Scope,
    notes: &'a Notes,
    next: &mut State,
)
    requires { Told PLANNED state.now batch.now scope notes.now }
    ensures { next.new ≡ head_written (outcome_state state.now batch.now scope) next.old }
{
    let trees = trees::tree_count(state, scope.tree);
    let host = host_flag(state);
    state_array::put_head(next, notes[notes::COUNT], trees as u64, host);
}

// 1 where the host has the focus, else 0.
fn host_flag(state: &State) -> u64
    ensures { result ≡ host_word state.now }
{
    if state_array::host(state) == 0 { 0 } else { 1 }
}
