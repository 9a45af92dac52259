// What a batch says of its own nodes and of a state's, read out into the notes.
ghost use Rattle.std.specs.Prelude.{true, ◌≡◌, ◌+◌};
ghost use Rattle.state.specs.Sound.{ascending};
ghost use Rattle.state_array.specs.View.{view};
ghost use Rattle.base.specs.Regions.{fill};
ghost use Rattle.calls.specs.Codes.{flag};
ghost use Rattle.calls.specs.Says.{Told, READ};
ghost use Rattle.calls.specs.Reading.{Room, SlotRoom, slot_word, MarkRoom, Marked};

use crate::notes;
use crate::notes::{Notes, Scope};
use ids::{FullNodeId, NodeId, TreeIndex};
use state_array::State;

// The phase: the words of a batch over a state, in eight columns.
pub(crate) fn write_words<'a>(state: &'a State, batch: &'a [u8], scope: Scope, notes: &mut Notes)
    requires { Told 0 state.now batch.now scope notes.old }
    ensures { Told READ state.now batch.now scope notes.new }
{
    write_listed(state, batch, scope, notes);
    write_named(state, batch, scope, notes);
    write_ends(state, batch, scope, notes);
    write_listed_slots(state, batch, scope, notes);
    write_named_slots(state, batch, scope, notes);
    write_turns(state, batch, scope, notes);
    write_namings(state, batch, scope, notes);
    write_claims(state, batch, scope, notes);
}

// The numbers of the listed nodes.
fn write_listed<'a>(state: &'a State, batch: &'a [u8], scope: Scope, notes: &mut Notes)
    requires { Told 0 state.now batch.now scope notes.old }
    ensures { Told 1 state.now batch.now scope notes.new }
{
    for i in 0..scope.listed {
        let x = record_reader::node_id(batch, i);
        notes[notes::LISTED + i] = x.0;
    }
}

// The children that they name.
fn write_named<'a>(state: &'a State, batch: &'a [u8], scope: Scope, notes: &mut Notes)
    requires { Told 1 state.now batch.now scope notes.old }
    ensures { Told 2 state.now batch.now scope notes.new }
{
    for i in 0..scope.named {
        let x = record_view::read_entry(batch, i);
        notes[notes::NAMED + i] = x.0;
    }
}

// Where the children of each end among these.
fn write_ends<'a>(state: &'a State, batch: &'a [u8], scope: Scope, notes: &mut Notes)
    requires { Told 2 state.now batch.now scope notes.old }
    ensures { Told 3 state.now batch.now scope notes.new }
{
    for i in 0..scope.listed {
        let end = record_reader::first_child(batch, i) + record_reader::child_count(batch, i);
        notes[notes::ENDS + i] = end as u64;
    }
}

// The slots of the listed nodes, and of the children that they name.
fn write_listed_slots<'a>(state: &'a State, batch: &'a [u8], scope: Scope, notes: &mut Notes)
    requires { Told 3 state.now batch.now scope notes.old }
    ensures { Told 4 state.now batch.now scope notes.new }
{
    find_each(
        state,
        scope.tree,
        notes,
        notes::LISTED,
        scope.listed,
        notes::LISTED_SLOTS,
    );
}

fn write_named_slots<'a>(state: &'a State, batch: &'a [u8], scope: Scope, notes: &mut Notes)
    requires { Told 4 state.now batch.now scope notes.old }
    ensures { Told 5 state.now batch.now scope notes.new }
{
    find_each(
        state,
        scope.tree,
        notes,
        notes::NAMED,
        scope.named,
        notes::NAMED_SLOTS,
    );
}

// The slot of each of count numbers of tree t, which stand in the notes from `from` on.
fn find_each(state: &State, t: TreeIndex, notes: &mut Notes, from: usize, count: usize, to: usize)
    requires state_value { ascending (view state.now).forest.nodes ≡ true }
    requires slot_room { SlotRoom from count to }
    ensures { notes.new ≡ fill to count (slot_word state.now t notes.old from) notes.old }
{
    for j in 0..count {
        let x = FullNodeId {
            tree: t,
            node: NodeId(notes[from + j]),
        };
        let slot = state_lookup::slot_of(state, x);
        notes[to + j] = slot as u64;
    }
}

// The marks of the slots by the listed nodes, and by the children that they name.
fn write_turns<'a>(state: &'a State, batch: &'a [u8], scope: Scope, notes: &mut Notes)
    requires { Told 5 state.now batch.now scope notes.old }
    ensures { Told 6 state.now batch.now scope notes.new }
{
    let n = state_array::slots(state);
    clear(notes, notes::TURNS, n);
    mark(notes, notes::LISTED_SLOTS, scope.listed, notes::TURNS, n);
}

fn write_namings<'a>(state: &'a State, batch: &'a [u8], scope: Scope, notes: &mut Notes)
    requires { Told 6 state.now batch.now scope notes.old }
    ensures { Told 7 state.now batch.now scope notes.new }
{
    let n = state_array::slots(state);
    clear(notes, notes::NAMINGS, n);
    mark(notes, notes::NAMED_SLOTS, scope.named, notes::NAMINGS, n);
}

// Zeros in n places.
fn clear(notes: &mut Notes, to: usize, n: usize)
    requires { Room to n }
    ensures { notes.new ≡ fill to n (λ i. 0) notes.old }
{
    notes[to..to + n].fill(0);
}

// For each of n slots, one more than the first of count places that has it; 0 stands there already.
fn mark(notes: &mut Notes, from: usize, count: usize, to: usize, n: usize)
    requires { MarkRoom from count to n notes.old }
    ensures { Marked from count to n notes.old notes.new }
{
    for j in 0..count {
        let i = notes[from + j] as usize;
        if i < n && notes[to + i] < 1 {
            notes[to + i] = (j + 1) as u64;
        }
    }
}

// Which listed nodes claim a tree: graft one that they did not graft before.
fn write_claims<'a>(state: &'a State, batch: &'a [u8], scope: Scope, notes: &mut Notes)
    requires { Told 7 state.now batch.now scope notes.old }
    ensures { Told 8 state.now batch.now scope notes.new }
{
    for i in 0..scope.listed {
        let slot = notes[notes::LISTED_SLOTS + i] as usize;
        let claims = notes::grafts_new(batch, i) & !notes::same_graft(state, batch, i, slot);
        notes[notes::CLAIMS + i] = flag_of(claims);
    }
}

// 1 where a test holds, else 0.
fn flag_of(test: bool) -> u64
    ensures { result ≡ flag test }
{
    if test { 1 } else { 0 }
}
