// Why a start or a batch gets its number: the reason of the first row that holds. Nothing is changed.
ghost use Rattle.std.specs.Prelude.{◌≡◌};
ghost use Rattle.reasons.specs.Reasons.{first_reason};
ghost use Rattle.reasons_calls.specs.Explain.{why_update, why_start};
ghost use Rattle.reasons_calls.specs.Outcome.{focus_reason};
ghost use Rattle.reasons_why.specs.Why.{why_for};
ghost use Rattle.calls.specs.Explained.{Explained, ExplainedStart, plain_why, Explains, ExplainsFor, Judged, no_way, offence_why, first_reasons, start_reasons, last_reasons};
ghost use Rattle.state_array.specs.View.{view};
ghost use Rattle.state_array.specs.Layout.{blank_words};
ghost use Rattle.calls.specs.Says.{Written};
ghost use Rattle.calls.specs.Says.{Told};
ghost use Rattle.calls.specs.Setting.{asked, forest};
ghost use Rattle.calls.specs.Rows.{first_number, start_rows};

use crate::notes::{Notes, Scope};
use crate::{apply, reading, rows, seeds, why_outcome, why_pass, why_rows};
use ids::{TreeId, TreeIndex};
use reasons_why::Why;
use record_layout::Offence;
use replies::OptionalId;
use state_array::State;

// The way from ROOT's focus through the grafts: two words for a node, at most 33 nodes.
pub type Way = [u64; 66];

// Why a number is answered, as plain numbers; a field that the number does not use is 0. docs/NUMBERS.md has what each field holds.
#[repr(C)]
#[derive(Clone, Copy)]
pub struct Explanation {
    pub place: usize,
    pub other: usize,
    pub tree: TreeId,
    pub node: OptionalId,
    pub by: OptionalId,
    pub also: OptionalId,
    pub rule: u32,
    pub number: u32,
}

// Why a batch on a state, with so many elements lent for the lists, gets its number.
pub fn explain<'a, 'b>(
    state: &'a State,
    batch: &'a [u8],
    room: usize,
    way: &'b mut Way,
) -> Explanation
    ensures { Explained (why_update (view state.now) batch.now room) result way.new }
{
    plain(update_why(state, batch, room, way))
}

// Why a start gets its number. `memory` is worked in, and is blank afterwards; what it holds before is not looked at.
pub fn explain_start<'a, 'b, 'c>(
    memory: &'a mut State,
    batch: &'b [u8],
    way: &'c mut Way,
) -> Explanation
    ensures { ExplainedStart (why_start batch.now) result way.new memory.new }
{
    state_array::clear(memory);
    let why = start_why(memory, batch, way);
    state_array::clear(memory);
    plain(why)
}

// A reason as plain numbers.
fn plain(w: Why) -> Explanation
    ensures { result ≡ plain_why w }
{
    let tree = w.tree;
    let node = w.node;
    let by = w.by;
    let also = w.also;
    Explanation {
        place: w.place,
        other: w.other,
        tree,
        node: replies::plain_id(node),
        by: replies::plain_id(by),
        also: replies::plain_id(also),
        rule: w.rule as u32,
        number: w.number as u32,
    }
}

// The reason of a batch.
fn update_why<'a, 'b>(state: &'a State, batch: &'a [u8], room: usize, way: &'b mut Way) -> Why
    ensures { Explains (why_update (view state.now) batch.now room) result way.new }
{
    clear(way);
    if rows::first_rows(state, batch).is_err() {
        return first_why(state, batch);
    }
    later_why(state, batch, room, way)
}

// The reason of a start.
fn start_why<'a, 'b, 'c>(memory: &'a mut State, batch: &'b [u8], way: &'c mut Way) -> Why
    requires { memory.old ≡ blank_words }
    ensures { Explains (why_start batch.now) result way.new }
{
    clear(way);
    if rows::start_rows(batch).is_err() {
        return first_start_why(batch);
    }
    later_start_why(memory, batch, way)
}

// No way.
fn clear(way: &mut Way)
    ensures { way.new ≡ no_way }
{
    let none = [0u64; 66];
    *way = none;
}

// Rows 1, 2 and 5 to 8.
fn first_why<'a>(state: &'a State, batch: &'a [u8]) -> Why
    ensures { result ≡ why_for (first_reason (first_reasons (forest state.now) batch.now)) }
{
    if !state_sound::sound(state) {
        return reasons_shape::broken_state(state);
    }
    if let Some(o) = record_layout::offence(batch) {
        return offence_why(o);
    }
    let scope = rows::scope_of(state, batch);
    why_rows::before_pass(state, batch, scope)
}

// Rows 2 to 5 of a start.
fn first_start_why(batch: &[u8]) -> Why
    ensures { result ≡ why_for (first_reason (start_reasons batch.now)) }
{
    if let Some(o) = record_layout::offence(batch) {
        return offence_why(o);
    }
    if !record_reader::has_tree_data(batch) {
        return why_rows::of_tree(3, TreeId { high: 0, low: 0 });
    }
    let id = record_reader::tree_id(batch);
    if id != (TreeId { high: 0, low: 0 }) {
        return why_rows::of_tree(4, id);
    }
    why_rows::listed_again(batch, TreeIndex(0))
}

// Row 2.
fn offence_why(o: Offence) -> Why
    ensures { result ≡ offence_why o }
{
    Why {
        number: 2,
        rule: o.rule,
        place: o.offset,
        other: 0,
        tree: TreeId { high: 0, low: 0 },
        node: None,
        by: None,
        also: None,
    }
}

// Rows 9 to 21 of a batch that passed the others.
fn later_why<'a, 'b>(state: &'a State, batch: &'a [u8], room: usize, way: &'b mut Way) -> Why
    requires batch_value { first_number (forest state.now) batch.now ≡ 0 }
    requires way_value { way.old ≡ no_way }
    ensures { Explains (why_update (view state.now) batch.now room) result way.new }
{
    let scope = rows::scope_of(state, batch);
    let mut notes = [0u64; 4096];
    let mut next = [0u64; state_array::WORDS];
    let why = batch_why(state, batch, scope, &mut notes, &mut next, way);
    if why.number != 0 {
        return why;
    }
    why_rows::slice_why(state, batch, scope, &mut notes, &next, room)
}

// Rows 9 to 20 of a start that passed the others.
fn later_start_why<'a, 'b, 'c>(memory: &'a mut State, batch: &'b [u8], way: &'c mut Way) -> Why
    requires batch_value { start_rows batch.now ≡ 0 }
    requires memory_value { memory.old ≡ blank_words }
    requires way_value { way.old ≡ no_way }
    ensures { Explains (why_start batch.now) result way.new }
{
    seeds::seed(memory, batch, 0);
    let scope = rows::start_scope(batch);
    let mut notes = [0u64; 4096];
    let mut next = [0u64; state_array::WORDS];
    batch_why(memory, batch, scope, &mut notes, &mut next, way)
}

// Rows 9 to 20. After 0 the outcome stands in `next`.
fn batch_why<'a, 'b, 'c, 'd>(
    state: &'a State,
    batch: &'a [u8],
    scope: Scope,
    notes: &'b mut Notes,
    next: &'c mut State,
    way: &'d mut Way,
) -> Why
    requires told { Told 0 state.now batch.now scope notes.old }
    requires next_value { next.old ≡ blank_words }
    requires way_value { way.old ≡ no_way }
    ensures { Judged state.now batch.now scope notes.new next.new result way.new }
{
    reading::write_words(state, batch, scope, notes);
    let early = why_pass::pass_why(state, batch, scope, notes);
    if early.number != 0 {
        return early;
    }
    apply::write(state, batch, scope, notes, next);
    outcome_why(state, batch, scope, notes, next, way)
}

// 12's second part and rows 15 to 20.
fn outcome_why<'a, 'b>(
    state: &'a State,
    batch: &'a [u8],
    scope: Scope,
    notes: &'a Notes,
    next: &'a State,
    way: &'b mut Way,
) -> Why
    requires written { Written state.now batch.now scope notes.now next.now }
    requires way_value { way.old ≡ no_way }
    ensures { ExplainsFor (first_reason (last_reasons (forest state.now) (asked batch.now scope) (forest next.now))) result way.new }
{
    let clash = why_outcome::clash_why(state, batch, scope, notes, next);
    if clash.number != 0 {
        return clash;
    }
    let focus = focus_why(next, way);
    if focus.number != 0 {
        return focus;
    }
    let removed = why_outcome::removed_why(state, batch, scope, notes);
    if removed.number != 0 {
        return removed;
    }
    if !state_sound::shape_is_sound(next) {
        return reasons_shape::broken_shape(next);
    }
    update_focus::too_many(next)
}

// Rows 15 to 17, and the way that leads to the focus.
fn focus_why<'a, 'b>(next: &'a State, way: &'b mut Way) -> Why
    requires { way.old ≡ no_way }
    ensures { ExplainsFor (focus_reason (forest next.now)) result way.new }
{
    let why = update_focus::focus_why(next);
    if (why.number == 15) | (why.number == 17) {
        update_focus::write_way(next, way);
    }
    why
}
