// The three calls: a start, a batch, a host focus change, over the state's words; in explain.rt why they answer their number. The crate
// `cartgravel` exports them. The phases of an update, each of which leans on what those before it wrote, are private modules.
#![tactic(auto)]

mod answers;
mod apply;
mod bodies;
pub mod explain;
mod gone;
mod links;
mod notes;
mod pass;
mod plan;
mod reading;
mod reports;
mod rows;
mod seeds;
mod trees;
mod why_outcome;
mod why_pass;
mod why_rows;
mod writing;

ghost use Rattle.std.specs.Prelude.{◌≡◌};
ghost use Rattle.state_array.specs.View.{view};
ghost use Rattle.state_array.specs.Layout.{blank_words};
ghost use Rattle.calls.specs.Rows.{first_number, start_rows};
ghost use Rattle.replies.specs.Replies.{Starts, Updates, HostFocuses};
ghost use Rattle.calls.specs.Plain.{HostPut};

use replies::Reply;
use state_array::State;

// A start. What the state's words hold before is not looked at.
pub fn start<'a, 'b>(state: &'a mut State, batch: &'b [u8], host_focused: u32) -> Reply
    ensures { Starts batch.now host_focused state.new result }
{
    state_array::clear(state);
    if let Err(refusal) = rows::start_rows(batch) {
        return replies::refused(refusal.number);
    }
    started(state, batch, host_focused)
}

// A batch on a state. `changes` takes the four lists.
pub fn update<'a, 'b, 'c>(state: &'a mut State, batch: &'b [u8], changes: &'c mut [u64]) -> Reply
    ensures { Updates state.old batch.now changes.old state.new result changes.new }
{
    if let Err(refusal) = rows::first_rows(state, batch) {
        return replies::refused(refusal.number);
    }
    updated(state, batch, changes)
}

// A host focus change.
pub fn host_focus(state: &mut State, host_focused: u32) -> Reply
    ensures { HostFocuses state.old host_focused state.new result }
{
    if !state_sound::sound(state) {
        return replies::refused(1);
    }
    let before = state_focus::focus(state);
    put_host(state, host_focused);
    let after = state_focus::focus(state);
    answers::accepted(replies::no_lengths(), reports::report_host(before, after))
}

// The flag; `size` tells that there is a word for it.
fn put_host(state: &mut State, host_focused: u32)
    ensures { HostPut state.old host_focused state.new }
{
    state_array::size(state);
    state_array::put_host(state, replies::host_flag(host_focused));
}

// A start that passed rows 2 to 5: a batch on a forest that has ROOT's root and no node.
fn started<'a, 'b>(state: &'a mut State, batch: &'b [u8], host_focused: u32) -> Reply
    requires batch_value { start_rows batch.now ≡ 0 }
    requires state_value { state.old ≡ blank_words }
    ensures { Starts batch.now host_focused state.new result }
{
    seeds::seed(state, batch, host_focused);
    let scope = rows::start_scope(batch);
    let mut notes = [0u64; notes::WORDS];
    let mut first = [0u64; state_array::WORDS];
    if let Err(refusal) = apply::apply(state, batch, scope, &mut notes, &mut first) {
        state_array::clear(state);
        return replies::refused(refusal.number);
    }
    *state = first;
    answers::accepted(
        replies::no_lengths(),
        reports::report_start(state_focus::focus(state)),
    )
}

// A batch that passed rows 1, 2 and 5 to 8.
fn updated<'a, 'b, 'c>(state: &'a mut State, batch: &'b [u8], changes: &'c mut [u64]) -> Reply
    requires { first_number (view state.old).forest batch.now ≡ 0 }
    ensures { Updates state.old batch.now changes.old state.new result changes.new }
{
    let scope = rows::scope_of(state, batch);
    let mut notes = [0u64; notes::WORDS];
    let mut next = [0u64; state_array::WORDS];
    if let Err(refusal) = apply::apply(state, batch, scope, &mut notes, &mut next) {
        return replies::refused(refusal.number);
    }
    reports::write_changed(state, batch, scope, &mut notes, &next);
    let Ok(lists) = reports::write_lists(state, &notes, &next, changes) else {
        return replies::refused(21);
    };
    let report = reports::report_update(state, &notes, &next);
    *state = next;
    answers::accepted(answers::lengths_of(lists), report)
}
