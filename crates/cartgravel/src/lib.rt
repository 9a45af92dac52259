// The library that terminals link: the three calls, why a call gets its number, and in asking.rt the questions. Numbers, slices, plain structs and
// the state's words alone cross the boundary: a slice passes as a pointer and a length, the state as a pointer. include/cartgravel.h declares the
// functions for C.
#![tactic(auto)]

mod asking;

ghost use Rattle.std.specs.Prelude.{◌≡◌};
ghost use Rattle.state_array.specs.View.{view};
ghost use Rattle.questions.specs.Kept.{next_of};
ghost use Rattle.cartgravel.specs.Questions.{plain_step};
ghost use Rattle.replies.specs.Replies.{Starts, Updates, HostFocuses};
ghost use Rattle.reasons_calls.specs.Explain.{why_update, why_start};
ghost use Rattle.calls.specs.Explained.{Explained, ExplainedStart};

use calls::explain;
use calls::explain::{Explanation, Way};
use cartgravel_plain::FoundId;
use question_calls::walk;
use questions::Walk;
use replies::Reply;
use state_array::State;

// A start. What the state's words hold before is not looked at.
#[unsafe(no_mangle)]
pub extern "C" fn cartgravel_start<'a, 'b>(
    state: &'a mut State,
    batch: &'b [u8],
    host_focused: u32,
) -> Reply
    ensures { Starts batch.now host_focused state.new result }
{
    calls::start(state, batch, host_focused)
}

// A batch on a state. `changes` takes the four lists.
#[unsafe(no_mangle)]
pub extern "C" fn cartgravel_update<'a, 'b, 'c>(
    state: &'a mut State,
    batch: &'b [u8],
    changes: &'c mut [u64],
) -> Reply
    ensures { Updates state.old batch.now changes.old state.new result changes.new }
{
    calls::update(state, batch, changes)
}

// A host focus change.
#[unsafe(no_mangle)]
pub extern "C" fn cartgravel_host_focus(state: &mut State, host_focused: u32) -> Reply
    ensures { HostFocuses state.old host_focused state.new result }
{
    calls::host_focus(state, host_focused)
}

// Why a batch on a state, with so many elements lent for the lists, gets its number. `way` takes the way of 15 and 17.
#[unsafe(no_mangle)]
pub extern "C" fn cartgravel_explain<'a, 'b>(
    state: &'a State,
    batch: &'a [u8],
    room: usize,
    way: &'b mut Way,
) -> Explanation
    ensures { Explained (why_update (view state.now) batch.now room) result way.new }
{
    explain::explain(state, batch, room, way)
}

// Why a start gets its number. `memory` is worked in and is blank afterwards; what its words hold before is not looked at.
#[unsafe(no_mangle)]
pub extern "C" fn cartgravel_explain_start<'a, 'b, 'c>(
    memory: &'a mut State,
    batch: &'b [u8],
    way: &'c mut Way,
) -> Explanation
    ensures { ExplainedStart (why_start batch.now) result way.new memory.new }
{
    explain::explain_start(memory, batch, way)
}

// What a step of a kept walk answers, and the walk after it.
#[derive(Clone, Copy)]
pub struct PlainStep {
    pub walk: Walk,
    pub answer: FoundId,
}

// The next sibling of a kept walk in the state given, or none at the end. The walk moves on with an answer alone.
#[unsafe(no_mangle)]
pub extern "C" fn cartgravel_next(walk: &mut Walk, state: &State) -> FoundId
    ensures { plain_step (next_of (view state.now) walk.old) ≡ record { walk = walk.new; answer = result } }
{
    let s = moved_on(state, *walk);
    *walk = s.walk;
    s.answer
}

// The same by value.
fn moved_on(state: &State, walk: Walk) -> PlainStep
    ensures { result ≡ plain_step (next_of (view state.now) walk) }
{
    let s = walk::step(state, walk);
    let walk = s.walk;
    PlainStep {
        walk,
        answer: cartgravel_plain::found(s.answer),
    }
}
