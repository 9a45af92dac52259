// The node that a question asks about: its slot, or why the question is refused.
ghost use Rattle.std.specs.Prelude.{◌≡◌, OnOk};
ghost use Rattle.state_array.specs.View.{view};
ghost use Rattle.questions.specs.Answers.{state_number};
ghost use Rattle.node_answers.specs.Answers.{number_of};
ghost use Rattle.question_calls.specs.Asks.{Asks};
ghost use Rattle.question_calls.specs.Slots.{Sound};

use ids::FullNodeId;
use node_answers::Refusal;
use state_array::State;

// Where the node stands, in any state.
pub(crate) fn asked<'a, 'b>(
    state: &'a State,
    id: FullNodeId,
    parents: &'b mut [u16],
) -> Result<usize, Refusal>
    ensures { Asks state.now id result }
{
    noted(state, parents)?;
    standing(state, id)
}

// Whether the state is sound; the parents of its nodes are noted.
pub(crate) fn noted<'a, 'b>(state: &'a State, parents: &'b mut [u16]) -> Result<(), Refusal>
    ensures number { number_of result ≡ state_number (view state.now).forest }
    ensures sound { OnOk result (Sound state.now) }
{
    if !state_sound::sound_noting(state, parents) {
        return Err(Refusal::NotSound);
    }
    Ok(())
}

// Where the node stands in a sound state.
pub(crate) fn standing(state: &State, id: FullNodeId) -> Result<usize, Refusal>
    requires { Sound state.now }
    ensures { Asks state.now id result }
{
    let slot = state_lookup::slot_of(state, id);
    if state_array::slots(state) <= slot {
        return Err(Refusal::NotPresent);
    }
    Ok(slot)
}
