// A batch applied to a state: rows 9 to 20, and the outcome in a second array.
ghost use Rattle.std.specs.Prelude.{◌≡◌};
ghost use Rattle.calls.specs.Says.{Told, READ};
ghost use Rattle.state_array.specs.Layout.{blank_words};
ghost use Rattle.calls.specs.Says.{Written};
ghost use Rattle.calls.specs.Applied.{Applied};

use crate::notes::{Notes, Refusal, Scope};
use crate::{bodies, gone, pass, plan, reading, rows, writing};
use state_array::State;

// The first number of 9 to 20 that refuses the batch; if none does, the outcome stands in `next`, and the notes have the plan.
pub(crate) fn apply<'a, 'b, 'c>(
    state: &'a State,
    batch: &'a [u8],
    scope: Scope,
    notes: &'b mut Notes,
    next: &'c mut State,
) -> Result<(), Refusal>
    requires told { Told 0 state.now batch.now scope notes.old }
    requires next_value { next.old ≡ blank_words }
    ensures { Applied state.now batch.now scope notes.new next.new result }
{
    reading::write_words(state, batch, scope, notes);
    pass::pass_rows(state, batch, scope, notes)?;
    write(state, batch, scope, notes, next);
    let k = scope.listed;
    let clash = rows::first_clash(notes, k) < k;
    rows::last_rows(next, clash)
}

// The outcome of a batch that passed rows 9 to 14, with what goes, what differs and the plan in the notes.
pub(crate) fn write<'a, 'b, 'c>(
    state: &'a State,
    batch: &'a [u8],
    scope: Scope,
    notes: &'b mut Notes,
    next: &'c mut State,
)
    requires told { Told READ state.now batch.now scope notes.old }
    requires next_value { next.old ≡ blank_words }
    ensures { Written state.now batch.now scope notes.new next.new }
{
    gone::write_gone(state, batch, scope, notes);
    bodies::write_differs(state, batch, scope, notes);
    plan::write_plan(state, batch, scope, notes);
    writing::write_outcome(state, batch, scope, notes, next);
}
