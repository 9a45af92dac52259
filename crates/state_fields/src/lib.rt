// Whether the fields of a state's nodes obey the record's rules. Floats are judged by their bit patterns.
#![tactic(auto)]

ghost use Rattle.std.specs.Prelude.{◌≡◌, ◌+◌, ◌≤◌, ◌<◌};
ghost use Rattle.base.specs.Tests.{all};
ghost use Rattle.base.specs.Bytes.{bit};
ghost use Rattle.record.specs.Batch.{fields_ok};
ghost use Rattle.state_array.specs.View.{view, body_in};
ghost use Rattle.state_fields.specs.Fields.{zero_from, finite_from};

use state_array::{State, word_at};

// Whether every node's fields obey the rules.
pub fn fields_are_ok(state: &State) -> bool
    ensures { result ≡ all (λ n. fields_ok n.body) (view state.now).forest.nodes }
{
    let n = state_array::slots(state);
    for i in 0..n {
        if !fields_ok_at(state, i) {
            return false;
        }
    }
    true
}

// Whether those of the node in slot i do.
pub fn fields_ok_at(state: &State, i: usize) -> bool
    ensures { result ≡ fields_ok (body_in state.now i) }
{
    let flags = word_at(state, state_array::FLAGS, i);
    (word_at(state, state_array::LABEL_LENGTH, i) <= 32)
        & (word_at(state, state_array::ROLE, i) < 256)
        & (flags < 64)
        & (has_bit(4, flags) | (word_at(state, state_array::ACTIVE, i) == 0))
        & (has_bit(8, flags)
            | ((word_at(state, state_array::GRAFT_HIGH, i) == 0)
                & (word_at(state, state_array::GRAFT_LOW, i) == 0)))
        & (has_bit(16, flags) | are_zero(state, i, 0, 4))
        & (has_bit(32, flags) | are_zero(state, i, 4, 6))
        & are_finite(state, i, 0, 4)
        & are_finite(state, i, 4, 6)
}

// Whether n floats of a node are all zero bytes.
fn are_zero(state: &State, i: usize, from: usize, n: usize) -> bool
    requires { from + n ≤ 10 }
    ensures { result ≡ zero_from state.now i from n }
{
    for k in 0..n {
        if word_at(state, state_array::FLOATS + (from + k), i) != 0 {
            return false;
        }
    }
    true
}

// Whether n floats of a node are finite. It is no one function with `are_zero`: the test would be a closure, whose answers the contract and
// the invariant would speak of in place of the definition.
fn are_finite(state: &State, i: usize, from: usize, n: usize) -> bool
    requires { from + n ≤ 10 }
    ensures { result ≡ finite_from state.now i from n }
{
    for k in 0..n {
        if !record_wire::finite_bits(word_at(state, state_array::FLOATS + (from + k), i)) {
            return false;
        }
    }
    true
}

// Whether the bit of a weight is set.
fn has_bit(weight: u64, flags: u64) -> bool
    requires { 0 < weight }
    ensures { result ≡ bit weight flags }
{
    flags / weight % 2 == 1
}
