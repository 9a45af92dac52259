// The first rule of a sound state that a state breaks, for any words. Each rule has a function, which answers rule 0 where the rule is kept.
#![tactic(auto)]

mod links;
mod reached;
mod trees;

ghost use Rattle.std.specs.Prelude.{not, ◌≡◌, ◌+◌, ◌<◌, leb, length, drop, if◌then◌else◌};
ghost use Rattle.base.specs.Tests.{all};
ghost use Rattle.ids.specs.Ids.{before};
ghost use Rattle.record.specs.Batch.{fields_ok};
ghost use Rattle.reasons.specs.Reasons.{tooManyNodes, tooManyTrees, broken_field, no_focus};
ghost use Rattle.reasons.specs.Shape.{spot, at, disorder_from, broken_shape, broken_state};
ghost use Rattle.reasons_why.specs.Why.{why_broken};
ghost use Rattle.state.specs.Sound.{focus_present};
ghost use Rattle.state_array.specs.View.{view, id_in, slots_of};
ghost use Rattle.reasons_shape.specs.Rules.{rule_why, node_why};

use ids::{FullNodeId, TreeId};
use reasons_why::Why;
use state_array::State;

// The first rule of a sound state that is broken: number 1.
pub fn broken_state(state: &State) -> Why
    ensures { result ≡ why_broken 1 (broken_state (view state.now).forest) }
{
    let nodes = node_count(state);
    if nodes.rule != 0 {
        return nodes;
    }
    let trees = tree_count(state);
    if trees.rule != 0 {
        return trees;
    }
    let shape = shape(state, 1);
    if shape.rule != 0 {
        return shape;
    }
    let field = fields(state);
    if field.rule != 0 {
        return field;
    }
    focus(state)
}

// The first rule for its links and its trees: number 19.
pub fn broken_shape(state: &State) -> Why
    ensures { result ≡ why_broken 19 (broken_shape (view state.now).forest) }
{
    shape(state, 19)
}

// The same for any number.
fn shape(state: &State, number: u8) -> Why
    ensures { result ≡ why_broken number (broken_shape (view state.now).forest) }
{
    let link = links::broken_links(state, number);
    if link.rule != 0 {
        return link;
    }
    let tree = trees::broken_trees(state, number);
    if tree.rule != 0 {
        return tree;
    }
    disorder(state, number)
}

// Rule 1: at most 256 nodes.
fn node_count(state: &State) -> Why
    ensures { result ≡ why_broken 1 (if leb (length (view state.now).forest.nodes) 256 then None else Some tooManyNodes) }
{
    if 256 < state_array::slots(state) {
        return of_rule(1, 1);
    }
    of_rule(1, 0)
}

// Rule 2: at most 32 tree numbers.
fn tree_count(state: &State) -> Why
    ensures { result ≡ why_broken 1 (if leb (length (view state.now).forest.trees) 32 then None else Some tooManyTrees) }
{
    if 32 < state_array::trees(state) {
        return of_rule(1, 2);
    }
    of_rule(1, 0)
}

// Rule 13: the ids ascend.
fn disorder(state: &State, number: u8) -> Why
    ensures { result ≡ why_broken number (disorder_from 0 (view state.now).forest.nodes) }
{
    let n = state_array::slots(state);
    for i in 0..n {
        if !is_first_after(state, i) {
            return of_node(number, 13, i, id_found(state, i), None, None);
        }
    }
    of_rule(number, 0)
}

// Whether the id in slot i comes before those of the slots after it.
fn is_first_after(state: &State, i: usize) -> bool
    requires { i < slots_of state.now }
    ensures { result ≡ all (λ m. before (id_in state.now i) m.id) (drop (i + 1) (view state.now).forest.nodes) }
{
    let n = state_array::slots(state);
    let x = state_array::id_at(state, i);
    for j in i + 1..n {
        if !ids::is_before(x, state_array::id_at(state, j)) {
            return false;
        }
    }
    true
}

// Rule 14: the fields obey the record's rules.
fn fields(state: &State) -> Why
    ensures { result ≡ why_broken 1 (at broken_field (spot (λ n. not (fields_ok n.body)) (view state.now).forest.nodes)) }
{
    let n = state_array::slots(state);
    for i in 0..n {
        if !state_fields::fields_ok_at(state, i) {
            return of_node(1, 14, i, id_found(state, i), None, None);
        }
    }
    of_rule(1, 0)
}

// Rule 15: the effective focus is present.
fn focus(state: &State) -> Why
    ensures { result ≡ why_broken 1 (if focus_present (view state.now).forest then None else Some no_focus) }
{
    if state_rules::focus_is_present(state) {
        return of_rule(1, 0);
    }
    of_rule(1, 15)
}

// A rule alone; rule 0 where none is broken.
pub(crate) fn of_rule(number: u8, rule: u8) -> Why
    ensures { result ≡ rule_why number rule }
{
    of_node(number, rule, 0, None, None, None)
}

// A rule, the slot of the node that breaks it, and what else there is to say.
pub(crate) fn of_node(
    number: u8,
    rule: u8,
    place: usize,
    node: Option<FullNodeId>,
    by: Option<FullNodeId>,
    also: Option<FullNodeId>,
) -> Why
    ensures { result ≡ node_why number rule place node by also }
{
    Why {
        number,
        rule,
        place,
        other: 0,
        tree: TreeId { high: 0, low: 0 },
        node,
        by,
        also,
    }
}

// The id in a slot.
pub(crate) fn id_found(state: &State, i: usize) -> Option<FullNodeId>
    ensures { result ≡ Some (id_in state.now i) }
{
    Some(state_array::id_at(state, i))
}
