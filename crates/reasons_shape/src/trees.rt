// The rules for trees, in document 01's order.
ghost use Rattle.std.specs.Prelude.{[], ◌≡◌, ◌+◌, ◌<◌, drop, if◌then◌else◌};
ghost use Rattle.reasons.specs.Reasons.{grafted_twice, root_not_first};
ghost use Rattle.reasons.specs.Shape.{graft_twice_from, tree_twice_from, unrooted_from, broken_trees};
ghost use Rattle.reasons_why.specs.Why.{why_broken};
ghost use Rattle.state.specs.State.{holder};
ghost use Rattle.state.specs.Sound.{root_first};
ghost use Rattle.state_array.specs.View.{view, slots_of, trees_of};
ghost use Rattle.state_rules.specs.Parts.{rooted_in};
ghost use Rattle.reasons_shape.specs.Rules.{tree_why};

use crate::{id_found, of_rule};
use ids::{FullNodeId, TreeId, TreeIndex};
use reasons_why::Why;
use state_array::State;

// The first rule for trees that is broken.
pub(crate) fn broken_trees(state: &State, number: u8) -> Why
    ensures { result ≡ why_broken number (broken_trees (view state.now).forest) }
{
    let graft = graft_twice(state, number);
    if graft.rule != 0 {
        return graft;
    }
    let root = root_first(state, number);
    if root.rule != 0 {
        return root;
    }
    let tree = tree_twice(state, number);
    if tree.rule != 0 {
        return tree;
    }
    unrooted(state, number)
}

// Rule 9: no tree is grafted by two nodes.
fn graft_twice(state: &State, number: u8) -> Why
    ensures { result ≡ why_broken number (elim (graft_twice_from 0 (view state.now).forest.nodes) [ None ↦ None | Some g ↦ Some (grafted_twice g) ]) }
{
    let n = state_array::slots(state);
    for i in 0..n {
        let d = state_array::shape_at(state, i);
        if !state_array::is_graft(d.flags) {
            continue;
        }
        let tree = d.graft;
        let Some(other) = later_graft(state, i, tree) else {
            continue;
        };
        return Why {
            number,
            rule: 9,
            place: i,
            other: 0,
            tree,
            node: id_found(state, i),
            by: None,
            also: Some(other),
        };
    }
    of_rule(number, 0)
}

// The first node after slot i that grafts a tree.
fn later_graft(state: &State, i: usize, t: TreeId) -> Option<FullNodeId>
    requires { i < slots_of state.now }
    ensures { result ≡ holder (drop (i + 1) (view state.now).forest.nodes) t }
{
    let n = state_array::slots(state);
    for j in i + 1..n {
        if state_rules::is_graft_of(state, j, t) {
            return id_found(state, j);
        }
    }
    None
}

// Rule 10: ROOT exists and has number 0.
fn root_first(state: &State, number: u8) -> Why
    ensures { result ≡ why_broken number (if root_first (view state.now).forest.trees then None else Some root_not_first) }
{
    if state_rules::root_is_first(state) {
        return of_rule(number, 0);
    }
    of_rule(number, 10)
}

// Rule 11: each tree number has an id of its own.
fn tree_twice(state: &State, number: u8) -> Why
    ensures { result ≡ why_broken number (tree_twice_from 0 [] (view state.now).forest.trees) }
{
    let m = state_array::trees(state);
    for k in 0..m {
        let t = state_array::tree_at(state, k);
        if state_lookup::find_tree(state, t.id) < k {
            return of_tree(state, number, 11, k);
        }
    }
    of_rule(number, 0)
}

// Rule 12: a tree that exists has its root among the nodes and, but for ROOT, a graft there.
fn unrooted(state: &State, number: u8) -> Why
    ensures { result ≡ why_broken number (unrooted_from (view state.now).forest.nodes 0 (view state.now).forest.trees) }
{
    let m = state_array::trees(state);
    for k in 0..m {
        if !is_rooted(state, k) {
            return of_tree(state, number, 12, k);
        }
    }
    of_rule(number, 0)
}

// Whether tree k does.
fn is_rooted(state: &State, k: usize) -> bool
    requires { k < trees_of state.now }
    ensures { result ≡ rooted_in state.now k }
{
    let n = state_array::slots(state);
    let t = state_array::tree_at(state, k);
    if t.exists == 0 {
        return true;
    }
    let node = t.root;
    let number = k as u32;
    let id = FullNodeId {
        tree: TreeIndex(number),
        node,
    };
    (state_lookup::find_in(state, id) < n) & ((k == 0) | !state_rules::is_free(state, n, t.id))
}

// A rule, and the number and the id of the tree that breaks it.
fn of_tree(state: &State, number: u8, rule: u8, k: usize) -> Why
    ensures { result ≡ tree_why state.now number rule k }
{
    let t = state_array::tree_at(state, k);
    let tree = t.id;
    Why {
        number,
        rule,
        place: k,
        other: 0,
        tree,
        node: None,
        by: None,
        also: None,
    }
}
