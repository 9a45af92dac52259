// The rules for links, in the order in which they are asked.
ghost use Rattle.std.specs.Prelude.{not, [], ◌∷◌, ◌≡◌, ◌<◌};
ghost use Rattle.base.specs.Search.{First};
ghost use Rattle.base.specs.Tests.{◌and◌, is_nil, same_option};
ghost use Rattle.ids.specs.declared.FullNodeId.{FullNodeId};
ghost use Rattle.reasons.specs.Reasons.{too_many_children, met_twice, graft_with_children};
ghost use Rattle.reasons.specs.Shape.{spot, at, smallest, met_links, crowded, absent_ids, absence, is_met_twice, topmost_within, unmet, wrong_link_from, broken_links};
ghost use Rattle.reasons_shape.specs.Reached.{Few, reached_in, Marked, below_at};
ghost use Rattle.reasons_why.specs.Why.{why_broken};
ghost use Rattle.state.specs.State.{present, same_link, parent_of, parent_at};
ghost use Rattle.state.specs.Sound.{graft_is_bare};
ghost use Rattle.state_array.specs.View.{view, slots_of, node_in, link_of};
ghost use Rattle.reasons_shape.specs.Rules.{LeastWith, absent_under, broken_ways, ClimbSays};

use crate::reached::{Slots, is_below, met_links};
use crate::{id_found, of_node, of_rule, reached};
use ids::FullNodeId;
use reasons_why::Why;
use state_array::{LinkRow, State};
use state_rules::kid_at;

// The topmost node above one that is never met, and the parent that it records; nothing where they go round in a circle.
#[derive(Clone, Copy)]
struct Climb {
    node: Option<FullNodeId>,
    by: Option<FullNodeId>,
}

// The first rule for links that is broken.
pub(crate) fn broken_links(state: &State, number: u8) -> Why
    ensures { result ≡ why_broken number (broken_links (view state.now).forest (reached_in state.now)) }
{
    let crowd = crowd(state, number);
    if crowd.rule != 0 {
        return crowd;
    }
    let absence = absence(state, number);
    if absence.rule != 0 {
        return absence;
    }
    broken_ways(state, number)
}

// The first of those that are asked where no node has more than 256 children and none below a node is absent.
fn broken_ways(state: &State, number: u8) -> Why
    requires { Few state.now }
    ensures { result ≡ why_broken number (broken_ways (view state.now).forest) }
{
    let marks = reached::reached(state);
    let twice = met_twice(state, &marks, number);
    if twice.rule != 0 {
        return twice;
    }
    let never = never_met(state, &marks, number);
    if never.rule != 0 {
        return never;
    }
    let link = wrong_link(state, &marks, number);
    if link.rule != 0 {
        return link;
    }
    burdened(state, number)
}

// Rule 3: no node has more than 256 children.
fn crowd(state: &State, number: u8) -> Why
    ensures { result ≡ why_broken number (at too_many_children (spot crowded (view state.now).forest.nodes)) }
{
    let n = state_array::slots(state);
    for i in 0..n {
        if is_crowded(state, i) {
            return of_node(number, 3, i, id_found(state, i), None, None);
        }
    }
    of_rule(number, 0)
}

// Whether the node in slot i has more.
fn is_crowded(state: &State, i: usize) -> bool
    ensures { result ≡ crowded (node_in state.now i) }
{
    let d = state_array::shape_at(state, i);
    256 < d.child_count
}

// Rule 4: what stands below a node is present.
fn absence(state: &State, number: u8) -> Why
    requires { Few state.now }
    ensures { result ≡ why_broken number (absence (view state.now).forest) }
{
    let least = least_absent(state);
    let Some(x) = least else {
        return of_rule(number, 0);
    };
    let p = first_above(state, x);
    if state_array::slots(state) <= p {
        return of_rule(number, 0);
    }
    of_node(number, 4, p, least, id_found(state, p), None)
}

// The smallest id below a node that is absent.
fn least_absent(state: &State) -> Option<FullNodeId>
    requires { Few state.now }
    ensures { result ≡ smallest (absent_ids (view state.now).forest (view state.now).forest.nodes) }
{
    let n = state_array::slots(state);
    let mut least = None;
    for p in 0..n {
        least = least_below(state, p, least);
    }
    least
}

// The smaller of an id and the smallest absent one below the node in slot p.
fn least_below(state: &State, p: usize, least: Option<FullNodeId>) -> Option<FullNodeId>
    requires few { Few state.now }
    requires p_bound { p < slots_of state.now }
    ensures { LeastWith least (absent_under state.now p) result }
{
    let n = state_array::slots(state);
    let mut all = least;
    for place in 0..256 {
        let Some(y) = kid_at(state, p, place) else {
            return all;
        };
        if state_lookup::find_in(state, y) < n {
            continue;
        }
        all = lesser(all, y);
    }
    all
}

// The smaller of an id, if there is one, and another.
fn lesser(least: Option<FullNodeId>, y: FullNodeId) -> Option<FullNodeId>
    ensures { LeastWith least (y ∷ []) result }
{
    let Some(x) = least else {
        return Some(y);
    };
    if ids::is_before(y, x) {
        return Some(y);
    }
    Some(x)
}

// The first slot of a node above x, their number where there is none.
fn first_above(state: &State, x: FullNodeId) -> usize
    requires { Few state.now }
    ensures { First (below_at state.now x) (slots_of state.now) result }
{
    let n = state_array::slots(state);
    for p in 0..n {
        if is_below(state, p, x) {
            return p;
        }
    }
    n
}

// Rule 5: no node is met more than once.
fn met_twice<'a>(state: &'a State, marks: &'a Slots, number: u8) -> Why
    requires few { Few state.now }
    requires marked { Marked state.now (reached_in state.now) marks.now }
    ensures { result ≡ why_broken number (at met_twice (spot (is_met_twice (view state.now).forest (reached_in state.now)) (view state.now).forest.nodes)) }
{
    let n = state_array::slots(state);
    for i in 0..n {
        if is_met_twice(state, marks, i) {
            return of_node(number, 5, i, id_found(state, i), None, None);
        }
    }
    of_rule(number, 0)
}

// Whether the node in slot i is.
fn is_met_twice<'a>(state: &'a State, marks: &'a Slots, i: usize) -> bool
    requires few { Few state.now }
    requires marked { Marked state.now (reached_in state.now) marks.now }
    ensures { result ≡ is_met_twice (view state.now).forest (reached_in state.now) (node_in state.now i) }
{
    let links = met_links(state, marks, state_array::id_at(state, i));
    links.count == 2
}

// Rule 6: every node is met.
fn never_met<'a>(state: &'a State, marks: &'a Slots, number: u8) -> Why
    requires few { Few state.now }
    requires marked { Marked state.now (reached_in state.now) marks.now }
    ensures { result ≡ why_broken number (unmet (view state.now).forest (reached_in state.now)) }
{
    let n = state_array::slots(state);
    for i in 0..n {
        let x = state_array::id_at(state, i);
        if is_unmet(state, marks, x) {
            let top = topmost(state, marks, x);
            let by = top.by;
            let node = top.node;
            return of_node(number, 6, i, Some(x), by, node);
        }
    }
    of_rule(number, 0)
}

// Whether x is never met.
fn is_unmet<'a>(state: &'a State, marks: &'a Slots, x: FullNodeId) -> bool
    requires few { Few state.now }
    requires marked { Marked state.now (reached_in state.now) marks.now }
    ensures { result ≡ is_nil (met_links (view state.now).forest (reached_in state.now) x) }
{
    let links = met_links(state, marks, x);
    links.count == 0
}

// Climbing by the recorded parents from x, which is never met: the topmost such node.
fn topmost<'a>(state: &'a State, marks: &'a Slots, x: FullNodeId) -> Climb
    requires few { Few state.now }
    requires marked { Marked state.now (reached_in state.now) marks.now }
    ensures { ClimbSays (topmost_within (slots_of state.now) (view state.now).forest (reached_in state.now) x) result }
{
    let n = state_array::slots(state);
    let mut at = x;
    for _ in 0..n {
        let Some(p) = parent_at(state, at) else {
            return Climb {
                node: Some(at),
                by: None,
            };
        };
        if !is_lost(state, marks, p) {
            return Climb {
                node: Some(at),
                by: Some(p),
            };
        }
        at = p;
    }
    Climb {
        node: None,
        by: None,
    }
}

// The parent that a node records.
fn parent_at(state: &State, x: FullNodeId) -> Option<FullNodeId>
    ensures { result ≡ parent_at (view state.now).forest.nodes x }
{
    let i = state_lookup::find_in(state, x);
    if state_array::slots(state) <= i {
        return None;
    }
    parent_of(state_array::link_at(state, i))
}

// The parent of a link.
fn parent_of(l: LinkRow) -> Option<FullNodeId>
    ensures { result ≡ parent_of (link_of l) }
{
    if l.linked == 0 {
        return None;
    }
    let parent = l.parent;
    Some(parent)
}

// Whether p is present and never met.
fn is_lost<'a>(state: &'a State, marks: &'a Slots, p: FullNodeId) -> bool
    requires few { Few state.now }
    requires marked { Marked state.now (reached_in state.now) marks.now }
    ensures { result ≡ present (view state.now).forest.nodes p and is_nil (met_links (view state.now).forest (reached_in state.now) p) }
{
    (state_lookup::find_in(state, p) < state_array::slots(state)) & is_unmet(state, marks, p)
}

// Rule 7: a node records the link under which it is met.
fn wrong_link<'a>(state: &'a State, marks: &'a Slots, number: u8) -> Why
    requires few { Few state.now }
    requires marked { Marked state.now (reached_in state.now) marks.now }
    ensures { result ≡ why_broken number (wrong_link_from 0 (view state.now).forest (reached_in state.now) (view state.now).forest.nodes) }
{
    let n = state_array::slots(state);
    for i in 0..n {
        let l = state_array::link_at(state, i);
        let met = met_links(state, marks, state_array::id_at(state, i));
        let first = met.first;
        if !same_link(l, first) {
            return of_node(
                number,
                7,
                i,
                id_found(state, i),
                parent_of(l),
                parent_of(first),
            );
        }
    }
    of_rule(number, 0)
}

// Whether two links are the same.
fn same_link(k: LinkRow, l: LinkRow) -> bool
    ensures { result ≡ same_option same_link (link_of k) (link_of l) }
{
    if k.linked == 0 {
        return l.linked == 0;
    }
    (l.linked != 0) & ((k.parent == l.parent) & (k.index == l.index))
}

// Rule 8: no graft has children.
fn burdened(state: &State, number: u8) -> Why
    ensures { result ≡ why_broken number (at graft_with_children (spot (λ n. not (graft_is_bare n)) (view state.now).forest.nodes)) }
{
    let n = state_array::slots(state);
    for i in 0..n {
        if !state_rules::is_bare(state, i) {
            return of_node(number, 8, i, id_found(state, i), None, None);
        }
    }
    of_rule(number, 0)
}
