// Which nodes are reached from ROOT's root of a state, and the links under which a node is met, going down once from each node reached: for any
// words in which no node has more than 256 children.
ghost use Rattle.std.specs.Prelude.{List, [], ◌∷◌, ◌++◌, ◌≡◌, ◌<◌, if◌then◌else◌, Option};
ghost use Rattle.base.specs.Tests.{same_option};
ghost use Rattle.ids.specs.Ids.{same_id};
ghost use Rattle.reasons.specs.Shape.{links_below, met_links};
ghost use Rattle.state.specs.State.{ParentAndIndex};
ghost use Rattle.state.specs.Down.{root_of};
ghost use Rattle.state_array.specs.View.{view, slots_of, node_in, link_of};
ghost use Rattle.reasons_shape.specs.Reached.{Few, reached_in, below_at, leads_to, none_leads, next_mark, root_mark, Marks, Marked, Tells};

use ids::{FullNodeId, NodeId, TreeId, TreeIndex};
use state_array::{LinkRow, State};
use state_rules::kid_at;

// Links under which a node is met: 0, 1, or 2 for more than one; and the first.
#[derive(Clone, Copy)]
pub struct Links {
    pub count: u64,
    pub first: LinkRow,
}

// Marks of slots: 0 for a node that is not reached.
pub type Slots = [u8; state_array::SLOTS];

// Which nodes are reached from ROOT's root.
pub(crate) fn reached(state: &State) -> Slots
    requires { Few state.now }
    ensures { Marked state.now (reached_in state.now) result }
{
    let Some(e) = state_lookup::tree_of(state, TreeId { high: 0, low: 0 }) else {
        return [0u8; state_array::SLOTS];
    };
    let root = e.root;
    let n = state_array::slots(state);
    let mut marks = root_marks(state, root);
    for _ in 0..n {
        marks = widened(state, &marks);
    }
    marks
}

// The marks of one step further: 2 for the nodes that this step reaches, 1 for those reached before.
fn widened<'a>(state: &'a State, marks: &'a Slots) -> Slots
    requires { Few state.now }
    ensures { Marks (slots_of state.now) (next_mark state.now marks.now) result }
{
    let n = state_array::slots(state);
    let mut next = [0u8; state_array::SLOTS];
    for i in 0..n {
        next[i] = next_mark(state, marks, i);
    }
    next
}

// The mark of slot i one step further.
fn next_mark<'a>(state: &'a State, marks: &'a Slots, i: usize) -> u8
    requires few { Few state.now }
    requires i_bound { i < slots_of state.now }
    ensures { result ≡ next_mark state.now marks.now i }
{
    if marks[i] != 0 {
        return 1;
    }
    if none_leads(state, marks, state_array::id_at(state, i)) {
        return 0;
    }
    2
}

// Whether x stands below no node that the last step reached.
fn none_leads<'a>(state: &'a State, marks: &'a Slots, x: FullNodeId) -> bool
    requires { Few state.now }
    ensures { result ≡ none_leads state.now marks.now x }
{
    let n = state_array::slots(state);
    for p in 0..n {
        if leads_to(state, marks, x, p) {
            return false;
        }
    }
    true
}

// Whether the last step reached the node in slot p, and x stands below it.
fn leads_to<'a>(state: &'a State, marks: &'a Slots, x: FullNodeId, p: usize) -> bool
    requires few { Few state.now }
    requires p_bound { p < slots_of state.now }
    ensures { result ≡ leads_to state.now marks.now x p }
{
    if marks[p] != 2 {
        return false;
    }
    is_below(state, p, x)
}

// Whether x stands one step below the node in slot p.
pub(crate) fn is_below(state: &State, p: usize, x: FullNodeId) -> bool
    requires few { Few state.now }
    requires p_bound { p < slots_of state.now }
    ensures { result ≡ below_at state.now x p }
{
    for j in 0..256 {
        let Some(y) = kid_at(state, p, j) else {
            return false;
        };
        if x == y {
            return true;
        }
    }
    false
}

// The marks before the first step: 2 for the root alone.
fn root_marks(state: &State, root: FullNodeId) -> Slots
    ensures { Marks (slots_of state.now) (root_mark state.now root) result }
{
    let n = state_array::slots(state);
    let mut marks = [0u8; state_array::SLOTS];
    for i in 0..n {
        marks[i] = root_mark(state, root, i);
    }
    marks
}

// The first mark of slot i.
fn root_mark(state: &State, root: FullNodeId, i: usize) -> u8
    ensures { result ≡ root_mark state.now root i }
{
    if state_array::id_at(state, i) == root {
        return 2;
    }
    0
}

// The links under which x is met, going down once from each node reached.
pub(crate) fn met_links<'a>(state: &'a State, marks: &'a Slots, x: FullNodeId) -> Links
    requires few { Few state.now }
    requires marked { Marked state.now (reached_in state.now) marks.now }
    ensures { Tells (met_links (view state.now).forest (reached_in state.now) x) result }
{
    let n = state_array::slots(state);
    let mut links = root_links(state, x);
    for p in 0..n {
        if marks[p] == 0 {
            continue;
        }
        links = add_below(state, p, x, links);
    }
    links
}

// The links under which x is met as the root.
fn root_links(state: &State, x: FullNodeId) -> Links
    ensures { Tells (if same_option same_id (root_of (view state.now).forest) (Some x) then None ∷ [] else []) result }
{
    let Some(e) = state_lookup::tree_of(state, TreeId { high: 0, low: 0 }) else {
        return no_link(0);
    };
    let root = e.root;
    if root == x {
        return no_link(1);
    }
    no_link(0)
}

// No link, or the root's.
fn no_link(count: u64) -> Links
    ensures { (result.count ≡ count) × (link_of result.first ≡ None) }
{
    Links {
        count,
        first: LinkRow {
            parent: FullNodeId {
                tree: TreeIndex(0),
                node: NodeId(0),
            },
            index: 0,
            linked: 0,
        },
    }
}

// The links with those under which x is met below the node in slot p.
fn add_below(state: &State, p: usize, x: FullNodeId, links: Links) -> Links
    requires few { Few state.now }
    requires p_bound { p < slots_of state.now }
    ensures { (ls : List (Option ParentAndIndex)) → Tells ls links → Tells (ls ++ links_below (view state.now).forest x (node_in state.now p)) result }
{
    let parent = state_array::id_at(state, p);
    let mut all = links;
    for place in 0..256 {
        let Some(y) = kid_at(state, p, place) else {
            return all;
        };
        if x != y {
            continue;
        }
        let index = place as u64;
        all = add_link(
            all,
            LinkRow {
                parent,
                index,
                linked: 1,
            },
        );
    }
    all
}

// One link more.
fn add_link(links: Links, l: LinkRow) -> Links
    ensures { (ls : List (Option ParentAndIndex)) → Tells ls links → Tells (ls ++ link_of l ∷ []) result }
{
    if links.count == 0 {
        return Links { count: 1, first: l };
    }
    let first = links.first;
    Links { count: 2, first }
}
