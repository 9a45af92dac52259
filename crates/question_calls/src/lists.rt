// Lists of ids: the siblings of a node by their places among the parent's children (`FollowingSiblings`, `PrecedingSiblings` of
// src/iterators.rs), and ids stored one by one.
ghost use Rattle.std.specs.Prelude.{◌≡◌, ◌*◌, ◌+◌, ◌<◌, ◌≤◌, length, set};
ghost use Rattle.ids.specs.Ids.{id_words};
ghost use Rattle.state_array.specs.View.{id_in, slots_of, view};
ghost use Rattle.questions.specs.Answers.{written};
ghost use Rattle.questions.specs.Links.{siblings};
ghost use Rattle.question_calls.specs.Slots.{Sound};
ghost use Rattle.question_calls.specs.Lists.{InRun, in_run, RunOf};

use crate::links;
use ids::FullNodeId;
use questions::Side;
use state_array::State;

// Where the siblings on a side stand: the parent's slot, the node's place among the parent's children, how many siblings there are.
#[derive(Clone, Copy)]
pub struct Run {
    pub parent: usize,
    pub index: usize,
    pub count: usize,
}

// Where the siblings on a side of the node in slot i stand.
pub(crate) fn siblings_run(state: &State, parents: &[u16], side: Side, i: usize) -> Run
    requires sound { Sound state.now }
    requires i_bound { i < slots_of state.now }
    ensures { RunOf state.now side (siblings side (view state.now).forest (id_in state.now i)) result }
{
    let link = state_array::link_at(state, i);
    if link.linked == 0 {
        return Run {
            parent: 0,
            index: 0,
            count: 0,
        };
    }
    let parent = links::parent_slot(state, parents, i);
    let children = links::child_count(state, parent);
    let index = link.index as usize;
    match side {
        Side::Following => Run {
            parent,
            index,
            count: children - index - 1,
        },
        Side::Preceding => Run {
            parent,
            index,
            count: index,
        },
    }
}

// Sibling k of a run, by its place.
pub(crate) fn sibling_at(state: &State, side: Side, run: Run, k: usize) -> FullNodeId
    requires sound { Sound state.now }
    requires in_run { InRun state.now side run k }
    ensures { result ≡ in_run state.now side run k }
{
    match side {
        Side::Following => links::child_id(state, run.parent, run.index + 1 + k),
        Side::Preceding => links::child_id(state, run.parent, run.index - 1 - k),
    }
}

// Stores an id after k others.
pub(crate) fn store(ids: &mut [u64], k: usize, x: FullNodeId)
    requires { 2 * k + 2 ≤ length ids.old }
    ensures { ids.new ≡ set (set ids.old (2 * k) x.tree.0) (2 * k + 1) x.node.0 }
{
    ids[2 * k] = x.tree.0 as u64;
    ids[2 * k + 1] = x.node.0;
}

// Writes the siblings on a side of the node in slot i at the start of a slice that has room for them.
pub(crate) fn put_siblings<'a, 'b>(
    state: &'a State,
    parents: &'a [u16],
    side: Side,
    i: usize,
    out: &'b mut [u64],
)
    requires sound { Sound state.now }
    requires i_bound { i < slots_of state.now }
    requires i_in_bounds { 2 * length (siblings side (view state.now).forest (id_in state.now i)) ≤ length out.old }
    ensures { out.new ≡ written (id_words (siblings side (view state.now).forest (id_in state.now i))) out.old }
{
    let run = siblings_run(state, parents, side, i);
    for k in 0..run.count {
        store(out, k, sibling_at(state, side, run, k));
    }
}
