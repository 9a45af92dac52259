// The crate's pass over the nodes, 9 to 12 as it meets them, and rows 13 and 14: the first that holds, and what makes it hold.
ghost use Rattle.std.specs.Prelude.{◌≡◌, ◌+◌, ◌≤◌, ◌<◌, ltb, get_or};
ghost use Rattle.base.specs.Search.{First};
ghost use Rattle.record.specs.Parse.{batch_of};
ghost use Rattle.calls.specs.Setting.{forest, asked};
ghost use Rattle.calls.specs.Refusals.{verdict};
ghost use Rattle.calls.specs.Says.{Told, READ};
ghost use Rattle.calls.specs.Causes.{cause_number};
ghost use Rattle.calls.specs.Steps.{due_of, Due, DueRoom, Firsts, Prepared, entries_before, Standing, Moves, Names, is_taken, PlacedIs};
ghost use Rattle.calls.specs.Pass.{pass_number, PassExplained, RowsExplained, NowhereAt, FirstNowhere};

use crate::notes;
use crate::notes::{Notes, Refusal, Scope};
use ids::{FullNodeId, NodeId, TreeId};
use state_array::State;

// No listed node: one past the last that a batch can have.
const NONE: usize = 64;

// Where the pass stands after a step: at child entry j of listed node i. `twice` is whether the step named a child named before,
// `at` the listed node that it places, if it places one.
#[derive(Clone, Copy)]
struct Step {
    i: usize,
    j: usize,
    twice: bool,
    at: Option<usize>,
}

// The same of a step that names a child: it goes on to the next entry.
#[derive(Clone, Copy)]
struct Naming {
    twice: bool,
    at: Option<usize>,
}

// What makes the first of rows 9 to 14 hold, listed nodes and child entries by their places.
#[derive(Clone, Copy)]
pub enum Cause {
    // 9: the entry names a child that an earlier one names.
    NamedTwice(usize),
    // 10 and 11: the listed node.
    GraftOverChildren(usize),
    GraftOfRoot(usize),
    // 12: the listed node, and the one placed before it that claims the same tree.
    ClaimedTwice(usize, usize),
    // 13: the listed node.
    WithoutPlace(usize),
    // 14: the entry.
    ChildNowhere(usize),
}

// Rows 9 to 14.
pub(crate) fn pass_rows<'a>(
    state: &'a State,
    batch: &'a [u8],
    scope: Scope,
    notes: &'a Notes,
) -> Result<(), Refusal>
    requires { Told READ state.now batch.now scope notes.now }
    ensures { result ≡ verdict (pass_number (forest state.now) (asked batch.now scope)) }
{
    let Some(cause) = cause_of(state, batch, scope, notes) else {
        return Ok(());
    };
    notes::refuse(number_of(cause))
}

// The number of a cause.
fn number_of(cause: Cause) -> u8
    ensures { result ≡ cause_number cause }
{
    match cause {
        Cause::NamedTwice(_) => 9,
        Cause::GraftOverChildren(_) => 10,
        Cause::GraftOfRoot(_) => 11,
        Cause::ClaimedTwice(_, _) => 12,
        Cause::WithoutPlace(_) => 13,
        Cause::ChildNowhere(_) => 14,
    }
}

// What makes the first of rows 9 to 14 hold, if one holds.
pub(crate) fn cause_of<'a>(
    state: &'a State,
    batch: &'a [u8],
    scope: Scope,
    notes: &'a Notes,
) -> Option<Cause>
    requires { Told READ state.now batch.now scope notes.now }
    ensures { RowsExplained (forest state.now) (asked batch.now scope) result }
{
    let due = dues(state, batch, scope, notes);
    let firsts = firsts_of(scope.listed, &due);
    if let Some(met) = fault(state, batch, scope, notes, &due, &firsts) {
        return Some(met);
    }
    let i = placeless(scope, &due);
    if i < scope.listed {
        return Some(Cause::WithoutPlace(i));
    }
    let j = nowhere(state, batch, scope, notes, &due, &firsts);
    if j < scope.named {
        return Some(Cause::ChildNowhere(j));
    }
    None
}

// For each listed node the number of named children from which on it is placed at its turn.
fn dues<'a>(state: &'a State, batch: &'a [u8], scope: Scope, notes: &'a Notes) -> [usize; 64]
    requires { Told READ state.now batch.now scope notes.now }
    ensures { Due (forest state.now) (asked batch.now scope) result }
{
    let mut out = [0usize; 64];
    for i in 0..scope.listed {
        out[i] = due_of(state, batch, scope, notes, i);
    }
    out
}

// That number of listed node i: 0 where it is old or the root, else one more than where it is first named.
fn due_of<'a>(state: &'a State, batch: &'a [u8], scope: Scope, notes: &'a Notes, i: usize) -> usize
    requires told { Told READ state.now batch.now scope notes.now }
    requires i_lt_listed { i < scope.listed }
    ensures { result ≡ due_of (forest state.now) (asked batch.now scope) i }
{
    let slot = notes[notes::LISTED_SLOTS + i] as usize;
    if slot < state_array::slots(state) {
        return 0;
    }
    let x = notes[notes::LISTED + i];
    let tree = scope.tree;
    let id = FullNodeId {
        tree,
        node: NodeId(x),
    };
    if notes::is_root(scope, id) {
        return 0;
    }
    let e = scope.named;
    notes::position_in(notes, notes::NAMED, e, x) + 1
}

// For each number of named children a node that is placed from there on, NONE where there is none: at j + 1 the one that child j is the first
// to name.
fn firsts_of(k: usize, due: &[usize; 64]) -> [usize; 258]
    requires { DueRoom k due.now }
    ensures { Firsts k due.now result }
{
    let mut out = [NONE; 258];
    for (i, &d) in due[..k].iter().enumerate() {
        out[d] = i;
    }
    out
}

// Rows 9 to 12: the first that the pass meets, if it meets one.
fn fault<'a>(
    state: &'a State,
    batch: &'a [u8],
    scope: Scope,
    notes: &'a Notes,
    due: &'a [usize; 64],
    firsts: &'a [usize; 258],
) -> Option<Cause>
    requires { Prepared state.now batch.now scope notes.now due.now firsts.now }
    ensures { PassExplained (forest state.now) (asked batch.now scope) result }
{
    let k = scope.listed;
    let mut done = [0u8; 64];
    let mut i = 0usize;
    let mut j = 0usize;
    // Not a `for`: a step goes on to the next child entry or to the next listed node.
    while i < k {
        let next = next_step(state, batch, scope, notes, due, firsts, i, j);
        if next.twice {
            return Some(Cause::NamedTwice(j));
        }
        if let Some(at) = next.at {
            if let Some(met) = placed(state, batch, scope, notes, &done, at) {
                return Some(met);
            }
            done[at] = 1;
        }
        i = next.i;
        j = next.j;
    }
    None
}

// The step at child entry j of listed node i: the child is named, or the node's own turn comes.
fn next_step<'a>(
    state: &'a State,
    batch: &'a [u8],
    scope: Scope,
    notes: &'a Notes,
    due: &'a [usize; 64],
    firsts: &'a [usize; 258],
    i: usize,
    j: usize,
) -> Step
    requires { Standing state.now batch.now scope notes.now due.now firsts.now i j }
    ensures { Moves (forest state.now) (asked batch.now scope) i j result }
{
    if j < notes[notes::ENDS + i] as usize {
        let named = name_step(state, batch, scope, notes, due, firsts, i, j);
        let entry = j + 1;
        return Step {
            i,
            j: entry,
            twice: named.twice,
            at: named.at,
        };
    }
    let node = i + 1;
    if due[i] <= j {
        return Step {
            i: node,
            j,
            twice: false,
            at: Some(i),
        };
    }
    Step {
        i: node,
        j,
        twice: false,
        at: None,
    }
}

// Listed node i names child j. One that is old is placed at its turn, and the notes tell where it is first named.
fn name_step<'a>(
    state: &'a State,
    batch: &'a [u8],
    scope: Scope,
    notes: &'a Notes,
    due: &'a [usize; 64],
    firsts: &'a [usize; 258],
    i: usize,
    j: usize,
) -> Naming
    requires standing { Standing state.now batch.now scope notes.now due.now firsts.now i j }
    requires j_bound { j < entries_before (asked batch.now scope) (i + 1) }
    ensures { Names (forest state.now) (asked batch.now scope) i j result }
{
    let slot = notes[notes::NAMED_SLOTS + j] as usize;
    if slot < state_array::slots(state) {
        let first = notes[notes::NAMINGS + slot] as usize;
        return Naming {
            twice: first <= j,
            at: None,
        };
    }
    new_step(state, batch, scope, notes, due, firsts, i, j)
}

// The same of a child that is not old. Where it is the first to name a listed node, that node is placed if it is an earlier one: it waited.
fn new_step<'a>(
    state: &'a State,
    batch: &'a [u8],
    scope: Scope,
    notes: &'a Notes,
    due: &'a [usize; 64],
    firsts: &'a [usize; 258],
    i: usize,
    j: usize,
) -> Naming
    requires standing { Standing state.now batch.now scope notes.now due.now firsts.now i j }
    requires j_bound { j < entries_before (asked batch.now scope) (i + 1) }
    ensures { Names (forest state.now) (asked batch.now scope) i j result }
{
    let p = firsts[j + 1];
    if p < i {
        return Naming {
            twice: false,
            at: Some(p),
        };
    }
    if p < NONE {
        return Naming {
            twice: false,
            at: None,
        };
    }
    let x = notes[notes::NAMED + j];
    let twice = notes::position_in(notes, notes::NAMED, j, x) < j;
    Naming { twice, at: None }
}

// What placing listed node i meets, after those that are done: row 10, 11, 12 or none.
fn placed<'a>(
    state: &'a State,
    batch: &'a [u8],
    scope: Scope,
    notes: &'a Notes,
    done: &'a [u8; 64],
    i: usize,
) -> Option<Cause>
    requires told { Told READ state.now batch.now scope notes.now }
    requires i_lt_listed { i < scope.listed }
    ensures { PlacedIs (forest state.now) (asked batch.now scope) notes.now done.now i result }
{
    if notes::grafts_new(batch, i) & (0 < record_reader::child_count(batch, i)) {
        return Some(Cause::GraftOverChildren(i));
    }
    if notes[notes::CLAIMS + i] != 1 {
        return None;
    }
    let t = record_reader::graft(batch, i);
    if t == (TreeId { high: 0, low: 0 }) {
        return Some(Cause::GraftOfRoot(i));
    }
    let m = claimer(state, batch, scope, notes, done, t);
    if m < scope.listed {
        return Some(Cause::ClaimedTwice(i, m));
    }
    None
}

// The first listed node that is done and claims the tree t, or their number.
fn claimer<'a>(
    state: &'a State,
    batch: &'a [u8],
    scope: Scope,
    notes: &'a Notes,
    done: &'a [u8; 64],
    t: TreeId,
) -> usize
    requires { Told READ state.now batch.now scope notes.now }
    ensures { First (is_taken (asked batch.now scope) notes.now done.now t) scope.listed result }
{
    let k = scope.listed;
    for i in 0..k {
        if takes(batch, notes, done, i, t) {
            return i;
        }
    }
    k
}

// Whether listed node i is done and claims the tree t.
fn takes<'a>(batch: &'a [u8], notes: &'a Notes, done: &'a [u8; 64], i: usize, t: TreeId) -> bool
    requires { i < 64 }
    ensures { result ≡ is_taken (batch_of batch.now) notes.now done.now t i }
{
    if (done[i] != 1) | (notes[notes::CLAIMS + i] != 1) {
        return false;
    }
    record_reader::graft(batch, i) == t
}

// Row 13: the first listed node that is left without a place, or their number.
fn placeless(scope: Scope, due: &[usize; 64]) -> usize
    requires { scope.listed ≤ 64 }
    ensures { First (λ i. ltb scope.named (get_or due.now i 0)) scope.listed result }
{
    let k = scope.listed;
    let e = scope.named;
    for (i, &d) in due[..k].iter().enumerate() {
        if e < d {
            return i;
        }
    }
    k
}

// Row 14: the first entry whose child is neither present nor listed, or their number.
fn nowhere<'a>(
    state: &'a State,
    batch: &'a [u8],
    scope: Scope,
    notes: &'a Notes,
    due: &'a [usize; 64],
    firsts: &'a [usize; 258],
) -> usize
    requires { Prepared state.now batch.now scope notes.now due.now firsts.now }
    ensures { FirstNowhere (forest state.now) (asked batch.now scope) scope.named result }
{
    let e = scope.named;
    for j in 0..e {
        if nowhere_at(state, batch, scope, notes, due, firsts, j) {
            return j;
        }
    }
    e
}

// Whether the child of entry j is.
fn nowhere_at<'a>(
    state: &'a State,
    batch: &'a [u8],
    scope: Scope,
    notes: &'a Notes,
    due: &'a [usize; 64],
    firsts: &'a [usize; 258],
    j: usize,
) -> bool
    requires prepared { Prepared state.now batch.now scope notes.now due.now firsts.now }
    requires j_lt_named { j < scope.named }
    ensures { NowhereAt (forest state.now) (asked batch.now scope) j result }
{
    let slot = notes[notes::NAMED_SLOTS + j] as usize;
    if slot < state_array::slots(state) {
        return false;
    }
    if firsts[j + 1] < NONE {
        return false;
    }
    let x = notes[notes::NAMED + j];
    let k = scope.listed;
    notes::position_in(notes, notes::LISTED, k, x) == k
}
