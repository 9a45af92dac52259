// The notes of an update: its working words, in columns; what its phases are given, and questions about ids, grafts and roots that several
// of them ask. specs/Layout.antt has the same numbers for contracts, specs/Says.antt what each column says.
ghost use Rattle.std.specs.Prelude.{◌≡◌, ◌+◌, ◌≤◌, ◌<◌, eqb, length, get_or};
ghost use Rattle.base.specs.Tests.{is_some, same_option};
ghost use Rattle.base.specs.Search.{First};
ghost use Rattle.ids.specs.Ids.{same_tree, same_id};
ghost use Rattle.record.specs.Batch.{graft?};
ghost use Rattle.record.specs.Parse.{batch_of};
ghost use Rattle.record_reader.specs.Reader.{listed_at};
ghost use Rattle.state_array.specs.Layout.{SLOTS};
ghost use Rattle.calls.specs.Layout.{WORDS, LISTED};
ghost use Rattle.calls.specs.Noted.{id_noted, code_noted};
ghost use Rattle.calls.specs.Setting.{root_in};
ghost use Rattle.calls.specs.Refusals.{verdict};
ghost use Rattle.calls.specs.Says.{graft_below, ClaimerIs, ClaimedFromIs, PositionIn, HolderIs};

use ids::{FullNodeId, NodeId, TreeId, TreeIndex};
use state_array::State;

// The working words of an update, in columns that stand in the order in which the phases write them.
pub type Notes = [u64; WORDS];

pub const WORDS: usize = 4096;

// The numbers of the listed nodes (64), the children that they name (256), where the children of each end (64).
pub const LISTED: usize = 0;

pub const NAMED: usize = 64;

pub const ENDS: usize = 320;
// The slot of each listed node (64) and of each child (256), the number of nodes where it has none.
pub const LISTED_SLOTS: usize = 384;

pub const NAMED_SLOTS: usize = 448;
// For each of 320 slots, one more than its place among the listed nodes and among the children, 0 where it is not there.
pub const TURNS: usize = 704;

pub const NAMINGS: usize = 1024;
// Which listed nodes claim a tree (64).
pub const CLAIMS: usize = 1344;
// For each slot, the slot of its parent, the number of nodes where it has none; its fate: 1 where it goes, else 0.
pub const ABOVE: usize = 1408;

pub const FATES: usize = 1728;
// Which listed nodes are old and have other data than before (64).
pub const DIFFERS: usize = 2048;
// How many nodes the outcome has (1).
pub const COUNT: usize = 2112;
// For each node of the outcome (320): its code, a slot below 320 or 320 and a listed node's place; where its data comes from, the same way;
// what changed of it: 1 added, 2 updated, 4 relinked, 6 both.
pub const CODES: usize = 2113;

pub const SOURCES: usize = 2433;

pub const CHANGED: usize = 2753;

// What a batch is about: its tree's number, whether that tree is ROOT, how many nodes it lists and how many children they name, whether it
// has tree data, and the tree's root as the batch leaves it, if there is one.
#[derive(Clone, Copy)]
pub struct Scope {
    pub tree: TreeIndex,
    pub is_root_tree: bool,
    pub listed: usize,
    pub named: usize,
    pub with_tree_data: bool,
    pub root: Option<NodeId>,
}

// Why a phase turns a batch away: a number of document 01's table, and a place for a node's id.
#[derive(Clone, Copy)]
pub struct Refusal {
    pub number: u8,
    pub node: FullNodeId,
}

// A refusal by a number alone, none by 0.
pub(crate) fn refuse(number: u8) -> Result<(), Refusal>
    ensures { result ≡ verdict number }
{
    if number == 0 {
        return Ok(());
    }
    Err(Refusal {
        number,
        node: FullNodeId {
            tree: TreeIndex(0),
            node: NodeId(0),
        },
    })
}

// The id of listed node i.
pub(crate) fn listed_id(scope: Scope, notes: &Notes, i: usize) -> FullNodeId
    requires { i < 64 }
    ensures { result ≡ id_noted scope notes.now (LISTED + i) }
{
    let tree = scope.tree;
    FullNodeId {
        tree,
        node: NodeId(notes[LISTED + i]),
    }
}

// The id that a code stands for.
pub(crate) fn id_of<'a>(state: &'a State, scope: Scope, notes: &'a Notes, code: usize) -> FullNodeId
    requires { code < SLOTS + 64 }
    ensures { result ≡ code_noted state.now scope notes.now code }
{
    if code < state_array::SLOTS {
        return state_array::id_at(state, code);
    }
    listed_id(scope, notes, code - state_array::SLOTS)
}

// Whether listed node i grafts a tree.
pub(crate) fn grafts_new(batch: &[u8], i: usize) -> bool
    ensures { result ≡ is_some (graft? (listed_at (batch_of batch.now) i).body) }
{
    state_array::is_graft(record_reader::flags(batch, i) as u64)
}

// Whether the node in a slot grafts a tree.
fn grafts_old(state: &State, slot: usize) -> bool
    ensures { result ≡ is_some (graft_below state.now slot) }
{
    let n = state_array::slots(state);
    let d = state_array::shape_at(state, slot);
    (slot < n) & state_array::is_graft(d.flags)
}

// Whether listed node i grafts what the node in a slot grafts: the same tree, or none both.
pub(crate) fn same_graft<'a>(state: &'a State, batch: &'a [u8], i: usize, slot: usize) -> bool
    ensures { result ≡ same_option same_tree (graft? (listed_at (batch_of batch.now) i).body) (graft_below state.now slot) }
{
    let old = grafts_old(state, slot);
    if !grafts_new(batch, i) {
        return !old;
    }
    let d = state_array::shape_at(state, slot);
    old & (record_reader::graft(batch, i) == d.graft)
}

// The first of k listed nodes that claims a tree, or k.
fn claimer_of<'a>(batch: &'a [u8], notes: &'a Notes, k: usize, t: TreeId) -> usize
    requires { k ≤ 64 }
    ensures { ClaimerIs (batch_of batch.now) notes.now k t result }
{
    for i in 0..k {
        if (notes[CLAIMS + i] == 1) & (record_reader::graft(batch, i) == t) {
            return i;
        }
    }
    k
}

// The listed node that claims the tree that the node in a slot grafted, or k.
pub(crate) fn claimed_from<'a>(
    state: &'a State,
    batch: &'a [u8],
    notes: &'a Notes,
    k: usize,
    slot: usize,
) -> usize
    requires { k ≤ 64 }
    ensures { ClaimedFromIs (batch_of batch.now) notes.now k (graft_below state.now slot) result }
{
    if !grafts_old(state, slot) {
        return k;
    }
    let d = state_array::shape_at(state, slot);
    claimer_of(batch, notes, k, d.graft)
}

// Whether x is the root as the batch leaves it.
pub(crate) fn is_root(scope: Scope, x: FullNodeId) -> bool
    ensures { result ≡ same_option same_id (root_in scope) (Some x) }
{
    let Some(root) = scope.root else {
        return false;
    };
    (scope.tree == x.tree) & (root == x.node)
}

// The first of some words that is x, or their number.
pub(crate) fn first_of(words: &[u64], x: u64) -> usize
    ensures { First (λ i. eqb (get_or words.now i 0) x) (length words.now) result }
{
    words
        .iter()
        .position(|&word| word == x)
        .unwrap_or(words.len())
}

// The first of the n words from `from` on that is x, or n.
pub(crate) fn position_in(notes: &Notes, from: usize, n: usize, x: u64) -> usize
    requires { from + n ≤ WORDS }
    ensures { PositionIn notes.now from n x result }
{
    first_of(&notes[from..from + n], x)
}

// The first slot whose node grafts a tree, or the number of slots.
pub(crate) fn holder_of(state: &State, t: TreeId) -> usize
    ensures { HolderIs state.now t result }
{
    let n = state_array::slots(state);
    for i in 0..n {
        let d = state_array::shape_at(state, i);
        if state_array::is_graft(d.flags) & (d.graft == t) {
            return i;
        }
    }
    n
}
