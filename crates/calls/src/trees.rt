// The table of trees after a batch, written into the next state.
ghost use Rattle.std.specs.Prelude.{true, ◌≡◌, ◌<◌, length};
ghost use Rattle.record.specs.Parse.{batch_of};
ghost use Rattle.state.specs.Sound.{ascending};
ghost use Rattle.state_array.specs.Layout.{TREES};
ghost use Rattle.state_array.specs.Stored.{tree_row};
ghost use Rattle.state_array.specs.Filled.{trees_written};
ghost use Rattle.calls.specs.Setting.{forest};
ghost use Rattle.calls.specs.Says.{Told, PLANNED};
ghost use Rattle.calls.specs.Trees.{trees_after, tree_after, own_entry, trees_counted, marked_gone};

use crate::notes;
use crate::notes::{Notes, Scope};
use ids::{FullNodeId, NodeId, TreeId, TreeIndex};
use state_array::{State, TreeRow};

// The trees of the outcome: of those whose root goes none exists, and the batch's tree has its root and its focus.
pub(crate) fn write_trees<'a>(
    state: &'a State,
    batch: &'a [u8],
    scope: Scope,
    notes: &'a Notes,
    next: &mut State,
)
    requires { Told PLANNED state.now batch.now scope notes.now }
    ensures { next.new ≡ trees_written (trees_after state.now batch.now scope) next.old }
{
    let count = tree_count(state, scope.tree);
    for k in 0..count {
        let row = tree_after(state, batch, scope, notes, k);
        state_array::put_tree(next, k, row);
    }
}

// How many trees have numbers after a batch of a tree.
pub(crate) fn tree_count(state: &State, tree: TreeIndex) -> usize
    ensures { result ≡ trees_counted state.now tree }
{
    let count = state_array::trees(state);
    if (tree.0 as usize) < count {
        return count;
    }
    count + 1
}

// The row of tree k after the batch.
fn tree_after<'a>(
    state: &'a State,
    batch: &'a [u8],
    scope: Scope,
    notes: &'a Notes,
    k: usize,
) -> TreeRow
    requires told { Told PLANNED state.now batch.now scope notes.now }
    requires k_in_bounds { k < length (trees_after state.now batch.now scope) }
    ensures { result ≡ tree_row (tree_after state.now batch.now scope k) }
{
    if k == scope.tree.0 as usize {
        return own_row(batch, scope);
    }
    let row = state_array::tree_at(state, k);
    let id = row.id;
    if row.exists == 0 {
        return absent(id);
    }
    let root = row.root;
    if root_goes(state, notes, k, root) {
        return absent(id);
    }
    let focus = row.focus;
    TreeRow {
        id,
        root,
        focus,
        exists: 1,
    }
}

// The row of the batch's tree: its id, its root, if it has one, and its focus.
fn own_row(batch: &[u8], scope: Scope) -> TreeRow
    ensures { result ≡ tree_row (own_entry (batch_of batch.now) scope) }
{
    let id = record_reader::tree_id(batch);
    let Some(root) = scope.root else {
        return absent(id);
    };
    let focus = record_reader::tree_focus(batch);
    TreeRow {
        id,
        root,
        focus,
        exists: 1,
    }
}

// The row of a tree that does not exist.
fn absent(id: TreeId) -> TreeRow
    ensures { result ≡ tree_row (record { id = id; subtree = None }) }
{
    TreeRow {
        id,
        root: NodeId(0),
        focus: NodeId(0),
        exists: 0,
    }
}

// Whether the notes mark the root of tree k as one that goes.
fn root_goes<'a>(state: &'a State, notes: &'a Notes, k: usize, root: NodeId) -> bool
    requires { (ascending (forest state.now).nodes ≡ true) × (k < TREES) }
    ensures { result ≡ marked_gone state.now notes.now (record { tree = record { 0 = k }; node = root }) }
{
    let tree = TreeIndex(k as u32);
    let slot = state_lookup::slot_of(state, FullNodeId { tree, node: root });
    if state_array::slots(state) <= slot {
        return false;
    }
    notes[notes::FATES + slot] == 1
}
