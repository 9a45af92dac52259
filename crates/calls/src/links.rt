// The parent links after a batch, each worked out once.
ghost use Rattle.std.specs.Prelude.{◌≡◌, suc, ◌+◌, ◌-◌, ◌≤◌, ◌<◌, ltb, get_or, if◌then◌else◌};
ghost use Rattle.base.specs.Search.{First};
ghost use Rattle.state_array.specs.Stored.{link_row};
ghost use Rattle.state_array.specs.View.{slots_of, link_of};
ghost use Rattle.calls.specs.Layout as at;
ghost use Rattle.calls.specs.Setting.{asked, forest};
ghost use Rattle.calls.specs.Codes.{Coded};
ghost use Rattle.calls.specs.Says.{naming_mark, Told, COMPARED};
ghost use Rattle.calls.specs.Noted.{id_noted, start_noted};
ghost use Rattle.calls.specs.Links.{Rises, NewListed, graft_link, LinkHereIs, LinkElsewhereIs, old_row, new_row, link_word};

use crate::notes;
use crate::notes::{Notes, Scope};
use ids::{FullNodeId, NodeId, TreeId, TreeIndex};
use state_array::{LinkRow, State};

// The link after of a code's node.
pub(crate) fn link_of<'a>(
    state: &'a State,
    batch: &'a [u8],
    scope: Scope,
    notes: &'a Notes,
    code: usize,
) -> LinkRow
    requires told { Told COMPARED state.now batch.now scope notes.now }
    requires coded { Coded (forest state.now) (asked batch.now scope) code }
    ensures { result ≡ link_word state.now batch.now scope code }
{
    if code < state_array::SLOTS {
        return link_of_old(state, batch, scope, notes, code);
    }
    link_of_new(state, batch, scope, notes, code - state_array::SLOTS)
}

// Of the old node in slot i.
fn link_of_old<'a>(
    state: &'a State,
    batch: &'a [u8],
    scope: Scope,
    notes: &'a Notes,
    i: usize,
) -> LinkRow
    requires told { Told COMPARED state.now batch.now scope notes.now }
    requires i_bound { i < slots_of state.now }
    ensures { result ≡ old_row state.now batch.now scope i }
{
    let x = state_array::id_at(state, i);
    let was = canonical(state_array::link_at(state, i));
    if x.tree != scope.tree {
        let slot = notes[notes::ABOVE + i] as usize;
        return link_elsewhere(state, batch, scope, notes, slot, x, was);
    }
    let turn = notes[notes::TURNS + i];
    let naming = notes[notes::NAMINGS + i];
    link_here(state, batch, scope, notes, x, was, turn, naming)
}

// Of listed node i, which is new.
fn link_of_new<'a>(
    state: &'a State,
    batch: &'a [u8],
    scope: Scope,
    notes: &'a Notes,
    i: usize,
) -> LinkRow
    requires told { Told COMPARED state.now batch.now scope notes.now }
    requires new_listed { NewListed state.now batch.now scope i }
    ensures { result ≡ new_row state.now batch.now scope i }
{
    let x = notes::listed_id(scope, notes, i);
    let j = notes::position_in(notes, notes::NAMED, scope.named, x.node.0);
    let naming = mark_of(j, scope.named);
    link_here(state, batch, scope, notes, x, unlinked(), 0, naming)
}

// One more than a place below k, else 0.
fn mark_of(i: usize, k: usize) -> u64
    ensures { result ≡ (if ltb i k then suc i else 0) }
{
    if i < k { i as u64 + 1 } else { 0 }
}

// Of a node x of the batch's tree that had the link `was`: `naming` is one more than its place among the named children, 0 where it is not
// there; `turn` is one more than its place among the listed nodes, 0 where it is not there or is new.
fn link_here<'a>(
    state: &'a State,
    batch: &'a [u8],
    scope: Scope,
    notes: &'a Notes,
    x: FullNodeId,
    was: LinkRow,
    turn: u64,
    naming: u64,
) -> LinkRow
    requires told { Told COMPARED state.now batch.now scope notes.now }
    requires naming_value { naming ≡ naming_mark (forest state.now) (asked batch.now scope) x }
    ensures { LinkHereIs state.now batch.now scope x was turn result }
{
    let root = notes::is_root(scope, x);
    if root & scope.with_tree_data & !scope.is_root_tree {
        return graft_link(state, record_reader::tree_id(batch));
    }
    let cut = root & scope.is_root_tree;
    if naming < 1 {
        if cut & (0 < turn) {
            return unlinked();
        }
        return was;
    }
    let j = naming - 1;
    let owner = owner_of(notes, scope.listed, j);
    if cut & ((owner as u64) < turn) {
        return unlinked();
    }
    named_link(scope, notes, owner, j)
}

// The link under the node that grafts a tree, none where no node does.
fn graft_link(state: &State, t: TreeId) -> LinkRow
    ensures { result ≡ link_row (graft_link (forest state.now) t) }
{
    let n = state_array::slots(state);
    let slot = notes::holder_of(state, t);
    if n <= slot {
        return unlinked();
    }
    under(state_array::id_at(state, slot), 0)
}

// The first of k listed nodes whose children end after entry j, or k, by bisection.
fn owner_of(notes: &Notes, k: usize, j: u64) -> usize
    requires k_bound { k ≤ 64 }
    requires rises { Rises notes.now at.ENDS k }
    ensures { First (λ i. ltb j (get_or notes.now (at.ENDS + i) 0)) k result }
{
    let mut low = 0usize;
    let mut high = k;
    // Not a `for`: what is left is halved each time.
    while low < high {
        let middle = low + (high - low) / 2;
        if j < notes[notes::ENDS + middle] {
            high = middle;
        } else {
            low = middle + 1;
        }
    }
    low
}

// The link of the child at entry j of those that are named, one of listed node i's.
fn named_link(scope: Scope, notes: &Notes, i: usize, j: u64) -> LinkRow
    requires { (i < 64) × (start_noted notes.now i ≤ j) }
    ensures { result ≡ link_row (Some (record { parent = id_noted scope notes.now (at.LISTED + i); index = j - start_noted notes.now i })) }
{
    let parent = notes::listed_id(scope, notes, i);
    if i < 1 {
        return under(parent, j);
    }
    let first = notes[notes::ENDS + (i - 1)];
    under(parent, j - first)
}

// Of a node x of another tree that had the link `was`, to a parent in a slot: as it was, but under the claimer of the tree that the parent grafted.
fn link_elsewhere<'a>(
    state: &'a State,
    batch: &'a [u8],
    scope: Scope,
    notes: &'a Notes,
    slot: usize,
    x: FullNodeId,
    was: LinkRow,
) -> LinkRow
    requires { Told COMPARED state.now batch.now scope notes.now }
    ensures { LinkElsewhereIs state.now batch.now scope slot x was result }
{
    if (was.linked == 0) | (was.parent.tree == x.tree) {
        return was;
    }
    let k = scope.listed;
    let i = notes::claimed_from(state, batch, notes, k, slot);
    if k <= i {
        return was;
    }
    under(notes::listed_id(scope, notes, i), 0)
}

// A link's words as they are stored, whatever words said it.
fn canonical(l: LinkRow) -> LinkRow
    ensures { result ≡ link_row (link_of l) }
{
    if l.linked == 0 {
        return unlinked();
    }
    under(l.parent, l.index)
}

// A link at a place under a parent.
fn under(parent: FullNodeId, index: u64) -> LinkRow
    ensures { result ≡ link_row (Some (record { parent = parent; index = index })) }
{
    LinkRow {
        parent,
        index,
        linked: 1,
    }
}

// No link.
fn unlinked() -> LinkRow
    ensures { result ≡ link_row None }
{
    LinkRow {
        parent: FullNodeId {
            tree: TreeIndex(0),
            node: NodeId(0),
        },
        index: 0,
        linked: 0,
    }
}
