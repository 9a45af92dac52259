// The climb by the old links from a node that goes to the node whose own fate it is to go.
ghost use Rattle.std.specs.Prelude.{◌≡◌, ◌+◌, ◌<◌, get_or};
ghost use Rattle.state_array.specs.Layout.{SLOTS};
ghost use Rattle.state_array.specs.View.{slots_of};
ghost use Rattle.calls.specs.Layout.{ABOVE};
ghost use Rattle.calls.specs.Climbs.{lost_of, dropped_from, dropped_at};
ghost use Rattle.calls.specs.Noted.{parent_noted};
ghost use Rattle.calls.specs.Says.{Told, PLANNED};

use crate::notes::{Notes, Scope};
use crate::{gone, notes};
use ids::FullNodeId;
use state_array::State;

// A node that lost its place, and the listed node that no longer names it, if one does not.
#[derive(Clone, Copy)]
pub(crate) struct Lost {
    pub node: FullNodeId,
    pub by: Option<FullNodeId>,
}

// Climbing from the node in a slot: the node that lost its place, if one did, and by whom.
pub(crate) fn dropped<'a>(
    state: &'a State,
    batch: &'a [u8],
    scope: Scope,
    notes: &'a Notes,
    i: usize,
) -> Option<Lost>
    requires told { Told PLANNED state.now batch.now scope notes.now }
    requires i_bound { i < slots_of state.now }
    ensures { result ≡ lost_of (dropped_from state.now batch.now scope i) }
{
    let at = climbed(state, batch, scope, notes, i);
    if state_array::slots(state) <= at {
        return None;
    }
    dropped_here(state, batch, scope, notes, at)
}

// The slot, from slot i up, of the first node that does not fare as its parent does; their number where there is none.
fn climbed<'a>(state: &'a State, batch: &'a [u8], scope: Scope, notes: &'a Notes, i: usize) -> usize
    requires told { Told PLANNED state.now batch.now scope notes.now }
    requires i_bound { i < slots_of state.now }
    ensures { dropped_at state.now batch.now scope result ≡ dropped_from state.now batch.now scope i }
{
    let n = state_array::slots(state);
    let mut at = i;
    for _ in 0..n {
        if gone::fate_at(state, batch, scope, notes, at) != gone::AS_PARENT {
            return at;
        }
        at = notes[notes::ABOVE + at] as usize;
    }
    n
}

// The node in a slot, if it goes or has no parent, and the listed node that dropped it.
fn dropped_here<'a>(
    state: &'a State,
    batch: &'a [u8],
    scope: Scope,
    notes: &'a Notes,
    at: usize,
) -> Option<Lost>
    requires told { Told PLANNED state.now batch.now scope notes.now }
    requires at_bound { at < slots_of state.now }
    ensures { result ≡ lost_of (dropped_at state.now batch.now scope at) }
{
    let x = state_array::id_at(state, at);
    let l = state_array::link_at(state, at);
    if l.linked == 0 {
        return Some(Lost { node: x, by: None });
    }
    if gone::fate_at(state, batch, scope, notes, at) != gone::GOES {
        return None;
    }
    Some(Lost {
        node: x,
        by: listed_parent(notes, at, l.parent),
    })
}

// The parent p of the node in a slot, if it is listed.
fn listed_parent(notes: &Notes, at: usize, p: FullNodeId) -> Option<FullNodeId>
    requires { (at < SLOTS) × (get_or notes.now (ABOVE + at) 0 < SLOTS) }
    ensures { result ≡ parent_noted notes.now at p }
{
    let above = notes[notes::ABOVE + at] as usize;
    if notes[notes::TURNS + above] == 0 {
        return None;
    }
    Some(p)
}
