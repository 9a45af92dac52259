// What the three calls answer, as plain numbers and structs, and the host flag as they take it.
#![tactic(auto)]

ghost use Rattle.std.specs.Prelude.{◌≡◌, if◌then◌else◌};
ghost use Rattle.replies.specs.Replies.{plain_id, is_set};
ghost use Rattle.replies.specs.Plain.{lengths_are, refused_reply};

use ids::FullNodeId;

// A node's id, or none: then each part is 0.
#[repr(C)]
#[derive(Clone, Copy, PartialEq, Eq)]
pub struct OptionalId {
    pub node: u64,
    pub tree: u32,
    pub present: u32,
}

// How many ids each of the four lists has.
#[repr(C)]
#[derive(Clone, Copy, PartialEq, Eq)]
pub struct Lengths {
    pub added: usize,
    pub updated: usize,
    pub removed: usize,
    pub relinked: usize,
}

// The focus before and after, and the extra ids.
#[repr(C)]
#[derive(Clone, Copy)]
pub struct Report {
    pub focus_before: OptionalId,
    pub focus_after: OptionalId,
    pub extra_before: OptionalId,
    pub extra_after: OptionalId,
}

// What a call answers.
#[repr(C)]
#[derive(Clone, Copy)]
pub struct Reply {
    pub lengths: Lengths,
    pub report: Report,
    pub number: u32,
}

// After any number but 0: the other parts are 0 or none.
pub fn refused(number: u8) -> Reply
    ensures { result ≡ refused_reply number }
{
    Reply {
        lengths: no_lengths(),
        report: Report {
            focus_before: no_id(),
            focus_after: no_id(),
            extra_before: no_id(),
            extra_after: no_id(),
        },
        number: number as u32,
    }
}

// No node.
fn no_id() -> OptionalId
    ensures { result ≡ plain_id None }
{
    OptionalId {
        node: 0,
        tree: 0,
        present: 0,
    }
}

// The lengths of empty lists.
pub fn no_lengths() -> Lengths
    ensures { result ≡ lengths_are 0 0 0 0 }
{
    Lengths {
        added: 0,
        updated: 0,
        removed: 0,
        relinked: 0,
    }
}

// A node, if there is one, as a plain id.
pub fn plain_id(found: Option<FullNodeId>) -> OptionalId
    ensures { result ≡ plain_id found }
{
    let Some(x) = found else {
        return no_id();
    };
    OptionalId {
        node: x.node.0,
        tree: x.tree.0,
        present: 1,
    }
}

// The host flag as the state holds it.
pub fn host_flag(host_focused: u32) -> u64
    ensures { result ≡ (if is_set host_focused then 1 else 0) }
{
    if host_focused == 0 { 0 } else { 1 }
}
