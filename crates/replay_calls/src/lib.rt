// A call of the list that the program `replay` runs, and the parts of its answer that are not the crate's. Proved safe and ending, no more.
#![tactic(auto)]

ghost use Rattle.std.specs.Prelude.{◌≤◌};

use replay_frame::parts::part_if;
use replay_frame::{digest, lent, parts};
use replies::{Lengths, OptionalId, Reply};
use state_array::State;

// The number that a call answered, and the parts that differ, each a bit.
#[derive(Clone, Copy)]
pub struct Verdict {
    pub number: u64,
    pub parts: u64,
}

// Makes the call of a frame on a state and compares its answer.
pub fn compared(f: &[u8], state: &mut State) -> Verdict {
    let mut slice = lent::unwritten();
    let before = digest::before(f, state);
    let r = answer(f, state, &mut slice);
    Verdict {
        number: r.number as u64,
        parts: differing(r, f)
            | part_if(
                digest::of(state) != replay_frame::digest_after(f, before),
                parts::STATE,
            )
            | part_if(!lent::is_filled(&slice, f), parts::SLICE),
    }
}

// What the call of a frame answers.
fn answer(f: &[u8], state: &mut State, lent: &mut [u64]) -> Reply {
    let host = replay_frame::host(f);
    let kind = replay_frame::field(f, 0);
    match kind {
        0 => calls::start(state, replay_frame::record(f), host),
        1 => update(
            state,
            replay_frame::record(f),
            lent,
            replay_frame::field(f, 10),
        ),
        _ => calls::host_focus(state, host),
    }
}

// A batch with the first `room` elements for the lists.
fn update(state: &mut State, batch: &[u8], lent: &mut [u64], room: usize) -> Reply {
    let length = room.min(lent.len());
    calls::update(state, batch, &mut lent[..length])
}

// The parts of a reply that are not as the frame says.
fn differing(r: Reply, f: &[u8]) -> u64 {
    let x = r.report;
    part_if(
        r.number as usize != replay_frame::field(f, 6),
        parts::NUMBER,
    ) | part_if(r.lengths != lengths(f), parts::LENGTHS)
        | part_if(
            (x.focus_before != node(f, 28)) | (x.focus_after != node(f, 42)),
            parts::FOCUS,
        )
        | part_if(
            (x.extra_before != node(f, 56)) | (x.extra_after != node(f, 70)),
            parts::EXTRA,
        )
}

// The lists' lengths in the frame.
fn lengths(f: &[u8]) -> Lengths {
    Lengths {
        added: replay_frame::field(f, 12),
        updated: replay_frame::field(f, 14),
        removed: replay_frame::field(f, 16),
        relinked: replay_frame::field(f, 18),
    }
}

// The node, or none, at a place of the frame.
fn node(f: &[u8], at: usize) -> OptionalId
    requires { at ≤ 70 }
{
    OptionalId {
        node: record_wire::u64_at(f, at + 6),
        tree: record_wire::u32_at(f, at + 2),
        present: u32::from(record_wire::u16_at(f, at)),
    }
}
