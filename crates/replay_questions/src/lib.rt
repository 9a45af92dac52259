// A question of modules 6 to 8 of the list that the program `replay` runs, and the parts of its answer that are not the crate's. Proved safe and
// ending, no more. A question's number is 12 * kind + 3 * filter + side: `tell` has the kinds in order; a filter is 0 for none, then as a walk has
// it; a side is 0 for none, 1 following, 2 preceding.
#![tactic(auto)]

mod answers;

use answers::Answer;
use program_text::unbuffered::put_line;
use replay_frame::parts::part_if;
use replay_frame::{lent, parts};
use state_array::State;
use std::rt::Stdout;

// Asks the question of a frame about a state and compares its answer; the parts that differ, each a bit.
pub fn compared(f: &[u8], state: &State) -> u64 {
    let mut slice = lent::unwritten();
    let a = answer(f, state, &mut slice, replay_frame::field(f, 10));
    differing(a, f) | part_if(!lent::is_filled(&slice, f), parts::SLICE)
}

// What the question of a frame answers, with the first `room` elements for its words.
fn answer(f: &[u8], state: &State, lent: &mut [u64], room: usize) -> Answer {
    let which = replay_frame::which(f);
    let id = replay_frame::asked(f);
    let length = room.min(lent.len());
    answers::ask(state, which, id, &mut lent[..length])
}

// The parts of an answer but its words that are not as the frame says.
fn differing(a: Answer, f: &[u8]) -> u64 {
    part_if(
        a.number as usize != replay_frame::field(f, 6),
        parts::NUMBER,
    ) | part_if(a.length != replay_frame::field(f, 12), parts::LENGTHS)
        | part_if(a.value != replay_frame::value(f), parts::VALUE)
}

// Prints a question's name, its side and its filter.
pub fn tell(stdout: Stdout, which: u64) {
    put_line(
        stdout,
        b"parent\nfiltered parent\nfirst filtered child\nlast filtered child\ndeepest first filtered child\n\
        deepest last filtered child\nchildren\nsiblings\nfiltered children\nfiltered siblings\nwalk\nhidden\n\
        transform\nbox\nfilter\n",
        which / 12,
    );
    put_line(stdout, b"\n, following\n, preceding\n", which % 3);
    put_line(
        stdout,
        b"\n, common filter\n, with root exception\n, without parent checks\n",
        which / 3 % 4,
    );
}
