// Runs a fixed list of calls and questions and compares each answer, whole, with the crate's. Standard input is the list: four bytes say how
// many there are, and a frame for each follows (replay_frame). It writes a line for each that differs, with its place in the list and the parts that
// differ; then how many calls had each number and how many questions of each kind there were; then how many of both there were and how many
// differ. Nothing of it is proved but that it is safe and ends.
#![tactic(auto)]

use program_text::lines;
use program_text::unbuffered::{of_number, put, put_line};
use replay_frame::parts::part_if;
use state_array::State;
use std::io::Read;
use std::rt::Stdout;

// What has been seen of the list.
#[derive(Clone, Copy)]
struct Tally {
    calls: u64,
    questions: u64,
    differ: u64,
    // How many calls had each number; from QUESTIONS on, how many questions there were by their numbers.
    counts: [u64; 512],
}

const QUESTIONS: u64 = 256;

// How many parts of an answer can differ: the lines of `tell_part`.
const PARTS: u64 = 7;

// The list, one after the other, and what was seen of it.
fn main(rt: HostRuntime) {
    let stdout = rt.stdout();
    let mut list = rt.stdin();
    let mut total = [0u8; 4];
    if lines::read_full(&mut list, &mut total) < 4 {
        tell_end(stdout, 0);
        return;
    }
    tell_tally(
        stdout,
        run(stdout, &mut list, record_wire::u32_at(&total, 0) as u64),
    );
}

// Every call and question, each on the state that the last one left.
fn run<R: Read>(stdout: Stdout, list: &mut R, total: u64) -> Tally {
    let mut t = Tally {
        calls: 0,
        questions: 0,
        differ: 0,
        counts: [0u64; 512],
    };
    let mut state = [0u64; state_array::WORDS];
    for i in 0..total {
        let mut space = [0u8; 98304];
        let length = replay_frame::read(list, &mut space);
        if !length.is_some_and(|n| replay_frame::is_whole(&space, n)) {
            tell_end(stdout, i);
            return t;
        }
        t = with_frame(stdout, t, i + 1, &space, &mut state);
    }
    t
}

// With a frame, the i-th of the list.
fn with_frame(stdout: Stdout, t: Tally, i: u64, f: &[u8; 98304], state: &mut State) -> Tally {
    replay_frame::put_state(f, state);
    if replay_frame::is_question(f) {
        return with_question(stdout, t, i, f, state);
    }
    with_call(stdout, t, i, f, state)
}

// With a call.
fn with_call(stdout: Stdout, t: Tally, i: u64, f: &[u8], state: &mut State) -> Tally {
    let c = replay_calls::compared(f, state);
    tell_parts(stdout, b"call # differs:", i, c.parts);
    let mut u = counted(t, c.number % QUESTIONS, c.parts);
    u.calls = std::num::wrapping_add_u64(t.calls, 1);
    u
}

// With a question.
fn with_question(stdout: Stdout, t: Tally, i: u64, f: &[u8], state: &State) -> Tally {
    let which = replay_frame::which(f);
    let parts = replay_questions::compared(f, state);
    if parts != 0 {
        replay_questions::tell(stdout, which);
    }
    tell_parts(stdout, b": question # differs:", i, parts);
    let mut u = counted(t, QUESTIONS + which % QUESTIONS, parts);
    u.questions = std::num::wrapping_add_u64(t.questions, 1);
    u
}

// With one more at a place of the counts, and one that differs where some part does.
fn counted(t: Tally, place: u64, parts: u64) -> Tally {
    let mut u = t;
    let k = (place % 512) as usize;
    u.counts[k] = std::num::wrapping_add_u64(u.counts[k], 1);
    u.differ = std::num::wrapping_add_u64(t.differ, part_if(parts != 0, 1));
    u
}

// ## Telling

// The list ends, or has no frame, after n of it.
fn tell_end(stdout: Stdout, n: u64) {
    of_number(stdout, b"the list is cut short or damaged after #\n", n);
}

// The parts that differ of the i-th of the list, each a bit, unless none does.
fn tell_parts(stdout: Stdout, text: &[u8], i: u64, parts: u64) {
    if parts == 0 {
        return;
    }
    of_number(stdout, text, i);
    let mut left = parts;
    for k in 0..PARTS {
        tell_part(stdout, left % 2, k);
        left /= 2;
    }
    put(stdout, b"\n");
}

// The name of a part, where its bit is set.
fn tell_part(stdout: Stdout, bit: u64, part: u64) {
    if bit == 1 {
        put_line(
            stdout,
            b" number\n state\n lengths\n focus\n extra ids\n slice\n value\n",
            part,
        );
    }
}

// How many calls had each number, how many questions there were of each kind, how many of both, and how many differ.
fn tell_tally(stdout: Stdout, t: Tally) {
    tell_counts(stdout, &t.counts);
    of_number(stdout, b"# calls, ", t.calls);
    of_number(stdout, b"# questions, ", t.questions);
    of_number(stdout, b"# differ\n", t.differ);
}

// The counts that are not 0.
fn tell_counts(stdout: Stdout, counts: &[u64]) {
    for (k, &n) in counts.iter().enumerate() {
        tell_count(stdout, k as u64, n);
    }
}

// A count, unless it is 0.
fn tell_count(stdout: Stdout, k: u64, n: u64) {
    if n == 0 {
        return;
    }
    if k < QUESTIONS {
        of_number(stdout, b"number #", k);
    } else {
        replay_questions::tell(stdout, k - QUESTIONS);
    }
    of_number(stdout, b": #\n", n);
}
