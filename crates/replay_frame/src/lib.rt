// A call or a question of the list that the program `replay` runs, and what the crate answers to it, as a frame of bytes. Proved safe and ending,
// no more. Numbers are little-endian. At each place of a call stands:
//   0   what is called: 0 a start, 1 a batch, 2 a host focus change
//   2   the host flag of a start or a host focus change
//   4   1 where the state handed in follows, 0 where it is the one that the frame before left
//   6   the number
//   8   how many bytes the record has
//   10  how many elements are lent for the lists
//   12  the lengths of the four lists
//   20  the digest of the state afterwards, 0 after any number but 0
//   28  the focus before and after and the two extra ids, 14 bytes each: 1 or 0 where there is none, the tree number, the node number
//   84  the bytes of the state, if it follows; the record; the elements that the lists fill
// Of a question, which leaves the state as it is, the other places have zeros:
//   0   3
//   2   which question (replay_questions)
//   4, 6, 10  as of a call
//   12  how many pairs of words are answered
//   20  the value (replay_questions `Answer`)
//   28  the node that is asked about, as above
//   84  the bytes of the state, if it follows; the words of the answer
// Each is two bytes, but 8 for the digest, a value and a node number and 4 for a tree number. In the list a frame is coded: two bytes say how many
// follow, and in these a zero byte and a byte n stand for n zeros, from n = 128 on for 128 * (n - 127).
#![tactic(auto)]

pub mod digest;
pub mod lent;
pub mod parts;

ghost use Rattle.std.specs.Prelude.{◌<◌, ◌≤◌};

use ids::{FullNodeId, NodeId, TreeIndex};
use program_text::lines::{between, read_full};
use state_array::State;
use std::io::Read;

// Where a frame's state starts, if it has one, and else its record.
const HEAD: usize = 84;

// What a question's frame begins with.
const QUESTION: usize = 3;

// Reads the next frame of the list over zeros; how many bytes it has, if the list has all of it, it has any and there is room for them.
pub fn read<R: Read>(list: &mut R, frame: &mut [u8; 98304]) -> Option<usize> {
    let mut length = [0u8; 2];
    if read_full(list, &mut length) < 2 {
        return None;
    }
    let n = u16::from_le_bytes(length) as usize;
    let mut space = [0u8; 65536];
    let coded = &mut space[..n];
    if read_full(list, coded) < n {
        return None;
    }
    decode(coded, frame)
}

// Writes over zeros what coded bytes stand for; how many bytes that is, if there are any and there is room for them.
fn decode(coded: &[u8], frame: &mut [u8; 98304]) -> Option<usize> {
    let mut i: usize = 0;
    let mut at: usize = 0;
    // Not a `for`: a zero is read with the byte behind it.
    while i < coded.len() {
        *frame.get_mut(at)? = coded[i];
        at += bytes_for(coded[i], record_wire::u8_at(coded, i + 1));
        i += width(coded[i]);
    }
    (0 < at).then_some(at)
}

// How many bytes a coded byte stands for, with the one that follows it.
fn bytes_for(byte: u8, next: u8) -> usize
    ensures { result ≤ 16384 }
{
    if byte != 0 {
        return 1;
    }
    let n = next as usize;
    if n < 128 { n } else { 128 * (n - 127) }
}

// How many coded bytes are read there.
fn width(byte: u8) -> usize
    ensures { (0 < result) × (result ≤ 2) }
{
    if byte == 0 { 2 } else { 1 }
}

// The two bytes at a place.
pub fn field(frame: &[u8], at: usize) -> usize
    ensures { result < 65536 }
{
    record_wire::u16_at(frame, at) as usize
}

// Whether a frame of n bytes has all its parts and nothing more.
pub fn is_whole(frame: &[u8; 98304], n: usize) -> bool {
    (n <= 98304) & (n == lists_at(frame) + 8 * lists_length(frame)) & (field(frame, 10) <= 1024)
}

// Whether it is a question's.
pub fn is_question(frame: &[u8]) -> bool {
    field(frame, 0) == QUESTION
}

// Which question it is.
pub fn which(frame: &[u8]) -> u64 {
    record_wire::u16_at(frame, 2) as u64
}

// The node that is asked about.
pub fn asked(frame: &[u8]) -> FullNodeId {
    FullNodeId {
        tree: TreeIndex(record_wire::u32_at(frame, 30)),
        node: NodeId(record_wire::u64_at(frame, 34)),
    }
}

// The value of a question's answer.
pub fn value(frame: &[u8]) -> u64 {
    record_wire::u64_at(frame, 20)
}

// Where its record starts.
fn record_at(frame: &[u8]) -> usize
    ensures { result < 80000 }
{
    if field(frame, 4) == 1 {
        HEAD + 8 * state_array::WORDS
    } else {
        HEAD
    }
}

// Where the elements that the lists fill start.
pub(crate) fn lists_at(frame: &[u8]) -> usize
    ensures { result < 200000 }
{
    record_at(frame) + field(frame, 8)
}

// How many elements the lists fill: two for each id.
pub(crate) fn lists_length(frame: &[u8]) -> usize
    ensures { result < 600000 }
{
    2 * (field(frame, 12) + field(frame, 14) + field(frame, 16) + field(frame, 18))
}

// Its record.
pub fn record(frame: &[u8]) -> &[u8] {
    between(frame, record_at(frame), lists_at(frame))
}

// The host flag of a start or a host focus change.
pub fn host(frame: &[u8]) -> u32 {
    record_wire::u16_at(frame, 2) as u32
}

// The digest that the state is to have afterwards; after a refusal the one that it had before.
pub fn digest_after(frame: &[u8], before: u64) -> u64 {
    if field(frame, 6) == 0 {
        record_wire::u64_at(frame, 20)
    } else {
        before
    }
}

// The state that a call is handed, where the frame has one, in the place of the one that the call before left.
pub fn put_state(frame: &[u8], state: &mut State) {
    if field(frame, 4) == 1 {
        for (i, word) in state.iter_mut().enumerate() {
            *word = record_wire::u64_at(frame, HEAD + 8 * i);
        }
    }
}
