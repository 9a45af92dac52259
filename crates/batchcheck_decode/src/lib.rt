// A record of bytes as a text of calls says it, so that `batchcheck` makes the same bytes of that text. Proved safe and ending, no more.
#![tactic(auto)]

ghost use Rattle.std.specs.Prelude.{◌<◌, ◌≤◌};

use batchcheck_floats::exact;
use batchcheck_nodes::print::quoted;
use batchcheck_record::malformed;
use ids::TreeId;
use program_text::lines::between;
use program_text::print::{Out, number, of_number, put, tree_id};
use record_wire::{u8_at, u16_at, u64_at};

// Where a record's header ends, and how long a node of it is.
const HEADER: usize = 64;

const NODE: usize = 128;

// Places of the header.
const TREE_DATA: usize = 6;

const TREE: usize = 24;

const ROOT: usize = 40;

const FOCUS: usize = 48;

// Places of a node.
const ACTIVE: usize = 8;

const GRAFT: usize = 16;

const FIRST_CHILD: usize = 32;

const CHILD_COUNT: usize = 34;

const LABEL_AT: usize = 36;

const LABEL_LENGTH: usize = 38;

const ROLE: usize = 40;

const FLAGS: usize = 41;

const BOUNDS: usize = 48;

const TRANSFORM: usize = 80;

// A count of two bytes at a place.
fn count_at(bytes: &[u8], at: usize) -> usize
    ensures { result < 65536 }
{
    u16_at(bytes, at) as usize
}

// Prints a call with this record, a start where it gives ROOT a root, else a batch; whether the bytes are a record.
pub fn decode(out: &mut Out, bytes: &[u8]) -> bool {
    if let Some(found) = record_layout::offence(bytes) {
        put(out, b"# no record: ");
        malformed::reason(out, bytes, found);
        put(out, b"\n");
        return false;
    }
    let is_given = u16_at(bytes, TREE_DATA) != 0;
    let t = tree_at(bytes, TREE);
    head(out, bytes, t, is_given);
    all_nodes(out, bytes);
    put(out, b"end\n");
    true
}

// A tree id at a place.
fn tree_at(bytes: &[u8], at: usize) -> TreeId {
    TreeId {
        high: u64_at(bytes, at),
        low: u64_at(bytes, plus(at, 8)),
    }
}

// A place further on.
fn plus(at: usize, more: usize) -> usize {
    std::num::wrapping_add_usize(at, more)
}

// The lines before the nodes.
fn head(out: &mut Out, bytes: &[u8], t: TreeId, is_given: bool) {
    let is_root = t == TreeId { high: 0, low: 0 };
    if is_root & is_given {
        put(out, b"start\n");
    } else {
        put(out, b"batch\n");
    }
    if !is_root {
        put(out, b"  tree ");
        tree_id(out, t);
        put(out, b"\n");
    }
    if is_given {
        of_number(out, b"  root #\n", u64_at(bytes, ROOT));
    }
    of_number(out, b"  focus #\n", u64_at(bytes, FOCUS));
}

// A line for each node.
fn all_nodes(out: &mut Out, bytes: &[u8]) {
    for i in 0..count_at(bytes, 0) {
        node(out, bytes, HEADER + NODE * i);
    }
}

// The node at a place.
fn node(out: &mut Out, bytes: &[u8], at: usize) {
    of_number(out, b"  node #", u64_at(bytes, at));
    let role = u8_at(bytes, plus(at, ROLE));
    if role != 0 {
        of_number(out, b" role #", role as u64);
    }
    if u16_at(bytes, plus(at, LABEL_LENGTH)) != 0 {
        put(out, b" ");
        quoted(out, label(bytes, at));
    }
    if u16_at(bytes, plus(at, CHILD_COUNT)) != 0 {
        put(out, b" children");
        children(out, bytes, at);
    }
    flagged(out, bytes, at, u8_at(bytes, plus(at, FLAGS)));
    put(out, b"\n");
}

// Where the children start, and the labels.
fn children_at(bytes: &[u8]) -> usize {
    plus(HEADER, NODE * count_at(bytes, 0))
}

fn labels_at(bytes: &[u8]) -> usize {
    plus(children_at(bytes), 8 * count_at(bytes, 2))
}

// The label of the node at a place.
fn label(bytes: &[u8], at: usize) -> &[u8] {
    let from = plus(labels_at(bytes), count_at(bytes, plus(at, LABEL_AT)));
    let length = count_at(bytes, plus(at, LABEL_LENGTH));
    between(bytes, from, plus(from, length))
}

// The children of the node at a place, a space before each.
fn children(out: &mut Out, bytes: &[u8], at: usize) {
    let n = count_at(bytes, plus(at, CHILD_COUNT));
    let first = 8 * count_at(bytes, plus(at, FIRST_CHILD));
    let from = plus(children_at(bytes), first);
    for k in 0..n {
        put(out, b" ");
        number(out, u64_at(bytes, plus(from, 8 * k)));
    }
}

// What the flags of the node at a place say that it has.
fn flagged(out: &mut Out, bytes: &[u8], at: usize, flags: u8) {
    if flags / 4 % 2 == 1 {
        of_number(out, b" active #", u64_at(bytes, plus(at, ACTIVE)));
    }
    if flags / 8 % 2 == 1 {
        put(out, b" graft ");
        tree_id(out, tree_at(bytes, plus(at, GRAFT)));
    }
    if flags / 16 % 2 == 1 {
        put(out, b" bounds");
        floats(out, bytes, plus(at, BOUNDS), 4);
    }
    if flags / 32 % 2 == 1 {
        put(out, b" transform");
        floats(out, bytes, plus(at, TRANSFORM), 6);
    }
    if flags % 2 == 1 {
        put(out, b" hidden");
    }
    if flags / 2 % 2 == 1 {
        put(out, b" clips");
    }
}

// So many numbers from a place on.
fn floats(out: &mut Out, bytes: &[u8], from: usize, n: usize)
    requires { n ≤ 6 }
{
    for i in 0..n {
        exact(out, u64_at(bytes, plus(from, 8 * i)));
    }
}
