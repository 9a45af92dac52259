// Pieces of what is printed: numbers of document 01's table, roles, labels, nodes and lists of them, and how much a state has.
ghost use Rattle.std.specs.Prelude.{◌≤◌};

use ids::{FullNodeId, NodeId, TreeIndex};
use program_text::print::{Out, count, id, letter, number, of_number, put, put_line};
use program_text::{lines, utf8};
use state_array::State;

// A number of document 01's table and its row.
pub fn row(out: &mut Out, n: u8) {
    of_number(out, b"#, ", n as u64);
    put_line(
        out,
        b"accepted\n\
        the state handed in is not sound\n\
        the record breaks the layout or a limit\n\
        a start without tree data\n\
        a start for a tree other than ROOT\n\
        a node listed twice\n\
        tree data for a tree that no graft holds, not ROOT\n\
        no tree data for a tree that does not exist, not ROOT\n\
        a new tree id while 32 numbers are taken\n\
        a child named twice in the batch\n\
        a graft node with children\n\
        a graft of ROOT\n\
        a second graft of one tree\n\
        listed nodes left without a place\n\
        named children neither present nor listed\n\
        the focus chain meets a graft whose tree does not exist\n\
        the root is absent\n\
        the effective focus is absent\n\
        a node both added or updated, and removed\n\
        the links or trees of the outcome are not sound\n\
        more than 256 nodes in the outcome\n\
        a lent list too short for what it should hold\n\
        the node asked about is not in the state\n",
        n as u64,
    );
}

// How many nodes a state has, and how many trees that exist.
pub fn sizes(out: &mut Out, state: &State) {
    count(
        out,
        state_array::slots(state) as u64,
        b" node, ",
        b" nodes, ",
    );
    count(out, existing(state) as u64, b" tree\n", b" trees\n");
}

// How many trees exist.
fn existing(state: &State) -> usize {
    (0..state_array::trees(state))
        .filter(|&k| state_array::tree_at(state, k).exists != 0)
        .count()
}

// A node as the lists and the drawing have it: id, role, and its label in quotes.
pub fn node<'a>(out: &mut Out, state: &'a State, x: FullNodeId, roles: &'a [u8; 4096]) {
    id(out, x);
    let i = state_lookup::find_in(state, x);
    if state_array::slots(state) <= i {
        return;
    }
    put(out, b" ");
    role(out, roles, state_array::role_at(state, i));
    if state_array::label_len(state, i) < 1 {
        return;
    }
    put(out, b" ");
    label(out, state, i);
}

// A node as it is heard: label, role, and then its id.
pub fn heard<'a>(
    out: &mut Out,
    state: &'a State,
    found: Option<FullNodeId>,
    roles: &'a [u8; 4096],
) {
    let Some(x) = found else {
        put(out, b"nothing");
        return;
    };
    spoken(out, state, x, roles);
    put(out, b" ");
    id(out, x);
}

// A node's label and role.
pub fn spoken<'a>(out: &mut Out, state: &'a State, x: FullNodeId, roles: &'a [u8; 4096]) {
    let i = state_lookup::find_in(state, x);
    if state_array::label_len(state, i) < 1 {
        put(out, b"no label");
    } else {
        label(out, state, i);
    }
    put(out, b", ");
    role(out, roles, state_array::role_at(state, i));
}

// A list of n nodes, two numbers each, that starts at a place, each node on a line of its own; where it ends.
pub fn list<'a>(
    out: &mut Out,
    word: &'a [u8],
    state: &'a State,
    numbers: &'a [u64],
    from: usize,
    n: usize,
    roles: &'a [u8; 4096],
) -> usize {
    let mut at = from;
    for _ in 0..n {
        if numbers.len() <= at {
            break;
        }
        put(out, word);
        node(out, state, listed_id(numbers, at), roles);
        put(out, b"\n");
        at = std::num::wrapping_add_usize(at, 2);
    }
    at
}

// The id whose two numbers stand at a place, zeros past the end.
pub fn listed_id(numbers: &[u64], at: usize) -> FullNodeId {
    FullNodeId {
        tree: TreeIndex((element(numbers, at) % 4294967296) as u32),
        node: NodeId(element(numbers, std::num::wrapping_add_usize(at, 1))),
    }
}

// Element i, 0 past the last.
fn element(numbers: &[u64], i: usize) -> u64 {
    if i < numbers.len() { numbers[i] } else { 0 }
}

// A role's name, or its number where it has none.
pub fn role(out: &mut Out, roles: &[u8; 4096], r: u64) {
    let name = role_name(roles, r);
    if name.is_empty() {
        put(out, b"role ");
        number(out, r);
        return;
    }
    put(out, name);
}

// A role's name: 16 bytes, or those before a zero.
fn role_name(roles: &[u8; 4096], r: u64) -> &[u8] {
    let at = 16 * ((r % 256) as usize);
    let name = &roles[at..at + 16];
    match name.iter().position(|&byte| byte == 0) {
        Some(end) => &name[..end],
        None => name,
    }
}

// The label of the node in a slot, in quotes.
fn label(out: &mut Out, state: &State, i: usize) {
    let n = label_length(state, i);
    let mut bytes = [0u8; 32];
    for k in 0..n {
        bytes[k] = state_array::label_byte(state, i, k);
    }
    first_quoted(out, &bytes, n);
}

// The first n bytes as a label in quotes.
pub fn first_quoted(out: &mut Out, bytes: &[u8; 32], n: usize) {
    quoted(out, lines::part(bytes, n));
}

// How long the label of the node in a slot is.
fn label_length(state: &State, i: usize) -> usize
    ensures { result ≤ 32 }
{
    let n = state_array::label_len(state, i);
    if n < 32 { n as usize } else { 32 }
}

// A label in quotes, as a text of calls has it: as it is where it is UTF-8 without control characters, else with escapes.
pub fn quoted(out: &mut Out, label: &[u8]) {
    let plain = utf8::is_plain(label);
    put(out, b"\"");
    for &byte in label {
        quoted_letter(out, byte, plain);
    }
    put(out, b"\"");
}

// A byte of a label.
fn quoted_letter(out: &mut Out, byte: u8, plain: bool) {
    if (byte == b'"') | (byte == b'\\') {
        put(out, b"\\");
    }
    letter(out, byte, plain);
}
