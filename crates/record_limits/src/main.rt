// Runs `layout` on the records that standard input lists, a line each, and writes for each that it passes, or the number 2. A line is
//   "NAME" NODES ENTRIES LABEL LENGTH AT BYTE AT BYTE ..
// for the first LENGTH bytes of a record with as many nodes, all ENTRIES child entries at the first node and a label of LABEL bytes at each, with
// the byte at each AT replaced. The file stdout has what document 01, "The batch record", says of each.
#![tactic(auto)]

ghost use Rattle.std.specs.Prelude.{◌<◌, ◌≤◌};

use program_text::cursor::Cursor;
use program_text::unbuffered::put;
use program_text::{cursor, decimal, faults, lines};
use std::rt::Stdout;

// Every line.
fn main(rt: HostRuntime) {
    let mut file = rt.stdin();
    let mut chunk = [0u8; 65536];
    let mut text = [0u8; 8192];
    let mut input = lines::of();
    // Nothing says that standard input ends, so the turns have a bound that no run reaches.
    for _ in 0..u64::MAX {
        input = lines::next(input, &mut file, &mut chunk, &mut text);
        if input.ended {
            return;
        }
        judge(rt.stdout(), lines::line(&text, input));
    }
}

// What `layout` says of a line's record, with its name.
fn judge(stdout: Stdout, line: &[u8]) {
    let name = cursor::first(line);
    let nodes = number(line, cursor::next(line, name));
    let entries = number(line, nodes);
    let label = number(line, entries);
    let size = number(line, label);
    let mut bytes = [0u8; 12800];
    make(
        &mut bytes,
        nodes.number as usize,
        entries.number as usize,
        label.number as usize,
    );
    change(&mut bytes, line, size);
    put(stdout, cursor::quoted(line, name));
    say(stdout, passes(&bytes, size.number as usize));
}

// What `layout` says of the first n bytes.
fn passes(bytes: &[u8; 12800], n: usize) -> bool {
    record_layout::layout(lines::part(bytes, n))
}

// A number of a line.
fn number(line: &[u8], c: Cursor) -> Cursor {
    decimal::whole(line, c, 65535, faults::NODE)
}

// Replaces the bytes that a line names from a place on.
fn change(bytes: &mut [u8; 12800], line: &[u8], from: Cursor) {
    let mut c = from;
    for _ in 0..line.len() {
        if cursor::is_done(c) {
            return;
        }
        c = with_byte(bytes, line, c);
    }
}

// Replaces a byte; where the line goes on.
fn with_byte(bytes: &mut [u8; 12800], line: &[u8], c: Cursor) -> Cursor {
    let at = number(line, c);
    let byte = number(line, at);
    set(bytes, at.number as usize, (byte.number % 256) as u8);
    byte
}

// A verdict.
fn say(stdout: Stdout, good: bool) {
    if good {
        put(stdout, b": passes\n");
        return;
    }
    put(stdout, b": 2\n");
}

// A record for ROOT with tree data, tree root 1 and focus 2. Node i has the number i + 1 and role 4.
fn make(bytes: &mut [u8; 12800], nodes: usize, entries: usize, label: usize) {
    if (65 < nodes) | (257 < entries) | (33 < label) {
        return;
    }
    for i in 0..nodes {
        node(bytes, i, entries, i * label, label);
    }
    header(bytes, nodes, entries, nodes * label);
}

fn header(bytes: &mut [u8; 12800], nodes: usize, entries: usize, labels: usize)
    requires { (nodes ≤ 65) × (entries ≤ 257) × (labels ≤ 2145) }
{
    let entries_at = 64 + 128 * nodes;
    let labels_at = entries_at + 8 * entries;
    put16(bytes, 0, nodes);
    put16(bytes, 2, entries);
    put16(bytes, 4, labels);
    put16(bytes, 6, 1);
    put16(bytes, 8, 64);
    put16(bytes, 12, entries_at);
    put16(bytes, 16, labels_at);
    put16(bytes, 20, labels_at + labels);
    put16(bytes, 40, 1);
    put16(bytes, 48, 2);
}

fn node(bytes: &mut [u8; 12800], i: usize, entries: usize, labels: usize, label: usize)
    requires { i < 65 }
{
    let at = 64 + 128 * i;
    put16(bytes, at, i + 1);
    if i == 0 {
        put16(bytes, at + 34, entries);
    } else {
        put16(bytes, at + 32, entries);
    }
    put16(bytes, at + 36, labels);
    put16(bytes, at + 38, label);
    set(bytes, at + 40, 4);
}

fn put16(bytes: &mut [u8; 12800], at: usize, value: usize) {
    set(bytes, at, (value % 256) as u8);
    if at < 12799 {
        set(bytes, at + 1, (value / 256 % 256) as u8);
    }
}

fn set(bytes: &mut [u8; 12800], at: usize, value: u8) {
    if at < 12800 {
        bytes[at] = value;
    }
}
