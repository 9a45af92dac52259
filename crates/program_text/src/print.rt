// Pieces of what is printed: words, numbers, ids, and texts with places for these. They are kept in a lent array, and written to standard output
// once that is full, or at `flush`.
ghost use Rattle.std.specs.Prelude.{◌<◌, ◌≤◌};

use crate::{lines, unbuffered, utf8};
use ids::{FullNodeId, NodeId, TreeId, TreeIndex};
use std::rt::Stdout;

// Standard output, and what is kept: where its text ends, in two bytes; the number that a tree is yet to get, a byte; that tree's id; then the text.
#[derive(Drop)]
pub struct Out {
    kept: [u8; 4128],
    stdout: Stdout,
}

const ROOM: usize = 4128;

const UNBORN: usize = 2;

const HIGH: usize = 8;

const LOW: usize = 16;

const TEXT: usize = 32;

// Nothing kept.
pub fn blank(stdout: Stdout) -> Out {
    Out {
        kept: [0u8; 4128],
        stdout,
    }
}

// Words as they are.
pub fn put(out: &mut Out, text: &[u8]) {
    let mut at = text_end(out);
    for &byte in text {
        let place = next_place(out, at);
        out.kept[place] = byte;
        at = place + 1;
    }
    set_end(out, at);
}

// Where the next byte goes if the text ends at a place. What is kept is written where that leaves no room.
fn next_place(out: &Out, end: usize) -> usize
    ensures { result < 4128 }
{
    if end < ROOM {
        return end;
    }
    write_text(out, end);
    TEXT
}

// Writes what is kept.
pub fn flush(out: &mut Out) {
    write_text(out, text_end(out));
    set_end(out, TEXT);
}

// Writes the text up to a place.
fn write_text(out: &Out, end: usize) {
    unbuffered::put(out.stdout, lines::between(&out.kept, TEXT, end));
}

// Where the text ends.
fn text_end(out: &Out) -> usize
    ensures { result ≤ 4128 }
{
    let end = wide(out.kept[0]) + 256 * wide(out.kept[1]);
    if ROOM < end {
        return TEXT;
    }
    if end < TEXT {
        return TEXT;
    }
    end
}

// Notes where the text ends.
fn set_end(out: &mut Out, end: usize) {
    out.kept[0] = (end % 256) as u8;
    out.kept[1] = (end / 256 % 256) as u8;
}

// A byte as a number.
fn wide(byte: u8) -> usize
    ensures { result ≤ 255 }
{
    byte as usize
}

// From here on nodes of the tree with a number are told by its id: a batch would have made it, and never did. With 0 every tree is told by its
// number.
pub fn name_unborn(out: &mut Out, number: usize, t: TreeId) {
    out.kept[UNBORN] = (number % 256) as u8;
    out.kept[HIGH..HIGH + 8].copy_from_slice(&t.high.to_le_bytes());
    out.kept[LOW..LOW + 8].copy_from_slice(&t.low.to_le_bytes());
}

// A number in decimal.
pub fn number(out: &mut Out, n: u64) {
    let mut text = [0u8; 20];
    let from = decimal_digits(n, &mut text);
    put(out, &text[from..]);
}

// A number in at least so many hexadecimal digits.
pub fn hex(out: &mut Out, n: u64, width: usize) {
    let mut text = [0u8; 16];
    let from = digits(n, 16, width, &mut text);
    put(out, &text[from..]);
}

// Puts the decimal digits of a number at the end of a text; where they start.
pub fn decimal_digits(n: u64, text: &mut [u8; 20]) -> usize
    ensures { result ≤ 20 }
{
    digits(n, 10, 1, text)
}

// Puts at least so many digits of a number at the end of a text, one at least and at most what fits; where they start.
fn digits<const N: usize>(n: u64, base: u64, width: usize, text: &mut [u8; N]) -> usize
    requires { (0 < base) × (base ≤ 16) }
    ensures { result ≤ N }
{
    let mut rest = n;
    for at in (0..N).rev() {
        text[at] = digit((rest % base) as u8);
        rest /= base;
        if (rest < 1) & (width <= N - at) {
            return at;
        }
    }
    0
}

// A digit of at most 15 as a letter.
fn digit(n: u8) -> u8 {
    match n {
        0..=9 => b'0' + n,
        10..=15 => b'a' + (n - 10),
        _ => b'?',
    }
}

// A byte of a text that is plain or not, as \xHH where it is not printed as it is.
pub fn letter(out: &mut Out, byte: u8, plain: bool) {
    if utf8::is_escaped(byte, plain) {
        put(out, b"\\x");
        hex(out, byte as u64, 2);
        return;
    }
    put(out, &[byte]);
}

// A number, then the word for one thing or for several.
pub fn count(out: &mut Out, n: u64, one: &[u8], several: &[u8]) {
    number(out, n);
    if n == 1 {
        put(out, one);
        return;
    }
    put(out, several);
}

// Line n of a text, the first at 0.
pub fn put_line(out: &mut Out, text: &[u8], n: u64) {
    put(out, line(text, n));
}

// Line n of a text, empty past the last.
fn line(text: &[u8], n: u64) -> &[u8] {
    text.split(|&byte| byte == b'\n')
        .nth(n as usize)
        .unwrap_or(&[])
}

// Which call of a text is spoken of, and the line where it begins.
pub fn call(out: &mut Out, call: u64, line: u64) {
    of_number(out, b"call #, ", call);
    of_number(out, b"line #: ", line);
}

// An id: the tree's number and the node's.
pub fn id(out: &mut Out, x: FullNodeId) {
    put(out, b"(");
    tree_number(out, x.tree);
    put(out, b", ");
    number(out, x.node.0);
    put(out, b")");
}

// A tree's number, or the name of one that never got it.
fn tree_number(out: &mut Out, tree: TreeIndex) {
    let n = tree.0 as u64;
    if (n == wide(out.kept[UNBORN]) as u64) & (n != 0) {
        let high = record_wire::u64_at(&out.kept, HIGH);
        let low = record_wire::u64_at(&out.kept, LOW);
        tree_name(out, TreeId { high, low });
        return;
    }
    number(out, n);
}

// A tree as it is named: ROOT, or `tree` and its id.
pub fn tree_name(out: &mut Out, t: TreeId) {
    if !is_root(t) {
        put(out, b"tree ");
    }
    tree_id(out, t);
}

// A tree id as a text of calls has it: ROOT, a number that is the low half, or both halves.
pub fn tree_id(out: &mut Out, t: TreeId) {
    if is_root(t) {
        put(out, b"ROOT");
        return;
    }
    if t.high != 0 {
        number(out, t.high);
        put(out, b":");
    }
    number(out, t.low);
}

// Whether this is ROOT.
fn is_root(t: TreeId) -> bool {
    t == TreeId { high: 0, low: 0 }
}

// A text in which `@` stands for the first id, `&` for the second, `$` for the tree's name and `#` for the number.
pub fn tell(out: &mut Out, text: &[u8], x: FullNodeId, y: FullNodeId, t: TreeId, n: u64) {
    let mut from: usize = 0;
    for (at, &byte) in text.iter().enumerate() {
        if is_mark(byte) {
            put(out, lines::between(text, from, at));
            put_mark(out, byte, x, y, t, n);
            from = at + 1;
        }
    }
    put(out, lines::between(text, from, text.len()));
}

// A line of such a text, the first at 0.
pub fn tell_line(
    out: &mut Out,
    text: &[u8],
    which: u64,
    x: FullNodeId,
    y: FullNodeId,
    t: TreeId,
    n: u64,
) {
    tell(out, line(text, which), x, y, t, n);
}

// Whether a byte of a text stands for something else.
fn is_mark(byte: u8) -> bool {
    (byte == b'@') | (byte == b'&') | (byte == b'$') | (byte == b'#')
}

// What a byte of a text stands for.
fn put_mark(out: &mut Out, byte: u8, x: FullNodeId, y: FullNodeId, t: TreeId, n: u64) {
    match byte {
        b'@' => id(out, x),
        b'&' => id(out, y),
        b'$' => tree_name(out, t),
        _ => number(out, n),
    }
}

// A text that names one node.
pub fn of_node(out: &mut Out, text: &[u8], x: FullNodeId) {
    tell(out, text, x, x, TreeId { high: 0, low: 0 }, 0);
}

// A text that has one number.
pub fn of_number(out: &mut Out, text: &[u8], n: u64) {
    let x = FullNodeId {
        tree: TreeIndex(0),
        node: NodeId(0),
    };
    tell(out, text, x, x, TreeId { high: 0, low: 0 }, n);
}
