// The words of a line. A word ends at a space, a label at its closing quote, and `#` at the start of a word begins a comment.
use crate::lines;

// A place in a line.
#[derive(Clone, Copy)]
pub struct Cursor {
    // The word: from one place to before another, empty at the line's end.
    pub from: usize,
    pub end: usize,
    // What was read last: a number, with the last one of its row, or a tree id's halves.
    pub number: u64,
    pub last: u64,
    pub high: u64,
    // The first fault, or 0. The cursor stays on its word.
    pub fault: u8,
}

// On the first word.
pub fn first(line: &[u8]) -> Cursor {
    next(
        line,
        Cursor {
            from: 0,
            end: 0,
            number: 0,
            last: 0,
            high: 0,
            fault: 0,
        },
    )
}

// On the next word, unless there is a fault.
pub fn next(line: &[u8], c: Cursor) -> Cursor {
    if c.fault != 0 {
        return c;
    }
    let mut d = c;
    d.from = after_spaces(line, c.end);
    d.end = word_end(line, d.from);
    d
}

// With a fault at this word, unless there is one already.
pub fn failed(c: Cursor, fault: u8) -> Cursor {
    let mut d = c;
    if c.fault == 0 {
        d.fault = fault;
    }
    d
}

// Whether the line's words are used up, or one is at fault.
pub fn is_done(c: Cursor) -> bool {
    (c.end <= c.from) | (c.fault != 0)
}

// The bytes of the word.
pub fn word(line: &[u8], c: Cursor) -> &[u8] {
    lines::between(line, c.from, c.end)
}

// The bytes of the word but its first and its last, the quotes of a label.
pub fn quoted(line: &[u8], c: Cursor) -> &[u8] {
    lines::between(
        line,
        std::num::wrapping_add_usize(c.from, 1),
        std::num::wrapping_sub_usize(c.end, 1),
    )
}

// Whether this is the word, with no fault before it.
pub fn is(line: &[u8], c: Cursor, name: &[u8]) -> bool {
    if c.fault != 0 {
        return false;
    }
    word(line, c) == name
}

// Which of some names the word is, the first at 0, how many there are where it is none of them.
pub fn which<'a>(line: &'a [u8], c: Cursor, names: &'a [u8]) -> u64 {
    let mut name = first(names);
    for n in 0..64 {
        if is_done(name) | is(line, c, word(names, name)) {
            return n;
        }
        name = next(names, name);
    }
    64
}

// The first byte of the word, 0 at the line's end.
pub fn first_byte(line: &[u8], c: Cursor) -> u8 {
    if is_done(c) {
        return 0;
    }
    record_wire::u8_at(line, c.from)
}

// The first place from `from` on where no space stands, else the line's end, or `from` where that lies further.
fn after_spaces(line: &[u8], from: usize) -> usize {
    (from..line.len())
        .find(|&at| !is_space(line[at]))
        .unwrap_or(from.max(line.len()))
}

// Where the word that starts at `from` ends.
fn word_end(line: &[u8], from: usize) -> usize {
    let byte = record_wire::u8_at(line, from);
    if byte == b'#' {
        return from;
    }
    if byte == b'"' {
        return label_end(line, from);
    }
    plain_end(line, from)
}

// The first place from `from` on where a space stands, else the line's end, or `from` where that lies further.
fn plain_end(line: &[u8], from: usize) -> usize {
    (from..line.len())
        .find(|&at| is_space(line[at]))
        .unwrap_or(from.max(line.len()))
}

// Past the closing quote of the label whose opening quote stands at `from`, or the line's end.
fn label_end(line: &[u8], from: usize) -> usize {
    let mut escaped = true;
    for at in from..line.len() {
        if (line[at] == b'"') & !escaped {
            return at + 1;
        }
        escaped = (line[at] == b'\\') & !escaped;
    }
    line.len()
}

// A tab or a carriage return counts as a space.
fn is_space(byte: u8) -> bool {
    (byte == b' ') | (byte == b'\t') | (byte == b'\r')
}
