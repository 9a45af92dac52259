// A node line, from the word after `node` on. Each function reads from a place of the line on, writes what it reads into the draft, and answers
// where it stopped.
use batchcheck_record::draft;
use batchcheck_record::draft::Draft;
use program_text::cursor::Cursor;
use program_text::{cursor, decimal, faults, roles};

// What a call or one of its nodes says at most once, each a bit.
pub(crate) const ROOT: u64 = 1;

pub(crate) const FOCUS: u64 = 2;

pub(crate) const TREE: u64 = 4;

const ROLE: u64 = 8;

const LABEL: u64 = 16;

const CHILDREN: u64 = 32;

const ACTIVE: u64 = 64;

const GRAFT: u64 = 128;

const BOUNDS: u64 = 256;

const TRANSFORM: u64 = 512;

const HIDDEN: u64 = 1024;

const CLIPS: u64 = 2048;

// A byte of a label, and how long its text is.
#[derive(Clone, Copy)]
struct Spelled {
    byte: u8,
    length: usize,
}

// Lists each node of a row, with all that the line says of it.
pub(crate) fn all_listed(draft: &mut Draft, line: &[u8], at: Cursor, roles: &[u8; 4096]) -> Cursor {
    let row = decimal::row(line, at, faults::ROW);
    let mut c = listed(draft, line, at, row, row.number, roles);
    for before in row.number..row.last {
        if c.fault != 0 {
            break;
        }
        c = listed(draft, line, at, row, before + 1, roles);
    }
    c
}

// Lists a node, whose number is read at one place and all else from another on.
fn listed(
    draft: &mut Draft,
    line: &[u8],
    at: Cursor,
    row: Cursor,
    id: u64,
    roles: &[u8; 4096],
) -> Cursor {
    if draft::NODE_ROOM <= draft::node_count(draft) {
        return cursor::failed(at, faults::NODE_ROOM);
    }
    draft::list_node(draft, id);
    properties(draft, line, row, roles)
}

// Goes past a word that is said once.
pub(crate) fn once(draft: &mut Draft, line: &[u8], c: Cursor, what: u64) -> Cursor {
    if draft::is_said(draft, what) {
        return cursor::failed(c, faults::ONCE);
    }
    draft::say(draft, what);
    cursor::next(line, c)
}

// Every word that is left, which is said of the node listed last.
fn properties(draft: &mut Draft, line: &[u8], from: Cursor, roles: &[u8; 4096]) -> Cursor {
    let mut c = from;
    for _ in 0..line.len() {
        if cursor::is_done(c) {
            break;
        }
        c = property(draft, line, c, roles);
    }
    c
}

// One word with what belongs to it.
fn property(draft: &mut Draft, line: &[u8], c: Cursor, roles: &[u8; 4096]) -> Cursor {
    if cursor::first_byte(line, c) == b'"' {
        return label(draft, line, c);
    }
    let word = which_property(line, c);
    match word {
        0 => children(draft, line, c),
        1 => active(draft, line, c),
        2 => graft(draft, line, c),
        3 => role(draft, line, c),
        _ => flag_or_role(draft, line, c, word, roles),
    }
}

// Which of the words with a meaning in a node line a word is, 8 where it is none, so that it can name a role.
fn which_property(line: &[u8], c: Cursor) -> u64 {
    cursor::which(
        line,
        c,
        b"children active graft role bounds transform hidden clips",
    )
}

// Whether a word has a meaning in a node line.
pub(crate) fn is_property(line: &[u8], c: Cursor) -> bool {
    which_property(line, c) < 8
}

// A word that sets a flag, or a role's name.
fn flag_or_role(
    draft: &mut Draft,
    line: &[u8],
    c: Cursor,
    word: u64,
    roles: &[u8; 4096],
) -> Cursor {
    match word {
        4 => bounds(draft, line, c),
        5 => transform(draft, line, c),
        6 => flagged(draft, line, c, HIDDEN, draft::HIDDEN),
        7 => flagged(draft, line, c, CLIPS, draft::CLIPS),
        _ => named_role(draft, line, c, roles),
    }
}

// Its bounds.
fn bounds(draft: &mut Draft, line: &[u8], c: Cursor) -> Cursor {
    let d = flagged(draft, line, c, BOUNDS, draft::BOUNDS);
    floats(draft, line, d, 0, 4)
}

// Its transform.
fn transform(draft: &mut Draft, line: &[u8], c: Cursor) -> Cursor {
    let d = flagged(draft, line, c, TRANSFORM, draft::TRANSFORM);
    floats(draft, line, d, 4, 10)
}

// A word that sets a flag.
fn flagged(draft: &mut Draft, line: &[u8], c: Cursor, what: u64, flag: u64) -> Cursor {
    let d = once(draft, line, c, what);
    draft::set_flag(draft, flag);
    d
}

// The active descendant.
fn active(draft: &mut Draft, line: &[u8], c: Cursor) -> Cursor {
    let d = flagged(draft, line, c, ACTIVE, draft::ACTIVE);
    let n = decimal::whole(line, d, u64::MAX, faults::NODE);
    draft::set_active_descendant(draft, n.number);
    n
}

// The tree that it grafts.
fn graft(draft: &mut Draft, line: &[u8], c: Cursor) -> Cursor {
    let d = flagged(draft, line, c, GRAFT, draft::GRAFT);
    let n = decimal::tree(line, d, faults::TREE);
    draft::set_graft(draft, n.high, n.number);
    n
}

// Its role by number.
fn role(draft: &mut Draft, line: &[u8], c: Cursor) -> Cursor {
    let d = once(draft, line, c, ROLE);
    let n = decimal::whole(line, d, 255, faults::ROLE_NUMBER);
    draft::set_role(draft, n.number);
    n
}

// Its role by name.
fn named_role(draft: &mut Draft, line: &[u8], c: Cursor, roles: &[u8; 4096]) -> Cursor {
    let number = roles::find(roles, cursor::word(line, c));
    if 255 < number {
        return cursor::failed(c, faults::PROPERTY);
    }
    draft::set_role(draft, number);
    once(draft, line, c, ROLE)
}

// Its children, of which there is one at least.
fn children(draft: &mut Draft, line: &[u8], at: Cursor) -> Cursor {
    let first = once(draft, line, at, CHILDREN);
    let mut c = row_of_children(draft, line, first);
    for _ in 0..line.len() {
        if !decimal::is_digit(cursor::first_byte(line, c)) {
            break;
        }
        c = row_of_children(draft, line, c);
    }
    c
}

// A row of children.
fn row_of_children(draft: &mut Draft, line: &[u8], at: Cursor) -> Cursor {
    let row = decimal::row(line, at, faults::ROW);
    let mut c = child(draft, row, at, row.number);
    for before in row.number..row.last {
        if c.fault != 0 {
            break;
        }
        c = child(draft, row, at, before + 1);
    }
    c
}

// A child whose number is read at one place; another is where its row ends.
fn child(draft: &mut Draft, row: Cursor, at: Cursor, id: u64) -> Cursor {
    if draft::CHILD_ROOM <= draft::child_count(draft) {
        return cursor::failed(at, faults::CHILD_ROOM);
    }
    draft::add_child(draft, id);
    row
}

// Its numbers from one place to before another.
fn floats(draft: &mut Draft, line: &[u8], from: Cursor, first: usize, end: usize) -> Cursor {
    let mut c = from;
    for place in first..end {
        c = decimal::float(line, c, faults::FLOAT);
        draft::set_float(draft, place, c.number);
    }
    c
}

// The label that is the cursor's word.
fn label(draft: &mut Draft, line: &[u8], c: Cursor) -> Cursor {
    let d = once(draft, line, c, LABEL);
    let before = draft::label_length(draft);
    let mut at = decimal::past(c.from);
    for _ in 0..line.len() {
        match letter(line, at, c.end, draft::label_length(draft)) {
            Ok(Some(l)) => {
                draft::add_letter(draft, l.byte);
                at = std::num::wrapping_add_usize(at, l.length);
            }
            Ok(None) => break,
            Err(fault) => {
                draft::cut_labels(draft, before);
                return cursor::failed(c, fault);
            }
        }
    }
    d
}

// The letter at a place of a label that ends before another, none at the closing quote; or what is wrong with it. `length` is how many label bytes
// there are.
fn letter(line: &[u8], at: usize, end: usize, length: usize) -> Result<Option<Spelled>, u8> {
    if end <= at {
        return Err(faults::QUOTE);
    }
    if record_wire::u8_at(line, at) == b'"' {
        return Ok(None);
    }
    let l = spelling(line, at).ok_or(faults::ESCAPE)?;
    if draft::LABEL_ROOM <= length {
        return Err(faults::LABEL_ROOM);
    }
    Ok(Some(l))
}

// The byte of a label that is written at a place, if it is well written.
fn spelling(line: &[u8], at: usize) -> Option<Spelled> {
    let byte = record_wire::u8_at(line, at);
    if byte != b'\\' {
        return Some(Spelled { byte, length: 1 });
    }
    let next = decimal::past(at);
    let escaped = record_wire::u8_at(line, next);
    match escaped {
        b'x' => hex_byte(line, next),
        b'"' | b'\\' => Some(Spelled {
            byte: escaped,
            length: 2,
        }),
        _ => None,
    }
}

// The byte of two hexadecimal digits behind a place.
fn hex_byte(line: &[u8], at: usize) -> Option<Spelled> {
    let next = decimal::past(at);
    let high = decimal::hex_digit(record_wire::u8_at(line, next));
    let low = decimal::hex_digit(record_wire::u8_at(line, decimal::past(next)));
    if (15 < high) | (15 < low) {
        return None;
    }
    Some(Spelled {
        byte: 16 * high + low,
        length: 4,
    })
}
