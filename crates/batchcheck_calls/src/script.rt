// The calls that a file's lines say: each is read line by line, and is due once its last line is read without a fault.
use crate::node_line;
use batchcheck_record::draft;
use batchcheck_record::draft::Draft;
use program_text::cursor::Cursor;
use program_text::print::{Out, put};
use program_text::{cursor, decimal, faults, print, roles};

// Kinds of calls.
pub const START: u8 = 0;

pub const BATCH: u8 = 1;

pub const HOST: u8 = 2;

// No call: a question, whose line is read where it is answered.
pub const ASK: u8 = 3;

// How far a call is read.
const NONE: u8 = 0;

const OPEN: u8 = 1;

pub const DUE: u8 = 2;

// The call that is read, or the one before, where none is. Its record stands beside it, in a draft.
#[derive(Clone, Copy)]
pub struct Call {
    pub kind: u8,
    pub stage: u8,
    // Its place among the file's calls, and the line where it begins.
    pub number: u64,
    pub line: u64,
    // Whether the host has the focus, and how many elements are lent for the lists.
    pub focused: bool,
    pub room: usize,
    // The place of the file's name in the line, where the record is the bytes of a file.
    pub raw: Option<Cursor>,
    // How long the record is, once it is made.
    pub length: usize,
    // The number that it should answer, where one is said.
    pub expected: Option<u64>,
    // Whether a line of it was bad, and whether a line of the file was so far.
    pub bad: bool,
    pub faulty: bool,
}

// The largest number of document 01's table that a call answers.
const MOST_ANSWER: u64 = 21;

// Before the first call.
pub fn blank() -> Call {
    Call {
        kind: START,
        stage: NONE,
        number: 0,
        line: 0,
        focused: true,
        room: 1024,
        raw: None,
        length: 0,
        expected: None,
        bad: false,
        faulty: false,
    }
}

// A call of a kind that begins here, with nothing in its draft.
fn opened(before: Call, draft: &mut Draft, kind: u8, line: u64) -> Call {
    draft::clear(draft);
    let mut p = blank();
    p.kind = kind;
    p.stage = OPEN;
    p.number = std::num::wrapping_add_u64(before.number, 1);
    p.line = line;
    p.expected = before.expected;
    p.faulty = before.faulty;
    p
}

// With a line read. `cut` is whether only its first bytes are there.
pub fn with_line(
    out: &mut Out,
    call: Call,
    draft: &mut Draft,
    line: &[u8],
    number: u64,
    cut: bool,
    roles: &mut [u8; 4096],
) -> Call {
    let c = cursor::first(line);
    if cursor::is_done(c) {
        return call;
    }
    if cut {
        return reported(out, call, line, number, cursor::failed(c, faults::SHORTER));
    }
    if call.stage != OPEN {
        return outside(out, call, draft, line, number, c, roles);
    }
    if is_opening(line, c) {
        faults::tell(out, number, line, cursor::failed(c, faults::END));
        let p = skipped(out, call);
        return outside(out, p, draft, line, number, c, roles);
    }
    inside(out, call, draft, line, number, c, roles)
}

// At the end of the file, of which `number` is one past the last line.
pub fn at_end(out: &mut Out, call: Call, number: u64) -> Call {
    let c = cursor::first(b"");
    if call.stage == OPEN {
        faults::tell(out, number, b"", cursor::failed(c, faults::FILE_END));
        return skipped(out, call);
    }
    if call.expected.is_none() {
        return call;
    }
    reported(out, call, b"", number, cursor::failed(c, faults::CALL))
}

// Whether a line begins a call, says the number of the next one, or asks a question.
fn is_opening(line: &[u8], c: Cursor) -> bool {
    cursor::which(line, c, b"start batch host ask expect") < 5
}

// ## Lines outside a call

// With a line read while no call is open.
fn outside(
    out: &mut Out,
    call: Call,
    draft: &mut Draft,
    line: &[u8],
    number: u64,
    c: Cursor,
    roles: &mut [u8; 4096],
) -> Call {
    let d = cursor::next(line, c);
    let word = cursor::which(line, c, b"start batch host role ask expect");
    match word {
        0 => start(out, opened(call, draft, START, number), line, number, d),
        1 => batch(out, opened(call, draft, BATCH, number), line, number, d),
        2 => host(out, opened(call, draft, HOST, number), line, number, d),
        3 => reported(out, call, line, number, declared(line, d, roles)),
        4 => asked(call, number),
        5 => expects(out, call, line, number, d),
        _ => reported(out, call, line, number, cursor::failed(c, faults::OUTSIDE)),
    }
}

// A question, which is due at once and has no place among the calls.
fn asked(call: Call, line: u64) -> Call {
    let mut p = call;
    p.kind = ASK;
    p.stage = DUE;
    p.line = line;
    p
}

// The number that the next call should answer.
fn expects(out: &mut Out, call: Call, line: &[u8], number: u64, c: Cursor) -> Call {
    let d = decimal::whole(line, c, MOST_ANSWER, faults::ANSWER);
    let mut p = call;
    p.expected = Some(d.number);
    if call.expected.is_some() {
        return reported(
            out,
            call,
            line,
            number,
            cursor::failed(cursor::first(line), faults::ONCE),
        );
    }
    if d.fault != 0 {
        p.expected = None;
    }
    reported(out, p, line, number, d)
}

// Names a role.
fn declared(line: &[u8], c: Cursor, roles: &mut [u8; 4096]) -> Cursor {
    let d = decimal::whole(line, c, 255, faults::ROLE_NUMBER);
    if d.fault != 0 {
        return d;
    }
    let name = cursor::word(line, d);
    if !roles::is_name(name) | node_line::is_property(line, d) {
        return cursor::failed(d, faults::ROLE_NAME);
    }
    let other = roles::find(roles, name);
    if (other < 256) & (other != d.number) {
        return cursor::failed(d, faults::NAME_TAKEN);
    }
    let e = cursor::next(line, d);
    if cursor::is_done(e) {
        roles::set(roles, d.number, name);
    }
    e
}

// The rest of a line that begins a start.
fn start(out: &mut Out, call: Call, line: &[u8], number: u64, c: Cursor) -> Call {
    let mut p = named(call, line, c);
    let mut d = after_name(p, line, c);
    if cursor::is(line, d, b"unfocused") {
        p.focused = false;
        d = cursor::next(line, d);
    }
    begun(out, p, line, number, d, faults::START_WORD)
}

// The rest of a line that begins a batch.
fn batch(out: &mut Out, call: Call, line: &[u8], number: u64, c: Cursor) -> Call {
    let mut p = named(call, line, c);
    let mut d = after_name(p, line, c);
    if cursor::is(line, d, b"room") {
        d = decimal::whole(line, cursor::next(line, d), 1024, faults::ROOM);
        p.room = d.number as usize;
    }
    begun(out, p, line, number, d, faults::BATCH_WORD)
}

// With the name of a file of raw bytes, if the word is `raw`.
fn named(call: Call, line: &[u8], c: Cursor) -> Call {
    if !cursor::is(line, c, b"raw") {
        return call;
    }
    let mut name = cursor::next(line, c);
    if cursor::is_done(name) {
        name = cursor::failed(name, faults::FILE);
    }
    let mut p = call;
    p.raw = Some(name);
    p
}

// On the word after the name, if there is one.
fn after_name(call: Call, line: &[u8], c: Cursor) -> Cursor {
    match call.raw {
        Some(name) => cursor::next(line, name),
        None => c,
    }
}

// Where nothing more may stand in a line that begins a call.
fn begun(out: &mut Out, call: Call, line: &[u8], number: u64, c: Cursor, fault: u8) -> Call {
    let mut d = c;
    if !cursor::is_done(c) {
        d = cursor::failed(c, fault);
    }
    let p = reported(out, call, line, number, d);
    if p.raw.is_some() {
        return closed(out, p);
    }
    p
}

// The rest of a line of a host focus change.
fn host(out: &mut Out, call: Call, line: &[u8], number: u64, c: Cursor) -> Call {
    let mut p = call;
    p.focused = cursor::is(line, c, b"on");
    let mut d = cursor::next(line, c);
    if !p.focused & !cursor::is(line, c, b"off") {
        d = cursor::failed(c, faults::SWITCH);
    }
    let q = reported(out, p, line, number, d);
    closed(out, q)
}

// ## Lines of a call

// With a line read while a call is open.
fn inside(
    out: &mut Out,
    call: Call,
    draft: &mut Draft,
    line: &[u8],
    number: u64,
    c: Cursor,
    roles: &[u8; 4096],
) -> Call {
    if cursor::is(line, c, b"end") {
        let p = reported(out, call, line, number, ended(draft, line, c));
        return closed(out, p);
    }
    reported(out, call, line, number, record_line(draft, line, c, roles))
}

// What a line says of the record, written into the draft; where the line was read to. So with the lines below.
fn record_line(draft: &mut Draft, line: &[u8], c: Cursor, roles: &[u8; 4096]) -> Cursor {
    let word = cursor::which(line, c, b"node root focus tree");
    match word {
        0 => node_line::all_listed(draft, line, cursor::next(line, c), roles),
        1 => root(draft, line, c),
        2 => focus(draft, line, c),
        3 => tree(draft, line, c),
        _ => cursor::failed(c, faults::INSIDE),
    }
}

// The tree data.
fn root(draft: &mut Draft, line: &[u8], c: Cursor) -> Cursor {
    let d = node_line::once(draft, line, c, node_line::ROOT);
    let n = decimal::whole(line, d, u64::MAX, faults::NODE);
    draft::set_root(draft, n.number);
    n
}

// The focus.
fn focus(draft: &mut Draft, line: &[u8], c: Cursor) -> Cursor {
    let d = node_line::once(draft, line, c, node_line::FOCUS);
    let n = decimal::whole(line, d, u64::MAX, faults::NODE);
    draft::set_focus(draft, n.number);
    n
}

// The tree.
fn tree(draft: &mut Draft, line: &[u8], c: Cursor) -> Cursor {
    let d = node_line::once(draft, line, c, node_line::TREE);
    let n = decimal::tree(line, d, faults::TREE);
    draft::set_tree(draft, n.high, n.number);
    n
}

// The line that ends a call, which has said its focus.
fn ended(draft: &Draft, line: &[u8], c: Cursor) -> Cursor {
    if draft::is_said(draft, node_line::FOCUS) {
        return cursor::next(line, c);
    }
    cursor::failed(c, faults::FOCUS)
}

// ## Faults

// With the line's fault told, if it has one; words that are left over are one.
fn reported(out: &mut Out, call: Call, line: &[u8], number: u64, c: Cursor) -> Call {
    let mut d = c;
    if !cursor::is_done(c) {
        d = cursor::failed(c, faults::LINE_END);
    }
    if d.fault == 0 {
        return call;
    }
    faults::tell(out, number, line, d);
    let mut p = call;
    p.bad = true;
    p.faulty = true;
    p
}

// A call whose last line is read: due, unless a line was bad.
fn closed(out: &mut Out, call: Call) -> Call {
    if call.bad {
        return skipped(out, call);
    }
    let mut p = call;
    p.stage = DUE;
    p
}

// A call that is not run.
pub fn skipped(out: &mut Out, call: Call) -> Call {
    print::call(out, call.number, call.line);
    put(out, b"skipped\n");
    let mut p = finished(call);
    p.faulty = true;
    p
}

// A call that is run or skipped, or a question that is answered. Behind a question the next call's number is still expected.
pub fn finished(call: Call) -> Call {
    let mut p = call;
    p.stage = NONE;
    if call.kind != ASK {
        p.expected = None;
    }
    p
}
