// Runs the calls through the library, and has each printed.
use crate::status::{RIGHT, UNREAD, good, worse};
use batchcheck_ask::answer::ask;
use batchcheck_calls::script;
use batchcheck_calls::script::Call;
use batchcheck_files::records;
use batchcheck_heard::items;
use batchcheck_nodes::draw::draw;
use batchcheck_record::draft;
use batchcheck_record::draft::Draft;
use batchcheck_say::Seen;
use program_text::lines::part;
use program_text::print::{Out, put};
use program_text::{cursor, faults};
use replies::Reply;
use state_array::State;

// What is printed beside the calls' answers, and how.
#[derive(Clone, Copy)]
pub(crate) struct Show {
    pub(crate) quiet: bool,
    pub(crate) tree: bool,
    pub(crate) heard: bool,
    // Whether a file has the numbers that the calls should answer.
    pub(crate) expect: bool,
    // The argument that names a file for records.
    pub(crate) record: Option<usize>,
}

// Runs a call that is due on a state, with its record; a question is answered from its line. The status of the call.
pub(crate) fn perform<'a>(
    rt: &HostRuntime,
    out: &mut Out,
    state: &mut State,
    p: Call,
    bytes: &'a [u8; 12489],
    line: &'a [u8],
    show: Show,
    roles: &'a [u8; 4096],
) -> u8 {
    if p.kind == script::ASK {
        return good(ask(out, state, line, p.line, roles));
    }
    if p.bad {
        return unread(out, p, line);
    }
    let batch = part(bytes, p.length);
    let kept = keep(rt, out, show.record, p, batch);
    let seen = batchcheck_say::unanswered(p.kind, p.number, p.line, p.expected, state, batch);
    let number = if show.quiet {
        answer_line(out, seen, state, batch, host_flag(p.focused), p.room, roles)
    } else {
        answer(out, seen, state, batch, host_flag(p.focused), p.room, roles)
    };
    show_state(out, state, show, roles);
    worse(kept, good(is_right(p.expected, number)))
}

// A call whose file cannot be read.
fn unread(out: &mut Out, p: Call, line: &[u8]) -> u8 {
    if let Some(name) = p.raw {
        faults::tell(out, p.line, line, cursor::failed(name, faults::FILE));
    }
    script::skipped(out, p);
    UNREAD
}

// Whether a call answers what it should, or is taken where nothing is said.
fn is_right(expected: Option<u64>, number: u32) -> bool {
    number as u64 == expected.unwrap_or(0)
}

// The state after a call, as the options ask for it.
fn show_state<'a>(out: &mut Out, state: &'a State, show: Show, roles: &'a [u8; 4096]) {
    if show.tree {
        draw(out, state, roles);
    }
    if show.heard {
        items(out, state, roles);
    }
}

// A call with its record put into `bytes`, which are zeros: what its draft has, or a file that its line names. `name` is the text's own. It is bad
// where the file cannot be read.
pub(crate) fn loaded<'a>(
    rt: &HostRuntime,
    call: Call,
    draft: &'a Draft,
    line: &'a [u8],
    name: &'a [u8],
    bytes: &mut [u8; 12489],
) -> Call {
    let mut p = call;
    if (call.kind == script::HOST) | (call.kind == script::ASK) {
        return p;
    }
    if let Some(place) = call.raw {
        match records::read_beside(rt, name, cursor::word(line, place), bytes) {
            Ok(length) => p.length = length,
            Err(_) => p.bad = true,
        }
        return p;
    }
    p.length = draft::write(draft, bytes);
    p
}

// Writes the record of a start or a batch to the file that an argument names, if one does.
fn keep(rt: &HostRuntime, out: &mut Out, argument: Option<usize>, p: Call, batch: &[u8]) -> u8 {
    let Some(i) = argument else {
        return RIGHT;
    };
    if p.kind == script::HOST {
        return RIGHT;
    }
    let mut text = [0u8; 4096];
    let n = batchcheck_options::argument(rt, i, &mut text);
    let name = &text[..n];
    if records::write(rt, name, p.number, batch).is_ok() {
        return RIGHT;
    }
    put(out, name);
    put(out, b": cannot be written\n");
    UNREAD
}

// Whether the host has the focus, as the library takes it.
fn host_flag(focused: bool) -> u32 {
    if focused { 1 } else { 0 }
}

// Makes the call and prints its block; its number.
fn answer<'a>(
    out: &mut Out,
    seen: Seen,
    state: &mut State,
    batch: &'a [u8],
    host_focused: u32,
    room: usize,
    roles: &'a [u8; 4096],
) -> u32 {
    let mut changes = [0u64; 1024];
    let before = *state;
    let reply = made(seen.kind, state, batch, host_focused, &mut changes, room);
    let told = batchcheck_say::answered(seen, reply);
    let lent = first(&changes, room);
    batchcheck_say::tell(out, told, &before, state, batch, lent, roles);
    reply.number
}

// The same in one line.
fn answer_line<'a>(
    out: &mut Out,
    seen: Seen,
    state: &mut State,
    batch: &'a [u8],
    host_focused: u32,
    room: usize,
    roles: &'a [u8; 4096],
) -> u32 {
    let mut changes = [0u64; 1024];
    let reply = made(seen.kind, state, batch, host_focused, &mut changes, room);
    let told = batchcheck_say::answered(seen, reply);
    batchcheck_say::tell_line(out, told, state, batch, room, roles);
    reply.number
}

// The first n elements, or all.
fn first(changes: &[u64; 1024], n: usize) -> &[u64] {
    let all: &[u64] = changes;
    if n < all.len() {
        return &all[0..n];
    }
    all
}

// Makes the call.
fn made(
    kind: u8,
    state: &mut State,
    batch: &[u8],
    host_focused: u32,
    changes: &mut [u64],
    room: usize,
) -> Reply {
    match kind {
        script::START => calls::start(state, batch, host_focused),
        script::BATCH => update(state, batch, changes, room),
        _ => calls::host_focus(state, host_focused),
    }
}

// A batch, with `room` elements lent for the lists.
fn update(state: &mut State, batch: &[u8], changes: &mut [u64], room: usize) -> Reply {
    if room < changes.len() {
        return calls::update(state, batch, &mut changes[0..room]);
    }
    calls::update(state, batch, changes)
}
