// What `batchcheck` says of a call: a block, or one line. Proved safe and ending, no more.
#![tactic(auto)]

mod differences;

ghost use Rattle.std.specs.Prelude.{◌<◌};

use batchcheck_nodes::draw;
use batchcheck_nodes::print::{heard, list, node, row, sizes};
use calls::explain;
use calls::explain::{Explanation, Way};
use differences::changed_list;
use ids::{FullNodeId, NodeId, TreeId, TreeIndex};
use program_text::print;
use program_text::print::{Out, count, number, put, put_line, tree_name};
use replies::{Lengths, OptionalId, Reply, Report};
use state_array::State;

// Kinds of calls.
const START: u8 = 0;

const BATCH: u8 = 1;

// Where a number is expected and the file of them has none: no number of document 01's table.
pub const MISSING: u64 = 254;

// A call and how it is told. `kind`: 0 start, 1 batch, 2 host focus change. `line`: where the call begins. `call`: its place in the file, from 1.
#[derive(Clone, Copy)]
pub struct Seen {
    pub kind: u8,
    pub call: u64,
    pub line: u64,
    // The number that it should answer, where one is said.
    pub expected: Option<u64>,
    // The focus that the batch's tree kept before it, where the tree existed.
    pub focus: Option<u64>,
    // What it answers.
    pub reply: Reply,
}

// A call on a state, before it is made.
pub fn unanswered<'a>(
    kind: u8,
    call: u64,
    line: u64,
    expected: Option<u64>,
    state: &'a State,
    batch: &'a [u8],
) -> Seen {
    let none = no_reply();
    let t = state_array::tree_at(
        state,
        state_lookup::find_tree(state, record_reader::tree_id(batch)),
    );
    let focus = t.focus;
    Seen {
        kind,
        call,
        line,
        expected,
        focus: (t.exists != 0).then_some(focus.0),
        reply: none,
    }
}

// A call with its answer.
pub fn answered(seen: Seen, reply: Reply) -> Seen {
    let mut s = seen;
    s.reply = reply;
    s
}

// Prints a call's block. `before` and `now` are the state before and after the call, `batch` the record handed in (empty for a host focus
// change), `changes` the lent slice afterwards, `roles` 16 bytes a role number, zeros after its name.
pub fn tell<'a>(
    out: &mut Out,
    seen: Seen,
    before: &'a State,
    now: &'a State,
    batch: &'a [u8],
    changes: &'a [u64],
    roles: &'a [u8; 4096],
) {
    let r = seen.reply;
    print::call(out, seen.call, seen.line);
    heading(out, seen.kind, r.number, now, batch);
    if r.number != 0 {
        refused(out, seen.kind, now, row_of(r), batch, changes.len());
    } else {
        taken(out, seen, before, now, batch, changes, roles);
    }
    put_line(
        out,
        b"\n  as expected\n  WRONG: \n",
        verdict(seen.expected, r.number),
    );
    told_wrong(out, seen.expected, r.number);
    if seen.expected.is_some() {
        put(out, b"\n");
    }
}

// Prints a call's line. A refused call leaves the state as it was, so the reason is found in the state after it.
pub fn tell_line<'a>(
    out: &mut Out,
    seen: Seen,
    now: &'a State,
    batch: &'a [u8],
    room: usize,
    roles: &'a [u8; 4096],
) {
    let r = seen.reply;
    print::call(out, seen.call, seen.line);
    if r.number != 0 {
        put(out, b"refused ");
        row(out, row_of(r));
        put(out, b": ");
        because(out, seen.kind, now, batch, room, false);
    } else {
        put(out, b"taken");
        how_many(out, seen, now, r.lengths, batch);
        put(out, b", heard ");
        heard(out, now, found(r.report.focus_after), roles);
    }
    put_line(
        out,
        b"\n, as expected\n; WRONG: \n",
        verdict(seen.expected, r.number),
    );
    told_wrong(out, seen.expected, r.number);
    put(out, b"\n");
}

// Before there is an answer.
fn no_reply() -> Reply {
    let none = OptionalId {
        node: 0,
        tree: 0,
        present: 0,
    };
    Reply {
        lengths: Lengths {
            added: 0,
            updated: 0,
            removed: 0,
            relinked: 0,
        },
        report: Report {
            focus_before: none,
            focus_after: none,
            extra_before: none,
            extra_after: none,
        },
        number: 0,
    }
}

// The number of document 01's table.
fn row_of(r: Reply) -> u8 {
    (r.number % 256) as u8
}

// An id, or none.
fn found(x: OptionalId) -> Option<FullNodeId> {
    if x.present == 0 {
        return None;
    }
    Some(FullNodeId {
        tree: TreeIndex(x.tree),
        node: NodeId(x.node),
    })
}

// ## What was expected

// 0 where no number is expected, 1 where the answer is right, 2 where it is wrong.
fn verdict(expected: Option<u64>, answered: u32) -> u64 {
    match expected {
        Some(n) if n == answered as u64 => 1,
        Some(_) => 2,
        None => 0,
    }
}

// What should have been answered, where it was not.
fn told_wrong(out: &mut Out, expected: Option<u64>, answered: u32) {
    match expected {
        Some(n) if n == answered as u64 => {}
        Some(MISSING) => put(out, b"there is no number for it"),
        Some(n) => {
            put(out, b"expected ");
            row(out, (n % 256) as u8);
        }
        None => {}
    }
}

// ## One line

// How many nodes a start has, or the lists of a batch.
fn how_many<'a>(out: &mut Out, seen: Seen, now: &'a State, l: Lengths, batch: &'a [u8]) {
    let kind = seen.kind;
    match kind {
        START => start_size(out, state_array::slots(now) as u64),
        BATCH => lengths(out, seen, now, l, batch),
        _ => {}
    }
}

// How many nodes a start has.
fn start_size(out: &mut Out, n: u64) {
    put(out, b", ");
    count(out, n, b" node", b" nodes");
}

// How many nodes each list has, and the focus that the tree keeps where that changed or is absent.
fn lengths<'a>(out: &mut Out, seen: Seen, now: &'a State, l: Lengths, batch: &'a [u8]) {
    length(out, l.added, b" added");
    length(out, l.updated, b" updated");
    length(out, l.removed, b" removed");
    length(out, l.relinked, b" relinked");
    let k = state_lookup::find_tree(now, record_reader::tree_id(batch));
    if focus_is_told(seen, now, k) {
        put(out, b", ");
        draw::kept_focus(out, now, k);
        return;
    }
    if nothing_listed(l) {
        put(out, b", nothing changed");
    }
}

// How many nodes a list has, unless it has none.
fn length(out: &mut Out, n: usize, text: &[u8]) {
    if n < 1 {
        return;
    }
    print::of_number(out, b", #", n as u64);
    put(out, text);
}

// Whether all four lists are empty.
fn nothing_listed(l: Lengths) -> bool {
    (l.added == 0) & (l.updated == 0) & (l.removed == 0) & (l.relinked == 0)
}

// Whether the tree with a number keeps another focus than before, or one that is absent.
fn focus_is_told(seen: Seen, now: &State, k: usize) -> bool {
    let t = state_array::tree_at(now, k);
    let node = t.focus;
    let x = FullNodeId {
        tree: TreeIndex((k % 4294967296) as u32),
        node,
    };
    seen.focus.is_some_and(|focus| focus != node.0) | draw::present(now, x).is_none()
}

// ## A block

// A call that is taken.
fn taken<'a>(
    out: &mut Out,
    seen: Seen,
    before: &'a State,
    now: &'a State,
    batch: &'a [u8],
    changes: &'a [u64],
    roles: &'a [u8; 4096],
) {
    let r = seen.reply;
    put(out, b"  taken: ");
    row(out, 0);
    put(out, b"\n");
    let kind = seen.kind;
    match kind {
        START => {}
        BATCH => changed(out, seen, before, now, batch, changes, roles),
        _ => host(out, state_array::host(now)),
    }
    report(out, before, now, r.report, roles);
    put(out, b"  now ");
    sizes(out, now);
}

// The extra ids, and what is heard before and now.
fn report<'a>(out: &mut Out, before: &'a State, now: &'a State, r: Report, roles: &'a [u8; 4096]) {
    extra(out, now, found(r.extra_before), roles);
    extra(out, now, found(r.extra_after), roles);
    put(out, b"  heard before: ");
    heard(out, before, found(r.focus_before), roles);
    put(out, b"\n  heard now:    ");
    heard(out, now, found(r.focus_after), roles);
    put(out, b"\n");
}

// An extra id, unless there is none.
fn extra<'a>(out: &mut Out, now: &'a State, x: Option<FullNodeId>, roles: &'a [u8; 4096]) {
    let Some(y) = x else {
        return;
    };
    put(out, b"  extra    ");
    node(out, now, y, roles);
    put(out, b"\n");
}

// What kind of call it is and, unless its bytes are no record, for which tree.
fn heading<'a>(out: &mut Out, kind: u8, answered: u32, now: &'a State, batch: &'a [u8]) {
    put_line(out, b"start\nbatch\nhost focus change\n", kind as u64);
    if (kind <= BATCH) & (answered != 2) {
        for_tree(out, now, batch);
    }
    put(out, b"\n");
}

// The tree that a record is for; of a pane also its number in the state that stands.
fn for_tree<'a>(out: &mut Out, now: &'a State, batch: &'a [u8]) {
    put(out, b" for ");
    let t = record_reader::tree_id(batch);
    tree_name(out, t);
    let k = state_lookup::find_tree(now, t);
    if (0 < k) & (k < state_array::trees(now)) {
        put(out, b", number ");
        number(out, k as u64);
    }
}

// Whether the host has the focus now.
fn host(out: &mut Out, host_focused: u64) {
    if host_focused == 0 {
        put(out, b"  the host does not have the focus now\n");
        return;
    }
    put(out, b"  the host has the focus now\n");
}

// A refused call: its number, the reason, and the state that stands.
fn refused<'a>(out: &mut Out, kind: u8, now: &'a State, n: u8, batch: &'a [u8], room: usize) {
    put(out, b"  refused: ");
    row(out, n);
    put(out, b"\n  because  ");
    because(out, kind, now, batch, room, true);
    put(out, b"\n  the state is ");
    put_line(out, b"blank: \nas it was: \nas it was: \n", kind as u64);
    sizes(out, now);
}

// The reason why a call on a state is refused, in words, with a line that mends it where `mended`. A tree that the batch would have made is told by
// its id.
fn because<'a>(
    out: &mut Out,
    kind: u8,
    state: &'a State,
    batch: &'a [u8],
    room: usize,
    mended: bool,
) {
    let mut way = [0u64; 66];
    let e = explained(kind, state, batch, room, &mut way);
    if (kind == BATCH) & (e.number != 2) {
        let t = record_reader::tree_id(batch);
        print::name_unborn(out, unborn(state, t), t);
    }
    batchcheck_reasons::because(out, e, &way, batch);
    if mended {
        batchcheck_reasons::mend(out, e);
    }
    print::name_unborn(out, 0, TreeId { high: 0, low: 0 });
}

// What `explain` says of a start, or of a batch or a host focus change on a state.
fn explained<'a, 'b>(
    kind: u8,
    state: &'a State,
    batch: &'a [u8],
    room: usize,
    way: &'b mut Way,
) -> Explanation {
    if kind == START {
        let mut memory = state_array::blank();
        return explain::explain_start(&mut memory, batch, way);
    }
    explain::explain(state, batch, room, way)
}

// The number that a tree without one would get, 0 where it has one.
fn unborn(state: &State, t: TreeId) -> usize {
    let k = state_lookup::find_tree(state, t);
    if k < state_array::trees(state) { 0 } else { k }
}

// The four lists, and the focus that the tree keeps where that changed or is absent.
fn changed<'a>(
    out: &mut Out,
    seen: Seen,
    before: &'a State,
    now: &'a State,
    batch: &'a [u8],
    changes: &'a [u64],
    roles: &'a [u8; 4096],
) {
    let r = seen.reply;
    let l = r.lengths;
    lists(out, before, now, l, changes, roles);
    let k = state_lookup::find_tree(now, record_reader::tree_id(batch));
    if focus_is_told(seen, now, k) {
        put(out, b"  ");
        draw::kept_focus(out, now, k);
        put(out, b"\n");
        return;
    }
    if nothing_listed(l) {
        put(out, b"  nothing changed\n");
    }
}

// The four lists. A removed node is shown as it was, the others as they are.
fn lists<'a>(
    out: &mut Out,
    before: &'a State,
    now: &'a State,
    l: Lengths,
    changes: &'a [u64],
    roles: &'a [u8; 4096],
) {
    let updated_at = list(out, b"  added    ", now, changes, 0, l.added, roles);
    let removed_at = changed_list(out, before, now, changes, updated_at, l.updated, roles);
    let relinked_at = list(
        out,
        b"  removed  ",
        before,
        changes,
        removed_at,
        l.removed,
        roles,
    );
    list(
        out,
        b"  relinked ",
        now,
        changes,
        relinked_at,
        l.relinked,
        roles,
    );
}
