// The line `ask NODE QUESTION`, read word by word.
use ids::{FullNodeId, NodeId, TreeIndex};
use program_text::cursor::Cursor;
use program_text::{cursor, decimal, faults};

// What can be asked, by its place in `which_question`: what a node has itself or from its ancestors (the last, 4, is its box), lists, one node (the
// last, 15, is the deepest last filtered child), and what a filter says.
pub(crate) const READ: u64 = 0;

pub(crate) const LABEL: u64 = 1;

pub(crate) const HIDDEN: u64 = 2;

pub(crate) const TRANSFORM: u64 = 3;

pub(crate) const CHILDREN: u64 = 5;

pub(crate) const FILTERED_CHILDREN: u64 = 6;

pub(crate) const SIBLINGS: u64 = 7;

const FILTERED_SIBLINGS: u64 = 8;

pub(crate) const PARENT: u64 = 9;

pub(crate) const WALK: u64 = 10;

pub(crate) const FILTERED_PARENT: u64 = 11;

pub(crate) const FIRST_CHILD: u64 = 12;

pub(crate) const LAST_CHILD: u64 = 13;

pub(crate) const DEEPEST_FIRST_CHILD: u64 = 14;

pub(crate) const FILTER: u64 = 16;

// How many there are.
const QUESTIONS: u64 = 17;

// How many filters, and how many sides.
const FILTERS: u64 = 3;

const SIDES: u64 = 2;

// A question: of which node, what, and what stands behind that.
#[derive(Clone, Copy)]
pub(crate) struct Question {
    pub(crate) id: FullNodeId,
    pub(crate) what: u64,
    // 0 following, 1 preceding.
    pub(crate) side: u64,
    // 0 none, 1 `common_filter`, 2 with the root exception, 3 without parent checks.
    pub(crate) filter: u64,
    // How many siblings a walk has handed out.
    pub(crate) count: u64,
    // Where the line was read to.
    pub(crate) at: Cursor,
}

// The question that a line asks, its first word being `ask`.
pub(crate) fn read(line: &[u8]) -> Question {
    let q = with_node(line, cursor::next(line, cursor::first(line)));
    let worded = with_word(line, q);
    let sided = with_side(line, worded);
    let filtered = with_filter(line, sided);
    ended(with_count(line, filtered))
}

// Which question a word asks.
fn which_question(line: &[u8], c: Cursor) -> u64 {
    cursor::which(
        line,
        c,
        b"read label hidden transform box \
        children filtered-children siblings filtered-siblings \
        parent walk filtered-parent first-child last-child deepest-first-child deepest-last-child \
        filter",
    )
}

// The node: a number, of ROOT's tree, or a tree's number and a node's, as ids are printed.
fn with_node(line: &[u8], c: Cursor) -> Question {
    if cursor::first_byte(line, c) == b'(' {
        let tree = enclosed(line, c, 1, b',', 4294967295);
        let node = enclosed(line, tree, 0, b')', u64::MAX);
        return about(tree.number, node);
    }
    about(0, decimal::whole(line, c, u64::MAX, faults::ASKED_NODE))
}

// A question about the node whose number was read last.
fn about(tree: u64, c: Cursor) -> Question {
    Question {
        id: FullNodeId {
            tree: TreeIndex((tree % 4294967296) as u32),
            node: NodeId(c.number),
        },
        what: 0,
        side: 0,
        filter: 0,
        count: 0,
        at: c,
    }
}

// A whole number with so many bytes before it and one byte behind it: `(1,` or `5)`.
fn enclosed(line: &[u8], c: Cursor, before: usize, last: u8, most: u64) -> Cursor {
    let mut inside = c;
    inside.from = std::num::wrapping_add_usize(c.from, before);
    inside.end = std::num::wrapping_sub_usize(c.end, 1);
    let d = decimal::whole(line, inside, most, faults::ASKED_NODE);
    if (d.fault != 0) | (record_wire::u8_at(line, inside.end) != last) {
        return cursor::failed(c, faults::ASKED_NODE);
    }
    let mut e = c;
    e.number = d.number;
    cursor::next(line, e)
}

// With the word of the question.
fn with_word(line: &[u8], q: Question) -> Question {
    let c = q.at;
    let mut r = q;
    r.what = which_question(line, c);
    past_word(line, r, r.what < QUESTIONS, faults::QUESTION)
}

// With the side, where the question has one.
fn with_side(line: &[u8], q: Question) -> Question {
    if !has_side(q.what) {
        return q;
    }
    let c = q.at;
    let mut r = q;
    r.side = cursor::which(line, c, b"following preceding");
    past_word(line, r, r.side < SIDES, faults::SIDE)
}

// With the filter, where the question has one. A walk may have none.
fn with_filter(line: &[u8], q: Question) -> Question {
    if !has_filter(q.what) {
        return q;
    }
    let c = q.at;
    let filter = cursor::which(line, c, b"common root-exception without-parent-checks");
    if (q.what == WALK) & (FILTERS <= filter) {
        return q;
    }
    let mut r = q;
    r.filter = std::num::wrapping_add_u64(filter, 1);
    past_word(line, r, filter < FILTERS, faults::FILTER)
}

// With the count, where the question is a walk.
fn with_count(line: &[u8], q: Question) -> Question {
    if q.what != WALK {
        return q;
    }
    let c = q.at;
    let d = decimal::whole(line, c, u64::MAX, faults::COUNT);
    let mut r = q;
    r.count = d.number;
    r.at = d;
    r
}

// Where nothing more may stand in the line.
fn ended(q: Question) -> Question {
    let c = q.at;
    if cursor::is_done(c) {
        return q;
    }
    let d = cursor::failed(c, faults::LINE_END);
    let mut r = q;
    r.at = d;
    r
}

// Past a word, or with a fault at it.
fn past_word(line: &[u8], q: Question, good: bool, fault: u8) -> Question {
    let c = q.at;
    let d = if good {
        cursor::next(line, c)
    } else {
        cursor::failed(c, fault)
    };
    let mut r = q;
    r.at = d;
    r
}

// Whether a question has a side.
fn has_side(what: u64) -> bool {
    (what == SIBLINGS) | (what == FILTERED_SIBLINGS) | (what == WALK)
}

// Whether a question has a filter.
fn has_filter(what: u64) -> bool {
    (what == FILTERED_CHILDREN)
        | (what == FILTERED_SIBLINGS)
        | ((WALK <= what) & (what < QUESTIONS))
}
