// The reasons of `explain` in words, and one mend where it is known. Proved safe and ending, no more; nothing is worked out here.
#![tactic(auto)]

use batchcheck_record::malformed;
use calls::explain::{Explanation, Way};
use ids::{FullNodeId, NodeId, TreeIndex};
use program_text::print::{Out, of_node, of_number, put, put_line, tell_line};
use record_layout::Offence;
use replies::OptionalId;

// Numbers of document 01's table that have words of their own.
const STATE: u32 = 1;

const RECORD: u32 = 2;

const LISTED_TWICE: u32 = 5;

const NAMED_TWICE: u32 = 9;

const GRAFTED_TWICE: u32 = 12;

const EMPTY_GRAFT: u32 = 15;

const FOCUS: u32 = 17;

const GONE: u32 = 18;

const OUTCOME: u32 = 19;

const SLICE: u32 = 21;

// Rules of a sound state that have words of their own.
const NEVER_MET: u32 = 6;

const WRONG_LINK: u32 = 7;

// Why a call gets its number; `batch` is its record.
pub fn because<'a>(out: &mut Out, e: Explanation, way: &'a Way, batch: &'a [u8]) {
    if e.number == RECORD {
        malformed::reason(out, batch, offence(e));
        return;
    }
    if (e.number == EMPTY_GRAFT) | (e.number == FOCUS) {
        led(out, way, e.place);
    }
    if (e.number == STATE) | (e.number == OUTCOME) {
        broken(out, e);
        return;
    }
    row(out, e);
    more(out, e);
}

// Rule and offset of a record.
fn offence(e: Explanation) -> Offence {
    Offence {
        rule: (e.rule % 256) as u8,
        offset: e.place,
    }
}

// The id of a node, 0 in ROOT where there is none.
fn id_of(x: OptionalId) -> FullNodeId {
    FullNodeId {
        tree: TreeIndex(x.tree),
        node: NodeId(x.node),
    }
}

// What a row says: `@` is the node at fault, `&` the other one, `$` the tree, `#` a count.
fn row(out: &mut Out, e: Explanation) {
    tell_line(
        out,
        b"\n\n\n\
        the start gives no root\n\
        the start is for $\n\
        node @ is listed twice\n\
        $ is given a root, but no node grafts it\n\
        $ does not exist, and the batch gives it no root\n\
        $ is new, and the 32 tree numbers are all taken\n\
        node & names the child @\n\
        node @ grafts a tree and has children\n\
        node @ grafts ROOT\n\
        node @ grafts $\n\
        node @ is new, and no listed node names it as a child\n\
        node & names the child @, which is neither present nor listed\n\
        the focus would be node @, which grafts $, and that tree does not exist\n\
        ROOT's root @ would be absent\n\
        the focus would be node @, which would be absent\n\
        node @ is listed with other data than before, but would go\n\
        \n\
        there would be # nodes, at most 256\n\
        the lists take # elements, two a node\n",
        e.number as u64,
        id_of(e.node),
        id_of(other(e)),
        e.tree,
        e.place as u64,
    );
}

// The other node of a row.
fn other(e: Explanation) -> OptionalId {
    if e.number == NAMED_TWICE {
        return e.also;
    }
    e.by
}

// What some rows say besides.
fn more(out: &mut Out, e: Explanation) {
    let number = e.number;
    match number {
        LISTED_TWICE => places(out, e),
        NAMED_TWICE => second_namer(out, e),
        GRAFTED_TWICE => second_graft(out, e),
        GONE => lost(
            out,
            e,
            b"; node @ names it no more",
            b": the tree gets another root",
        ),
        SLICE => of_number(out, b", and # were lent", e.other as u64),
        _ => put(out, b""),
    }
}

// 5: where.
fn places(out: &mut Out, e: Explanation) {
    of_number(out, b", at place #", e.other as u64);
    of_number(out, b" and at place #", e.place as u64);
}

// 9: who names the child again.
fn second_namer(out: &mut Out, e: Explanation) {
    if e.by == e.also {
        put(out, b" twice");
        return;
    }
    of_node(out, b", and so does node @", id_of(e.by));
}

// 12: who grafts the tree already: another node of the batch, or one that keeps it.
fn second_graft(out: &mut Out, e: Explanation) {
    if e.rule == 1 {
        of_node(out, b", and so does node @", id_of(e.also));
        return;
    }
    of_node(out, b", which node @ holds and keeps", id_of(e.also));
}

// 15 and 17: the grafts on the way to the last node.
fn led(out: &mut Out, way: &Way, length: usize) {
    for i in 0..length.saturating_sub(1).min(32) {
        of_node(
            out,
            b"the focus is node @, which is a graft; ",
            step(way, i),
        );
    }
}

// Node i of a way.
fn step(way: &Way, i: usize) -> FullNodeId {
    let at = 2 * (i % 33);
    let tree = (way[at] % 4294967296) as u32;
    FullNodeId {
        tree: TreeIndex(tree),
        node: NodeId(way[at + 1]),
    }
}

// 18, and nodes that are never met: the topmost node that lost its place, and by whom (`one`), or that it was nobody (`alone`).
fn lost(out: &mut Out, e: Explanation, one: &[u8], alone: &[u8]) {
    if e.also.present == 0 {
        return;
    }
    if e.node != e.also {
        of_node(out, b"; it hangs on node @", id_of(e.also));
    }
    if e.by.present == 0 {
        put(out, alone);
        return;
    }
    of_node(out, one, id_of(e.by));
}

// 1 and 19: the rule of a sound state.
fn broken(out: &mut Out, e: Explanation) {
    tell_line(
        out,
        b"the state breaks a rule\n\
        there are more than 256 nodes\n\
        there are more than 32 tree numbers\n\
        node @ has more than 256 children\n\
        node @, a child of node & or the root of the tree that it grafts, is absent\n\
        more than one way leads down to node @\n\
        node @ stays, and no way leads down to it\n\
        node @ \n\
        the graft @ has children\n\
        node @ grafts $, and so does a later node\n\
        ROOT does not exist, or does not have number 0\n\
        tree number # is that of $, which has an earlier one\n\
        $ exists, and its root is absent or no node grafts it\n\
        the ids do not ascend after node @\n\
        a field of node @ breaks the record's rules\n\
        the effective focus is absent\n",
        e.rule as u64,
        id_of(e.node),
        id_of(e.by),
        e.tree,
        e.place as u64,
    );
    if e.rule == NEVER_MET {
        lost(
            out,
            e,
            b"; its parent, node @, is gone or does not name it",
            b", which has no parent",
        );
    }
    if e.rule == WRONG_LINK {
        link(out, e);
    }
}

// A link that disagrees with the way down.
fn link(out: &mut Out, e: Explanation) {
    if e.by == e.also {
        of_node(
            out,
            b"records another place under node @ than it has",
            id_of(e.by),
        );
        return;
    }
    parent(
        out,
        e.by,
        b"records node @ as its parent",
        b"records no parent",
    );
    parent(
        out,
        e.also,
        b", and stands under node @",
        b", and is the root",
    );
}

// A parent, or none.
fn parent(out: &mut Out, x: OptionalId, one: &[u8], none: &[u8]) {
    if x.present == 0 {
        put(out, none);
        return;
    }
    of_node(out, one, id_of(x));
}

// How to mend the call, where one mend is known: a line of its own.
pub fn mend(out: &mut Out, e: Explanation) {
    if e.number == RECORD {
        return;
    }
    put(out, b"\n  mend:    ");
    if e.number == OUTCOME {
        mend_outcome(out, e.rule as u64);
        return;
    }
    tell_line(
        out,
        b"\n\
        first a start that is accepted\n\
        \n\
        say what the root is\n\
        start ROOT; the pane comes in a batch, once a node grafts it\n\
        list the node once, as it is in the end\n\
        first a batch of the tree above, with a node that grafts $\n\
        send the whole pane, with its root\n\
        use the tree id of a pane that is closed\n\
        let one node name it, its parent from now on\n\
        list the graft without children\n\
        give the tree id of the pane\n\
        list the other node too, without the graft\n\
        list its parent too, with it among the children\n\
        list the child in the same batch\n\
        leave the focus where it is until the pane is there\n\
        list the root\n\
        set the focus to a node that stays\n\
        do not list what goes, or let a node name it\n\
        \n\
        send the part that is on the screen\n\
        lend # elements\n",
        e.number as u64,
        id_of(e.node),
        id_of(e.by),
        e.tree,
        e.place as u64,
    );
}

// 19, by the rule.
fn mend_outcome(out: &mut Out, rule: u64) {
    put_line(
        out,
        b"docs/NUMBERS.md has the rules\n\
        \n\
        \n\
        \n\
        list the absent node\n\
        a node that moved: list its old parent too, without it; a node is never above itself\n\
        a node that its parent drops goes if it is not listed, or listed before it unchanged; to keep it, let a node name it\n\
        list ROOT's new root too\n",
        rule,
    );
}
