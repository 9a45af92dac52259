// What changed of a node that a batch updates: the names of what differs between the states before and after.
ghost use Rattle.std.specs.Prelude.{◌≤◌};

use batchcheck_nodes::print::{listed_id, node};
use ids::NodeId;
use program_text::print::{Out, put, put_line};
use state_array::State;

// How many things of a node are compared: the lines of `name`.
const THINGS: u64 = 11;

// The flags of a node, each by its bit.
const HIDDEN: u64 = 1;

const CLIPS: u64 = 2;

const ACTIVE: u64 = 4;

const GRAFT: u64 = 8;

const BOUNDS: u64 = 16;

const TRANSFORM: u64 = 32;

// The weight of a number's sign bit.
const SIGN: u64 = 9223372036854775808;

// The list of n updated nodes that starts at a place, each on a line of its own with what changed; where it ends.
pub(crate) fn changed_list<'a>(
    out: &mut Out,
    before: &'a State,
    now: &'a State,
    numbers: &'a [u64],
    from: usize,
    n: usize,
    roles: &'a [u8; 4096],
) -> usize {
    let mut at = from;
    for _ in 0..n {
        if numbers.len() <= at {
            break;
        }
        let x = listed_id(numbers, at);
        put(out, b"  updated  ");
        node(out, now, x, roles);
        let i = state_lookup::find_in(before, x);
        let j = state_lookup::find_in(now, x);
        names(out, before, i, now, j);
        put(out, b"\n");
        at = std::num::wrapping_add_usize(at, 2);
    }
    at
}

// The names of what differs between the nodes in a slot of one state and of another. Of a root that is given again nothing may differ.
fn names<'a>(out: &mut Out, before: &'a State, i: usize, now: &'a State, j: usize) {
    let mut told: u64 = 0;
    for k in 0..THINGS {
        if differs(before, i, now, j, k) {
            put_line(out, b": \n, \n", told);
            name(out, k);
            told = 1;
        }
    }
    if told == 0 {
        put(out, b": given again");
    }
}

// What thing k is called.
fn name(out: &mut Out, k: u64) {
    put_line(
        out,
        b"role\n\
        label\n\
        children\n\
        active descendant\n\
        graft\n\
        bounds\n\
        transform\n\
        hidden\n\
        clips\n\
        parent\n\
        place\n",
        k,
    );
}

// Whether thing k differs between the nodes in a slot of one state and of another.
fn differs<'a>(before: &'a State, i: usize, now: &'a State, j: usize, k: u64) -> bool {
    match k {
        0 => words_differ(before, i, now, j, state_array::ROLE, 1),
        1 => words_differ(before, i, now, j, state_array::LABEL_LENGTH, 5),
        2 => children_differ(before, i, now, j),
        3 | 4 | 7 | 8 => flagged_differs(before, i, now, j, k),
        5 => floats_differ(before, i, now, j, 0, 4) | flag_differs(before, i, now, j, BOUNDS),
        6 => floats_differ(before, i, now, j, 4, 6) | flag_differs(before, i, now, j, TRANSFORM),
        9 => words_differ(before, i, now, j, state_array::PARENT_TREE, 2)
            | words_differ(before, i, now, j, state_array::LINKED, 1),
        _ => words_differ(before, i, now, j, state_array::INDEX, 1),
    }
}

// The same of what has a flag and no numbers.
fn flagged_differs<'a>(before: &'a State, i: usize, now: &'a State, j: usize, k: u64) -> bool {
    match k {
        3 => words_differ(before, i, now, j, state_array::ACTIVE, 1)
            | flag_differs(before, i, now, j, ACTIVE),
        4 => words_differ(before, i, now, j, state_array::GRAFT_HIGH, 2)
            | flag_differs(before, i, now, j, GRAFT),
        7 => flag_differs(before, i, now, j, HIDDEN),
        _ => flag_differs(before, i, now, j, CLIPS),
    }
}

// Whether a flag differs.
fn flag_differs<'a>(before: &'a State, i: usize, now: &'a State, j: usize, bit: u64) -> bool {
    let d = state_array::shape_at(before, i);
    let e = state_array::shape_at(now, j);
    d.flags & bit != e.flags & bit
}

// Whether one of n fields differs, from a field on.
fn words_differ<'a>(
    before: &'a State,
    i: usize,
    now: &'a State,
    j: usize,
    first: usize,
    n: usize,
) -> bool
    requires first_bound { first ≤ 20 }
    requires n_bound { n ≤ 8 }
{
    (first..first + n).any(|field| {
        state_array::word_at(before, field, i) != state_array::word_at(now, field, j)
    })
}

// Whether two finite numbers differ by value: other bits, and not a zero each.
fn is_other(was: u64, bits: u64) -> bool {
    (was != bits) & ((was % SIGN != 0) | (bits % SIGN != 0))
}

// Whether one of n numbers differs by value, from a number on.
fn floats_differ<'a>(
    before: &'a State,
    i: usize,
    now: &'a State,
    j: usize,
    first: usize,
    n: usize,
) -> bool
    requires first_bound { first ≤ 4 }
    requires n_bound { n ≤ 6 }
{
    let from = state_array::FLOATS + first;
    (from..from + n).any(|field| {
        is_other(
            state_array::word_at(before, field, i),
            state_array::word_at(now, field, j),
        )
    })
}

// Whether the children differ.
fn children_differ<'a>(before: &'a State, i: usize, now: &'a State, j: usize) -> bool {
    let d = state_array::shape_at(before, i);
    let e = state_array::shape_at(now, j);
    if d.child_count != e.child_count {
        return true;
    }
    let n = (d.child_count % 512) as usize;
    entries_differ(before, d.first_child, now, e.first_child, n)
}

// Whether one of n child entries differs, from one place of each state on.
fn entries_differ<'a>(
    before: &'a State,
    first: u64,
    now: &'a State,
    second: u64,
    n: usize,
) -> bool {
    (0..n).any(|k| {
        let was = state_array::child_at(before, NodeId(0), first, k);
        let is = state_array::child_at(now, NodeId(0), second, k);
        was.0 != is.0
    })
}
