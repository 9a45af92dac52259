// What a question answers, in a line or a line for each node.
use crate::question;
use crate::question::Question;
use batchcheck_floats::{value, values};
use batchcheck_nodes::print;
use geometry::{Affine, Rect};
use geometry_box::BoundingBox;
use ids::{FullNodeId, NodeId, TreeId};
use node_answers::{NodeReading, Refusal};
use program_text::print::{Out, count, of_number, put, tree_name};
use program_text::{cursor, faults};
use question_calls::{iterators, node, walk};
use questions::{Filter, FilterResult, Side, Walk};
use state_array::State;

// Answers the question of a line, or says what is wrong with the line; whether it is good.
pub fn ask<'a>(
    out: &mut Out,
    state: &'a State,
    line: &'a [u8],
    number: u64,
    roles: &'a [u8; 4096],
) -> bool {
    let q = question::read(line);
    let c = q.at;
    if c.fault != 0 {
        faults::tell(out, number, line, c);
        return false;
    }
    of_number(out, b"line #:", number);
    words(out, line);
    answer(out, state, q, roles);
    true
}

// The words of a line, a space before each.
fn words(out: &mut Out, line: &[u8]) {
    let mut c = cursor::first(line);
    for _ in 0..line.len() {
        if cursor::is_done(c) {
            break;
        }
        put(out, b" ");
        put(out, cursor::word(line, c));
        c = cursor::next(line, c);
    }
    put(out, b"\n");
}

// Asks and tells the answer, or the number with which the question is refused.
fn answer<'a>(out: &mut Out, state: &'a State, q: Question, roles: &'a [u8; 4096]) {
    if let Err(refusal) = tell(out, state, q, roles) {
        put(out, b"  refused: ");
        print::row(out, refusal.number());
        put(out, b"\n");
    }
}

// The same of a question that is not refused.
fn tell<'a>(
    out: &mut Out,
    state: &'a State,
    q: Question,
    roles: &'a [u8; 4096],
) -> Result<(), Refusal> {
    let id = q.id;
    let what = q.what;
    if what < question::CHILDREN {
        return own(out, state, id, what, roles);
    }
    if what < question::PARENT {
        return list(out, state, id, what, q.side, q.filter, roles);
    }
    if what < question::FILTER {
        let found = one_node(state, id, what, q.side, q.filter, q.count)?;
        tell_node(out, state, found, roles);
        return Ok(());
    }
    let result = question_calls::filter(state, id, filter_of(q.filter))?;
    tell_result(out, result);
    Ok(())
}

// The side that a number means.
fn side_of(side: u64) -> Side {
    if side == 0 {
        Side::Following
    } else {
        Side::Preceding
    }
}

// The filter that a number means.
fn filter_of(filter: u64) -> Filter {
    match filter {
        1 => Filter::Common,
        2 => Filter::WithRootException,
        _ => Filter::WithoutParentChecks,
    }
}

// ## What a node has itself or from its ancestors

// The questions about one node alone.
fn own<'a>(
    out: &mut Out,
    state: &'a State,
    id: FullNodeId,
    what: u64,
    roles: &'a [u8; 4096],
) -> Result<(), Refusal> {
    match what {
        question::READ => tell_reading(out, node::read(state, id)?, roles),
        question::LABEL => tell_label(out, state, id)?,
        question::HIDDEN => tell_hidden(out, node::is_hidden(state, id)?),
        question::TRANSFORM => tell_transform(out, node::transform(state, id)?),
        _ => tell_box(out, node::bounding_box(state, id)?),
    }
    Ok(())
}

// What a node says of itself, in the words of a node line.
fn tell_reading(out: &mut Out, r: NodeReading, roles: &[u8; 4096]) {
    put(out, b"  ");
    print::role(out, roles, r.role as u64);
    put(out, b", ");
    count(
        out,
        r.label_length as u64,
        b" label byte, ",
        b" label bytes, ",
    );
    count(out, r.child_count as u64, b" child", b" children");
    tell_flag(out, r.hidden, b", hidden");
    tell_flag(out, r.clips_children, b", clips");
    tell_active(out, r.active_descendant);
    tell_graft(out, r.graft);
    tell_bounds(out, r.bounds);
    tell_own_transform(out, r.transform);
    put(out, b"\n");
}

// A flag that is set.
fn tell_flag(out: &mut Out, set: bool, word: &[u8]) {
    if set {
        put(out, word);
    }
}

// The active descendant, if there is one; so with the three below.
fn tell_active(out: &mut Out, active: Option<NodeId>) {
    match active {
        Some(n) => of_number(out, b", active #", n.0),
        None => {}
    }
}

// The graft.
fn tell_graft(out: &mut Out, graft: Option<TreeId>) {
    let Some(t) = graft else {
        return;
    };
    put(out, b", grafts ");
    tree_name(out, t);
}

// The bounds.
fn tell_bounds(out: &mut Out, bounds: Option<Rect>) {
    let Some(r) = bounds else {
        return;
    };
    put(out, b", bounds");
    values(out, r.x0, r.y0, r.x1, r.y1);
}

// The transform.
fn tell_own_transform(out: &mut Out, transform: Option<Affine>) {
    let Some(t) = transform else {
        return;
    };
    put(out, b", transform");
    affine(out, t);
}

// Six numbers, a space before each.
fn affine(out: &mut Out, t: Affine) {
    values(out, t.a, t.b, t.c, t.d);
    value(out, t.e);
    value(out, t.f);
}

// The label, in quotes.
fn tell_label(out: &mut Out, state: &State, id: FullNodeId) -> Result<(), Refusal> {
    let mut bytes = [0u8; 32];
    let length = node::label(state, id, &mut bytes)?;
    put(out, b"  ");
    print::first_quoted(out, &bytes, length);
    put(out, b"\n");
    Ok(())
}

// Whether it is hidden.
fn tell_hidden(out: &mut Out, hidden: bool) {
    if hidden {
        put(out, b"  yes\n");
        return;
    }
    put(out, b"  no\n");
}

// The transform, its ancestors' included.
fn tell_transform(out: &mut Out, t: Affine) {
    put(out, b" ");
    affine(out, t);
    put(out, b"\n");
}

// The bounding box.
fn tell_box(out: &mut Out, bounding_box: BoundingBox) {
    let BoundingBox::Box(x0, y0, x1, y1) = bounding_box else {
        put(out, b"  none\n");
        return;
    };
    put(out, b" ");
    values(out, x0, y0, x1, y1);
    put(out, b"\n");
}

// ## Lists of nodes

// A list, a node to a line.
fn list<'a>(
    out: &mut Out,
    state: &'a State,
    id: FullNodeId,
    what: u64,
    side: u64,
    filter: u64,
    roles: &'a [u8; 4096],
) -> Result<(), Refusal> {
    let mut numbers = [0u64; 512];
    let length = listed(state, id, what, side, filter, &mut numbers)?;
    if length < 1 {
        put(out, b"  none\n");
        return Ok(());
    }
    print::list(out, b"  ", state, &numbers, 0, length, roles);
    Ok(())
}

// The list, written into a lent slice, two numbers a node.
fn listed<'a, 'b>(
    state: &'a State,
    id: FullNodeId,
    what: u64,
    side: u64,
    filter: u64,
    out: &'b mut [u64],
) -> Result<usize, Refusal> {
    match what {
        question::CHILDREN => node::children(state, id, out),
        question::FILTERED_CHILDREN => {
            iterators::filtered_children(state, id, filter_of(filter), out)
        }
        question::SIBLINGS => iterators::siblings(state, id, side_of(side), out),
        _ => iterators::filtered_siblings(state, id, filter_of(filter), side_of(side), out),
    }
}

// ## One node, or none

// A question whose answer is a node.
fn one_node(
    state: &State,
    id: FullNodeId,
    what: u64,
    side: u64,
    filter: u64,
    count: u64,
) -> Result<Option<FullNodeId>, Refusal> {
    match what {
        question::PARENT => node::parent(state, id),
        question::WALK => walked(state, id, side, filter, count),
        question::FILTERED_PARENT => iterators::filtered_parent(state, id, filter_of(filter)),
        _ => filtered_child(state, id, what, filter_of(filter)),
    }
}

// The next sibling of a kept walk.
fn walked(
    state: &State,
    id: FullNodeId,
    side: u64,
    filter: u64,
    count: u64,
) -> Result<Option<FullNodeId>, Refusal> {
    let walk = Walk {
        node: id,
        side: (side % 2) as u32,
        filter: (filter % 4) as u32,
        count,
    };
    let stepped = walk::step(state, walk);
    stepped.answer
}

// The first, the last or a deepest filtered child.
fn filtered_child(
    state: &State,
    id: FullNodeId,
    what: u64,
    filter: Filter,
) -> Result<Option<FullNodeId>, Refusal> {
    match what {
        question::FIRST_CHILD => iterators::first_filtered_child(state, id, filter),
        question::LAST_CHILD => iterators::last_filtered_child(state, id, filter),
        question::DEEPEST_FIRST_CHILD => {
            iterators::deepest_first_filtered_child(state, id, filter)
        }
        _ => iterators::deepest_last_filtered_child(state, id, filter),
    }
}

// A node, if there is one.
fn tell_node<'a>(
    out: &mut Out,
    state: &'a State,
    found: Option<FullNodeId>,
    roles: &'a [u8; 4096],
) {
    let Some(x) = found else {
        put(out, b"  none\n");
        return;
    };
    put(out, b"  ");
    print::node(out, state, x, roles);
    put(out, b"\n");
}

// ## A filter

// What a filter says of a node, by the crate's names.
fn tell_result(out: &mut Out, res: FilterResult) {
    match res {
        FilterResult::Include => put(out, b"  Include\n"),
        FilterResult::ExcludeNode => put(out, b"  ExcludeNode\n"),
        FilterResult::ExcludeSubtree => put(out, b"  ExcludeSubtree\n"),
    }
}
