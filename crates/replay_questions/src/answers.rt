// The questions by their numbers, and what the library answers as words.
use geometry::Affine;
use geometry_box::BoundingBox;
use ids::FullNodeId;
use node_answers::Refusal;
use question_calls::{iterators, node, walk};
use questions::{Filter, FilterResult, Side, Walk};
use state_array::State;

// What is answered.
#[derive(Clone, Copy)]
pub(crate) struct Answer {
    pub(crate) number: u8,
    // The hidden flag; a filter's result, 0 Include, 1 ExcludeNode, 2 ExcludeSubtree; of a walk 1 where it became another walk.
    pub(crate) value: u64,
    // How many pairs of words are written: an id, two numbers of a transform, a corner of a box.
    pub(crate) length: usize,
}

// Kinds below LISTS answer a node, those below WALK a list.
const LISTS: u64 = 6;

const WALK: u64 = 10;

// The bits of any NaN.
const NAN: u64 = 0x7ff8_0000_0000_0000;

// Asks a question about a node; the words of the answer stand in the lent slice.
pub(crate) fn ask<'a, 'b>(
    state: &'a State,
    which: u64,
    id: FullNodeId,
    out: &'b mut [u64],
) -> Answer {
    let kind = which / 12;
    if kind < LISTS {
        return of_node(found(state, kind, id, filter_of(which)), out);
    }
    if kind < WALK {
        return of_list(list(state, which, id, out));
    }
    if kind == WALK {
        return walk(state, which, id, out);
    }
    other(state, which, id, out)
}

// The filter of a question; the common one where it has none, which is not asked.
fn filter_of(which: u64) -> Filter {
    match which / 3 % 4 {
        2 => Filter::WithRootException,
        3 => Filter::WithoutParentChecks,
        _ => Filter::Common,
    }
}

// The side of a question.
fn side_of(which: u64) -> Side {
    if which % 3 == 2 {
        Side::Preceding
    } else {
        Side::Following
    }
}

// ## Asking

// The questions that answer a node.
fn found(
    state: &State,
    kind: u64,
    id: FullNodeId,
    filter: Filter,
) -> Result<Option<FullNodeId>, Refusal> {
    match kind {
        0 => node::parent(state, id),
        1 => iterators::filtered_parent(state, id, filter),
        2 => iterators::first_filtered_child(state, id, filter),
        3 => iterators::last_filtered_child(state, id, filter),
        4 => iterators::deepest_first_filtered_child(state, id, filter),
        _ => iterators::deepest_last_filtered_child(state, id, filter),
    }
}

// The questions that answer a list.
fn list<'a, 'b>(
    state: &'a State,
    which: u64,
    id: FullNodeId,
    out: &'b mut [u64],
) -> Result<usize, Refusal> {
    let filter = filter_of(which);
    let side = side_of(which);
    match which / 12 {
        6 => node::children(state, id, out),
        7 => iterators::siblings(state, id, side, out),
        8 => iterators::filtered_children(state, id, filter, out),
        _ => iterators::filtered_siblings(state, id, filter, side, out),
    }
}

// A walk from its start, as many steps as the slice has pairs, each node in its place; the length is the walk's own count.
fn walk<'a, 'b>(state: &'a State, which: u64, id: FullNodeId, out: &'b mut [u64]) -> Answer {
    let first = begun(which, id);
    let mut w = first;
    for i in 0..out.len() / 2 {
        let s = walk::step(state, w);
        let answer = s.answer;
        let Ok(found) = answer else {
            return of_node(answer, out);
        };
        put_found(found, 2 * i, out);
        w = s.walk;
    }
    Answer {
        number: 0,
        value: u64::from(!is_of(w, first)),
        length: w.count as usize,
    }
}

// A question's walk before its first step.
fn begun(which: u64, id: FullNodeId) -> Walk {
    Walk {
        node: id,
        side: (which % 3 / 2) as u32,
        filter: (which / 3 % 4) as u32,
        count: 0,
    }
}

// Whether a walk has the node, the side and the filter of another. Not `==`: the count has moved on.
fn is_of(walk: Walk, other: Walk) -> bool {
    (walk.node == other.node) & (walk.side == other.side) & (walk.filter == other.filter)
}

// The other questions.
fn other<'a, 'b>(state: &'a State, which: u64, id: FullNodeId, out: &'b mut [u64]) -> Answer {
    match which / 12 {
        11 => of_hidden(node::is_hidden(state, id)),
        12 => of_transform(node::transform(state, id), out),
        13 => of_box(node::bounding_box(state, id), out),
        _ => of_filter(question_calls::filter(state, id, filter_of(which))),
    }
}

// ## Answers as words

// The number of an answer: 0, or why it is refused.
fn number_of<T: Copy>(a: Result<T, Refusal>) -> u8 {
    match a {
        Ok(_) => 0,
        Err(refusal) => refusal.number(),
    }
}

fn of_node(a: Result<Option<FullNodeId>, Refusal>, out: &mut [u64]) -> Answer {
    Answer {
        number: number_of(a),
        value: 0,
        length: put_found(a.unwrap_or(None), 0, out),
    }
}

fn of_list(a: Result<usize, Refusal>) -> Answer {
    Answer {
        number: number_of(a),
        value: 0,
        length: a.unwrap_or(0),
    }
}

fn of_hidden(a: Result<bool, Refusal>) -> Answer {
    Answer {
        number: number_of(a),
        value: u64::from(a.unwrap_or(false)),
        length: 0,
    }
}

fn of_filter(a: Result<FilterResult, Refusal>) -> Answer {
    Answer {
        number: number_of(a),
        value: match a {
            Ok(result) => number_of_result(result),
            Err(_) => 0,
        },
        length: 0,
    }
}

// A refused one has three pairs of zeros.
fn of_transform(a: Result<Affine, Refusal>, out: &mut [u64]) -> Answer {
    let t = a.unwrap_or(Affine {
        a: 0.0,
        b: 0.0,
        c: 0.0,
        d: 0.0,
        e: 0.0,
        f: 0.0,
    });
    put_pair(out, 0, bits_of(t.a), bits_of(t.b));
    put_pair(out, 2, bits_of(t.c), bits_of(t.d));
    put_pair(out, 4, bits_of(t.e), bits_of(t.f));
    Answer {
        number: number_of(a),
        value: 0,
        length: 3,
    }
}

fn of_box(a: Result<BoundingBox, Refusal>, out: &mut [u64]) -> Answer {
    Answer {
        number: number_of(a),
        value: 0,
        length: put_box(a.unwrap_or(BoundingBox::None), out),
    }
}

// Writes a box; how many corners it has.
fn put_box(b: BoundingBox, out: &mut [u64]) -> usize {
    let BoundingBox::Box(x0, y0, x1, y1) = b else {
        return 0;
    };
    put_pair(out, 0, bits_of(x0), bits_of(y0));
    put_pair(out, 2, bits_of(x1), bits_of(y1));
    2
}

// Writes the node of an answer at a place; how many there are.
fn put_found(found: Option<FullNodeId>, at: usize, out: &mut [u64]) -> usize {
    let Some(x) = found else {
        return 0;
    };
    put_pair(out, at, x.tree.0 as u64, x.node.0);
    1
}

// Writes two words at a place.
fn put_pair(out: &mut [u64], at: usize, first: u64, second: u64) {
    put(out, at, first);
    put(out, std::num::wrapping_add_usize(at, 1), second);
}

// Writes a word at a place, where there is room.
fn put(out: &mut [u64], at: usize, word: u64) {
    if at < out.len() {
        out[at] = word;
    }
}

// A filter's result by its number.
fn number_of_result(res: FilterResult) -> u64 {
    match res {
        FilterResult::Include => 0,
        FilterResult::ExcludeNode => 1,
        FilterResult::ExcludeSubtree => 2,
    }
}

// The bits of a number, every NaN alike.
fn bits_of(x: f64) -> u64 {
    if x.is_nan() { NAN } else { x.to_bits() }
}
