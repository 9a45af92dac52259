// The answers of the questions as plain numbers and structs, for C: enums become a number and fields that are 0 where there is nothing. A question
// that is refused has its number, and 0 or none in the other fields.
#![tactic(auto)]

ghost use Rattle.std.specs.Prelude.{◌≡◌};
ghost use Rattle.state_array.specs.View.{view};
ghost use Rattle.node_answers.specs.Filter.{result_number};
ghost use Rattle.node_answers.specs.Answers.{refusal_number, answer, number_of};
ghost use Rattle.cartgravel_plain.specs.Plain.{filter_numbered, side_numbered, unknown_number, plain_result, plain_found, plain_list, plain_flag};
ghost use Rattle.cartgravel_plain.specs.Plain.{plain_transform, plain_box, no_rect, no_transform, no_reading};
ghost use Rattle.cartgravel_plain.specs.Plain.{plain_tree_id, plain_index, plain_ends, plain_counts, weighed, plain_node};

use geometry::{Affine, Rect};
use geometry_box::BoundingBox;
use ids::{FullNodeId, NodeId, TreeId, TreeIndex};
use node_answers::{Counts, NodeReading, Refusal};
use questions::{Filter, FilterResult, Side};
use replies::OptionalId;
use state::SubtreeState;
use state_array::State;

// A node, if there is one.
#[repr(C)]
#[derive(Clone, Copy)]
pub struct FoundId {
    pub id: OptionalId,
    pub number: u32,
}

// How many ids or bytes were written.
#[repr(C)]
#[derive(Clone, Copy)]
pub struct Listed {
    pub length: usize,
    pub number: u32,
}

// A flag, 0 or 1.
#[repr(C)]
#[derive(Clone, Copy)]
pub struct Flag {
    pub value: u32,
    pub number: u32,
}

// A transform.
#[repr(C)]
#[derive(Clone, Copy)]
pub struct PlainTransform {
    pub transform: Affine,
    pub number: u32,
}

// A box: `kind` is 0 where there is none.
#[repr(C)]
#[derive(Clone, Copy)]
pub struct PlainBox {
    pub rect: Rect,
    pub kind: u32,
    pub number: u32,
}

// What a filter says: 0 Include, 1 ExcludeNode, 2 ExcludeSubtree.
#[repr(C)]
#[derive(Clone, Copy)]
pub struct PlainResult {
    pub result: u32,
    pub number: u32,
}

// What a node says of itself. A field whose flag (the record's) is clear is 0.
#[repr(C)]
#[derive(Clone, Copy)]
pub struct PlainNode {
    pub bounds: Rect,
    pub transform: Affine,
    pub graft: TreeId,
    pub active_descendant: u64,
    pub label_length: usize,
    pub child_count: usize,
    pub role: u32,
    pub flags: u32,
    pub number: u32,
}

// A tree id, if there is one.
#[repr(C)]
#[derive(Clone, Copy)]
pub struct PlainTreeId {
    pub id: TreeId,
    pub present: u32,
    pub number: u32,
}

// A tree number, if there is one.
#[repr(C)]
#[derive(Clone, Copy)]
pub struct PlainIndex {
    pub index: u32,
    pub present: u32,
    pub number: u32,
}

// The root and the focus of a tree, if it exists.
#[repr(C)]
#[derive(Clone, Copy)]
pub struct PlainEnds {
    pub root: OptionalId,
    pub focus: OptionalId,
    pub number: u32,
}

// How many nodes and tree numbers there are, and whether the host has the focus.
#[repr(C)]
#[derive(Clone, Copy)]
pub struct PlainCounts {
    pub nodes: usize,
    pub trees: usize,
    pub host_focused: u32,
    pub number: u32,
}

// The number of an answer: 0, or why it is refused.
fn number_of<T: Copy>(a: Result<T, Refusal>) -> u32
    ensures { result ≡ number_of a }
{
    match a {
        Ok(_) => 0,
        Err(refusal) => refusal.number() as u32,
    }
}

pub fn found(a: Result<Option<FullNodeId>, Refusal>) -> FoundId
    ensures { result ≡ plain_found a }
{
    FoundId {
        id: replies::plain_id(a.unwrap_or(None)),
        number: number_of(a),
    }
}

pub fn list(a: Result<usize, Refusal>) -> Listed
    ensures { result ≡ plain_list a }
{
    Listed {
        length: a.unwrap_or(0),
        number: number_of(a),
    }
}

pub fn hidden(a: Result<bool, Refusal>) -> Flag
    ensures { result ≡ plain_flag a }
{
    Flag {
        value: weighed(1, a.unwrap_or(false)) as u32,
        number: number_of(a),
    }
}

pub fn transform(a: Result<Affine, Refusal>) -> PlainTransform
    ensures { result ≡ plain_transform a }
{
    PlainTransform {
        transform: a.unwrap_or(no_transform()),
        number: number_of(a),
    }
}

pub fn bounding_box(a: Result<BoundingBox, Refusal>) -> PlainBox
    ensures { result ≡ plain_box a }
{
    let number = number_of(a);
    match a.unwrap_or(BoundingBox::None) {
        BoundingBox::Box(x0, y0, x1, y1) => PlainBox {
            rect: Rect { x0, y0, x1, y1 },
            kind: 1,
            number,
        },
        BoundingBox::None => PlainBox {
            rect: no_rect(),
            kind: 0,
            number,
        },
    }
}

// All zeros.
fn no_rect() -> Rect
    ensures { result ≡ no_rect }
{
    Rect {
        x0: 0.0,
        y0: 0.0,
        x1: 0.0,
        y1: 0.0,
    }
}

// The same.
fn no_transform() -> Affine
    ensures { result ≡ no_transform }
{
    Affine {
        a: 0.0,
        b: 0.0,
        c: 0.0,
        d: 0.0,
        e: 0.0,
        f: 0.0,
    }
}

// 1, 2 and 3 are filters.
pub fn filter_of(number: u32) -> Option<Filter>
    ensures { result ≡ filter_numbered number }
{
    match number {
        1 => Some(Filter::Common),
        2 => Some(Filter::WithRootException),
        3 => Some(Filter::WithoutParentChecks),
        _ => None,
    }
}

// 0 and 1 are sides.
pub fn side_of(number: u32) -> Option<Side>
    ensures { result ≡ side_numbered number }
{
    match number {
        0 => Some(Side::Following),
        1 => Some(Side::Preceding),
        _ => None,
    }
}

// Why a question with a number that is none of ours is refused: 1 where the state is not sound, else 2.
pub fn unknown(state: &State) -> Refusal
    ensures { refusal_number result ≡ unknown_number (view state.now).forest }
{
    if state_sound::sound(state) {
        Refusal::NotOurs
    } else {
        Refusal::NotSound
    }
}

// That alone, where a node is asked for.
pub fn no_node(state: &State) -> FoundId
    ensures { result ≡ plain_found (answer (unknown_number (view state.now).forest) None) }
{
    found(Err(unknown(state)))
}

// That alone, where a list is.
pub fn no_list(state: &State) -> Listed
    ensures { result ≡ record { length = 0; number = unknown_number (view state.now).forest } }
{
    list(Err(unknown(state)))
}

pub fn filter_result(a: Result<FilterResult, Refusal>) -> PlainResult
    ensures { result ≡ plain_result a }
{
    match a {
        Ok(r) => PlainResult {
            result: result_number(r),
            number: 0,
        },
        Err(refusal) => PlainResult {
            result: 0,
            number: refusal.number() as u32,
        },
    }
}

fn result_number(r: FilterResult) -> u32
    ensures { result ≡ result_number r }
{
    match r {
        FilterResult::Include => 0,
        FilterResult::ExcludeNode => 1,
        FilterResult::ExcludeSubtree => 2,
    }
}

pub fn tree_id(a: Result<Option<TreeId>, Refusal>) -> PlainTreeId
    ensures { result ≡ plain_tree_id a }
{
    let number = number_of(a);
    match a.unwrap_or(None) {
        Some(id) => PlainTreeId {
            id,
            present: 1,
            number,
        },
        None => PlainTreeId {
            id: TreeId { high: 0, low: 0 },
            present: 0,
            number,
        },
    }
}

pub fn tree_index(a: Result<Option<TreeIndex>, Refusal>) -> PlainIndex
    ensures { result ≡ plain_index a }
{
    let number = number_of(a);
    match a.unwrap_or(None) {
        Some(k) => PlainIndex {
            index: k.0,
            present: 1,
            number,
        },
        None => PlainIndex {
            index: 0,
            present: 0,
            number,
        },
    }
}

pub fn tree_ends(a: Result<Option<SubtreeState>, Refusal>) -> PlainEnds
    ensures { result ≡ plain_ends a }
{
    let number = number_of(a);
    match a.unwrap_or(None) {
        Some(e) => PlainEnds {
            root: replies::plain_id(Some(e.root)),
            focus: replies::plain_id(Some(e.focus)),
            number,
        },
        None => PlainEnds {
            root: replies::plain_id(None),
            focus: replies::plain_id(None),
            number,
        },
    }
}

pub fn counts(a: Result<Counts, Refusal>) -> PlainCounts
    ensures { result ≡ plain_counts a }
{
    let counted = a.unwrap_or(Counts {
        nodes: 0,
        trees: 0,
        host_focused: false,
    });
    PlainCounts {
        nodes: counted.nodes,
        trees: counted.trees,
        host_focused: weighed(1, counted.host_focused) as u32,
        number: number_of(a),
    }
}

pub fn node(a: Result<NodeReading, Refusal>) -> PlainNode
    ensures { result ≡ plain_node a }
{
    let r = a.unwrap_or(no_reading());
    let own = weighed(1, r.hidden) as u32 + weighed(2, r.clips_children) as u32;
    PlainNode {
        bounds: r.bounds.unwrap_or(no_rect()),
        transform: r.transform.unwrap_or(no_transform()),
        graft: r.graft.unwrap_or(TreeId { high: 0, low: 0 }),
        active_descendant: r.active_descendant.unwrap_or(NodeId(0)).0,
        label_length: r.label_length,
        child_count: r.child_count,
        role: r.role as u32,
        flags: own
            + weighed(4, r.active_descendant.is_some()) as u32
            + weighed(8, r.graft.is_some()) as u32
            + weighed(16, r.bounds.is_some()) as u32
            + weighed(32, r.transform.is_some()) as u32,
        number: number_of(a),
    }
}

// What is told of no node.
fn no_reading() -> NodeReading
    ensures { result ≡ no_reading }
{
    NodeReading {
        role: 0,
        hidden: false,
        clips_children: false,
        label_length: 0,
        child_count: 0,
        bounds: None,
        transform: None,
        active_descendant: None,
        graft: None,
    }
}

// The weight of a flag that is set, else 0.
fn weighed(weight: u8, set: bool) -> u8
    ensures { result ≡ weighed weight set }
{
    if set { weight } else { 0 }
}
