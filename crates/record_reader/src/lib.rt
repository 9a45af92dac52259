// The accessors of a batch record. Each answers for any bytes and any index; of bytes that `record_layout::layout` passes, the batch that they say is
// the parsed one. Past the last node, child entry or byte there are zeros.
#![tactic(auto)]

ghost use Rattle.std.specs.Prelude.{◌≡◌, ◌<◌, ℕ, length, get_or};
ghost use Rattle.base.specs.Bytes.{le};
ghost use Rattle.base.specs.Tests.{is_some};
ghost use Rattle.record.specs.Parse.{batch_of};
ghost use Rattle.record_reader.specs.Reader.{no_node, listed_at, field_at, entries_of, root_or_zero, header_of, node_record_of};

use geometry::{Affine, Rect};
use ids::{NodeId, TreeId};
use record_wire::{f64_of, u8_at, u16_at, u64_at};

// The header's fields; the counts of child entries and label bytes and the offsets follow from the nodes.
#[derive(Clone, Copy)]
pub struct BatchHeader {
    pub nodes: usize,
    pub has_tree_data: bool,
    pub tree: TreeId,
    pub root: NodeId,
    pub focus: NodeId,
}

// A node record's fields, but for its label, which `label` lends. Its children are the child entries from `first_child`.
#[derive(Clone, Copy)]
pub struct NodeRecord {
    pub id: NodeId,
    pub active_descendant: NodeId,
    pub graft: TreeId,
    pub first_child: usize,
    pub child_count: usize,
    pub role: u8,
    pub flags: u8,
    pub bounds: Rect,
    pub transform: Affine,
}

pub fn node_count(batch: &[u8]) -> usize
    ensures { result ≡ length (batch_of batch.now).nodes }
{
    u16_at(batch, 0) as usize
}

pub fn has_tree_data(batch: &[u8]) -> bool
    ensures { result ≡ is_some (batch_of batch.now).root }
{
    u16_at(batch, 6) % 2 == 1
}

pub fn tree_id(batch: &[u8]) -> TreeId
    ensures { result ≡ (batch_of batch.now).tree }
{
    TreeId {
        high: u64_at(batch, 24),
        low: u64_at(batch, 32),
    }
}

// The root of the tree data, 0 without it.
pub fn tree_root(batch: &[u8]) -> NodeId
    ensures { result ≡ root_or_zero (batch_of batch.now).root }
{
    if has_tree_data(batch) {
        return NodeId(u64_at(batch, 40));
    }
    NodeId(0)
}

pub fn tree_focus(batch: &[u8]) -> NodeId
    ensures { result ≡ (batch_of batch.now).focus }
{
    NodeId(u64_at(batch, 48))
}

pub fn header(batch: &[u8]) -> BatchHeader
    ensures { result ≡ header_of (batch_of batch.now) }
{
    BatchHeader {
        nodes: node_count(batch),
        has_tree_data: has_tree_data(batch),
        tree: tree_id(batch),
        root: tree_root(batch),
        focus: tree_focus(batch),
    }
}

pub fn node_id(batch: &[u8], i: usize) -> NodeId
    ensures { result ≡ (listed_at (batch_of batch.now) i).id }
{
    NodeId(word(batch, i, 0))
}

pub fn active_descendant(batch: &[u8], i: usize) -> NodeId
    ensures { result ≡ (listed_at (batch_of batch.now) i).body.active_descendant }
{
    NodeId(word(batch, i, 8))
}

pub fn graft(batch: &[u8], i: usize) -> TreeId
    ensures { result ≡ (listed_at (batch_of batch.now) i).body.graft }
{
    TreeId {
        high: word(batch, i, 16),
        low: word(batch, i, 24),
    }
}

pub fn role(batch: &[u8], i: usize) -> u8
    ensures { result ≡ (listed_at (batch_of batch.now) i).body.role }
{
    byte(batch, i, 40)
}

// The flags: bit 0 hidden, 1 clips children, 2 active descendant, 3 graft, 4 bounds, 5 transform.
pub fn flags(batch: &[u8], i: usize) -> u8
    ensures { result ≡ (listed_at (batch_of batch.now) i).body.flags }
{
    byte(batch, i, 41)
}

fn bounds(batch: &[u8], i: usize) -> Rect
    ensures { result ≡ (listed_at (batch_of batch.now) i).body.bounds }
{
    Rect {
        x0: f64_of(word(batch, i, 48)),
        y0: f64_of(word(batch, i, 56)),
        x1: f64_of(word(batch, i, 64)),
        y1: f64_of(word(batch, i, 72)),
    }
}

fn transform(batch: &[u8], i: usize) -> Affine
    ensures { result ≡ (listed_at (batch_of batch.now) i).body.transform }
{
    Affine {
        a: f64_of(word(batch, i, 80)),
        b: f64_of(word(batch, i, 88)),
        c: f64_of(word(batch, i, 96)),
        d: f64_of(word(batch, i, 104)),
        e: f64_of(word(batch, i, 112)),
        f: f64_of(word(batch, i, 120)),
    }
}

pub fn child_count(batch: &[u8], i: usize) -> usize
    ensures { result ≡ length (listed_at (batch_of batch.now) i).body.children }
{
    half(batch, i, 34) as usize
}

// Where the children of node i start among the child entries.
pub fn first_child(batch: &[u8], i: usize) -> usize
    ensures { result ≡ field_at 2 batch.now i 32 }
{
    half(batch, i, 32) as usize
}

// Child k of node i, 0 past its children.
pub fn child(batch: &[u8], i: usize, k: usize) -> NodeId
    ensures { result ≡ get_or (listed_at (batch_of batch.now) i).body.children k no_node }
{
    if half(batch, i, 34) as usize <= k {
        return NodeId(0);
    }
    let entries_at = 64 + 128 * (u16_at(batch, 0) as usize);
    let first = half(batch, i, 32) as usize;
    NodeId(u64_at(batch, entries_at + 8 * (first + k)))
}

// Child entry j, of whatever node, 0 past the last.
pub fn child_entry(batch: &[u8], j: usize) -> NodeId
    ensures { result ≡ get_or (entries_of batch.now) j no_node }
{
    if u16_at(batch, 2) as usize <= j {
        return NodeId(0);
    }
    let entries_at = 64 + 128 * (u16_at(batch, 0) as usize);
    NodeId(u64_at(batch, entries_at + 8 * j))
}

// The label's bytes, a part of the batch.
pub fn label(batch: &[u8], i: usize) -> &[u8]
    ensures { result.now ≡ (listed_at (batch_of batch.now) i).body.label }
{
    let nodes = u16_at(batch, 0) as usize;
    if nodes <= i {
        return &batch[..0];
    }
    let at = 64 + 128 * i;
    let labels_at = 64 + 128 * nodes + 8 * (u16_at(batch, 2) as usize);
    let start = (labels_at + u16_at(batch, at + 36) as usize).min(batch.len());
    let end = (start + u16_at(batch, at + 38) as usize).min(batch.len());
    &batch[start..end]
}

// The whole node, where several of its fields are wanted.
pub fn node(batch: &[u8], i: usize) -> NodeRecord
    ensures { result ≡ node_record_of batch.now i }
{
    NodeRecord {
        id: node_id(batch, i),
        active_descendant: active_descendant(batch, i),
        graft: graft(batch, i),
        first_child: first_child(batch, i),
        child_count: child_count(batch, i),
        role: role(batch, i),
        flags: flags(batch, i),
        bounds: bounds(batch, i),
        transform: transform(batch, i),
    }
}

// The eight, two or one bytes at an offset within node record i, 0 past the last node.
fn word(batch: &[u8], i: usize, offset: usize) -> u64
    requires { offset < 128 }
    ensures { result ≡ field_at 8 batch.now i offset }
{
    u64_at(batch, place(batch, i, offset))
}

fn half(batch: &[u8], i: usize, offset: usize) -> u16
    requires { offset < 128 }
    ensures { result ≡ field_at 2 batch.now i offset }
{
    u16_at(batch, place(batch, i, offset))
}

fn byte(batch: &[u8], i: usize, offset: usize) -> u8
    requires { offset < 128 }
    ensures { result ≡ field_at 1 batch.now i offset }
{
    u8_at(batch, place(batch, i, offset))
}

// Where an offset within node record i stands, the batch's end past the last node: there all reads answer 0.
fn place(batch: &[u8], i: usize, offset: usize) -> usize
    requires { offset < 128 }
    ensures { (w : ℕ) → le w batch.now result ≡ field_at w batch.now i offset }
{
    if u16_at(batch, 0) as usize <= i {
        return batch.len();
    }
    64 + 128 * i + offset
}
