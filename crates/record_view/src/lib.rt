// A view that holds the lent bytes of a batch, with thin functions for the header, a node record and a child entry. Each takes the view apart and
// calls an accessor of `record_reader` on the slice, so it answers for any bytes and any index. The functions `read_..` have plain parameters and
// read through the view.
#![tactic(auto)]

ghost use Rattle.std.specs.Prelude.{◌≡◌};
ghost use Rattle.record_reader.specs.Reader.{node_record_of};
ghost use Rattle.record_view.specs.View.{header_in, entry_in, children_end};

use ids::NodeId;
use record_reader::{BatchHeader, NodeRecord};

#[derive(Clone, Copy)]
pub struct BatchView<'a> {
    pub bytes: &'a [u8],
}

pub fn new<'a>(bytes: &'a [u8]) -> BatchView<'a>
    ensures { result.bytes ≡ bytes.entry }
{
    BatchView { bytes }
}

pub fn header<'a>(batch: BatchView<'a>) -> BatchHeader
    ensures { result ≡ header_in batch.entry.bytes.now }
{
    record_reader::header(batch.bytes)
}

// The record of the node listed at place i, zeros past the last.
pub fn node<'a>(batch: BatchView<'a>, i: usize) -> NodeRecord
    ensures { result ≡ node_record_of batch.entry.bytes.now i }
{
    record_reader::node(batch.bytes, i)
}

// Child entry j, of whatever node, 0 past the last.
pub fn child_entry<'a>(batch: BatchView<'a>, j: usize) -> NodeId
    ensures { result ≡ entry_in batch.entry.bytes.now j }
{
    record_reader::child_entry(batch.bytes, j)
}

pub fn read_header(batch: &[u8]) -> BatchHeader
    ensures { result ≡ header_in batch.now }
{
    header(new(batch))
}

pub fn read_node(batch: &[u8], i: usize) -> NodeRecord
    ensures { result ≡ node_record_of batch.now i }
{
    node(new(batch), i)
}

pub fn read_entry(batch: &[u8], j: usize) -> NodeId
    ensures { result ≡ entry_in batch.now j }
{
    child_entry(new(batch), j)
}

// Where the children of node i end among the child entries.
pub fn children_end(batch: &[u8], i: usize) -> usize
    ensures { result ≡ children_end batch.now i }
{
    let n = read_node(batch, i);
    n.first_child + n.child_count
}
