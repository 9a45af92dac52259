// A node's data, read from a record or from a slot, and one comparison of two nodes by value, whatever their homes.
#![tactic(auto)]

ghost use Rattle.std.specs.Prelude.{◌≡◌, ◌+◌, ◌*◌, ◌<◌, get_or};
ghost use Rattle.std.specs.Float.Ieee.{eq, of_bits};
ghost use Rattle.std.specs.Float.{binary64};
ghost use Rattle.base.specs.Bytes.{list_of};
ghost use Rattle.geometry.specs.Geometry.{same_rect, same_affine};
ghost use Rattle.record_reader.specs.Reader.{field_at};
ghost use Rattle.state_array.specs.Stored.{label_word};
ghost use Rattle.update_bodies.specs.Bodies.{patterns_in, listed_body, code_body, bounds_of, transform_of, same_run, same_body};

use state_array::{Body, State};

// Where the node records of a batch start, how long each is, and where its floats start in it.
const RECORDS: usize = 64;

const RECORD: usize = 128;

const FLOATS: usize = 48;

// The data that a code names: below 320 a slot's, from 320 on a listed node's.
pub fn body_of<'a>(state: &'a State, batch: &'a [u8], code: usize) -> Body
    ensures { result ≡ code_body state.now batch.now code }
{
    if code < state_array::SLOTS {
        return state_array::body_at(state, code);
    }
    listed_body(batch, code - state_array::SLOTS)
}

// The data of listed node i.
fn listed_body(batch: &[u8], i: usize) -> Body
    ensures { result ≡ listed_body batch.now i }
{
    let text = record_reader::label(batch, i);
    let label = label_words(text);
    let floats = patterns(batch, i);
    Body {
        graft: record_reader::graft(batch, i),
        flags: record_reader::flags(batch, i) as u64,
        child_count: record_reader::child_count(batch, i) as u64,
        active_descendant: record_reader::active_descendant(batch, i),
        role: record_reader::role(batch, i) as u64,
        label_length: text.len() as u64,
        label,
        floats,
    }
}

// The first 32 bytes of a label as four little-endian words, 0 past its end.
fn label_words(label: &[u8]) -> [u64; 4]
    ensures { result ≡ list_of 4 (label_word label.now) }
{
    [
        record_wire::u64_at(label, 0),
        record_wire::u64_at(label, 8),
        record_wire::u64_at(label, 16),
        record_wire::u64_at(label, 24),
    ]
}

// The ten bit patterns of listed node i: its bounds, then its transform.
fn patterns(batch: &[u8], i: usize) -> [u64; 10]
    ensures { result ≡ patterns_in batch.now i }
{
    [
        pattern(batch, i, 0),
        pattern(batch, i, 1),
        pattern(batch, i, 2),
        pattern(batch, i, 3),
        pattern(batch, i, 4),
        pattern(batch, i, 5),
        pattern(batch, i, 6),
        pattern(batch, i, 7),
        pattern(batch, i, 8),
        pattern(batch, i, 9),
    ]
}

// Bit pattern k of listed node i, 0 past the last node.
fn pattern(batch: &[u8], i: usize, k: usize) -> u64
    requires { k < 10 }
    ensures { result ≡ field_at 8 batch.now i (48 + 8 * k) }
{
    if record_wire::u16_at(batch, 0) as usize <= i {
        return 0;
    }
    record_wire::u64_at(batch, RECORDS + RECORD * i + (FLOATS + 8 * k))
}

// Whether two nodes have the same data by value, their children's lists aside: as many children, and -0 equals 0.
pub fn same_body(a: Body, b: Body) -> bool
    ensures { result ≡ same_body a b }
{
    let x = a.label;
    let y = b.label;
    let p = a.floats;
    let q = b.floats;
    (a.child_count == b.child_count)
        & (a.flags == b.flags)
        & (a.graft == b.graft)
        & ((a.active_descendant == b.active_descendant)
            & ((a.label_length == b.label_length) & same_words(&x, &y))
            & (a.role == b.role)
            & same_bounds(p, q)
            & same_transform(p, q))
}

// Whether two labels have the same words.
fn same_words<'a>(a: &'a [u64; 4], b: &'a [u64; 4]) -> bool
    ensures { result ≡ same_run a.now 0 b.now 0 0 4 }
{
    let x: &[u64] = a;
    let y: &[u64] = b;
    same_run(x, 0, y, 0, 0, 4)
}

// Whether the bounds of ten bit patterns each are the same by value.
fn same_bounds(p: [u64; 10], q: [u64; 10]) -> bool
    ensures { result ≡ same_rect (bounds_of p) (bounds_of q) }
{
    same_value(p[0], q[0])
        & same_value(p[1], q[1])
        & same_value(p[2], q[2])
        & same_value(p[3], q[3])
}

// Whether the transforms are.
fn same_transform(p: [u64; 10], q: [u64; 10]) -> bool
    ensures { result ≡ same_affine (transform_of p) (transform_of q) }
{
    same_value(p[4], q[4])
        & same_value(p[5], q[5])
        & same_value(p[6], q[6])
        & same_value(p[7], q[7])
        & same_value(p[8], q[8])
        & same_value(p[9], q[9])
}

// Whether two bit patterns are of one value: -0 equals 0.
fn same_value(x: u64, y: u64) -> bool
    ensures { result ≡ eq (of_bits binary64 x) (of_bits binary64 y) }
{
    record_wire::f64_of(x) == record_wire::f64_of(y)
}

// Whether the count words from `from` on of one array are those from `to` on of another; past the end of either stands `past`.
pub fn same_run<'a>(
    a: &'a [u64],
    from: usize,
    b: &'a [u64],
    to: usize,
    past: u64,
    count: usize,
) -> bool
    ensures { result ≡ same_run a.now from b.now to past count }
{
    for k in 0..count {
        if word_in(a, from, k, past) != word_in(b, to, k, past) {
            return false;
        }
    }
    true
}

// Word k of those from `from` on, `past` after the last.
fn word_in(words: &[u64], from: usize, k: usize, past: u64) -> u64
    ensures { result ≡ get_or words.now (from + k) past }
{
    let n = words.len();
    if n <= from {
        return past;
    }
    if n - from <= k {
        return past;
    }
    words[from + k]
}
