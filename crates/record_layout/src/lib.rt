// Module 2, the batch record: the first of its rules that bytes, of any length, break. The rules stand in record_rules/specs.
#![tactic(auto)]

ghost use Rattle.std.specs.Prelude.{◌≡◌, ◌^◌, ◌<◌, take};
ghost use Rattle.std.specs.Result.{result_err};
ghost use Rattle.base.specs.Floats.{f64_at, is_finite, zero_bytes};
ghost use Rattle.geometry.specs.Geometry.{zero_rect, finite_rect, zero_affine, finite_affine};
ghost use Rattle.record.specs.Layout.{node_flags};
ghost use Rattle.record.specs.Parse.{bounds_of, transform_of, data_of, well_formed};
ghost use Rattle.record_rules.specs.Rules.{rule, first_broken, header_rules, record_rules, record_fault};

pub use record_rules::Offence;
use record_wire::{finite_bits, u8_at, u16_at, u32_at, u64_at};

// Whether the bytes, of any length, are a batch record. Row 2 of document 01 holds of all others.
pub fn layout(batch: &[u8]) -> bool
    ensures { result ≡ well_formed batch.now }
{
    offence(batch).is_none()
}

// The first rule that the bytes break: the header's, then each node record's, then the totals'.
pub fn offence(batch: &[u8]) -> Option<Offence>
    ensures { result ≡ record_fault batch.now }
{
    all_kept(batch).err()
}

// The error is the first rule of all that is broken.
fn all_kept(batch: &[u8]) -> Result<(), Offence>
    ensures { result_err result ≡ record_fault batch.now }
{
    header_kept(batch)?;
    let nodes = u16_at(batch, 0) as usize;
    let mut children: usize = 0;
    let mut labels: usize = 0;
    for i in 0..nodes {
        let at = 64 + 128 * i;
        record_kept(batch, at, children, labels)?;
        children += u16_at(batch, at + 34) as usize;
        labels += u16_at(batch, at + 38) as usize;
    }
    keeps(25, 2, children == u16_at(batch, 2) as usize)?;
    keeps(26, 4, labels == u16_at(batch, 4) as usize)
}

// The error is this rule, where it is not kept.
#[tactic(auto, unfolding(record_rules::specs::Rules::rule))]
fn keeps(number: u8, offset: usize, kept: bool) -> Result<(), Offence>
    ensures { result_err result ≡ rule number offset kept }
{
    if kept {
        Ok(())
    } else {
        Err(Offence {
            rule: number,
            offset,
        })
    }
}

// The header's: a line for each row of the definition, in its order. The first broken one is handed on, so no later one is asked.
#[tactic(auto, using(crate::proofs::Rows::rows), unfolding(record_rules::specs::Rules::header_rules))]
fn header_kept(batch: &[u8]) -> Result<(), Offence>
    ensures { result_err result ≡ first_broken (header_rules batch.now) }
{
    let nodes = u16_at(batch, 0) as usize;
    let entries = u16_at(batch, 2) as usize;
    let labels = u16_at(batch, 4) as usize;
    let flags = u16_at(batch, 6);
    let total = u32_at(batch, 20) as usize;
    let entries_at = 64 + 128 * nodes;
    let labels_at = entries_at + 8 * entries;
    let end = labels_at + labels;
    keeps(1, batch.len(), 64 <= batch.len())?;
    keeps(2, 0, nodes <= 64)?;
    keeps(3, 2, entries <= 256)?;
    keeps(4, 4, labels <= 2048)?;
    keeps(5, 6, flags < 2)?;
    keeps(6, 8, u32_at(batch, 8) == 64)?;
    keeps(7, 12, u32_at(batch, 12) as usize == entries_at)?;
    keeps(8, 16, u32_at(batch, 16) as usize == labels_at)?;
    keeps(9, 20, total == end)?;
    keeps(10, 20, batch.len() == total)?;
    keeps(11, 20, batch.len() <= 12352)?;
    keeps(12, 40, (flags % 2 == 1) | (u64_at(batch, 40) == 0))?;
    keeps(13, 56, u64_at(batch, 56) == 0)
}

// Those of the node record at `at`, where the nodes before it have so many children and label bytes.
#[tactic(auto, using(crate::proofs::Rows::rows), unfolding(record_rules::specs::Rules::record_rules))]
fn record_kept(batch: &[u8], at: usize, children: usize, labels: usize) -> Result<(), Offence>
    requires { at < 2 ^ 32 }
    ensures { result_err result ≡ first_broken (record_rules batch.now at (data_of batch.now at) children labels) }
{
    let flags = u8_at(batch, at + 41);
    let label_at = at + 36;
    fields_kept(batch, at, flags)?;
    keeps(19, at + 48, (flags / 16 % 2 == 1) | no_bounds(batch, at))?;
    keeps(20, at + 80, (flags / 32 % 2 == 1) | no_transform(batch, at))?;
    keeps(21, at + 48, bounds_finite(batch, at))?;
    keeps(22, at + 80, transform_finite(batch, at))?;
    keeps(23, at + 32, u16_at(batch, at + 32) as usize == children)?;
    keeps(24, label_at, u16_at(batch, label_at) as usize == labels)
}

// The first five of them, where these are the record's flags.
#[tactic(auto, using(crate::proofs::Rows::rows), unfolding(record_rules::specs::Rules::record_rules))]
fn fields_kept(batch: &[u8], at: usize, flags: u8) -> Result<(), Offence>
    requires { (at < 2 ^ 32) × (flags ≡ node_flags batch.now at) }
    ensures { result_err result ≡ first_broken (take 5 (record_rules batch.now at (data_of batch.now at) 0 0)) }
{
    let graft_at = at + 16;
    let no_graft = (u64_at(batch, graft_at) == 0) & (u64_at(batch, at + 24) == 0);
    let no_active_descendant = u64_at(batch, at + 8) == 0;
    let six_zeros = (u16_at(batch, at + 42) == 0) & (u32_at(batch, at + 44) == 0);
    keeps(14, at + 42, six_zeros)?;
    keeps(15, at + 38, u16_at(batch, at + 38) <= 32)?;
    keeps(16, at + 41, flags < 64)?;
    keeps(17, at + 8, (flags / 4 % 2 == 1) | no_active_descendant)?;
    keeps(18, graft_at, (flags / 8 % 2 == 1) | no_graft)
}

// The bounds of the node record at `at`, and its transform: all zero bytes. The tests of both kinds are written out: a function that takes the
// test as a closure would say what the closure answers of each number, and that is longer than they are.
fn no_bounds(batch: &[u8], at: usize) -> bool
    requires { at < 2 ^ 32 }
    ensures { result ≡ zero_rect (bounds_of batch.now at) }
{
    zero_at(batch, at + 48)
        & zero_at(batch, at + 56)
        & zero_at(batch, at + 64)
        & zero_at(batch, at + 72)
}

fn no_transform(batch: &[u8], at: usize) -> bool
    requires { at < 2 ^ 32 }
    ensures { result ≡ zero_affine (transform_of batch.now at) }
{
    zero_at(batch, at + 80)
        & zero_at(batch, at + 88)
        & zero_at(batch, at + 96)
        & zero_at(batch, at + 104)
        & zero_at(batch, at + 112)
        & zero_at(batch, at + 120)
}

fn zero_at(batch: &[u8], at: usize) -> bool
    ensures { result ≡ zero_bytes (f64_at batch.now at) }
{
    u64_at(batch, at) == 0
}

// The same: finite numbers.
fn bounds_finite(batch: &[u8], at: usize) -> bool
    requires { at < 2 ^ 32 }
    ensures { result ≡ finite_rect (bounds_of batch.now at) }
{
    finite_at(batch, at + 48)
        & finite_at(batch, at + 56)
        & finite_at(batch, at + 64)
        & finite_at(batch, at + 72)
}

fn transform_finite(batch: &[u8], at: usize) -> bool
    requires { at < 2 ^ 32 }
    ensures { result ≡ finite_affine (transform_of batch.now at) }
{
    finite_at(batch, at + 80)
        & finite_at(batch, at + 88)
        & finite_at(batch, at + 96)
        & finite_at(batch, at + 104)
        & finite_at(batch, at + 112)
        & finite_at(batch, at + 120)
}

fn finite_at(batch: &[u8], at: usize) -> bool
    ensures { result ≡ is_finite (f64_at batch.now at) }
{
    finite_bits(u64_at(batch, at))
}
