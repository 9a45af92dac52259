// The batch record for programs in other languages. A `&[u8]` passes as a pointer and a length.
#![tactic(auto)]

ghost use Rattle.std.specs.Prelude.{◌≡◌};
ghost use Rattle.record.specs.Parse.{well_formed};

// Whether the bytes, of any length, are a batch record.
#[unsafe(no_mangle)]
pub extern "C" fn record_layout(batch: &[u8]) -> bool
    ensures { result ≡ well_formed batch.now }
{
    record_layout::layout(batch)
}
