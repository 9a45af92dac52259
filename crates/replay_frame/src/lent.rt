// The slice that calls and questions are lent, before and after.
ghost use Rattle.std.specs.Prelude.{◌<◌};

// What is lent: 900000, 900001, ..
pub fn unwritten() -> [u64; 1024] {
    std::array::from_fn(filler)
}

// Element i before a call, of the first 1024.
fn filler(i: usize) -> u64 {
    900000 + (i % 1024) as u64
}

// Whether the first elements are those of the frame, and the others are as they were lent.
pub fn is_filled(lent: &[u64], f: &[u8]) -> bool {
    let from = crate::lists_at(f);
    let n = crate::lists_length(f);
    lent.iter()
        .enumerate()
        .all(|(i, &word)| word == element(f, from, i, n))
}

// Element i after a call that filled n, which stand from a place of the frame on: one of these, or the one that was lent.
fn element(f: &[u8], from: usize, i: usize, n: usize) -> u64
    requires { (from < 200000) × (n < 600000) }
{
    if i < n {
        record_wire::u64_at(f, from + 8 * i)
    } else {
        filler(i)
    }
}
