// A digest of a state, 64 bits over every word of it. Each step is one to one, so one wrong word always gives another digest.
use state_array::State;

// The digest of a state.
pub fn of(state: &State) -> u64 {
    state
        .iter()
        .fold(14695981039346656037, |digest, &word| with(digest, word))
}

// The digest of the state that a call is handed; a start, which does not look at it, hands back the blank one where it is refused.
pub fn before(f: &[u8], state: &State) -> u64 {
    if crate::field(f, 0) == 0 {
        let blank = [0u64; state_array::WORDS];
        return of(&blank);
    }
    of(state)
}

// A digest with one number more: as in FNV-1a, the number by exclusive or and then a product; and the upper half of the product is brought
// down, so that no sign is lost.
fn with(digest: u64, number: u64) -> u64 {
    let product = times_prime(digest ^ number);
    product ^ (product / 4294967296)
}

// The product with FNV's prime, 2^40 + 435, without what is past 64 bits.
fn times_prime(x: u64) -> u64 {
    let shifted = x % 16777216 * 1099511627776;
    let low = x % 4294967296 * 435;
    let high = x / 4294967296 * 435 % 4294967296 * 4294967296;
    std::num::wrapping_add_u64(shifted, std::num::wrapping_add_u64(low, high))
}
