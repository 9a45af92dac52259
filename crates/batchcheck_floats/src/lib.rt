// How `batchcheck` prints an f64: as a decimal of at most 15 digits that a text of calls would read as this very number, or, with `~` before it,
// as one of 15 digits near it. Proved safe and ending, no more.
#![tactic(auto)]

use program_text::decimal;
use program_text::print::{Out, hex, number, of_number, put};

// The bit of a negative number's sign.
const SIGN: u64 = 9223372036854775808;

// The first number of more than 15 digits.
const TOO_MANY: f64 = 1000000000000000.0;

// The largest power of ten that is an f64, and the largest that is so exactly.
const MOST_POWER: u64 = 308;

const MOST_EXACT: u64 = 22;

// How many digits stand behind the point at most; a smaller number has a power of ten.
const MOST_FRACTION: u64 = 15;

// Digits times a power of ten, divided by another, of which one is 1.
#[derive(Clone, Copy)]
struct Decimal {
    digits: u64,
    up: u64,
    down: u64,
}

// Four numbers, a space before each.
pub fn values(out: &mut Out, x: f64, y: f64, z: f64, w: f64) {
    value(out, x);
    value(out, y);
    value(out, z);
    value(out, w);
}

// A number, a space before it.
pub fn value(out: &mut Out, x: f64) {
    put(out, b" ");
    if x != x {
        put(out, b"NaN");
        return;
    }
    // 1 over -0 is negative.
    if (x < 0.0) | (1.0 / x < 0.0) {
        magnitude(out, b"-", -x);
        return;
    }
    magnitude(out, b"", x);
}

// The number of a bit pattern as a text of calls has it, a space before it: a decimal that is read as this very number, else the bits.
pub fn exact(out: &mut Out, bits: u64) {
    let x = record_wire::f64_of(bits % SIGN);
    let d = shorter(rounded(x));
    if x.is_finite() & is_exactly(d, x) {
        value(out, record_wire::f64_of(bits));
        return;
    }
    put(out, b" 0x");
    hex(out, bits, 16);
}

// A sign and a number that is not negative.
fn magnitude(out: &mut Out, sign: &[u8], x: f64) {
    if !x.is_finite() {
        put(out, sign);
        put(out, b"inf");
        return;
    }
    let d = shorter(rounded(x));
    if !is_exactly(d, x) {
        put(out, b"~");
    }
    put(out, sign);
    if 0 < d.up {
        number(out, d.digits);
        of_number(out, b"e#", d.up);
        return;
    }
    if MOST_FRACTION < d.down {
        number(out, d.digits);
        of_number(out, b"e-#", d.down);
        return;
    }
    with_point(out, d.digits, d.down);
}

// A decimal of 15 digits near a number, and the number itself where it is one and the power of ten is exact.
fn rounded(x: f64) -> Decimal {
    let up = divided_by(x);
    let down = multiplied_by(x);
    Decimal {
        digits: whole_part(x / decimal::ten_to(up) * decimal::ten_to(down) + 0.5),
        up,
        down,
    }
}

// The least power of ten by which a number is divided to have at most 15 digits before the point.
fn divided_by(x: f64) -> u64 {
    let mut bound = TOO_MANY;
    for power in 0..MOST_POWER {
        if x < bound {
            return power;
        }
        bound *= 10.0;
    }
    MOST_POWER
}

// The largest power of ten by which a number can be multiplied and have at most 15 digits before the point.
fn multiplied_by(x: f64) -> u64 {
    let mut factor = 10.0;
    for power in 0..MOST_POWER {
        if TOO_MANY <= x * factor {
            return power;
        }
        factor *= 10.0;
    }
    MOST_POWER
}

// A number without its fraction; 0 where that is no u64.
fn whole_part(x: f64) -> u64 {
    if x > -1.0 {
        if x < 18446744073709551616.0 {
            return std::num::truncating_f64_to_u64(x);
        }
    }
    0
}

// Without the zeros at the end of its fraction.
fn shorter(d: Decimal) -> Decimal {
    let mut digits = d.digits;
    for down in (1..=d.down).rev() {
        if digits % 10 != 0 {
            return Decimal { digits, down, ..d };
        }
        digits /= 10;
    }
    Decimal {
        digits,
        down: 0,
        ..d
    }
}

// Whether a decimal is read as a number.
fn is_exactly(d: Decimal, x: f64) -> bool {
    (d.up <= MOST_EXACT) & (d.down <= MOST_EXACT) & (decimal::scaled(d.digits, d.up, d.down) == x)
}

// Digits, so many of them behind the point.
fn with_point(out: &mut Out, digits: u64, down: u64) {
    let unit = whole_part(decimal::ten_to(down));
    number(out, digits.checked_div(unit).unwrap_or(0));
    if 0 < down {
        put(out, b".");
        fraction(out, digits, unit / 10);
    }
}

// The digits from a place of a number on.
fn fraction(out: &mut Out, digits: u64, first: u64) {
    let mut place = first;
    // Not a `for`: each turn goes on to a tenth of the place.
    while 0 < place {
        number(out, digits / place % 10);
        place /= 10;
    }
}
