// Numbers as a person writes them: whole numbers, rows of them, tree ids and decimals. Each public function reads the cursor's word and goes on to the next.
use crate::cursor;
use crate::cursor::Cursor;

// The largest whole number of 15 digits, and the largest power of ten that is an f64: with these one operation rounds once.
const MOST_DIGITS: u64 = 999999999999999;

const MOST_POWER: u64 = 22;

// A run of digits: its number, how many there are, and where it ends.
#[derive(Clone, Copy)]
struct DigitRun {
    value: u64,
    count: u64,
    end: usize,
}

// A sign, or none: whether it is a minus, and where what it stands before begins.
#[derive(Clone, Copy)]
struct Sign {
    negative: bool,
    end: usize,
}

// The power of ten of a decimal's exponent.
#[derive(Clone, Copy)]
struct Power {
    value: u64,
    negative: bool,
    end: usize,
}

// A whole number of at most `most`.
pub fn whole(line: &[u8], c: Cursor, most: u64, fault: u8) -> Cursor {
    match digits(line, c.from, c.end, 0) {
        Some(d) if (c.end <= d.end) & (d.value <= most) => with_number(line, c, d.value),
        _ => cursor::failed(c, fault),
    }
}

// On the next word, with a number.
fn with_number(line: &[u8], c: Cursor, number: u64) -> Cursor {
    cursor::next(line, Cursor { number, ..c })
}

// A whole number, or a row of them, FIRST..LAST.
pub fn row(line: &[u8], c: Cursor, fault: u8) -> Cursor {
    let dots = digits_end(line, c.from, c.end);
    if (record_wire::u8_at(line, dots) != b'.') | (record_wire::u8_at(line, past(dots)) != b'.') {
        let d = whole(line, c, u64::MAX, fault);
        return Cursor {
            last: d.number,
            ..d
        };
    }
    let first = digits(line, c.from, c.end, 0);
    match (first, digits(line, past(past(dots)), c.end, 0)) {
        (Some(first), Some(d)) if (c.end <= d.end) & (first.value <= d.value) => {
            let last = d.value;
            with_number(line, Cursor { last, ..c }, first.value)
        }
        _ => cursor::failed(c, fault),
    }
}

// A tree id: ROOT, its low half, or its high and low half with a colon between them.
pub fn tree(line: &[u8], c: Cursor, fault: u8) -> Cursor {
    let zeros = Cursor {
        high: 0,
        number: 0,
        ..c
    };
    if cursor::is(line, c, b"ROOT") {
        return cursor::next(line, zeros);
    }
    let colon = digits_end(line, c.from, c.end);
    if record_wire::u8_at(line, colon) != b':' {
        return whole(line, zeros, u64::MAX, fault);
    }
    let high = digits(line, c.from, c.end, 0);
    match (high, digits(line, past(colon), c.end, 0)) {
        (Some(d), Some(low)) if c.end <= low.end => {
            let high = d.value;
            with_number(line, Cursor { high, ..c }, low.value)
        }
        _ => cursor::failed(c, fault),
    }
}

// A decimal, of which the cursor's number is the bits, or these bits themselves, `0x` and hexadecimal digits.
pub fn float(line: &[u8], c: Cursor, fault: u8) -> Cursor {
    let is_hexadecimal = (record_wire::u8_at(line, c.from) == b'0')
        & (record_wire::u8_at(line, past(c.from)) == b'x');
    let bits = if is_hexadecimal {
        hexadecimal(line, past(past(c.from)), c.end)
    } else {
        decimal(line, c.from, c.end)
    };
    match bits {
        Some(number) => with_number(line, c, number),
        None => cursor::failed(c, fault),
    }
}

// A number of sixteen hexadecimal digits at most.
fn hexadecimal(line: &[u8], from: usize, end: usize) -> Option<u64> {
    if end <= from {
        return None;
    }
    let mut value: u64 = 0;
    for at in from..end {
        let digit = char::from(record_wire::u8_at(line, at)).to_digit(16)?;
        value = value.checked_mul(16)?.checked_add(digit as u64)?;
    }
    Some(value)
}

// The value of a hexadecimal digit, 16 if it is none.
pub fn hex_digit(byte: u8) -> u8 {
    match byte {
        b'0'..=b'9' => byte - b'0',
        b'a'..=b'f' => byte - b'a' + 10,
        b'A'..=b'F' => byte - b'A' + 10,
        _ => 16,
    }
}

// The bits of a decimal.
fn decimal(line: &[u8], from: usize, end: usize) -> Option<u64> {
    let sign = sign_at(line, from);
    let whole_part = digits(line, sign.end, end, 0)?;
    let mantissa = with_fraction(line, end, whole_part)?;
    let power = exponent(line, mantissa.end, end)?;
    if (power.end < end) | (MOST_DIGITS < mantissa.value) {
        return None;
    }
    let up = if power.negative { 0 } else { power.value };
    let down = if power.negative { power.value } else { 0 };
    let all_down = mantissa.count.checked_add(down)?;
    if MOST_POWER < up.abs_diff(all_down) {
        return None;
    }
    let x = scaled(mantissa.value, up, all_down);
    let signed = if sign.negative { -x } else { x };
    if !signed.is_finite() {
        return None;
    }
    Some(signed.to_bits())
}

// The digits from `from` on, put behind the digits of a number before them, if there is one and the number fits.
fn digits(line: &[u8], from: usize, end: usize, before: u64) -> Option<DigitRun> {
    let mut value = before;
    for at in from..end {
        let Some(digit) = char::from(record_wire::u8_at(line, at)).to_digit(10) else {
            return run(from, at, value);
        };
        value = value.checked_mul(10)?.checked_add(digit as u64)?;
    }
    run(from, end, value)
}

// Where the digits from `from` on end.
fn digits_end(line: &[u8], from: usize, end: usize) -> usize {
    for at in from..end {
        if !is_digit(record_wire::u8_at(line, at)) {
            return at;
        }
    }
    from.max(end)
}

// A run from one place to before another, unless it is empty.
fn run(from: usize, end: usize, value: u64) -> Option<DigitRun> {
    let count = end.checked_sub(from)? as u64;
    if count < 1 {
        return None;
    }
    Some(DigitRun { value, count, end })
}

// Whether a byte is a decimal digit.
pub fn is_digit(byte: u8) -> bool {
    byte.is_ascii_digit()
}

// The sign at a place, if one stands there.
fn sign_at(line: &[u8], at: usize) -> Sign {
    let byte = record_wire::u8_at(line, at);
    if (byte == b'-') | (byte == b'+') {
        return Sign {
            negative: byte == b'-',
            end: past(at),
        };
    }
    Sign {
        negative: false,
        end: at,
    }
}

// A decimal's digits without the point, with the count of those behind it.
fn with_fraction(line: &[u8], end: usize, whole_part: DigitRun) -> Option<DigitRun> {
    if record_wire::u8_at(line, whole_part.end) != b'.' {
        return Some(DigitRun {
            count: 0,
            ..whole_part
        });
    }
    digits(line, past(whole_part.end), end, whole_part.value)
}

// The exponent at a place, 0 where none stands there.
fn exponent(line: &[u8], at: usize, end: usize) -> Option<Power> {
    let byte = record_wire::u8_at(line, at);
    if (byte != b'e') & (byte != b'E') {
        return Some(Power {
            value: 0,
            negative: false,
            end: at,
        });
    }
    let sign = sign_at(line, past(at));
    let d = digits(line, sign.end, end, 0)?;
    Some(Power {
        value: d.value,
        negative: sign.negative,
        end: d.end,
    })
}

// The place after a place.
pub fn past(at: usize) -> usize {
    std::num::wrapping_add_usize(at, 1)
}

// A number times a power of ten, divided by another.
pub fn scaled(value: u64, up: u64, down: u64) -> f64 {
    let x = std::num::nearest_u64_to_f64(value);
    let factor = ten_to(up.abs_diff(down));
    if up < down { x / factor } else { x * factor }
}

// A power of ten.
pub fn ten_to(power: u64) -> f64 {
    let mut x = 1.0;
    for _ in 0..power {
        x *= 10.0;
    }
    x
}
