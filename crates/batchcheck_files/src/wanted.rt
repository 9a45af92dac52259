// The numbers that a text's calls should answer, a number to a line of a file. Empty lines and comments mean nothing.
use program_text::lines::Input;
use program_text::print::{Out, put};
use program_text::{cursor, decimal, faults, lines};
use std::io::Read;

// The largest number of document 01's table that a call answers.
const MOST_ANSWER: u64 = 21;

// Where the reading of the file stands.
#[derive(Clone, Copy)]
pub struct Wanted {
    input: Input,
    // How many numbers were read, and the last one.
    pub count: u64,
    pub number: u64,
    // Whether a line was bad, and whether a read failed.
    pub faulty: bool,
    pub failed: bool,
}

// Before the first number of a file, if there is one.
pub fn of(is_there: bool) -> Wanted {
    Wanted {
        input: lines::of(),
        count: 0,
        number: 0,
        faulty: false,
        failed: !is_there,
    }
}

// With the number of call n read, if the file has so many.
pub fn up_to<R: Read>(
    out: &mut Out,
    before: Wanted,
    n: u64,
    file: &mut R,
    chunk: &mut [u8; 65536],
    text: &mut [u8; 8192],
) -> Wanted {
    let mut w = before;
    // Nothing says that a file ends: this is a number that no run uses up.
    for _ in 0..u64::MAX {
        if is_read(w, n) {
            break;
        }
        w = with_line(out, w, file, chunk, text);
    }
    w
}

// Whether n numbers are read, or there are no more.
fn is_read(w: Wanted, n: u64) -> bool {
    let i = w.input;
    (n <= w.count) | i.ended | w.failed
}

// With a line read.
fn with_line<R: Read>(
    out: &mut Out,
    before: Wanted,
    file: &mut R,
    chunk: &mut [u8; 65536],
    text: &mut [u8; 8192],
) -> Wanted {
    let mut w = before;
    let i = lines::next(before.input, file, chunk, text);
    w.input = i;
    w.failed = i.failed;
    let line = lines::line(text, i);
    let c = cursor::first(line);
    if cursor::is_done(c) {
        return w;
    }
    let d = decimal::whole(line, c, MOST_ANSWER, faults::ANSWER);
    let e = if cursor::is_done(d) {
        d
    } else {
        cursor::failed(d, faults::LINE_END)
    };
    w.count = std::num::wrapping_add_u64(before.count, 1);
    w.number = e.number;
    if e.fault != 0 {
        put(out, b"expected numbers, ");
        faults::tell(out, i.number, line, e);
        w.faulty = true;
    }
    w
}
