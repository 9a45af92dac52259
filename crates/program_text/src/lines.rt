// The lines of a file, read through a fixed buffer, so that neither the file's length nor a line's has a limit.

ghost use Rattle.std.specs.Prelude.{◌≤◌, length};

use std::io::Read;

// Where the reading of a file stands.
#[derive(Clone, Copy)]
pub struct Input {
    // What is left of the bytes read last: from one place to before another.
    from: usize,
    end: usize,
    // The line read last: its number, how many of its bytes are kept, and whether it had more.
    pub number: u64,
    pub length: usize,
    pub cut: bool,
    // Whether there was no line more, and whether a read failed.
    pub ended: bool,
    pub failed: bool,
}

// Before the first line of an open file.
pub fn of() -> Input {
    Input {
        from: 0,
        end: 0,
        number: 0,
        length: 0,
        cut: false,
        ended: false,
        failed: false,
    }
}

// Reads the next line of an open file, without its newline.
pub fn next<R: Read>(
    input: Input,
    file: &mut R,
    chunk: &mut [u8; 65536],
    line: &mut [u8; 8192],
) -> Input {
    let mut i = input;
    i.length = 0;
    i.cut = false;
    i.number = std::num::wrapping_add_u64(input.number, 1);
    // Nothing says that a file ends, so the turns have a bound that no run reaches.
    for _ in 0..u64::MAX {
        i = filled(i, file, chunk);
        if i.end <= i.from {
            return at_end(i);
        }
        let byte = record_wire::u8_at(chunk, i.from);
        i.from = std::num::wrapping_add_usize(i.from, 1);
        if byte == b'\n' {
            return i;
        }
        i = with_byte(i, line, byte);
    }
    at_end(i)
}

// With bytes to read, if there are more.
fn filled<R: Read>(input: Input, file: &mut R, chunk: &mut [u8; 65536]) -> Input {
    if input.from < input.end {
        return input;
    }
    let mut i = input;
    i.from = 0;
    match file.read(chunk) {
        Ok(n) => {
            i.end = n;
            i.failed = false;
        }
        Err(_) => {
            i.end = 0;
            i.failed = true;
        }
    }
    i
}

// Where the file ends: the last line may have no newline.
fn at_end(input: Input) -> Input {
    let mut i = input;
    i.ended = input.length < 1;
    i
}

// With a byte more of the line.
fn with_byte(input: Input, line: &mut [u8; 8192], byte: u8) -> Input {
    let n = input.length;
    let mut i = input;
    if 8191 < n {
        i.cut = true;
        return i;
    }
    line[n] = byte;
    i.length = n + 1;
    i
}

// The line read last. A byte order mark at the start of a file is no part of it.
pub fn line(text: &[u8; 8192], input: Input) -> &[u8] {
    let all = part(text, input.length);
    let mark = (record_wire::u8_at(all, 0) == 239)
        & (record_wire::u8_at(all, 1) == 187)
        & (record_wire::u8_at(all, 2) == 191);
    if (input.number == 1) & mark {
        return between(all, 3, input.length);
    }
    all
}

// Whether the next line is read from the file, and not from the bytes read last.
pub fn is_used_up(input: Input) -> bool {
    input.end <= input.from
}

// Reads until a buffer is full, the file ends or a read fails; how many bytes stand in it then.
pub fn read_full<R: Read>(file: &mut R, buffer: &mut [u8]) -> usize
    ensures { result ≤ length buffer.new }
{
    let mut done: usize = 0;
    // Each read but the last moves a byte at least.
    for _ in 0..buffer.len() {
        match file.read(&mut buffer[done..]) {
            Ok(n) if 0 < n => done += n,
            _ => return done,
        }
        if buffer.len() <= done {
            return done;
        }
    }
    done
}

// The first n bytes, or all.
pub fn part(bytes: &[u8], n: usize) -> &[u8] {
    &bytes[..n.min(bytes.len())]
}

// The bytes from one place to before another, none where they do not lie so.
pub fn between(bytes: &[u8], from: usize, end: usize) -> &[u8] {
    bytes.get(from..end).unwrap_or(&[])
}
