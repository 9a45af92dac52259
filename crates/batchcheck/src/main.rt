// Reads texts of calls and says, call by call, which batch is taken and which is refused, and why; answers the questions between them:
// docs/BATCHCHECK.md. What decides is the library `cartgravel`. Nothing of this program is proved but that it is safe and ends.
#![tactic(auto)]

mod perform;
mod run;
mod status;

use batchcheck_decode::decode;
use batchcheck_files::{descriptors, records};
use batchcheck_options::Options;
use perform::Show;
use program_text::lines::part;
use program_text::print::{Out, put};
use program_text::{cursor, decimal, print};
use run::run;
use status::{REFUSED, RIGHT, UNREAD, worse};
use std::fs::File;
use std::io;
use std::io::{ErrorKind, Read, Write};

// The largest number that a descriptor has.
const MOST_DESCRIPTOR: u64 = 1023;

// Reads the arguments and runs what they name.
fn main(rt: HostRuntime) {
    let mut out = print::blank(rt.stdout());
    let o = batchcheck_options::all(&rt);
    let status = run_all(&rt, &mut out, o);
    print::flush(&mut out);
    if let Some(i) = o.status {
        tell_status(&rt, i, status);
    }
}

// Writes the status to the descriptor that an argument names.
fn tell_status(rt: &HostRuntime, i: usize, status: u8) {
    let mut text = [0u8; 4096];
    let n = batchcheck_options::argument(rt, i, &mut text);
    let word = &text[..n];
    let c = decimal::whole(word, cursor::first(word), MOST_DESCRIPTOR, 1);
    if c.fault == 0 {
        write_status(rt, c.number, status);
    }
}

// Writes a status of one digit to a descriptor, if it is open for writing.
fn write_status(rt: &HostRuntime, descriptor: u64, status: u8) {
    let digit = [b'0' + status % 10];
    match descriptor {
        1 => {
            let _ = rt.stdout().write_all(&digit);
        }
        2 => {
            let _ = rt.stderr().write_all(&digit);
        }
        _ => descriptors::write(rt, descriptor, &digit),
    }
}

// Runs what the arguments name, or standard input.
fn run_all(rt: &HostRuntime, out: &mut Out, o: Options) -> u8 {
    if !o.good {
        put(
            out,
            b"usage: batchcheck [--quiet] [--tree] [--heard] [--expect FILE] [--record FILE] [--decode FILE] [--] [FILE..]\n",
        );
        return UNREAD;
    }
    if o.tasks < 1 {
        return run_open(rt, out, &mut rt.stdin(), &[], o);
    }
    run_tasks(rt, out, o)
}

// Everything that the arguments name, each text from the blank state.
fn run_tasks(rt: &HostRuntime, out: &mut Out, all: Options) -> u8 {
    let mut o = batchcheck_options::again(all);
    let mut status = RIGHT;
    for i in 1..batchcheck_options::count(rt) {
        o = batchcheck_options::with_argument(rt, o, i);
        status = worse(status, run_task(rt, out, i, o, 1 < all.tasks));
    }
    status
}

// What an argument names, if anything.
fn run_task(rt: &HostRuntime, out: &mut Out, i: usize, o: Options, several: bool) -> u8 {
    let task = o.task;
    match task {
        batchcheck_options::TEXT => run_text(rt, out, i, o, several),
        batchcheck_options::RECORD => run_record(rt, out, i),
        _ => RIGHT,
    }
}

// The record of a file as a text.
fn run_record(rt: &HostRuntime, out: &mut Out, i: usize) -> u8 {
    let mut text = [0u8; 4096];
    let n = batchcheck_options::argument(rt, i, &mut text);
    let name = &text[..n];
    let mut bytes = [0u8; 12489];
    let read = records::read(rt, name, &mut bytes);
    put(out, b"# ");
    put(out, name);
    let Ok(length) = read else {
        put(out, b": cannot be read\n");
        return UNREAD;
    };
    put(out, b"\n");
    if decode(out, part(&bytes, length)) {
        return RIGHT;
    }
    REFUSED
}

// The text that an argument names.
fn run_text(rt: &HostRuntime, out: &mut Out, i: usize, o: Options, several: bool) -> u8 {
    let mut text = [0u8; 4096];
    let n = batchcheck_options::argument(rt, i, &mut text);
    let name = &text[..n];
    if several {
        put(out, b"== ");
        put(out, name);
        put(out, b"\n");
    }
    if name == b"-".as_slice() {
        return run_open(rt, out, &mut rt.stdin(), &[], o);
    }
    match opened(rt, out, name) {
        Some(mut file) => run_open(rt, out, &mut file, name, o),
        None => UNREAD,
    }
}

// A file for reading, or nothing, and why there is none.
fn opened(rt: &HostRuntime, out: &mut Out, name: &[u8]) -> Option<File> {
    match records::open(rt, name) {
        Ok(file) => Some(file),
        Err(error) => {
            put(out, name);
            tell_reason(out, error.kind());
            None
        }
    }
}

// Says why a file cannot be opened.
fn tell_reason(out: &mut Out, error: ErrorKind) {
    if let ErrorKind::NotFound = error {
        put(out, b": there is no such file\n");
        return;
    }
    put(out, b": cannot be opened\n");
}

// An open text, with the numbers that its calls should answer if the options name a file of them.
fn run_open<R: Read>(rt: &HostRuntime, out: &mut Out, file: &mut R, name: &[u8], o: Options) -> u8 {
    let show = Show {
        quiet: o.quiet,
        tree: o.tree,
        heard: o.heard,
        expect: o.expect.is_some(),
        record: o.record,
    };
    let Some(i) = o.expect else {
        return run(rt, out, file, &mut io::empty(), name, show);
    };
    let mut text = [0u8; 4096];
    let n = batchcheck_options::argument(rt, i, &mut text);
    match opened(rt, out, &text[..n]) {
        Some(mut numbers) => run(rt, out, file, &mut numbers, name, show),
        None => UNREAD,
    }
}
