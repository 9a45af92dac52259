// The arguments of `batchcheck`. Proved safe and ending, no more.
#![tactic(auto)]

ghost use Rattle.std.specs.Prelude.{◌≤◌};

use program_text::cursor;
use std::env::FillError;
use std::rt::Env;

// What the arguments say so far. An option holds for the files after it, and one after the last file for all.
#[derive(Clone, Copy)]
pub struct Options {
    pub quiet: bool,
    pub tree: bool,
    pub heard: bool,
    // The arguments that name a file of expected numbers, one for records, and the descriptor for the status.
    pub expect: Option<usize>,
    pub record: Option<usize>,
    pub status: Option<usize>,
    // What the last argument is: nothing that is run, a text of calls, or a record to be decoded.
    pub task: u8,
    // How many arguments are run.
    pub tasks: usize,
    // Which option waits for its value, and whether options have ended.
    waits: Option<u64>,
    ended: bool,
    // Whether every option is known.
    pub good: bool,
}

// What is run.
pub const NOTHING: u8 = 0;

pub const TEXT: u8 = 1;

pub const RECORD: u8 = 2;

// The options, by their places in `which_option`: those before `EXPECT` have no value.
const QUIET: u64 = 0;

const TREE: u64 = 1;

const HEARD: u64 = 2;

const END: u64 = 3;

const EXPECT: u64 = 4;

const KEEP: u64 = 5;

const STATUS: u64 = 7;

// How many there are; the one that is left, 6, names a record to be decoded.
const OPTIONS: u64 = 8;

// Before the first argument.
fn none() -> Options {
    Options {
        quiet: false,
        tree: false,
        heard: false,
        expect: None,
        record: None,
        status: None,
        task: NOTHING,
        tasks: 0,
        waits: None,
        ended: false,
        good: true,
    }
}

// How many arguments there are, the program's name among them.
pub fn count(rt: &impl Env) -> usize {
    let mut text = [0u8; 1];
    for i in 0..usize::MAX {
        if let Err(FillError::NotPresent) = rt.arg(i, &mut text) {
            return i;
        }
    }
    usize::MAX
}

// Puts an argument at the start of a text; how long it is, 0 where there is none or it is longer than the text.
pub fn argument(rt: &impl Env, i: usize, text: &mut [u8; 4096]) -> usize
    ensures { result ≤ 4096 }
{
    rt.arg(i, text).unwrap_or(0)
}

// What all arguments say: how many are run, and the options that hold from the first on.
pub fn all(rt: &impl Env) -> Options {
    let mut o = none();
    for i in 1..count(rt) {
        o = after_task(with_argument(rt, o, i));
    }
    o.good = o.good & o.waits.is_none();
    o
}

// Behind an argument that is run the options before it hold no more.
fn after_task(options: Options) -> Options {
    if options.task == NOTHING {
        return options;
    }
    let mut o = none();
    o.status = options.status;
    o.tasks = options.tasks;
    o.ended = options.ended;
    o.good = options.good;
    o
}

// Before the first argument again, with the options that stand behind the last one.
pub fn again(options: Options) -> Options {
    let mut o = options;
    o.tasks = 0;
    o.ended = false;
    o
}

// With an argument more.
pub fn with_argument(rt: &impl Env, options: Options, i: usize) -> Options {
    let mut text = [0u8; 4096];
    let n = argument(rt, i, &mut text);
    let word = &text[..n];
    let mut o = options;
    o.task = NOTHING;
    if let Some(which) = options.waits {
        return with_value(o, which, i);
    }
    if options.ended | !is_option(word) {
        return with_task(o, TEXT);
    }
    with_option(o, which_option(word))
}

// Whether a word is an option: a minus and more.
fn is_option(word: &[u8]) -> bool {
    (record_wire::u8_at(word, 0) == b'-') & (1 < word.len())
}

// Which option a word is.
fn which_option(word: &[u8]) -> u64 {
    let c = cursor::first(word);
    if c.end < word.len() {
        return OPTIONS;
    }
    cursor::which(
        word,
        c,
        b"--quiet --tree --heard -- --expect --record --decode --status",
    )
}

// With an option.
fn with_option(options: Options, which: u64) -> Options {
    let mut o = options;
    o.quiet = options.quiet | (which == QUIET);
    o.tree = options.tree | (which == TREE);
    o.heard = options.heard | (which == HEARD);
    o.ended = which == END;
    if (EXPECT <= which) & (which < OPTIONS) {
        o.waits = Some(which);
    }
    o.good = options.good & (which < OPTIONS);
    o
}

// With the value of the option that waits for it.
fn with_value(options: Options, which: u64, i: usize) -> Options {
    let mut o = options;
    o.waits = None;
    // The program's own name is no value.
    let named = (0 < i).then_some(i);
    match which {
        EXPECT => o.expect = named,
        KEEP => o.record = named,
        STATUS => o.status = named,
        _ => return with_task(o, RECORD),
    }
    o
}

// With an argument that is run.
fn with_task(options: Options, task: u8) -> Options {
    let mut o = options;
    o.task = task;
    o.tasks = std::num::wrapping_add_usize(options.tasks, 1);
    o
}
