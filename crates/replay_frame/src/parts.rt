// The parts of an answer that can differ, each a bit, in the order in which `replay` names them.
pub const NUMBER: u64 = 1;

pub const STATE: u64 = 2;

pub const LENGTHS: u64 = 4;

pub const FOCUS: u64 = 8;

pub const EXTRA: u64 = 16;

pub const SLICE: u64 = 32;

pub const VALUE: u64 = 64;

// A part where it differs, else 0.
pub fn part_if(differs: bool, part: u64) -> u64 {
    if differs { part } else { 0 }
}
