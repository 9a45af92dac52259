// The text of `batchcheck`: the lines of a file, the words of a line, numbers, names of roles, and what is wrong with a line. Proved safe and
// ending, no more.
#![tactic(auto)]

pub mod cursor;
pub mod decimal;
pub mod faults;
pub mod lines;
pub mod print;
pub mod roles;
pub mod unbuffered;
pub mod utf8;
