// How `batchcheck` prints ids, nodes and states. Proved safe and ending, no more.
#![tactic(auto)]

pub mod draw;
pub mod print;
