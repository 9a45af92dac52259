// The calls that a text of `batchcheck` says: each is read line by line. Proved safe and ending, no more.
#![tactic(auto)]

mod node_line;
pub mod script;
