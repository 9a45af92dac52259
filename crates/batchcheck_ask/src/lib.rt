// The questions that a text of `batchcheck` asks about a node, and their answers. Proved safe and ending, no more.
#![tactic(auto)]

pub mod answer;
mod question;
