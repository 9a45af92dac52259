// Batch records in `batchcheck`: made piece by piece, and why bytes are none. Proved safe and ending, no more.
#![tactic(auto)]

pub mod draft;
pub mod malformed;
