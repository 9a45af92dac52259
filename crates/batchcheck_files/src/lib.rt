// The files that `batchcheck` reads and writes beside its texts: records, and the numbers that a text's calls should answer. Proved safe and
// ending, no more.
#![tactic(auto)]

pub mod descriptors;
pub mod paths;
pub mod records;
pub mod wanted;
