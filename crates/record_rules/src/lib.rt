// Number 2: the rules of the batch record, one by one. The definition stands in specs/.
#![tactic(auto)]

// A rule of the record by its number, and the offset of the bytes that break it.
#[derive(Clone, Copy)]
pub struct Offence {
    pub rule: u8,
    pub offset: usize,
}
