// The status with which `batchcheck` ends.

// Every call was taken or gave the number that was expected; one was refused or gave another, or a line was bad; a file could not be read or written.
pub(crate) const RIGHT: u8 = 0;

pub(crate) const REFUSED: u8 = 1;

pub(crate) const UNREAD: u8 = 2;

// The worse of two.
pub(crate) fn worse(a: u8, b: u8) -> u8 {
    if a < b { b } else { a }
}

// The status of what is good or not.
pub(crate) fn good(is_good: bool) -> u8 {
    if is_good { RIGHT } else { REFUSED }
}
