// Whether bytes are text that can be printed as it is: UTF-8 without control characters.

// Whether the bytes are UTF-8 without control characters.
pub fn is_plain(bytes: &[u8]) -> bool {
    std::str::from_utf8(bytes).is_ok_and(|text| !text.chars().any(char::is_control))
}

// Whether a byte is printed by its number, in a word that is plain or not.
pub fn is_escaped(byte: u8, plain: bool) -> bool {
    byte.is_ascii_control() | (!byte.is_ascii() & !plain)
}
