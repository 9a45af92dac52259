// The names of roles: 16 bytes a role number, zeros after its name.
ghost use Rattle.std.specs.Prelude.{◌≤◌};

// The names that every file begins with.
pub fn known() -> [u8; 4096] {
    let mut roles = [0u8; 4096];
    set(&mut roles, 0, b"GenericContainer");
    set(&mut roles, 1, b"TextRun");
    set(&mut roles, 2, b"Dialog");
    set(&mut roles, 3, b"AlertDialog");
    roles
}

// Names a role.
pub fn set(roles: &mut [u8; 4096], role: u64, name: &[u8]) {
    let at = start_of(role);
    for (i, byte) in roles[at..at + 16].iter_mut().enumerate() {
        *byte = record_wire::u8_at(name, i);
    }
}

// The number of a name, 256 if no role has it.
pub fn find(roles: &[u8; 4096], name: &[u8]) -> u64 {
    (0..256)
        .find(|&role| has_name(roles, role, name))
        .unwrap_or(256)
}

// Whether a role has a name.
fn has_name(roles: &[u8; 4096], role: u64, name: &[u8]) -> bool {
    if name.is_empty() | (16 < name.len()) {
        return false;
    }
    let at = start_of(role);
    roles[at..at + 16]
        .iter()
        .enumerate()
        .all(|(i, &byte)| byte == record_wire::u8_at(name, i))
}

// Whether a word can name a role: a letter, then letters, digits, `-` and `_`.
pub fn is_name(name: &[u8]) -> bool {
    (name.len() <= 16)
        & record_wire::u8_at(name, 0).is_ascii_alphabetic()
        & name.iter().all(|&byte| is_name_byte(byte))
}

// Whether a byte can stand in a name.
fn is_name_byte(byte: u8) -> bool {
    byte.is_ascii_alphanumeric() | (byte == b'-') | (byte == b'_')
}

// Where a role's name starts.
fn start_of(role: u64) -> usize
    ensures { result ≤ 4080 }
{
    16 * ((role % 256) as usize)
}
