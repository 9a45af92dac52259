// Paths of files, made of parts. One that is too long is empty, so that it names no file.
use program_text::print::decimal_digits;

// A path in the making, whose bytes stand in a lent array: how many they are, and whether all found room.
#[derive(Clone, Copy)]
pub struct Path {
    length: usize,
    fits: bool,
}

// The path of a file that a text names: beside the text, unless it starts at the root; how long it is.
pub fn beside<'a>(path: &mut [u8; 4096], text: &'a [u8], name: &'a [u8]) -> usize {
    if record_wire::u8_at(name, 0) == b'/' {
        return joined(path, &[name]);
    }
    joined(path, &[folder(text), name])
}

// A path in which the first `#` stands for a number; how long it is.
pub fn numbered(path: &mut [u8; 4096], name: &[u8], number: u64) -> usize {
    let Some(mark) = name.iter().position(|&byte| byte == b'#') else {
        return joined(path, &[name]);
    };
    let mut digits = [0u8; 20];
    let first = decimal_digits(number, &mut digits);
    joined(path, &[&name[..mark], &digits[first..], &name[mark + 1..]])
}

// Puts parts one behind another, as far as there is room; how long they are, 0 where there is not room for all.
fn joined(path: &mut [u8; 4096], parts: &[&[u8]]) -> usize {
    let mut whole = Path {
        length: 0,
        fits: true,
    };
    for part in parts {
        let n = whole.length;
        let taken = part.len().min(path.len() - n);
        path[n..n + taken].copy_from_slice(&part[..taken]);
        whole.length = n + taken;
        whole.fits = whole.fits & (taken == part.len());
    }
    if whole.fits { whole.length } else { 0 }
}

// The folder of a path, its last slash included.
fn folder(path: &[u8]) -> &[u8] {
    match path.iter().rposition(|&byte| byte == b'/') {
        Some(slash) => &path[..slash + 1],
        None => &[],
    }
}
