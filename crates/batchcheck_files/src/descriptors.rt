// What is written to a file that is open already, by its descriptor's number.
use crate::paths;
use program_text::lines::part;
use std::fs::OpenOptions;
use std::io::Write;
use std::rt::Files;

// Writes bytes behind what is written there. Where that cannot be done nothing is said.
pub fn write(rt: &impl Files, descriptor: u64, bytes: &[u8]) {
    let mut path = [0u8; 4096];
    let n = paths::numbered(&mut path, b"/dev/fd/#", descriptor);
    let Ok(name) = str::from_utf8(part(&path, n)) else {
        return;
    };
    if let Ok(mut file) = OpenOptions::new().append(true).open(rt, name) {
        let _ = file.write_all(bytes);
    }
}
