// Records in files.
use crate::paths;
use program_text::lines::{part, read_full};
use std::io::{ErrorKind, Read, Write};
use std::rt::Files;
use std::{fs, io};

// Reads the record that a text names; how long it is. Of one that is longer than a record may be it reads as much as there is room for, which is
// refused.
pub fn read_beside<'a>(
    rt: &impl Files,
    text: &'a [u8],
    name: &'a [u8],
    bytes: &mut [u8; 12489],
) -> io::Result<usize> {
    let mut path = [0u8; 4096];
    let n = paths::beside(&mut path, text, name);
    read(rt, part(&path, n), bytes)
}

// Reads a record from a file; how long it is.
pub fn read(rt: &impl Files, name: &[u8], bytes: &mut [u8; 12489]) -> io::Result<usize> {
    let mut file = open(rt, name)?;
    let length = read_full(&mut file, bytes);
    // One read more tells the file's end from a read that fails.
    let mut rest = [0u8; 1];
    file.read(&mut rest)?;
    Ok(length)
}

// Opens a file for reading.
pub fn open<R: Files>(rt: &R, name: &[u8]) -> io::Result<R::File> {
    fs::open(rt, path_of(name)?)
}

// Writes the record of a call to a file, in whose name a `#` stands for the call's number.
pub fn write(rt: &impl Files, name: &[u8], call: u64, bytes: &[u8]) -> io::Result<()> {
    let mut path = [0u8; 4096];
    let n = paths::numbered(&mut path, name, call);
    let mut file = fs::create(rt, path_of(part(&path, n))?)?;
    file.write_all(bytes)
}

// A name as a path. One that is no UTF-8 names no file that can be opened.
fn path_of(name: &[u8]) -> io::Result<&str> {
    str::from_utf8(name).map_err(|_| io::Error::from(ErrorKind::InvalidInput))
}
