// What programs print that keep nothing: each piece is written at once.
use crate::print;
use std::io::Write;
use std::rt::Stdout;

// Words as they are. Where they cannot be written the program goes on.
pub fn put(stdout: Stdout, text: &[u8]) {
    let mut writer = stdout;
    let _ = writer.write_all(text);
}

// Line n of a text, the first at 0.
pub fn put_line(stdout: Stdout, text: &[u8], n: u64) {
    let mut out = print::blank(stdout);
    print::put_line(&mut out, text, n);
    print::flush(&mut out);
}

// A text that has one number.
pub fn of_number(stdout: Stdout, text: &[u8], n: u64) {
    let mut out = print::blank(stdout);
    print::of_number(&mut out, text, n);
    print::flush(&mut out);
}
