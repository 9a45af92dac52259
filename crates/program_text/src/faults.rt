// What can be wrong with a line, and how it is said: what was found, and what was expected.
use crate::cursor::Cursor;
use crate::print::{Out, put};
use crate::{cursor, lines, print, utf8};

// The faults, named by what was expected: the lines of `expected`, from 1 on.
pub const OUTSIDE: u8 = 1;

pub const INSIDE: u8 = 2;

pub const NODE: u8 = 3;

pub const ROW: u8 = 4;

pub const TREE: u8 = 5;

pub const ROLE_NUMBER: u8 = 6;

pub const ROLE_NAME: u8 = 7;

pub const NAME_TAKEN: u8 = 8;

pub const PROPERTY: u8 = 9;

pub const ONCE: u8 = 10;

pub const FLOAT: u8 = 11;

pub const QUOTE: u8 = 12;

pub const ESCAPE: u8 = 13;

pub const LINE_END: u8 = 14;

pub const START_WORD: u8 = 15;

pub const BATCH_WORD: u8 = 16;

pub const ROOM: u8 = 17;

pub const SWITCH: u8 = 18;

pub const FILE: u8 = 19;

pub const NODE_ROOM: u8 = 20;

pub const CHILD_ROOM: u8 = 21;

pub const LABEL_ROOM: u8 = 22;

pub const FOCUS: u8 = 23;

pub const END: u8 = 24;

pub const FILE_END: u8 = 25;

pub const SHORTER: u8 = 26;

pub const ASKED_NODE: u8 = 27;

pub const QUESTION: u8 = 28;

pub const SIDE: u8 = 29;

pub const FILTER: u8 = 30;

pub const COUNT: u8 = 31;

pub const ANSWER: u8 = 32;

pub const CALL: u8 = 33;

// How many bytes of a word are shown.
const MOST_SHOWN: usize = 60;

// Says what is wrong with a line.
pub fn tell(out: &mut Out, number: u64, line: &[u8], c: Cursor) {
    print::of_number(out, b"line #: ", number);
    found(out, line, c);
    put(out, b"; expected ");
    expected(out, c.fault);
    put(out, b"\n");
}

// Says what was found.
fn found(out: &mut Out, line: &[u8], c: Cursor) {
    if c.fault == SHORTER {
        put(out, b"more than 8192 bytes");
        return;
    }
    if (c.fault == FILE_END) | (c.fault == CALL) {
        put(out, b"the file ends");
        return;
    }
    if c.end <= c.from {
        put(out, b"the line ends");
        return;
    }
    put(out, b"found `");
    printable(out, cursor::word(line, c));
    put(out, b"`");
}

// Writes a word of any bytes, at most 60 of them.
fn printable(out: &mut Out, word: &[u8]) {
    let plain = utf8::is_plain(word);
    for &byte in lines::part(word, MOST_SHOWN) {
        print::letter(out, byte, plain);
    }
    if MOST_SHOWN < word.len() {
        put(out, b"..");
    }
}

// Says what was expected, a line for each fault.
fn expected(out: &mut Out, fault: u8) {
    if ASKED_NODE <= fault {
        expected_of_question(out, fault - ASKED_NODE);
        return;
    }
    print::put_line(
        out,
        b"\n\
        role, start, batch, host, ask or expect, since no call is open\n\
        node, root, focus, tree or end\n\
        a node number, 0 to 18446744073709551615\n\
        a node number, 0 to 18446744073709551615, or FIRST..LAST\n\
        a tree id: ROOT, a number or HIGH:LOW\n\
        a role number, 0 to 255\n\
        a name of at most 16 letters that is no word of a node line\n\
        a name that no other role has\n\
        a named role, a label, children, active, graft, bounds, transform, hidden or clips\n\
        no second one\n\
        a decimal of at most 15 digits, its power of ten from -22 to 22, or 0x and hexadecimal digits\n\
        a closing quote\n\
        only the escapes \\\", \\\\ and \\xHH\n\
        the end of the line\n\
        raw, unfocused or the end of the line\n\
        raw, room or the end of the line\n\
        a number of elements, 0 to 1024\n\
        on or off\n\
        a file that can be read\n\
        at most 65 nodes in a call\n\
        at most 257 children in a call\n\
        at most 2049 label bytes in a call\n\
        a focus line before it\n\
        end, since a call is open\n\
        end, since a call is open\n\
        a shorter line\n",
        fault as u64,
    );
}

// The same of the faults of a question and of what is expected, from the first of these on.
fn expected_of_question(out: &mut Out, fault: u8) {
    print::put_line(
        out,
        b"a node number, 0 to 18446744073709551615, or (TREE, NODE), two numbers\n\
        read, label, hidden, transform, box, parent, children, siblings, filter, filtered-parent, filtered-children, first-child, \
        last-child, deepest-first-child, deepest-last-child, filtered-siblings or walk\n\
        following or preceding\n\
        common, root-exception or without-parent-checks\n\
        how many were handed out, 0 to 18446744073709551615, behind a filter or none\n\
        a number of the table, 0 to 21\n\
        a call behind the expect line\n",
        fault as u64,
    );
}
