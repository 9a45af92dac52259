// Why bytes are no batch record, number 2: the first rule of document 01's layout that they break, in words, with its number and its offset.
ghost use Rattle.std.specs.Prelude.{◌≤◌};

use program_text::print::{Out, of_number, put, put_line};
use record_layout::Offence;
use record_wire::{u16_at, u32_at, u64_at};

// The rule that the bytes break, as `record_layout::offence` found it.
pub fn reason(out: &mut Out, bytes: &[u8], found: Offence) {
    if found.rule < 14 {
        of_header(out, bytes, found.rule);
    } else {
        of_nodes(out, bytes, found);
    }
    of_number(out, b" (rule #", found.rule as u64);
    of_number(out, b" at byte #)", found.offset as u64);
}

// A rule of the header.
fn of_header(out: &mut Out, bytes: &[u8], rule: u8) {
    let length = bytes.len() as u64;
    let nodes = u16_at(bytes, 0) as u64;
    let children = u16_at(bytes, 2) as u64;
    let labels = u16_at(bytes, 4) as u64;
    let children_at = 64 + 128 * nodes;
    let labels_at = children_at + 8 * children;
    match rule {
        1 => of_number(
            out,
            b"# bytes are too few for the header, which has 64",
            length,
        ),
        2 => of_number(out, b"# nodes, at most 64", nodes),
        3 => of_number(out, b"# children, at most 256", children),
        4 => of_number(out, b"# label bytes, at most 2048", labels),
        5 => put(out, b"the header has an unused flag bit set"),
        6 => of_place(out, b"the nodes start at #", 64, u32_at(bytes, 8)),
        7 => of_place(
            out,
            b"the children start at #",
            children_at,
            u32_at(bytes, 12),
        ),
        8 => of_place(out, b"the labels start at #", labels_at, u32_at(bytes, 16)),
        9 => of_place(
            out,
            b"the labels end at #",
            labels_at + labels,
            u32_at(bytes, 20),
        ),
        10 => of_place(out, b"the record's length is #", length, u32_at(bytes, 20)),
        11 => of_number(out, b"# bytes, at most 12352", length),
        12 => put(out, b"the header has a root without tree data"),
        _ => put(out, b"the header's last 8 bytes are not zero"),
    }
}

// A number of which the header says something else.
fn of_place(out: &mut Out, text: &[u8], at: u64, said: u32) {
    of_number(out, text, at);
    of_number(out, b", the header says #", said as u64);
}

// A rule of a node record, or of all together.
fn of_nodes(out: &mut Out, bytes: &[u8], found: Offence)
    requires { 14 ≤ found.rule }
{
    let start = record_start(found.offset);
    let id = u64_at(bytes, start);
    let rule = found.rule;
    match rule {
        15 => of_label(
            out,
            id,
            u16_at(bytes, std::num::wrapping_add_usize(start, 38)) as u64,
        ),
        25 => of_number(
            out,
            b"the nodes have more or fewer children than the header's #",
            u16_at(bytes, 2) as u64,
        ),
        26 => of_number(
            out,
            b"the nodes have more or fewer label bytes than the header's #",
            u16_at(bytes, 4) as u64,
        ),
        _ => of_node(out, id, rule as u64 - 14),
    }
}

// A label that is too long.
fn of_label(out: &mut Out, id: u64, length: u64) {
    of_number(out, b"the label of node #", id);
    of_number(out, b" has # bytes, at most 32", length);
}

// A rule of a node record, counted from the first.
fn of_node(out: &mut Out, id: u64, rule: u64) {
    of_number(out, b"node # has ", id);
    put_line(
        out,
        b"a byte set that must be zero\n\
        a label that is too long\n\
        an unused flag bit set\n\
        an active descendant without its flag\n\
        a graft without its flag\n\
        bounds without their flag\n\
        a transform without its flag\n\
        bounds with a number that is not finite\n\
        a transform with a number that is not finite\n\
        children that do not follow those of the nodes before it\n\
        a label that does not follow those of the nodes before it\n",
        rule,
    );
}

// Where the node record starts that has an offset: records of 128 bytes stand after a header of 64.
fn record_start(offset: usize) -> usize {
    std::num::wrapping_sub_usize(offset, (offset % 128 + 64) % 128)
}
