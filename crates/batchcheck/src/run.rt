// A text of calls, line by line.
use crate::perform;
use crate::perform::Show;
use crate::status::{REFUSED, RIGHT, UNREAD, good, worse};
use batchcheck_calls::script;
use batchcheck_calls::script::Call;
use batchcheck_files::wanted;
use batchcheck_files::wanted::Wanted;
use batchcheck_record::draft;
use program_text::lines::Input;
use program_text::print::{Out, put};
use program_text::{lines, print, roles};
use std::io::Read;

// Every call of an open text, whose name is known unless it is standard input; `numbers` is the open file of the numbers that they should answer,
// and nothing is read from it where none is expected.
pub(crate) fn run<R: Read, N: Read>(
    rt: &HostRuntime,
    out: &mut Out,
    file: &mut R,
    numbers: &mut N,
    name: &[u8],
    show: Show,
) -> u8 {
    let mut chunk = [0u8; 65536];
    let mut text = [0u8; 8192];
    let mut list = [0u8; 65536];
    let mut entry = [0u8; 8192];
    let mut roles = roles::known();
    let mut input = lines::of();
    let mut wanted = wanted::of(show.expect);
    let mut call = script::blank();
    let mut draft = draft::blank();
    let mut state = state_array::blank();
    let mut status = RIGHT;
    // Nothing says that a text ends: this is a number that no run uses up.
    for _ in 0..u64::MAX {
        flush_at_read(out, input);
        input = lines::next(input, file, &mut chunk, &mut text);
        if input.ended {
            break;
        }
        let line = lines::line(&text, input);
        call = with_line(out, call, &mut draft, line, input, &mut roles);
        if call.stage == script::DUE {
            wanted = wanted::up_to(out, wanted, call.number, numbers, &mut list, &mut entry);
            let mut bytes = [0u8; 12489];
            let due = perform::loaded(rt, call, &draft, line, name, &mut bytes);
            let told = with_number(due, wanted, show.expect);
            let answered = perform::perform(rt, out, &mut state, told, &bytes, line, show, &roles);
            status = worse(status, answered);
            call = script::finished(call);
        }
    }
    let last = script::at_end(out, call, input.number);
    let n = past(last.number);
    wanted = wanted::up_to(out, wanted, n, numbers, &mut list, &mut entry);
    worse(status, finish(out, last, input, wanted, show.expect))
}

// The number after a number.
fn past(n: u64) -> u64 {
    std::num::wrapping_add_u64(n, 1)
}

// Writes what is kept before more is read, so that who types a text sees each answer.
fn flush_at_read(out: &mut Out, input: Input) {
    if lines::is_used_up(input) {
        print::flush(out);
    }
}

// With a line read.
fn with_line(
    out: &mut Out,
    call: Call,
    draft: &mut draft::Draft,
    line: &[u8],
    input: Input,
    roles: &mut [u8; 4096],
) -> Call {
    script::with_line(out, call, draft, line, input.number, input.cut, roles)
}

// A call that is due, with the number of a file that it should answer, unless a line of the text says one.
fn with_number(call: Call, w: Wanted, expects: bool) -> Call {
    let mut p = call;
    if expects & call.expected.is_none() {
        p.expected = Some(if w.count == call.number {
            w.number
        } else {
            batchcheck_say::MISSING
        });
    }
    p
}

// Says at the end of a text if it had no call, or could not be read to its end, or has fewer calls than numbers are expected.
fn finish(out: &mut Out, call: Call, input: Input, w: Wanted, expects: bool) -> u8 {
    if input.failed {
        print::of_number(out, b"line #: cannot be read\n", input.number);
        return UNREAD;
    }
    if expects & w.failed {
        put(out, b"the file of expected numbers cannot be read\n");
        return UNREAD;
    }
    if call.number < w.count {
        put(out, b"more numbers are expected than there are calls\n");
        return REFUSED;
    }
    if call.number < 1 {
        put(out, b"no calls\n");
    }
    good(!call.faulty & !w.faulty)
}
