// Asks whether good states and damaged copies of them are sound: 1 where the definition says so, 0 where not. Standard input has a state to a
// line. Nothing of this program is proved but that it is safe and ends; `stdout` has what the definition says.
#![tactic(auto)]

use program_text::cursor::Cursor;
use program_text::unbuffered::put;
use program_text::{cursor, decimal, faults, lines};
use state_array::State;
use std::rt::Stdout;

// Every line.
fn main(rt: HostRuntime) {
    let mut file = rt.stdin();
    let mut chunk = [0u8; 65536];
    let mut text = [0u8; 8192];
    let mut input = lines::of();
    // Nothing says that standard input ends, so the turns have a bound that no run reaches.
    for _ in 0..u64::MAX {
        input = lines::next(input, &mut file, &mut chunk, &mut text);
        if input.ended {
            return;
        }
        judge(rt.stdout(), lines::line(&text, input));
    }
}

// What `sound` says of a line's state, with its name.
fn judge(stdout: Stdout, line: &[u8]) {
    let name = cursor::first(line);
    if cursor::is_done(name) {
        return;
    }
    let mut state = state_array::blank();
    let c = cursor::next(line, name);
    put_good(
        &mut state,
        cursor::which(line, c, b"blank S waiting grafted"),
    );
    change(&mut state, line, cursor::next(line, c));
    put(stdout, cursor::quoted(line, name));
    say(stdout, state_sound::sound(&state));
}

// A verdict.
fn say(stdout: Stdout, sound: bool) {
    if sound {
        put(stdout, b": 1\n");
        return;
    }
    put(stdout, b": 0\n");
}

// One of the good states, over blank words: 1 is S, root 1 with the children 2 and 3, the focus on 2, host focused; in 2 its node 3 grafts the
// tree 7, which does not exist; in 3 that tree has the root 1 and the focus 1.
fn put_good(state: &mut State, which: u64) {
    if 0 < which {
        change_all(
            state,
            b"head 0 3 head 1 1 head 2 1 tree_root 0 1 tree_focus 0 2 tree_exists 0 1 node 0 1 node 1 2 node 2 3 child_count 0 2 child 0 2 \
            child 1 3 parent_node 1 1 linked 1 1 parent_node 2 1 index 2 1 linked 2 1",
        );
    }
    if 1 < which {
        change_all(state, b"graft_low 2 7 flags 2 8");
    }
    if 2 < which {
        change_all(
            state,
            b"head 0 4 head 1 2 tree_low 1 7 tree_root 1 1 tree_focus 1 1 tree_exists 1 1 tree 3 1 node 3 1 parent_node 3 3 linked 3 1",
        );
    }
}

// Changes the words that a text names.
fn change_all(state: &mut State, text: &[u8]) {
    change(state, text, cursor::first(text));
}

// Changes the words that a line names from a place on.
fn change(state: &mut State, line: &[u8], from: Cursor) {
    let mut c = from;
    for _ in 0..line.len() {
        if cursor::is_done(c) {
            return;
        }
        c = with_word(state, line, c);
    }
}

// Changes a word; where the line goes on.
fn with_word(state: &mut State, line: &[u8], c: Cursor) -> Cursor {
    let field = which_field(line, c);
    let i = decimal::whole(line, cursor::next(line, c), 511, faults::PROPERTY);
    let word = decimal::whole(line, i, u64::MAX, faults::PROPERTY);
    set(state, place(field, i.number), word.number);
    word
}

// Which field a word names: those of the nodes, those of the trees, the child entries, the head.
fn which_field(line: &[u8], c: Cursor) -> u64 {
    cursor::which(
        line,
        c,
        b"tree node parent_tree parent_node index linked graft_high graft_low flags first_child child_count active role label_length \
        label0 label1 label2 label3 float0 float1 float2 float3 float4 float5 float6 float7 float8 float9 \
        tree_high tree_low tree_root tree_focus tree_exists child head",
    )
}

// Where word i of a field stands, past the last word where there is no such field.
fn place(field: u64, i: u64) -> usize {
    let f = (field % 64) as usize;
    let at = (i % 512) as usize;
    let fields = state_array::FIELDS;
    if f < fields {
        return state_array::node_place(f, at);
    }
    let j = f - fields;
    if j < state_array::TREE_FIELDS {
        return state_array::tree_place(j, at);
    }
    match j - state_array::TREE_FIELDS {
        0 => state_array::child_place(at),
        1 => at,
        _ => state_array::WORDS,
    }
}

// Writes a word.
fn set(state: &mut State, at: usize, word: u64) {
    if at < state_array::WORDS {
        state[at] = word;
    }
}
