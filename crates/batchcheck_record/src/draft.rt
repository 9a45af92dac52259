// A batch record made piece by piece: document 01, "The batch record". There is room for more than the record's limits, so that one past
// each can be handed to the library, which refuses it.
ghost use Rattle.std.specs.Prelude.{◌<◌, ◌≤◌};

// How many nodes, children and label bytes there is room for.
pub const NODE_ROOM: usize = 65;

pub const CHILD_ROOM: usize = 257;

pub const LABEL_ROOM: usize = 2049;

// Flags of a node.
pub const HIDDEN: u64 = 1;

pub const CLIPS: u64 = 2;

pub const ACTIVE: u64 = 4;

pub const GRAFT: u64 = 8;

pub const BOUNDS: u64 = 16;

pub const TRANSFORM: u64 = 32;

// A batch in the making: its head, then its nodes, children and label bytes. What finds no room is left out, and what is never said is zero.
pub type Draft = [u64; 3355];

// The words of the head: the tree, the root and the focus, as a record has them; whether there is tree data, how many nodes, children and label
// bytes there are, and what was said already.
const HIGH: usize = 0;

const LOW: usize = 1;

const ROOT: usize = 2;

const FOCUS: usize = 3;

const TREE_DATA: usize = 4;

const NODE_COUNT: usize = 5;

const CHILD_COUNT: usize = 6;

const LABEL_LENGTH: usize = 7;

const SAID: usize = 8;

// Where the nodes start, sixteen words each as a record has them, the children, and the label bytes, one a word.
const NODES: usize = 9;

const CHILDREN: usize = 1049;

const LABELS: usize = 1306;

// The words of a node that are written one by one.
const ACTIVE_WORD: usize = 1;

const GRAFT_HIGH: usize = 2;

const GRAFT_LOW: usize = 3;

const PLACES: usize = 4;

const ROLE_AND_FLAGS: usize = 5;

// A batch for ROOT without tree data that lists nothing.
pub fn blank() -> Draft {
    [0u64; 3355]
}

// Makes a batch blank.
pub fn clear(draft: &mut Draft) {
    *draft = blank();
}

// How many nodes are listed, children named, label bytes said.
pub fn node_count(draft: &Draft) -> usize
    ensures { result ≤ 65 }
{
    (draft[NODE_COUNT] as usize).min(65)
}

pub fn child_count(draft: &Draft) -> usize
    ensures { result ≤ 257 }
{
    (draft[CHILD_COUNT] as usize).min(257)
}

pub fn label_length(draft: &Draft) -> usize
    ensures { result ≤ 2049 }
{
    (draft[LABEL_LENGTH] as usize).min(2049)
}

// Whether something was said, by its bit; the lowest three are said of the call, the others of the node listed last.
pub fn is_said(draft: &Draft, what: u64) -> bool {
    draft[SAID] & what != 0
}

// Notes that something was said.
pub fn say(draft: &mut Draft, what: u64) {
    let said = draft[SAID];
    draft[SAID] = said | what;
}

// The tree that the batch is for.
pub fn set_tree(draft: &mut Draft, high: u64, low: u64) {
    draft[HIGH] = high;
    draft[LOW] = low;
}

// Gives it tree data.
pub fn set_root(draft: &mut Draft, root: u64) {
    draft[TREE_DATA] = 1;
    draft[ROOT] = root;
}

// The focus.
pub fn set_focus(draft: &mut Draft, focus: u64) {
    draft[FOCUS] = focus;
}

// Lists a node. What follows is said of the node listed last.
pub fn list_node(draft: &mut Draft, id: u64) {
    let i = node_count(draft);
    if NODE_ROOM <= i {
        return;
    }
    let at = NODES + 16 * i;
    let places = quarters(child_count(draft), 0, label_length(draft), 0);
    let said = draft[SAID];
    draft[at] = id;
    draft[at + PLACES] = places;
    draft[NODE_COUNT] = i as u64 + 1;
    draft[SAID] = said % 8;
}

// Names a child.
pub fn add_child(draft: &mut Draft, id: u64) {
    let k = child_count(draft);
    if CHILD_ROOM <= k {
        return;
    }
    draft[CHILDREN + k] = id;
    draft[CHILD_COUNT] = k as u64 + 1;
    add(draft, PLACES, 65536);
}

// A byte more of its label.
pub fn add_letter(draft: &mut Draft, byte: u8) {
    let k = label_length(draft);
    if LABEL_ROOM <= k {
        return;
    }
    draft[LABELS + k] = byte as u64;
    draft[LABEL_LENGTH] = k as u64 + 1;
    add(draft, PLACES, 281474976710656);
}

// Takes back the label bytes from a place on.
pub fn cut_labels(draft: &mut Draft, length: usize) {
    draft[LABEL_LENGTH] = length as u64;
}

// Its role, where none was said.
pub fn set_role(draft: &mut Draft, role: u64) {
    add(draft, ROLE_AND_FLAGS, role % 256);
}

// Sets a flag that it does not have yet.
pub fn set_flag(draft: &mut Draft, bit: u64) {
    add(draft, ROLE_AND_FLAGS, 256 * (bit % 256));
}

// The tree that it grafts.
pub fn set_graft(draft: &mut Draft, high: u64, low: u64) {
    set(draft, GRAFT_HIGH, high);
    set(draft, GRAFT_LOW, low);
}

// Its active descendant.
pub fn set_active_descendant(draft: &mut Draft, id: u64) {
    set(draft, ACTIVE_WORD, id);
}

// One of its ten numbers, by its bits: bounds at 0 to 3, transform at 4 to 9.
pub fn set_float(draft: &mut Draft, place: usize, bits: u64) {
    set(draft, 6 + place % 10, bits);
}

// Writes a word of the node listed last.
fn set(draft: &mut Draft, field: usize, word: u64)
    requires { field < 16 }
{
    let at = last(draft) + field;
    draft[at] = word;
}

// Adds to a word of the node listed last.
fn add(draft: &mut Draft, field: usize, more: u64)
    requires { field < 16 }
{
    let at = last(draft) + field;
    let word = draft[at];
    draft[at] = std::num::wrapping_add_u64(word, more);
}

// Where the words of the node listed last start.
fn last(draft: &Draft) -> usize
    ensures { result ≤ 1033 }
{
    let n = node_count(draft);
    if n < 1 {
        return NODES;
    }
    NODES + 16 * (n - 1)
}

// Writes the record; how long it is.
pub fn write(draft: &Draft, bytes: &mut [u8; 12489]) -> usize {
    let n = node_count(draft);
    let c = child_count(draft);
    let k = label_length(draft);
    let children_at = 64 + 128 * n;
    let labels_at = children_at + 8 * c;
    put_words(&mut bytes[64..], &draft[NODES..NODES + 16 * n]);
    put_words(&mut bytes[children_at..], &draft[CHILDREN..CHILDREN + c]);
    put_bytes(&mut bytes[labels_at..], &draft[LABELS..LABELS + k]);
    put_header(bytes, draft, children_at, labels_at)
}

// Writes the header of a record whose children and labels start at these places; how long the record is.
fn put_header(
    bytes: &mut [u8; 12489],
    draft: &Draft,
    children_at: usize,
    labels_at: usize,
) -> usize {
    let n = node_count(draft);
    let c = child_count(draft);
    let k = label_length(draft);
    let total = std::num::wrapping_add_usize(labels_at, k);
    let tree_data = (draft[TREE_DATA] as usize).min(1);
    let words = [
        quarters(n, c, k, tree_data),
        quarters(64, 0, children_at, 0),
        quarters(labels_at, 0, total, 0),
    ];
    put_words(bytes, &words);
    put_words(&mut bytes[24..], &draft[HIGH..TREE_DATA]);
    total
}

// Four numbers of sixteen bits, lowest first.
fn quarters(a: usize, b: usize, c: usize, d: usize) -> u64 {
    let low = (a % 65536 + 65536 * (b % 65536)) as u64;
    let high = (c % 65536 + 65536 * (d % 65536)) as u64;
    low + 4294967296 * high
}

// Writes words at the start of bytes, the lowest byte of each first.
fn put_words(bytes: &mut [u8], words: &[u64]) {
    for (place, word) in bytes.chunks_exact_mut(8).zip(words) {
        place.copy_from_slice(&word.to_le_bytes());
    }
}

// The same, one byte a word.
fn put_bytes(bytes: &mut [u8], words: &[u64]) {
    for (byte, word) in bytes.iter_mut().zip(words) {
        *byte = (word % 256) as u8;
    }
}
