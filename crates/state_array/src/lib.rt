// The state in memory: one array of words, nodes in ascending order of id. Any words are a value; specs/View says what they stand for.
// It is lent whole, so a function takes one argument for it, and no call copies it.
#![tactic(auto)]

ghost use Rattle.std.specs.Prelude.{◌≡◌, ◌+◌, ◌≤◌, ◌<◌, ◌%◌, ◌^◌, min, ltb, length, set, if◌then◌else◌};
ghost use Rattle.base.specs.Tests.{◌and◌};
ghost use Rattle.base.specs.Bytes.{bit, list_of};
ghost use Rattle.state_array.specs.Layout as at;
ghost use Rattle.state_array.specs.Layout.{blank_words, host_of, entry, word, child, place, entry_place, child_place};
ghost use Rattle.state_array.specs.View.{slots_of, trees_of, id_in, link_in, shape_in, label_byte, label_in, float_in, bounds_in, transform_in, tree_in};
ghost use Rattle.state_array.specs.Stored.{label_word, float_words, body_words, graft_words, data_words};
ghost use Rattle.state_array.specs.Put.{words_put, id_put, link_put, body_put, first_child_put, child_put, tree_put, head_put, host_put, child_entries};

use geometry::{Affine, Rect};
use ids::{FullNodeId, NodeId, TreeId, TreeIndex};

// How many slots for nodes, how many trees, how many child entries.
pub const SLOTS: usize = 320;

pub const TREES: usize = 32;

pub const ENTRIES: usize = 512;

// The most nodes that a sound state has.
pub const MOST_NODES: usize = 256;

// The words of the head, of which three are used.
const COUNT: usize = 0;

const TREE_COUNT: usize = COUNT + 1;

const HOST: usize = TREE_COUNT + 1;

const HEAD: usize = 8;

// The fields of a tree, each one word: the next starts where the one before it ends.
const TREE_HIGH: usize = 0;

const TREE_LOW: usize = TREE_HIGH + 1;

const TREE_ROOT: usize = TREE_LOW + 1;

const TREE_FOCUS: usize = TREE_ROOT + 1;

const TREE_EXISTS: usize = TREE_FOCUS + 1;

pub const TREE_FIELDS: usize = TREE_EXISTS + 1;

// The fields of a node: a label is four words, and the floats are ten.
pub const TREE: usize = 0;

pub const NODE: usize = TREE + 1;

pub const PARENT_TREE: usize = NODE + 1;

pub const PARENT_NODE: usize = PARENT_TREE + 1;

pub const INDEX: usize = PARENT_NODE + 1;

pub const LINKED: usize = INDEX + 1;

pub const GRAFT_HIGH: usize = LINKED + 1;

pub const GRAFT_LOW: usize = GRAFT_HIGH + 1;

pub const FLAGS: usize = GRAFT_LOW + 1;

pub const FIRST_CHILD: usize = FLAGS + 1;

pub const CHILD_COUNT: usize = FIRST_CHILD + 1;

pub const ACTIVE: usize = CHILD_COUNT + 1;

pub const ROLE: usize = ACTIVE + 1;

pub const LABEL_LENGTH: usize = ROLE + 1;

pub const LABEL: usize = LABEL_LENGTH + 1;

pub const FLOATS: usize = LABEL + 4;

pub const FIELDS: usize = FLOATS + 10;

// Where the regions start: the head, the table of trees, the nodes, the child entries.
const TABLE: usize = HEAD;

const NODES: usize = TABLE + TREES * TREE_FIELDS;

const CHILDREN: usize = NODES + SLOTS * FIELDS;

pub const WORDS: usize = CHILDREN + ENTRIES;

// The state.
pub type State = [u64; WORDS];

// A node's parent and its place among the parent's children. `linked` is 0 where it has none: a row is words, as they stand in memory.
#[derive(Clone, Copy)]
pub struct LinkRow {
    pub parent: FullNodeId,
    pub index: u64,
    pub linked: u64,
}

// What going down reads of a node: the tree that it grafts, the record's flags (bit 0 hidden, 1 clips children, 2 active descendant, 3 graft,
// 4 bounds, 5 transform), and its part of the child entries.
#[derive(Clone, Copy)]
pub struct ShapeRow {
    pub graft: TreeId,
    pub flags: u64,
    pub first_child: u64,
    pub child_count: u64,
}

// A node's data as it stands in memory, its children aside: the graft, the record's flags, how many children there are, the active
// descendant, the role, the label's length and its bytes as little-endian words, the bounds and the transform as bit patterns.
#[derive(Drop)]
pub struct Body {
    pub graft: TreeId,
    pub flags: u64,
    pub child_count: u64,
    pub active_descendant: NodeId,
    pub role: u64,
    pub label_length: u64,
    pub label: [u64; 4],
    pub floats: [u64; 10],
}

// A tree number's row. `exists` is 0 while the tree does not exist.
#[derive(Clone, Copy)]
pub struct TreeRow {
    pub id: TreeId,
    pub root: NodeId,
    pub focus: NodeId,
    pub exists: u64,
}

// No node and no tree: what a refused start hands back. It is not sound.
pub fn blank() -> State
    ensures { result ≡ blank_words }
{
    [0u64; WORDS]
}

// Makes a state blank.
pub fn clear(state: &mut State)
    ensures { state.new ≡ blank_words }
{
    let blank = [0u64; WORDS];
    *state = blank;
}

// How many slots hold nodes.
pub fn slots(state: &State) -> usize
    ensures { result ≡ slots_of state.now }
{
    let count = state[COUNT];
    if count < SLOTS as u64 {
        count as usize
    } else {
        SLOTS
    }
}

// How many trees have numbers; one more than the table has where there are too many.
pub fn trees(state: &State) -> usize
    ensures { result ≡ trees_of state.now }
{
    let count = state[TREE_COUNT];
    if count <= TREES as u64 {
        count as usize
    } else {
        TREES + 1
    }
}

// 0 where the host has no focus.
pub fn host(state: &State) -> u64
    ensures { result ≡ host_of state.now }
{
    state[HOST]
}

// Field f of slot i, 0 past the last field and past the last slot; so with every read below.
pub fn word_at(state: &State, f: usize, i: usize) -> u64
    ensures { result ≡ word state.now f i }
{
    if FIELDS <= f {
        return 0;
    }
    if i < SLOTS {
        state[NODES + SLOTS * f + i]
    } else {
        0
    }
}

// How many words a state has. Nothing is known of the length behind a `&mut State` on entry: a writer calls this to know it.
pub fn size(state: &State) -> usize
    ensures { (result ≡ at.WORDS) × (length state.now ≡ at.WORDS) }
{
    let words: &[u64] = state;
    words.len()
}

// Field j of tree k.
fn entry_at(state: &State, j: usize, k: usize) -> u64
    requires { j < at.TREE_FIELDS }
    ensures { result ≡ entry state.now j k }
{
    if k < TREES {
        state[TABLE + TREES * j + k]
    } else {
        0
    }
}

// Child entry j from `first` on, `own` past the last.
pub fn child_at(state: &State, own: NodeId, first: u64, j: usize) -> NodeId
    ensures { result ≡ record { 0 = child state.now own.0 (first + j) } }
{
    if ENTRIES as u64 <= first {
        return own;
    }
    let start = first as usize;
    if ENTRIES - start <= j {
        return own;
    }
    NodeId(state[CHILDREN + (start + j)])
}

// The id in a slot.
pub fn id_at(state: &State, i: usize) -> FullNodeId
    ensures { result ≡ id_in state.now i }
{
    FullNodeId {
        tree: TreeIndex(narrow(word_at(state, TREE, i))),
        node: NodeId(word_at(state, NODE, i)),
    }
}

// A node's parent and place.
pub fn link_at(state: &State, i: usize) -> LinkRow
    ensures { result ≡ link_in state.now i }
{
    LinkRow {
        parent: FullNodeId {
            tree: TreeIndex(narrow(word_at(state, PARENT_TREE, i))),
            node: NodeId(word_at(state, PARENT_NODE, i)),
        },
        index: word_at(state, INDEX, i),
        linked: word_at(state, LINKED, i),
    }
}

// A node's graft, flags and children.
pub fn shape_at(state: &State, i: usize) -> ShapeRow
    ensures { result ≡ shape_in state.now i }
{
    ShapeRow {
        graft: TreeId {
            high: word_at(state, GRAFT_HIGH, i),
            low: word_at(state, GRAFT_LOW, i),
        },
        flags: word_at(state, FLAGS, i),
        first_child: word_at(state, FIRST_CHILD, i),
        child_count: word_at(state, CHILD_COUNT, i),
    }
}

// A node's active descendant, 0 where it has none.
pub fn active_descendant_at(state: &State, i: usize) -> NodeId
    ensures { result.0 ≡ word state.now at.ACTIVE i }
{
    NodeId(word_at(state, ACTIVE, i))
}

// A node's role.
pub fn role_at(state: &State, i: usize) -> u64
    ensures { result ≡ word state.now at.ROLE i }
{
    word_at(state, ROLE, i)
}

// The length of a node's label.
pub fn label_len(state: &State, i: usize) -> u64
    ensures { result ≡ word state.now at.LABEL_LENGTH i }
{
    word_at(state, LABEL_LENGTH, i)
}

// Byte j of a node's label, 0 past its room.
pub fn label_byte(state: &State, i: usize, j: usize) -> u8
    ensures { result ≡ label_byte state.now i j }
{
    if 32 <= j {
        return 0;
    }
    let w = word_at(state, LABEL + j / 8, i);
    let byte = (w >> (8 * (j % 8))) % 256;
    byte as u8
}

// Number k of the ten of a node.
fn float_at(state: &State, i: usize, k: usize) -> f64
    requires { k < 10 }
    ensures { result ≡ float_in state.now i k }
{
    record_wire::f64_of(word_at(state, FLOATS + k, i))
}

// A node's bounds.
pub fn bounds_at(state: &State, i: usize) -> Rect
    ensures { result ≡ bounds_in state.now i }
{
    Rect {
        x0: float_at(state, i, 0),
        y0: float_at(state, i, 1),
        x1: float_at(state, i, 2),
        y1: float_at(state, i, 3),
    }
}

// A node's transform.
pub fn transform_at(state: &State, i: usize) -> Affine
    ensures { result ≡ transform_in state.now i }
{
    Affine {
        a: float_at(state, i, 4),
        b: float_at(state, i, 5),
        c: float_at(state, i, 6),
        d: float_at(state, i, 7),
        e: float_at(state, i, 8),
        f: float_at(state, i, 9),
    }
}

// A node's data as it stands in memory, bytes past the label's end as 0. Where the fields obey the record's rules it is as an image holds it.
pub fn body_at(state: &State, i: usize) -> Body
    ensures { result ≡ body_words state.now i }
{
    Body {
        graft: TreeId {
            high: word_at(state, GRAFT_HIGH, i),
            low: word_at(state, GRAFT_LOW, i),
        },
        flags: word_at(state, FLAGS, i),
        child_count: word_at(state, CHILD_COUNT, i),
        active_descendant: NodeId(word_at(state, ACTIVE, i)),
        role: word_at(state, ROLE, i),
        label_length: word_at(state, LABEL_LENGTH, i),
        label: label_at(state, i),
        floats: floats_at(state, i),
    }
}

// The four words of a node's label, without what stands past its end.
fn label_at(state: &State, i: usize) -> [u64; 4]
    ensures { result ≡ list_of 4 (label_word (label_in state.now i)) }
{
    std::array::from_fn(|k| label_word(state, i, k))
}

// Word k of it.
fn label_word(state: &State, i: usize, k: usize) -> u64
    requires { k < 4 }
    ensures { result ≡ label_word (label_in state.now i) k }
{
    let length = word_at(state, LABEL_LENGTH, i);
    let from = (8 * k) as u64;
    if length <= from {
        return 0;
    }
    low_bytes(word_at(state, LABEL + k, i), length - from)
}

// The low n bytes of a word.
fn low_bytes(w: u64, n: u64) -> u64
    ensures { result ≡ w % 256 ^ min 8 n }
{
    if n < 8 { w % (1u64 << (8 * n)) } else { w }
}

// The ten floats of a node as bit patterns: the bounds, then the transform.
fn floats_at(state: &State, i: usize) -> [u64; 10]
    ensures { result ≡ float_words state.now i }
{
    std::array::from_fn(|k| pattern_at(state, i, k))
}

// The bit pattern of number k of the ten.
fn pattern_at(state: &State, i: usize, k: usize) -> u64
    requires { k < 10 }
    ensures { result ≡ word state.now (at.FLOATS + k) i }
{
    word_at(state, FLOATS + k, i)
}

// A tree number's row.
pub fn tree_at(state: &State, k: usize) -> TreeRow
    ensures { result ≡ tree_in state.now k }
{
    TreeRow {
        id: TreeId {
            high: entry_at(state, TREE_HIGH, k),
            low: entry_at(state, TREE_LOW, k),
        },
        root: NodeId(entry_at(state, TREE_ROOT, k)),
        focus: NodeId(entry_at(state, TREE_FOCUS, k)),
        exists: entry_at(state, TREE_EXISTS, k),
    }
}

// Where field f of slot i stands, past the last word where there is no such place; so with the two below.
pub fn node_place(f: usize, i: usize) -> usize
    ensures { result ≡ (if ltb f at.NODE_FIELDS and ltb i at.SLOTS then place f i else at.WORDS) }
{
    if FIELDS <= f {
        return WORDS;
    }
    if i < SLOTS {
        NODES + SLOTS * f + i
    } else {
        WORDS
    }
}

// Where field j of tree k stands.
pub fn tree_place(j: usize, k: usize) -> usize
    ensures { result ≡ (if ltb j at.TREE_FIELDS and ltb k at.TREES then entry_place j k else at.WORDS) }
{
    if TREE_FIELDS <= j {
        return WORDS;
    }
    if k < TREES {
        TABLE + TREES * j + k
    } else {
        WORDS
    }
}

// Where child entry j stands.
pub fn child_place(j: usize) -> usize
    ensures { result ≡ (if ltb j at.ENTRIES then child_place j else at.WORDS) }
{
    if j < ENTRIES { CHILDREN + j } else { WORDS }
}

// The child entries, a part of the state.
pub fn child_entries(state: &State) -> &[u64]
    ensures { result.now ≡ child_entries state.now }
{
    let words: &[u64] = state;
    &words[CHILDREN..WORDS]
}

// Stores the id of slot i. Past the last slot nothing is stored; so with every writer below.
pub fn put_id(state: &mut State, i: usize, x: FullNodeId)
    ensures { state.new ≡ id_put i x state.old }
{
    if i < SLOTS {
        let words = [x.tree.0 as u64, x.node.0];
        put_words(state, TREE, i, &words);
    }
}

// Stores its link.
pub fn put_link(state: &mut State, i: usize, l: LinkRow)
    ensures { state.new ≡ link_put i l state.old }
{
    if i < SLOTS {
        let words = [l.parent.tree.0 as u64, l.parent.node.0, l.index, l.linked];
        put_words(state, PARENT_TREE, i, &words);
    }
}

// Stores its data, the children aside.
pub fn put_body(state: &mut State, i: usize, body: Body)
    ensures { state.new ≡ body_put i body state.old }
{
    if i < SLOTS {
        put_fields(state, i, body);
    }
}

// Stores the words of a node's data.
fn put_fields(state: &mut State, i: usize, body: Body)
    requires { i < at.SLOTS }
    ensures { state.new ≡ words_put at.CHILD_COUNT i (data_words body) (words_put at.GRAFT_HIGH i (graft_words body) state.old) }
{
    let graft = [body.graft.high, body.graft.low, body.flags];
    put_words(state, GRAFT_HIGH, i, &graft);
    let counts = [
        body.child_count,
        body.active_descendant.0,
        body.role,
        body.label_length,
    ];
    put_words(state, CHILD_COUNT, i, &counts);
    let label = body.label;
    put_words(state, LABEL, i, &label);
    let floats = body.floats;
    put_words(state, FLOATS, i, &floats);
}

// Stores words as the fields from f on of slot i.
fn put_words(state: &mut State, f: usize, i: usize, words: &[u64])
    requires { (f + length words.now ≤ at.NODE_FIELDS) × (i < at.SLOTS) }
    ensures { state.new ≡ words_put f i words.now state.old }
{
    for (k, &w) in words.iter().enumerate() {
        put_word(state, f + k, i, w);
    }
}

// Stores field f of slot i.
fn put_word(state: &mut State, f: usize, i: usize, w: u64)
    requires { (f < at.NODE_FIELDS) × (i < at.SLOTS) }
    ensures { state.new ≡ set state.old (place f i) w }
{
    state[NODES + SLOTS * f + i] = w;
}

// Stores where the children of slot i start.
pub fn put_first_child(state: &mut State, i: usize, first: u64)
    ensures { state.new ≡ first_child_put i first state.old }
{
    if i < SLOTS {
        put_word(state, FIRST_CHILD, i, first);
    }
}

// Stores child entry j.
pub fn put_child(state: &mut State, j: usize, x: NodeId)
    ensures { state.new ≡ child_put j x state.old }
{
    if j < ENTRIES {
        state[CHILDREN + j] = x.0;
    }
}

// Stores the row of tree k.
pub fn put_tree(state: &mut State, k: usize, t: TreeRow)
    ensures { state.new ≡ tree_put k t state.old }
{
    if k < TREES {
        put_entry(state, TREE_HIGH, k, t.id.high);
        put_entry(state, TREE_LOW, k, t.id.low);
        put_entry(state, TREE_ROOT, k, t.root.0);
        put_entry(state, TREE_FOCUS, k, t.focus.0);
        put_entry(state, TREE_EXISTS, k, t.exists);
    }
}

// Stores field j of tree k.
fn put_entry(state: &mut State, j: usize, k: usize, w: u64)
    requires { (j < at.TREE_FIELDS) × (k < at.TREES) }
    ensures { state.new ≡ set state.old (entry_place j k) w }
{
    state[TABLE + TREES * j + k] = w;
}

// Stores the head: how many nodes, how many trees, the host flag.
pub fn put_head(state: &mut State, nodes: u64, trees: u64, host: u64)
    ensures { state.new ≡ head_put nodes trees host state.old }
{
    state[COUNT] = nodes;
    state[TREE_COUNT] = trees;
    state[HOST] = host;
}

// Stores the host flag alone.
pub fn put_host(state: &mut State, host: u64)
    ensures { state.new ≡ host_put host state.old }
{
    state[HOST] = host;
}

// Whether a node grafts a tree, by its flags.
pub fn is_graft(flags: u64) -> bool
    ensures { result ≡ bit 8 flags }
{
    flags / 8 % 2 == 1
}

// A tree number, cut at the largest.
fn narrow(w: u64) -> u32
    ensures { result ≡ min w 4294967295 }
{
    w.min(4294967295) as u32
}
