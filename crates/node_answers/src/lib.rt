// What the questions about a node and about a state answer: what is asked for, or why the question is refused.
#![tactic(auto)]

ghost use Rattle.std.specs.Prelude.{◌≡◌};

use geometry::{Affine, Rect};
use ids::{NodeId, TreeId};

// Why a question is refused, with the number that document 01 gives it ("Numbers a call can return").
#[derive(Clone, Copy, Debug, PartialEq, Eq)]
pub enum Refusal {
    // 1: the state is not sound.
    NotSound,
    // 2: a side or a filter by its number, as a kept walk has them, is none of ours.
    NotOurs,
    // 21: the lent slice is too short.
    TooShort,
    // 22: the node is not there.
    NotPresent,
}

impl Refusal {
    ghost use Rattle.node_answers.specs.Answers.{refusal_number};

    // Document 01's number of it.
    pub fn number(self) -> u8
        ensures { result ≡ refusal_number self }
    {
        match self {
            Refusal::NotSound => 1,
            Refusal::NotOurs => 2,
            Refusal::TooShort => 21,
            Refusal::NotPresent => 22,
        }
    }
}

// What a node says of itself: its own hidden flag, its own bounds and transform. `child_count` is of a graft 1 where its tree exists, else 0.
#[derive(Clone, Copy)]
pub struct NodeReading {
    pub role: u8,
    pub hidden: bool,
    pub clips_children: bool,
    pub label_length: usize,
    pub child_count: usize,
    pub bounds: Option<Rect>,
    pub transform: Option<Affine>,
    pub active_descendant: Option<NodeId>,
    pub graft: Option<TreeId>,
}

// How many nodes and tree numbers there are, and whether the host has the focus.
#[derive(Clone, Copy)]
pub struct Counts {
    pub nodes: usize,
    pub trees: usize,
    pub host_focused: bool,
}
