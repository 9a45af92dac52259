// The abstract state: its definition stands in specs/, its laws in proofs/. Here is the part of it that the code names too.
#![tactic(auto)]

use ids::FullNodeId;

// The root and the focus of a tree, as ids.
#[derive(Clone, Copy)]
pub struct SubtreeState {
    pub root: FullNodeId,
    pub focus: FullNodeId,
}
