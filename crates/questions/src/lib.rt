// Modules 6 to 8, the questions about a node: their definitions stand in specs/, their laws in proofs/. Here are the kinds that both the
// definitions and the code name, as the crate has them.
#![tactic(auto)]

use ids::FullNodeId;

// What a filter says of a node (src/filters.rs).
#[derive(Clone, Copy)]
pub enum FilterResult {
    // The node is shown.
    Include,
    // The node is not shown; its children stand in its place.
    ExcludeNode,
    // Neither the node nor anything below it is shown.
    ExcludeSubtree,
}

// The three filters of src/filters.rs.
#[derive(Clone, Copy)]
pub enum Filter {
    // `common_filter`
    Common,
    // `common_filter_with_root_exception`
    WithRootException,
    // `common_filter_without_parent_checks`
    WithoutParentChecks,
}

// A side of a node among its siblings.
#[derive(Clone, Copy)]
pub enum Side {
    // Those after it, in order.
    Following,
    // Those before it, the nearest first.
    Preceding,
}

// A sibling walk that the caller keeps: plain numbers, so that any bytes are a walk. specs/Kept has what the numbers mean.
#[repr(C)]
#[derive(Clone, Copy)]
pub struct Walk {
    // Whose siblings are walked.
    pub node: FullNodeId,
    // 0 following, 1 preceding.
    pub side: u32,
    // 0 none, 1 `common_filter`, 2 with the root exception, 3 without parent checks.
    pub filter: u32,
    // How many siblings, nearest first, were handed out.
    pub count: u64,
}
