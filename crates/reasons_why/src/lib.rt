// A reason as a plain struct, which the parts of `explain` answer. specs/Why.antt says which field holds what for each number.
#![tactic(auto)]

ghost use Rattle.std.specs.Prelude.{◌≡◌};
ghost use Rattle.reasons.specs.Reasons.{accepted};
ghost use Rattle.reasons_why.specs.Why.{why_of};

use ids::{FullNodeId, TreeId};

// Why a number is answered; a field that its number does not use is 0 or nothing.
#[derive(Clone, Copy)]
pub struct Why {
    // A number of document 01's table, 0 where there is no reason.
    pub number: u8,
    // Which rule is broken of the record (2) or of a sound state (1, 19); of 12, 1 for two claims and 2 for a claim and a holder.
    pub rule: u8,
    // A slot (1, 19), an offset (2), a place among the listed nodes (5, 13), a length (15, 17, 20, 21), a tree's number (1, 19).
    pub place: usize,
    // The first place (5), how many elements are lent (21).
    pub other: usize,
    pub tree: TreeId,
    // The node at fault, the node because of which it is, and a third.
    pub node: Option<FullNodeId>,
    pub by: Option<FullNodeId>,
    pub also: Option<FullNodeId>,
}

// No reason.
pub fn no_reason() -> Why
    ensures { result ≡ why_of accepted }
{
    Why {
        number: 0,
        rule: 0,
        place: 0,
        other: 0,
        tree: TreeId { high: 0, low: 0 },
        node: None,
        by: None,
        also: None,
    }
}
