// Rows 15 to 17 of an outcome, why they refuse it, and the way that leads to the focus; and 20, an outcome with too many nodes.
#![tactic(auto)]

mod way;

ghost use Rattle.std.specs.Prelude.{◌≡◌, ltb, length};
ghost use Rattle.reasons.specs.Reasons.{root_absent, too_many, last_of};
ghost use Rattle.reasons_calls.specs.Outcome.{focus_way, focus_reason};
ghost use Rattle.reasons_calls.specs.Explain.{reason_if};
ghost use Rattle.reasons_why.specs.Why.{why, why_of, why_for, way_words};
ghost use Rattle.state.specs.Down.{root_of};
ghost use Rattle.state_array.specs.View.{view};
ghost use Rattle.update.specs.Numbers.{absent};
ghost use Rattle.update_focus.specs.Numbers.{focus_number};

use ids::TreeId;
use reasons_why::Why;
use state_array::State;

// The number of rows 15 to 17.
pub fn focus_number(next: &State) -> u8
    ensures { result ≡ focus_number (view next.now).forest }
{
    let Some(x) = state_focus::effective_focus(next) else {
        return 15;
    };
    if root_is_absent(next) {
        return 16;
    }
    if state_array::slots(next) <= state_lookup::find_in(next, x) {
        17
    } else {
        0
    }
}

// Row 16: whether ROOT's root is absent.
fn root_is_absent(next: &State) -> bool
    ensures { result ≡ absent (view next.now).forest.nodes (root_of (view next.now).forest) }
{
    let Some(e) = state_lookup::tree_of(next, TreeId { high: 0, low: 0 }) else {
        return true;
    };
    state_array::slots(next) <= state_lookup::find_in(next, e.root)
}

// 15, 16 or 17.
pub fn focus_why(next: &State) -> Why
    ensures { result ≡ why_for (focus_reason (view next.now).forest) }
{
    let number = focus_number(next);
    if number == 0 {
        return reasons_why::no_reason();
    }
    if number == 15 {
        return way_why(next, 15, way::last_graft(next));
    }
    if number == 16 {
        return root_why(next);
    }
    way_why(next, 17, TreeId { high: 0, low: 0 })
}

// The way that leads to the focus, two words for a node, zeros after them.
pub fn write_way<'a, 'b>(next: &'a State, way: &'b mut [u64; 66])
    ensures { way.new ≡ way_words (focus_way (view next.now).forest) }
{
    for (j, word) in way.iter_mut().enumerate() {
        *word = way::word_at(next, j);
    }
}

// 20: how many nodes the outcome has.
pub fn too_many(next: &State) -> Why
    ensures { result ≡ why_for (reason_if (ltb 256 (length (view next.now).forest.nodes)) (too_many (length (view next.now).forest.nodes))) }
{
    let n = state_array::slots(next);
    if n <= 256 {
        return reasons_why::no_reason();
    }
    Why {
        number: 20,
        rule: 0,
        place: n,
        other: 0,
        tree: TreeId { high: 0, low: 0 },
        node: None,
        by: None,
        also: None,
    }
}

// 15 or 17: how long the way is, and its last node.
fn way_why(next: &State, number: u8, tree: TreeId) -> Why
    ensures { result ≡ why number 0 (length (focus_way (view next.now).forest)) 0 tree (last_of (focus_way (view next.now).forest)) None None }
{
    let place = way::length(next);
    let node = way::last(next);
    Why {
        number,
        rule: 0,
        place,
        other: 0,
        tree,
        node,
        by: None,
        also: None,
    }
}

// 16: ROOT's root.
fn root_why(next: &State) -> Why
    ensures { result ≡ why_of (root_absent (root_of (view next.now).forest)) }
{
    let node = way::root(next);
    Why {
        number: 16,
        rule: 0,
        place: 0,
        other: 0,
        tree: TreeId { high: 0, low: 0 },
        node,
        by: None,
        also: None,
    }
}
