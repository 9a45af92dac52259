// The state as a whole: its focus, ROOT's root, its trees and its counts. Each question is refused where the state is not sound.
ghost use Rattle.std.specs.Prelude.{◌≡◌};
ghost use Rattle.state.specs.Down.{root_of};
ghost use Rattle.state_array.specs.View.{view};
ghost use Rattle.questions.specs.Answers.{state_number};
ghost use Rattle.node_answers.specs.Answers.{number_of};
ghost use Rattle.node_answers.specs.TreeState.{focus_answer, root_answer, tree_id_at, tree_index_at, tree_ends, tree_id_answer, tree_index_answer, tree_ends_answer, counts_answer};

use ids::{FullNodeId, TreeId, TreeIndex};
use node_answers::{Counts, Refusal};
use state::SubtreeState;
use state_array::State;

// The answer of `TreeState::focus`: none without host focus.
pub fn focus(state: &State) -> Result<Option<FullNodeId>, Refusal>
    ensures { result ≡ focus_answer (view state.now) }
{
    asked(state)?;
    Ok(state_focus::focus(state))
}

// ROOT's root.
pub fn root(state: &State) -> Result<Option<FullNodeId>, Refusal>
    ensures { result ≡ root_answer (view state.now).forest }
{
    asked(state)?;
    Ok(found_root(state))
}

// The tree id of a tree number; none where the number is not taken.
pub fn tree_id(state: &State, index: TreeIndex) -> Result<Option<TreeId>, Refusal>
    ensures { result ≡ tree_id_answer (view state.now).forest index }
{
    asked(state)?;
    Ok(found_id(state, index))
}

// The number of a tree id; none where it has none.
pub fn tree_index(state: &State, id: TreeId) -> Result<Option<TreeIndex>, Refusal>
    ensures { result ≡ tree_index_answer (view state.now).forest id }
{
    asked(state)?;
    Ok(found_index(state, id))
}

// The root and the focus of a tree; none where it does not exist.
pub fn tree_ends(state: &State, index: TreeIndex) -> Result<Option<SubtreeState>, Refusal>
    ensures { result ≡ tree_ends_answer (view state.now).forest index }
{
    asked(state)?;
    Ok(found_ends(state, index))
}

// How many nodes and tree numbers there are, and whether the host has the focus.
pub fn counts(state: &State) -> Result<Counts, Refusal>
    ensures { result ≡ counts_answer (view state.now) }
{
    asked(state)?;
    Ok(Counts {
        nodes: state_array::slots(state),
        trees: state_array::trees(state),
        host_focused: state_array::host(state) != 0,
    })
}

// Whether the state can be asked: it is sound.
fn asked(state: &State) -> Result<(), Refusal>
    ensures { number_of result ≡ state_number (view state.now).forest }
{
    if !state_sound::sound(state) {
        return Err(Refusal::NotSound);
    }
    Ok(())
}

// ROOT's root.
fn found_root(state: &State) -> Option<FullNodeId>
    ensures { result ≡ root_of (view state.now).forest }
{
    let Some(e) = state_lookup::tree_of(state, TreeId { high: 0, low: 0 }) else {
        return None;
    };
    let x = e.root;
    Some(x)
}

// The id of the tree with a number.
fn found_id(state: &State, index: TreeIndex) -> Option<TreeId>
    ensures { result ≡ tree_id_at (view state.now).forest index }
{
    let k = index.0 as usize;
    if state_array::trees(state) <= k {
        return None;
    }
    let t = state_array::tree_at(state, k);
    let id = t.id;
    Some(id)
}

// The number of a tree id.
fn found_index(state: &State, id: TreeId) -> Option<TreeIndex>
    ensures { result ≡ tree_index_at (view state.now).forest id }
{
    let k = state_lookup::find_tree(state, id);
    if state_array::trees(state) <= k {
        return None;
    }
    Some(TreeIndex(k as u32))
}

// The root and the focus of the tree with a number.
fn found_ends(state: &State, index: TreeIndex) -> Option<SubtreeState>
    ensures { result ≡ tree_ends (view state.now).forest index }
{
    let k = index.0 as usize;
    if state_array::trees(state) <= k {
        return None;
    }
    let t = state_array::tree_at(state, k);
    if t.exists == 0 {
        return None;
    }
    let root = t.root;
    let focus = t.focus;
    Some(SubtreeState {
        root: FullNodeId {
            tree: index,
            node: root,
        },
        focus: FullNodeId {
            tree: index,
            node: focus,
        },
    })
}
