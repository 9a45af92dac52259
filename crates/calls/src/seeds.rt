// The state that a start begins with.
ghost use Rattle.std.specs.Prelude.{◌≡◌};
ghost use Rattle.state_array.specs.Layout.{blank_words};
ghost use Rattle.state_array.specs.View.{view};
ghost use Rattle.calls.specs.Rows.{start_rows};
ghost use Rattle.calls.specs.Plain.{seeded};

use ids::TreeId;
use state_array::{State, TreeRow};

// ROOT alone, with the root and the focus of the record, in the blank state.
pub(crate) fn seed(state: &mut State, batch: &[u8], host_focused: u32)
    requires batch_value { start_rows batch.now ≡ 0 }
    requires state_value { state.old ≡ blank_words }
    ensures { view state.new ≡ seeded batch.now host_focused }
{
    let root = record_reader::tree_root(batch);
    let focus = record_reader::tree_focus(batch);
    let row = TreeRow {
        id: TreeId { high: 0, low: 0 },
        root,
        focus,
        exists: 1,
    };
    state_array::put_tree(state, 0, row);
    state_array::put_head(state, 0, 1, replies::host_flag(host_focused));
}
