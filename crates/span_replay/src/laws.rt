//! What the text about open spans promises: each function does nothing, and its contract is the promise.
ghost use Rattle.std.specs.Prelude.{◌≡◌, ℕ, None};
ghost use Rattle.span_forest.specs.Spans.{find, IsOpen};
ghost use Rattle.span_replay.specs.Explained.{Reached, open_spans_in};
ghost use Rattle.span_why.specs.Why.{all_trees, lines_with};

use span_core::Core;
use span_core::laws::open_spans_are_a_live_forest;
use span_outlet::Outlet;

/// Where lines have left a registry so, the text about all open spans has one line for each open span, and none for
/// another id.
pub fn each_open_span_has_one_line<O: Outlet, A>(core: &Core<O, A>)
    ensures open { (reached : Reached) → reached.state.core.world.spans ≡ core.now.world.spans →
        (id : ℕ) → IsOpen core.now.world.spans id → lines_with id (all_trees (open_spans_in reached)) ≡ 1 }
    ensures closed { (reached : Reached) → reached.state.core.world.spans ≡ core.now.world.spans →
        (id : ℕ) → find core.now.world.spans id ≡ None → lines_with id (all_trees (open_spans_in reached)) ≡ 0 }
{
    open_spans_are_a_live_forest(core);
}
