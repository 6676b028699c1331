ghost use Rattle.std.specs.Prelude.{◌≡◌, ℕ, List, map};
ghost use Rattle.lola_tree.specs.Tree.{SourceTree};
ghost use Rattle.lola_tree.specs.Value.{Values};
ghost use Rattle.lola_tree.specs.design.Signals.{signals, signal_paths};
ghost use Rattle.lola_tree.specs.design.Chains.{IsLoop, HasLoop};
ghost use Rattle.lola_tree.specs.design.Cycle.{IsState, IsGiven, HasOneCycle};
ghost use Rattle.lola_order.specs.Graph as graph;
ghost use Rattle.lola_design.specs.Graph.{design_graph, paths_at};
ghost use Rattle.lola_design.specs.Regular.{IsRegular};
ghost use Rattle.lola_flat.specs.Tree.{FlatTree};
ghost use Rattle.lola_unfold.specs.Flat.{flat_signal, flat_graph, IsElaborated};

use lola_design::{loops, one_cycle, one_equation, one_path};
use lola_order::one_order;

/// What the equations of the flat design of a regular source use is what occurs in the equations of the
/// source, so the closed chains of its numbers are those of its paths.
pub fn flat_uses()
    ensures graph { (S : SourceTree) → IsRegular S → flat_graph (map (flat_signal S) (signals S)) ≡ design_graph S }
    ensures names { (S : SourceTree) (numbers : List ℕ) → IsRegular S → graph.IsLoop (flat_graph (map (flat_signal S) (signals S))) numbers → IsLoop S (paths_at (signal_paths S) numbers) }
{
    one_equation();
    one_path();
    loops();
}

/// A source whose flat design has an order has no closed chain, and from each state under each input exactly
/// one cycle.
pub fn elaborated_cycle()
    ensures cycle { (S : SourceTree) (F : FlatTree) (s inp : Values) → IsRegular S → IsElaborated S F → IsState S s → IsGiven S inp → HasOneCycle S s inp }
    ensures chain { (S : SourceTree) (F : FlatTree) → IsRegular S → IsElaborated S F → HasLoop S → ⊥ }
{
    flat_uses();
    one_cycle();
    loops();
    one_order();
}
