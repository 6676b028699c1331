ghost use Rattle.std.specs.Prelude.{◌≡◌, ◌≤◌, ◌↔◌, ℕ, List, reverse};
ghost use Rattle.lola_tree.specs.Tree.{SourceTree};
ghost use Rattle.lola_tree.specs.Value.{Path, Values};
ghost use Rattle.lola_tree.specs.design.Signals.{signals, signal_paths};
ghost use Rattle.lola_tree.specs.design.Equations.{Holds, updates};
ghost use Rattle.lola_tree.specs.design.Chains.{flat_equations, HasLoop, IsLoop};
ghost use Rattle.lola_tree.specs.design.Cycle.{IsState, IsGiven, HasOneCycle};
ghost use Rattle.lola_order.specs.Graph.{IsOrder};
ghost use Rattle.lola_order.specs.Graph as graph;
ghost use Rattle.lola_design.specs.Paths.{count, lefts, update_lefts, has_equation, is_register, paths_where};
ghost use Rattle.lola_design.specs.Assigned.{AreAssigned};
ghost use Rattle.lola_design.specs.Once.{AllOnce};
ghost use Rattle.lola_design.specs.Drives.{PadsFit, MeetsAll};
ghost use Rattle.lola_design.specs.Graph.{design_graph, paths_at};
ghost use Rattle.lola_design.specs.Regular.{IsRegular};

use lola_order::one_solution;

/// A pad of an instance carries what the root's pad carries that it stands for: a valuation satisfies a
/// design exactly where it satisfies its equations with each pad that is driven taken as the root's.
pub fn resolved_pads()
    ensures { (S : SourceTree) (outside v : Values) → PadsFit S → Holds S outside v ↔ MeetsAll outside v (flat_equations S) }
{}

/// Each wire and pad of a design whose modules assign each name once has as many equations as it stands
/// among the signals.
pub fn one_equation()
    ensures { (S : SourceTree) (x : Path) → AreAssigned (reverse S.modules) → count x (lefts (flat_equations S)) ≡ count x (paths_where has_equation (signals S)) }
{}

/// Each register has as many assignments as it stands among the signals.
pub fn one_update()
    ensures { (S : SourceTree) (x : Path) → AreAssigned (reverse S.modules) → count x (update_lefts (updates S)) ≡ count x (paths_where is_register (signals S)) }
{}

/// A design whose modules declare each name once has each path once among its signals.
pub fn one_path()
    ensures { (S : SourceTree) (x : Path) → AllOnce (reverse S.modules) → count x (signal_paths S) ≤ 1 }
{}

/// The graph of a design's equations has a closed chain exactly where the design has one, and a loop among
/// its numbers is a loop of the paths with these numbers.
pub fn loops()
    ensures chain { (S : SourceTree) → IsRegular S → graph.HasLoop (design_graph S) ↔ HasLoop S }
    ensures names { (S : SourceTree) (numbers : List ℕ) → IsRegular S → graph.IsLoop (design_graph S) numbers → IsLoop S (paths_at (signal_paths S) numbers) }
{}

/// A design whose equations have an order has exactly one cycle from each state under each input, and
/// exactly one state behind it.
pub fn one_cycle()
    ensures { (S : SourceTree) (order : List ℕ) (s inp : Values) → IsRegular S → IsOrder (design_graph S) order → IsState S s → IsGiven S inp → HasOneCycle S s inp }
{
    one_solution::<u128>();
}
