ghost use Rattle.std.specs.Prelude.{◌≡◌, ◌≢◌, ◌<◌, ◌≤◌, ◌^◌, ℕ, List, Option, Some, reverse};
ghost use Rattle.lola_bits.specs.Lists.{IsIn};
ghost use Rattle.lola_tree.specs.Tree.{Tree, ActualTree, assignment, ModuleTree, SourceTree};
ghost use Rattle.lola_tree.specs.Width.{scope_of, width};
ghost use Rattle.lola_tree.specs.design.Signals.{Signal, register, signals};
ghost use Rattle.lola_tree.specs.design.Equations.{Equation, Update, updates};
ghost use Rattle.lola_tree.specs.design.Chains.{names_in, arrays_in, paths_of, right_paths, right_arrays, flat_equations};
ghost use Rattle.lola_tree.specs.design.Places.{Place, places};
ghost use Rattle.lola_tree.specs.Value.{Values, value};
ghost use Rattle.lola_tree.specs.Cycle.{names_at};
ghost use Rattle.lola_width.specs.Sized.{IsWellSized};
ghost use Rattle.lola_design.specs.Regular.{IsVector, AreRead, ReadsSuit, update_paths, update_arrays, ValuesFit};
ghost use Rattle.lola_regular.specs.Clocked.{AreClocked};
ghost use Rattle.lola_regular.specs.Written.{IsWritten};

use lola_design::one_path;
use lola_regular::{names_are_once, one_clock, pads_are_pads};
use lola_width::what_numbers_elements;

/// In a well sized design every signal but a register is a vector.
pub fn types_are_vectors()
    ensures { (S : SourceTree) (x : Signal) → IsWellSized S → IsIn x (signals S) → x.kind ≢ register → IsVector x.type }
{}

/// What the equations and the updates of a well sized design read are signals: as vectors those but the
/// clock that are vectors, and as arrays registers that are arrays.
pub fn reads_are_signals()
    ensures equations { (S : SourceTree) (e : Equation) → IsWellSized S → IsWritten S → AreClocked (reverse S.modules) → IsIn e (flat_equations S) → AreRead S (right_paths e.right) (right_arrays e.right) }
    ensures updates { (S : SourceTree) (u : Update) → IsWellSized S → IsWritten S → AreClocked (reverse S.modules) → IsIn u (updates S) → AreRead S (update_paths u) (update_arrays u) }
{}

/// Each expression that a well sized design assigns has a width of one bit at least.
pub fn values_have_widths()
    ensures { (S : SourceTree) (m : ModuleTree) (name : List ℕ) (place : Option ActualTree) (e : Tree) (at equals : ℕ) → IsWellSized S → IsWritten S → IsIn m (reverse S.modules) → IsIn (assignment name place e at equals) m.body → (w : ℕ) × (1 ≤ w) × (width (scope_of m) e ≡ Some w) }
{
    what_numbers_elements();
}

/// The value of an expression that a well sized design assigns at a path is below 2 to its width, where
/// what it reads has values of its types.
pub fn values_are_below()
    ensures { (S : SourceTree) (a : Place) (name : List ℕ) (place : Option ActualTree) (e : Tree) (at equals : ℕ) (v : Values) (w : ℕ) → IsWellSized S → IsWritten S → AreClocked (reverse S.modules) → IsIn a (places S) → IsIn (assignment name place e at equals) a.module_.body → ReadsSuit S (paths_of a.path (names_in (scope_of a.module_) e)) (paths_of a.path (arrays_in e)) v → width (scope_of a.module_) e ≡ Some w → value (scope_of a.module_) e (names_at a.path v) < 2 ^ w }
{
    what_numbers_elements();
}

/// In a well sized design what an equation or an update gives fits the signal that it sets, and no place is
/// past an array, where what is read has values of its types.
pub fn values_fit()
    ensures { (S : SourceTree) → IsWellSized S → IsWritten S → ValuesFit S }
{
    names_are_once();
    one_clock();
    pads_are_pads();
    what_numbers_elements();
    one_path();
}
