ghost use Rattle.std.specs.Prelude.{◌≡◌, ◌≢◌, ◌≤◌, ℕ, List, Option, Some, reverse};
ghost use Rattle.lola_tree.specs.Tree.{Tree, ModuleTree, SourceTree};
ghost use Rattle.lola_tree.specs.Names.{names_of};
ghost use Rattle.lola_tree.specs.Width.{vector_width, element_width, elements_width, scope_of, width};
ghost use Rattle.lola_tree.specs.Value.{Path, Values, value};
ghost use Rattle.lola_tree.specs.Cycle.{names_at};
ghost use Rattle.lola_bits.specs.Lists.{IsIn};
ghost use Rattle.lola_tree.specs.design.Signals.{clock, register, size, Signal, signals, elements};
ghost use Rattle.lola_tree.specs.design.Cycle.{AreSame, IsSignal, IsState, IsGiven, Cycle, Next, HasOneCycle};
ghost use Rattle.lola_tree.specs.design.Chains.{HasLoop};
ghost use Rattle.lola_width.specs.Sized.{IsWellSized};
ghost use Rattle.lola_design.specs.Once.{AllOnce};
ghost use Rattle.lola_design.specs.Regular.{IsVector, IsArray, AreWithin};
ghost use Rattle.lola_regular.specs.Written.{IsWritten};
ghost use Rattle.lola_flat.specs.Tree.{FlatTree};
ghost use Rattle.lola_flat.specs.Value.{env, Fits};
ghost use Rattle.lola_flat.specs.Value as flat;
ghost use Rattle.lola_flat.specs.Signals.{widths_of};
ghost use Rattle.lola_flat.specs.Formed.{IsFormed};
ghost use Rattle.lola_flat.specs.Cycle.{AreGiven, AreOutside, IsCycle, IsNext};
ghost use Rattle.lola_unfold.specs.Translated.{translated};
ghost use Rattle.lola_unfold.specs.Flat.{seen_from, numbers_of, flat_design, IsElaborated};
ghost use Rattle.lola_meaning.specs.Tables.{elements_of, table_of, given_of, outside_of, state_of, values_of, input_of, Has, StandsAt, IsRowOf};
ghost use Rattle.lola_meaning.specs.Typed.{IsTyped, AreTyped, ClockFits};

use lola_design::one_path;
use lola_regular::{each_is_assigned, names_are_once, one_clock};
use lola_sized::well_sized_is_regular;
use lola_unfold::{elaborated_cycle, flat_uses};
use lola_width::what_numbers_elements;

/// Each signal of a well sized design has a type of some width, what its expressions read has the types that
/// their modules take it for, and what its equations and updates give has the width of their signal.
pub fn types_suit()
    ensures { (S : SourceTree) → IsWellSized S → IsWritten S → AreTyped S }
{
    names_are_once();
    one_clock();
    one_path();
    well_sized_is_regular();
    what_numbers_elements();
}

/// A well sized design with registers has a clock, which is one port of one bit.
pub fn one_clock_port()
    ensures { (S : SourceTree) → IsWellSized S → IsWritten S → ClockFits S }
{
    each_is_assigned();
    names_are_once();
    one_clock();
    one_path();
}

/// An expression of a module at a path, translated, has in the flat design the width that it has, and the
/// value that it has under a valuation whose values stand in the table.
pub fn expressions_mean()
    ensures width { (S : SourceTree) (order : List ℕ) (m : ModuleTree) (p : Path) (e : Tree) (w : ℕ) → AllOnce (reverse S.modules) → IsTyped S m p e → width (scope_of m) e ≡ Some w → flat.width (widths_of (flat_design S order)) (translated (names_of m) (seen_from (numbers_of S) p) e) ≡ w }
    ensures fits { (S : SourceTree) (order : List ℕ) (m : ModuleTree) (p : Path) (e : Tree) (w : ℕ) → AllOnce (reverse S.modules) → IsTyped S m p e → width (scope_of m) e ≡ Some w → Fits (widths_of (flat_design S order)) (translated (names_of m) (seen_from (numbers_of S) p) e) }
    ensures value { (S : SourceTree) (order : List ℕ) (m : ModuleTree) (p : Path) (e : Tree) (w : ℕ) (N : List (List ℕ)) (outside : List ℕ) (v : Values) → AllOnce (reverse S.modules) → IsTyped S m p e → width (scope_of m) e ≡ Some w → Has S N v → AreWithin S m p v e → flat.value (widths_of (flat_design S order)) (env N outside) (translated (names_of m) (seen_from (numbers_of S) p) e) ≡ value (scope_of m) e (names_at p v) }
{
    one_path();
    what_numbers_elements();
}

/// A signal of a design has its widths under its number in the flat design: a vector one, and an array that of its
/// elements as often as there are. There it has its values in the table of a valuation, and a register in that of a
/// state.
pub fn signals_have_numbers()
    ensures vector { (S : SourceTree) (order : List ℕ) (x : Signal) (w : ℕ) → AllOnce (reverse S.modules) → IsIn x (signals S) → IsVector x.type → vector_width x.names (Some x.type) ≡ Some w → IsRowOf (widths_of (flat_design S order)) (numbers_of S x.path) w 1 }
    ensures array { (S : SourceTree) (order : List ℕ) (x : Signal) (w k : ℕ) → AllOnce (reverse S.modules) → IsIn x (signals S) → IsArray x.type → element_width x.names (Some x.type) ≡ Some w → elements_width x.names (Some x.type) ≡ Some k → IsRowOf (widths_of (flat_design S order)) (numbers_of S x.path) w (elements x.names x.type) }
    ensures table { (S : SourceTree) (v : Values) (x : Signal) → AllOnce (reverse S.modules) → IsIn x (signals S) → x.kind ≢ clock → StandsAt (table_of S v) (numbers_of S x.path) (elements_of v x) }
    ensures state { (S : SourceTree) (s : Values) (x : Signal) → AllOnce (reverse S.modules) → IsSignal S register x → StandsAt (state_of S s) (numbers_of S x.path) (elements_of s x) }
{
    one_path();
    what_numbers_elements();
}

/// A table gives back the values that stand in it: those of a valuation, and those of a state.
pub fn tables_read_back()
    ensures values { (S : SourceTree) (v : Values) (x : Signal) → AllOnce (reverse S.modules) → IsIn x (signals S) → x.kind ≢ clock → AreSame x.names x.type (values_of S (table_of S v) x.path) (v x.path) }
    ensures state { (S : SourceTree) (s : Values) (x : Signal) → AllOnce (reverse S.modules) → IsSignal S register x → AreSame x.names x.type (values_of S (state_of S s) x.path) (s x.path) }
{
    one_path();
}

/// What a state and an input give is what the cycles of the flat design ask for, and whatever they may be
/// given is what some state and input give.
pub fn what_is_given()
    ensures given { (S : SourceTree) (F : FlatTree) (s inp : Values) → IsWellSized S → IsWritten S → IsElaborated S F → IsState S s → IsGiven S inp → AreGiven F (given_of S s inp) }
    ensures outside { (S : SourceTree) (F : FlatTree) (inp : Values) → IsWellSized S → IsWritten S → IsElaborated S F → IsGiven S inp → AreOutside F (outside_of S inp) }
    ensures state { (S : SourceTree) (F : FlatTree) (given : List (List ℕ)) (outside : List ℕ) → IsWellSized S → IsWritten S → IsElaborated S F → AreGiven F given → AreOutside F outside → IsState S (values_of S given) }
    ensures input { (S : SourceTree) (F : FlatTree) (given : List (List ℕ)) (outside : List ℕ) → IsWellSized S → IsWritten S → IsElaborated S F → AreGiven F given → AreOutside F outside → IsGiven S (input_of S given outside) }
    ensures same { (S : SourceTree) (F : FlatTree) (given : List (List ℕ)) (outside : List ℕ) (N : List (List ℕ)) → IsWellSized S → IsWritten S → IsElaborated S F → AreGiven F given → AreOutside F outside → IsCycle F given outside N → IsCycle F (given_of S (values_of S given) (input_of S given outside)) (outside_of S (input_of S given outside)) N }
{
    one_clock_port();
    one_path();
    types_suit();
    well_sized_is_regular();
    what_numbers_elements();
}

/// The cycles of a source from a state under an input are those of its flat design that is given the same:
/// a cycle stands in a table that is one, each such table is that of a cycle, and all cycles stand in one.
pub fn cycles_are_flat()
    ensures to_flat { (S : SourceTree) (F : FlatTree) (s inp v : Values) → IsWellSized S → IsWritten S → IsElaborated S F → IsState S s → IsGiven S inp → Cycle S s inp v → IsCycle F (given_of S s inp) (outside_of S inp) (table_of S v) }
    ensures from_flat { (S : SourceTree) (F : FlatTree) (s inp : Values) (N : List (List ℕ)) → IsWellSized S → IsWritten S → IsElaborated S F → IsState S s → IsGiven S inp → IsCycle F (given_of S s inp) (outside_of S inp) N → Cycle S s inp (values_of S N) }
    ensures one_table { (S : SourceTree) (F : FlatTree) (s inp : Values) (N : List (List ℕ)) → IsWellSized S → IsWritten S → IsElaborated S F → IsState S s → IsGiven S inp → IsCycle F (given_of S s inp) (outside_of S inp) N → table_of S (values_of S N) ≡ N }
    ensures only { (S : SourceTree) (F : FlatTree) (s inp v : Values) (N : List (List ℕ)) → IsWellSized S → IsWritten S → IsElaborated S F → IsState S s → IsGiven S inp → Cycle S s inp v → IsCycle F (given_of S s inp) (outside_of S inp) N → table_of S v ≡ N }
{
    elaborated_cycle();
    flat_uses();
    one_path();
    types_suit();
    well_sized_is_regular();
    what_numbers_elements();
}

/// A well sized source that has a flat design has no closed chain, and from each state under each input exactly
/// one cycle, with one state behind it.
pub fn one_cycle()
    ensures cycle { (S : SourceTree) (F : FlatTree) (s inp : Values) → IsWellSized S → IsWritten S → IsElaborated S F → IsState S s → IsGiven S inp → HasOneCycle S s inp }
    ensures chain { (S : SourceTree) (F : FlatTree) → IsWellSized S → IsWritten S → IsElaborated S F → HasLoop S → ⊥ }
{
    elaborated_cycle();
    well_sized_is_regular();
}

/// What stands behind a cycle of a source is what stands behind that cycle of its flat design.
pub fn next_is_flat()
    ensures to_flat { (S : SourceTree) (F : FlatTree) (s inp v after : Values) → IsWellSized S → IsWritten S → IsElaborated S F → IsState S s → IsGiven S inp → Cycle S s inp v → Next S v after → IsNext F (table_of S v) (state_of S after) }
    ensures from_flat { (S : SourceTree) (F : FlatTree) (s inp : Values) (N after : List (List ℕ)) → IsWellSized S → IsWritten S → IsElaborated S F → IsState S s → IsGiven S inp → IsCycle F (given_of S s inp) (outside_of S inp) N → IsNext F N after → Next S (values_of S N) (values_of S after) }
{
    flat_uses();
    one_path();
    types_suit();
    well_sized_is_regular();
    what_numbers_elements();
}

/// The flat design of a well sized source of at most 65,536 signals and instances is well formed.
pub fn elaborated_is_formed()
    ensures { (S : SourceTree) (F : FlatTree) → IsWellSized S → IsWritten S → IsElaborated S F → size S ≤ 65536 → IsFormed F }
{
    one_clock_port();
    one_path();
    types_suit();
    well_sized_is_regular();
    what_numbers_elements();
}
