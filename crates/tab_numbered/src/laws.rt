ghost use Rattle.std.specs.Prelude.{◌≡◌, ℕ, Bool, List, Option, Some, length};
ghost use Rattle.lola_bits.specs.declared.vector.Bits.{Bits};
ghost use Rattle.lola_tree.specs.Tree.{Tree, SourceTree};
ghost use Rattle.lola_tree.specs.Width.{width};
ghost use Rattle.lola_flat.specs.Tree.{ExprTree};
ghost use Rattle.lola_flat.specs.Value.{Env};
ghost use Rattle.lola_flat.specs.Value as flat;
ghost use Rattle.lola_renamed.specs.Renamed.{renamed};
ghost use Rattle.lola_renamed.specs.Reads.{FitsIn};
ghost use Rattle.tab_tree.specs.declared.value.StateValue.{StateValue};
ghost use Rattle.tab_tree.specs.declared.value.StateValue.TheVariants.{One};
ghost use Rattle.tab_tree.specs.Table.{LetTree, InsideTree, TableTree};
ghost use Rattle.tab_tree.specs.Names.{Form, Names, no_names, scope_by, table_number, with_forms, with_rows};
ghost use Rattle.tab_tree.specs.Step.{Arch, Words, link_names};
ghost use Rattle.tab_tree.specs.Placed.{word_forms, bare_forms, class_forms};
ghost use Rattle.obl_def.specs.Forms.{AreOf};
ghost use Rattle.tab_numbered.specs.Numbered.{numbered, row_exprs, with_numbers};
ghost use Rattle.tab_numbered.specs.Rows.{AreRows, HoldValues, more_widths, more_numbers};
ghost use Rattle.tab_numbered.specs.Classes.{Given, class_numbers};
ghost use Rattle.tab_numbered.specs.Given.{AreGivenRows, HoldGiven, bare_names, field_widths, class_widths, class_holds};

use lola_renamed::renamed_means;
use lola_width::what_numbers_elements;
use obl_def::names_have_values;

/// Where names have signals of their forms, an expression over the signals has the width of the one over names; and
/// where the signals hold the values of the names, its number.
pub fn expressions_mean()
    ensures fits { (W : Env ℕ) (forms : Names Form) (numbers : Names ℕ) (e : Tree) (w : ℕ) → AreRows W forms numbers → width (scope_by forms) e ≡ Some w → FitsIn W (renamed (numbered numbers) e) w }
    ensures value { (W N : Env ℕ) (forms : Names Form) (values : Names StateValue) (numbers : Names ℕ) (e : Tree) (w : ℕ) → AreRows W forms numbers → AreOf forms values → HoldValues N values numbers →
        width (scope_by forms) e ≡ Some w → flat.value W N (renamed (numbered numbers) e) ≡ table_number values e }
{
    names_have_values();
    renamed_means();
    what_numbers_elements();
}

/// With a signal more for each field or LET, the names behind them have signals of their forms, and these hold their
/// values.
pub fn rows_hold()
    ensures rows { (W : Env ℕ) (forms : Names Form) (numbers : Names ℕ) (rows : List LetTree) → AreRows W forms numbers → AreRows (more_widths W (row_exprs rows numbers (length W.signals))) (with_forms rows forms) (with_numbers rows numbers (length W.signals)) }
    ensures values { (W N : Env ℕ) (forms : Names Form) (values : Names StateValue) (numbers : Names ℕ) (rows : List LetTree) → AreRows W forms numbers → AreOf forms values → HoldValues N values numbers → length N.signals ≡ length W.signals →
        HoldValues (more_numbers W N (row_exprs rows numbers (length W.signals))) (with_rows rows values) (with_numbers rows numbers (length W.signals)) }
{
    expressions_mean();
    names_have_values();
}

/// More rows behind others change nothing of what names stand for.
pub fn rows_stay()
    ensures widths { (W : Env ℕ) (forms : Names Form) (numbers : Names ℕ) (es : List ExprTree) → AreRows W forms numbers → AreRows (more_widths W es) forms numbers }
    ensures values { (W N : Env ℕ) (values : Names StateValue) (numbers : Names ℕ) (es : List ExprTree) → HoldValues N values numbers → HoldValues (more_numbers W N es) values numbers }
    ensures long { (W N : Env ℕ) (es : List ExprTree) → length N.signals ≡ length W.signals → length (more_numbers W N es).signals ≡ length (more_widths W es).signals }
{}

/// Where states, the word and what else a class is given have rows of their forms, which hold their values, so have all
/// names of the class behind the rows of its fields and its LETs.
pub fn classes_are_rows()
    ensures widths { (S : SourceTree) (T : TableTree) (b : InsideTree) (loads turns : ℕ) (counts : Bool) (registers : List (List ℕ) → Option Form) (W : Env ℕ) (g : Given) → AreGivenRows S T b loads turns counts registers W g →
        AreRows (class_widths T b g W) (class_forms S T b loads turns counts registers) (class_numbers T b g (length W.signals) (length (field_widths T g W).signals)) }
    ensures values { (S : SourceTree) (T : TableTree) (b : InsideTree) (loads turns : ℕ) (counts : Bool) (registers : List (List ℕ) → Option Form) (shown : List (List ℕ) → Option StateValue) (A : Arch) (i : Bits) (m : Words) (k : Option ℕ) (W N : Env ℕ) (g : Given) →
        AreGivenRows S T b loads turns counts registers W g → AreOf (bare_forms S T b.phases loads turns counts registers) (bare_names T A i m k shown) → AreOf (word_forms S T) (record no_names { word = Some (One i) }) →
        HoldGiven T A i m k shown N g → length N.signals ≡ length W.signals →
        HoldValues (class_holds T b g W N) (link_names T b A i m k shown) (class_numbers T b g (length W.signals) (length (field_widths T g W).signals)) }
{
    rows_hold();
}
