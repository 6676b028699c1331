ghost use Rattle.std.specs.Prelude.{◌≡◌, ℕ, Some};
ghost use Rattle.std.specs.List.{AllByRecursion};
ghost use Rattle.lola_flat.specs.Value.{Env};
ghost use Rattle.lola_flat.specs.Value as flat;
ghost use Rattle.lola_tree.specs.Tree.{Tree, SourceTree};
ghost use Rattle.lola_tree.specs.Width.{width};
ghost use Rattle.lola_tree.specs.Value.{Values};
ghost use Rattle.lola_tree.specs.design.Cycle.{IsState};
ghost use Rattle.lola_width.specs.Sized.{IsWellSized};
ghost use Rattle.lola_regular.specs.Written.{IsWritten};
ghost use Rattle.lola_renamed.specs.Reads.{FitsIn};
ghost use Rattle.tab_tree.specs.Table.{StateTree, TableTree};
ghost use Rattle.tab_tree.specs.Names.{scope_by, table_number};
ghost use Rattle.tab_tree.specs.Registers.{source_forms, source_names};
ghost use Rattle.tab_tree.specs.Headline.{shown_word};
ghost use Rattle.tab_tree.specs.Placed.{word_width};
ghost use Rattle.tab_tree.specs.Fits.{IsFitting};
ghost use Rattle.tab_numbered.specs.Rows.{AreRows, HoldValues};
ghost use Rattle.obl_rows.specs.Registers.{registers_from, HasRegisters, HoldsRegisters};
ghost use Rattle.obl_rows.specs.Shown.{over_registers, word_expr, ShowsFit, ShowsRow};

use lola_meaning::types_suit;
use lola_width::what_numbers_elements;
use obl_def::names_have_forms;
use tab_numbered::expressions_mean;

/// Where the rows of a state stand in tables of widths and of numbers, the names of registers stand for rows of their
/// forms, which hold their values.
pub fn registers_are_rows()
    ensures widths { (S : SourceTree) (W : Env ℕ) (from : ℕ) → IsWellSized S → IsWritten S → HasRegisters S W from → AreRows W (source_forms S) (registers_from S from) }
    ensures values { (S : SourceTree) (N : Env ℕ) (from : ℕ) (s : Values) → IsWellSized S → IsWritten S → HoldsRegisters S N from s → HoldValues N (source_names S s) (registers_from S from) }
{
    types_suit();
    what_numbers_elements();
}

/// An expression over registers has its width over the rows of a state, and its number in it. So has the word, and each
/// state of a fitting table its type and its value.
pub fn what_is_shown()
    ensures fits { (S : SourceTree) (W : Env ℕ) (from : ℕ) (e : Tree) (w : ℕ) → IsWellSized S → IsWritten S → HasRegisters S W from → width (scope_by (source_forms S)) e ≡ Some w → FitsIn W (over_registers S from e) w }
    ensures value { (S : SourceTree) (W N : Env ℕ) (from : ℕ) (s : Values) (e : Tree) (w : ℕ) → IsWellSized S → IsWritten S → HasRegisters S W from → HoldsRegisters S N from s → IsState S s → width (scope_by (source_forms S)) e ≡ Some w →
        flat.value W N (over_registers S from e) ≡ table_number (source_names S s) e }
    ensures word_fits { (S : SourceTree) (T : TableTree) (W : Env ℕ) (from : ℕ) → IsWellSized S → IsWritten S → HasRegisters S W from → IsFitting S T → FitsIn W (word_expr S from T.roles.code) (word_width S T) }
    ensures word { (S : SourceTree) (T : TableTree) (W N : Env ℕ) (from : ℕ) (s : Values) → IsWellSized S → IsWritten S → HasRegisters S W from → HoldsRegisters S N from s → IsState S s → IsFitting S T → flat.value W N (word_expr S from T.roles.code) ≡ (shown_word S T s).value }
    ensures states_fit { (S : SourceTree) (T : TableTree) (W : Env ℕ) (from : ℕ) → IsWellSized S → IsWritten S → HasRegisters S W from → IsFitting S T → AllByRecursion (λ (row : StateTree). ShowsFit S W from row.shape row.shown) T.states }
    ensures states { (S : SourceTree) (T : TableTree) (W N : Env ℕ) (from : ℕ) (s : Values) → IsWellSized S → IsWritten S → HasRegisters S W from → HoldsRegisters S N from s → IsState S s → IsFitting S T → AllByRecursion (ShowsRow S W N from s) T.states }
{
    expressions_mean();
    names_have_forms();
    registers_are_rows();
}
