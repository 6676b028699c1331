//! Laws of executions of tables.
//!
//! `tab_tree` says what an execution is by a relation: what is a boundary, and which row an answer has.
//! Here the same is said by two lists, made boundary by boundary as far as the answers go
//! (`specs/Lists.antt`), and the law `executions_are_lists` ties the two; `answers_left` says that an
//! instruction on the answers that are left is the one that begins so many answers later. There is no
//! code here.
#![tactic(auto)]

ghost use Rattle.std.specs.Prelude.{◌≡◌, ℕ, List, drop};
ghost use Rattle.lola_bits.specs.declared.vector.Bits.{Bits};
ghost use Rattle.lola_tree.specs.Tree.{SourceTree};
ghost use Rattle.tab_tree.specs.declared.value.Answer.{Answer};
ghost use Rattle.tab_tree.specs.Table.{InsideTree, TableTree};
ghost use Rattle.tab_tree.specs.Step.{Arch, next_arch, next_word, instruction_rows};
ghost use Rattle.tab_tree.specs.Fits.{IsFitting};
ghost use Rattle.tab_lists.specs.Lists.{IsOrdered, AreListed};

/// The boundaries and the rows of an execution are exactly those that stand in the two lists.
pub fn executions_are_lists()
    ensures listed { (T : TableTree) (answers : List Answer) (A : Arch) (i : Bits) → IsOrdered T → AreListed T answers A i }
    ensures fitting { (S : SourceTree) (T : TableTree) → IsFitting S T → IsOrdered T }
{}

/// What an instruction makes of the answers that are left behind some is what it makes where it begins so many
/// answers later.
pub fn answers_left()
    ensures states { (T : TableTree) (b : InsideTree) (A : Arch) (i : Bits) (answers : List Answer) (at : ℕ) → next_arch T b A i (drop at answers) 0 ≡ next_arch T b A i answers at }
    ensures word { (b : InsideTree) (answers : List Answer) (at : ℕ) → next_word b (drop at answers) 0 ≡ next_word b answers at }
    ensures rows { (T : TableTree) (b : InsideTree) (A : Arch) (i : Bits) (answers : List Answer) (at : ℕ) → instruction_rows T b A i (drop at answers) 0 ≡ instruction_rows T b A i answers at }
{}
