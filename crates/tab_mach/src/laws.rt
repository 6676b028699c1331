ghost use Rattle.std.specs.Prelude.{◌≡◌, ◌≢◌, ℕ, List, true, Result};
ghost use Rattle.lola_bits.specs.declared.vector.Bits.{Bits};
ghost use Rattle.lola_bits.specs.Lists.{IsAt};
ghost use Rattle.tab_tree.specs.declared.value.Answer.{Answer};
ghost use Rattle.tab_tree.specs.Table.{InsideTree, ClassTree, TableTree};
ghost use Rattle.tab_tree.specs.Step.{Arch, IsInside, fits};
ghost use Rattle.tab_tree.specs.Fits.{EachApart};
ghost use Rattle.tab_tree.specs.Suits.{IsSuited};
ghost use Rattle.tab_mach.specs.declared.stepping.Stepped.{Stepped};
ghost use Rattle.tab_mach.specs.declared.stepping.StepError.{StepError};
ghost use Rattle.tab_mach.specs.Outcome.{CanStep, HasSteps, IsFirst, Outcome};

use crate::stepping::StepError;

/// Each answer of a step but want of memory comes exactly where its cause holds: some answer has its cause,
/// and no two have.
pub fn one_outcome()
    ensures some { (T : TableTree) (A : Arch) (i : Bits) (answers : List Answer) → (x : Result Stepped StepError) × (x ≢ Err StepError.Memory) × Outcome T A i answers x }
    ensures one { (T : TableTree) (A : Arch) (i : Bits) (answers : List Answer) (x y : Result Stepped StepError) → Outcome T A i answers x → Outcome T A i answers y → x ≢ Err StepError.Memory → y ≢ Err StepError.Memory → x ≡ y }
{}

/// Where no word fits two patterns, a class whose pattern the word fits is the word's class, and the word has the
/// steps of a class that it is inside of.
pub fn one_class()
    ensures first { (T : TableTree) (i : Bits) (n : ℕ) (c : ClassTree) → EachApart T.classes → IsAt T.classes n c → fits c.pattern i.value ≡ true → IsFirst T i n c }
    ensures inside { (T : TableTree) (i : Bits) (c : ClassTree) (b : InsideTree) → EachApart T.classes → IsInside T i c b → HasSteps T i b }
{}

/// A table that fits a design can make steps, with states, a word and answers of its widths.
pub fn suited_can_step()
    ensures { (T : TableTree) (A : Arch) (i : Bits) (answers : List Answer) → IsSuited T A i answers → CanStep T A i answers }
{}
