ghost use Rattle.std.specs.Prelude.{◌≡◌, ◌≢◌, ◌⊎◌, ℕ, ◌-◌, ◌^◌, ◌<◌, List};
ghost use Rattle.lola_tree.specs.Tree.{SourceTree};
ghost use Rattle.lola_elab.specs.Small.{IsSmallSource};
ghost use Rattle.small_tree.specs.Table.{TableTree};
ghost use Rattle.lola_app.specs.Accepts.{Accepts, IsSpelled, Fits};
ghost use Rattle.lola_app.specs.Headline.{Resets, Commutes};
ghost use Rattle.lola_app.specs.Obligations.{AllHold};
ghost use Rattle.lola_app.specs.Decided.{IsDecided, IsUnsettled, Passes, decide_stage};
ghost use Rattle.lola_app.specs.DecideReply.{DecideOutcome};
ghost use Rattle.lola_app.specs.Reply.{Outcome, no_memory};
ghost use Rattle.lola_app.specs.Serve.{Due, AreOne};
ghost use Rattle.lola_app.specs.Stages.{IsReached};
ghost use Rattle.lola_port.specs.Outside.{Files, Counts};

use lola_elab::{built_is_small, next_is_a_state};
use lola_parse::one_tree;
use lola_scan::one_reading;
use small_read::one_table;

/// Where all obligations of a table on a design hold, every reset cycle leaves a state that the
/// table starts from, and every run from a state at a boundary shows at each boundary the states
/// that the table gives: for designs in the small form and tables that fit them.
pub fn headline()
    ensures { (S : SourceTree) (T : TableTree) → IsSmallSource S → Fits S T → AllHold S T → Resets S T × Commutes S T }
{
    next_is_a_state();
}

/// The bytes of a design spell one source, and those of a table one table.
pub fn one_spelling()
    ensures sources { (bytes : List ℕ) (S R : SourceTree) → Accepts bytes S → Accepts bytes R → S ≡ R }
    ensures tables { (bytes : List ℕ) (T U : TableTree) → IsSpelled bytes T → IsSpelled bytes U → T ≡ U }
{
    one_reading();
    one_tree();
    one_table();
}

/// Two texts have one answer of `decide`, want of memory aside, so each of its answers comes exactly where
/// its cause holds: an outcome comes at its stage in the order of refusals, where the texts pass all
/// stages before it and not that one. But where the tokens of the design spell none, it isn't settled
/// which of the two answers that say so comes, and at what place.
pub fn one_answer()
    ensures one { (source table : List ℕ) (a b : DecideOutcome) → IsDecided source table a → IsDecided source table b → (a ≡ b) ⊎ (IsUnsettled a × IsUnsettled b) }
    ensures reached { (source table : List ℕ) (a : DecideOutcome) → IsDecided source table a → IsReached (Passes source table) (decide_stage a) }
    ensures ends { (source table : List ℕ) (a : DecideOutcome) → IsDecided source table a → Passes source table (decide_stage a) → ⊥ }
{
    one_reading();
    one_tree();
    one_table();
    built_is_small();
}

/// A call over files that the store tells has one outcome, want of memory aside and what `one_answer`
/// leaves open, where no count of failed reads stands at its end: so each outcome comes exactly where its
/// cause holds. Wrong words come before anything of a file, and a file that couldn't be read or is too
/// long before what the texts lead to.
pub fn one_outcome()
    ensures { (words : List (List ℕ)) (files : Files) (before now : Counts) (a b : Outcome) → ((name : List ℕ) → now name < 2 ^ 64 - 1) → Due words (Some files) before now a → Due words (Some files) before now b → a ≢ no_memory → b ≢ no_memory → AreOne a b }
{
    one_reading();
    one_tree();
    one_table();
    built_is_small();
}
