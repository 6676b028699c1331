//! The commuting theorem: where all obligations of a table hold on a design, every reset cycle leaves a
//! state that the table starts from, and every run from a state at a boundary follows it, with stalls,
//! several phases, turns, loaded words and accesses.
//!
//! The obligations are those of `obl_def`, what a design must do to follow a table is the headline of
//! `tab_tree`. All functions are empty: their contracts are the laws. How obligations are decided or
//! refuted is not known here.
#![tactic(auto)]

ghost use Rattle.lola_tree.specs.Tree.{SourceTree};
ghost use Rattle.lola_tree.specs.Value.{Values};
ghost use Rattle.lola_tree.specs.design.Cycle.{IsState, IsGiven, HasOneCycle};
ghost use Rattle.lola_design.specs.Regular.{IsRegular};
ghost use Rattle.tab_tree.specs.Table.{TableTree};
ghost use Rattle.tab_tree.specs.Fits.{IsFitting};
ghost use Rattle.tab_tree.specs.Headline.{Resets, Commutes};
ghost use Rattle.obl_def.specs.Holds.{AllHold};

use obl_def::{expressions_have_vectors, names_have_forms, shown_values_suit};

/// The commuting theorem. Where all obligations of a fitting table hold on a regular design that has one
/// cycle from each state under each input, every reset cycle leaves a state at a boundary with the START
/// values and the fetched word, and every run from a state at a boundary shows at each boundary the states
/// and the word that the table gives, and makes its accesses.
pub fn headline()
    ensures { (S : SourceTree) (T : TableTree) → IsRegular S → ((s inp : Values) → IsState S s → IsGiven S inp → HasOneCycle S s inp) → IsFitting S T → AllHold S T → Resets S T × Commutes S T }
{
    expressions_have_vectors();
    names_have_forms();
    shown_values_suit();
}
