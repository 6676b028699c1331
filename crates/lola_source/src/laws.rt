ghost use Rattle.std.specs.Prelude.{ℕ, List};
ghost use Rattle.lola_source.specs.Answer.{HasOneAnswer};

use lola_parse::one_tree;
use lola_scan::one_reading;

/// Each text has one answer: at most one source is accepted, no text is both accepted and refused, and what
/// refuses it comes at the first stage that it doesn't pass and is one, but for the place that is named where no
/// source is spelled and for the chain where there are several.
pub fn one_answer()
    ensures { (bytes : List ℕ) → HasOneAnswer bytes }
{
    one_reading();
    one_tree();
}
