ghost use Rattle.std.specs.Prelude.{ℕ, List};
ghost use Rattle.lola_net.specs.declared.net.Net.{Net as TheNet};
ghost use Rattle.lola_tree.specs.Tree.{SourceTree};
ghost use Rattle.lola_flat.specs.Tree.{FlatTree};
ghost use Rattle.lola_unfold.specs.Flat.{IsElaborated};
ghost use Rattle.lola_lower.specs.Cycles.{HasCycles};
ghost use Rattle.lola_source.specs.Accepts.{Accepts};
ghost use Rattle.lola_compile.specs.Runs.{RunsAs};
ghost use Rattle.lola_compile.specs.Compiled.{HasOneNet};

use lola_meaning::{cycles_are_flat, next_is_flat, one_cycle, types_suit, what_is_given};
use lola_order::one_order;
use lola_source::one_answer;
use lola_values::types_are_vectors;
use lola_written::texts_are_written;

/// A net that has the cycles of the flat design of an accepted source runs as the source does: from the bits of any
/// state, on the bits of any inputs, it shows in each cycle the bits of the source's outputs, pads and registers.
pub fn cycles_are_runs()
    ensures { (bytes : List ℕ) (S : SourceTree) (F : FlatTree) (net : TheNet) → Accepts bytes S → IsElaborated S F → HasCycles F net → RunsAs S F.order net }
{
    cycles_are_flat();
    next_is_flat();
    one_cycle();
    texts_are_written();
    types_are_vectors();
    types_suit();
    what_is_given();
}

/// Each text has one result: at most one net is that of the source that it spells, and a text with a net isn't
/// refused.
pub fn one_compilation()
    ensures { (bytes : List ℕ) → HasOneNet bytes }
{
    one_answer();
    one_order();
}
