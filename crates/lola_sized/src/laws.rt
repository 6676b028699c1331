ghost use Rattle.std.specs.Prelude.{◌≡◌, IsSome};
ghost use Rattle.lola_bits.specs.Lists.{IsIn};
ghost use Rattle.lola_tree.specs.Tree.{SourceTree};
ghost use Rattle.lola_tree.specs.design.Signals.{Signal, signals};
ghost use Rattle.lola_tree.specs.design.Equations.{Update, updates};
ghost use Rattle.lola_width.specs.Sized.{IsWellSized};
ghost use Rattle.lola_design.specs.Regular.{IsArray, IsRegular};
ghost use Rattle.lola_regular.specs.Written.{IsWritten};

use lola_design::one_path;
use lola_regular::{each_is_assigned, names_are_once, one_clock, pads_are_pads};
use lola_values::{reads_are_signals, types_are_vectors, values_fit};

/// Whatever sets an array of a well sized design sets an element of it: the update has a place.
pub fn arrays_have_places()
    ensures { (S : SourceTree) (u : Update) (x : Signal) → IsWellSized S → IsWritten S → IsIn u (updates S) → IsIn x (signals S) → x.path ≡ u.left → IsArray x.type → IsSome u.place }
{
    names_are_once();
    one_clock();
    one_path();
}

/// A well sized design, written as texts are, keeps to all that the laws of designs ask.
pub fn well_sized_is_regular()
    ensures { (S : SourceTree) → IsWellSized S → IsWritten S → IsRegular S }
{
    names_are_once();
    each_is_assigned();
    one_clock();
    pads_are_pads();
    types_are_vectors();
    reads_are_signals();
    arrays_have_places();
    values_fit();
}
