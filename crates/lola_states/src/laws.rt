ghost use Rattle.std.specs.Prelude.{◌≡◌, ◌++◌, ◌≤◌, ℕ, List, map};
ghost use Rattle.lola_tree.specs.Tree.{SourceTree};
ghost use Rattle.lola_tree.specs.Value.{Values};
ghost use Rattle.lola_tree.specs.design.Signals.{size};
ghost use Rattle.lola_tree.specs.design.Cycle.{IsState, IsGiven};
ghost use Rattle.lola_width.specs.Sized.{IsWellSized};
ghost use Rattle.lola_regular.specs.Written.{IsWritten};
ghost use Rattle.lola_flat.specs.Tree.{FlatTree};
ghost use Rattle.lola_flat.specs.Cycle.{IsCycle, IsNext};
ghost use Rattle.lola_cases.specs.Free as free;
ghost use Rattle.lola_cases.specs.Cases.{IsCase, given_of, outside_of};
ghost use Rattle.lola_unfold.specs.Flat.{IsElaborated};
ghost use Rattle.lola_meaning.specs.Tables as source;
ghost use Rattle.lola_states.specs.States.{free_of, input_elements, register_elements, values_at, case_of, numbers_in, name_of, width_of, IsWhatItDoes};

use lola_cases::{cases_are_given, each_has_one_cycle, each_is_one_case};
use lola_design::one_path;
use lola_meaning::{
    cycles_are_flat, elaborated_is_formed, next_is_flat, one_cycle, types_suit, what_is_given,
};
use lola_sized::well_sized_is_regular;
use lola_width::what_numbers_elements;

/// A state and an input of a source give a case of its flat design, and that gives the design what they give.
pub fn states_are_cases()
    ensures case { (S : SourceTree) (F : FlatTree) (s inp : Values) → IsWellSized S → IsWritten S → IsElaborated S F → IsState S s → IsGiven S inp → IsCase F (case_of S s inp) }
    ensures given { (S : SourceTree) (F : FlatTree) (s inp : Values) → IsWellSized S → IsWritten S → IsElaborated S F → given_of F (case_of S s inp) ≡ source.given_of S s inp }
    ensures outside { (S : SourceTree) (F : FlatTree) (s inp : Values) → IsWellSized S → IsWritten S → IsElaborated S F → outside_of F (case_of S s inp) ≡ source.outside_of S inp }
{
    one_path();
    well_sized_is_regular();
    what_is_given();
}

/// Each case of the flat design is that of a state and an input, which have the values that it gives.
pub fn cases_are_states()
    ensures state { (S : SourceTree) (F : FlatTree) (numbers : List ℕ) → IsWellSized S → IsWritten S → IsElaborated S F → size S ≤ 65536 → IsCase F numbers → IsState S (source.values_of S (given_of F numbers)) }
    ensures input { (S : SourceTree) (F : FlatTree) (numbers : List ℕ) → IsWellSized S → IsWritten S → IsElaborated S F → size S ≤ 65536 → IsCase F numbers → IsGiven S (source.input_of S (given_of F numbers) (outside_of F numbers)) }
    ensures case { (S : SourceTree) (F : FlatTree) (numbers : List ℕ) → IsWellSized S → IsWritten S → IsElaborated S F → size S ≤ 65536 → IsCase F numbers → case_of S (source.values_of S (given_of F numbers)) (source.input_of S (given_of F numbers) (outside_of F numbers)) ≡ numbers }
{
    cases_are_given();
    each_is_one_case();
    elaborated_is_formed();
    one_path();
    states_are_cases();
    well_sized_is_regular();
    what_is_given();
}

/// What the input gives of all that is free stands before what the state gives, and so do their values in a case;
/// in the table of a state the values of registers stand row behind row.
pub fn inputs_stand_first()
    ensures free { (S : SourceTree) → free_of S ≡ input_elements S ++ register_elements S }
    ensures case { (S : SourceTree) (s inp : Values) → case_of S s inp ≡ values_at inp (input_elements S) ++ values_at s (register_elements S) }
    ensures state { (S : SourceTree) (s : Values) → values_at s (register_elements S) ≡ numbers_in (source.state_of S s) }
{}

/// What is free in the flat design has the names and widths of what is free in the source, one by one; and so have
/// the elements of inputs and pads, and those of registers.
pub fn free_has_names()
    ensures names { (S : SourceTree) (F : FlatTree) → IsWellSized S → IsWritten S → IsElaborated S F → size S ≤ 65536 → map (free.name_of F) (free.free_elements F) ≡ map name_of (free_of S) }
    ensures widths { (S : SourceTree) (F : FlatTree) → IsWellSized S → IsWritten S → IsElaborated S F → free.free_widths F ≡ map width_of (free_of S) }
    ensures input_names { (S : SourceTree) (F : FlatTree) → IsWellSized S → IsWritten S → IsElaborated S F → size S ≤ 65536 → map (free.name_of F) (free.input_elements F) ≡ map name_of (input_elements S) }
    ensures input_widths { (S : SourceTree) (F : FlatTree) → IsWellSized S → IsWritten S → IsElaborated S F → free.widths (free.input_elements F) ≡ map width_of (input_elements S) }
    ensures register_names { (S : SourceTree) (F : FlatTree) → IsWellSized S → IsWritten S → IsElaborated S F → size S ≤ 65536 → map (free.name_of F) (free.register_elements F) ≡ map name_of (register_elements S) }
    ensures register_widths { (S : SourceTree) (F : FlatTree) → IsWellSized S → IsWritten S → IsElaborated S F → free.widths (free.register_elements F) ≡ map width_of (register_elements S) }
{
    elaborated_is_formed();
    one_path();
    types_suit();
    well_sized_is_regular();
    what_is_given();
    what_numbers_elements();
}

/// The cycle of the flat design in the case of a state and an input, and the state behind it, are what the source
/// does from that state under that input.
pub fn cases_do_the_same()
    ensures { (S : SourceTree) (F : FlatTree) (s inp : Values) (N after : List (List ℕ)) → IsWellSized S → IsWritten S → IsElaborated S F → size S ≤ 65536 → IsState S s → IsGiven S inp →
        IsCycle F (given_of F (case_of S s inp)) (outside_of F (case_of S s inp)) N → IsNext F N after → IsWhatItDoes S s inp N after }
{
    cycles_are_flat();
    each_has_one_cycle();
    elaborated_is_formed();
    next_is_flat();
    one_cycle();
    states_are_cases();
}
