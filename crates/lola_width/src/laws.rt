ghost use Rattle.lola_width.specs.Answered.{AnswersFirst};
ghost use Rattle.std.specs.Prelude.{ℕ, List};
ghost use Rattle.lola_tree.specs.Tree.{SourceTree, ModuleTree};
ghost use Rattle.lola_tree.specs.Names.{Names};
ghost use Rattle.lola_width.specs.Interface.{Seen};
ghost use Rattle.lola_width.specs.Said.{AreDoubled, AreAssigned, NumbersElements};

/// The fault that is answered of a source, in words that don't speak of how it is found: there is one
/// exactly where the source isn't well sized; it is one of its faults; and no other of them is sooner,
/// which is an earlier stage, or the same stage and an earlier place, or the same place and an earlier
/// kind.
pub fn answers_first()
    ensures { (S : SourceTree) → AnswersFirst S }
{}

/// Which names of a module are declared again, in words that don't follow how that is found: those that two
/// of its declarations have, each at the later one.
pub fn what_is_doubled()
    ensures { (m : ModuleTree) (at : ℕ) (name : List ℕ) → AreDoubled m at name }
{}

/// Which faults of assignments a module has, in words that don't follow how they are listed: a name is
/// assigned twice exactly where a target of this name stands behind another, at that second target; and
/// it isn't assigned exactly where it is an OUT or INOUT port or a local name and no target has it.
pub fn what_is_assigned()
    ensures { (names : Names) (seen : Seen) (m : ModuleTree) (at : ℕ) (name : List ℕ) → AreAssigned names seen m at name }
{}

/// The place of an array has k bits exactly where the array has 2 to k elements, for k from 1 to 10.
pub fn what_numbers_elements()
    ensures { (elements bits : ℕ) → NumbersElements elements bits }
{}
