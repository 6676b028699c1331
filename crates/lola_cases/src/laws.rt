ghost use Rattle.std.specs.Prelude.{◌≡◌, ◌++◌, ◌≤◌, ◌<◌, ◌^◌, ◌↔◌, ℕ, List, map};
ghost use Rattle.std.specs.List.{AllByRecursion};
ghost use Rattle.lola_flat.specs.Tree.{FlatTree};
ghost use Rattle.lola_flat.specs.Value.{sum_of, joined_all};
ghost use Rattle.lola_flat.specs.Formed.{IsFormed};
ghost use Rattle.lola_flat.specs.Cycle.{AreGiven, AreOutside, IsCycle};
ghost use Rattle.lola_eval.specs.OneCycle.{HasOneCycle};
ghost use Rattle.lola_cases.specs.declared.free.FreeElement.{FreeElement as Element};
ghost use Rattle.lola_cases.specs.Free.{free_elements, free_widths, input_elements, register_elements};
ghost use Rattle.lola_cases.specs.Cases.{AreWithin, IsCase, given_of, outside_of, GiveSame, HasOneCase, GivesValues};
ghost use Rattle.lola_cases.specs.Counting.{ComesBefore, IsCounted, IsMet};

use lola_eval::one_cycle;
use lola_flat::hangs_on_reads;

/// A well formed design has at most 128 times 65,536 free bits.
pub fn free_bits_are_few()
    ensures { (F : FlatTree) → IsFormed F → sum_of (free_widths F) ≤ 8388608 }
{}

/// In a well formed design all that is free of inputs and pads comes before what is free of registers.
pub fn inputs_come_first()
    ensures { (F : FlatTree) → IsFormed F → free_elements F ≡ input_elements F ++ register_elements F }
{}

/// What a case gives is what a cycle of the design is given.
pub fn cases_are_given()
    ensures given { (F : FlatTree) (numbers : List ℕ) → IsFormed F → IsCase F numbers → AreGiven F (given_of F numbers) }
    ensures outside { (F : FlatTree) (numbers : List ℕ) → IsFormed F → IsCase F numbers → AreOutside F (outside_of F numbers) }
{}

/// A case has exactly one cycle, and one state behind it.
pub fn each_has_one_cycle()
    ensures { (F : FlatTree) (numbers : List ℕ) → IsFormed F → IsCase F numbers → HasOneCycle F (given_of F numbers) (outside_of F numbers) }
{
    cases_are_given();
    one_cycle();
}

/// Whatever a cycle can be given is what exactly one case gives.
pub fn each_is_one_case()
    ensures { (F : FlatTree) (given : List (List ℕ)) (outside : List ℕ) → IsFormed F → AreGiven F given → AreOutside F outside → HasOneCase F given outside }
{}

/// Values below 2 to the widths of all that is free are a case, which gives each signal the values of its elements.
pub fn values_are_given()
    ensures case { (F : FlatTree) (value : Element → ℕ) → AllByRecursion (λ (e : Element). value e < 2 ^ e.width) (free_elements F) → IsCase F (map value (free_elements F)) }
    ensures given { (F : FlatTree) (value : Element → ℕ) → GivesValues F value }
{}

/// What gives the same has the same cycles.
pub fn same_cycles()
    ensures { (F : FlatTree) (given : List (List ℕ)) (outside : List ℕ) (given_too : List (List ℕ)) (outside_too : List ℕ) (N : List (List ℕ)) → IsFormed F → GiveSame F given outside given_too outside_too →
        (IsCycle F given outside N ↔ IsCycle F given_too outside_too N) }
{
    hangs_on_reads();
}

/// Counting below 2 to the sum of the widths meets all numbers of these widths, each once, in their order.
pub fn counting()
    ensures counted { (ws : List ℕ) (n : ℕ) → n < 2 ^ sum_of ws → IsCounted ws n }
    ensures met { (ws ns : List ℕ) → AreWithin ws ns → IsMet ws ns }
    ensures order { (ws ms ns : List ℕ) → AreWithin ws ms → AreWithin ws ns → (ComesBefore ms ns ↔ (joined_all ws ms < joined_all ws ns)) }
{}
