ghost use Rattle.std.specs.Prelude.{◌≡◌, ℕ, Bool, List, Option, Some};
ghost use Rattle.lola_bits.specs.declared.vector.Bits.{Bits};
ghost use Rattle.lola_tree.specs.declared.named.Ref.{Ref};
ghost use Rattle.lola_tree.specs.Tree.{Tree, SourceTree};
ghost use Rattle.lola_tree.specs.Width.{width};
ghost use Rattle.lola_tree.specs.Value.{Values, value};
ghost use Rattle.lola_tree.specs.design.Cycle.{IsState, IsGiven};
ghost use Rattle.lola_design.specs.Regular.{IsRegular};
ghost use Rattle.tab_tree.specs.declared.value.StateValue.{StateValue};
ghost use Rattle.tab_tree.specs.declared.value.StateValue.TheVariants.{One};
ghost use Rattle.tab_tree.specs.Table.{LetTree, InsideTree, TableTree};
ghost use Rattle.tab_tree.specs.Names.{Form, vector_form, Names, look, mapped, scope_by, number_at, table_vector, table_value, table_number, with_forms, with_rows};
ghost use Rattle.tab_tree.specs.Registers.{source_forms, source_names};
ghost use Rattle.tab_tree.specs.Step.{Arch, Words, counted, link_names};
ghost use Rattle.tab_tree.specs.Headline.{shown, shown_word, answer_of};
ghost use Rattle.tab_tree.specs.Placed.{word_width, count_form, class_forms};
ghost use Rattle.tab_tree.specs.Suits.{IsOf, SuitsArch, SuitsAnswer};
ghost use Rattle.tab_tree.specs.Fits.{IsFitting};
ghost use Rattle.obl_def.specs.Forms.{HasFormAt, AreOf};
ghost use Rattle.obl_def.specs.Valuation.{SuitsWords};

use lola_design::one_path;
use lola_width::what_numbers_elements;

/// An expression that has a width over the forms of its names stands for a vector of that width, which
/// fits it, where the names stand for values of these forms.
pub fn expressions_have_vectors()
    ensures { (forms : Names Form) (names : Names StateValue) → AreOf forms names → (e : Tree) (w : ℕ) → width (scope_by forms) e ≡ Some w → (table_vector names e ≡ Some (table_value names e)) × IsOf w (table_value names e) }
{
    what_numbers_elements();
}

/// Where names stand for values of their forms, each does wherever it is looked up; an expression has the number that
/// it has over the widths of the forms, and a vector exactly where it has a width there; and so do the names behind
/// fields and LETs.
pub fn names_have_values()
    ensures each { (forms : Names Form) (names : Names StateValue) → AreOf forms names → (r : Ref) → HasFormAt (look forms r) (look names r) }
    ensures number { (forms : Names Form) (names : Names StateValue) → AreOf forms names → (e : Tree) (w : ℕ) → width (scope_by forms) e ≡ Some w → table_number names e ≡ value (scope_by forms) e (λ r n. number_at (look names r) n) }
    ensures vector { (forms : Names Form) (names : Names StateValue) → AreOf forms names → (e : Tree) → HasFormAt (mapped vector_form (width (scope_by forms) e)) (mapped One (table_vector names e)) }
    ensures rows { (forms : Names Form) (names : Names StateValue) (rows : List LetTree) → AreOf forms names → AreOf (with_forms rows forms) (with_rows rows names) }
{
    what_numbers_elements();
}

/// The registers of a state have their forms, and so have the names of a class, where states, the word,
/// what is kept, the count and registers do.
pub fn names_have_forms()
    ensures registers { (S : SourceTree) (s : Values) → IsState S s → AreOf (source_forms S) (source_names S s) }
    ensures class { (S : SourceTree) (T : TableTree) (b : InsideTree) (loads turns : ℕ) (A : Arch) (i : Bits) (m : Words) (counts : Bool) (k : Option ℕ) (forms : List (List ℕ) → Option Form) (registers : List (List ℕ) → Option StateValue) → SuitsArch T A → IsOf (word_width S T) i → SuitsWords S T b loads turns m → HasFormAt (count_form counts) (counted k) → ((path : List (List ℕ)) → HasFormAt (forms path) (registers path)) → AreOf (class_forms S T b loads turns counts forms) (link_names T b A i m k registers) }
{
    what_numbers_elements();
}

/// What a state of a design shows of a fitting table suits it, the states and the word, and so does what
/// the outside answers under an input, where each path comes once.
pub fn shown_values_suit()
    ensures states { (S : SourceTree) (T : TableTree) (s : Values) → IsFitting S T → IsState S s → SuitsArch T (shown S T s) }
    ensures word { (S : SourceTree) (T : TableTree) (s : Values) → IsFitting S T → IsState S s → IsOf (word_width S T) (shown_word S T s) }
    ensures answer { (S : SourceTree) (T : TableTree) (inp : Values) → IsRegular S → IsFitting S T → IsGiven S inp → SuitsAnswer S T (answer_of S T inp) }
{
    what_numbers_elements();
    one_path();
}
