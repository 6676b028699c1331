ghost use Rattle.std.specs.Prelude.{◌≡◌};
ghost use Rattle.lola_bits.specs.Lists.{IsIn};
ghost use Rattle.lola_tree.specs.Tree.{SourceTree};
ghost use Rattle.tab_tree.specs.Table.{TableTree};
ghost use Rattle.obl_def.specs.Obligations.{Obligation, obligations};
ghost use Rattle.obl_def.specs.Valuation.{Valuation, IsValuation};
ghost use Rattle.obl_def.specs.Holds.{HoldsAt, IsViolatedAt, AllHold};

/// An obligation that holds at a valuation isn't violated there, and where all obligations hold none of
/// the list is violated at any valuation.
pub fn violated_where_it_fails()
    ensures one { (S : SourceTree) (T : TableTree) (o : Obligation) (w : Valuation) → HoldsAt S T o w → IsViolatedAt S T o w → ⊥ }
    ensures all { (S : SourceTree) (T : TableTree) → AllHold S T → (o : Obligation) → IsIn o (obligations T) → (w : Valuation) → IsValuation S T o w → IsViolatedAt S T o w → ⊥ }
{}

/// An obligation that isn't violated at a valuation holds there, and where none of the list is violated
/// at any valuation all of them hold.
pub fn holds_unless_violated()
    ensures one { (S : SourceTree) (T : TableTree) (o : Obligation) (w : Valuation) → (IsViolatedAt S T o w → ⊥) → HoldsAt S T o w }
    ensures all { (S : SourceTree) (T : TableTree) → ((o : Obligation) → IsIn o (obligations T) → (w : Valuation) → IsValuation S T o w → IsViolatedAt S T o w → ⊥) → AllHold S T }
{}
