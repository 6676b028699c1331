ghost use Rattle.std.specs.Prelude.{◌≡◌, ◌<◌, ℕ, ℤ, pos, List, [], ◌∷◌, Some, None};
ghost use Rattle.lrat_check.specs.Clauses.{AreKnown, clause_at};
ghost use Rattle.lrat_check.specs.Good.{Checked, fault_of};

/// A clause in force can be added again, with its own id as the only hint.
pub fn again()
    ensures { (base : Checked) (id own : ℕ) (clause : List ℤ) → base.last < id → AreKnown base.vars clause → clause_at base.force (pos own) ≡ Some clause → fault_of base id clause (pos own ∷ []) ≡ None }
{}
