ghost use Rattle.std.specs.Prelude.{◌≡◌, ◌↔◌, ℕ, ℤ, List, true, None, ◌++◌};
ghost use Rattle.lrat_check.specs.declared.clause.Cnf.{Cnf};
ghost use Rattle.lrat_check.specs.declared.line.Line.{Line};
ghost use Rattle.lrat_check.specs.Clauses.{clauses_of};
ghost use Rattle.lrat_check.specs.Good.{Checked, fault_of};
ghost use Rattle.lrat_check.specs.Derives.{checked_cnf, after_all, AreGood, added, Derives};
ghost use Rattle.lrat_check.specs.Truth.{Assignment, Satisfies, Models, clause_true};

/// The clause of a good addition is true under every assignment that makes the clauses in force true.
pub fn accepted()
    ensures { (base : Checked) (id : ℕ) (clause hints : List ℤ) → fault_of base id clause hints ≡ None → (v : Assignment) → Models v base.force → clause_true v clause ≡ true }
{}

/// The clauses that good lines add are true under every assignment that makes the clauses of the Cnf true.
pub fn follows()
    ensures { (cnf : Cnf) (lines : List Line) → AreGood (checked_cnf cnf) lines → (v : Assignment) → Satisfies v (clauses_of cnf.clauses) → Satisfies v (added lines) }
{}

/// Where the lines close, no assignment makes all clauses of the Cnf true.
pub fn refuted()
    ensures { (cnf : Cnf) (lines : List Line) → Derives cnf lines → (v : Assignment) → Satisfies v (clauses_of cnf.clauses) → ⊥ }
{}

/// Lines behind lines: they are good where the later ones are good behind the earlier ones, and what has been
/// checked goes on from there.
pub fn joined()
    ensures good { (base : Checked) (lines more : List Line) → AreGood base (lines ++ more) ↔ AreGood base lines × AreGood (after_all base lines) more }
    ensures checked { (base : Checked) (lines more : List Line) → after_all base (lines ++ more) ≡ after_all (after_all base lines) more }
{}

/// Good lines refute the Cnf exactly where a checker that took them is closed.
pub fn closes()
    ensures { (cnf : Cnf) (lines : List Line) → AreGood (checked_cnf cnf) lines → (after_all (checked_cnf cnf) lines).closed ≡ true ↔ Derives cnf lines }
{}
