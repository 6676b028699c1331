ghost use Rattle.std.specs.Prelude.{◌≡◌, ◌↔◌, true};
ghost use Rattle.std.specs.List.{list_all, AllByRecursion};
ghost use Rattle.lrat_check.specs.declared.clause.Clause.{Clause};
ghost use Rattle.sat_search.specs.Ranges.{IsLiteral, HasLiterals, is_literal, is_hint, is_later};

use lrat_check::{Clause, Cnf};

/// Whether all literals are nonzero and above -2^31.
pub(crate) fn are_literals(clause: &[i32]) -> bool
    ensures { result ≡ list_all is_literal clause.now }
{
    for &literal in clause {
        let size = literal.unsigned_abs();
        if size == 0 {
            return false;
        }
        if size >= 2147483648 {
            return false;
        }
    }
    true
}

/// Whether all hints are nonzero and above -2^63.
pub(crate) fn are_hints(hints: &[i64]) -> bool
    ensures { result ≡ list_all is_hint hints.now }
{
    for &hint in hints {
        let size = hint.unsigned_abs();
        if size == 0 {
            return false;
        }
        if size >= 9223372036854775808 {
            return false;
        }
    }
    true
}

/// Whether all ids are below 2^63 and above those of so many clauses.
pub(crate) fn are_later(clauses: u64, ids: &[u64]) -> bool
    ensures { result ≡ list_all (is_later clauses) ids.now }
{
    for &id in ids {
        if id <= clauses {
            return false;
        }
        if id >= 9223372036854775808 {
            return false;
        }
    }
    true
}

/// Whether the literals of a Cnf are nonzero and above -2^31, as a search requires. Takes no memory.
pub fn has_literals(cnf: &Cnf) -> bool
    ensures { (result ≡ true) ↔ HasLiterals cnf.now }
{
    all_are_literals(cnf.clauses.items())
}

/// Whether the literals of each clause are.
fn all_are_literals(clauses: &[Clause]) -> bool
    ensures { (result ≡ true) ↔ AllByRecursion (λ (c : Clause). AllByRecursion IsLiteral c.literals) clauses.now }
{
    for clause in clauses {
        if !are_literals(clause.literals.items()) {
            return false;
        }
    }
    true
}
