ghost use Rattle.std.specs.Prelude.{◌≡◌, true, false, slice_index_or};
ghost use Rattle.lrat_check.specs.Clauses.{clauses_of};
ghost use Rattle.lrat_check.specs.Truth.{literal_true, clause_true, Satisfies};
ghost use Rattle.sat_search.specs.Values.{value_of, Assigns};

use lrat_check::{Clause, Cnf};

/// The value at a place, or false.
fn value_at(values: &[bool], place: usize) -> bool
    ensures { result ≡ slice_index_or values.now place false }
{
    if place < values.len() {
        values[place]
    } else {
        false
    }
}

/// Whether a literal is true.
fn is_true(values: &[bool], literal: i32) -> bool
    ensures { result ≡ literal_true (value_of values.now) literal }
{
    let var = literal.unsigned_abs() as usize;
    if var == 0 {
        return false;
    }
    let value = value_at(values, var - 1);
    if literal < 0 { !value } else { value }
}

/// Whether a clause has a true literal.
fn clause_is_true(values: &[bool], clause: &[i32]) -> bool
    ensures { result ≡ clause_true (value_of values.now) clause.now }
{
    for &literal in clause {
        if is_true(values, literal) {
            return true;
        }
    }
    false
}

/// Whether each clause has a true literal.
fn are_true(values: &[bool], clauses: &[Clause]) -> bool
    ensures { result ≡ true → Satisfies (value_of values.now) (clauses_of clauses.now) }
{
    for clause in clauses {
        if !clause_is_true(values, clause.literals.items()) {
            return false;
        }
    }
    true
}

/// Whether the values are one for each variable and make each clause true.
pub(crate) fn is_model(cnf: &Cnf, values: &[bool]) -> bool
    ensures { result ≡ true → Assigns cnf.now values.now }
{
    values.len() == cnf.vars as usize && are_true(values, cnf.clauses.items())
}
