ghost use Rattle.std.specs.Prelude.{◌≡◌, ◌↔◌, true};
ghost use Rattle.lrat_check.specs.Clauses.{IsKnown, AreAllKnown};
ghost use Rattle.lrat_check.specs.Good.{unknown_var};

use lola_bits::Seq;

/// A clause: the literals of which at least one is to be true. A literal is a variable, from 1 on, or its
/// negation.
#[derive(Debug, Drop)]
pub struct Clause {
    pub literals: Seq<i32>,
}

/// Clauses over the variables from 1 to `vars`.
#[derive(Debug, Drop)]
pub struct Cnf {
    pub vars: u32,
    pub clauses: Seq<Clause>,
}

impl Cnf {
    /// Whether each literal is of a variable up to the last. Takes no memory.
    pub fn is_known(&self) -> bool
        ensures { (result ≡ true) ↔ IsKnown self.now }
    {
        are_known(self.vars, self.clauses.items())
    }
}

/// Whether each literal of some clauses is of a variable up to the last.
fn are_known(vars: u32, clauses: &[Clause]) -> bool
    ensures { (result ≡ true) ↔ AreAllKnown vars clauses.now }
{
    for clause in clauses {
        match unknown_var(vars, clause.literals.items()) {
            None => {}
            Some(_) => return false,
        }
    }
    true
}

/// The first variable of a clause that is above the last.
pub(crate) fn unknown_var(vars: u32, clause: &[i32]) -> Option<u32>
    ensures { result ≡ unknown_var vars clause.now }
{
    for literal in clause {
        let var = literal.unsigned_abs();
        if var > vars {
            return Some(var);
        }
    }
    None
}
