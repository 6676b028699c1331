// Clauses of gates: each is the conjunction of two literals.
use lola_bits::Seq;
use lrat_check::{Clause, Cnf};
use std::alloc::Global;
use std::test::Fail;

/// Gates over variables.
#[derive(Drop)]
pub(crate) struct Gates {
    alloc: Global,
    vars: i32,
    clauses: Seq<Clause>,
}

impl Gates {
    /// No gates over so many inputs.
    pub(crate) fn new(alloc: Global, inputs: i32) -> Gates {
        Gates {
            alloc,
            vars: inputs,
            clauses: Seq::new(alloc),
        }
    }

    /// One more clause.
    pub(crate) fn clause(&mut self, literals: &[i32]) -> Result<(), Fail> {
        let literals = Seq::of(Vec::from_slice(self.alloc, literals)?);
        self.clauses.push(Clause { literals })?;
        Ok(())
    }

    /// Both.
    pub(crate) fn and(&mut self, a: i32, b: i32) -> Result<i32, Fail> {
        self.vars = self.vars.saturating_add(1);
        let gate = self.vars;
        self.clause(&[gate.wrapping_neg(), a])?;
        self.clause(&[gate.wrapping_neg(), b])?;
        self.clause(&[gate, a.wrapping_neg(), b.wrapping_neg()])?;
        Ok(gate)
    }

    /// One at least.
    pub(crate) fn or(&mut self, a: i32, b: i32) -> Result<i32, Fail> {
        Ok(self.and(a.wrapping_neg(), b.wrapping_neg())?.wrapping_neg())
    }

    /// Exactly one.
    pub(crate) fn xor(&mut self, a: i32, b: i32) -> Result<i32, Fail> {
        let both = self.and(a, b)?;
        let some = self.or(a, b)?;
        self.and(both.wrapping_neg(), some)
    }

    /// The sum of three bits and what is carried.
    pub(crate) fn add(&mut self, a: i32, b: i32, carry: i32) -> Result<(i32, i32), Fail> {
        let half = self.xor(a, b)?;
        let sum = self.xor(half, carry)?;
        let first = self.and(a, b)?;
        let second = self.and(half, carry)?;
        Ok((sum, self.or(first, second)?))
    }

    /// All clauses so far.
    pub(crate) fn done(self) -> Cnf {
        Cnf {
            vars: self.vars.unsigned_abs(),
            clauses: self.clauses,
        }
    }
}
