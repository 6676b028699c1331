// Engines that claim what isn't so.
use crate::make::{Told, cnf, conducted, seq, square};
use lola_bits::{Memory, Seq};
use lrat_check::Cnf;
use sat_search::{Engine, Event};
use std::alloc::Global;
use std::test::Fail;

/// A clause with its hints, and what is to go.
#[derive(Clone, Copy)]
struct Claim<'a> {
    clause: &'a [i32],
    hints: &'a [i64],
    dropped: &'a [u64],
}

/// An engine that tells its claims in turn, and then the values.
#[derive(Drop)]
struct Script<'a> {
    alloc: Global,
    claims: &'a [Claim<'a>],
    values: &'a [bool],
    told: usize,
}

impl Engine for Script<'_> {
    fn step(&mut self) -> Result<Event, Memory> {
        let at = self.told;
        self.told = at.saturating_add(1);
        if at < self.claims.len() {
            let claim = self.claims[at];
            return Ok(Event::Learnt {
                clause: seq(self.alloc, claim.clause)?,
                hints: seq(self.alloc, claim.hints)?,
                dropped: seq(self.alloc, claim.dropped)?,
            });
        }
        if self.values.is_empty() {
            return Ok(Event::GaveUp);
        }
        Ok(Event::Model {
            values: seq(self.alloc, self.values)?,
        })
    }
}

/// What the square comes to by such an engine, where five additions are allowed.
fn by(alloc: Global, cnf: &Cnf, claims: &[Claim], values: &[bool]) -> Result<Told, Fail> {
    let mut engine = Script {
        alloc,
        claims,
        values,
        told: 0,
    };
    conducted(alloc, cnf, 5, &mut engine)
}

fn says<'a>(clause: &'a [i32], hints: &'a [i64], dropped: &'a [u64]) -> Claim<'a> {
    Claim {
        clause,
        hints,
        dropped,
    }
}

// 2 follows by the first two clauses, and then the last two shut.
#[test]
fn an_honest_engine_refutes(rt: HostRuntime) -> Result<(), Fail> {
    let square = square(rt.alloc())?;
    let claims = [says(&[2], &[1, 2], &[]), says(&[], &[5, 3, 4], &[])];
    assert_eq!(rt; by(rt.alloc(), &square, &claims, &[])?, Told::Refuted);
    Ok(())
}

#[test]
fn an_engine_that_gives_up_at_once_spends_the_limit(rt: HostRuntime) -> Result<(), Fail> {
    let square = square(rt.alloc())?;
    assert_eq!(rt; by(rt.alloc(), &square, &[], &[])?, Told::Spent(5));
    Ok(())
}

#[test]
fn a_wrong_hint_is_refused(rt: HostRuntime) -> Result<(), Fail> {
    let square = square(rt.alloc())?;
    let claims = [says(&[2], &[1, 3], &[])];
    assert_eq!(rt; by(rt.alloc(), &square, &claims, &[])?, Told::Spent(5));
    let missing = [says(&[2], &[9], &[])];
    assert_eq!(rt; by(rt.alloc(), &square, &missing, &[])?, Told::Spent(5));
    Ok(())
}

#[test]
fn a_clause_that_does_not_follow_is_refused(rt: HostRuntime) -> Result<(), Fail> {
    let open = cnf(rt.alloc(), 2, &[&[1, 2], &[-1, 2]])?;
    let claims = [says(&[], &[1], &[])];
    assert_eq!(rt; by(rt.alloc(), &open, &claims, &[])?, Told::Spent(5));
    let second = [says(&[2], &[1, 2], &[]), says(&[-1], &[2], &[])];
    assert_eq!(rt; by(rt.alloc(), &open, &second, &[])?, Told::Spent(5));
    Ok(())
}

#[test]
fn values_that_are_no_model_are_refused(rt: HostRuntime) -> Result<(), Fail> {
    let open = cnf(rt.alloc(), 2, &[&[1, 2], &[-1, 2]])?;
    assert_eq!(rt;
        by(rt.alloc(), &open, &[], &[false, true])?,
        Told::Satisfied
    );
    assert_eq!(rt; by(rt.alloc(), &open, &[], &[true, false])?, Told::Spent(5));
    assert_eq!(rt;
        by(rt.alloc(), &open, &[], &[false, true, true])?,
        Told::Spent(5)
    );
    assert_eq!(rt; by(rt.alloc(), &open, &[], &[false])?, Told::Spent(5));
    Ok(())
}

// A checker takes 0 among the literals, and hints behind the conflict whatever they are, but a certificate doesn't.
#[test]
fn literals_and_hints_out_of_range_are_refused(rt: HostRuntime) -> Result<(), Fail> {
    let square = square(rt.alloc())?;
    let zero = [
        says(&[2, 0], &[1, 2], &[]),
        says(&[2], &[1, 2], &[]),
        says(&[], &[5, 3, 4], &[]),
    ];
    assert_eq!(rt; by(rt.alloc(), &square, &zero, &[])?, Told::Spent(5));
    let behind = [says(&[2], &[1, 2, 0], &[])];
    assert_eq!(rt; by(rt.alloc(), &square, &behind, &[])?, Told::Spent(5));
    let strange = [says(&[3, 2], &[1, 2], &[])];
    assert_eq!(rt; by(rt.alloc(), &square, &strange, &[])?, Told::Spent(5));
    Ok(())
}

// The clauses of the Cnf stay in force, so that the rest of the limit can be spent by the first.
#[test]
fn clauses_of_the_cnf_are_not_let_go(rt: HostRuntime) -> Result<(), Fail> {
    let square = square(rt.alloc())?;
    let claims = [
        says(&[2], &[1, 2], &[1, 2, 3, 4]),
        says(&[], &[5, 3, 4], &[]),
    ];
    assert_eq!(rt; by(rt.alloc(), &square, &claims, &[])?, Told::Refuted);
    let first = [says(&[2], &[1, 2], &[1])];
    assert_eq!(rt; by(rt.alloc(), &square, &first, &[])?, Told::Spent(5));
    Ok(())
}

#[test]
fn what_was_let_go_is_no_hint(rt: HostRuntime) -> Result<(), Fail> {
    let square = square(rt.alloc())?;
    let claims = [says(&[2], &[1, 2], &[5]), says(&[], &[5, 3, 4], &[])];
    assert_eq!(rt; by(rt.alloc(), &square, &claims, &[])?, Told::Spent(5));
    Ok(())
}
