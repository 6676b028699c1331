// Clauses that stand as rows of literals, and answers in a word.
use lola_bits::{Memory, Seq};
use lrat_check::{Checker, Clause, Cnf, Line};
use sat_search::{Engine, Found, SplitFound, conduct, has_literals, search, split};
use std::alloc::Global;
use std::test::Fail;

/// Clauses over so many variables.
pub(crate) fn cnf(alloc: Global, vars: u32, rows: &[&[i32]]) -> Result<Cnf, Fail> {
    let mut clauses = Seq::new(alloc);
    for row in rows {
        let literals = Seq::of(Vec::from_slice(alloc, row)?);
        clauses.push(Clause { literals })?;
    }
    Ok(Cnf { vars, clauses })
}

/// The four clauses over two variables, which no assignment makes true.
pub(crate) fn square(alloc: Global) -> Result<Cnf, Fail> {
    cnf(alloc, 2, &[&[1, 2], &[-1, 2], &[1, -2], &[-1, -2]])
}

/// An answer in a word, with the number of additions where it is fixed.
#[derive(Clone, Copy, Debug, PartialEq, Eq)]
pub(crate) enum Told {
    Refuted,
    Satisfied,
    Spent(usize),
    /// The lines or the values don't say what they have to.
    Wrong,
}

/// How many additions another checker takes, and whether it is closed then. None where it refuses one.
fn taken(checker: &mut Checker, lines: &[Line]) -> Option<usize> {
    let mut additions: usize = 0;
    for line in lines {
        match line {
            Line::Add { id, clause, hints } => {
                additions = additions.saturating_add(1);
                match checker.add(*id, clause.literals.items(), hints.items()) {
                    Ok(()) => {}
                    Err(_) => return None,
                }
            }
            Line::Delete { id: _, ids } => checker.delete(ids.items()),
        }
    }
    Some(additions)
}

/// Whether a literal is true.
fn is_true(values: &[bool], literal: i32) -> bool {
    let place = (literal.unsigned_abs() as usize).saturating_sub(1);
    place < values.len() && values[place] == (literal > 0)
}

/// Whether each clause has a true literal.
fn are_true(values: &[bool], clauses: &[Clause]) -> bool {
    for clause in clauses {
        let mut some = false;
        for &literal in clause.literals.items() {
            some = some || is_true(values, literal);
        }
        if !some {
            return false;
        }
    }
    true
}

/// What an answer comes to, by another checker and another look at the clauses.
fn weighed(alloc: Global, cnf: &Cnf, found: Found) -> Result<Told, Fail> {
    if !cnf.is_known() {
        return Ok(Told::Wrong);
    }
    let mut checker = Checker::new(alloc, cnf)?;
    Ok(match found {
        Found::Refutation { lines } => match taken(&mut checker, lines.items()) {
            Some(_) if checker.closed() => Told::Refuted,
            _ => Told::Wrong,
        },
        Found::Spent { lines } => match taken(&mut checker, lines.items()) {
            Some(additions) if !checker.closed() => Told::Spent(additions),
            _ => Told::Wrong,
        },
        Found::Assignment { values } => {
            if values.items().len() == cnf.vars as usize
                && are_true(values.items(), cnf.clauses.items())
            {
                Told::Satisfied
            } else {
                Told::Wrong
            }
        }
    })
}

/// What a search answers.
pub(crate) fn searched(alloc: Global, cnf: &Cnf, limit: u64) -> Result<Told, Fail> {
    if limit == 0 || !cnf.is_known() || !has_literals(cnf) {
        return Err(Fail::from("no such search"));
    }
    weighed(alloc, cnf, search(alloc, cnf, limit)?)
}

/// What a search by this engine answers.
pub(crate) fn conducted<E: Engine>(
    alloc: Global,
    cnf: &Cnf,
    limit: u64,
    engine: &mut E,
) -> Result<Told, Fail> {
    if limit == 0 || !cnf.is_known() || !has_literals(cnf) {
        return Err(Fail::from("no such search"));
    }
    weighed(alloc, cnf, conduct(alloc, cnf, limit, engine)?)
}

/// A list of items.
pub(crate) fn seq<T: Copy>(alloc: Global, items: &[T]) -> Result<Seq<T>, Memory> {
    let mut made: Vec<T> = Vec::new(alloc);
    made.extend_from_slice(items)?;
    Ok(Seq::of(made))
}

/// What a split by these inputs answers.
pub(crate) fn split_by(alloc: Global, cnf: &Cnf, inputs: &[u32]) -> Result<Told, Fail> {
    if inputs.len() > 16 || !cnf.is_known() || !has_literals(cnf) {
        return Err(Fail::from("no such split"));
    }
    let found = match split(alloc, cnf, inputs)? {
        SplitFound::Refutation { lines } => Found::Refutation { lines },
        SplitFound::Assignment { values } => Found::Assignment { values },
    };
    weighed(alloc, cnf, found)
}

/// The values that a split by these inputs answers, or none.
pub(crate) fn split_values(alloc: Global, cnf: &Cnf, inputs: &[u32]) -> Result<Seq<bool>, Fail> {
    if inputs.len() > 16 || !cnf.is_known() || !has_literals(cnf) {
        return Err(Fail::from("no such split"));
    }
    Ok(match split(alloc, cnf, inputs)? {
        SplitFound::Refutation { lines: _ } => Seq::new(alloc),
        SplitFound::Assignment { values } => values,
    })
}
