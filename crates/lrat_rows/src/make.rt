// Checkers of clauses that stand as rows of literals.
use lola_bits::Seq;
use lrat_check::{Checker, Clause, Cnf, LineError};
use std::alloc::Global;
use std::test::Fail;

/// Clauses over so many variables.
pub(crate) fn cnf(alloc: Global, vars: u32, rows: &[&[i32]]) -> Result<Cnf, Fail> {
    let mut clauses = Seq::new(alloc);
    for row in rows {
        let literals = Seq::of(Vec::from_slice(alloc, row)?);
        clauses.push(Clause { literals })?;
    }
    Ok(Cnf { vars, clauses })
}

/// A checker of such clauses.
pub(crate) fn checker(alloc: Global, vars: u32, rows: &[&[i32]]) -> Result<Checker, Fail> {
    let cnf = cnf(alloc, vars, rows)?;
    if cnf.is_known() {
        Ok(Checker::new(alloc, &cnf)?)
    } else {
        Err(Fail::from("an unknown variable"))
    }
}

/// The four clauses over two variables, and two variables more.
pub(crate) fn square(alloc: Global) -> Result<Checker, Fail> {
    checker(alloc, 4, &[&[1, 2], &[-1, 2], &[1, -2], &[-1, -2]])
}

/// An addition and what becomes of it.
#[derive(Drop)]
pub(crate) struct Row<'a> {
    pub(crate) id: u64,
    pub(crate) clause: &'a [i32],
    pub(crate) hints: &'a [i64],
    pub(crate) answer: Result<(), LineError>,
}

/// The first row of which something else becomes.
pub(crate) fn first_other(checker: &mut Checker, rows: &[Row]) -> Option<usize> {
    for (number, row) in rows.iter().enumerate() {
        if checker.add(row.id, row.clause, row.hints) != row.answer {
            return Some(number);
        }
    }
    None
}
