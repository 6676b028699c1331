use lola_bits::{Memory, Seq};
use lrat_check::{Clause, Cnf};
use std::alloc::Global;

/// The clauses of a text, if each of its lines is a comment, the line `p cnf`, or a clause.
pub fn cnf_of(alloc: Global, text: &str) -> Result<Option<Cnf>, Memory> {
    let mut vars = 0;
    let mut clauses = Seq::new(alloc);
    for line in text.lines() {
        if line.starts_with("p cnf ") {
            match vars_of(line) {
                Some(number) => vars = number,
                None => return Ok(None),
            }
        } else if !line.starts_with("c") {
            match clause_of(alloc, line)? {
                Some(clause) => clauses.push(clause)?,
                None => return Ok(None),
            }
        }
    }
    Ok(Some(Cnf { vars, clauses }))
}

/// The number of variables in the line `p cnf`.
fn vars_of(line: &str) -> Option<u32> {
    match line.split_whitespace().nth(2) {
        Some(word) => word.parse::<u32>().ok(),
        None => None,
    }
}

/// The clause of a line: its literals, and a 0 behind them.
fn clause_of(alloc: Global, line: &str) -> Result<Option<Clause>, Memory> {
    let mut literals = Vec::new(alloc);
    for word in line.split_whitespace() {
        match word.parse::<i32>() {
            Ok(0) => {
                return Ok(Some(Clause {
                    literals: Seq::of(literals),
                }));
            }
            Ok(literal) => literals.push(literal)?,
            Err(_) => return Ok(None),
        }
    }
    Ok(None)
}
