ghost use Rattle.std.specs.Prelude.{◌<◌, ◌^◌, length};

use crate::dimacs::cnf_of;
use lola_bits::Name;
use lrat_check::{Checker, Line, LineError};
use lrat_text::{CertError, CertReader, CertStep};
use std::alloc::Global;

/// What becomes of a certificate.
#[derive(Drop)]
pub enum Outcome {
    /// So many lines were taken, and they close.
    Closed { lines: u64 },
    /// So many lines were taken, and they don't close.
    Open { lines: u64 },
    /// The line with this number in the text was refused.
    Line { n: u32, error: LineError },
    /// The text was refused.
    Text { error: CertError },
    /// There is no Cnf.
    NoCnf,
    /// Memory is wanting.
    Memory,
}

/// What becomes of a certificate against the clauses of a Cnf.
pub fn checked(alloc: Global, cnf: &[u8], certificate: &[u8], names: &[Name]) -> Outcome
    requires { length names.now < 2 ^ 32 }
{
    let text = match str::from_utf8(cnf) {
        Ok(text) => text,
        Err(_) => return Outcome::NoCnf,
    };
    let cnf = match cnf_of(alloc, text) {
        Ok(Some(cnf)) => cnf,
        Ok(None) => return Outcome::NoCnf,
        Err(_) => return Outcome::Memory,
    };
    if !cnf.is_known() {
        return Outcome::NoCnf;
    }
    match Checker::new(alloc, &cnf) {
        Ok(checker) => lines_taken(alloc, checker, certificate, names),
        Err(_) => Outcome::Memory,
    }
}

/// What becomes of the lines of a certificate.
fn lines_taken(alloc: Global, mut checker: Checker, certificate: &[u8], names: &[Name]) -> Outcome
    requires { length names.now < 2 ^ 32 }
{
    let mut reader = CertReader::new(certificate);
    let mut lines: u64 = 0;
    for _ in 0..u64::MAX {
        match reader.next(alloc, names) {
            Ok(CertStep::Begin { .. }) => {}
            Ok(CertStep::Step { line }) => match take(&mut checker, &line) {
                Ok(()) => lines = lines.saturating_add(1),
                Err(LineError::Memory) => return Outcome::Memory,
                Err(error) => {
                    return Outcome::Line {
                        n: reader.line(),
                        error,
                    };
                }
            },
            Ok(CertStep::Finished) => {
                return if checker.closed() {
                    Outcome::Closed { lines }
                } else {
                    Outcome::Open { lines }
                };
            }
            Err(CertError::Memory) => return Outcome::Memory,
            Err(error) => return Outcome::Text { error },
        }
    }
    Outcome::Memory
}

/// Gives a line to a checker.
fn take(checker: &mut Checker, line: &Line) -> Result<(), LineError> {
    match line {
        Line::Add { id, clause, hints } => {
            checker.add(*id, clause.literals.items(), hints.items())
        }
        Line::Delete { ids, .. } => {
            checker.delete(ids.items());
            Ok(())
        }
    }
}
