//! Checks a certificate of one obligation, whose name is `cnf`, against the clauses of a Cnf, and says how many lines
//! of its refutation were taken: `lrat_main CNF CERTIFICATE`. The Cnf is in the form of DIMACS, with its clauses a
//! line each and the line `p cnf` before them.
#![tactic(auto)]

mod dimacs;
mod run;

use lola_bits::Name;
use run::{Outcome, checked};
use std::io::Read;
use std::process::ExitCode;
use std::rt::Files;
use std::{env, fs, io};

fn main(rt: HostRuntime) -> ExitCode {
    match told(&rt) {
        Ok(Outcome::Closed { lines }) => ended(println!(rt; "closed lines={lines}"), 0),
        Ok(Outcome::Open { lines }) => ended(println!(rt; "open lines={lines}"), 1),
        Ok(Outcome::Line { n, error }) => ended(println!(rt; "line {n}: {error:?}"), 1),
        Ok(Outcome::Text { error }) => ended(println!(rt; "text: {error:?}"), 1),
        Ok(Outcome::NoCnf) => ended(println!(rt; "no cnf"), 2),
        Ok(Outcome::Memory) => ended(println!(rt; "memory"), 2),
        Err(error) => ended(println!(rt; "{error}"), 2),
    }
}

fn ended(printed: io::Result<()>, status: u8) -> ExitCode {
    match printed {
        Ok(()) => ExitCode::from(status),
        Err(_) => ExitCode::from(2),
    }
}

/// What becomes of the two files that the words name.
fn told(rt: &HostRuntime) -> io::Result<Outcome> {
    let alloc = rt.alloc();
    let words = env::args(rt)?.skip(1).collect::<Vec<String>>(alloc)?;
    match words.as_slice() {
        [cnf, certificate] => {
            let cnf = file(rt, cnf.as_str())?;
            let certificate = file(rt, certificate.as_str())?;
            match Name::new(alloc, "cnf") {
                Ok(name) => Ok(checked(alloc, cnf.as_slice(), certificate.as_slice(), &[name])),
                Err(_) => Ok(Outcome::Memory),
            }
        }
        _ => Ok(Outcome::NoCnf),
    }
}

/// The bytes of a file, in as much memory as they need.
fn file(rt: &HostRuntime, path: &str) -> io::Result<Vec<u8>> {
    let mut file = fs::open(rt, path)?;
    let size = file.metadata()?.len();
    let mut bytes = Vec::new(rt.alloc());
    bytes.reserve_exact(size as usize)?;
    file.read_to_end(&mut bytes)?;
    Ok(bytes)
}
