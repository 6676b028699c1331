// A whole certificate: written, read part by part, and checked.
use crate::sum::sum;
use lola_bits::{Name, Seq};
use lrat_check::{Checker, Clause, Line};
use lrat_text::{CertReader, CertStep, write_cert};
use std::alloc::Global;
use std::test::Fail;

const TEXT: &[u8] =
    b"lola-cert 1\no sum\n29 -1 -2 0 28 26 3 7 10 14 18 24 0\n30 -1 0 29 28 25 2 4 9 15 17 21 0\n30 d 29 0\n31 -2 0 30 28 25 1 5 9 12 16 21 0\n32 0 30 31 28 26 6 8 11 13 18 24 0\no none\nend 2\n";

/// An addition.
fn addition(alloc: Global, id: u64, literals: &[i32], hints: &[i64]) -> Result<Line, Fail> {
    Ok(Line::Add {
        id,
        clause: Clause {
            literals: Seq::of(Vec::from_slice(alloc, literals)?),
        },
        hints: Seq::of(Vec::from_slice(alloc, hints)?),
    })
}

/// The lines of the sum, with one that takes a clause out of force.
fn lines(alloc: Global) -> Result<Seq<Line>, Fail> {
    let mut lines = Seq::new(alloc);
    lines.push(addition(alloc, 29, &[-1, -2], &[28, 26, 3, 7, 10, 14, 18, 24])?)?;
    lines.push(addition(alloc, 30, &[-1], &[29, 28, 25, 2, 4, 9, 15, 17, 21])?)?;
    lines.push(Line::Delete {
        id: 30,
        ids: Seq::of(Vec::from_slice(alloc, &[29])?),
    })?;
    lines.push(addition(alloc, 31, &[-2], &[30, 28, 25, 1, 5, 9, 12, 16, 21])?)?;
    lines.push(addition(alloc, 32, &[], &[30, 31, 28, 26, 6, 8, 11, 13, 18, 24])?)?;
    Ok(lines)
}

/// The names of two obligations.
fn names(alloc: Global) -> Result<Seq<Name>, Fail> {
    let mut names = Seq::new(alloc);
    names.push(Name::new(alloc, "sum")?)?;
    names.push(Name::new(alloc, "none")?)?;
    Ok(names)
}

/// Gives a line to a checker, and answers whether it is taken.
fn take(checker: &mut Checker, line: &Line) -> bool {
    match line {
        Line::Add { id, clause, hints } => checker.add(*id, clause.literals.items(), hints.items())
            == Ok(()),
        Line::Delete { ids, .. } => {
            checker.delete(ids.items());
            true
        }
    }
}

#[test]
fn a_certificate_is_written(rt: HostRuntime) -> Result<(), Fail> {
    let alloc = rt.alloc();
    let names = names(alloc)?;
    let mut proofs = Seq::new(alloc);
    proofs.push(lines(alloc)?)?;
    proofs.push(Seq::new(alloc))?;
    if proofs.items().len() == names.items().len() {
        let text = write_cert(alloc, names.items(), proofs.items())?;
        assert!(rt; text.as_slice() == TEXT);
        Ok(())
    } else {
        Err(Fail::from("other lengths"))
    }
}

#[test]
fn its_lines_close(rt: HostRuntime) -> Result<(), Fail> {
    let alloc = rt.alloc();
    let names = names(alloc)?;
    if names.items().len() > 1_000 {
        return Err(Fail::from("too many"));
    }
    let mut checker = sum(alloc)?;
    let mut reader = CertReader::new(TEXT);
    for _ in 0..8 {
        match reader.next(alloc, names.items()) {
            Ok(CertStep::Begin { .. }) => {}
            Ok(CertStep::Step { line }) => assert!(rt; take(&mut checker, &line)),
            Ok(CertStep::Finished) => assert_eq!(rt; reader.line(), 9),
            Err(_) => return Err(Fail::from("refused")),
        }
    }
    assert!(rt; checker.closed());
    Ok(())
}
