// Texts of certificates, and what is read of them part by part.
use lola_bits::{Name, Seq};
use lrat_check::Line;
use lrat_text::{CertError, CertReader, CertStep, write_cert};
use std::alloc::Global;
use std::test::Fail;

const NAMES: [&str; 7] = [
    "cover",
    "reset/INVARIANT",
    "reset/BOUNDARY",
    "reset/q",
    "flip/0/end/INVARIANT",
    "flip/0/end/BOUNDARY",
    "flip/0/end/q",
];

const SEVEN: &[u8] =
    b"lola-cert 1\no cover\no reset/INVARIANT\no reset/BOUNDARY\no reset/q\no flip/0/end/INVARIANT\no flip/0/end/BOUNDARY\no flip/0/end/q\nend 7\n";

/// Names of obligations.
fn names(alloc: Global, texts: &[&str]) -> Result<Seq<Name>, Fail> {
    let mut names = Seq::new(alloc);
    for text in texts {
        names.push(Name::new(alloc, text)?)?;
    }
    Ok(names)
}

/// What is read of a text, a word for each part, and the number of the line read last.
fn parts(alloc: Global, texts: &[&str], bytes: &[u8]) -> Result<String, Fail> {
    let names = names(alloc, texts)?;
    if names.items().len() > 1_000 {
        return Err(Fail::from("too many"));
    }
    let mut reader = CertReader::new(bytes);
    let mut out = String::new(alloc);
    for _ in 0..1_000 {
        let word = match reader.next(alloc, names.items()) {
            Ok(CertStep::Begin { number }) => format!(in alloc; "o{number} ")?,
            Ok(CertStep::Step { line }) => match line {
                Line::Add { id, clause, hints } => format!(in alloc;
                    "add {id} {} {} ",
                    clause.literals.items().len(),
                    hints.items().len()
                )?,
                Line::Delete { id, ids } => format!(in alloc;
                    "delete {id} {} ",
                    ids.items().len()
                )?,
            },
            Ok(CertStep::Finished) => {
                out.push_str("finished")?;
                return Ok(out);
            }
            Err(CertError::BadLine { n }) => format!(in alloc; "bad {n}")?,
            Err(CertError::WrongName { n }) => format!(in alloc; "name {n}")?,
            Err(CertError::Missing { n, name }) => format!(in alloc;
                "missing {n} {}",
                name.text()
            )?,
            Err(CertError::Extra { n }) => format!(in alloc; "extra {n}")?,
            Err(CertError::Truncated) => format!(in alloc; "truncated {}", reader.line())?,
            Err(CertError::Memory) => return Err(Fail::from("memory")),
        };
        out.push_str(word.as_str())?;
        if !word.as_str().ends_with(" ") {
            return Ok(out);
        }
    }
    Err(Fail::from("too long"))
}

#[test]
fn seven_obligations_without_lines(rt: HostRuntime) -> Result<(), Fail> {
    let read = parts(rt.alloc(), &NAMES, SEVEN)?;
    assert_eq!(rt; read.as_str(), "o0 o1 o2 o3 o4 o5 o6 finished");
    Ok(())
}

#[test]
fn each_front_is_truncated(rt: HostRuntime) -> Result<(), Fail> {
    for length in 0..SEVEN.len() {
        let (front, _) = SEVEN.split_at(length);
        let read = parts(rt.alloc(), &NAMES, front)?;
        if !read.as_str().contains("truncated") {
            return Err(Fail::from("not truncated"));
        }
    }
    Ok(())
}

#[test]
fn the_end_has_the_number_of_obligations(rt: HostRuntime) -> Result<(), Fail> {
    let six =
        b"lola-cert 1\no cover\no reset/INVARIANT\no reset/BOUNDARY\no reset/q\no flip/0/end/INVARIANT\no flip/0/end/BOUNDARY\no flip/0/end/q\nend 6\n".as_slice();
    let read = parts(rt.alloc(), &NAMES, six)?;
    assert_eq!(rt; read.as_str(), "o0 o1 o2 o3 o4 o5 o6 bad 9");
    Ok(())
}

#[test]
fn seven_obligations_are_written(rt: HostRuntime) -> Result<(), Fail> {
    let alloc = rt.alloc();
    let names = names(alloc, &NAMES)?;
    let mut proofs = Seq::new(alloc);
    for _ in 0..7 {
        proofs.push(Seq::new(alloc))?;
    }
    if proofs.items().len() == names.items().len() {
        let text = write_cert(alloc, names.items(), proofs.items())?;
        assert!(rt; text.as_slice() == SEVEN);
        Ok(())
    } else {
        Err(Fail::from("other lengths"))
    }
}

/// A text for the obligations a and b with what is read of it.
fn read_as(alloc: Global, bytes: &[u8], expected: &str) -> Result<bool, Fail> {
    let read = parts(alloc, &["a", "b"], bytes)?;
    Ok(read.as_str() == expected)
}

#[test]
fn lines_are_read_as_they_are_written(rt: HostRuntime) -> Result<(), Fail> {
    let alloc = rt.alloc();
    for (bytes, expected) in [
        (
            b"lola-cert 1\no a\n29 -1 -2 0 28 26 3 0\n30 0 29 -5 0\n30 d 29 28 0\n31 d 0\n32 0 0\no b\nend 2\n".as_slice(),
            "o0 add 29 2 3 add 30 0 2 delete 30 2 delete 31 0 add 32 0 0 o1 finished",
        ),
        (
            b"lola-cert 1\no a\n9223372036854775807 2147483647 -2147483647 0 9223372036854775807 -9223372036854775807 0\no b\nend 2\n".as_slice(),
            "o0 add 9223372036854775807 2 2 o1 finished",
        ),
    ] {
        assert!(rt; read_as(alloc, bytes, expected)?);
    }
    Ok(())
}

#[test]
fn a_line_that_is_none_is_bad(rt: HostRuntime) -> Result<(), Fail> {
    let alloc = rt.alloc();
    for line in [
        "",
        " ",
        "o",
        "o ",
        "o a b",
        "o  a",
        "lola-cert 1",
        "1",
        "1 0",
        "1 0 0 ",
        " 1 0 0",
        "1  0 0",
        "1 0 0 0",
        "01 0 0",
        "+1 0 0",
        "-1 0 0",
        "0 0 0",
        "9223372036854775808 0 0",
        "18446744073709551617 0 0",
        "1 2147483648 0 0",
        "1 -2147483648 0 0",
        "1 -0 0 0",
        "1 00 0 0",
        "1 2 0 9223372036854775808 0",
        "1 2 0 x 0",
        "1 2 0 3",
        "1 d",
        "1 d 0 0",
        "1 d -2 0",
        "1 d 2",
        "d 1 0",
        "end",
        "end 2 ",
        "end 02",
        "end 1",
        "end 3",
        "END 2",
        "1 0 0\r",
    ] {
        let text = format!(in alloc; "lola-cert 1\no a\n{line}\no b\nend 2\n")?;
        assert!(rt; read_as(alloc, text.as_bytes(), "o0 bad 3")?, "{line}");
    }
    Ok(())
}

#[test]
fn the_first_fault_in_line_order_counts(rt: HostRuntime) -> Result<(), Fail> {
    let alloc = rt.alloc();
    for (bytes, expected) in [
        (b"".as_slice(), "truncated 0"),
        (b"lola-cert 1".as_slice(), "truncated 0"),
        (b"lola-cert 2\n".as_slice(), "bad 1"),
        (b"o a\n".as_slice(), "bad 1"),
        (b"\n".as_slice(), "bad 1"),
        (b"lola-cert 1\n".as_slice(), "truncated 1"),
        (b"lola-cert 1\n1 0 0\n".as_slice(), "bad 2"),
        (b"lola-cert 1\no b\n".as_slice(), "name 2"),
        (b"lola-cert 1\no ab\n".as_slice(), "name 2"),
        (b"lola-cert 1\nend 2\n".as_slice(), "missing 2 a"),
        (b"lola-cert 1\nend 0\n".as_slice(), "bad 2"),
        (
            b"lola-cert 1\no a\nend 2\nrest".as_slice(),
            "o0 missing 3 b",
        ),
        (b"lola-cert 1\no a\no a\n".as_slice(), "o0 name 3"),
        (b"lola-cert 1\no a\no b\no c\n".as_slice(), "o0 o1 extra 4"),
        (b"lola-cert 1\no a\no b\no a b\n".as_slice(), "o0 o1 bad 4"),
        (
            b"lola-cert 1\no a\no b\nend 2\n".as_slice(),
            "o0 o1 finished",
        ),
        (
            b"lola-cert 1\no a\no b\nend 2\nx".as_slice(),
            "o0 o1 extra 5",
        ),
        (
            b"lola-cert 1\no a\no b\nend 2\n\n".as_slice(),
            "o0 o1 extra 5",
        ),
        (
            b"lola-cert 1\no a\no b\nend 2\nend 2\n".as_slice(),
            "o0 o1 extra 5",
        ),
        (
            b"lola-cert 1\no a\no b\nend 2".as_slice(),
            "o0 o1 truncated 3",
        ),
        (
            b"lola-cert 1\no a\no b\nbad".as_slice(),
            "o0 o1 truncated 3",
        ),
    ] {
        assert!(rt; read_as(alloc, bytes, expected)?, "{expected}");
    }
    Ok(())
}

#[test]
fn a_missing_obligation_is_named(rt: HostRuntime) -> Result<(), Fail> {
    let alloc = rt.alloc();
    let six =
        b"lola-cert 1\no cover\no reset/INVARIANT\no reset/BOUNDARY\no reset/q\no flip/0/end/INVARIANT\no flip/0/end/BOUNDARY\nend 7\n".as_slice();
    let read = parts(alloc, &NAMES, six)?;
    assert_eq!(rt; read.as_str(), "o0 o1 o2 o3 o4 o5 missing 8 flip/0/end/q");
    Ok(())
}

#[test]
fn the_same_answer_comes_again(rt: HostRuntime) -> Result<(), Fail> {
    let alloc = rt.alloc();
    let names = names(alloc, &["a"])?;
    if names.items().len() > 1_000 {
        return Err(Fail::from("too many"));
    }
    for (bytes, line) in [
        (b"lola-cert 1\no a\nend 1\n".as_slice(), 3),
        (b"lola-cert 1\no a\nend 1\nx".as_slice(), 3),
        (b"lola-cert 1\no a\nend 2\n".as_slice(), 3),
        (b"lola-cert 1\no a\n".as_slice(), 2),
    ] {
        let mut reader = CertReader::new(bytes);
        assert!(rt;
            matches!(
                reader.next(alloc, names.items()),
                Ok(CertStep::Begin { number: 0 })
            )
        );
        for _ in 0..3 {
            match reader.next(alloc, names.items()) {
                Ok(CertStep::Finished) => assert_eq!(rt; bytes.len(), 22),
                Err(CertError::Extra { n }) => assert_eq!(rt; n, 4),
                Err(CertError::BadLine { n }) => assert_eq!(rt; n, 3),
                Err(CertError::Truncated) => assert_eq!(rt; bytes.len(), 16),
                _ => return Err(Fail::from("another answer")),
            }
            assert_eq!(rt; reader.line(), line);
        }
    }
    Ok(())
}
