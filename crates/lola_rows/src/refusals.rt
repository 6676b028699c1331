// What `decide` says of the text of a design that gives none. Each place was counted by hand.
use crate::decide::expect;
use lola_app::Status;
use std::alloc::Global;
use std::process::Abort;
use std::test::Fail;

const TABLE: &[u8] =
    b"TABLE T1 FOR Tog; ROLES RESET rst = 1; LOADED t;\nSTATE q: BIT IS @q; INVARIANT 1; BOUNDARY 1; START q := 0;\nCLASS flip \"-\" PHASE LOAD; SET q := q ^ d0; END T1.";

/// Runs `decide` on a design that is refused, and compares what is printed.
fn refused(rt: &impl Abort, alloc: Global, source: &[u8], text: &[u8]) -> Result<(), Fail> {
    expect(rt, alloc, source, TABLE, Status::SourceFault, text)
}

#[test]
fn an_empty_text_ends_too_early(rt: HostRuntime) -> Result<(), Fail> {
    refused(&rt, rt.alloc(), b"", b"source: Syntax 0\n")
}

#[test]
fn a_byte_that_begins_no_token_is_named(rt: HostRuntime) -> Result<(), Fail> {
    refused(&rt, rt.alloc(), b"?", b"source: BadByte 0\n")
}

#[test]
fn a_comment_without_an_end_is_named(rt: HostRuntime) -> Result<(), Fail> {
    refused(&rt, rt.alloc(), b"(*", b"source: OpenComment 0\n")
}

#[test]
fn a_number_of_2_to_128_is_too_large(rt: HostRuntime) -> Result<(), Fail> {
    let source = b"MODULE A(OUT o: BIT); BEGIN o := 340282366920938463463374607431768211456 END A.";
    refused(&rt, rt.alloc(), source, b"source: NumberTooLarge 33\n")
}

#[test]
fn the_first_fault_of_a_text_is_named(rt: HostRuntime) -> Result<(), Fail> {
    let cases: [(&[u8], &[u8]); 4] = [
        (b"MODULE A(); END ? (*", b"source: BadByte 16\n"),
        (b"MODULE A(); (* ? END A.", b"source: OpenComment 12\n"),
        (b"END \"0x", b"source: BadByte 6\n"),
        (b"END \"0", b"source: BadByte 4\n"),
    ];
    for (source, text) in cases {
        refused(&rt, rt.alloc(), source, text)?;
    }
    Ok(())
}

#[test]
fn a_token_that_no_design_has_there_is_named(rt: HostRuntime) -> Result<(), Fail> {
    let cases: [(&[u8], &[u8]); 4] = [
        (b"MODULE A(IN); END A.", b"source: Syntax 11\n"),
        (b"MODULE A(); BEGIN x = 1 END A.", b"source: Syntax 20\n"),
        (b"MODULE A(); END A. END", b"source: Syntax 19\n"),
        (b"  ) END", b"source: Syntax 2\n"),
    ];
    for (source, text) in cases {
        refused(&rt, rt.alloc(), source, text)?;
    }
    Ok(())
}

#[test]
fn a_design_that_ends_too_early_is_refused_at_its_length(rt: HostRuntime) -> Result<(), Fail> {
    let cases: [(&[u8], &[u8]); 3] = [
        (b"MODULE A(", b"source: Syntax 9\n"),
        (b"MODULE A(); END A", b"source: Syntax 17\n"),
        (b"MODULE A(); END A (* . *)\n", b"source: Syntax 26\n"),
    ];
    for (source, text) in cases {
        refused(&rt, rt.alloc(), source, text)?;
    }
    Ok(())
}

#[test]
fn a_design_that_breaks_a_rule_has_its_first_fault_named(rt: HostRuntime) -> Result<(), Fail> {
    let cases: [(&[u8], &[u8]); 6] = [
        (b"MODULE Tog(IN rst: BIT); END Tag.", b"source: Kind 29\n"),
        (
            b"MODULE Tog(IN rst: BIT; OUT o: BIT); END Tog.",
            b"source: NotAssigned 28 o\n",
        ),
        (
            b"MODULE Tog(IN rst: BIT; OUT o: BIT); BEGIN o := 1; o := 1 END Tog.",
            b"source: AssignedTwice 51 o\n",
        ),
        (
            b"MODULE Tog(IN clk, rst: BIT); REG (clk) q: BIT; BEGIN q := clk END Tog.",
            b"source: Clock 59\n",
        ),
        (
            b"MODULE A(OUT o: BYTE); BEGIN o := 3'2 END A.",
            b"source: Width 31 8 2\n",
        ),
        (
            b"MODULE A(IN a, b, a: BIT); END B.",
            b"source: Doubled 18 a\n",
        ),
    ];
    for (source, text) in cases {
        refused(&rt, rt.alloc(), source, text)?;
    }
    Ok(())
}

/// The toggler with an output of so many negations of its register.
fn negated(alloc: Global, count: usize) -> Result<Vec<u8>, Fail> {
    let mut source =
        b"MODULE Tog(IN clk, rst, t: BIT; OUT o: BIT); REG (clk) q: BIT;\nBEGIN q := ~rst & (q ^ t); o := ".to_vec(
            alloc,
        )?;
    source.extend_from_slice(vec![in alloc; b'~'; count]?.as_slice())?;
    source.extend_from_slice(b"q END Tog.")?;
    Ok(source)
}

#[test]
fn an_expression_may_have_512_tokens(rt: HostRuntime) -> Result<(), Fail> {
    let alloc = rt.alloc();
    let source = negated(alloc, 511)?;
    let text = b"yes obligations=7 classes=1 outside=0\n";
    expect(&rt, alloc, source.as_slice(), TABLE, Status::Ok, text)
}

#[test]
fn the_513th_token_of_an_expression_is_too_many(rt: HostRuntime) -> Result<(), Fail> {
    let alloc = rt.alloc();
    let source = negated(alloc, 512)?;
    let text = b"limit: expression 607\n";
    expect(&rt, alloc, source.as_slice(), TABLE, Status::Limit, text)
}
