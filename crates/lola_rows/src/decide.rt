// The command `decide` on designs of one-bit registers.
use lola_app::{Status, serve};
use lola_port::{MemSink, MemStore};
use std::alloc::Global;
use std::process::Abort;
use std::test::Fail;

pub const TOGGLER: &[u8] =
    b"MODULE Tog(IN clk, rst, t: BIT; OUT o: BIT); REG (clk) q: BIT;\nBEGIN q := ~rst & (q ^ t); o := q END Tog.";

const COUNTER: &[u8] =
    b"MODULE Cnt(IN clk, rst: BIT); REG (clk) q0, q1: BIT;\nBEGIN q0 := ~rst & ~q0; q1 := q1 ^ (q0 & ~rst) END Cnt.";

/// Runs `decide` on a design and a table, and compares the status and what is printed.
pub fn expect(
    rt: &impl Abort,
    alloc: Global,
    source: &[u8],
    table: &[u8],
    status: Status,
    text: &[u8],
) -> Result<(), Fail> {
    let mut files = Vec::new(alloc);
    files.push((String::from_str(alloc, "a.lola")?, source.to_vec(alloc)?))?;
    files.push((String::from_str(alloc, "a.table")?, table.to_vec(alloc)?))?;
    let mut files = MemStore::new(alloc, files, Vec::new(alloc)).map_err(|_| "memory")?;
    let mut out = MemSink::new(alloc, Vec::new(alloc)).map_err(|_| "memory")?;
    let mut seats = Vec::new(alloc);
    let mut words = Vec::new(alloc);
    words.push(String::from_str(alloc, "decide")?)?;
    words.push(String::from_str(alloc, "a.lola")?)?;
    words.push(String::from_str(alloc, "a.table")?)?;
    let ended = serve(alloc, words.as_slice(), &mut files, &mut out, &mut seats);
    assert_eq!(rt; out.bytes(), text);
    assert_eq!(rt; ended, status);
    Ok(())
}

#[test]
fn a_toggler_carries_out_its_table(rt: HostRuntime) -> Result<(), Fail> {
    let table =
        b"TABLE T1 FOR Tog; ROLES RESET rst = 1; LOADED t;\nSTATE q: BIT IS @q; INVARIANT 1; BOUNDARY 1; START q := 0;\nCLASS flip \"-\" PHASE LOAD; SET q := q ^ d0; END T1.";
    let text = b"yes obligations=7 classes=1 outside=0\n";
    expect(&rt, rt.alloc(), TOGGLER, table, Status::Ok, text)
}

#[test]
fn a_wrong_set_row_fails(rt: HostRuntime) -> Result<(), Fail> {
    let table =
        b"TABLE T1 FOR Tog; ROLES RESET rst = 1; LOADED t;\nSTATE q: BIT IS @q; INVARIANT 1; BOUNDARY 1; START q := 0;\nCLASS flip \"-\" PHASE LOAD; SET q := q; END T1.";
    let text = b"no flip/0/end/q\n@t=1\n@q=0\nend\n";
    expect(&rt, rt.alloc(), TOGGLER, table, Status::No, text)
}

#[test]
fn a_register_that_ignores_reset_fails(rt: HostRuntime) -> Result<(), Fail> {
    let table =
        b"TABLE TC FOR Cnt; ROLES RESET rst = 1; STATE q0: BIT IS @q0; q1: BIT IS @q1;\nINVARIANT 1; BOUNDARY 1; START q0 := 0; q1 := 0;\nCLASS go \"-\" PHASE; SET q0 := ~q0; SET q1 := q1 ^ q0; END TC.";
    let text = b"no reset/q1\n@q0=0\n@q1=1\nend\n";
    expect(&rt, rt.alloc(), COUNTER, table, Status::No, text)
}

#[test]
fn a_false_invariant_fails(rt: HostRuntime) -> Result<(), Fail> {
    let table =
        b"TABLE T1 FOR Tog; ROLES RESET rst = 1; LOADED t;\nSTATE q: BIT IS @q; INVARIANT 0; BOUNDARY 1; START q := 0;\nCLASS flip \"-\" PHASE LOAD; SET q := q ^ d0; END T1.";
    let text = b"no reset/INVARIANT\n@t=0\n@q=0\nend\n";
    expect(&rt, rt.alloc(), TOGGLER, table, Status::No, text)
}

#[test]
fn a_word_that_no_class_fits_fails(rt: HostRuntime) -> Result<(), Fail> {
    let table =
        b"TABLE T1 FOR Tog; ROLES RESET rst = 1; LOADED t;\nSTATE q: BIT IS @q; INVARIANT 1; BOUNDARY 1; START q := 0;\nCLASS flip \"1\" PHASE LOAD; SET q := q ^ d0; END T1.";
    expect(
        &rt,
        rt.alloc(),
        TOGGLER,
        table,
        Status::No,
        b"no cover\ni=0\nend\n",
    )
}

#[test]
fn a_design_outside_the_small_form_is_not_built(rt: HostRuntime) -> Result<(), Fail> {
    let table =
        b"TABLE T1 FOR Tog; ROLES RESET rst = 1; STATE INVARIANT 1; BOUNDARY 1; START CLASS go \"-\" PHASE; END T1.";
    let sources: [&[u8]; 3] = [
        b"MODULE Tog(IN clk, rst: BIT); REG (clk) R: [2] BYTE; BEGIN R[rst] := 1'8 END Tog.",
        b"MODULE Tog(IN rst: BIT); VAR x: BIT; BEGIN x := rst END Tog.",
        b"MODULE Tog(IN rst: BIT; OUT o: BIT); BEGIN o := o END Tog.",
    ];
    for source in sources {
        expect(
            &rt,
            rt.alloc(),
            source,
            table,
            Status::SourceFault,
            b"source: NotBuilt\n",
        )?;
    }
    Ok(())
}

#[test]
fn a_table_outside_the_small_form_is_not_built(rt: HostRuntime) -> Result<(), Fail> {
    let tables: [&[u8]; 8] = [
        b"",
        b"TABLE T FOR Tag; ROLES RESET rst = 1; STATE INVARIANT 1; BOUNDARY 1; START CLASS go \"-\" PHASE; END T.",
        b"TABLE T FOR Tog; ROLES STATE INVARIANT 1; BOUNDARY 1; START CLASS go \"-\" PHASE; END T.",
        b"TABLE T FOR Tog; ROLES RESET clk = 1; STATE INVARIANT 1; BOUNDARY 1; START CLASS go \"-\" PHASE; END T.",
        b"TABLE T FOR Tog; ROLES RESET rst = 1; STATE INVARIANT q; BOUNDARY 1; START CLASS go \"-\" PHASE; END T.",
        b"TABLE T FOR Tog; ROLES RESET rst = 1; STATE INVARIANT 1; BOUNDARY 1; START CLASS go \"--\" PHASE; END T.",
        b"TABLE T FOR Tog; ROLES RESET rst = 1; STATE INVARIANT 1; BOUNDARY 1; START CLASS go \"-\" PHASE LOAD; END T.",
        b"TABLE T FOR Tog; ROLES RESET rst = 1; STATE INVARIANT 1; BOUNDARY 1; START CLASS go \"-\" PHASE; END T. more",
    ];
    for table in tables {
        expect(
            &rt,
            rt.alloc(),
            TOGGLER,
            table,
            Status::TableFault,
            b"table: NotBuilt\n",
        )?;
    }
    Ok(())
}
