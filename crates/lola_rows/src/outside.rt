// What wrong words and a failing outside come to.
use lola_app::{Status, serve};
use lola_port::{MemSink, MemStore};
use std::alloc::Global;
use std::process::Abort;
use std::test::Fail;

const TOGGLER: &[u8] =
    b"MODULE Tog(IN clk, rst, t: BIT; OUT o: BIT); REG (clk) q: BIT;\nBEGIN q := ~rst & (q ^ t); o := q END Tog.";

const TABLE: &[u8] =
    b"TABLE T1 FOR Tog; ROLES RESET rst = 1; LOADED t;\nSTATE q: BIT IS @q; INVARIANT 1; BOUNDARY 1; START q := 0;\nCLASS flip \"-\" PHASE LOAD; SET q := q ^ d0; END T1.";

/// A store of a design and a table, under `tog.lola` and `tog.table`.
fn store(alloc: Global, source: &[u8], table: &[u8], failing: Vec<u64>) -> Result<MemStore, Fail> {
    let mut files = Vec::new(alloc);
    files.push((String::from_str(alloc, "tog.lola")?, source.to_vec(alloc)?))?;
    files.push((String::from_str(alloc, "tog.table")?, table.to_vec(alloc)?))?;
    Ok(MemStore::new(alloc, files, failing).map_err(|_| "memory")?)
}

/// The files of the toggler.
fn toggler(alloc: Global, failing: Vec<u64>) -> Result<MemStore, Fail> {
    store(alloc, TOGGLER, TABLE, failing)
}

/// Runs a command over files, and compares the status and what is printed.
fn expect(
    rt: &impl Abort,
    alloc: Global,
    said: &[&str],
    mut files: MemStore,
    status: Status,
    text: &[u8],
) -> Result<(), Fail> {
    let mut out = MemSink::new(alloc, Vec::new(alloc)).map_err(|_| "memory")?;
    let mut seats = Vec::new(alloc);
    let mut words = Vec::new(alloc);
    for word in said {
        words.push(String::from_str(alloc, word)?)?;
    }
    let ended = serve(alloc, words.as_slice(), &mut files, &mut out, &mut seats);
    assert_eq!(rt; out.bytes(), text);
    assert_eq!(rt; ended, status);
    Ok(())
}

#[test]
fn other_words_are_refused(rt: HostRuntime) -> Result<(), Fail> {
    let alloc = rt.alloc();
    let all: [&[&str]; 5] = [
        &[],
        &["frob"],
        &["decide"],
        &["decide", "tog.lola"],
        &["decide", "tog.lola", "tog.table", "more"],
    ];
    for words in all {
        let files = toggler(alloc, Vec::new(alloc))?;
        expect(&rt, alloc, words, files, Status::BadWords, b"words\n")?;
    }
    Ok(())
}

#[test]
fn a_failed_read_names_its_file(rt: HostRuntime) -> Result<(), Fail> {
    let alloc = rt.alloc();
    let words = ["decide", "tog.lola", "tog.table"];
    let files = toggler(alloc, vec![in alloc; 0]?)?;
    expect(
        &rt,
        alloc,
        &words,
        files,
        Status::ReadFault,
        b"read: tog.lola\n",
    )?;
    let files = toggler(alloc, vec![in alloc; 1]?)?;
    expect(
        &rt,
        alloc,
        &words,
        files,
        Status::ReadFault,
        b"read: tog.table\n",
    )?;
    let files = toggler(alloc, Vec::new(alloc))?;
    expect(
        &rt,
        alloc,
        &["decide", "tog.lola", "no.table"],
        files,
        Status::ReadFault,
        b"read: no.table\n",
    )
}

#[test]
fn a_text_over_its_limit_is_refused(rt: HostRuntime) -> Result<(), Fail> {
    let alloc = rt.alloc();
    let words = ["decide", "tog.lola", "tog.table"];
    let long = vec![in alloc; b' '; 1_048_577]?;
    let files = store(alloc, long.as_slice(), TABLE, Vec::new(alloc))?;
    expect(
        &rt,
        alloc,
        &words,
        files,
        Status::Limit,
        b"limit: text tog.lola\n",
    )?;
    let files = store(alloc, TOGGLER, long.as_slice(), Vec::new(alloc))?;
    expect(
        &rt,
        alloc,
        &words,
        files,
        Status::Limit,
        b"limit: text tog.table\n",
    )
}

#[test]
fn a_sink_that_fails_is_a_write_fault(rt: HostRuntime) -> Result<(), Fail> {
    let alloc = rt.alloc();
    let mut files = toggler(alloc, Vec::new(alloc))?;
    let mut out = MemSink::new(alloc, vec![in alloc; 0]?).map_err(|_| "memory")?;
    let mut seats = Vec::new(alloc);
    let mut words = Vec::new(alloc);
    for word in ["decide", "tog.lola", "tog.table"] {
        words.push(String::from_str(alloc, word)?)?;
    }
    let ended = serve(alloc, words.as_slice(), &mut files, &mut out, &mut seats);
    assert_eq!(rt; ended, Status::WriteFault);
    assert_eq!(rt; out.bytes(), b"".as_slice());
    assert_eq!(rt; files.file("tog.lola"), Some(TOGGLER));
    Ok(())
}
