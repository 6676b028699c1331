// How deep modules may stand, and how many signals and instances a design may have.
use crate::answer::{elaborated, extent, gives};
use lola_flat::{FExpr, Signal};
use std::alloc::Global;
use std::process::Abort;
use std::test::Fail;

/// So many modules, each but the first with an instance of the one before it.
fn chain(alloc: Global, modules: u32) -> Result<String, Fail> {
    let mut text = String::from_str(
        alloc,
        "MODULE M0(IN a: BIT; OUT o: BIT); BEGIN o := ~a END M0. ",
    )?;
    for number in 1..modules {
        let below = number - 1;
        let module = format!(in alloc;
            "MODULE M{number}(IN a: BIT; OUT o: BIT); VAR u: M{below}; BEGIN u(a, o) END M{number}. "
        )?;
        text.push_str(module.as_str())?;
    }
    Ok(text)
}

/// Whether the equation of a signal is another signal and nothing else.
fn is_copy(signals: &[Signal], number: u32, of: u32) -> bool {
    match signals.get(number as usize) {
        Some(signal) => match &signal.equation {
            Some(FExpr::Signal { number }) => *number == of,
            _ => false,
        },
        None => false,
    }
}

// The ports a and o of the root have the numbers 0 and 1, and those of the instance n levels below 2n and 2n + 1.
// On the way down each a has that above it, and on the way up each o that below it.
#[test]
fn modules_stand_64_deep(rt: HostRuntime) -> Result<(), Fail> {
    let alloc = rt.alloc();
    let text = chain(alloc, 64)?;
    let flat = elaborated(alloc, text.as_bytes())?.map_err(|_| "no design")?;
    let signals = flat.signals.items();
    assert_eq!(&rt; signals.len(), 128);
    for level in 1..64u32 {
        assert!(&rt; is_copy(signals, 2 * level, 2 * level - 2));
        assert!(&rt; is_copy(signals, 2 * level - 1, 2 * level + 1));
    }
    match signals.last() {
        Some(last) => assert_eq!(&rt; last.path.items().len(), 64),
        None => assert!(&rt; false),
    }
    assert_eq!(&rt; flat.order.items().len(), 127);
    for (place, number) in flat.order.items().iter().enumerate() {
        // 2, 4, .., 126, and then 127, 125, .., 1
        let wanted = if place < 63 {
            2 * place + 2
        } else {
            253 - 2 * place
        };
        assert_eq!(&rt; *number as usize, wanted);
    }
    Ok(())
}

#[test]
fn modules_stand_too_deep(rt: HostRuntime) -> Result<(), Fail> {
    let alloc = rt.alloc();
    let text = chain(alloc, 65)?;
    gives(&rt, alloc, text.as_str(), "too deep 65")?;
    let text = chain(alloc, 300)?;
    gives(&rt, alloc, text.as_str(), "too deep 300")
}

/// A design of 65,536 elements and instances with three instances of E, which has one signal: the two ports, 63
/// arrays of 1,024, those of 512 to 8, and two for each instance. Then more.
fn large(alloc: Global, declared: &str, statements: &str) -> Result<String, Fail> {
    let mut text = String::from_str(
        alloc,
        "MODULE E(IN a: BIT); END E. MODULE M(IN clk, d: BIT); REG (clk) ",
    )?;
    let mut body = String::new(alloc);
    for number in 0..63u32 {
        let row = format!(in alloc; "r{number}: [1024] BYTE; ")?;
        text.push_str(row.as_str())?;
        let row = format!(in alloc; "r{number}[0'10] := 0'8; ")?;
        body.push_str(row.as_str())?;
    }
    for bits in 3..10u32 {
        let count = 1u32 << bits;
        let row = format!(in alloc; "s{bits}: [{count}] [1] BIT; ")?;
        text.push_str(row.as_str())?;
        let row = format!(in alloc; "s{bits}[0'{bits}] := 0; ")?;
        body.push_str(row.as_str())?;
    }
    text.push_str("VAR u, v, w: E; ")?;
    text.push_str(declared)?;
    text.push_str("BEGIN ")?;
    text.push_str(body.as_str())?;
    text.push_str("u(d); v(d); w(d); ")?;
    text.push_str(statements)?;
    text.push_str(" END M.")?;
    Ok(text)
}

// Two ports on each of three levels, and two instances; the ports of the root with its clock, and for each instance
// itself, its two ports without the clock and its array of 4.
#[test]
fn extents_are_heights_and_sizes(rt: HostRuntime) -> Result<(), Fail> {
    let alloc = rt.alloc();
    let text = chain(alloc, 3)?;
    assert_eq!(&rt; extent(alloc, text.as_str())?, (3, 8));
    let text = "MODULE A(IN clk: BIT; p: [2] BIT; OUT o: BYTE); REG (clk) R: [4] BYTE;
        BEGIN R[p] := o; o := R[p] END A.
        MODULE B(IN clk: BIT; p: [2] BIT; OUT o: BYTE); VAR u, v: A; c: BYTE;
        BEGIN u(clk, p, c); v(clk, p, o) END B.";
    assert_eq!(&rt; extent(alloc, text)?, (2, 18));
    Ok(())
}

// Two ports, 63 and 7 arrays, and a signal of each instance.
#[test]
fn elements_and_instances_are_counted(rt: HostRuntime) -> Result<(), Fail> {
    let alloc = rt.alloc();
    let text = large(alloc, "", "")?;
    let flat = elaborated(alloc, text.as_bytes())?.map_err(|_| "no design")?;
    assert_eq!(&rt; flat.signals.items().len(), 75);
    assert_eq!(&rt; flat.order.items().len(), 3);
    let text = large(alloc, "z: BIT; ", "z := d")?;
    gives(&rt, alloc, text.as_str(), "too many")?;
    let text = large(alloc, "x: E; ", "x(d)")?;
    gives(&rt, alloc, text.as_str(), "too many")
}

// That there are too many is said before a loop is looked for, and behind the depth.
#[test]
fn limits_stand_in_an_order(rt: HostRuntime) -> Result<(), Fail> {
    let alloc = rt.alloc();
    let text = large(alloc, "z: BIT; ", "z := ~z")?;
    gives(&rt, alloc, text.as_str(), "too many")?;
    let mut deep = chain(alloc, 65)?;
    deep.push_str(
        "MODULE L(IN a: BIT; OUT o: BIT); VAR z: BIT; u: M64; BEGIN z := ~z; u(a, o) END L.",
    )?;
    gives(&rt, alloc, deep.as_str(), "too deep 66")
}
