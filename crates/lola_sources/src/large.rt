// Texts at the limits and past them.
use crate::answer::{answer, answers};
use std::alloc::Global;
use std::process::Abort;
use std::test::Fail;

/// Modules that stand in one another, two more than so many deep, with some statements behind that of the root.
fn chain(alloc: Global, between: u32, behind: &str) -> Result<String, Fail> {
    let mut text = String::from_str(
        alloc,
        "MODULE M0(IN a: BIT; OUT b: BIT); BEGIN b := a END M0.",
    )?;
    for below in 0..between {
        let level = below + 1;
        let part = format!(in alloc;
            " MODULE M{level}(IN a: BIT; OUT b: BIT); VAR u: M{below}; BEGIN u(a, b) END M{level}."
        )?;
        text.push_str(part.as_str())?;
    }
    let root = format!(in alloc;
        " MODULE R(IN a: BIT; OUT b, c: BIT); VAR u: M{between}; BEGIN u(a, b){behind} END R."
    )?;
    text.push_str(root.as_str())?;
    Ok(text)
}

/// 63 arrays of 1,024 registers and nine of 2 to 512, which are 65,534, and with a clock and a place 65,536;
/// with one more port, and one more statement.
fn arrays(alloc: Global, port: &str, statement: &str) -> Result<String, Fail> {
    let mut text = format!(in alloc; "MODULE A(IN clk: BIT; p: [10] BIT{port}); REG (clk) ")?;
    let mut body = String::new(alloc);
    for number in 0..63u32 {
        let part = format!(in alloc; "r{number}: [1024] [1] BIT; ")?;
        text.push_str(part.as_str())?;
        let part = format!(in alloc; "r{number}[p] := 0; ")?;
        body.push_str(part.as_str())?;
    }
    let counts = [2, 4, 8, 16, 32, 64, 128, 256, 512];
    for high in 0..9usize {
        let count: u32 = counts[high];
        let part = format!(in alloc; "s{high}: [{count}] [1] BIT; ")?;
        text.push_str(part.as_str())?;
        let part = format!(in alloc; "s{high}[p[{high} : 0]] := 0; ")?;
        body.push_str(part.as_str())?;
    }
    text.push_str("BEGIN ")?;
    text.push_str(body.as_str())?;
    text.push_str(statement)?;
    text.push_str(" END A.")?;
    Ok(text)
}

/// A text is accepted.
fn is_accepted(rt: &impl Abort, alloc: Global, text: &str) -> Result<(), Fail> {
    let found = answer(alloc, text.as_bytes())?;
    assert!(rt; found.as_str().contains("order"), "{found} of {text}");
    Ok(())
}

// 64 modules may stand in one another. Too deep comes behind what is ill sized, and before a loop.
#[test]
fn modules_stand_64_deep(rt: HostRuntime) -> Result<(), Fail> {
    let alloc = rt.alloc();
    is_accepted(&rt, alloc, chain(alloc, 62, "; c := a")?.as_str())?;
    answers(
        &rt,
        alloc,
        chain(alloc, 63, "; c := a")?.as_str(),
        "limit: height, of 65",
    )?;
    answers(
        &rt,
        alloc,
        chain(alloc, 63, "; c := ~c")?.as_str(),
        "limit: height, of 65",
    )?;
    answers(
        &rt,
        alloc,
        chain(alloc, 62, "; c := ~c")?.as_str(),
        "source: Loop c",
    )?;
    let wide = answer(alloc, chain(alloc, 63, "; c := 0'2")?.as_str().as_bytes())?;
    assert!(&rt; wide.as_str().starts_with("source: Width"), "{wide}");
    Ok(())
}

// 65,536 signals are accepted, each element of an array counted. Too many comes before a loop.
#[test]
fn signals_are_counted_by_elements(rt: HostRuntime) -> Result<(), Fail> {
    let alloc = rt.alloc();
    is_accepted(&rt, alloc, arrays(alloc, "", "")?.as_str())?;
    let more = arrays(alloc, "; OUT o: BIT", "o := p.0")?;
    answers(&rt, alloc, more.as_str(), "limit: signals")?;
    let looped = arrays(alloc, "; OUT o: BIT", "o := ~o")?;
    answers(&rt, alloc, looped.as_str(), "limit: signals")?;
    Ok(())
}

/// A design whose output is the `and` of an input with itself, so many times in all.
fn conjunction(alloc: Global, times: u32) -> Result<String, Fail> {
    let mut text = String::from_str(alloc, "MODULE C(IN a: BIT; OUT o: BIT); BEGIN o := a")?;
    for _ in 1..times {
        text.push_str("&a")?;
    }
    text.push_str(" END C.")?;
    Ok(text)
}

// 256 names with marks between them are 511 tokens; the next name is the 513th. It stands 512 bytes behind the
// first, at 44.
#[test]
fn an_expression_has_512_tokens(rt: HostRuntime) -> Result<(), Fail> {
    let alloc = rt.alloc();
    is_accepted(&rt, alloc, conjunction(alloc, 256)?.as_str())?;
    answers(
        &rt,
        alloc,
        conjunction(alloc, 257)?.as_str(),
        "limit: expression 556",
    )?;
    Ok(())
}
