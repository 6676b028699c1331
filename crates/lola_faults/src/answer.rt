// What becomes of a text: the line of the first rule that it breaks, or that it is well sized.
use lola_parse::{parse, tokens_lie_within};
use lola_scan::scan;
use lola_width::{SourceFault, sizes};
use std::alloc::Global;
use std::process::Abort;
use std::test::Fail;

/// What stands before a body: a module with a clock, and one that declares a name of each kind.
const FRONT: &str = "MODULE Inner(IN clk, e: BIT; i: BYTE; OUT o: BYTE; INOUT p: BYTE);
REG (clk) q: BYTE; VAR s: BYTE; BEGIN q := i; o := q; TS(p, s, q, e) END Inner.
MODULE Frame(IN clk, bit: BIT; byte: BYTE; nib: [4] BIT; OUT out: BYTE; INOUT pad: BYTE; thin: [4] BIT);
CONST none := 0; three := 3'2; eight := 8'4; REG (clk) reg: BYTE; mem: [4] BYTE;
VAR var, low: BYTE; one: BIT; half: [4] BIT; u: Inner; BEGIN ";

/// What stands behind a body.
const BACK: &str = " END Frame.";

/// A fault as it is printed: its name, its place, and what else it says.
fn fault_line(alloc: Global, fault: &SourceFault) -> Result<String, Fail> {
    Ok(match fault {
        SourceFault::Doubled { at, name } => format!(in alloc; "Doubled {at} {}", name.text())?,
        SourceFault::Unknown { at, name } => format!(in alloc; "Unknown {at} {}", name.text())?,
        SourceFault::Kind { at } => format!(in alloc; "Kind {at}")?,
        SourceFault::ArrayShape { at, name } => {
            format!(in alloc; "ArrayShape {at} {}", name.text())?
        }
        SourceFault::Clock { at } => format!(in alloc; "Clock {at}")?,
        SourceFault::Width { at, left, right } => format!(in alloc; "Width {at} {left} {right}")?,
        SourceFault::TooWide { at } => format!(in alloc; "TooWide {at}")?,
        SourceFault::IndexRange { at } => format!(in alloc; "IndexRange {at}")?,
        SourceFault::PortCount { at } => format!(in alloc; "PortCount {at}")?,
        SourceFault::NotAssigned { at, name } => {
            format!(in alloc; "NotAssigned {at} {}", name.text())?
        }
        SourceFault::AssignedTwice { at, name } => {
            format!(in alloc; "AssignedTwice {at} {}", name.text())?
        }
        SourceFault::Memory => String::from_str(alloc, "no memory")?,
    })
}

/// What becomes of a text of at most 1,048,576 bytes.
pub(crate) fn answer(alloc: Global, text: &[u8]) -> Result<String, Fail> {
    if text.len() > 1_048_576 {
        return Ok(String::from_str(alloc, "too long")?);
    }
    tokens_lie_within();
    let tokens = match scan(alloc, text) {
        Ok(tokens) => tokens,
        Err(_) => return Ok(String::from_str(alloc, "no tokens")?),
    };
    let source = match parse(alloc, text, tokens.as_slice()) {
        Ok(source) => source,
        Err(_) => return Ok(String::from_str(alloc, "no design")?),
    };
    match sizes(alloc, &source) {
        Ok(()) => Ok(String::from_str(alloc, "well sized")?),
        Err(fault) => fault_line(alloc, &fault),
    }
}

/// A text without its mark, and the place of the mark; where there is none, the length.
fn unmarked(alloc: Global, marked: &str) -> Result<(String, usize), Fail> {
    match marked.split_once('$') {
        Some((before, behind)) => Ok((format!(in alloc; "{before}{behind}")?, before.len())),
        None => Ok((String::from_str(alloc, marked)?, marked.len())),
    }
}

/// The line of a fault that is written without its place.
fn placed(alloc: Global, fault: &str, place: usize) -> Result<String, Fail> {
    match fault.split_once(' ') {
        Some((name, more)) => Ok(format!(in alloc; "{name} {place} {more}")?),
        None => Ok(format!(in alloc; "{fault} {place}")?),
    }
}

/// The line of a text is this one.
pub(crate) fn answers(rt: &impl Abort, alloc: Global, text: &str, line: &str) -> Result<(), Fail> {
    let found = answer(alloc, text.as_bytes())?;
    assert_eq!(rt; found.as_str(), line, "of {text}");
    Ok(())
}

/// What is written in a row holds of its text between a front and a back: the first rule that it
/// breaks, or that it breaks none.
fn row_holds(
    rt: &impl Abort,
    alloc: Global,
    front: &str,
    row: &str,
    back: &str,
) -> Result<(), Fail> {
    match row.split_once(" => ") {
        Some((marked, fault)) => {
            let whole = format!(in alloc; "{front}{marked}{back}")?;
            let (text, place) = unmarked(alloc, whole.as_str())?;
            let found = answer(alloc, text.as_str().as_bytes())?;
            let wanted = placed(alloc, fault, place)?;
            assert_eq!(rt; found.as_str(), wanted.as_str(), "of {row}");
        }
        None => {
            let whole = format!(in alloc; "{front}{row}{back}")?;
            answers(rt, alloc, whole.as_str(), "well sized")?;
        }
    }
    Ok(())
}

/// Whether a line of a table is empty or a comment.
fn is_heading(line: &str) -> bool {
    line.is_empty() || line.starts_with("(*")
}

/// What is written in each row of a table holds. A row is a text, and behind ` => ` the first rule
/// that it breaks; without that it breaks none.
pub(crate) fn rows_hold(rt: &impl Abort, alloc: Global, rows: &str) -> Result<(), Fail> {
    for line in rows.lines() {
        let row = line.trim();
        if !is_heading(row) {
            row_holds(rt, alloc, "", row, "")?;
        }
    }
    Ok(())
}

/// The same of texts that are bodies of the frame.
pub(crate) fn bodies_hold(rt: &impl Abort, alloc: Global, bodies: &str) -> Result<(), Fail> {
    for line in bodies.lines() {
        let row = line.trim();
        if !is_heading(row) {
            row_holds(rt, alloc, FRONT, row, BACK)?;
        }
    }
    Ok(())
}
