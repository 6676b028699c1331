// What becomes of a source: the lines of its flat design, or why it has none.
use crate::text::flat_text;
use lola_bits::{Name, Seq};
use lola_flat::Flat;
use lola_parse::{parse, tokens_lie_within};
use lola_regular::names_are_once;
use lola_scan::scan;
use lola_tree::Source;
use lola_unfold::{ElabError, elaborate, extent_of};
use lola_width::sizes;
use std::alloc::Global;
use std::process::Abort;
use std::test::Fail;

/// The source of a text of at most 1,048,576 bytes.
fn source(alloc: Global, text: &[u8]) -> Result<Source, Fail> {
    if text.len() > 1_048_576 {
        return Err(Fail::from("too long"));
    }
    tokens_lie_within();
    let tokens = scan(alloc, text).map_err(|_| "scan")?;
    let source = parse(alloc, text, tokens.as_slice()).map_err(|_| "parse")?;
    Ok(source)
}

/// Whether a source is well sized.
pub(crate) fn is_sized(alloc: Global, text: &[u8]) -> Result<bool, Fail> {
    let source = source(alloc, text)?;
    Ok(sizes(alloc, &source).is_ok())
}

/// The height and the size of a source.
pub(crate) fn extent(alloc: Global, text: &str) -> Result<(u32, u32), Fail> {
    let source = source(alloc, text.as_bytes())?;
    let extent = extent_of(alloc, &source)?;
    Ok((extent.height, extent.size))
}

/// The flat design of a source, which is well sized.
pub(crate) fn elaborated(alloc: Global, text: &[u8]) -> Result<Result<Flat, ElabError>, Fail> {
    let source = source(alloc, text)?;
    match sizes(alloc, &source) {
        Ok(()) => {
            names_are_once();
            Ok(elaborate(alloc, &source))
        }
        Err(_) => Err(Fail::from("not well sized")),
    }
}

/// `loop` and its names.
fn loop_line(alloc: Global, names: &Seq<Name>) -> Result<String, Fail> {
    let mut line = String::from_str(alloc, "loop")?;
    for name in names.items() {
        line.push_str(" ")?;
        line.push_str(name.text())?;
    }
    line.push_str("\n")?;
    Ok(line)
}

/// The lines of an answer.
pub(crate) fn answer(alloc: Global, text: &[u8]) -> Result<String, Fail> {
    match elaborated(alloc, text)? {
        Ok(flat) => flat_text(alloc, &flat),
        Err(ElabError::TooDeep { height }) => Ok(format!(in alloc; "too deep {height}\n")?),
        Err(ElabError::TooMany) => Ok(String::from_str(alloc, "too many\n")?),
        Err(ElabError::Loop { names }) => loop_line(alloc, &names),
        Err(ElabError::Memory) => Ok(String::from_str(alloc, "no memory\n")?),
    }
}

/// Lines without the blanks at their ends; those that are empty are left out.
fn trimmed(alloc: Global, lines: &str) -> Result<String, Fail> {
    let mut out = String::new(alloc);
    for line in lines.lines() {
        let row = line.trim();
        if !row.is_empty() {
            out.push_str(row)?;
            out.push_str("\n")?;
        }
    }
    Ok(out)
}

/// The answer of a source has these lines.
pub(crate) fn gives(rt: &impl Abort, alloc: Global, text: &str, lines: &str) -> Result<(), Fail> {
    let found = answer(alloc, text.as_bytes())?;
    let wanted = trimmed(alloc, lines)?;
    assert_eq!(rt; found.as_str(), wanted.as_str(), "of {text}");
    Ok(())
}
