// What is read of a text, as a line: the refusal as it is printed, or the signals and their order.
use lola_bits::Name;
use lola_flat::{Flat, SigKind, Signal};
use lola_source::{SourceError, SourceFault, SourceRefusal, read_source};
use lola_width::SourceFault as SizeFault;
use std::alloc::Global;
use std::process::Abort;
use std::test::Fail;

/// Names with something between them.
fn joined(alloc: Global, names: &[Name], between: &str) -> Result<String, Fail> {
    let mut text = String::new(alloc);
    for at in 0..names.len() {
        if at > 0 {
            text.push_str(between)?;
        }
        text.push_str(names[at].text())?;
    }
    Ok(text)
}

/// What a signal is.
fn kind_word(kind: SigKind) -> &'static str {
    match kind {
        SigKind::Input => "in",
        SigKind::Pad => "pad",
        SigKind::Wire => "wire",
        SigKind::Register => "reg",
    }
}

/// The signals of a design in their order, each with what it is, its path, and its width and count.
fn signals_line(alloc: Global, signals: &[Signal]) -> Result<String, Fail> {
    let mut line = String::new(alloc);
    for signal in signals {
        let path = joined(alloc, signal.path.items(), ".")?;
        let word = kind_word(signal.kind);
        let (width, count) = (signal.width, signal.count);
        let part = format!(in alloc; "{word} {path} {width}x{count}; ")?;
        line.push_str(part.as_str())?;
    }
    Ok(line)
}

/// The paths of the signals in the order of their equations.
fn order_line(alloc: Global, flat: &Flat) -> Result<String, Fail> {
    let mut line = String::from_str(alloc, "order")?;
    let signals = flat.signals.items();
    for number in flat.order.items() {
        match signals.get(*number as usize) {
            Some(signal) => {
                let path = joined(alloc, signal.path.items(), ".")?;
                line.push_str(" ")?;
                line.push_str(path.as_str())?;
            }
            None => line.push_str(" ?")?,
        }
    }
    Ok(line)
}

/// A fault of names, widths or assignments, where it is one of those that stand here.
fn size_line(alloc: Global, fault: &SizeFault) -> Result<String, Fail> {
    Ok(match fault {
        SizeFault::Width { at, left, right } => format!(in alloc;
            "source: Width {at} {left} {right}"
        )?,
        SizeFault::TooWide { at } => format!(in alloc; "source: TooWide {at}")?,
        SizeFault::Unknown { at, name } => {
            format!(in alloc; "source: Unknown {at} {}", name.text())?
        }
        _ => String::from_str(alloc, "source: another fault")?,
    })
}

/// The line of a fault.
fn fault_line(alloc: Global, fault: &SourceFault) -> Result<String, Fail> {
    Ok(match fault {
        SourceFault::BadByte { at } => format!(in alloc; "source: BadByte {at}")?,
        SourceFault::NumberTooLarge { at } => format!(in alloc; "source: NumberTooLarge {at}")?,
        SourceFault::OpenComment { at } => format!(in alloc; "source: OpenComment {at}")?,
        SourceFault::Syntax { at } => format!(in alloc; "source: Syntax {at}")?,
        SourceFault::IllSized { fault } => size_line(alloc, fault)?,
        SourceFault::Loop { names } => {
            let names = joined(alloc, names.items(), " ")?;
            format!(in alloc; "source: Loop {names}")?
        }
    })
}

/// The line of a refusal.
fn refusal_line(alloc: Global, refusal: &SourceRefusal) -> Result<String, Fail> {
    Ok(match refusal {
        SourceRefusal::Fault { fault } => fault_line(alloc, fault)?,
        SourceRefusal::Long { at } => format!(in alloc; "limit: expression {at}")?,
        SourceRefusal::TooDeep { height } => format!(in alloc; "limit: height, of {height}")?,
        SourceRefusal::TooMany => String::from_str(alloc, "limit: signals")?,
    })
}

/// What is read of a text of at most 1,048,576 bytes.
pub(crate) fn answer(alloc: Global, text: &[u8]) -> Result<String, Fail> {
    if text.len() > 1_048_576 {
        return Ok(String::from_str(alloc, "too long")?);
    }
    match read_source(alloc, text) {
        Ok(read) => {
            let signals = signals_line(alloc, read.flat.signals.items())?;
            let order = order_line(alloc, &read.flat)?;
            Ok(format!(in alloc; "{signals}{order}")?)
        }
        Err(SourceError::Refused { refusal }) => refusal_line(alloc, &refusal),
        Err(SourceError::Memory) => Ok(String::from_str(alloc, "memory")?),
    }
}

/// The line of a text is this one.
pub(crate) fn answers(rt: &impl Abort, alloc: Global, text: &str, line: &str) -> Result<(), Fail> {
    let found = answer(alloc, text.as_bytes())?;
    assert_eq!(rt; found.as_str(), line, "of {text}");
    Ok(())
}

/// What is written in each row holds: a text, and behind ` => ` its line.
pub(crate) fn rows_hold(rt: &impl Abort, alloc: Global, rows: &[&str]) -> Result<(), Fail> {
    for row in rows {
        match row.split_once(" => ") {
            Some((text, line)) => answers(rt, alloc, text, line)?,
            None => assert!(rt; false, "no row: {row}"),
        }
    }
    Ok(())
}
