// What scanner and parser make of a text.
use lola_parse::{ParseError, parse, tokens_lie_within};
use lola_scan::{ScanError, scan};
use std::alloc::Global;
use std::process::Abort;
use std::test::Fail;

/// What becomes of a text. `at` is an offset in bytes.
#[derive(Clone, Copy, Debug, PartialEq, Eq)]
pub(crate) enum Answer {
    Tree,
    BadByte { at: usize },
    NumberTooLarge { at: usize },
    OpenComment { at: usize },
    Syntax { at: usize },
    Long { at: usize },
    Memory,
    TooLong,
}

/// What becomes of a text of at most 1,048,576 bytes.
pub(crate) fn read_text(alloc: Global, text: &[u8]) -> Answer {
    if text.len() > 1_048_576 {
        return Answer::TooLong;
    }
    tokens_lie_within();
    let tokens = match scan(alloc, text) {
        Ok(tokens) => tokens,
        Err(ScanError::BadByte { at }) => return Answer::BadByte { at: at as usize },
        Err(ScanError::NumberTooLarge { at }) => return Answer::NumberTooLarge { at: at as usize },
        Err(ScanError::OpenComment { at }) => return Answer::OpenComment { at: at as usize },
        Err(ScanError::Memory) => return Answer::Memory,
    };
    match parse(alloc, text, tokens.as_slice()) {
        Ok(_) => Answer::Tree,
        Err(ParseError::Syntax { at }) => Answer::Syntax { at: at as usize },
        Err(ParseError::Long { at }) => Answer::Long { at: at as usize },
        Err(ParseError::Memory) => Answer::Memory,
    }
}

/// A front, a byte so many times, and a back.
pub(crate) fn joined(
    alloc: Global,
    front: &[u8],
    byte: u8,
    times: usize,
    back: &[u8],
) -> Result<Vec<u8>, Fail> {
    let mut text = front.to_vec(alloc)?;
    for _ in 0..times {
        text.push(byte)?;
    }
    for byte in back {
        text.push(*byte)?;
    }
    Ok(text)
}

/// A text is the text of a design.
pub(crate) fn is_spelled(rt: &impl Abort, alloc: Global, text: &[u8]) {
    assert_eq!(rt; read_text(alloc, text), Answer::Tree);
}

/// No design begins with the front and the first token of the back, and one does with the front alone.
pub(crate) fn stops(rt: &impl Abort, alloc: Global, front: &[u8], back: &[u8]) -> Result<(), Fail> {
    let text = joined(alloc, front, 0, 0, back)?;
    assert_eq!(rt;
        read_text(alloc, text.as_slice()),
        Answer::Syntax { at: front.len() }
    );
    Ok(())
}

/// The fault of the scanner stands where the back begins.
pub(crate) fn is_bad(
    rt: &impl Abort,
    alloc: Global,
    front: &[u8],
    back: &[u8],
) -> Result<(), Fail> {
    let text = joined(alloc, front, 0, 0, back)?;
    assert_eq!(rt;
        read_text(alloc, text.as_slice()),
        Answer::BadByte { at: front.len() }
    );
    Ok(())
}
