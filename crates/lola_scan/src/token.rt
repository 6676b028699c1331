use thiserror::Error;

/// What a token is. Its text is the slice of the scanned text from `from` to `to`.
#[derive(Clone, Copy, Debug, PartialEq, Eq)]
pub enum TokenKind {
    /// A letter, and then letters and digits.
    Word,
    /// A number below 2 to 128, and its width in bits, where one is written behind a `'`.
    Number { value: u128, width: Option<u128> },
    /// `0`, `1`, `-` and blanks between two quotes.
    Pattern,
    /// One of the marks, as `:=`.
    Mark,
}

/// A token, with the offsets in bytes of its first byte and of the byte behind its last.
#[derive(Clone, Copy, Debug, PartialEq, Eq)]
pub struct Token {
    pub kind: TokenKind,
    pub from: u32,
    pub to: u32,
}

/// Why a text has no tokens. `at` is an offset in bytes.
#[derive(Clone, Copy, Debug, PartialEq, Eq, Error)]
pub enum ScanError {
    /// A byte that begins no token, or that its number or pattern can't have there.
    #[error("bad byte at {at}")]
    BadByte { at: u32 },
    /// The number that begins here, or its width, is 2 to 128 or more.
    #[error("number too large at {at}")]
    NumberTooLarge { at: u32 },
    /// The comment that begins here has no end.
    #[error("open comment at {at}")]
    OpenComment { at: u32 },
    /// Want of memory.
    #[error("out of memory")]
    Memory,
}
