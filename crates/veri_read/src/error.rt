use thiserror::Error;

/// Why a text is no net. `at` is the offset in bytes of the token at fault, or the text's length.
#[derive(Clone, Copy, Debug, PartialEq, Eq, Error)]
pub enum VeriError {
    /// A byte that begins no token.
    #[error("bad token at {at}")]
    BadToken { at: u32 },
    /// A token with which no text of the grammar goes on, a declared name that is no bit's name or breaks a
    /// run of bits, or an end where something is still to be said.
    #[error("syntax at {at}")]
    Syntax { at: u32 },
    /// A name that isn't declared, or not as what it is used as.
    #[error("unknown name at {at}")]
    UnknownName { at: u32 },
    /// A port, a declaration or an assignment of a name that had one.
    #[error("twice at {at}")]
    Twice { at: u32 },
    /// A wire or pad that is used before the end of its own assign.
    #[error("unordered at {at}")]
    Unordered { at: u32 },
    /// There is no place for another gate.
    #[error("no place for another gate")]
    Full,
    /// Want of memory.
    #[error("out of memory")]
    Memory,
}
