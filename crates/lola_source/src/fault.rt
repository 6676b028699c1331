ghost use Rattle.std.specs.Prelude.{◌≡◌};
ghost use Rattle.lola_source.specs.Refused.{scan_refusal, parse_refusal, size_refusal, elab_refusal};

use lola_bits::{Name, Seq};
use lola_parse::ParseError;
use lola_scan::ScanError;
use lola_unfold::ElabError;
use lola_width::SourceFault as SizeFault;

/// Why the text of a source is at fault. `at` is an offset in bytes from 0.
#[derive(Debug, Drop)]
pub enum SourceFault {
    /// The first fault of the text: a byte that begins no token, or that its number or pattern can't
    /// have there.
    BadByte { at: u32 },
    /// The first fault of the text: the number that begins here, or its width, is 2 to 128 or more.
    NumberTooLarge { at: u32 },
    /// The first fault of the text: the comment that begins here has no end.
    OpenComment { at: u32 },
    /// The text has tokens, and they spell no source. They end too early where this is the text's
    /// length.
    Syntax { at: u32 },
    /// The text spells a source that breaks a rule of names, widths or assignments; this is the first
    /// such fault.
    IllSized { fault: SizeFault },
    /// The text spells a well sized source within the limits, and a closed chain of signals goes through its
    /// equations: their paths with dots, each of which occurs in the equation of the next, from the earliest on.
    Loop { names: Seq<Name> },
}

/// Why the text of a source is refused.
#[derive(Debug, Drop)]
pub enum SourceRefusal {
    /// It has this fault.
    Fault { fault: SourceFault },
    /// The token at this offset in bytes is the 513th of one outermost expression.
    Long { at: u32 },
    /// The text spells a well sized source, in which modules stand more than 64 deep, so many.
    TooDeep { height: u32 },
    /// The text spells a well sized source that isn't too deep, and its signals, each element of an array
    /// counted, and its instances are more than 65,536.
    TooMany,
}

/// Why no source is read of a text.
#[derive(Debug, Drop)]
pub enum SourceError {
    /// The text is refused.
    Refused { refusal: SourceRefusal },
    /// There isn't enough memory.
    Memory,
}

/// The error of a fault.
fn at_fault(fault: SourceFault) -> SourceError
    ensures { result ≡ SourceError.Refused (SourceRefusal.Fault fault) }
{
    SourceError::Refused {
        refusal: SourceRefusal::Fault { fault },
    }
}

/// The error of a refusal.
fn refused(refusal: SourceRefusal) -> SourceError
    ensures { result ≡ SourceError.Refused refusal }
{
    SourceError::Refused { refusal }
}

impl From<ScanError> for SourceError {
    ghost from_gives = { λ error refusal. refusal ≡ scan_refusal error };

    fn from(error: ScanError) -> SourceError {
        let fault = match error {
            ScanError::BadByte { at } => SourceFault::BadByte { at },
            ScanError::NumberTooLarge { at } => SourceFault::NumberTooLarge { at },
            ScanError::OpenComment { at } => SourceFault::OpenComment { at },
            ScanError::Memory => return SourceError::Memory,
        };
        at_fault(fault)
    }
}

impl From<ParseError> for SourceError {
    ghost from_gives = { λ error refusal. refusal ≡ parse_refusal error };

    fn from(error: ParseError) -> SourceError {
        match error {
            ParseError::Syntax { at } => at_fault(SourceFault::Syntax { at }),
            ParseError::Long { at } => refused(SourceRefusal::Long { at }),
            ParseError::Memory => SourceError::Memory,
        }
    }
}

impl From<SizeFault> for SourceError {
    ghost from_gives = { λ error refusal. refusal ≡ size_refusal error };

    fn from(error: SizeFault) -> SourceError {
        match error {
            SizeFault::Memory => SourceError::Memory,
            fault => at_fault(SourceFault::IllSized { fault }),
        }
    }
}

impl From<ElabError> for SourceError {
    ghost from_gives = { λ error refusal. refusal ≡ elab_refusal error };

    fn from(error: ElabError) -> SourceError {
        match error {
            ElabError::TooDeep { height } => refused(SourceRefusal::TooDeep { height }),
            ElabError::TooMany => refused(SourceRefusal::TooMany),
            ElabError::Loop { names } => at_fault(SourceFault::Loop { names }),
            ElabError::Memory => SourceError::Memory,
        }
    }
}
