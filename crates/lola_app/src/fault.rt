ghost use Rattle.std.specs.Prelude.{◌≡◌, ◌≢◌};
ghost use Rattle.lola_app.specs.declared.fault.ReadError.TheVariants.{NotBuilt, Memory};
ghost use Rattle.lola_app.specs.Refused.{scan_refusal, parse_refusal, size_refusal, elab_refusal};
ghost use Rattle.lola_scan.specs.declared.token.ScanError.TheVariants as scan;
ghost use Rattle.lola_elab.specs.declared.fault.ElabError.TheVariants as elab;
ghost use Rattle.small_read.specs.declared.fault.TableFault.TheVariants as table;

use lola_elab::ElabError;
use lola_parse::ParseError;
use lola_scan::ScanError;
use lola_width::SourceFault as SizeFault;
use small_read::TableFault;
use std::alloc::{AllocError, AllocFailed};

/// Why the text of a design is refused. `at` is an offset in bytes from 0.
#[derive(Debug, Drop)]
pub enum SourceFault {
    /// The first fault of the text: a byte that begins no token, or that its number or pattern can't
    /// have there.
    BadByte { at: u32 },
    /// The first fault of the text: the number that begins here, or its width, is 2 to 128 or more.
    NumberTooLarge { at: u32 },
    /// The first fault of the text: the comment that begins here has no end.
    OpenComment { at: u32 },
    /// The text has tokens, and they spell no design. They end too early where this is the text's
    /// length.
    Syntax { at: u32 },
    /// The text spells a design that breaks a rule of names, widths or assignments; this is the first
    /// such fault.
    IllSized { fault: SizeFault },
    /// The text spells a well sized design, and it is outside the forms that are built.
    NotBuilt,
}

/// Why the text of a design is refused, or passes a limit.
#[derive(Debug, Drop)]
pub enum SourceRefusal {
    /// It has this fault.
    Fault { fault: SourceFault },
    /// The token at this offset in bytes is the 513th of one outermost expression.
    Long { at: u32 },
}

/// Why the text of a design gives none.
#[derive(Debug, Drop)]
pub enum SourceError {
    /// The text is refused.
    Refused { refusal: SourceRefusal },
    /// Want of memory.
    Memory,
}

/// The error of a fault.
fn at_fault(fault: SourceFault) -> SourceError
    ensures { result ≡ SourceError.Refused (SourceRefusal.Fault fault) }
{
    SourceError::Refused {
        refusal: SourceRefusal::Fault { fault },
    }
}

impl From<ScanError> for SourceError {
    ghost from_gives = { λ error refusal. refusal ≡ scan_refusal error };

    fn from(error: ScanError) -> SourceError {
        let fault = match error {
            ScanError::BadByte { at } => SourceFault::BadByte { at },
            ScanError::NumberTooLarge { at } => SourceFault::NumberTooLarge { at },
            ScanError::OpenComment { at } => SourceFault::OpenComment { at },
            ScanError::Memory => return SourceError::Memory,
        };
        at_fault(fault)
    }
}

impl From<ParseError> for SourceError {
    ghost from_gives = { λ error refusal. refusal ≡ parse_refusal error };

    fn from(error: ParseError) -> SourceError {
        match error {
            ParseError::Syntax { at } => at_fault(SourceFault::Syntax { at }),
            ParseError::Long { at } => SourceError::Refused {
                refusal: SourceRefusal::Long { at },
            },
            ParseError::Memory => SourceError::Memory,
        }
    }
}

impl From<SizeFault> for SourceError {
    ghost from_gives = { λ error refusal. refusal ≡ size_refusal error };

    fn from(error: SizeFault) -> SourceError {
        match error {
            SizeFault::Memory => SourceError::Memory,
            fault => at_fault(SourceFault::IllSized { fault }),
        }
    }
}

impl From<ElabError> for SourceError {
    ghost from_gives = { λ error refusal. refusal ≡ elab_refusal error };

    fn from(error: ElabError) -> SourceError {
        match error {
            ElabError::NotBuilt => at_fault(SourceFault::NotBuilt),
            ElabError::Memory => SourceError::Memory,
        }
    }
}

/// Why the text of a table gives no claim: it is outside the forms that are built, or memory is
/// wanting.
#[derive(Clone, Copy, Debug, PartialEq, Eq)]
pub enum ReadError {
    NotBuilt,
    Memory,
}

impl From<AllocError> for ReadError {
    ghost from_gives = { λ _ fault. fault ≡ Memory };

    fn from(_error: AllocError) -> ReadError {
        ReadError::Memory
    }
}

impl<T: Drop> From<AllocFailed<T>> for ReadError {
    ghost from_gives = { λ _ fault. fault ≡ Memory };

    fn from(_error: AllocFailed<T>) -> ReadError {
        ReadError::Memory
    }
}

impl From<ScanError> for ReadError {
    ghost from_gives = { λ error fault. fault ≡ NotBuilt → error ≢ scan.Memory };

    fn from(error: ScanError) -> ReadError {
        match error {
            ScanError::Memory => ReadError::Memory,
            _ => ReadError::NotBuilt,
        }
    }
}

impl From<ElabError> for ReadError {
    ghost from_gives = { λ error fault. fault ≡ NotBuilt → error ≡ elab.NotBuilt };

    fn from(error: ElabError) -> ReadError {
        match error {
            ElabError::NotBuilt => ReadError::NotBuilt,
            ElabError::Memory => ReadError::Memory,
        }
    }
}

impl From<TableFault> for ReadError {
    ghost from_gives = { λ error fault. fault ≡ NotBuilt → error ≡ table.NotBuilt };

    fn from(error: TableFault) -> ReadError {
        match error {
            TableFault::NotBuilt => ReadError::NotBuilt,
            TableFault::Memory => ReadError::Memory,
        }
    }
}
