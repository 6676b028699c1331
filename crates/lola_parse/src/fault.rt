ghost use Rattle.std.specs.Prelude.{◌≡◌};
ghost use Rattle.lola_parse.specs.declared.fault.Fault.TheVariants.{Memory};

use lola_bits::Memory;
use std::alloc::{AllocError, AllocFailed};

/// Why the descent stops. `left` counts the tokens of the text from the one at fault on; it is 0
/// where the text ends too early.
#[derive(Clone, Copy)]
pub enum Fault {
    /// No text of the grammar begins with the tokens up to this one.
    Syntax { left: usize },
    /// This is the 513th token of an outermost expression.
    Long { left: usize },
    /// Want of memory.
    Memory,
}

impl From<Memory> for Fault {
    ghost from_gives = { λ _ fault. fault ≡ Memory };

    fn from(_error: Memory) -> Fault {
        Fault::Memory
    }
}

impl From<AllocError> for Fault {
    ghost from_gives = { λ _ fault. fault ≡ Memory };

    fn from(_error: AllocError) -> Fault {
        Fault::Memory
    }
}

impl<T: Drop> From<AllocFailed<T>> for Fault {
    ghost from_gives = { λ _ fault. fault ≡ Memory };

    fn from(_error: AllocFailed<T>) -> Fault {
        Fault::Memory
    }
}
