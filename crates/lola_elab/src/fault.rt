ghost use Rattle.std.specs.Prelude.{◌≡◌};
ghost use Rattle.lola_elab.specs.declared.fault.ElabError.TheVariants.{Memory};

use std::alloc::{AllocError, AllocFailed};

/// Why a source gives no design, or an expression none over leaves: it is outside the forms that are built,
/// or memory is wanting.
#[derive(Clone, Copy, Debug, PartialEq, Eq)]
pub enum ElabError {
    NotBuilt,
    Memory,
}

impl From<AllocError> for ElabError {
    ghost from_gives = { λ _ fault. fault ≡ Memory };

    fn from(_error: AllocError) -> ElabError {
        ElabError::Memory
    }
}

impl<T: Drop> From<AllocFailed<T>> for ElabError {
    ghost from_gives = { λ _ fault. fault ≡ Memory };

    fn from(_error: AllocFailed<T>) -> ElabError {
        ElabError::Memory
    }
}
