ghost use Rattle.std.specs.Prelude.{◌≡◌};
ghost use Rattle.small_read.specs.declared.fault.TableFault.TheVariants.{Memory};
ghost use Rattle.small_read.specs.Fault.{fault_of};

use lola_parse::Fault;
use std::alloc::AllocFailed;

/// Why tokens give no table: they spell none in the forms that are built, or memory is wanting.
#[derive(Clone, Copy, Debug, PartialEq, Eq)]
pub enum TableFault {
    NotBuilt,
    Memory,
}

impl From<Fault> for TableFault {
    ghost from_gives = { λ fault table_fault. table_fault ≡ fault_of fault };

    fn from(fault: Fault) -> TableFault {
        match fault {
            Fault::Memory => TableFault::Memory,
            _ => TableFault::NotBuilt,
        }
    }
}

impl<T: Drop> From<AllocFailed<T>> for TableFault {
    ghost from_gives = { λ _ fault. fault ≡ Memory };

    fn from(_error: AllocFailed<T>) -> TableFault {
        TableFault::Memory
    }
}
