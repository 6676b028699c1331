ghost use Rattle.std.specs.Prelude.{◌≡◌, Option};
ghost use Rattle.lola_port.specs.Outside.{Files, Counts, Read, Written, Counted, Same};

use std::alloc::Global;
use thiserror::Error;

/// Why a store refused a call.
#[derive(Clone, Copy, Debug, PartialEq, Eq, Error)]
pub enum StoreError {
    /// The file is absent, or it could not be read or written. The count of failed reads or writes
    /// of its name rose.
    #[error("the file could not be read or written")]
    Failed,
    /// More bytes stand under the name than the limit of the read allows.
    #[error("the file is longer than its limit")]
    TooLong,
    /// Memory was wanting. The files and all counts are as before.
    #[error("out of memory")]
    Memory,
}

/// Files by name, read and written whole.
///
/// A store means a list of pairs of name and bytes, where it tells that, and for each name a count
/// of failed reads and one of failed writes. A count never falls, is 0 for a name that was never
/// asked for, and stands still at the greatest u64. Only an answer `Failed` raises one, and that
/// of its own kind and name alone.
pub trait Store {
    // the files, where the store tells them
    ghost list: { Self → Option Files };

    // how often reads of each name have failed
    ghost failed_reads: { Self → Counts };

    // how often writes of each name have failed
    ghost failed_writes: { Self → Counts };

    /// The bytes under a name, at most `limit` of them. The files stay whatever it answers:
    /// `Failed` where the name is absent or its read failed, `TooLong` where more than `limit`
    /// bytes stand there, `Memory` for want of memory.
    fn read_all(&mut self, alloc: Global, name: &str, limit: u64) -> Result<Vec<u8>, StoreError>
        ensures read { Read (list self.old) name.now limit result }
        ensures stays { list self.new ≡ list self.old }
        ensures reads { Counted name.now (failed_reads self.old) (failed_reads self.new) result }
        ensures writes { Same (failed_writes self.old) (failed_writes self.new) };

    /// Lets the bytes stand under a name, in the place of what stood there; the other files stay.
    /// After `Failed` it is open what stands under that name. It never answers `TooLong`.
    fn write_all(&mut self, alloc: Global, name: &str, bytes: &[u8]) -> Result<(), StoreError>
        ensures written { Written (list self.old) (list self.new) name.now bytes.now result }
        ensures writes { Counted name.now (failed_writes self.old) (failed_writes self.new) result }
        ensures reads { Same (failed_reads self.old) (failed_reads self.new) };
}
