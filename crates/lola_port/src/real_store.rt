ghost use Rattle.std.specs.Prelude.{◌≡◌, ℕ, List, None};
ghost use Rattle.lola_port.specs.Faults.{counts_of};
ghost use Rattle.lola_port.specs.RealStore.{Kept};

use crate::faults::Faults;
use crate::store::{Store, StoreError};
use std::alloc::Global;
use std::io::{ErrorKind, Read};
use std::rt::Files;
use std::{fs, io};

/// The files of the system, a name being a path. It tells no content.
#[derive(Drop)]
pub struct RealStore<R> {
    files: R,
    failed_reads: Faults,
    failed_writes: Faults,
}

impl<R: Files> RealStore<R> {
    /// The files that a runtime reaches; a reference to the runtime serves. The allocator is for
    /// the counts. It allocates nothing yet.
    pub fn new(alloc: Global, files: R) -> RealStore<R>
        ensures reads { (name : List ℕ) → ⟦<RealStore<R> as Store>⟧.failed_reads result name ≡ 0 }
        ensures writes { (name : List ℕ) → ⟦<RealStore<R> as Store>⟧.failed_writes result name ≡ 0 }
    {
        RealStore {
            files,
            failed_reads: Faults::new(alloc),
            failed_writes: Faults::new(alloc),
        }
    }
}

// The place of the name's count is made before the file is touched, so that a fault of the file can
// always be counted.
impl<R: Files> Store for RealStore<R> {
    ghost list = { λ _. None };

    ghost failed_reads = { λ store. counts_of store.failed_reads };

    ghost failed_writes = { λ store. counts_of store.failed_writes };

    fn read_all(&mut self, alloc: Global, name: &str, limit: u64) -> Result<Vec<u8>, StoreError> {
        if self.failed_reads.reserve(alloc, name).is_err() {
            return Err(StoreError::Memory);
        }
        match kept(read_file(&self.files, alloc, name, limit), limit) {
            Ok(bytes) => Ok(bytes),
            Err(StoreError::Failed) => {
                self.failed_reads.raise(name);
                Err(StoreError::Failed)
            }
            Err(other) => Err(other),
        }
    }

    fn write_all(&mut self, alloc: Global, name: &str, bytes: &[u8]) -> Result<(), StoreError> {
        if self.failed_writes.reserve(alloc, name).is_err() {
            return Err(StoreError::Memory);
        }
        match fs::write(&self.files, name, bytes) {
            Ok(()) => Ok(()),
            Err(_) => {
                self.failed_writes.raise(name);
                Err(StoreError::Failed)
            }
        }
    }
}

/// The bytes of a file. No more than one byte past the limit is read.
fn read_file<R: Files>(files: &R, alloc: Global, name: &str, limit: u64) -> io::Result<Vec<u8>> {
    let mut bytes = Vec::new(alloc);
    fs::open(files, name)?
        .take(limit.saturating_add(1))
        .read_to_end(&mut bytes)?;
    Ok(bytes)
}

/// What came of reading, by the limit: the bytes, or why there are none.
fn kept(read: io::Result<Vec<u8>>, limit: u64) -> Result<Vec<u8>, StoreError>
    ensures { Kept read limit result }
{
    match read {
        Ok(bytes) if bytes.len() as u64 <= limit => Ok(bytes),
        Ok(_) => Err(StoreError::TooLong),
        Err(error) if error.kind() == ErrorKind::OutOfMemory => Err(StoreError::Memory),
        Err(_) => Err(StoreError::Failed),
    }
}
