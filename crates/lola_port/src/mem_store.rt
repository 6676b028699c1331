ghost use Rattle.std.specs.Prelude.{◌≡◌, ◌↔◌, ℕ, List, Some, IsOkAnd, IsTrue, option_copied};
ghost use Rattle.lola_port.specs.Outside.{next_count, AreDistinct, lookup, Read, Written, Counted, Same};
ghost use Rattle.lola_port.specs.MemStore.{file_list, files_of, failing_of, calls_of, failed_reads_of, failed_writes_of, IsDue, MemRead, MemWritten};

use crate::faults::Faults;
use crate::file_list::{File, bytes_under, put};
use crate::store::{Store, StoreError};
use lola_bits::Memory;
use std::alloc::Global;

/// A store in memory, which tells its files. Its calls are numbered from 0, reads and writes
/// together whatever they answer, up to the greatest u64, where the number stays.
#[derive(Drop)]
pub struct MemStore {
    files: Vec<File>,
    failing: Vec<u64>,
    calls: u64,
    failed_reads: Faults,
    failed_writes: Faults,
}

impl MemStore {
    /// A store of these files, whose names are distinct. The calls whose numbers stand in `failing`
    /// will fail. It allocates nothing, so it is never refused.
    pub fn new(
        alloc: Global,
        files: Vec<(String, Vec<u8>)>,
        failing: Vec<u64>,
    ) -> Result<MemStore, Memory>
        requires { AreDistinct (file_list files.items) }
        ensures files { IsOkAnd result (λ store. files_of store ≡ file_list files.items) }
        ensures failing { IsOkAnd result (λ store. failing_of store ≡ failing.items) }
        ensures calls { IsOkAnd result (λ store. calls_of store ≡ 0) }
        ensures reads { IsOkAnd result (λ store. (name : List ℕ) → failed_reads_of store name ≡ 0) }
        ensures writes { IsOkAnd result (λ store. (name : List ℕ) → failed_writes_of store name ≡ 0) }
    {
        Ok(MemStore {
            files,
            failing,
            calls: 0,
            failed_reads: Faults::new(alloc),
            failed_writes: Faults::new(alloc),
        })
    }

    /// The bytes under a name. It is no call of the store, so it has no number and never fails, and
    /// it takes no memory.
    pub fn file(&self, name: &str) -> Option<&[u8]>
        ensures { option_copied result ≡ lookup (files_of self.now) name.now }
    {
        bytes_under(self.files.as_slice(), name)
    }

    /// Counts a call, and says whether it is one of those that fail.
    fn count_call(&mut self) -> bool
        ensures due { IsTrue result ↔ IsDue self.old }
        ensures counted { self.new ≡ record self.old { calls = next_count (calls_of self.old) } }
    {
        let due = self.failing.contains(&self.calls);
        self.calls = self.calls.saturating_add(1);
        due
    }
}

impl Store for MemStore {
    ghost list = { λ store. Some (files_of store) };

    ghost failed_reads = { failed_reads_of };

    ghost failed_writes = { failed_writes_of };

    /// As the trait says. `Failed` comes exactly where the call is due to fail or the name is
    /// absent, `TooLong` exactly where it is not due and the file is longer than the limit.
    fn read_all(&mut self, alloc: Global, name: &str, limit: u64) -> Result<Vec<u8>, StoreError>
        ensures answer { MemRead self.old name.now limit result }
        ensures calls { calls_of self.new ≡ next_count (calls_of self.old) }
        ensures failing { failing_of self.new ≡ failing_of self.old }

        // what the trait says, of the files and counts of this store
        ensures read { Read (Some (files_of self.old)) name.now limit result }
        ensures stays { files_of self.new ≡ files_of self.old }
        ensures reads { Counted name.now (failed_reads_of self.old) (failed_reads_of self.new) result }
        ensures writes { Same (failed_writes_of self.old) (failed_writes_of self.new) }
    {
        if self.count_call() {
            return Err(self.failed_reads.fail(alloc, name));
        }
        match self.file(name) {
            None => Err(self.failed_reads.fail(alloc, name)),
            Some(bytes) if bytes.len() as u64 > limit => Err(StoreError::TooLong),
            Some(bytes) => match bytes.to_vec(alloc) {
                Ok(copy) => Ok(copy),
                Err(_) => Err(StoreError::Memory),
            },
        }
    }

    /// As the trait says. `Failed` comes exactly where the call is due to fail, and leaves the
    /// files as they were.
    fn write_all(&mut self, alloc: Global, name: &str, bytes: &[u8]) -> Result<(), StoreError>
        ensures answer { MemWritten self.old self.new result }
        ensures calls { calls_of self.new ≡ next_count (calls_of self.old) }
        ensures failing { failing_of self.new ≡ failing_of self.old }

        // what the trait says, of the files and counts of this store
        ensures written { Written (Some (files_of self.old)) (Some (files_of self.new)) name.now bytes.now result }
        ensures writes { Counted name.now (failed_writes_of self.old) (failed_writes_of self.new) result }
        ensures reads { Same (failed_reads_of self.old) (failed_reads_of self.new) }
    {
        if self.count_call() {
            return Err(self.failed_writes.fail(alloc, name));
        }
        match put(&mut self.files, alloc, name, bytes) {
            Ok(()) => Ok(()),
            Err(Memory) => Err(StoreError::Memory),
        }
    }
}
