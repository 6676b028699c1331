ghost use Rattle.std.specs.Prelude.{◌≡◌, ◌<◌, [], length, Some, IsOkAnd};
ghost use Rattle.lola_port.specs.Outside.{next_count, Sunk};
ghost use Rattle.lola_port.specs.MemSink.{bytes_of, failing_of, calls_of, faults_of, MemSunk};

use crate::sink::{Sink, SinkError};
use lola_bits::Memory;
use std::alloc::Global;

/// A sink in memory, which tells its bytes and takes each piece whole. Its calls with a piece that
/// isn't empty are numbered from 0, up to the greatest u64, where the number stays.
#[derive(Drop)]
pub struct MemSink {
    bytes: Vec<u8>,
    failing: Vec<u64>,
    calls: u64,
    faults: u64,
}

impl MemSink {
    /// An empty sink. The calls whose numbers stand in `failing` will fail. It allocates nothing,
    /// so it is never refused.
    pub fn new(alloc: Global, failing: Vec<u64>) -> Result<MemSink, Memory>
        ensures bytes { IsOkAnd result (λ sink. bytes_of sink ≡ []) }
        ensures failing { IsOkAnd result (λ sink. failing_of sink ≡ failing.items) }
        ensures calls { IsOkAnd result (λ sink. calls_of sink ≡ 0) }
        ensures faults { IsOkAnd result (λ sink. faults_of sink ≡ 0) }
    {
        Ok(MemSink {
            bytes: Vec::new(alloc),
            failing,
            calls: 0,
            faults: 0,
        })
    }

    /// The bytes that were taken, in order. It has no number and takes no memory.
    pub fn bytes(&self) -> &[u8]
        ensures { result.now ≡ bytes_of self.now }
    {
        self.bytes.as_slice()
    }
}

impl Sink for MemSink {
    ghost bytes = { λ sink. Some (bytes_of sink) };

    ghost faults = { faults_of };

    /// As the trait says. `Failed` comes exactly where the piece isn't empty and its number stands
    /// in `failing`; otherwise the whole piece is taken, unless memory is wanting.
    fn write(&mut self, piece: &[u8]) -> Result<usize, SinkError>
        ensures answer { MemSunk self.old self.new piece.now result }
        ensures calls { 0 < length piece.now → calls_of self.new ≡ next_count (calls_of self.old) }
        ensures idle { length piece.now ≡ 0 → self.new ≡ self.old }
        ensures failing { failing_of self.new ≡ failing_of self.old }

        // what the trait says, of the bytes and faults of this sink
        ensures sunk { Sunk piece.now (Some (bytes_of self.old)) (Some (bytes_of self.new))
            (faults_of self.old) (faults_of self.new) result }
    {
        if piece.is_empty() {
            return Ok(0);
        }
        let due = self.failing.contains(&self.calls);
        self.calls = self.calls.saturating_add(1);
        if due {
            self.faults = self.faults.saturating_add(1);
            return Err(SinkError::Failed);
        }
        match self.bytes.extend_from_slice(piece) {
            Ok(()) => Ok(piece.len()),
            Err(_) => Err(SinkError::Memory),
        }
    }
}
