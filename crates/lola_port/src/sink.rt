ghost use Rattle.std.specs.Prelude.{ℕ, List, Option};
ghost use Rattle.lola_port.specs.Outside.{Sunk};

use thiserror::Error;

/// Why a sink took nothing of a piece.
#[derive(Clone, Copy, Debug, PartialEq, Eq, Error)]
pub enum SinkError {
    /// The bytes could not be written. The count of faults rose.
    #[error("the bytes could not be written")]
    Failed,
    /// Memory was wanting. The count of faults is as before.
    #[error("out of memory")]
    Memory,
}

/// Where printed bytes go.
///
/// A sink means the bytes that were written, where it tells them, and a count of faults that never
/// falls and stands still at the greatest u64. Only an answer `Failed` raises it.
pub trait Sink {
    // the bytes that were written, where the sink tells them
    ghost bytes: { Self → Option (List ℕ) };

    // how often a write has failed
    ghost faults: { Self → ℕ };

    /// Appends the first bytes of a piece and answers how many: from 1 to its length, or 0 for an
    /// empty piece, which is never refused; the count of faults is as before then. A refusal has
    /// appended nothing.
    fn write(&mut self, piece: &[u8]) -> Result<usize, SinkError>
        ensures { Sunk piece.now (bytes self.old) (bytes self.new)
            (faults self.old) (faults self.new) result };
}
