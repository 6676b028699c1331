ghost use Rattle.std.specs.Prelude.{◌≡◌, None};

use crate::sink::{Sink, SinkError};
use std::io::Write;

/// The output of the system, or any other writer. It tells no content.
#[derive(Drop)]
pub struct RealSink<W> {
    writer: W,
    faults: u64,
}

impl<W: Write> RealSink<W> {
    /// A sink over a writer, such as `io::writer(&rt)` for the standard output.
    pub fn new(writer: W) -> RealSink<W>
        ensures { ⟦<RealSink<W> as Sink>⟧.faults result ≡ 0 }
    {
        RealSink { writer, faults: 0 }
    }
}

impl<W: Write> Sink for RealSink<W> {
    ghost bytes = { λ _. None };

    ghost faults = { λ sink. sink.faults };

    fn write(&mut self, piece: &[u8]) -> Result<usize, SinkError> {
        if piece.is_empty() {
            return Ok(0);
        }
        match self.writer.write(piece) {
            Ok(n) if n > 0 => Ok(n),
            _ => {
                self.faults = self.faults.saturating_add(1);
                Err(SinkError::Failed)
            }
        }
    }
}
