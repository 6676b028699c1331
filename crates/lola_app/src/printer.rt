ghost use Rattle.std.specs.Prelude.{◌≡◌, ◌≤◌, length, drop};
ghost use Rattle.lola_port.specs.Outside.{Sunk};
ghost use Rattle.lola_app.specs.Printing.{Wrote};

use lola_port::{Sink, SinkError};

/// Writes a whole text to a sink, in as many pieces as the sink takes it. What the sink refuses isn't
/// written again.
pub fn write_text<O: Sink>(out: &mut O, text: &[u8]) -> Result<(), SinkError>
    ensures { Wrote text.now (O.bytes out.old) (O.bytes out.new) (O.faults out.old) (O.faults out.new) result }
{
    let mut at = 0;
    while at < text.len() {
        match write_rest(out, text, at) {
            Ok(count) => at += count,
            Err(fault) => return Err(fault),
        }
    }
    Ok(())
}

/// Writes what the sink takes of the rest of a text, behind its first bytes.
fn write_rest<O: Sink>(out: &mut O, text: &[u8], at: usize) -> Result<usize, SinkError>
    requires { at ≤ length text.now }
    ensures { Sunk (drop at text.now) (O.bytes out.old) (O.bytes out.new) (O.faults out.old) (O.faults out.new) result }
{
    let (_, rest) = text.split_at(at);
    out.write(rest)
}
