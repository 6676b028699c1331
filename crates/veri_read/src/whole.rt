ghost use Rattle.std.specs.Prelude.{◌<◌, ◌^◌, length, IfOk};
ghost use Rattle.lola_net.specs.Equations.{IsFormed};
ghost use Rattle.veri_read.specs.Held.{said_of};
ghost use Rattle.veri_read.specs.Reading.{answer, reading, Told};

use crate::error::VeriError;
use crate::maker::Maker;
use crate::net::finish;
use crate::reader::Reader;
use lola_alg::AlgError;
use lola_net::Net;
use std::alloc::Global;

/// What is answered where this was said up to the first fault, if there is one.
fn answered(alloc: Global, reader: &Reader, fault: Option<VeriError>) -> Result<Net, VeriError>
    ensures net { Told (answer (said_of reader.now, fault)) result }
    ensures formed { IfOk result (λ net. IsFormed net) }
{
    let maker = match Maker::of(alloc, reader) {
        Ok(maker) => maker,
        Err(AlgError::Full) => return Err(VeriError::Full),
        Err(AlgError::Memory) => return Err(VeriError::Memory),
    };
    if let Some(fault) = fault {
        return Err(fault);
    }
    match finish(alloc, reader, maker) {
        Ok(net) => Ok(net),
        Err(_) => Err(VeriError::Memory),
    }
}

/// The net that a text in Verilog spells, or the first refusal in it: `BadToken`, `Syntax`, `UnknownName`, `Twice`
/// and `Unordered` at the offset in bytes of the first token at fault, `Full` where an assign that ends before that is
/// one gate too many. Each comes exactly where the definition of the text has it, and `Memory` for want of memory.
/// The text has fewer than 2^32 bytes. Time is near linear in them.
pub fn read(alloc: Global, bytes: &[u8]) -> Result<Net, VeriError>
    requires { length bytes.now < 2 ^ 32 }
    ensures net { Told (reading bytes.now) result }
    ensures formed { IfOk result (λ net. IsFormed net) }
{
    let mut reader = Reader::new(alloc);
    match reader.read_text(bytes) {
        Ok(()) => answered(alloc, &reader, None),
        Err(VeriError::Memory) => Err(VeriError::Memory),
        Err(fault) => answered(alloc, &reader, Some(fault)),
    }
}
