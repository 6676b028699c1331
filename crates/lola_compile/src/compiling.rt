ghost use Rattle.std.specs.Prelude.{◌≡◌, ◌≤◌, length, IfOk, IfErr};
ghost use Rattle.lola_compile.specs.Compiled.{AreCounts, IsCompiledOf, IsNotCompiled};
ghost use Rattle.lola_compile.specs.Refusals.{source_error};

use lola_alg::AlgError;
use lola_lower::lower;
use lola_net::{Net, Node};
use lola_source::{SourceError, SourceRefusal, read_source};
use std::alloc::Global;
use veri_text::write;

/// How many bits of each kind a net has, and how many gates. The clock is no input.
#[derive(Clone, Copy, Debug, PartialEq, Eq)]
pub struct Counts {
    pub inputs: usize,
    pub outputs: usize,
    pub pads: usize,
    pub registers: usize,
    pub gates: usize,
}

/// The text of a net, and its counts.
#[derive(Debug, Drop)]
pub struct Compiled {
    pub text: Vec<u8>,
    pub counts: Counts,
}

/// Why a text is not compiled.
#[derive(Debug, Drop)]
pub enum CompileError {
    /// It is refused as the text of a source.
    Refused { refusal: SourceRefusal },
    /// The text spells a source that is accepted, and its net would have more than 1,048,576 gates.
    TooManyGates,
    /// There isn't enough memory.
    Memory,
}

impl From<SourceError> for CompileError {
    ghost from_gives = { λ error made. made ≡ source_error error };

    fn from(error: SourceError) -> CompileError {
        match error {
            SourceError::Refused { refusal } => CompileError::Refused { refusal },
            SourceError::Memory => CompileError::Memory,
        }
    }
}

/// The counts of a net.
fn counts_of(net: &Net) -> Counts
    ensures { AreCounts net.now result }
{
    let mut counts = Counts {
        inputs: 0,
        outputs: net.outputs.items().len(),
        pads: 0,
        registers: 0,
        gates: 0,
    };
    for node in net.nodes.items() {
        match node {
            Node::Free { .. } => counts.inputs += 1,
            Node::Latch { .. } => counts.registers += 1,
            Node::Pad { .. } => counts.pads += 1,
            Node::Gate { .. } => counts.gates += 1,
        }
    }
    counts
}

/// The text in Verilog of the net of the source that a text spells, and the counts of that net. The text has at
/// most 1,048,576 bytes. It is refused exactly where it is refused as a source; TooManyGates comes exactly where it
/// is accepted and its net would have more than 1,048,576 gates, want of memory aside.
pub fn compile(alloc: Global, bytes: &[u8]) -> Result<Compiled, CompileError>
    requires { length bytes.now ≤ 1048576 }
    ensures ok { IfOk result (λ compiled. IsCompiledOf bytes.now compiled) }
    ensures failed { IfErr result (λ error. IsNotCompiled bytes.now error) }
{
    let read = match read_source(alloc, bytes) {
        Ok(read) => read,
        Err(error) => return Err(CompileError::from(error)),
    };
    let net = match lower(alloc, &read.flat) {
        Ok(net) => net,
        Err(AlgError::Full) => return Err(CompileError::TooManyGates),
        Err(AlgError::Memory) => return Err(CompileError::Memory),
    };
    let counts = counts_of(&net);
    match write(alloc, &net) {
        Ok(text) => Ok(Compiled { text, counts }),
        Err(_) => Err(CompileError::Memory),
    }
}
