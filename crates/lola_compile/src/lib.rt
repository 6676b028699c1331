//! The text of a source to the text of its net in Verilog.
//!
//! `compile` reads a source, lowers its flat design to gates and writes the net, and counts its bits.
//! `specs/Compiled.antt` says which text and which counts, and when a text is refused; `compiled_runs` is the law
//! that this net runs as the source does, cycle by cycle, in the bits of `specs/Bits.antt`. Where the text goes is
//! not known here.
#![tactic(auto)]

mod compiling;
mod laws;

pub use compiling::{CompileError, Compiled, Counts, compile};
pub use laws::{cycles_are_runs, one_compilation};
