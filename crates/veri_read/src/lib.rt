//! The reading of a small part of Verilog (IEEE 1364-2005), token by token.
//!
//! `read` answers the net that a text spells, or the refusal that comes first in it. A text is one module of
//! single-bit ports, wires and registers. `front` takes the token at the front of a text, and `Reader::step` takes it
//! in: it follows the grammar, notes what the text says of its names, and refuses the text at the first token at fault.
//! Then the nodes of what was said are made, and the net of these. `specs/Reading.antt` says over the whole text what
//! it is read as: what it says (`Said`, `Faults`, by the grammar of `Rules`), and the net of that (`Made`). The layout
//! that `veri_text` writes is one such text; others may have any blanks, and their declarations in any order. Vectors,
//! modules inside modules and everything else of Verilog are not read.
#![tactic(auto)]

mod bits;
mod error;
mod literal;
mod maker;
mod net;
mod reader;
mod rules;
mod symbol;
mod table;
mod text;
mod token;
mod whole;

pub use error::VeriError;
pub use literal::{Assign, Declared, Kind, Literal};
pub use reader::Reader;
pub use rules::Place;
pub use symbol::Symbol;
pub use table::Table;
pub use token::{Token, front};
pub use whole::read;
