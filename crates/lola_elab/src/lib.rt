//! A source as a design that can be evaluated.
//!
//! `read_design` takes a source in the small form, one module of ports and registers that are vectors
//! of 1 to 128 bits, to the next value of each register as an expression over the inputs and registers,
//! its leaves; `flat_of` does so for one expression over what names stand for, and `flat_bits` evaluates
//! it through the one lowering of `lola_alg`, where `number_bits` gives the bits of a leaf. `resolve` takes
//! a one-bit expression, as tables have them, to one over leaves. `built_is_small` says which well sized
//! sources are in the small form. Instances, variables, pads and arrays are not built yet. The rules are
//! those of the Lola profile, after Wirth's Lola-2. How a text becomes a source, and what tables say of a
//! design, is not known here.
#![tactic(auto)]

mod assigned;
mod design;
mod evaluate;
mod fault;
mod flat;
mod flatten;
mod laws;
mod logic;
mod meaning;
mod ports;
mod scope;
mod sets;
mod signals;
mod table;
mod vector;

pub use design::{Design, read_design};
pub use evaluate::{flat_bits, number_bits};
pub use fault::ElabError;
pub use flat::Flat;
pub use flatten::{Typed, flat_of};
pub use laws::{built_is_small, next_is_a_state, one_cycle};
pub use logic::{Gate, Logic, eval};
pub use meaning::Meaning;
pub use scope::{Entry, Reading, Scope, resolve};
pub use sets::add as add_name;
pub use vector::Vector;
