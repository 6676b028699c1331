//! One instruction of a table.
//!
//! `step` takes the states that a programmer sees, the instruction word and the answers of the outside,
//! and gives the states after the instruction, the next word and what each cycle does to memory:
//! exactly what `specs/Step.antt` of `tab_tree` says. `specs/Outcome.antt` says what a step asks of a
//! table and when each answer comes; by the laws no two answers have their causes at once, and a table
//! that fits a design can make steps. Expressions are evaluated over vectors with the operators of
//! `lola_bits`. How a text becomes a table, and what a design does, is not known here.
#![tactic(auto)]

mod evaluate;
mod known;
mod laws;
mod pattern;
mod phase;
mod scope;
mod states;
mod stepping;
mod vectors;
mod words;

pub use laws::{one_class, one_outcome, suited_can_step};
pub use stepping::{Arch, StepError, Stepped, step};
pub use tab_tree::{Access, Answer};
