//! The values that every other crate of the workbench speaks of: bit vectors, names and lists.
//!
//! A bit vector is a width of 1 to 128 and a number below 2 to that width, and its operators are
//! those of numbers. A name is a text that contracts see as its bytes, and a `Seq` is a vector that
//! contracts see as the list of its items, in a form that a recursive type can hold. Nothing here
//! knows of designs, tables or files.
#![tactic(auto)]

mod memory;
mod name;
mod op;
mod operators;
mod seq;
mod vector;

pub use memory::Memory;
pub use name::Name;
pub use op::Op;
pub use seq::Seq;
pub use vector::{Bits, fits};
