//! Flat designs: all signals of a design in one list, each known by its number.
//!
//! A design of the Lola profile, after Wirth's Lola-2, has modules with instances. A flat design has none:
//! each port, variable and register of the root and of its instances is one signal with its path, its
//! kind, its width and the expression that gives its value, or its next value. This crate has the types,
//! the pure trees that definitions read, and what a flat design means: the number of an expression, the
//! cycles of a design and its next state. `IsFormed` says which flat designs are well formed. How a source
//! becomes a flat design, and how its bits are made, is not known here.
#![tactic(auto)]

mod design;
mod expr;
mod laws;

pub use design::{Flat, SigKind, Signal};
pub use expr::FExpr;
pub use laws::{at_most_one_cycle, hangs_on_reads, lists_are_trees, sample_is_formed};
