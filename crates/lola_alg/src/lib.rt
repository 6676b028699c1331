//! The algebra of bits, and the one lowering of operators to it.
//!
//! An `Algebra` has bits with constants, `not` and `and`, and says when a bit is known and what it means.
//! `low_op`, `low_read` and `low_write` make the bits of an operator, or of an array, by a fixed list of
//! steps over any algebra, so that one proof of each operator serves trying all cases, netlists and
//! clauses alike. The operators are those of the Lola profile, after Wirth's Lola-2. Which bits are made
//! equal to others, and what is free, is the algebra's affair.
#![tactic(auto)]

mod algebra;
mod arrays;
mod gates;
mod laws;
mod lower;
mod plain;
mod shifts;
mod sums;
mod vectors;

pub use algebra::{AlgError, Algebra};
pub use arrays::{low_read, low_write};
pub use laws::plain_is_never_full;
pub use lower::low_op;
pub use plain::Plain;
