//! The one evaluation of flat designs, for every algebra of bits.
//!
//! `lower_expr` makes the bits of an expression, `lower_signals` those of all signals in the order of
//! equations, and `lower_next` and `lower_state` those of the next values of registers, by a fixed list of
//! steps over any algebra. So one proof serves trying all cases, netlists and clauses alike. What an
//! answer and the data after it are is said by the steps, and what the bits mean by the numbers of the flat
//! design. The operators are those of the Lola profile, after Wirth's Lola-2. What is free, and which bits
//! are shared, is the algebra's affair.
#![tactic(auto)]

mod expr;
mod laws;
mod next;
mod parts;
mod signals;

pub use expr::lower_expr;
pub use laws::{one_cycle, plain_finds_places, plain_makes_the_cycle};
pub use next::{lower_next, lower_state};
pub use signals::lower_signals;
