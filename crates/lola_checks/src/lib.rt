//! Checks over a flat design: premises and a goal, as data, and the one bit that says where a check is violated.
//!
//! A claim speaks of expressions whose values stand in a table: one is 1, two are equal, arrays are equal element by
//! element, a word fits a pattern, or all or any of such claims hold. A check is violated where all its premises
//! hold and its goal doesn't. `specs/Holds.antt` says so of numbers, `specs/Steps.antt` says which steps over an
//! algebra of bits make the bit, and in which order, and `lower_check` makes it: 1 exactly where the check is
//! violated. So one proof serves trying all cases and the clauses of a certificate alike. Which checks a table of
//! instructions asks for, and what its tables of values are, is the caller's affair.
#![tactic(auto)]

mod arrays;
mod check;
mod claims;
mod compare;
mod laws;
mod patterns;

pub use check::{Atom, Check, Claim, Elements, Mark, Write};
pub use claims::{lower_check, lower_claim};
pub use laws::checks_find_places;
