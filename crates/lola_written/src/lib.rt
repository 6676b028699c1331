//! What texts spell is written as the laws of designs want it.
//!
//! One law about the grammar of designs in `lola_parse`: in each design that some text spells, every
//! reference is one name, each concatenation has a part, and what is `~` or a choice is no operator
//! between two. It stands on a function with an empty body, which a caller calls to know it.
#![tactic(auto)]

mod laws;

pub use laws::texts_are_written;
