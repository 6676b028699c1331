//! Trying 64 cases at a time.
//!
//! `Lanes` is an algebra whose bits are words: bit n of a word is the value in case n of 64. Whatever is lowered
//! over it is so worked out in 64 cases at once, by the steps that make gates elsewhere. A block is 64 cases with
//! numbers one behind the other; `free_word` is the bit that has in each case of a block the value of one place of
//! the case's number, and so stands for what is free. `first_failing_case` tries block after block and answers the
//! least case at which a question fails. Which question, and what its free bits are, is the caller's affair.
#![tactic(auto)]

mod lanes;
mod laws;
mod trial;

pub use lanes::{Lanes, free_word};
pub use laws::{cases_are_assigned, lanes_are_never_full};
pub use trial::{WordTrial, first_failing_case};
