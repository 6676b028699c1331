//! What an obligation reads, as rows of tables by number.
//!
//! The expressions of a table name registers of the design, in the state of a cycle or in the one behind it. Here
//! stand the laws that such names stand for rows of a flat design's tables, with the widths and the values that the
//! source gives them. All functions are laws: their contracts say what holds.
#![tactic(auto)]

mod laws;

pub use laws::{registers_are_rows, what_is_shown};
