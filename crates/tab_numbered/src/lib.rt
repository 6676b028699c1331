//! The expressions of a table over signals by their numbers.
//!
//! Each name of a table stands for a signal: a register, a port, a state's old value, a loaded word, and for each
//! field and LET one more signal with the value of its expression. The laws here say that an expression, renamed so,
//! has the width and the value that the table gives it, and that rows go on to do so. So what an obligation says of
//! a table's expressions can be evaluated like a design.
#![tactic(auto)]

mod laws;

pub use laws::{classes_are_rows, expressions_mean, rows_hold, rows_stay};
