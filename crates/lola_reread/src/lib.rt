//! What is printed is read again.
//!
//! Laws about the printer of `lola_tree` and the readers of `lola_scan` and `lola_parse`: the text
//! that a design or an expression is printed as is scanned and parsed to the same tree, up to places.
//! They stand on functions with empty bodies, which a caller calls to know them.
#![tactic(auto)]

mod laws;

pub use laws::{printed_designs, printed_expressions};
