//! Tokens as tables.
//!
//! `read_table` reads the tokens of a table by its grammar and answers the one table that they spell,
//! in the small form. This crate holds the small form of tables until `decide` takes every table. The
//! grammar is the project's own; its expressions are those of the Lola profile. What names mean, and
//! whether the table fits a design, is not known here.
#![tactic(auto)]

mod classes;
mod fault;
mod laws;
mod reader;
mod roles;
mod rows;

pub use fault::TableFault;
pub use laws::one_table;
pub use reader::read_table;
