//! Instruction tables, and what they say of a word.
//!
//! A table names the ports of a design that play a role, the states that a programmer sees, and
//! classes of instruction words with the states after each. `specs/Table.antt` has the pure trees
//! with the views that definitions read, `specs/Step.antt` what an instruction does, over states and
//! answers alone. This crate holds the small form of tables until `decide` takes every table: a table
//! here has the roles RESET and LOADED, and no stalls, fields, turns and accesses. How a text becomes
//! a table is not known here.
#![tactic(auto)]

mod table;

pub use table::{Active, Class, Phase, SetRow, StateRow, Table};
