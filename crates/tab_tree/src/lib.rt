//! Instruction tables, and what they say of a word.
//!
//! A table names the ports of a design that play a role, the states that a programmer sees, and
//! classes of instruction words with the steps of each. `specs/Table.antt` has the pure trees that
//! definitions read, `specs/Names.antt` what a name stands for where an expression stands,
//! `specs/Step.antt` what an instruction does in its cycles and what an execution is,
//! `specs/Headline.antt` what a design must do to follow a table, `specs/Fits.antt` which tables suit
//! a design; `print` writes a table as a text, by `specs/Print.antt`. The language of tables is the project's own; its expressions are those of the Lola
//! profile. How a text becomes a table, and how a fault is found, is not known here.
#![tactic(auto)]

mod class_text;
mod phase_text;
mod pieces;
mod printing;
mod role_text;
mod row_text;
mod table;
mod value;

pub use printing::print;
pub use table::{
    AccessRow, Active, BusRoles, Class, Inside, LetRow, Phase, Roles, SetRow, StateRow, Table,
    Turns,
};
pub use value::{Access, Answer, StateValue};
