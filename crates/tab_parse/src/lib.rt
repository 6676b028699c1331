//! Tokens as tables.
//!
//! The tokens of a table's text are read by the grammar of tables (`specs/Grammar.antt`) to a tree that
//! keeps the places at which faults stand; `specs/Placed.antt` says which table such a tree stands for.
//! The grammar is the project's own; its expressions are those of the Lola profile. What names mean,
//! and whether the table fits a design, is not known here.
#![tactic(auto)]

mod classes;
mod front;
mod laws;
mod phases;
mod placed;
mod roles;
mod rows;
mod sets;
mod table;

pub use classes::take_classes;
pub use laws::one_table;
pub use phases::take_phases;
pub use placed::{
    ActiveRole, PlacedAccess, PlacedClass, PlacedInside, PlacedLet, PlacedPhase, PlacedRole,
    PlacedSet, PlacedState, PlacedTable, PlacedTurns, PortRole, RoleWord,
};
pub use roles::take_roles;
pub use rows::{take_fields, take_starts, take_states};
pub use sets::{take_lets, take_sets, take_shows};
pub use table::parse_table;
