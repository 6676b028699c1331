//! The rule of hints: a checker that accepts exactly the good lines of a refutation.
//!
//! A refutation of clauses is a list of lines in LRAT. Each adds a clause with the hints by which it follows
//! from the clauses in force, or takes clauses out of force. Where the empty clause is added, no assignment
//! makes all the clauses true. That is a law here, and nothing has to be known of who wrote the lines.
//!
//! All literals stand in one arena, and a clause in force has a slot that says where. Ids rise, so the list of
//! ids with the keys of their slots grows at its end; an id is looked for where it stands if none is missing
//! before it, or behind it, and else by halves. Which literals are set false is written by stamps, so that
//! nothing has to be undone between lines, and a line costs its own literals and those of its hints. Texts and
//! solvers are not known here, and no line is accepted that needs resolution on a literal of its own (RAT).
#![tactic(auto)]

mod arena;
mod checker;
mod clause;
mod follow;
mod hint;
mod keys;
mod laws;
mod line;
mod line_error;
mod marks;
mod table;

pub use checker::Checker;
pub use clause::{Clause, Cnf};
pub use laws::{accepted, closes, follows, joined, refuted};
pub use line::Line;
pub use line_error::LineError;
