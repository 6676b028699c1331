//! The commands of the workbench over any store and any sink.
//!
//! `serve` takes the words of a command, reads its files, carries it out and prints one text. Its
//! contract says when each outcome comes, and that the status and the text are that outcome's. The
//! parts that decide designs by tables of the small form stand here as modules, until each moves to a
//! crate of its own. Files and output are known by the meanings of `lola_port` alone: what a file system
//! or a terminal does is not known here.
#![tactic(auto)]

// tables of the small form, and what they see of a design
mod claim;
mod classes;
mod face;
mod fault;
mod meaning;
mod names;
mod roles;
mod rows;
mod scopes;
mod states;

// obligations, and deciding them
mod cycle;
mod decide;
mod laws;
mod obligation;
mod subject;
mod texts;
mod trial;

// what a call comes to, with its text and status: of any command, and of each
mod decide_reply;
mod line;
mod refusal;
mod reply;
mod status;
mod values;

// commands
mod command;
mod printer;
mod words;

pub use command::serve;
pub use laws::{headline, one_answer, one_outcome, one_spelling};
pub use status::{Status, status_number};
