//! The text of a source to its flat design.
//!
//! `read_source` takes bytes through the scanner, the parser, the rules of names, widths and assignments and the
//! unfolding of instances, and answers the source that they spell with its flat design, or the first refusal.
//! `specs/Accepts.antt` says which bytes are accepted and `specs/Refused.antt` when each refusal comes, both in
//! the words of the crates below; `one_answer` is the law that no text is both, and that what refuses a text comes
//! at the first stage that it doesn't pass. What is done with a design is not known here, nor how a refusal is
//! printed.
#![tactic(auto)]

mod fault;
mod laws;
mod reading;

pub use fault::{SourceError, SourceFault, SourceRefusal};
pub use laws::one_answer;
pub use reading::{Accepted, read_source};
