//! Whether a source is well sized: what its names mean, which widths its expressions have, and that
//! each target is set once.
//!
//! `sizes` goes once through the modules of a source in text order and answers the first fault, if
//! there is one, by stage (names, widths, assignments), then by place, then by kind. What the faults of
//! a source are is said by lists in `specs/`, one list for each stage, which speak of the tree alone;
//! which of them is answered is `specs/Answered.antt`, and `answers_first` is the law. The rules are
//! those of the Lola profile, after Wirth's Lola-2. How a text becomes a tree, and what a design does,
//! is not known here.
#![tactic(auto)]

mod check;
mod clock;
mod counts;
mod declarations;
mod declared;
mod fault;
mod interface;
mod laws;
mod names;
mod statements;
mod table;
mod targets;
mod types;
mod uses;
mod width_stage;
mod widths;

pub use check::sizes;
pub use counts::{count_number, ref_name};
pub use declarations::module_names;
pub use declared::Declared;
pub use fault::SourceFault;
pub use laws::{answers_first, what_is_assigned, what_is_doubled, what_numbers_elements};
pub use table::Table;
