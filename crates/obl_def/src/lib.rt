//! The obligations of a table on a design.
//!
//! Each obligation speaks of one cycle: that some class fits each word, what a reset cycle leaves, and
//! for each phase of each class where a cycle leads, stalled or not. `specs/Obligations.antt` has their
//! list and their names, `specs/Valuation.antt` what each leaves free, `specs/Holds.antt` what each says
//! and where it is violated. So far there are definitions and laws alone: an obligation holds exactly
//! where it isn't violated, and what the names of a fitting table stand for has the widths of
//! `specs/Forms.antt`. Worked tables meet all their obligations, or violate one (`proofs/Tables.antt`,
//! `Storing.antt`, `Turning.antt`). That all obligations together give whole runs is the law of `proc_check`.
#![tactic(auto)]

mod laws;
mod values;

pub use laws::{holds_unless_violated, violated_where_it_fails};
pub use values::{
    expressions_have_vectors, names_have_forms, names_have_values, shown_values_suit,
};
