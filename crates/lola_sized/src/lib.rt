//! A well sized design is regular.
//!
//! The laws of designs in `lola_design` stand on a record of what a design keeps to (`IsRegular`);
//! `lola_regular` and `lola_values` prove its parts from the empty list of faults of `lola_width`. Here
//! they are joined: the law that a caller of the laws of designs calls. All functions are laws: their
//! contracts say what holds, and their bodies call the laws that they stand on.
#![tactic(auto)]

mod laws;

pub use laws::{arrays_have_places, well_sized_is_regular};
