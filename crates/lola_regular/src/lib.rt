//! What well sized designs keep to, in the words of their signals and equations.
//!
//! `lola_width` says of a source that no rule of names, widths and assignments is broken, as a list of
//! faults that is empty. `lola_design` says what its laws on designs stand on: that names and assignments
//! come once, that pads are passed on and driven as such, that what is read is a signal, and that values
//! fit their signals. The laws here say that the first gives the second. All functions are empty: their
//! contracts are the laws.
#![tactic(auto)]

mod laws;

pub use laws::{each_is_assigned, names_are_once, one_clock, pads_are_pads};
