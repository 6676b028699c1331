//! Laws: what well sized designs read, and that what they give fits what they set.
//!
//! A source is well sized where none of the faults of `lola_width` holds. The laws of designs on paths in
//! `lola_design` ask for facts in the words of signals and equations; the laws here give those on types,
//! reads and values. All functions are empty: their contracts are the laws.
#![tactic(auto)]

mod laws;

pub use laws::{
    reads_are_signals, types_are_vectors, values_are_below, values_fit, values_have_widths,
};
