//! The cases of a flat design are the states and inputs of its source.
//!
//! `lola_cases` gives a number to all that a cycle of a flat design leaves free, and `lola_meaning` says that
//! its cycles are those of the source. Here both meet: what is free is listed on paths, with names and widths,
//! a state and an input give it a case, each case is that of a state and an input, and what stands behind a
//! case is what the source does. All functions are laws: their contracts say what holds, and their bodies call
//! the laws that they stand on.
#![tactic(auto)]

mod laws;

pub use laws::{
    cases_are_states, cases_do_the_same, free_has_names, inputs_stand_first, states_are_cases,
};
