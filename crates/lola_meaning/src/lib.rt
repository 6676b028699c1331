//! The central law of elaboration: what a flat design means is what its source means.
//!
//! `lola_tree` says on paths what a source does in a cycle, `lola_flat` says what a flat design does by the
//! numbers of its signals, and `lola_unfold` which flat design a source has. Here stand the laws between
//! them. `specs/Tables.antt` reads a valuation of paths as a table by numbers and back; then expressions
//! have their values, the cycles of the source are those of the flat design, the states behind them too,
//! and a flat design of a well sized source is well formed. All functions are laws: their contracts say
//! what holds, and their bodies call the laws that they stand on.
#![tactic(auto)]

mod laws;

pub use laws::{
    cycles_are_flat, elaborated_is_formed, expressions_mean, next_is_flat, one_clock_port,
    one_cycle, signals_have_numbers, tables_read_back, types_suit, what_is_given,
};
