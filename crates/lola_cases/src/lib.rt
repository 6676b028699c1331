//! The cases of a flat design: all that a cycle leaves free, as numbers.
//!
//! A cycle is given a value for each input but the clock, a value from outside for each pad, and the
//! elements of each register. `free_elements` lists these in signal order, with the names that they are
//! printed under, and a case is a number for each. `case_bits` makes of a case the bits that evaluation takes,
//! and `behind` the numbers of the whole cycle and of the state behind it. Cases are counted by the bits of
//! their numbers, one behind the other, so `first_failing` finds the least at which a rule doesn't hold by
//! counting from 0. Which rule, and how it is tested, is the caller's affair.
#![tactic(auto)]

mod evaluation;
mod free;
mod laws;
mod names;
mod tables;
mod trial;

pub use evaluation::{Cycle, behind};
pub use free::{FreeElement, free_count, free_elements, free_widths};
pub use laws::{
    cases_are_given, counting, each_has_one_cycle, each_is_one_case, free_bits_are_few,
    inputs_come_first, same_cycles, values_are_given,
};
pub use names::{element_name, element_names};
pub use tables::{CaseBits, case_bits};
pub use trial::{Trial, first_failing, numbers_of, total};
