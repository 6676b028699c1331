//! The net of a design with a clock, an input, a pad, a wire, a register and an array: tests of `lola_lower`,
//! worked out by hand from the rules of gates.
#![tactic(auto)]

#[cfg(test)]
mod lowered;
#[cfg(test)]
mod sample;
