//! Cases of a design with a clock, an input, a pad, a wire, a register and an array, worked out by hand: tests of
//! `lola_cases`, and of `lola_eval` below it.
#![tactic(auto)]

#[cfg(test)]
mod cases;
#[cfg(test)]
mod sample;
#[cfg(test)]
mod trials;
