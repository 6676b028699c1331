//! Texts of designs with what scanner and parser make of each, worked out by hand from the grammar, and
//! with what designs are printed as. A text that is refused is written in two parts, and the fault
//! stands where the second begins.
#![tactic(auto)]

#[cfg(test)]
mod answer;
#[cfg(test)]
mod limits;
#[cfg(test)]
mod pieces;
#[cfg(test)]
mod printed;
#[cfg(test)]
mod spelled;
#[cfg(test)]
mod stops;
