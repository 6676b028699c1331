//! Operators on vectors, by number and by bits: tests of `lola_bits` and `lola_alg`, worked out by hand.
#![tactic(auto)]

#[cfg(test)]
mod lowered;
#[cfg(test)]
mod vectors;
