//! Tests of `lola_lanes` and `lola_checks` on words that were worked out by hand.
#![tactic(auto)]

#[cfg(test)]
mod checks;
#[cfg(test)]
mod words;
