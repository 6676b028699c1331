//! Texts of sources with what is read of each: the refusal, or the signals of the flat design and the order of
//! their equations, worked out by hand from the rules of the language. Tests of `lola_source`, and of
//! `lola_unfold` below it.
#![tactic(auto)]

#[cfg(test)]
mod answer;
#[cfg(test)]
mod large;
#[cfg(test)]
mod refused;
#[cfg(test)]
mod unfolded;
