//! Each call of `lola_elab` that may want memory, with enough of it: what a source is as a design, what an
//! expression is over leaves, and what both evaluate to, worked out by hand from the rules of the language.
#![tactic(auto)]

#[cfg(test)]
mod answer;
#[cfg(test)]
mod designs;
#[cfg(test)]
mod expressions;
