//! Designs with instances, pads and arrays as flat designs, worked out by hand from the rules of the language:
//! tests of `lola_unfold`. A row is a source and the lines of its answer (`answer`). The examples of
//! `docs/LANGUAGE.md` for instances, pads and arrays are among the sources.
#![tactic(auto)]

#[cfg(test)]
mod answer;
#[cfg(test)]
mod instances;
#[cfg(test)]
mod large;
#[cfg(test)]
mod limits;
#[cfg(test)]
mod loops;
#[cfg(test)]
mod state;
#[cfg(test)]
mod text;
