//! Texts of sources with the texts of their nets and their counts, worked out by hand from the rules of gates and of
//! the text: tests of `lola_compile`, and of `lola_lower` below it.
#![tactic(auto)]

#[cfg(test)]
mod nets;
