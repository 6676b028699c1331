//! Texts in Verilog and what they are read as: tests of `veri_read` and `veri_text`, worked out by hand from the rules
//! of the text.
#![tactic(auto)]

#[cfg(test)]
mod nets;
#[cfg(test)]
mod refusals;
