//! Nets in the making, their cycles and their texts: tests of `lola_gate`, `lola_net` and `veri_text`, worked
//! out by hand from the rules of gates and of the text.
#![tactic(auto)]

#[cfg(test)]
mod adder;
#[cfg(test)]
mod makes;
#[cfg(test)]
mod pads;
