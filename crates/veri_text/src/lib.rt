//! Nets as text: a small part of Verilog (IEEE 1364-2005).
//!
//! `write` gives the one layout of a net: the module with its ports, their declarations, a wire for each
//! gate and a register for each latch, one `assign` for each gate, pad and output, and one `always` block
//! where the net has a clock. The definition of that text is a function of the net, line by line, and the
//! clause of `write` says that its bytes are that text. Which nets are made is the affair of other crates.
#![tactic(auto)]

mod layout;
mod names;
mod pieces;

pub use layout::write;
