//! Laws of designs on paths: what a design with instances, pads and arrays keeps to, whatever it computes.
//!
//! The definitions are those of `lola_tree`: modules at their paths, the signals in order, the equations of
//! a cycle, closed chains. The laws here say that the equations may be taken one for each signal, each pad
//! of the root by the statement that drives it (`resolved_pads`, `one_equation`), that no path comes twice
//! (`one_path`), that closed chains are those of a graph of numbers (`loops`), and that a design whose
//! graph has an order has exactly one cycle from each state under each input and one state behind it
//! (`one_cycle`). All functions are empty: their contracts are the laws. How a text becomes a source and
//! whether it is well sized is not known here; what well sized designs keep to is `specs/Regular.antt`.
#![tactic(auto)]

mod laws;

pub use laws::{loops, one_cycle, one_equation, one_path, one_update, resolved_pads};
