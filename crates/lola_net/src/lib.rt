//! A net: the nodes of a design in hardware, and what they do in a cycle.
//!
//! A net has nodes with the numbers from 1: inputs, registers, pads, and gates that are each the `and` of
//! two literals. A literal is twice a node's number, and 1 more for its negation; 0 is false and 1 is true.
//! This is the and-inverter form of AIGER 1.9, with pads. `cycle` says what the outputs, the pads and the
//! next state are for a state and the bits from outside; it goes over the nodes once, in the order of their
//! numbers. Where each gate and pad uses only smaller nodes, this is the one solution of the nodes'
//! equations, which the law `one_cycle` says. Nothing here makes nets, or knows of designs and texts.
#![tactic(auto)]

mod laws;
mod net;
mod node;
mod run;

pub use laws::one_cycle;
pub use net::{Cycle, Net};
pub use node::Node;
pub use run::{cycle, cycle_into};
