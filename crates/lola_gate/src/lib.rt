//! Shared gates: an algebra whose bits are literals of nodes.
//!
//! `Gates` holds the nodes of a net in the making, numbered from 1 in the order in which they were made.
//! As an `Algebra` it makes the gate of two literals at most once, and none where a literal is constant or
//! the two are of one node; so the nodes and their numbers depend on nothing but the steps that were made.
//! This is the and-inverter graph with structural hashing of AIGER and ABC. What contracts see is the list
//! of nodes, with their names, and each call is a function of it: the definition looks for the first equal
//! pair in the list, and the body finds it by a hash. A step that was made before makes nothing, and answers
//! the same. `into_net` gives the net of the nodes. Which steps are made is the affair of other crates.
#![tactic(auto)]

mod gates;
mod laws;
mod nets;
mod other;

pub use gates::Gates;
pub use laws::{calls_repeat, nodes_have_cycles, steps_repeat};
