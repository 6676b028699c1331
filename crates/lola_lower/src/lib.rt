//! A flat design as a net: the one lowering, over shared gates.
//!
//! `lower` makes the net of a well formed flat design. Its nodes are made in one order: a free node for each
//! bit of the root's IN ports, a latch for each bit of the registers, both in signal order, then the signals
//! in the order of equations, and then the next values of the registers in signal order. A pad makes its
//! value, its release and then a pad node for each bit. Within a name elements go from 0 on, and bits from
//! the highest down to bit 0. The definition `net_of` says exactly which net that is, by the steps of
//! `lola_eval` over the algebra of `lola_gate`. The law `lowered_cycles`
//! says that this net does in each cycle what the design does, bit by bit (`specs/Cycles.antt`), and `lowered_names`
//! that its names stand as those of a net are to stand (`specs/Named.antt`).
#![tactic(auto)]

mod evaluated;
mod laws;
mod names;
mod net;
mod signals;
mod sources;

pub use evaluated::{lower_next, lower_signals};
pub use laws::{lowered_cycles, lowered_names, lowered_stands};
pub use net::lower;
