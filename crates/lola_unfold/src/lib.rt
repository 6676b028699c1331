//! What a source is as a flat design, and how large it is.
//!
//! A design of the Lola profile, after Wirth's Lola-2, has modules with instances, pads and arrays; a flat
//! design has signals by their numbers alone. `specs/Flat.antt` says which flat design a source has:
//! `flat_design`, its signals in signal order, each with the expression that gives its value or its next
//! value, and `IsElaborated`, the same with the order of its equations. `flat_uses` says that what its
//! equations use is what occurs in the equations on paths, and `elaborated_cycle` that a source with such a
//! design has exactly one cycle from each state under each input.
//!
//! `elaborate` answers that design, or why there is none. Of each module is known once what its names stand for,
//! which are clocks and registers, the arguments of its instances (`Part`), and where its names stand among its
//! signals (`Layout`, `Slots`); `Survey` has that of all. Then the walk goes over the instances: each adds its
//! signals at the end, and puts what its statements and arguments give values to under the numbers of these
//! signals. Whether a source is well sized is not known here, nor how an order is found.
#![tactic(auto)]

mod add;
mod calls;
mod clocks;
mod expression;
mod fill;
mod finish;
mod known;
mod laws;
mod layout;
mod made;
mod measure;
mod pads;
mod part;
mod root;
mod site;
mod slots;
mod survey;
mod unfolding;
mod uses;
mod walk;

pub use expression::translate;
pub use laws::{elaborated_cycle, flat_uses};
pub use measure::{Extent, extent_of};
pub use slots::{Base, Slot, Slots, number_from};
pub use unfolding::{ElabError, elaborate};
