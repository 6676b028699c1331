//! The order of equations, or a loop that prevents it.
//!
//! `order` takes, for each signal by its number, the numbers of the signals that occur in its equation,
//! and answers the order in which every equation stands behind those that it uses, the first signal that
//! can be placed at each place; or a closed chain, which is why there is none. `one_order` says that
//! exactly one of both exists, and `one_solution` that equations in order have one solution, whatever
//! values are. Each signal waits in the list of one signal that it uses and that isn't placed, and looks
//! on from there when that one is placed, so that each use is looked at once; signals that can be placed
//! are taken by their least number. Nothing is known here but numbers and lists of uses: no names, no
//! expressions, no designs.
#![tactic(auto)]

mod chain;
mod laws;
mod ordering;
mod ready;
mod search;
mod waiting;

pub use laws::{one_order, one_solution};
pub use ordering::{Ordered, order};
