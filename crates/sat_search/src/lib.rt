//! A search for a refutation of clauses, or for values that make them true.
//!
//! An engine looks, and a keeper writes down. Of an engine nothing is known but that it is safe and answers. The keeper
//! offers each clause that it tells to the checker of `lrat_check`, keeps it only where the checker takes it, and tries
//! values on all clauses; where the engine is refused or gives up, additions that are always good spend the rest of the
//! limit. So the answers are right whatever the engine is, and all that is proved of a search stands on the keeper.
//!
//! The engine of `search` learns from conflicts, with two watched literals, first unique implication points, activity
//! and restarts, as solvers do since Chaff and MiniSat. That of `split` guesses the inputs of gates in their order. Both
//! tell each clause with the hints by which it follows (LRAT). `docs/SEARCH.md` says how they look, and what isn't
//! claimed.
#![tactic(auto)]

mod analysis;
mod arena;
mod base;
mod cells;
mod engine;
mod found;
mod heap;
mod keeper;
mod laws;
mod literal;
mod pace;
mod propagate;
mod ranges;
mod reduce;
mod run;
mod solver;
mod splitter;
mod trail;
mod values;

pub use engine::{Engine, Event};
pub use found::{Found, SplitFound};
pub use laws::again;
pub use ranges::has_literals;
pub use run::{conduct, search, split};
