//! Asking a check of a flat design, in all cases of what is free.
//!
//! A `Setting` says of each element that a cycle leaves free whether it is given, and what is free besides. A case is
//! a number for each element that is free, and a check is asked of the cycle that the case gives, of the state behind
//! it, and of the further names. `asked` answers the least case in which the check is violated, or that there is none.
//! It tries 64 cases at a time: whatever evaluates a cycle and a check over any algebra does so over words of 64
//! cases. Which checks are asked, and what is free in them, is the caller's affair.
#![tactic(auto)]

mod bits;
mod block;
mod least;
mod setting;
mod tables;

pub use bits::CaseBit;
pub use least::{AskError, asked};
pub use setting::{Further, Setting};
