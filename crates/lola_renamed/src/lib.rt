//! An expression over names, with signals in place of the names.
//!
//! The same syntax stands for expressions in the modules of a design and in the rows of a table; what names are
//! differs. Whoever says what they stand for, as a `Reading`, gets from `rename` the expression over signals by
//! their numbers, which can be evaluated and lowered. `renamed_means` is the law that it has the width and the value
//! of the expression, wherever the names stand for what they are.
#![tactic(auto)]

mod expression;
mod laws;
mod reading;

pub use expression::{rename, small};
pub use laws::renamed_means;
pub use reading::Reading;
