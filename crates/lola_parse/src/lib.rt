//! Tokens as trees.
//!
//! `parse` reads a design's tokens by the grammar of the Lola profile and answers the one tree that
//! they spell, or the first token at which no text of the grammar goes on; `parse_expr` and
//! `parse_table_expr` read one expression inside a longer text. The grammar is the profile's own,
//! after Wirth's Lola-2. What names mean, and which widths fit, is not known here.
#![tactic(auto)]

mod cursor;
mod expression;
mod fault;
mod laws;
mod made;
mod module;
mod parser;
mod reference;
mod shapes;
mod statement;
mod symbol;

pub use cursor::{Cursor, Next};
pub use expression::outermost;
pub use fault::Fault;
pub use laws::{one_expression, one_shape, one_tree};
pub use parser::{ParseError, parse, parse_expr, parse_table_expr, tokens_lie_within};
pub use shapes::shape;
pub use symbol::{Language, Symbol};
