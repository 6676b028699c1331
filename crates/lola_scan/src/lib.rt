//! Texts as tokens.
//!
//! `scan` takes the bytes of a design or a table apart into words, numbers, patterns and marks, each
//! as long as it can be, with blanks and comments between them, or names the first fault of the text
//! with its place. The rule is a relation on whole texts (`specs/Tokens.antt`), and by a law a text
//! has one reading. The spellings are the profile's own, after Wirth's Lola-2. Which words are
//! reserved, and what a sequence of tokens means, is not known here.
#![tactic(auto)]

mod bytes;
mod front;
mod mark;
mod number;
mod scanner;
mod token;

pub use scanner::{one_reading, scan, spaced_tokens};
pub use token::{ScanError, Token, TokenKind};
