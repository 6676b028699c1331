//! The trees of designs in the Lola profile, after Wirth's Lola-2.
//!
//! A source is a list of modules with ports, constants, registers, variables, instances and
//! statements, all of which hold at once. Each node keeps the place of its token, an offset in bytes
//! from 0, so that a later fault can name it. Definitions don't read these types: they read the pure
//! trees of `specs/Tree.antt`, which hold no pointers, through the views there. `print` writes a tree
//! as a text, and the calls `push_..` append the pieces that the text of a table shares with it. How a
//! text becomes a tree, and which trees are well formed, is not known here.
#![tactic(auto)]

mod expr;
mod expr_text;
mod module;
mod module_text;
mod named;
mod printing;
mod stmt_text;
mod token_text;

pub use expr::{Actual, Expr, Part};
pub use expr_text::push_expr;
pub use module::{Const, Local, LocalKind, Module, Port, Source, Stmt, Way};
pub use module_text::push_shape;
pub use named::{Count, Named, Ref, Shape};
pub use printing::{print, print_expr};
pub use token_text::{push_name, push_number};
