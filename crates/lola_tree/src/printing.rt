ghost use Rattle.std.specs.Prelude.{◌≡◌, ◌++◌, OnOk, IfOk, map};
ghost use Rattle.lola_tree.specs.Tree.{tree, module_tree, source_tree};
ghost use Rattle.lola_tree.specs.Print.{expr_text, modules_text, source_text};

use crate::expr::Expr;
use crate::expr_text::push_expr;
use crate::module::{Module, Source};
use crate::module_text::push_module;
use lola_bits::Memory;
use std::alloc::{AllocError, Global};

/// The text of a design: its tokens in the order of the grammar, each with one blank behind it, but that
/// one line feed stands behind `;`, behind BEGIN and behind the `.` that ends a module. Numbers are
/// decimal, with their width; parentheses stand where the grammar needs them and nowhere else. For a
/// design that was read, that text spells the same design again, up to places. The only refusal is
/// want of memory.
pub fn print(alloc: Global, source: &Source) -> Result<Vec<u8>, Memory>
    ensures { IfOk result (λ text. text.items ≡ source_text (source_tree source.now)) }
{
    let mut text = Vec::new(alloc);
    push_modules(&mut text, source.modules.items())?;
    Ok(text)
}

/// The text of an expression, by the rules of `print`.
pub fn print_expr(alloc: Global, expr: &Expr) -> Result<Vec<u8>, Memory>
    ensures { IfOk result (λ text. text.items ≡ expr_text (tree expr.now)) }
{
    let mut text = Vec::new(alloc);
    push_expr(&mut text, expr)?;
    Ok(text)
}

/// Appends modules.
fn push_modules(out: &mut Vec<u8>, modules: &[Module]) -> Result<(), AllocError>
    ensures { OnOk result (out.new.items ≡ out.old.items ++ modules_text (map module_tree modules.now)) }
{
    for unit in modules {
        push_module(out, unit)?;
    }
    Ok(())
}
