ghost use Rattle.std.specs.Prelude.{◌≡◌, ◌++◌, OnOk};
ghost use Rattle.lola_tree.specs.Tree.{tree};
ghost use Rattle.tab_tree.specs.Table.{expr_tree};
ghost use Rattle.tab_tree.specs.Print.{given_text, ended_text, maybe_text, port_text, is_number};

use lola_bits::Name;
use lola_tree::{Expr, push_expr, push_name};
use std::alloc::AllocError;

/// Appends an expression behind a word.
pub fn push_given(out: &mut Vec<u8>, word: &[u8], expr: &Expr) -> Result<(), AllocError>
    ensures { OnOk result (out.new.items ≡ out.old.items ++ given_text word.now (tree expr.now)) }
{
    out.extend_from_slice(word)?;
    push_expr(out, expr)
}

/// Appends an expression behind a word, and the end of the row.
pub fn push_ended(out: &mut Vec<u8>, word: &[u8], expr: &Expr) -> Result<(), AllocError>
    ensures { OnOk result (out.new.items ≡ out.old.items ++ ended_text word.now (tree expr.now)) }
{
    out.extend_from_slice(word)?;
    push_expr(out, expr)?;
    out.extend_from_slice(b";\n")?;
    Ok(())
}

/// The same where there is one.
pub fn push_maybe(out: &mut Vec<u8>, word: &[u8], expr: &Option<Expr>) -> Result<(), AllocError>
    ensures { OnOk result (out.new.items ≡ out.old.items ++ maybe_text word.now (expr_tree expr.now)) }
{
    match expr {
        Some(expr) => push_ended(out, word, expr),
        None => Ok(()),
    }
}

/// Appends the name of a port behind a word, and the end of the row.
pub fn push_port(out: &mut Vec<u8>, word: &[u8], port: &Name) -> Result<(), AllocError>
    ensures { OnOk result (out.new.items ≡ out.old.items ++ port_text word.now port.now) }
{
    out.extend_from_slice(word)?;
    push_name(out, port)?;
    out.extend_from_slice(b";\n")?;
    Ok(())
}

/// Whether an expression is this number without a width.
pub fn is_number(expr: &Expr, number: u128) -> bool
    ensures { result ≡ is_number number (tree expr.now) }
{
    match expr {
        Expr::Number {
            value,
            width,
            at: _,
        } => *value == number && width.is_none(),
        _ => false,
    }
}
