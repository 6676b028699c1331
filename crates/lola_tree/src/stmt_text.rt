ghost use Rattle.std.specs.Prelude.{◌≡◌, ◌++◌, OnOk, map, codes};
ghost use Rattle.lola_tree.specs.Tree.{tree, actual_tree, place_tree, stmt_tree};
ghost use Rattle.lola_tree.specs.Print.{place_text, args_text, stmt_text, body_text, pad_text};

use crate::expr::Actual;
use crate::expr_text::{push_enclosed, push_expr};
use crate::module::Stmt;
use crate::named::Named;
use crate::token_text::push_name;
use std::alloc::AllocError;

/// Appends the body of a module, if it has one.
pub(crate) fn push_body(out: &mut Vec<u8>, body: &[Stmt]) -> Result<(), AllocError>
    ensures { OnOk result (out.new.items ≡ out.old.items ++ body_text (codes "BEGIN\n") (map stmt_tree body.now)) }
{
    let mut before: &[u8] = b"BEGIN\n";
    for stmt in body {
        out.extend_from_slice(before)?;
        push_stmt(out, stmt)?;
        before = b";\n";
    }
    Ok(())
}

fn push_stmt(out: &mut Vec<u8>, stmt: &Stmt) -> Result<(), AllocError>
    ensures { OnOk result (out.new.items ≡ out.old.items ++ stmt_text (stmt_tree stmt.now)) }
{
    match stmt {
        Stmt::Assign {
            name,
            place,
            value,
            at: _,
            equals: _,
        } => {
            push_name(out, name)?;
            push_place(out, place)?;
            out.extend_from_slice(b":= ")?;
            push_expr(out, value)
        }
        Stmt::Call { name, args, at: _ } => {
            push_name(out, name)?;
            push_args(out, args.items())?;
            out.extend_from_slice(b") ")?;
            Ok(())
        }
        Stmt::Pad {
            io,
            inner,
            value,
            release,
            at: _,
        } => push_pad(out, io, inner, value, release),
    }
}

/// Appends the place of an assignment, if it has one.
fn push_place(out: &mut Vec<u8>, place: &Option<Actual>) -> Result<(), AllocError>
    ensures { OnOk result (out.new.items ≡ out.old.items ++ place_text (place_tree place.now)) }
{
    match place {
        None => Ok(()),
        Some(place) => push_enclosed(out, b"[ ", &place.value, b"] "),
    }
}

/// Appends the arguments of a call, with the parenthesis before the first.
fn push_args(out: &mut Vec<u8>, args: &[Actual]) -> Result<(), AllocError>
    ensures { OnOk result (out.new.items ≡ out.old.items ++ args_text (codes "( ") (map actual_tree args.now)) }
{
    let mut before: &[u8] = b"( ";
    for arg in args {
        out.extend_from_slice(before)?;
        push_expr(out, &arg.value)?;
        before = b", ";
    }
    Ok(())
}

/// Appends the drive of a pad.
fn push_pad(
    out: &mut Vec<u8>,
    io: &Named,
    inner: &Named,
    value: &Actual,
    release: &Actual,
) -> Result<(), AllocError>
    ensures { OnOk result (out.new.items ≡ out.old.items ++ pad_text io.now.name inner.now.name (tree value.now.value) (tree release.now.value)) }
{
    out.extend_from_slice(b"TS ( ")?;
    push_name(out, &io.name)?;
    out.extend_from_slice(b", ")?;
    push_name(out, &inner.name)?;
    push_enclosed(out, b", ", &value.value, b", ")?;
    push_enclosed(out, b"", &release.value, b") ")
}
