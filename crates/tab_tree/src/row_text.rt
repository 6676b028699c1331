ghost use Rattle.std.specs.Prelude.{◌≡◌, ◌++◌, OnOk, map};
ghost use Rattle.tab_tree.specs.Table.{expr_tree, state_tree, let_tree, set_tree};
ghost use Rattle.tab_tree.specs.Print.{state_text, let_text, place_text, set_text, starts_text};

use crate::table::{LetRow, SetRow, StateRow};
use lola_tree::{Expr, push_expr, push_name, push_shape};
use std::alloc::AllocError;

/// Appends a state.
pub fn push_state(out: &mut Vec<u8>, row: &StateRow) -> Result<(), AllocError>
    ensures { OnOk result (out.new.items ≡ out.old.items ++ state_text (state_tree row.now)) }
{
    push_name(out, &row.name)?;
    out.extend_from_slice(b": ")?;
    push_shape(out, &row.shape)?;
    out.extend_from_slice(b"IS ")?;
    push_expr(out, &row.shown)?;
    out.extend_from_slice(b";\n")?;
    Ok(())
}

/// Appends a name for the value of an expression.
pub fn push_let(out: &mut Vec<u8>, row: &LetRow) -> Result<(), AllocError>
    ensures { OnOk result (out.new.items ≡ out.old.items ++ let_text (let_tree row.now)) }
{
    push_name(out, &row.name)?;
    out.extend_from_slice(b"IS ")?;
    push_expr(out, &row.value)?;
    out.extend_from_slice(b";\n")?;
    Ok(())
}

/// Appends a row that sets a state, without its end.
pub fn push_set(out: &mut Vec<u8>, row: &SetRow) -> Result<(), AllocError>
    ensures { OnOk result (out.new.items ≡ out.old.items ++ set_text (set_tree row.now)) }
{
    push_name(out, &row.name)?;
    push_place(out, &row.place)?;
    out.extend_from_slice(b":= ")?;
    push_expr(out, &row.value)
}

fn push_place(out: &mut Vec<u8>, place: &Option<Expr>) -> Result<(), AllocError>
    ensures { OnOk result (out.new.items ≡ out.old.items ++ place_text (expr_tree place.now)) }
{
    match place {
        Some(place) => {
            out.extend_from_slice(b"[ ")?;
            push_expr(out, place)?;
            out.extend_from_slice(b"] ")?;
            Ok(())
        }
        None => Ok(()),
    }
}

/// Appends START rows.
pub fn push_starts(out: &mut Vec<u8>, rows: &[SetRow]) -> Result<(), AllocError>
    ensures { OnOk result (out.new.items ≡ out.old.items ++ starts_text (map set_tree rows.now)) }
{
    for row in rows {
        push_set(out, row)?;
        out.extend_from_slice(b";\n")?;
    }
    Ok(())
}
