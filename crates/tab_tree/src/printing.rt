ghost use Rattle.std.specs.Prelude.{◌≡◌, ◌++◌, OnOk, IfOk, map, codes};
ghost use Rattle.tab_tree.specs.Table.{table_tree, state_tree, let_tree, class_tree};
ghost use Rattle.tab_tree.specs.Print.{title_text, views_text, start_text, states_text, fields_text, classes_text, table_text};

use crate::class_text::push_class;
use crate::pieces::{push_ended, push_maybe};
use crate::role_text::push_roles;
use crate::row_text::{push_let, push_starts, push_state};
use crate::table::{Class, LetRow, StateRow, Table};
use lola_bits::Memory;
use lola_tree::push_name;
use std::alloc::{AllocError, Global};

/// The text of a table: its tokens in the order of the grammar, each with one blank behind it, but that
/// one line feed stands behind `;` and behind the `.` at the end. Numbers are decimal; parentheses stand
/// where the grammar needs them and nowhere else. A LINK that is the number 1 and a BYTE part that is
/// the number 0, both without a width, aren't written, nor an empty FIELDS. The only refusal is want of
/// memory.
pub fn print(alloc: Global, table: &Table) -> Result<Vec<u8>, Memory>
    ensures { IfOk result (λ text. text.items ≡ table_text (table_tree table.now)) }
{
    let mut text = Vec::new(alloc);
    push_table(&mut text, table)?;
    Ok(text)
}

/// Appends a table.
fn push_table(out: &mut Vec<u8>, table: &Table) -> Result<(), AllocError>
    ensures { OnOk result (out.new.items ≡ out.old.items ++ table_text (table_tree table.now)) }
{
    push_title(out, table)?;
    push_views(out, table)?;
    push_start(out, table)?;
    push_classes(out, table.classes.items())?;
    out.extend_from_slice(b"END ")?;
    push_name(out, &table.name)?;
    out.extend_from_slice(b".\n")?;
    Ok(())
}

/// Appends the names of a table and its design, and the roles.
fn push_title(out: &mut Vec<u8>, table: &Table) -> Result<(), AllocError>
    ensures { OnOk result (out.new.items ≡ out.old.items ++ title_text (table_tree table.now)) }
{
    out.extend_from_slice(b"TABLE ")?;
    push_name(out, &table.name)?;
    out.extend_from_slice(b"FOR ")?;
    push_name(out, &table.root)?;
    out.extend_from_slice(b";\n")?;
    out.extend_from_slice(b"ROLES ")?;
    push_roles(out, &table.roles)
}

/// Appends states, fields, invariant and boundary.
fn push_views(out: &mut Vec<u8>, table: &Table) -> Result<(), AllocError>
    ensures { OnOk result (out.new.items ≡ out.old.items ++ views_text (table_tree table.now)) }
{
    out.extend_from_slice(b"STATE ")?;
    push_states(out, table.states.items())?;
    push_fields(out, table.fields.items())?;
    push_ended(out, b"INVARIANT ", &table.invariant)?;
    push_ended(out, b"BOUNDARY ", &table.boundary)
}

/// Appends what a table starts from.
fn push_start(out: &mut Vec<u8>, table: &Table) -> Result<(), AllocError>
    ensures { OnOk result (out.new.items ≡ out.old.items ++ start_text (table_tree table.now)) }
{
    out.extend_from_slice(b"START ")?;
    push_starts(out, table.starts.items())?;
    push_maybe(out, b"FETCH ", &table.start_fetch)
}

/// Appends states.
fn push_states(out: &mut Vec<u8>, rows: &[StateRow]) -> Result<(), AllocError>
    ensures { OnOk result (out.new.items ≡ out.old.items ++ states_text (map state_tree rows.now)) }
{
    for row in rows {
        push_state(out, row)?;
    }
    Ok(())
}

/// Appends fields behind their word, if there are any.
fn push_fields(out: &mut Vec<u8>, rows: &[LetRow]) -> Result<(), AllocError>
    ensures { OnOk result (out.new.items ≡ out.old.items ++ fields_text (codes "FIELDS ") (map let_tree rows.now)) }
{
    let mut before: &[u8] = b"FIELDS ";
    for row in rows {
        out.extend_from_slice(before)?;
        push_let(out, row)?;
        before = b"";
    }
    Ok(())
}

/// Appends classes.
fn push_classes(out: &mut Vec<u8>, classes: &[Class]) -> Result<(), AllocError>
    ensures { OnOk result (out.new.items ≡ out.old.items ++ classes_text (map class_tree classes.now)) }
{
    for entry in classes {
        push_class(out, entry)?;
    }
    Ok(())
}
