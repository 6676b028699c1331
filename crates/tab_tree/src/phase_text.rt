ghost use Rattle.std.specs.Prelude.{◌≡◌, ◌++◌, OnOk, map, codes};
ghost use Rattle.lola_tree.specs.Tree.{tree};
ghost use Rattle.tab_tree.specs.Table.{set_tree, turns_tree, access_tree, phase_tree};
ghost use Rattle.tab_tree.specs.Print.{turns_text, byte_text, access_text, shows_text, link_text, phase_text};

use crate::pieces::{is_number, push_given};
use crate::row_text::push_set;
use crate::table::{AccessRow, Phase, SetRow, Turns};
use lola_tree::{Expr, push_expr, push_number, push_shape};
use std::alloc::AllocError;

/// Appends a phase.
pub fn push_phase(out: &mut Vec<u8>, phase: &Phase) -> Result<(), AllocError>
    ensures { OnOk result (out.new.items ≡ out.old.items ++ phase_text (phase_tree phase.now)) }
{
    out.extend_from_slice(b"PHASE ")?;
    push_turns(out, &phase.turns)?;
    push_access(out, &phase.access)?;
    push_shows(out, phase.shows.items())?;
    push_link(out, &phase.link)?;
    out.extend_from_slice(b";\n")?;
    Ok(())
}

fn push_turns(out: &mut Vec<u8>, turns: &Option<Turns>) -> Result<(), AllocError>
    ensures { OnOk result (out.new.items ≡ out.old.items ++ turns_text (turns_tree turns.now)) }
{
    match turns {
        Some(turns) => {
            out.extend_from_slice(b"TURNS ")?;
            push_number(out, turns.times as u128, None)?;
            out.extend_from_slice(b"OF ")?;
            push_shape(out, &turns.shape)?;
            push_given(out, b"FROM ", &turns.first)?;
            push_given(out, b"STEP ", &turns.step)
        }
        None => Ok(()),
    }
}

fn push_access(out: &mut Vec<u8>, access: &AccessRow) -> Result<(), AllocError>
    ensures { OnOk result (out.new.items ≡ out.old.items ++ access_text (access_tree access.now)) }
{
    match access {
        AccessRow::Idle => Ok(()),
        AccessRow::Take => {
            out.extend_from_slice(b"LOAD ")?;
            Ok(())
        }
        AccessRow::Load { adr, byte } => {
            out.extend_from_slice(b"LOAD ")?;
            push_expr(out, adr)?;
            push_byte(out, byte)
        }
        AccessRow::Store { adr, byte, word } => {
            out.extend_from_slice(b"STORE ")?;
            push_expr(out, adr)?;
            push_byte(out, byte)?;
            push_given(out, b"DATA ", word)
        }
        AccessRow::Fetch { adr } => push_given(out, b"FETCH ", adr),
    }
}

/// Appends a BYTE part, unless it is the number 0.
fn push_byte(out: &mut Vec<u8>, byte: &Expr) -> Result<(), AllocError>
    ensures { OnOk result (out.new.items ≡ out.old.items ++ byte_text (tree byte.now)) }
{
    if is_number(byte, 0) {
        Ok(())
    } else {
        push_given(out, b"BYTE ", byte)
    }
}

/// Appends SHOWS rows behind their word, if there are any.
fn push_shows(out: &mut Vec<u8>, rows: &[SetRow]) -> Result<(), AllocError>
    ensures { OnOk result (out.new.items ≡ out.old.items ++ shows_text (codes "SHOWS ") (map set_tree rows.now)) }
{
    let mut before: &[u8] = b"SHOWS ";
    for row in rows {
        out.extend_from_slice(before)?;
        push_set(out, row)?;
        before = b", ";
    }
    Ok(())
}

/// Appends a LINK, unless it is the number 1.
fn push_link(out: &mut Vec<u8>, link: &Expr) -> Result<(), AllocError>
    ensures { OnOk result (out.new.items ≡ out.old.items ++ link_text (tree link.now)) }
{
    if is_number(link, 1) {
        Ok(())
    } else {
        push_given(out, b"LINK ", link)
    }
}
