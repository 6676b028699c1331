ghost use Rattle.std.specs.Prelude.{◌≡◌, ◌++◌, OnOk, map};
ghost use Rattle.tab_tree.specs.Table.{let_tree, set_tree, phase_tree, class_tree};
ghost use Rattle.lola_tree.specs.Print.{name_text};
ghost use Rattle.tab_tree.specs.Print.{lets_text, sets_text, phases_text, pattern_text, class_text};

use crate::phase_text::push_phase;
use crate::row_text::{push_let, push_set};
use crate::table::{Class, Inside, LetRow, Phase, SetRow};
use lola_tree::push_name;
use std::alloc::AllocError;

/// Appends a class.
pub fn push_class(out: &mut Vec<u8>, entry: &Class) -> Result<(), AllocError>
    ensures { OnOk result (out.new.items ≡ out.old.items ++ class_text (class_tree entry.now)) }
{
    match &entry.inside {
        Some(inside) => {
            push_heading(out, b"CLASS ", entry)?;
            push_inside(out, inside)
        }
        None => {
            push_heading(out, b"OUTSIDE ", entry)?;
            out.extend_from_slice(b";\n")?;
            Ok(())
        }
    }
}

/// Appends a word, the name of a class and its pattern.
fn push_heading(out: &mut Vec<u8>, word: &[u8], entry: &Class) -> Result<(), AllocError>
    ensures { OnOk result (out.new.items ≡ out.old.items ++ (word.now ++ (name_text entry.now.name ++ pattern_text entry.now.pattern))) }
{
    out.extend_from_slice(word)?;
    push_name(out, &entry.name)?;
    out.extend_from_slice(b"\"")?;
    out.extend_from_slice(entry.pattern.items())?;
    out.extend_from_slice(b"\" ")?;
    Ok(())
}

/// Appends the steps of an instruction.
fn push_inside(out: &mut Vec<u8>, inside: &Inside) -> Result<(), AllocError>
    ensures { OnOk result (out.new.items ≡ out.old.items ++ (lets_text (map let_tree inside.now.lets) ++ (phases_text (map phase_tree inside.now.phases) ++ sets_text (map set_tree inside.now.sets)))) }
{
    push_lets(out, inside.lets.items())?;
    push_phases(out, inside.phases.items())?;
    push_sets(out, inside.sets.items())
}

/// Appends LETs.
fn push_lets(out: &mut Vec<u8>, rows: &[LetRow]) -> Result<(), AllocError>
    ensures { OnOk result (out.new.items ≡ out.old.items ++ lets_text (map let_tree rows.now)) }
{
    for row in rows {
        out.extend_from_slice(b"LET ")?;
        push_let(out, row)?;
    }
    Ok(())
}

/// Appends phases.
fn push_phases(out: &mut Vec<u8>, phases: &[Phase]) -> Result<(), AllocError>
    ensures { OnOk result (out.new.items ≡ out.old.items ++ phases_text (map phase_tree phases.now)) }
{
    for phase in phases {
        push_phase(out, phase)?;
    }
    Ok(())
}

/// Appends SET rows.
fn push_sets(out: &mut Vec<u8>, rows: &[SetRow]) -> Result<(), AllocError>
    ensures { OnOk result (out.new.items ≡ out.old.items ++ sets_text (map set_tree rows.now)) }
{
    for row in rows {
        out.extend_from_slice(b"SET ")?;
        push_set(out, row)?;
        out.extend_from_slice(b";\n")?;
    }
    Ok(())
}
