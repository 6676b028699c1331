ghost use Rattle.std.specs.Prelude.{◌≡◌, ◌++◌, ◌∷◌, map, length, IfOk, OnOk};
ghost use Rattle.lrat_text.specs.Text.{cert_text, lines_text, parts_lines, line_text, Taken, Named};
ghost use Rattle.lrat_text.specs.Written.{parts_of};

use crate::number::Number;
use crate::numbers::push_numbers;
use lola_bits::{Memory, Name, Seq};
use lrat_check::Line;
use std::alloc::{AllocError, Global};

/// Appends a line of a refutation, without its line feed.
fn push_line(out: &mut Vec<u8>, line: &Line) -> Result<(), AllocError>
    ensures { OnOk result (out.new.items ≡ out.old.items ++ line_text (Taken line.now)) }
{
    match line {
        Line::Add { id, clause, hints } => {
            id.push(out)?;
            push_numbers(out, clause.literals.items())?;
            out.extend_from_slice(b" 0".as_slice())?;
            push_numbers(out, hints.items())?;
            out.extend_from_slice(b" 0".as_slice())?;
            Ok(())
        }
        Line::Delete { id, ids } => {
            id.push(out)?;
            out.extend_from_slice(b" d".as_slice())?;
            push_numbers(out, ids.items())?;
            out.extend_from_slice(b" 0".as_slice())?;
            Ok(())
        }
    }
}

/// Appends lines of a refutation.
fn push_lines(out: &mut Vec<u8>, lines: &[Line]) -> Result<(), AllocError>
    ensures { OnOk result (out.new.items ≡ out.old.items ++ lines_text (map Taken lines.now)) }
{
    for line in lines {
        push_line(out, line)?;
        out.push(b'\n')?;
    }
    Ok(())
}

/// Appends the lines of an obligation.
fn push_part(out: &mut Vec<u8>, name: &Name, lines: &Seq<Line>) -> Result<(), AllocError>
    ensures { OnOk result (out.new.items ≡ out.old.items ++ lines_text (Named name.now ∷ map Taken lines.now)) }
{
    out.extend_from_slice(b"o ".as_slice())?;
    out.extend_from_slice(name.text().as_bytes())?;
    out.push(b'\n')?;
    push_lines(out, lines.items())?;
    Ok(())
}

/// Appends the lines of obligations.
fn push_parts(out: &mut Vec<u8>, names: &[Name], proofs: &[Seq<Line>]) -> Result<(), AllocError>
    requires { length proofs.now ≡ length names.now }
    ensures { OnOk result (out.new.items ≡ out.old.items ++ lines_text (parts_lines (parts_of names.now proofs.now))) }
{
    for (at, name) in names.iter().enumerate() {
        push_part(out, name, &proofs[at])?;
    }
    Ok(())
}

/// Appends the text of a certificate.
fn push_cert(out: &mut Vec<u8>, names: &[Name], proofs: &[Seq<Line>]) -> Result<(), AllocError>
    requires { length proofs.now ≡ length names.now }
    ensures { OnOk result (out.new.items ≡ out.old.items ++ cert_text (parts_of names.now proofs.now)) }
{
    out.extend_from_slice(b"lola-cert 1\n".as_slice())?;
    push_parts(out, names, proofs)?;
    out.extend_from_slice(b"end ".as_slice())?;
    (names.len() as u64).push(out)?;
    out.push(b'\n')?;
    Ok(())
}

/// The text of a certificate with these lists of lines for the obligations of these names. It is read as them where
/// the names aren't empty and have neither a blank nor a line feed, the ids are from 1 to 2^63 - 1, literals and
/// hints aren't 0, and are below 2^31 and 2^63 in size. The only refusal is Memory.
pub fn write_cert(alloc: Global, names: &[Name], proofs: &[Seq<Line>]) -> Result<Vec<u8>, Memory>
    requires { length proofs.now ≡ length names.now }
    ensures { IfOk result (λ text. text.items ≡ cert_text (parts_of names.now proofs.now)) }
{
    let mut out = Vec::new(alloc);
    match push_cert(&mut out, names, proofs) {
        Ok(()) => Ok(out),
        Err(_) => Err(Memory),
    }
}
