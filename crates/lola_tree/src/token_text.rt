ghost use Rattle.std.specs.Prelude.{◌≡◌, ◌++◌, OnOk, decimal};
ghost use Rattle.lola_tree.specs.Print.{name_text, number_text, count_text, path_text, ref_text, times_text, bracket_text};

use crate::named::{Count, Ref};
use itoa::Buffer;
use lola_bits::Name;
use std::alloc::AllocError;

/// Appends a name.
pub fn push_name(out: &mut Vec<u8>, name: &Name) -> Result<(), AllocError>
    ensures { OnOk result (out.new.items ≡ out.old.items ++ name_text name.now) }
{
    out.extend_from_slice(name.text().as_bytes())?;
    out.extend_from_slice(b" ")?;
    Ok(())
}

/// Appends a number in decimal digits, with its width where it has one.
pub fn push_number(out: &mut Vec<u8>, value: u128, width: Option<u128>) -> Result<(), AllocError>
    ensures { OnOk result (out.new.items ≡ out.old.items ++ number_text value width) }
{
    push_decimal(out, value)?;
    if let Some(width) = width {
        out.extend_from_slice(b"'")?;
        push_decimal(out, width)?;
    }
    out.extend_from_slice(b" ")?;
    Ok(())
}

/// Appends the decimal digits of a number.
fn push_decimal(out: &mut Vec<u8>, number: u128) -> Result<(), AllocError>
    ensures { OnOk result (out.new.items ≡ out.old.items ++ decimal number) }
{
    let mut buffer = Buffer::new();
    out.extend_from_slice(buffer.format(number).as_bytes())?;
    Ok(())
}

/// Appends a count.
pub(crate) fn push_count(out: &mut Vec<u8>, count: &Count) -> Result<(), AllocError>
    ensures { OnOk result (out.new.items ≡ out.old.items ++ count_text count.now) }
{
    match count {
        Count::Fixed { value, at: _ } => push_number(out, *value, None),
        Count::Const { name } => push_name(out, &name.name),
    }
}

/// Appends a count in brackets.
pub(crate) fn push_bracketed(out: &mut Vec<u8>, count: &Count) -> Result<(), AllocError>
    ensures { OnOk result (out.new.items ≡ out.old.items ++ bracket_text count.now) }
{
    out.extend_from_slice(b"[ ")?;
    push_count(out, count)?;
    out.extend_from_slice(b"] ")?;
    Ok(())
}

/// Appends how often a part stands there, unless that is once.
pub(crate) fn push_times(out: &mut Vec<u8>, times: &Count) -> Result<(), AllocError>
    ensures { OnOk result (out.new.items ≡ out.old.items ++ times_text times.now) }
{
    match times {
        Count::Fixed { value: 1, at: _ } => Ok(()),
        Count::Fixed { .. } | Count::Const { .. } => {
            out.extend_from_slice(b"! ")?;
            push_count(out, times)
        }
    }
}

/// Appends a reference.
pub(crate) fn push_ref(out: &mut Vec<u8>, of: &Ref) -> Result<(), AllocError>
    ensures { OnOk result (out.new.items ≡ out.old.items ++ ref_text of.now) }
{
    push_path(out, if of.source { b"@ " } else { b"" }, of.path.items())
}

/// Appends the names of a path, with what stands before the first.
fn push_path(out: &mut Vec<u8>, first: &[u8], path: &[Name]) -> Result<(), AllocError>
    ensures { OnOk result (out.new.items ≡ out.old.items ++ path_text first.now path.now) }
{
    let mut before = first;
    for name in path {
        out.extend_from_slice(before)?;
        push_name(out, name)?;
        before = b". ";
    }
    Ok(())
}
