ghost use Rattle.std.specs.Prelude.{◌≡◌, ◌++◌, string_bytes, IfOk, OnOk};
ghost use Rattle.lola_flat.specs.Tree.{signal_tree};
ghost use Rattle.lola_lower.specs.Names.{path_text, path_behind, stem, bit_name, names_down, signal_names};

use lola_bits::{Memory, Name};
use lola_flat::Signal;
use std::alloc::{AllocError, Global};

/// Puts names behind a text, each behind `_`.
fn push_path(text: &mut String, path: &[Name]) -> Result<(), AllocError>
    ensures { OnOk result (string_bytes text.new ≡ string_bytes text.old ++ path_behind path.now) }
{
    for name in path {
        text.push_str("_")?;
        text.push_str(name.text())?;
    }
    Ok(())
}

/// A path as its names with `_` between two.
pub(crate) fn path_text(alloc: Global, path: &[Name]) -> Result<String, AllocError>
    ensures { IfOk result (λ text. string_bytes text ≡ path_text path.now) }
{
    match path {
        [] => Ok(String::new(alloc)),
        [first, more @ ..] => {
            let mut text = String::from_str(alloc, first.text())?;
            push_path(&mut text, more)?;
            Ok(text)
        }
    }
}

/// What the names of an element's bits begin with.
pub(crate) fn stem(alloc: Global, signal: &Signal, element: usize) -> Result<String, AllocError>
    ensures { IfOk result (λ text. string_bytes text ≡ stem (signal_tree signal.now) element) }
{
    let path = path_text(alloc, signal.path.items())?;
    match &signal.place {
        Some(_) => format!(in alloc; "{path}_{element}"),
        None => Ok(path),
    }
}

/// The name of a bit.
pub(crate) fn bit_name(alloc: Global, text: &str, bit: usize) -> Result<Name, Memory>
    ensures { IfOk result (λ name. name ≡ bit_name text.now bit) }
{
    let name = format!(in alloc; "{text}_{bit}")?;
    Name::new(alloc, name.as_str())
}

/// Puts the names of so many bits behind others, from the highest down to bit 0.
fn push_down(alloc: Global, names: &mut Vec<Name>, text: &str, width: u32) -> Result<(), Memory>
    ensures { OnOk result (names.new.items ≡ names.old.items ++ names_down text.now width) }
{
    for place in 0..width {
        names.push(bit_name(alloc, text, (width - 1 - place) as usize)?)?;
    }
    Ok(())
}

/// Puts the names of a signal's bits behind others.
pub(crate) fn push_names(
    alloc: Global,
    names: &mut Vec<Name>,
    signal: &Signal,
) -> Result<(), Memory>
    ensures { OnOk result (names.new.items ≡ names.old.items ++ signal_names (signal_tree signal.now)) }
{
    for element in 0..signal.count {
        let text = stem(alloc, signal, element as usize)?;
        push_down(alloc, names, text.as_str(), signal.width)?;
    }
    Ok(())
}

/// The names of a signal's bits.
pub(crate) fn signal_names(alloc: Global, signal: &Signal) -> Result<Vec<Name>, Memory>
    ensures { IfOk result (λ names. names.items ≡ signal_names (signal_tree signal.now)) }
{
    let mut names = Vec::new(alloc);
    push_names(alloc, &mut names, signal)?;
    Ok(names)
}
