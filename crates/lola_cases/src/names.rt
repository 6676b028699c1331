ghost use Rattle.std.specs.Prelude.{◌≡◌, ◌++◌, map, string_bytes, IfOk, OnOk};
ghost use Rattle.lola_flat.specs.Tree.{flat_tree, signal_tree};
ghost use Rattle.lola_cases.specs.Free.{dotted, dotted_behind, bracketed, name_of};

use crate::free::FreeElement;
use lola_bits::{Memory, Name};
use lola_flat::{Flat, Signal};
use std::alloc::{AllocError, Global};

/// Puts names behind a text, each behind a dot.
fn push_dotted(text: &mut String, path: &[Name]) -> Result<(), AllocError>
    ensures { OnOk result (string_bytes text.new ≡ string_bytes text.old ++ dotted_behind path.now) }
{
    for name in path {
        text.push_str(".")?;
        text.push_str(name.text())?;
    }
    Ok(())
}

/// A path as its names with a dot between two.
fn dotted(alloc: Global, path: &[Name]) -> Result<String, AllocError>
    ensures { IfOk result (λ text. string_bytes text ≡ dotted path.now) }
{
    match path {
        [] => Ok(String::new(alloc)),
        [first, more @ ..] => {
            let mut text = String::from_str(alloc, first.text())?;
            push_dotted(&mut text, more)?;
            Ok(text)
        }
    }
}

/// The name of an element of a signal.
fn signal_name(alloc: Global, signal: &Signal, element: u32) -> Result<String, AllocError>
    ensures { IfOk result (λ name. string_bytes name ≡ dotted signal.now.path ++ bracketed (signal_tree signal.now).place element) }
{
    let path = dotted(alloc, signal.path.items())?;
    match &signal.place {
        Some(_) => format!(in alloc; "{path}[{element}]"),
        None => Ok(path),
    }
}

/// The name that an element of a design is printed under: the names of its path with a dot between two, and
/// behind that of an array the element's number in brackets, as `u.R[3]`. It is empty where the design has no
/// signal of this number.
pub fn element_name(alloc: Global, flat: &Flat, element: FreeElement) -> Result<String, Memory>
    ensures { IfOk result (λ name. string_bytes name ≡ name_of (flat_tree flat.now) element) }
{
    match flat.signals.items().get(element.signal as usize) {
        Some(signal) => Ok(signal_name(alloc, signal, element.element)?),
        None => Ok(String::new(alloc)),
    }
}

/// The names of elements of a design, in their order.
pub fn element_names(
    alloc: Global,
    flat: &Flat,
    elements: &[FreeElement],
) -> Result<Vec<String>, Memory>
    ensures { IfOk result (λ names. map string_bytes names.items ≡ map (name_of (flat_tree flat.now)) elements.now) }
{
    let mut names = Vec::new(alloc);
    for element in elements {
        names.push(element_name(alloc, flat, *element)?)?;
    }
    Ok(names)
}
