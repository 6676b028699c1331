ghost use Rattle.std.specs.Prelude.{◌≡◌, ◌≤◌, ◌∷◌, IfOk, map, length, reverse};
ghost use Rattle.lola_tree.specs.Tree.{source_tree};
ghost use Rattle.lola_design.specs.Once.{AllOnce};
ghost use Rattle.lola_flat.specs.Tree.{flat_tree};
ghost use Rattle.lola_unfold.specs.Finished.{dotted, name_at, IsAnswer, IsOrdered, Answers};

use crate::laws::flat_uses;
use crate::measure::extent_of;
use crate::root::unordered;
use crate::uses::graph_of;
use lola_bits::{Memory, Name, Seq};
use lola_flat::{Flat, Signal};
use lola_order::{Ordered, order};
use lola_tree::Source;
use std::alloc::Global;

/// Why a source has no flat design.
#[derive(Debug, Drop)]
pub enum ElabError {
    /// Modules stand more than 64 deep, so many.
    TooDeep { height: u32 },
    /// The signals, each element of an array counted, and the instances are more than 65,536.
    TooMany,
    /// A closed chain of signals goes through their equations: the paths of its signals with dots, each of
    /// which occurs in the equation of the next, from the earliest on.
    Loop { names: Seq<Name> },
    /// There isn't enough memory.
    Memory,
}

/// A name with more names behind it, a dot before each.
fn dotted_from(alloc: Global, first: &Name, more: &[Name]) -> Result<Name, Memory>
    ensures { IfOk result (λ name. name ≡ dotted (first.now ∷ more.now)) }
{
    let mut text = String::from_str(alloc, first.text())?;
    for name in more {
        text.push_str(".")?;
        text.push_str(name.text())?;
    }
    Name::new(alloc, text.as_str())
}

/// A path with dots.
fn dotted(alloc: Global, path: &[Name]) -> Result<Name, Memory>
    ensures { IfOk result (λ name. name ≡ dotted path.now) }
{
    match path {
        [] => Name::new(alloc, ""),
        [first, more @ ..] => dotted_from(alloc, first, more),
    }
}

/// The path of a signal with dots.
fn name_at(alloc: Global, signals: &[Signal], number: u32) -> Result<Name, Memory>
    ensures { IfOk result (λ name. name ≡ name_at signals.now number) }
{
    match signals.get(number as usize) {
        Some(signal) => dotted(alloc, signal.path.items()),
        None => Name::new(alloc, ""),
    }
}

/// Those of several.
fn names_at(alloc: Global, signals: &[Signal], numbers: &[u32]) -> Result<Seq<Name>, Memory>
    ensures { IfOk result (λ names. names ≡ map (name_at signals.now) numbers.now) }
{
    let mut names = Seq::new(alloc);
    for number in numbers {
        names.push(name_at(alloc, signals, *number)?)?;
    }
    Ok(names)
}

/// The answer for a flat design whose equations have an order, or a loop.
pub(crate) fn answered(alloc: Global, flat: Flat, found: Ordered) -> Result<Flat, ElabError>
    ensures { IsAnswer flat found result }
{
    match found {
        Ordered::Order { order } => Ok(Flat {
            root: flat.root,
            clock: flat.clock,
            ports: flat.ports,
            signals: flat.signals,
            order,
        }),
        Ordered::Loop { names } => {
            match names_at(alloc, flat.signals.items(), names.items()) {
                Ok(names) => Err(ElabError::Loop { names }),
                Err(_) => Err(ElabError::Memory),
            }
        }
    }
}

/// The order of the equations of a flat design, or a loop.
pub(crate) fn order_of(alloc: Global, flat: &Flat) -> Result<Ordered, Memory>
    requires { length flat.now.signals ≤ 65536 }
    ensures { IfOk result (IsOrdered (flat_tree flat.now)) }
{
    let graph = graph_of(alloc, flat.signals.items())?;
    order(alloc, graph.as_slice())
}

/// The flat design of a source: each of its signals, with what gives it its value or its next value over the
/// numbers of signals, and the order of its equations. TooDeep comes exactly where modules stand more than 64
/// deep; TooMany exactly where they don't and the signals, each element of an array counted, and the instances are
/// more than 65,536 together; Loop exactly where none of this holds and a closed chain of signals goes through
/// their equations. Modules are looked at once, so time and memory grow with the signals and what they hold. That
/// no module declares a name twice is a law of well sized sources.
pub fn elaborate(alloc: Global, source: &Source) -> Result<Flat, ElabError>
    requires { AllOnce (reverse (source_tree source.now).modules) }
    ensures { Answers (source_tree source.now) result }
{
    flat_uses();
    let extent = match extent_of(alloc, source) {
        Ok(extent) => extent,
        Err(_) => return Err(ElabError::Memory),
    };
    if extent.height > 64 {
        return Err(ElabError::TooDeep {
            height: extent.height,
        });
    }
    if extent.size > 65536 {
        return Err(ElabError::TooMany);
    }
    let flat = match unordered(alloc, source) {
        Ok(flat) => flat,
        Err(_) => return Err(ElabError::Memory),
    };
    let found = match order_of(alloc, &flat) {
        Ok(found) => found,
        Err(_) => return Err(ElabError::Memory),
    };
    answered(alloc, flat, found)
}
