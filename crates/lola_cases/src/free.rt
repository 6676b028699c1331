ghost use Rattle.std.specs.Prelude.{◌≡◌, ◌<◌, ◌^◌, ◌++◌, length, map, IfOk, OnOk};
ghost use Rattle.lola_flat.specs.Numbers.{first_numbers};
ghost use Rattle.lola_flat.specs.Tree.{flat_tree, signal_tree};
ghost use Rattle.lola_flat.specs.Formed.{IsFormed};
ghost use Rattle.lola_cases.specs.Free.{is_alone, is_clock, free_count, element_of, free_elements, widths};

use lola_bits::{Memory, Name};
use lola_flat::{Flat, SigKind, Signal};
use std::alloc::{AllocError, Global};

/// What a cycle leaves free: the value of an input but the clock, the value that a pad is given from outside,
/// or an element of a register. It has the number of the signal, that of the element, which is 0 where the
/// signal is no array, and the width in bits.
#[derive(Clone, Copy, Debug, PartialEq, Eq)]
pub struct FreeElement {
    pub signal: u32,
    pub element: u32,
    pub width: u32,
}

/// Whether a path is one name alone.
fn is_alone(path: &[Name], name: &Name) -> bool
    ensures { result ≡ is_alone path.now name.now }
{
    match path {
        [] => false,
        [first, more @ ..] => more.is_empty() && first.text() == name.text(),
    }
}

/// Whether a signal is the clock.
fn is_clock(flat: &Flat, signal: &Signal) -> bool
    ensures { result ≡ is_clock (flat_tree flat.now) (signal_tree signal.now) }
{
    match &flat.clock {
        Some(name) => is_alone(signal.path.items(), name),
        None => false,
    }
}

/// How many numbers a cycle is given for a signal: one for each element of an input but the clock and of a
/// register, one for a pad, and none for a wire.
pub fn free_count(flat: &Flat, signal: &Signal) -> u32
    ensures { result ≡ free_count (flat_tree flat.now) (signal_tree signal.now) }
{
    match signal.kind {
        SigKind::Input => {
            if is_clock(flat, signal) {
                0
            } else {
                signal.count
            }
        }
        SigKind::Register => signal.count,
        SigKind::Pad => 1,
        SigKind::Wire => 0,
    }
}

/// Puts elements of a signal, as many as there are, behind others.
fn push_elements(
    free: &mut Vec<FreeElement>,
    signal: u32,
    width: u32,
    count: u32,
) -> Result<(), AllocError>
    ensures { OnOk result (free.new.items ≡ free.old.items ++ map (element_of signal width) (first_numbers count)) }
{
    for element in 0..count {
        free.push(FreeElement {
            signal,
            element,
            width,
        })?;
    }
    Ok(())
}

/// A signal's number of a well formed design fits 32 bits.
fn number_fits(flat: &Flat, number: usize)
    requires formed { IsFormed (flat_tree flat.now) }
    requires within { number < length flat.now.signals }
    ensures { number < 2 ^ 32 }
{}

/// What a cycle of a design leaves free, in the order of signals and of their elements.
pub fn free_elements(alloc: Global, flat: &Flat) -> Result<Vec<FreeElement>, Memory>
    requires { IsFormed (flat_tree flat.now) }
    ensures { IfOk result (λ free. free.items ≡ free_elements (flat_tree flat.now)) }
{
    let mut free = Vec::new(alloc);
    let signals = flat.signals.items();
    for number in 0..signals.len() {
        let signal = &signals[number];
        number_fits(flat, number);
        push_elements(
            &mut free,
            number as u32,
            signal.width,
            free_count(flat, signal),
        )?;
    }
    Ok(free)
}

/// The widths in bits of what is free.
pub fn free_widths(alloc: Global, elements: &[FreeElement]) -> Result<Vec<u32>, Memory>
    ensures { IfOk result (λ made. made.items ≡ widths elements.now) }
{
    let mut widths = Vec::new(alloc);
    for element in elements {
        widths.push(element.width)?;
    }
    Ok(widths)
}
