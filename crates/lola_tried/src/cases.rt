// What a cycle of the sample leaves free, and the cycles of its cases.
ghost use Rattle.std.specs.Prelude.{◌<◌, [], ◌∷◌, IfOk};
ghost use Rattle.lola_cases.specs.Cases.{AreWithin};

use crate::sample::sample;
use lola_bits::{Memory, Seq};
use lola_cases::{Cycle, FreeElement, behind, element_names, free_elements};
use lola_flat::sample_is_formed;
use std::alloc::Global;
use std::test::Fail;

/// A bit as a number.
fn number(bit: bool) -> u128
    ensures { result < 2 }
{
    if bit { 1 } else { 0 }
}

/// The numbers of a, the outside value of p, r and the elements of R.
fn case(alloc: Global, bits: [bool; 5]) -> Result<Vec<u128>, Memory>
    ensures { IfOk result (λ made. AreWithin (1 ∷ 1 ∷ 1 ∷ 1 ∷ 1 ∷ []) made.items) }
{
    let mut made = Vec::new(alloc);
    made.push(number(bits[0]))?;
    made.push(number(bits[1]))?;
    made.push(number(bits[2]))?;
    made.push(number(bits[3]))?;
    made.push(number(bits[4]))?;
    Ok(made)
}

/// The cycle of a case of the sample.
fn cycle(alloc: Global, bits: [bool; 5]) -> Result<Cycle, Memory> {
    sample_is_formed();
    let flat = sample(alloc)?;
    let numbers = case(alloc, bits)?;
    behind(alloc, &flat, numbers.as_slice())
}

/// Whether rows of numbers are these.
fn are(rows: &[Seq<u128>], expected: &[&[u128]]) -> bool {
    if rows.len() != expected.len() {
        return false;
    }
    for at in 0..rows.len() {
        if rows[at].items() != expected[at] {
            return false;
        }
    }
    true
}

// The clock isn't free, and of the wire nothing is.
#[test]
fn all_but_clock_and_wire_is_free(rt: HostRuntime) -> Result<(), Fail> {
    sample_is_formed();
    let flat = sample(rt.alloc())?;
    let free = free_elements(rt.alloc(), &flat)?;
    let expected = [(1, 0), (2, 0), (4, 0), (5, 0), (5, 1)];
    assert!(&rt; free.len() == expected.len());
    for at in 0..expected.len() {
        let (signal, element) = expected[at];
        let wanted = FreeElement {
            signal,
            element,
            width: 1,
        };
        assert!(&rt; free[at] == wanted);
    }
    Ok(())
}

#[test]
fn elements_of_an_array_have_numbers_in_brackets(rt: HostRuntime) -> Result<(), Fail> {
    sample_is_formed();
    let flat = sample(rt.alloc())?;
    let free = free_elements(rt.alloc(), &flat)?;
    let names = element_names(rt.alloc(), &flat, free.as_slice())?;
    let expected = ["a", "p", "r", "R[0]", "R[1]"];
    assert!(&rt; names.len() == expected.len());
    for at in 0..expected.len() {
        assert!(&rt; names[at].as_str() == expected[at]);
    }
    Ok(())
}

// a is 0, so p carries r, which is 1, and w is 1: r becomes R[1], and 1 is written to R[0].
#[test]
fn a_pad_carries_what_drives_it(rt: HostRuntime) -> Result<(), Fail> {
    let made = cycle(rt.alloc(), [false, false, true, false, true])?;
    let signals: [&[u128]; 6] = [&[], &[0], &[1], &[1], &[1], &[0, 1]];
    assert!(&rt; are(made.signals.as_slice(), signals.as_slice()));
    let state: [&[u128]; 6] = [&[], &[], &[], &[], &[1], &[1, 1]];
    assert!(&rt; are(made.state.as_slice(), state.as_slice()));
    Ok(())
}

// a is 1, so p carries the outside value, which is 0, and w is 0: r becomes R[0], and 0 is written to R[1].
#[test]
fn a_released_pad_carries_the_outside_value(rt: HostRuntime) -> Result<(), Fail> {
    let made = cycle(rt.alloc(), [true, false, true, true, true])?;
    let signals: [&[u128]; 6] = [&[], &[1], &[0], &[0], &[1], &[1, 1]];
    assert!(&rt; are(made.signals.as_slice(), signals.as_slice()));
    let state: [&[u128]; 6] = [&[], &[], &[], &[], &[1], &[1, 0]];
    assert!(&rt; are(made.state.as_slice(), state.as_slice()));
    Ok(())
}
