ghost use Rattle.std.specs.Prelude.{◌≡◌, ◌<◌, ◌^◌, get_or, IfOk};
ghost use Rattle.std.specs.List.{AllByRecursion};
ghost use Rattle.lola_flat.specs.Tree.{flat_tree};
ghost use Rattle.lola_flat.specs.Formed.{IsFormed};
ghost use Rattle.lola_cases.specs.Cases.{IsCase, elements_in, outside_in};
ghost use Rattle.lola_cases.specs.Bits.{HasNumber, HaveNumbers, outside_width, AreBitsOf};

use crate::free::free_count;
use lola_bits::{Memory, Seq};
use lola_flat::{Flat, SigKind};
use std::alloc::Global;

/// The bits that a cycle is given: the vectors of the elements of each signal, and for each pad a vector from
/// outside, by the numbers of signals. For signals that are given none, nothing stands there.
#[derive(Debug, Drop)]
pub struct CaseBits {
    pub given: Vec<Seq<Seq<bool>>>,
    pub outside: Vec<Seq<bool>>,
}

/// The bits of a number in a width, the lowest first.
fn number_bits(alloc: Global, width: u32, number: u128) -> Result<Seq<bool>, Memory>
    requires { number < 2 ^ width }
    ensures { IfOk result (λ bits. HasNumber width number bits) }
{
    let mut bits = Vec::new(alloc);
    let mut rest = number;
    for place in 0..width {
        bits.push(rest % 2 == 1)?;
        rest /= 2;
    }
    Ok(Seq::of(bits))
}

/// The bits of numbers in a width.
fn vectors(alloc: Global, width: u32, numbers: &[u128]) -> Result<Seq<Seq<bool>>, Memory>
    requires { AllByRecursion (λ n. n < 2 ^ width) numbers.now }
    ensures { IfOk result (λ made. HaveNumbers width numbers.now made) }
{
    let mut made = Vec::new(alloc);
    for at in 0..numbers.len() {
        made.push(number_bits(alloc, width, numbers[at])?)?;
    }
    Ok(Seq::of(made))
}

/// The vectors that a signal is given of its share of the numbers.
fn given_row(
    alloc: Global,
    kind: SigKind,
    width: u32,
    share: &[u128],
) -> Result<Seq<Seq<bool>>, Memory>
    requires { AllByRecursion (λ n. n < 2 ^ width) share.now }
    ensures { IfOk result (λ made. HaveNumbers width (elements_in kind share.now) made) }
{
    match kind {
        SigKind::Input => vectors(alloc, width, share),
        SigKind::Register => vectors(alloc, width, share),
        SigKind::Pad => Ok(Seq::new(alloc)),
        SigKind::Wire => Ok(Seq::new(alloc)),
    }
}

/// The first of a share of the numbers.
fn first_of(share: &[u128]) -> u128
    ensures { result ≡ get_or share.now 0 0 }
{
    match share {
        [] => 0,
        [first, ..] => *first,
    }
}

/// The vector that a pad is given from outside, of its share of the numbers; other signals are given none.
fn outside_row(
    alloc: Global,
    kind: SigKind,
    width: u32,
    share: &[u128],
) -> Result<Seq<bool>, Memory>
    requires { AllByRecursion (λ n. n < 2 ^ width) share.now }
    ensures { IfOk result (λ bits. HasNumber (outside_width kind width) (outside_in kind share.now) bits) }
{
    match kind {
        SigKind::Pad => number_bits(alloc, width, first_of(share)),
        SigKind::Input => Ok(Seq::new(alloc)),
        SigKind::Register => Ok(Seq::new(alloc)),
        SigKind::Wire => Ok(Seq::new(alloc)),
    }
}

/// The bits of a case of a well formed design: what it gives to inputs and registers, and to pads from outside.
pub fn case_bits(alloc: Global, flat: &Flat, numbers: &[u128]) -> Result<CaseBits, Memory>
    requires formed { IsFormed (flat_tree flat.now) }
    requires case { IsCase (flat_tree flat.now) numbers.now }
    ensures { IfOk result (λ made. AreBitsOf (flat_tree flat.now) numbers.now made) }
{
    let mut given = Vec::new(alloc);
    let mut outside = Vec::new(alloc);
    let mut rest = numbers;
    let signals = flat.signals.items();
    for at in 0..signals.len() {
        let signal = &signals[at];
        let (share, later) = rest.split_at(free_count(flat, signal) as usize);
        given.push(given_row(alloc, signal.kind, signal.width, share)?)?;
        outside.push(outside_row(alloc, signal.kind, signal.width, share)?)?;
        rest = later;
    }
    Ok(CaseBits { given, outside })
}
