ghost use Rattle.std.specs.Prelude.{◌≡◌, ◌≢◌, ◌≤◌, ◌<◌, ◌+◌, ◌-◌, ◌^◌, ◌++◌, length, take, drop, replicate, IfOk, OnOk, Err};
ghost use Rattle.lola_alg.specs.Steps.{Went};
ghost use Rattle.lola_eval.specs.Steps.{number_step, joined_bits};

use lola_alg::{AlgError, Algebra};
use lola_bits::Seq;
use std::alloc::Global;

/// Puts the bits of a slice behind others.
fn push_bits<B: Copy>(bits: &mut Vec<B>, more: &[B]) -> Result<(), AlgError>
    ensures ok { OnOk result (bits.new.items ≡ bits.old.items ++ more.now) }
    ensures err { result ≢ Err AlgError.Full }
{
    for bit in more {
        if let Err(_) = bits.push(*bit) {
            return Err(AlgError::Memory);
        }
    }
    Ok(())
}

/// A copy of some bits.
pub(crate) fn copied<B: Copy>(alloc: Global, more: &[B]) -> Result<Seq<B>, AlgError>
    ensures ok { IfOk result (λ made. made ≡ more.now) }
    ensures err { result ≢ Err AlgError.Full }
{
    let mut bits = Vec::new(alloc);
    match push_bits(&mut bits, more) {
        Ok(()) => Ok(Seq::of(bits)),
        Err(error) => Err(error),
    }
}

/// The bits from `low` to `high`.
pub(crate) fn sliced<B: Copy>(
    alloc: Global,
    bits: &[B],
    high: usize,
    low: usize,
) -> Result<Seq<B>, AlgError>
    requires within { high < length bits.now }
    requires in_order { low ≤ high }
    ensures ok { IfOk result (λ made. made ≡ take (high - low + 1) (drop low bits.now)) }
    ensures err { result ≢ Err AlgError.Full }
{
    let (_, above) = bits.split_at(low);
    let (within, _) = above.split_at(high - low + 1);
    copied(alloc, within)
}

/// Puts vectors behind others, the last of them first.
fn push_joined<B: Copy>(bits: &mut Vec<B>, parts: &[Seq<B>]) -> Result<(), AlgError>
    ensures ok { OnOk result (bits.new.items ≡ bits.old.items ++ joined_bits parts.now) }
    ensures err { result ≢ Err AlgError.Full }
{
    match parts {
        [] => Ok(()),
        [first, rest @ ..] => match push_joined(bits, rest) {
            Ok(()) => push_bits(bits, first.items()),
            Err(error) => Err(error),
        },
    }
}

/// Vectors one behind another, the first the highest.
pub(crate) fn joined<B: Copy>(alloc: Global, parts: &[Seq<B>]) -> Result<Seq<B>, AlgError>
    ensures ok { IfOk result (λ made. made ≡ joined_bits parts.now) }
    ensures err { result ≢ Err AlgError.Full }
{
    let mut bits = Vec::new(alloc);
    match push_joined(&mut bits, parts) {
        Ok(()) => Ok(Seq::of(bits)),
        Err(error) => Err(error),
    }
}

/// A vector so many times, one behind another.
pub(crate) fn repeated<B: Copy>(alloc: Global, part: &[B], times: usize) -> Result<Seq<B>, AlgError>
    ensures ok { IfOk result (λ made. made ≡ joined_bits (replicate times part.now)) }
    ensures err { result ≢ Err AlgError.Full }
{
    let mut bits = Vec::new(alloc);
    for turn in 0..times {
        match push_bits(&mut bits, part) {
            Ok(()) => {}
            Err(error) => return Err(error),
        }
    }
    Ok(Seq::of(bits))
}

/// The bits of a number in a width, the lowest first.
pub(crate) fn number_bits<A: Algebra>(
    alloc: Global,
    alg: &mut A,
    width: usize,
    value: u128,
) -> Result<Seq<A::Bit>, AlgError>
    ensures steps { Went (λ v. v) (number_step A.calls width value (A.state alg.old)) (A.state alg.new) result }
{
    let mut bits = Vec::new(alloc);
    let mut rest = value;
    for place in 0..width {
        let bit = alg.constant(rest % 2 == 1);
        if let Err(_) = bits.push(bit) {
            return Err(AlgError::Memory);
        }
        rest /= 2;
    }
    Ok(Seq::of(bits))
}
