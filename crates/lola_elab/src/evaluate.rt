ghost use Rattle.std.specs.Prelude.{◌≡◌, ◌+◌, ◌-◌, ◌*◌, ◌≤◌, ◌<◌, ◌^◌, Bool, List, map, length, IfOk};
ghost use Rattle.lola_bits.specs.Number.{slice_of, joined};
ghost use Rattle.lola_bits.specs.BitLists.{number_of};
ghost use Rattle.lola_tree.specs.Value.{repeated};
ghost use Rattle.lola_alg.specs.Means.{Suits, op_width, op_works, op_number};
ghost use Rattle.lola_elab.specs.Flat.{HasWidth, PartsHaveWidths};
ghost use Rattle.lola_elab.specs.Evaluated.{IsNumber, IsEvaluated};

use crate::flat::Flat;
use lola_alg::{Plain, low_op};
use lola_bits::{Memory, Op, Seq};
use std::alloc::Global;

/// The bits of a number in a width, the lowest first.
#[tactic(auto, using(crate::proofs::Evaluates::all_bits, crate::proofs::Evaluates::one_bit_more))]
pub fn number_bits(alloc: Global, width: usize, value: u128) -> Result<Seq<bool>, Memory>
    requires { value < 2 ^ width }
    ensures { IfOk result (λ bits. IsNumber bits width value) }
{
    let mut bits = Vec::new(alloc);
    let mut rest = value;
    for _place in 0..width {
        bits.push(rest % 2 == 1)?;
        rest /= 2;
    }
    Ok(Seq::of(bits))
}

/// A copy of some bits.
fn copied(alloc: Global, bits: &[bool]) -> Result<Seq<bool>, Memory>
    ensures { IfOk result (λ made. made ≡ bits.now) }
{
    Ok(Seq::of(Vec::from_slice(alloc, bits)?))
}

/// The bits from `low` to `high`, counted from 0.
#[tactic(auto, using(crate::proofs::Evaluates::slice_number))]
fn sliced(alloc: Global, bits: &[bool], high: usize, low: usize) -> Result<Seq<bool>, Memory>
    requires within { high < length bits.now }
    requires in_order { low ≤ high }
    ensures { IfOk result (λ made. IsNumber made (high - low + 1) (slice_of (number_of bits.now) high low)) }
{
    let (_, above) = bits.split_at(low);
    let (within, _) = above.split_at(high - low + 1);
    copied(alloc, within)
}

/// The bits of two vectors, of which the second is the lower.
#[tactic(auto, using(crate::proofs::Evaluates::join_number))]
fn joined(alloc: Global, high: &[bool], low: &[bool]) -> Result<Seq<bool>, Memory>
    ensures { IfOk result (λ made. IsNumber made (length high.now + length low.now) (joined (number_of high.now) (length low.now) (number_of low.now))) }
{
    let mut bits = Vec::new(alloc);
    bits.extend_from_slice(low)?;
    bits.extend_from_slice(high)?;
    Ok(Seq::of(bits))
}

/// The bits of a vector so many times.
#[tactic(auto, using(crate::proofs::Evaluates::one_copy_more, crate::proofs::Evaluates::copies_number))]
fn repeated(alloc: Global, part: &[bool], times: usize) -> Result<Seq<bool>, Memory>
    ensures { IfOk result (λ made. IsNumber made (times * length part.now) (repeated times (length part.now) (number_of part.now))) }
{
    let mut bits = Vec::new(alloc);
    for _time in 0..times {
        bits.extend_from_slice(part)?;
    }
    Ok(Seq::of(bits))
}

/// What an operator makes of vectors that suit it. No lowering over `Plain` is ever full.
#[tactic(auto, using(crate::proofs::Evaluates::all_known, crate::proofs::Evaluates::op_bits))]
fn operated(alloc: Global, op: Op, args: &[Seq<bool>]) -> Result<Seq<bool>, Memory>
    requires { Suits op (map length args.now) }
    ensures { IfOk result (λ made. IsNumber made (op_width op (map length args.now)) (op_number op (op_works op (map length args.now)) (map number_of args.now))) }
{
    match low_op(alloc, &mut Plain, op, args) {
        Ok(bits) => Ok(bits),
        Err(_) => Err(Memory),
    }
}

/// What an expression with a width is made of has widths.
fn parts_have_widths(flat: &Flat, leaves: &[Seq<bool>])
    requires { HasWidth (map length leaves.now) flat.now }
    ensures { PartsHaveWidths (map length leaves.now) flat.now }
{}

/// The bits of an expression, the lowest first, where the leaves have these bits in order. Only want of
/// memory is an error.
#[tactic(auto, using(crate::proofs::Evaluates::number_below, crate::proofs::Evaluates::number_evaluated, crate::proofs::Evaluates::leaf_within, crate::proofs::Evaluates::slice_within, crate::proofs::Evaluates::slice_evaluated, crate::proofs::Evaluates::join_evaluated, crate::proofs::Evaluates::repeat_evaluated, crate::proofs::Evaluates::not_suits, crate::proofs::Evaluates::not_evaluated, crate::proofs::Evaluates::both_suits, crate::proofs::Evaluates::both_evaluated, crate::proofs::Evaluates::choice_suits, crate::proofs::Evaluates::choice_evaluated))]
pub fn flat_bits(alloc: Global, flat: &Flat, leaves: &[Seq<bool>]) -> Result<Seq<bool>, Memory>
    requires { HasWidth (map length leaves.now) flat.now }
    ensures { IfOk result (λ bits. IsEvaluated flat.now leaves.now bits) }
{
    parts_have_widths(flat, leaves);
    match flat {
        Flat::Number { width, value } => number_bits(alloc, *width, *value),
        Flat::Leaf { number } => copied(alloc, leaves[*number].items()),
        Flat::Slice { of, high, low } => {
            let of = flat_bits(alloc, of, leaves)?;
            sliced(alloc, of.items(), *high, *low)
        }
        Flat::Join { high, low } => {
            let high = flat_bits(alloc, high, leaves)?;
            let low = flat_bits(alloc, low, leaves)?;
            joined(alloc, high.items(), low.items())
        }
        Flat::Repeat { part, times } => {
            let part = flat_bits(alloc, part, leaves)?;
            repeated(alloc, part.items(), *times)
        }
        Flat::Not { arg } => {
            let args = [flat_bits(alloc, arg, leaves)?];
            operated(alloc, Op::Not, &args)
        }
        Flat::Both { op, left, right } => {
            let args = [
                flat_bits(alloc, left, leaves)?,
                flat_bits(alloc, right, leaves)?,
            ];
            operated(alloc, *op, &args)
        }
        Flat::Choice { test, yes, no } => {
            let args = [
                flat_bits(alloc, test, leaves)?,
                flat_bits(alloc, yes, leaves)?,
                flat_bits(alloc, no, leaves)?,
            ];
            operated(alloc, Op::Mux, &args)
        }
    }
}
