ghost use Rattle.std.specs.Prelude.{◌≡◌, ◌++◌, [], ◌∷◌, nat_eq, false, map, length, slice_index_or, Some, IfOk, OnOk};
ghost use Rattle.lola_bits.specs.BitLists.{number_of};
ghost use Rattle.lola_elab.specs.declared.flat.Flat.{Flat as Formula};
ghost use Rattle.lola_elab.specs.declared.vector.Vector.{Vector as Sized};
ghost use Rattle.lola_elab.specs.Elaborated.{vector_widths};
ghost use Rattle.lola_elab.specs.Flat.{flat_width, flat_number};
ghost use Rattle.lola_elab.specs.Logic.{bit_number};
ghost use Rattle.lola_app.specs.Cycle.{AreVectors, AreVectorsOf};
ghost use Rattle.lola_app.specs.Trial.{with_reset, but_one, seen, leaves_after, IsTriable};
ghost use Rattle.lola_app.specs.Valuations.{AreWithin};

use crate::subject::Subject;
use lola_bits::{Memory, Seq};
use lola_elab::{Flat, Vector, flat_bits, number_bits};
use std::alloc::{AllocError, Global};

/// The bits of all vectors of a design, the lowest first: those of the free vectors' numbers, with
/// RESET's value at its place.
pub fn vectors_with(
    alloc: Global,
    subject: &Subject,
    value: bool,
    numbers: &[u32],
) -> Result<Vec<Seq<bool>>, Memory>
    requires triable { IsTriable subject.now }
    requires within { AreWithin (but_one subject.now.reset (vector_widths subject.now.design.inputs.items) (vector_widths subject.now.design.registers.items)) numbers.now }
    ensures { IfOk result (λ vectors. AreVectorsOf subject.now (with_reset subject.now.reset (bit_number value) numbers.now) vectors.items) }
{
    let all = numbers_with(alloc, subject.reset, value, numbers)?;
    number_vectors(alloc, subject.widths.as_slice(), all.as_slice())
}

/// The numbers of all vectors: the free ones, with RESET's value at its place.
fn numbers_with(
    alloc: Global,
    reset: usize,
    value: bool,
    numbers: &[u32],
) -> Result<Vec<u32>, AllocError>
    ensures { IfOk result (λ all. all.items ≡ with_reset reset (bit_number value) numbers.now) }
{
    let mut all = Vec::new(alloc);
    let (front, back) = numbers.split_at(reset.min(numbers.len()));
    all.extend_from_slice(front)?;
    all.push(if value { 1u32 } else { 0u32 })?;
    all.extend_from_slice(back)?;
    Ok(all)
}

/// The bits of numbers in their widths.
fn number_vectors(
    alloc: Global,
    widths: &[usize],
    numbers: &[u32],
) -> Result<Vec<Seq<bool>>, Memory>
    requires { AreWithin widths.now numbers.now }
    ensures { IfOk result (λ vectors. AreVectors widths.now numbers.now vectors.items) }
{
    let mut vectors = Vec::new(alloc);
    for (place, number) in numbers.iter().enumerate() {
        vectors.push(number_bits(alloc, widths[place], *number as u128)?)?;
    }
    Ok(vectors)
}

/// The leaves that a claim is over, before the clock edge: the bits of the vectors of one bit.
pub fn leaves_before(alloc: Global, vectors: &[Seq<bool>]) -> Result<Vec<bool>, AllocError>
    ensures { IfOk result (λ before. before.items ≡ seen (map length vectors.now) (map number_of vectors.now)) }
{
    let mut before = Vec::new(alloc);
    for vector in vectors {
        if vector.items().len() == 1 {
            before.push(vector.items()[0])?;
        }
    }
    Ok(before)
}

/// The leaves behind the clock edge: the inputs as they were, and the registers' next values.
pub fn leaves_after(
    alloc: Global,
    subject: &Subject,
    vectors: &[Seq<bool>],
    before: &[bool],
) -> Result<Vec<bool>, Memory>
    requires triable { IsTriable subject.now }
    requires sized { map length vectors.now ≡ subject.now.widths.items }
    requires before { before.now ≡ seen (map length vectors.now) (map number_of vectors.now) }
    ensures { IfOk result (λ after. after.items ≡ leaves_after subject.now (map number_of vectors.now)) }
{
    let mut after = Vec::new(alloc);
    let inputs = subject.claim.face.inputs.as_slice().len();
    let (front, _) = before.split_at(inputs.min(before.len()));
    after.extend_from_slice(front)?;
    push_nexts(
        alloc,
        &mut after,
        subject.design.registers.as_slice(),
        subject.design.nexts.as_slice(),
        vectors,
    )?;
    Ok(after)
}

/// Adds the next values of the registers of one bit.
fn push_nexts(
    alloc: Global,
    after: &mut Vec<bool>,
    registers: &[Vector],
    nexts: &[Flat],
    vectors: &[Seq<bool>],
) -> Result<(), Memory>
    requires { map (flat_width (map length vectors.now)) nexts.now ≡ map (λ (v : Sized). Some v.width) registers.now }
    ensures { OnOk result (after.new.items ≡ after.old.items ++ seen (vector_widths registers.now) (map (λ (f : Formula). flat_number (map length vectors.now) f (map number_of vectors.now)) nexts.now)) }
{
    for (place, register) in registers.iter().enumerate() {
        push_next(alloc, after, register, &nexts[place], vectors)?;
    }
    Ok(())
}

/// Adds the next value of a register, where that is one bit.
fn push_next(
    alloc: Global,
    after: &mut Vec<bool>,
    register: &Vector,
    next: &Flat,
    vectors: &[Seq<bool>],
) -> Result<(), Memory>
    requires { flat_width (map length vectors.now) next.now ≡ Some register.now.width }
    ensures { OnOk result (after.new.items ≡ after.old.items ++ seen (register.now.width ∷ []) (flat_number (map length vectors.now) next.now (map number_of vectors.now) ∷ [])) }
{
    if register.width != 1 {
        return Ok(());
    }
    after.push(one_bit(alloc, next, vectors)?)?;
    Ok(())
}

/// The value of one leaf behind the clock edge.
pub fn leaf_after(
    alloc: Global,
    subject: &Subject,
    vectors: &[Seq<bool>],
    before: &[bool],
    leaf: usize,
) -> Result<bool, Memory>
    requires triable { IsTriable subject.now }
    requires sized { map length vectors.now ≡ subject.now.widths.items }
    requires before { before.now ≡ seen (map length vectors.now) (map number_of vectors.now) }
    ensures { IfOk result (λ bit. bit ≡ slice_index_or (leaves_after subject.now (map number_of vectors.now)) leaf false) }
{
    let inputs = subject.claim.face.inputs.as_slice().len().min(before.len());
    if leaf < inputs {
        return Ok(before[leaf]);
    }
    let bit = next_bit(
        alloc,
        subject.design.registers.as_slice(),
        subject.design.nexts.as_slice(),
        vectors,
        leaf - inputs,
    )?;
    Ok(bit)
}

/// The next value of a register of one bit, by its place among those.
fn next_bit(
    alloc: Global,
    registers: &[Vector],
    nexts: &[Flat],
    vectors: &[Seq<bool>],
    bit: usize,
) -> Result<bool, Memory>
    requires { map (flat_width (map length vectors.now)) nexts.now ≡ map (λ (v : Sized). Some v.width) registers.now }
    ensures { IfOk result (λ value. value ≡ slice_index_or (seen (vector_widths registers.now) (map (λ (f : Formula). flat_number (map length vectors.now) f (map number_of vectors.now)) nexts.now)) bit false) }
{
    let mut left = bit;
    for (place, register) in registers.iter().enumerate() {
        if register.width == 1 {
            if left == 0 {
                return one_bit(alloc, &nexts[place], vectors);
            }
            left -= 1;
        }
    }
    Ok(false)
}

/// The one bit of an expression.
fn one_bit(alloc: Global, flat: &Flat, vectors: &[Seq<bool>]) -> Result<bool, Memory>
    requires { flat_width (map length vectors.now) flat.now ≡ Some 1 }
    ensures { IfOk result (λ bit. bit ≡ nat_eq (flat_number (map length vectors.now) flat.now (map number_of vectors.now)) 1) }
{
    let bits = flat_bits(alloc, flat, vectors)?;
    Ok(bits.items()[0])
}
