ghost use Rattle.std.specs.Prelude.{◌≡◌, ◌≢◌, true, ℕ, length, map, Err, IfOk};
ghost use Rattle.std.specs.List.{AllByRecursion};
ghost use Rattle.lola_alg.specs.Algebra.{Kept};
ghost use Rattle.lola_alg.specs.Means.{AreKnown, AreWide, HasWidth, IsArray, HasArray, MeansNumber, MeansNumbers, number_at, number_in, with_number};
ghost use Rattle.lola_alg.specs.Steps.{Went, halve_step, first, read_step, is_place_from, write_from};
ghost use Rattle.lola_alg.specs.Gates.{KeptAll, KeptArray, place_here, write_here};

use crate::algebra::{AlgError, Algebra};
use crate::gates::Gate;
use crate::shifts::push_bits;
use crate::vectors::pairs;
use lola_bits::Seq;
use std::alloc::Global;

/// Half of the elements of an array: each second one where a bit is 1, and else the one before it.
fn halved<A: Algebra>(
    alloc: Global,
    alg: &mut A,
    test: A::Bit,
    elements: &[Seq<A::Bit>],
) -> Result<Vec<Seq<A::Bit>>, AlgError>
    requires test { A.meaning.knows (A.state alg.old) test ≡ true }
    requires known { AllByRecursion (AreKnown A.meaning (A.state alg.old)) elements.now }
    requires same { HasWidth elements.now }
    ensures steps { Went (λ v. v.items) (halve_step A.calls test elements.now (A.state alg.old)) (A.state alg.new) result }
    ensures kept { KeptArray A.meaning (λ v. v.items) (A.state alg.old) (A.state alg.new) result }
    ensures wide { (width : ℕ) → AreWide width elements.now → IfOk result (λ v. AreWide width v.items) }
{
    let mut half = Vec::new(alloc);
    for at in 0..elements.len() / 2 {
        let (even, odd) = (elements[2 * at].items(), elements[2 * at + 1].items());
        let chosen = match pairs(alloc, alg, Gate::Choose { test }, odd, even) {
            Ok(chosen) => chosen,
            Err(error) => return Err(error),
        };
        if let Err(_) = half.push(Seq::of(chosen)) {
            return Err(AlgError::Memory);
        }
    }
    Ok(half)
}

/// A bit that is 1 where a place is a number and a bit so far is 1.
fn is_place<A: Algebra>(
    alg: &mut A,
    place: &[A::Bit],
    number: usize,
    first: A::Bit,
) -> Result<A::Bit, AlgError>
    requires place { AreKnown A.meaning (A.state alg.old) place.now }
    requires first { A.meaning.knows (A.state alg.old) first ≡ true }
    ensures steps { Went (λ x. x) (is_place_from A.calls place.now number first (A.state alg.old)) (A.state alg.new) result }
    ensures kept { Kept A.meaning (A.state alg.old) (A.state alg.new) result }
{
    let mut so = first;
    let mut rest = number;
    for at in 0..place.len() {
        so = match with_place(alg, place[at], rest % 2 == 1, so) {
            Ok(so) => so,
            Err(error) => return Err(error),
        };
        rest = rest / 2;
    }
    Ok(so)
}

/// What is so far, and a bit or its negation.
fn with_place<A: Algebra>(
    alg: &mut A,
    bit: A::Bit,
    wanted: bool,
    so: A::Bit,
) -> Result<A::Bit, AlgError>
    requires bit { A.meaning.knows (A.state alg.old) bit ≡ true }
    requires so { A.meaning.knows (A.state alg.old) so ≡ true }
    ensures steps { Went (λ x. x) (place_here A.calls bit wanted so (A.state alg.old)) (A.state alg.new) result }
    ensures kept { Kept A.meaning (A.state alg.old) (A.state alg.new) result }
{
    if wanted {
        alg.and(so, bit)
    } else {
        let other = alg.not(bit);
        alg.and(so, other)
    }
}

/// The element of an array at a place.
fn read<A: Algebra>(
    alloc: Global,
    alg: &mut A,
    elements: &[Seq<A::Bit>],
    place: &[A::Bit],
) -> Result<Vec<A::Bit>, AlgError>
    requires known { AllByRecursion (AreKnown A.meaning (A.state alg.old)) elements.now }
    requires same { HasWidth elements.now }
    requires place { AreKnown A.meaning (A.state alg.old) place.now }
    ensures steps { Went (λ v. v.items) (read_step A.calls elements.now place.now (A.state alg.old)) (A.state alg.new) result }
    ensures kept { KeptAll A.meaning (λ v. v.items) (A.state alg.old) (A.state alg.new) result }
{
    match place.split_first() {
        None => first(alloc, elements),
        Some((bit, rest)) => {
            let half = match halved(alloc, alg, *bit, elements) {
                Ok(half) => half,
                Err(error) => return Err(error),
            };
            narrowed(alloc, alg, half, rest)
        }
    }
}

/// The element at a place of an array that is half made.
fn narrowed<A: Algebra>(
    alloc: Global,
    alg: &mut A,
    elements: Vec<Seq<A::Bit>>,
    place: &[A::Bit],
) -> Result<Vec<A::Bit>, AlgError>
    requires known { AllByRecursion (AreKnown A.meaning (A.state alg.old)) elements.items }
    requires same { HasWidth elements.items }
    requires place { AreKnown A.meaning (A.state alg.old) place.now }
    ensures steps { Went (λ v. v.items) (read_step A.calls elements.items place.now (A.state alg.old)) (A.state alg.new) result }
    ensures kept { KeptAll A.meaning (λ v. v.items) (A.state alg.old) (A.state alg.new) result }
{
    let mut level = elements;
    for at in 0..place.len() {
        level = match halved(alloc, alg, place[at], level.as_slice()) {
            Ok(half) => half,
            Err(error) => return Err(error),
        };
    }
    first(alloc, level.as_slice())
}

/// The first of some elements.
fn first<B: Copy>(alloc: Global, elements: &[Seq<B>]) -> Result<Vec<B>, AlgError>
    ensures ok { IfOk result (λ v. v.items ≡ first elements.now) }
    ensures err { result ≢ Err AlgError.Full }
{
    let mut bits = Vec::new(alloc);
    if let Some(element) = elements.first() {
        if let Err(_) = push_bits(&mut bits, element.items()) {
            return Err(AlgError::Memory);
        }
    }
    Ok(bits)
}

/// The elements of an array, where the one at a place becomes a value.
fn written<A: Algebra>(
    alloc: Global,
    alg: &mut A,
    elements: &[Seq<A::Bit>],
    place: &[A::Bit],
    value: &[A::Bit],
) -> Result<Vec<Seq<A::Bit>>, AlgError>
    requires known { AllByRecursion (AreKnown A.meaning (A.state alg.old)) elements.now }
    requires place { AreKnown A.meaning (A.state alg.old) place.now }
    requires value { AreKnown A.meaning (A.state alg.old) value.now }
    requires same { AreWide (length value.now) elements.now }
    ensures steps { Went (λ v. v.items) (write_from A.calls place.now value.now 0 elements.now (A.state alg.old)) (A.state alg.new) result }
    ensures kept { KeptArray A.meaning (λ v. v.items) (A.state alg.old) (A.state alg.new) result }
{
    let mut made = Vec::new(alloc);
    for at in 0..elements.len() {
        let element = match rewritten(alloc, alg, at, place, value, elements[at].items()) {
            Ok(element) => element,
            Err(error) => return Err(error),
        };
        if let Err(_) = made.push(Seq::of(element)) {
            return Err(AlgError::Memory);
        }
    }
    Ok(made)
}

/// The value where a place is a number, and else the element that stands there.
fn rewritten<A: Algebra>(
    alloc: Global,
    alg: &mut A,
    number: usize,
    place: &[A::Bit],
    value: &[A::Bit],
    old: &[A::Bit],
) -> Result<Vec<A::Bit>, AlgError>
    requires place { AreKnown A.meaning (A.state alg.old) place.now }
    requires value { AreKnown A.meaning (A.state alg.old) value.now }
    requires old { AreKnown A.meaning (A.state alg.old) old.now }
    requires same { length old.now ≡ length value.now }
    ensures steps { Went (λ v. v.items) (write_here A.calls place.now value.now number old.now (A.state alg.old)) (A.state alg.new) result }
    ensures kept { KeptAll A.meaning (λ v. v.items) (A.state alg.old) (A.state alg.new) result }
    ensures long { IfOk result (λ v. length v.items ≡ length value.now) }
{
    let one = alg.constant(true);
    match is_place(alg, place, number, one) {
        Ok(test) => pairs(alloc, alg, Gate::Choose { test }, value, old),
        Err(error) => Err(error),
    }
}

/// The bits of the element at a place of an array, the lowest first: by the steps of reading, in their order.
/// The array has 2 to k elements of one width of 1 to 128 bits, where k, from 1 to 10, is the length of the
/// place. `Full` comes exactly where one of the steps has no place for its gate, and `Memory` for want of memory.
pub fn low_read<A: Algebra>(
    alloc: Global,
    alg: &mut A,
    elements: &[Seq<A::Bit>],
    place: &Seq<A::Bit>,
) -> Result<Seq<A::Bit>, AlgError>
    requires array { HasArray elements.now place.now }
    requires known { AllByRecursion (AreKnown A.meaning (A.state alg.old)) elements.now }
    requires place { AreKnown A.meaning (A.state alg.old) place.now }
    ensures steps { Went (λ v. v) (read_step A.calls elements.now place.now (A.state alg.old)) (A.state alg.new) result }
    ensures means { (width : ℕ) → IsArray elements.now place.now width → IfOk result (λ bits. MeansNumber A.meaning (A.state alg.old) (A.state alg.new) bits width (λ v. number_in (map (number_at A.meaning (A.state alg.old) v) elements.now) (number_at A.meaning (A.state alg.old) v place.now))) }
{
    match read(alloc, alg, elements, place.items()) {
        Ok(bits) => Ok(Seq::of(bits)),
        Err(error) => Err(error),
    }
}

/// The elements of an array, where the one at a place becomes a value of their width: by the steps of writing,
/// in their order. The array has 2 to k elements of one width of 1 to 128 bits, where k, from 1 to 10, is the
/// length of the place. `Full` comes exactly where one of the steps has no place for its gate, and `Memory`
/// for want of memory.
pub fn low_write<A: Algebra>(
    alloc: Global,
    alg: &mut A,
    elements: &[Seq<A::Bit>],
    place: &Seq<A::Bit>,
    value: &Seq<A::Bit>,
) -> Result<Seq<Seq<A::Bit>>, AlgError>
    requires array { IsArray elements.now place.now (length value.now) }
    requires known { AllByRecursion (AreKnown A.meaning (A.state alg.old)) elements.now }
    requires place { AreKnown A.meaning (A.state alg.old) place.now }
    requires value { AreKnown A.meaning (A.state alg.old) value.now }
    ensures steps { Went (λ v. v) (write_from A.calls place.now value.now 0 elements.now (A.state alg.old)) (A.state alg.new) result }
    ensures means { IfOk result (λ made. MeansNumbers A.meaning (A.state alg.old) (A.state alg.new) made (length value.now) (λ v. with_number (map (number_at A.meaning (A.state alg.old) v) elements.now) (number_at A.meaning (A.state alg.old) v place.now) (number_at A.meaning (A.state alg.old) v value.now))) }
{
    match written(alloc, alg, elements, place.items(), value.items()) {
        Ok(made) => Ok(Seq::of(made)),
        Err(error) => Err(error),
    }
}
