ghost use Rattle.std.specs.Prelude.{◌≡◌, true, length, IfOk};
ghost use Rattle.lola_alg.specs.Algebra.{Kept};
ghost use Rattle.lola_alg.specs.Means.{AreKnown};
ghost use Rattle.lola_alg.specs.Steps.{Went, adder_step, carry_step, fold_step, sum_step, difference_step};
ghost use Rattle.lola_alg.specs.Gates.{fold_of, compare_step, KeptAll, KeptTwo};

use crate::algebra::{AlgError, Algebra};
use crate::gates::{choose, differ, either};
use crate::vectors::negations;
use std::alloc::Global;

/// What a walk over two vectors looks for.
#[derive(Clone, Copy)]
pub(crate) enum Fold {
    /// That they are equal.
    Equal,
    /// That the first is less.
    Less,
}

/// The sum of two bits and a carry, and the carry that it makes.
fn added<A: Algebra>(
    alg: &mut A,
    a: A::Bit,
    b: A::Bit,
    carry: A::Bit,
) -> Result<(A::Bit, A::Bit), AlgError>
    requires a { A.meaning.knows (A.state alg.old) a ≡ true }
    requires b { A.meaning.knows (A.state alg.old) b ≡ true }
    requires carry { A.meaning.knows (A.state alg.old) carry ≡ true }
    ensures steps { Went (λ r. r) (adder_step A.calls a b carry (A.state alg.old)) (A.state alg.new) result }
    ensures kept { KeptTwo A.meaning (A.state alg.old) (A.state alg.new) result }
{
    let p = match differ(alg, a, b) {
        Ok(p) => p,
        Err(error) => return Err(error),
    };
    let sum = match differ(alg, p, carry) {
        Ok(sum) => sum,
        Err(error) => return Err(error),
    };
    let made = match alg.and(a, b) {
        Ok(made) => made,
        Err(error) => return Err(error),
    };
    let passed = match alg.and(p, carry) {
        Ok(passed) => passed,
        Err(error) => return Err(error),
    };
    match either(alg, made, passed) {
        Ok(next) => Ok((sum, next)),
        Err(error) => Err(error),
    }
}

/// The sum of two vectors of one width from a carry on.
fn carried<A: Algebra>(
    alloc: Global,
    alg: &mut A,
    x: &[A::Bit],
    y: &[A::Bit],
    first: A::Bit,
) -> Result<Vec<A::Bit>, AlgError>
    requires x { AreKnown A.meaning (A.state alg.old) x.now }
    requires y { AreKnown A.meaning (A.state alg.old) y.now }
    requires first { A.meaning.knows (A.state alg.old) first ≡ true }
    requires same { length y.now ≡ length x.now }
    ensures steps { Went (λ v. v.items) (carry_step A.calls x.now y.now first (A.state alg.old)) (A.state alg.new) result }
    ensures kept { KeptAll A.meaning (λ v. v.items) (A.state alg.old) (A.state alg.new) result }
    ensures long { IfOk result (λ v. length v.items ≡ length x.now) }
{
    let mut bits = Vec::new(alloc);
    let mut carry = first;
    for at in 0..x.len() {
        let (sum, next) = match added(alg, x[at], y[at], carry) {
            Ok(made) => made,
            Err(error) => return Err(error),
        };
        carry = next;
        if let Err(_) = bits.push(sum) {
            return Err(AlgError::Memory);
        }
    }
    Ok(bits)
}

/// The sum of two vectors of one width.
pub(crate) fn sum<A: Algebra>(
    alloc: Global,
    alg: &mut A,
    x: &[A::Bit],
    y: &[A::Bit],
) -> Result<Vec<A::Bit>, AlgError>
    requires x { AreKnown A.meaning (A.state alg.old) x.now }
    requires y { AreKnown A.meaning (A.state alg.old) y.now }
    requires same { length y.now ≡ length x.now }
    ensures steps { Went (λ v. v.items) (sum_step A.calls x.now y.now (A.state alg.old)) (A.state alg.new) result }
    ensures kept { KeptAll A.meaning (λ v. v.items) (A.state alg.old) (A.state alg.new) result }
    ensures long { IfOk result (λ v. length v.items ≡ length x.now) }
{
    let zero = alg.constant(false);
    carried(alloc, alg, x, y, zero)
}

/// The difference of two vectors of one width.
pub(crate) fn difference<A: Algebra>(
    alloc: Global,
    alg: &mut A,
    x: &[A::Bit],
    y: &[A::Bit],
) -> Result<Vec<A::Bit>, AlgError>
    requires x { AreKnown A.meaning (A.state alg.old) x.now }
    requires y { AreKnown A.meaning (A.state alg.old) y.now }
    requires same { length y.now ≡ length x.now }
    ensures steps { Went (λ v. v.items) (difference_step A.calls x.now y.now (A.state alg.old)) (A.state alg.new) result }
    ensures kept { KeptAll A.meaning (λ v. v.items) (A.state alg.old) (A.state alg.new) result }
    ensures long { IfOk result (λ v. length v.items ≡ length x.now) }
{
    let inverted = match negations(alloc, alg, y) {
        Ok(inverted) => inverted,
        Err(error) => return Err(error),
    };
    let one = alg.constant(true);
    carried(alloc, alg, x, inverted.as_slice(), one)
}

/// What is so far, with one more bit of each vector.
fn further<A: Algebra>(
    alg: &mut A,
    fold: Fold,
    a: A::Bit,
    b: A::Bit,
    so: A::Bit,
) -> Result<A::Bit, AlgError>
    requires a { A.meaning.knows (A.state alg.old) a ≡ true }
    requires b { A.meaning.knows (A.state alg.old) b ≡ true }
    requires so { A.meaning.knows (A.state alg.old) so ≡ true }
    ensures steps { Went (λ x. x) (fold_of A.calls fold a b so (A.state alg.old)) (A.state alg.new) result }
    ensures kept { Kept A.meaning (A.state alg.old) (A.state alg.new) result }
{
    let p = match differ(alg, a, b) {
        Ok(p) => p,
        Err(error) => return Err(error),
    };
    match fold {
        Fold::Equal => {
            let n = alg.not(p);
            alg.and(so, n)
        }
        Fold::Less => choose(alg, p, b, so),
    }
}

/// What a walk over two vectors of one width comes to.
fn folded<A: Algebra>(
    alg: &mut A,
    fold: Fold,
    x: &[A::Bit],
    y: &[A::Bit],
    first: A::Bit,
) -> Result<A::Bit, AlgError>
    requires x { AreKnown A.meaning (A.state alg.old) x.now }
    requires y { AreKnown A.meaning (A.state alg.old) y.now }
    requires first { A.meaning.knows (A.state alg.old) first ≡ true }
    requires same { length y.now ≡ length x.now }
    ensures steps { Went (λ x. x) (fold_step A.calls (fold_of A.calls fold) x.now y.now first (A.state alg.old)) (A.state alg.new) result }
    ensures kept { Kept A.meaning (A.state alg.old) (A.state alg.new) result }
{
    let mut so = first;
    for at in 0..x.len() {
        so = match further(alg, fold, x[at], y[at], so) {
            Ok(so) => so,
            Err(error) => return Err(error),
        };
    }
    Ok(so)
}

/// Whether two vectors of one width are equal, or the first is less.
pub(crate) fn compared<A: Algebra>(
    alg: &mut A,
    fold: Fold,
    x: &[A::Bit],
    y: &[A::Bit],
) -> Result<A::Bit, AlgError>
    requires x { AreKnown A.meaning (A.state alg.old) x.now }
    requires y { AreKnown A.meaning (A.state alg.old) y.now }
    requires same { length y.now ≡ length x.now }
    ensures steps { Went (λ x. x) (compare_step A.calls fold x.now y.now (A.state alg.old)) (A.state alg.new) result }
    ensures kept { Kept A.meaning (A.state alg.old) (A.state alg.new) result }
{
    let first = match fold {
        Fold::Equal => alg.constant(true),
        Fold::Less => alg.constant(false),
    };
    folded(alg, fold, x, y, first)
}
