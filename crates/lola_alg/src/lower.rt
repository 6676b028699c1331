ghost use Rattle.std.specs.Prelude.{◌≡◌, ◌≢◌, true, length, map, Err, IfOk, [], ◌∷◌};
ghost use Rattle.std.specs.List.{AllByRecursion};
ghost use Rattle.lola_alg.specs.Means.{AreKnown, Suits, MeansOp};
ghost use Rattle.lola_alg.specs.Steps.{Went, op_step, alone, negated_alone, pairs_step, choose_step, each_step, not_step};
ghost use Rattle.lola_alg.specs.Gates.{KeptAll, compare_step};

use crate::algebra::{AlgError, Algebra};
use crate::gates::Gate;
use crate::shifts::{Move, shifted, turned_by};
use crate::sums::{Fold, compared, difference, sum};
use crate::vectors::{negations, pairs};
use lola_bits::{Op, Seq};
use std::alloc::Global;

/// A vector of one bit.
fn one_bit<B: Copy>(alloc: Global, bit: B) -> Result<Vec<B>, AlgError>
    ensures ok { IfOk result (λ v. v.items ≡ bit ∷ []) }
    ensures err { result ≢ Err AlgError.Full }
{
    let mut bits = Vec::new(alloc);
    match bits.push(bit) {
        Ok(()) => Ok(bits),
        Err(_) => Err(AlgError::Memory),
    }
}

/// Whether a relation holds of two vectors, as a vector of one bit.
fn relation<A: Algebra>(
    alloc: Global,
    alg: &mut A,
    fold: Fold,
    x: &[A::Bit],
    y: &[A::Bit],
) -> Result<Vec<A::Bit>, AlgError>
    requires x { AreKnown A.meaning (A.state alg.old) x.now }
    requires y { AreKnown A.meaning (A.state alg.old) y.now }
    requires same { length y.now ≡ length x.now }
    ensures steps { Went (λ v. v.items) (alone A.calls (compare_step A.calls fold x.now y.now (A.state alg.old))) (A.state alg.new) result }
    ensures kept { KeptAll A.meaning (λ v. v.items) (A.state alg.old) (A.state alg.new) result }
{
    match compared(alg, fold, x, y) {
        Ok(bit) => one_bit(alloc, bit),
        Err(error) => Err(error),
    }
}

/// Whether a relation fails of two vectors, as a vector of one bit.
fn no_relation<A: Algebra>(
    alloc: Global,
    alg: &mut A,
    fold: Fold,
    x: &[A::Bit],
    y: &[A::Bit],
) -> Result<Vec<A::Bit>, AlgError>
    requires x { AreKnown A.meaning (A.state alg.old) x.now }
    requires y { AreKnown A.meaning (A.state alg.old) y.now }
    requires same { length y.now ≡ length x.now }
    ensures steps { Went (λ v. v.items) (negated_alone A.calls (compare_step A.calls fold x.now y.now (A.state alg.old))) (A.state alg.new) result }
    ensures kept { KeptAll A.meaning (λ v. v.items) (A.state alg.old) (A.state alg.new) result }
{
    match compared(alg, fold, x, y) {
        Ok(bit) => {
            let other = alg.not(bit);
            one_bit(alloc, other)
        }
        Err(error) => Err(error),
    }
}

/// An operator on two vectors that suit it.
fn two<A: Algebra>(
    alloc: Global,
    alg: &mut A,
    op: Op,
    x: &[A::Bit],
    y: &[A::Bit],
) -> Result<Vec<A::Bit>, AlgError>
    requires suits { Suits op (length x.now ∷ length y.now ∷ []) }
    requires x { AreKnown A.meaning (A.state alg.old) x.now }
    requires y { AreKnown A.meaning (A.state alg.old) y.now }
    ensures steps { Went (λ v. v.items) (op_step A.calls op (x.now ∷ y.now ∷ []) (A.state alg.old)) (A.state alg.new) result }
    ensures kept { KeptAll A.meaning (λ v. v.items) (A.state alg.old) (A.state alg.new) result }
{
    match op {
        Op::And => pairs(alloc, alg, Gate::Both, x, y),
        Op::Or => pairs(alloc, alg, Gate::Either, x, y),
        Op::Xor => pairs(alloc, alg, Gate::Differ, x, y),
        Op::Add => sum(alloc, alg, x, y),
        Op::Sub => difference(alloc, alg, x, y),
        Op::Eq => relation(alloc, alg, Fold::Equal, x, y),
        Op::Ne => no_relation(alloc, alg, Fold::Equal, x, y),
        Op::Lt => relation(alloc, alg, Fold::Less, x, y),
        Op::Ge => no_relation(alloc, alg, Fold::Less, x, y),
        Op::Gt => relation(alloc, alg, Fold::Less, y, x),
        Op::Le => no_relation(alloc, alg, Fold::Less, y, x),
        Op::Shl => {
            let fill = alg.constant(false);
            shifted(alloc, alg, Move::Up { fill }, x, y)
        }
        Op::Shr => {
            let fill = alg.constant(false);
            shifted(alloc, alg, Move::Down { fill }, x, y)
        }
        Op::Asr => shifted(alloc, alg, Move::Filled, x, y),
        Op::Ror => turned_by(alloc, alg, x, y),
        Op::Not | Op::Mux => Ok(Vec::new(alloc)),
    }
}

/// The bits that an operator makes of arguments that suit it, the lowest first: by the steps of its row, in
/// their order, so that they mean its number. Each argument is the bits of a vector of 1 to 128, the lowest
/// first: one for `Not`; a vector of one bit and two of one width for `Mux`; a vector and a number for a shift
/// or a turn; and else two vectors of one width. `Full` comes exactly where one of the steps has no place for its
/// gate, and `Memory` for want of memory.
pub fn low_op<A: Algebra>(
    alloc: Global,
    alg: &mut A,
    op: Op,
    args: &[Seq<A::Bit>],
) -> Result<Seq<A::Bit>, AlgError>
    requires suits { Suits op (map length args.now) }
    requires known { AllByRecursion (AreKnown A.meaning (A.state alg.old)) args.now }
    ensures steps { Went (λ v. v) (op_step A.calls op args.now (A.state alg.old)) (A.state alg.new) result }
    ensures means { IfOk result (λ bits. MeansOp A.meaning op args.now (A.state alg.old) (A.state alg.new, bits)) }
{
    match lowered(alloc, alg, op, args) {
        Ok(bits) => Ok(Seq::of(bits)),
        Err(error) => Err(error),
    }
}

/// The bits of an operator, by how many arguments it has.
fn lowered<A: Algebra>(
    alloc: Global,
    alg: &mut A,
    op: Op,
    args: &[Seq<A::Bit>],
) -> Result<Vec<A::Bit>, AlgError>
    requires suits { Suits op (map length args.now) }
    requires known { AllByRecursion (AreKnown A.meaning (A.state alg.old)) args.now }
    ensures steps { Went (λ v. v.items) (op_step A.calls op args.now (A.state alg.old)) (A.state alg.new) result }
{
    match args {
        [x] => negations(alloc, alg, x.items()),
        [x, y] => two(alloc, alg, op, x.items(), y.items()),
        [t, x, y] => choice(alloc, alg, t.items(), x.items(), y.items()),
        _ => Ok(Vec::new(alloc)),
    }
}

/// The first of two vectors where a vector of one bit is 1, and else the second.
fn choice<A: Algebra>(
    alloc: Global,
    alg: &mut A,
    test: &[A::Bit],
    x: &[A::Bit],
    y: &[A::Bit],
) -> Result<Vec<A::Bit>, AlgError>
    requires suits { Suits Op.Mux (length test.now ∷ length x.now ∷ length y.now ∷ []) }
    requires test { AreKnown A.meaning (A.state alg.old) test.now }
    requires x { AreKnown A.meaning (A.state alg.old) x.now }
    requires y { AreKnown A.meaning (A.state alg.old) y.now }
    ensures steps { Went (λ v. v.items) (op_step A.calls Op.Mux (test.now ∷ x.now ∷ y.now ∷ []) (A.state alg.old)) (A.state alg.new) result }
    ensures kept { KeptAll A.meaning (λ v. v.items) (A.state alg.old) (A.state alg.new) result }
{
    match test {
        [bit] => pairs(alloc, alg, Gate::Choose { test: *bit }, x, y),
        _ => Ok(Vec::new(alloc)),
    }
}
