ghost use Rattle.std.specs.Prelude.{◌≡◌, ◌≢◌, nat_eq, [], ◌∷◌, map, length, Some, Err, IfOk};
ghost use Rattle.lola_alg.specs.Algebra.{Answers};
ghost use Rattle.lola_alg.specs.Means.{IsWidth, AreKnown, number_at};
ghost use Rattle.lola_alg.specs.Steps.{Went, equal_step};
ghost use Rattle.lola_flat.specs.Tree.{expr_tree};
ghost use Rattle.lola_flat.specs.Value.{env, mapped};
ghost use Rattle.lola_eval.specs.Means.{EnvKnown};
ghost use Rattle.lola_checks.specs.Steps.{only_bit, bit_step, alike_step};
ghost use Rattle.lola_checks.specs.Suits.{IsBit, AreAlike};

use lola_alg::{AlgError, Algebra, low_op};
use lola_bits::{Op, Seq};
use lola_eval::lower_expr;
use lola_flat::FExpr;
use std::alloc::Global;

/// The bit of a vector of one bit.
fn only<A: Algebra>(alg: &mut A, bits: &[A::Bit]) -> A::Bit
    ensures { only_bit A.calls bits.now (A.state alg.old) ≡ Some (A.state alg.new, result) }
{
    match bits {
        [bit] => *bit,
        _ => alg.constant(true),
    }
}

/// Two vectors, one behind the other.
fn both<B: Copy>(alloc: Global, left: &[B], right: &[B]) -> Result<Vec<Seq<B>>, AlgError>
    ensures ok { IfOk result (λ made. made.items ≡ left.now ∷ right.now ∷ []) }
    ensures err { result ≢ Err AlgError.Full }
{
    let first = match Vec::from_slice(alloc, left) {
        Ok(first) => Seq::of(first),
        Err(_) => return Err(AlgError::Memory),
    };
    let second = match Vec::from_slice(alloc, right) {
        Ok(second) => Seq::of(second),
        Err(_) => return Err(AlgError::Memory),
    };
    let mut made = Vec::new(alloc);
    if let Err(_) = made.push(first) {
        return Err(AlgError::Memory);
    }
    match made.push(second) {
        Ok(()) => Ok(made),
        Err(_) => Err(AlgError::Memory),
    }
}

/// Whether two vectors of one width are equal.
pub(crate) fn equal<A: Algebra>(
    alloc: Global,
    alg: &mut A,
    left: &[A::Bit],
    right: &[A::Bit],
) -> Result<A::Bit, AlgError>
    requires wide { IsWidth (length left.now) }
    requires same { length right.now ≡ length left.now }
    requires left { AreKnown A.meaning (A.state alg.old) left.now }
    requires right { AreKnown A.meaning (A.state alg.old) right.now }
    ensures steps { Went (λ b. b) (equal_step A.calls left.now right.now (A.state alg.old)) (A.state alg.new) result }
    ensures means { IfOk result (λ b. Answers A.meaning (A.state alg.old) (A.state alg.new, b) (λ v. nat_eq (number_at A.meaning (A.state alg.old) v left.now) (number_at A.meaning (A.state alg.old) v right.now))) }
{
    let args = match both(alloc, left, right) {
        Ok(args) => args,
        Err(error) => return Err(error),
    };
    match low_op(alloc, alg, Op::Eq, args.as_slice()) {
        Ok(bits) => Ok(only(alg, bits.items())),
        Err(error) => Err(error),
    }
}

/// The bit of an expression of one bit.
pub(crate) fn lower_bit<A: Algebra>(
    alloc: Global,
    alg: &mut A,
    expr: &FExpr,
    signals: &[Seq<Seq<A::Bit>>],
    outside: &[Seq<A::Bit>],
) -> Result<A::Bit, AlgError>
    requires suits { IsBit (mapped length (env signals.now outside.now)) (expr_tree expr.now) }
    requires known { EnvKnown A.meaning (A.state alg.old) (env signals.now outside.now) }
    ensures steps { Went (λ b. b) (bit_step A.calls (env signals.now outside.now) (expr_tree expr.now) (A.state alg.old)) (A.state alg.new) result }
{
    match lower_expr(alloc, alg, expr, signals, outside) {
        Ok(bits) => Ok(only(alg, bits.items())),
        Err(error) => Err(error),
    }
}

/// Whether two expressions of one width are equal.
pub(crate) fn lower_alike<A: Algebra>(
    alloc: Global,
    alg: &mut A,
    left: &FExpr,
    right: &FExpr,
    signals: &[Seq<Seq<A::Bit>>],
    outside: &[Seq<A::Bit>],
) -> Result<A::Bit, AlgError>
    requires suits { AreAlike (mapped length (env signals.now outside.now)) (expr_tree left.now) (expr_tree right.now) }
    requires known { EnvKnown A.meaning (A.state alg.old) (env signals.now outside.now) }
    ensures steps { Went (λ b. b) (alike_step A.calls (env signals.now outside.now) (expr_tree left.now) (expr_tree right.now) (A.state alg.old)) (A.state alg.new) result }
{
    let first = match lower_expr(alloc, alg, left, signals, outside) {
        Ok(first) => first,
        Err(error) => return Err(error),
    };
    match lower_expr(alloc, alg, right, signals, outside) {
        Ok(second) => equal(alloc, alg, first.items(), second.items()),
        Err(error) => Err(error),
    }
}
