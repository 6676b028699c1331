ghost use Rattle.std.specs.Prelude.{◌≡◌, ◌<◌, ℕ, map, length, get_or, IfOk};
ghost use Rattle.lola_alg.specs.Steps.{Went};
ghost use Rattle.lola_flat.specs.Tree.{expr_tree, expr_trees, join, apply};
ghost use Rattle.lola_flat.specs.Value.{Env, env, mapped, Fits, AllFit};
ghost use Rattle.lola_eval.specs.Steps.{lower_step, lowers_step};
ghost use Rattle.lola_eval.specs.Means.{EnvKnown, MeansValue, MeansValues};

use crate::parts::{copied, joined, number_bits, repeated, sliced};
use lola_alg::{AlgError, Algebra, low_op, low_read};
use lola_bits::{Op, Seq};
use lola_flat::{FExpr, lists_are_trees};
use std::alloc::Global;

/// The parts of a join are the list.
fn join_parts(expr: &FExpr, parts: &[FExpr])
    requires { expr.now ≡ FExpr.Join parts.now }
    ensures is { expr_tree expr.now ≡ join (expr_trees parts.now) }
    ensures fits { (W : Env ℕ) → Fits W (expr_tree expr.now) → AllFit W (expr_trees parts.now) }
{
    lists_are_trees();
}

/// The arguments of an operator are the list.
fn apply_args(expr: &FExpr, op: Op, args: &[FExpr])
    requires { expr.now ≡ FExpr.Apply op args.now }
    ensures is { expr_tree expr.now ≡ apply op (expr_trees args.now) }
    ensures fits { (W : Env ℕ) → Fits W (expr_tree expr.now) → AllFit W (expr_trees args.now) }
{
    lists_are_trees();
}

/// An expression of a list that fits does.
fn item_fits(exprs: &[FExpr], at: usize, expr: &FExpr)
    requires within { at < length exprs.now }
    requires is { expr.now ≡ get_or exprs.now at expr.now }
    ensures { (W : Env ℕ) → AllFit W (expr_trees exprs.now) → Fits W (expr_tree expr.now) }
{}

/// The bits of an expression, the lowest first: by its steps, so that they mean its number under every
/// assignment. `signals` has the vectors of each signal that the expression reads, by its number, and `outside`
/// those that pads are given from outside. `Full` comes exactly where one of the steps has no place for its
/// gate, and `Memory` for want of memory.
#[cycle(lower)]
pub fn lower_expr<A: Algebra>(
    alloc: Global,
    alg: &mut A,
    expr: &FExpr,
    signals: &[Seq<Seq<A::Bit>>],
    outside: &[Seq<A::Bit>],
) -> Result<Seq<A::Bit>, AlgError>
    requires fits { Fits (mapped length (env signals.now outside.now)) (expr_tree expr.now) }
    requires known { EnvKnown A.meaning (A.state alg.old) (env signals.now outside.now) }
    ensures steps { Went (λ v. v) (lower_step A.calls (env signals.now outside.now) (expr_tree expr.now) (A.state alg.old)) (A.state alg.new) result }
    ensures means { IfOk result (λ bits. MeansValue A.meaning (env signals.now outside.now) (expr_tree expr.now) (A.state alg.old) (A.state alg.new, bits)) }
{
    match lower_case(alloc, alg, expr, signals, outside) {
        Ok(bits) => Ok(bits),
        Err(error) => Err(error),
    }
}

/// The bits of an expression, case by case.
#[cycle(lower)]
fn lower_case<A: Algebra>(
    alloc: Global,
    alg: &mut A,
    expr: &FExpr,
    signals: &[Seq<Seq<A::Bit>>],
    outside: &[Seq<A::Bit>],
) -> Result<Seq<A::Bit>, AlgError>
    requires fits { Fits (mapped length (env signals.now outside.now)) (expr_tree expr.now) }
    requires known { EnvKnown A.meaning (A.state alg.old) (env signals.now outside.now) }
    ensures steps { Went (λ v. v) (lower_step A.calls (env signals.now outside.now) (expr_tree expr.now) (A.state alg.old)) (A.state alg.new) result }
{
    match expr {
        FExpr::Number { value } => number_bits(alloc, alg, value.width as usize, value.value),
        FExpr::Signal { number } => copied(alloc, signals[*number as usize].items()[0].items()),
        FExpr::Outside { number } => copied(alloc, outside[*number as usize].items()),
        FExpr::Element { number, place } => match lower_expr(alloc, alg, place, signals, outside) {
            Ok(place) => low_read(alloc, alg, signals[*number as usize].items(), &place),
            Err(error) => Err(error),
        },
        FExpr::Slice { of, high, low } => match lower_expr(alloc, alg, of, signals, outside) {
            Ok(of) => sliced(alloc, of.items(), *high as usize, *low as usize),
            Err(error) => Err(error),
        },
        FExpr::Join { parts } => {
            join_parts(expr, parts.items());
            match lower_all(alloc, alg, parts.items(), signals, outside) {
                Ok(parts) => joined(alloc, parts.as_slice()),
                Err(error) => Err(error),
            }
        }
        FExpr::Repeat { part, times } => match lower_expr(alloc, alg, part, signals, outside) {
            Ok(part) => repeated(alloc, part.items(), *times as usize),
            Err(error) => Err(error),
        },
        FExpr::Apply { op, args } => {
            apply_args(expr, *op, args.items());
            match lower_all(alloc, alg, args.items(), signals, outside) {
                Ok(args) => low_op(alloc, alg, *op, args.as_slice()),
                Err(error) => Err(error),
            }
        }
    }
}

/// The vectors of expressions, one after another.
#[cycle(lower)]
fn lower_all<A: Algebra>(
    alloc: Global,
    alg: &mut A,
    exprs: &[FExpr],
    signals: &[Seq<Seq<A::Bit>>],
    outside: &[Seq<A::Bit>],
) -> Result<Vec<Seq<A::Bit>>, AlgError>
    requires fits { AllFit (mapped length (env signals.now outside.now)) (expr_trees exprs.now) }
    requires known { EnvKnown A.meaning (A.state alg.old) (env signals.now outside.now) }
    ensures steps { Went (λ v. v.items) (lowers_step A.calls (env signals.now outside.now) (expr_trees exprs.now) (A.state alg.old)) (A.state alg.new) result }
    ensures means { IfOk result (λ made. MeansValues A.meaning (env signals.now outside.now) (expr_trees exprs.now) (A.state alg.old) (A.state alg.new, made.items)) }
{
    let mut made = Vec::new(alloc);
    for at in 0..exprs.len() {
        let expr = &exprs[at];
        item_fits(exprs, at, expr);
        let bits = match lower_expr(alloc, alg, expr, signals, outside) {
            Ok(bits) => bits,
            Err(error) => return Err(error),
        };
        if let Err(_) = made.push(bits) {
            return Err(AlgError::Memory);
        }
    }
    Ok(made)
}
