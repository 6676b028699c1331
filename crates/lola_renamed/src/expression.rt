ghost use Rattle.std.specs.Prelude.{◌≡◌, IfOk};
ghost use Rattle.lola_tree.specs.Tree.{tree, parts_tree};
ghost use Rattle.lola_tree.specs.Width.{written_width};
ghost use Rattle.lola_flat.specs.Tree.{expr_tree, expr_trees, number, slice, element, repeat, join, apply, no_expr, one_expr};
ghost use Rattle.lola_renamed.specs.Renamed.{small, renamed, renamed_parts};

use crate::reading::Reading;
use lola_bits::{Bits, Memory, Op, Seq};
use lola_flat::{FExpr, lists_are_trees};
use lola_tree::{Expr, Part};
use std::alloc::Global;

/// A number of at most 1,024, or else 0. Takes no memory.
pub fn small(value: u128) -> u32
    ensures { result ≡ small value }
{
    if value < 1025 { value as u32 } else { 0 }
}

/// The width that is written behind a number.
fn written(width: Option<u128>) -> u32
    ensures { result ≡ small (written_width width) }
{
    match width {
        Some(width) => small(width),
        None => 1,
    }
}

fn constant(width: Option<u128>, value: u128) -> FExpr
    ensures { expr_tree result ≡ number (small (written_width width)) value }
{
    FExpr::Number {
        value: Bits {
            width: written(width),
            value,
        },
    }
}

fn slice(alloc: Global, of: FExpr, high: u32, low: u32) -> Result<FExpr, Memory>
    ensures { IfOk result (λ e. expr_tree e ≡ slice (expr_tree of) high low) }
{
    Ok(FExpr::Slice {
        of: Box::new(alloc, of)?,
        high,
        low,
    })
}

fn element(alloc: Global, number: u32, place: FExpr) -> Result<FExpr, Memory>
    ensures { IfOk result (λ e. expr_tree e ≡ element number (expr_tree place)) }
{
    Ok(FExpr::Element {
        number,
        place: Box::new(alloc, place)?,
    })
}

fn repeat(alloc: Global, part: FExpr, times: u32) -> Result<FExpr, Memory>
    ensures { IfOk result (λ e. expr_tree e ≡ repeat (expr_tree part) times) }
{
    Ok(FExpr::Repeat {
        part: Box::new(alloc, part)?,
        times,
    })
}

fn join(parts: Seq<FExpr>) -> FExpr
    ensures { expr_tree result ≡ join (expr_trees parts) }
{
    lists_are_trees();
    FExpr::Join { parts }
}

fn apply(op: Op, args: Seq<FExpr>) -> FExpr
    ensures { expr_tree result ≡ apply op (expr_trees args) }
{
    lists_are_trees();
    FExpr::Apply { op, args }
}

fn one(alloc: Global, a: FExpr) -> Result<Seq<FExpr>, Memory>
    ensures { IfOk result (λ es. expr_trees es ≡ one_expr (expr_tree a) no_expr) }
{
    let mut args = Seq::new(alloc);
    args.push(a)?;
    Ok(args)
}

fn two(alloc: Global, a: FExpr, b: FExpr) -> Result<Seq<FExpr>, Memory>
    ensures { IfOk result (λ es. expr_trees es ≡ one_expr (expr_tree a) (one_expr (expr_tree b) no_expr)) }
{
    let mut args = Seq::new(alloc);
    args.push(a)?;
    args.push(b)?;
    Ok(args)
}

fn three(alloc: Global, a: FExpr, b: FExpr, c: FExpr) -> Result<Seq<FExpr>, Memory>
    ensures { IfOk result (λ es. expr_trees es ≡ one_expr (expr_tree a) (one_expr (expr_tree b) (one_expr (expr_tree c) no_expr))) }
{
    let mut args = Seq::new(alloc);
    args.push(a)?;
    args.push(b)?;
    args.push(c)?;
    Ok(args)
}

/// The parts of a concatenation, each as often as it stands.
#[cycle(rename)]
fn rename_parts<R: Reading>(alloc: Global, parts: &[Part], names: &R) -> Result<Seq<FExpr>, Memory>
    ensures { IfOk result (λ es. expr_trees es ≡ renamed_parts (R.meant names.now) (parts_tree parts.now)) }
{
    let mut made = Seq::new(alloc);
    for part in parts {
        let value = rename(alloc, &part.value, names)?;
        let times = names.count(&part.times);
        made.push(repeat(alloc, value, times)?)?;
    }
    Ok(made)
}

/// An expression over names as one over signals by their numbers, part for part: each name is what the reading says
/// that it stands for. The only refusal is want of memory.
#[cycle(rename)]
pub fn rename<R: Reading>(alloc: Global, expr: &Expr, names: &R) -> Result<FExpr, Memory>
    ensures { IfOk result (λ e. expr_tree e ≡ renamed (R.meant names.now) (tree expr.now)) }
{
    match expr {
        Expr::Number {
            value,
            width,
            at: _,
        } => Ok(constant(*width, *value)),
        Expr::Whole { of } => names.vector(alloc, of),
        Expr::Bit { of, index, at: _ } => {
            let place = names.count(index);
            slice(alloc, names.vector(alloc, of)?, place, place)
        }
        Expr::Slice {
            of,
            high,
            low,
            at: _,
        } => {
            let vector = names.vector(alloc, of)?;
            slice(alloc, vector, names.count(high), names.count(low))
        }
        Expr::Index { of, place, at: _ } => {
            let place = rename(alloc, place, names)?;
            element(alloc, names.array(of), place)
        }
        Expr::Concat { parts, at: _ } => Ok(join(rename_parts(alloc, parts.items(), names)?)),
        Expr::Not { arg, at: _ } => {
            let arg = rename(alloc, arg, names)?;
            Ok(apply(Op::Not, one(alloc, arg)?))
        }
        Expr::Binary {
            op,
            left,
            right,
            at: _,
        } => {
            let left = rename(alloc, left, names)?;
            let right = rename(alloc, right, names)?;
            Ok(apply(*op, two(alloc, left, right)?))
        }
        Expr::Choice {
            test,
            yes,
            no,
            at: _,
        } => {
            let test = rename(alloc, test, names)?;
            let yes = rename(alloc, yes, names)?;
            let no = rename(alloc, no, names)?;
            Ok(apply(Op::Mux, three(alloc, test, yes, no)?))
        }
    }
}
