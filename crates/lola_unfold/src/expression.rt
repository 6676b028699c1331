ghost use Rattle.std.specs.Prelude.{◌≡◌, List, IfOk};
ghost use Rattle.lola_tree.specs.Tree.{tree, parts_tree};
ghost use Rattle.lola_tree.specs.Width.{written_width};
ghost use Rattle.lola_tree.specs.Names.{ref_name};
ghost use Rattle.lola_flat.specs.Tree.{expr_tree, expr_trees, number, slice, element, repeat, join, apply, no_expr, one_expr};
ghost use Rattle.lola_width.specs.Table.{found};
ghost use Rattle.lola_unfold.specs.Translated.{small, counted, meant, translated, translated_parts};
ghost use Rattle.lola_unfold.specs.Slots.{number_from};

use crate::slots::{Base, number_from};
use lola_bits::{Bits, Memory, Op, Seq};
use lola_flat::{FExpr, lists_are_trees};
use lola_tree::{Count, Expr, Part, Ref};
use lola_width::{Declared, Table, count_number, ref_name};
use std::alloc::Global;

/// A number of at most 1,024, or else 0.
pub fn small(value: u128) -> u32
    ensures { result ≡ small value }
{
    if value < 1025 { value as u32 } else { 0 }
}

/// The number of a count.
pub fn counted(names: &Table, count: &Count) -> u32
    ensures { result ≡ counted (found names.now) count.now }
{
    match count_number(names, count) {
        Some(value) => small(value),
        None => 0,
    }
}

/// The width that is written behind a number.
fn written(width: Option<u128>) -> u32
    ensures { result ≡ small (written_width width) }
{
    match width {
        Some(width) => small(width),
        None => 1,
    }
}

fn constant(width: Option<u128>, value: u128) -> FExpr
    ensures { expr_tree result ≡ number (small (written_width width)) value }
{
    FExpr::Number {
        value: Bits {
            width: written(width),
            value,
        },
    }
}

/// What a name stands for.
fn meant(names: &Table, base: Base, of: &Ref) -> FExpr
    ensures { expr_tree result ≡ meant (found names.now (ref_name of.now)) (number_from base.entry of.now.path) }
{
    let number = number_from(base, of.path.items());
    match names.find(ref_name(of)) {
        Some(Declared::Const(named)) => constant(named.width, named.value),
        _ => FExpr::Signal { number },
    }
}

fn slice(alloc: Global, of: FExpr, high: u32, low: u32) -> Result<FExpr, Memory>
    ensures { IfOk result (λ e. expr_tree e ≡ slice (expr_tree of) high low) }
{
    Ok(FExpr::Slice {
        of: Box::new(alloc, of)?,
        high,
        low,
    })
}

fn element(alloc: Global, number: u32, place: FExpr) -> Result<FExpr, Memory>
    ensures { IfOk result (λ e. expr_tree e ≡ element number (expr_tree place)) }
{
    Ok(FExpr::Element {
        number,
        place: Box::new(alloc, place)?,
    })
}

fn repeat(alloc: Global, part: FExpr, times: u32) -> Result<FExpr, Memory>
    ensures { IfOk result (λ e. expr_tree e ≡ repeat (expr_tree part) times) }
{
    Ok(FExpr::Repeat {
        part: Box::new(alloc, part)?,
        times,
    })
}

fn join(parts: Seq<FExpr>) -> FExpr
    ensures { expr_tree result ≡ join (expr_trees parts) }
{
    lists_are_trees();
    FExpr::Join { parts }
}

pub(crate) fn apply(op: Op, args: Seq<FExpr>) -> FExpr
    ensures { expr_tree result ≡ apply op (expr_trees args) }
{
    lists_are_trees();
    FExpr::Apply { op, args }
}

fn one(alloc: Global, a: FExpr) -> Result<Seq<FExpr>, Memory>
    ensures { IfOk result (λ es. expr_trees es ≡ one_expr (expr_tree a) no_expr) }
{
    let mut args = Seq::new(alloc);
    args.push(a)?;
    Ok(args)
}

fn two(alloc: Global, a: FExpr, b: FExpr) -> Result<Seq<FExpr>, Memory>
    ensures { IfOk result (λ es. expr_trees es ≡ one_expr (expr_tree a) (one_expr (expr_tree b) no_expr)) }
{
    let mut args = Seq::new(alloc);
    args.push(a)?;
    args.push(b)?;
    Ok(args)
}

pub(crate) fn three(alloc: Global, a: FExpr, b: FExpr, c: FExpr) -> Result<Seq<FExpr>, Memory>
    ensures { IfOk result (λ es. expr_trees es ≡ one_expr (expr_tree a) (one_expr (expr_tree b) (one_expr (expr_tree c) no_expr))) }
{
    let mut args = Seq::new(alloc);
    args.push(a)?;
    args.push(b)?;
    args.push(c)?;
    Ok(args)
}

/// The parts of a concatenation, each as often as it stands.
#[cycle(translate)]
fn translate_parts(
    alloc: Global,
    parts: &[Part],
    names: &Table,
    base: Base,
) -> Result<Seq<FExpr>, Memory>
    ensures { IfOk result (λ es. expr_trees es ≡ translated_parts (found names.now) (number_from base.entry) (parts_tree parts.now)) }
{
    let mut made = Seq::new(alloc);
    for part in parts {
        let value = translate(alloc, &part.value, names, base)?;
        let times = counted(names, &part.times);
        made.push(repeat(alloc, value, times)?)?;
    }
    Ok(made)
}

/// An expression of a module over signals, part for part.
#[cycle(translate)]
pub fn translate(alloc: Global, expr: &Expr, names: &Table, base: Base) -> Result<FExpr, Memory>
    ensures { IfOk result (λ e. expr_tree e ≡ translated (found names.now) (number_from base.entry) (tree expr.now)) }
{
    match expr {
        Expr::Number {
            value,
            width,
            at: _,
        } => Ok(constant(*width, *value)),
        Expr::Whole { of } => Ok(meant(names, base, of)),
        Expr::Bit { of, index, at: _ } => {
            let place = counted(names, index);
            slice(alloc, meant(names, base, of), place, place)
        }
        Expr::Slice {
            of,
            high,
            low,
            at: _,
        } => slice(
            alloc,
            meant(names, base, of),
            counted(names, high),
            counted(names, low),
        ),
        Expr::Index { of, place, at: _ } => {
            let place = translate(alloc, place, names, base)?;
            element(alloc, number_from(base, of.path.items()), place)
        }
        Expr::Concat { parts, at: _ } => {
            Ok(join(translate_parts(alloc, parts.items(), names, base)?))
        }
        Expr::Not { arg, at: _ } => {
            let arg = translate(alloc, arg, names, base)?;
            Ok(apply(Op::Not, one(alloc, arg)?))
        }
        Expr::Binary {
            op,
            left,
            right,
            at: _,
        } => {
            let left = translate(alloc, left, names, base)?;
            let right = translate(alloc, right, names, base)?;
            Ok(apply(*op, two(alloc, left, right)?))
        }
        Expr::Choice {
            test,
            yes,
            no,
            at: _,
        } => {
            let test = translate(alloc, test, names, base)?;
            let yes = translate(alloc, yes, names, base)?;
            let no = translate(alloc, no, names, base)?;
            Ok(apply(Op::Mux, three(alloc, test, yes, no)?))
        }
    }
}
