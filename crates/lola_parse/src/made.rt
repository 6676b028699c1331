ghost use Rattle.std.specs.Prelude.{◌≡◌, [], ◌∷◌, ◌++◌, IfOk};
ghost use Rattle.lola_tree.specs.Tree.{tree, number, whole, bit, slice, index, concat, negation, binary, choice, parts_tree};

use lola_bits::{Memory, Op, Seq};
use lola_tree::{Count, Expr, Part, Ref};
use std::alloc::Global;

/// A number.
pub(crate) fn number(
    alloc: Global,
    value: u128,
    width: Option<u128>,
    at: u32,
) -> Result<Box<Expr>, Memory>
    ensures { IfOk result (λ made. tree made.value ≡ number value width at) }
{
    Ok(Box::new(alloc, Expr::Number { value, width, at })?)
}

/// What a reference stands for.
pub(crate) fn whole(alloc: Global, of: Ref) -> Result<Box<Expr>, Memory>
    ensures { IfOk result (λ made. tree made.value ≡ whole of) }
{
    Ok(Box::new(alloc, Expr::Whole { of })?)
}

/// A bit of a reference.
pub(crate) fn bit_of(alloc: Global, of: Ref, index: Count, at: u32) -> Result<Box<Expr>, Memory>
    ensures { IfOk result (λ made. tree made.value ≡ bit of index at) }
{
    Ok(Box::new(alloc, Expr::Bit { of, index, at })?)
}

/// A slice of a reference.
pub(crate) fn slice_of(
    alloc: Global,
    of: Ref,
    high: Count,
    low: Count,
    at: u32,
) -> Result<Box<Expr>, Memory>
    ensures { IfOk result (λ made. tree made.value ≡ slice of high low at) }
{
    Ok(Box::new(alloc, Expr::Slice { of, high, low, at })?)
}

/// An element of an array.
pub(crate) fn index_of(
    alloc: Global,
    of: Ref,
    place: Box<Expr>,
    at: u32,
) -> Result<Box<Expr>, Memory>
    ensures { IfOk result (λ made. tree made.value ≡ index of (tree place.value) at) }
{
    Ok(Box::new(alloc, Expr::Index { of, place, at })?)
}

/// A concatenation.
pub(crate) fn concat_of(alloc: Global, parts: Vec<Part>, at: u32) -> Result<Box<Expr>, Memory>
    ensures { IfOk result (λ made. tree made.value ≡ concat (parts_tree parts.items) at) }
{
    let parts = Seq::of(parts);
    Ok(Box::new(alloc, Expr::Concat { parts, at })?)
}

/// The negation of an expression.
pub(crate) fn not_of(alloc: Global, arg: Box<Expr>, at: u32) -> Result<Box<Expr>, Memory>
    ensures { IfOk result (λ made. tree made.value ≡ negation (tree arg.value) at) }
{
    Ok(Box::new(alloc, Expr::Not { arg, at })?)
}

/// Two expressions under an operator.
pub(crate) fn binary(
    alloc: Global,
    op: Op,
    left: Box<Expr>,
    right: Box<Expr>,
    at: u32,
) -> Result<Box<Expr>, Memory>
    ensures { IfOk result (λ made. tree made.value ≡ binary op (tree left.value) (tree right.value) at) }
{
    Ok(Box::new(
        alloc,
        Expr::Binary {
            op,
            left,
            right,
            at,
        },
    )?)
}

/// A choice between two expressions.
pub(crate) fn choice_of(
    alloc: Global,
    test: Box<Expr>,
    yes: Box<Expr>,
    no: Box<Expr>,
    at: u32,
) -> Result<Box<Expr>, Memory>
    ensures { IfOk result (λ made. tree made.value ≡ choice (tree test.value) (tree yes.value) (tree no.value) at) }
{
    Ok(Box::new(alloc, Expr::Choice { test, yes, no, at })?)
}

/// A part of a concatenation.
pub(crate) fn part_of(value: Box<Expr>, times: Count) -> Part
    ensures { result ≡ record { value = value.value; times = times } }
{
    Part {
        value: Box::into_inner(value),
        times,
    }
}

/// The list of one part.
pub(crate) fn only(alloc: Global, part: Part) -> Result<Vec<Part>, Memory>
    ensures { IfOk result (λ made. made.items ≡ part ∷ []) }
{
    with_part(Vec::new(alloc), part)
}

/// The parts with one more at the end.
pub(crate) fn with_part(mut parts: Vec<Part>, part: Part) -> Result<Vec<Part>, Memory>
    ensures { IfOk result (λ made. made.items ≡ parts.items ++ part ∷ []) }
{
    parts.push(part)?;
    Ok(parts)
}
