ghost use Rattle.std.specs.Prelude.{◌≡◌, ◌++◌, OnOk};
ghost use Rattle.lola_tree.specs.Tree.{tree, parts_tree, bit, slice};
ghost use Rattle.lola_tree.specs.Print.{expr_text, closed, tightness, op_tightness, parts_text, is_shift, sign_text, left_needs, right_needs};

use crate::expr::{Expr, Part};
use crate::named::{Count, Ref};
use crate::token_text::{push_count, push_number, push_ref, push_times};
use lola_bits::Op;
use std::alloc::AllocError;

/// Appends an expression.
#[cycle(print)]
pub fn push_expr(out: &mut Vec<u8>, expr: &Expr) -> Result<(), AllocError>
    ensures { OnOk result (out.new.items ≡ out.old.items ++ expr_text (tree expr.now)) }
{
    match expr {
        Expr::Number {
            value,
            width,
            at: _,
        } => push_number(out, *value, *width),
        Expr::Whole { of } => push_ref(out, of),
        Expr::Bit { of, index, at: _ } => push_bit(out, of, index),
        Expr::Slice {
            of,
            high,
            low,
            at: _,
        } => push_slice(out, of, high, low),
        Expr::Index { of, place, at: _ } => {
            push_ref(out, of)?;
            push_enclosed(out, b"[ ", place, b"] ")
        }
        Expr::Concat { parts, at: _ } => {
            push_parts(out, b"{ ", parts.items())?;
            out.extend_from_slice(b"} ")?;
            Ok(())
        }
        Expr::Not { arg, at: _ } => {
            out.extend_from_slice(b"~ ")?;
            push_closed(out, arg, 4)
        }
        Expr::Binary {
            op,
            left,
            right,
            at: _,
        } => {
            if is_shift(*op) {
                out.extend_from_slice(sign(*op))?;
                push_enclosed(out, b"( ", left, b", ")?;
                push_enclosed(out, b"", right, b") ")
            } else {
                push_closed(out, left, left_needs(*op))?;
                out.extend_from_slice(sign(*op))?;
                push_closed(out, right, right_needs(*op))
            }
        }
        Expr::Choice {
            test,
            yes,
            no,
            at: _,
        } => {
            push_closed(out, test, 1)?;
            push_enclosed(out, b"-> ", yes, b": ")?;
            push_expr(out, no)
        }
    }
}

/// Appends an expression between what stands before it and what stands behind it.
#[cycle(print)]
pub(crate) fn push_enclosed(
    out: &mut Vec<u8>,
    before: &[u8],
    expr: &Expr,
    behind: &[u8],
) -> Result<(), AllocError>
    ensures { OnOk result (out.new.items ≡ out.old.items ++ (before.now ++ (expr_text (tree expr.now) ++ behind.now))) }
{
    out.extend_from_slice(before)?;
    push_expr(out, expr)?;
    out.extend_from_slice(behind)?;
    Ok(())
}

/// Appends an expression where the grammar wants one that holds together so tightly: in parentheses
/// where it doesn't.
#[cycle(print)]
fn push_closed(out: &mut Vec<u8>, expr: &Expr, needed: u8) -> Result<(), AllocError>
    ensures { OnOk result (out.new.items ≡ out.old.items ++ closed needed (tightness (tree expr.now)) (expr_text (tree expr.now))) }
{
    if tightness(expr) < needed {
        push_enclosed(out, b"( ", expr, b") ")
    } else {
        push_expr(out, expr)
    }
}

/// Appends the parts of a concatenation, with what stands before the first.
#[cycle(print)]
fn push_parts(out: &mut Vec<u8>, first: &[u8], parts: &[Part]) -> Result<(), AllocError>
    ensures { OnOk result (out.new.items ≡ out.old.items ++ parts_text first.now (parts_tree parts.now)) }
{
    let mut before = first;
    for part in parts {
        out.extend_from_slice(before)?;
        push_expr(out, &part.value)?;
        push_times(out, &part.times)?;
        before = b", ";
    }
    Ok(())
}

/// Appends a bit of a name.
fn push_bit(out: &mut Vec<u8>, of: &Ref, index: &Count) -> Result<(), AllocError>
    ensures { OnOk result (out.new.items ≡ out.old.items ++ expr_text (bit of.now index.now 0)) }
{
    push_ref(out, of)?;
    out.extend_from_slice(b". ")?;
    push_count(out, index)
}

/// Appends a slice of a name.
fn push_slice(out: &mut Vec<u8>, of: &Ref, high: &Count, low: &Count) -> Result<(), AllocError>
    ensures { OnOk result (out.new.items ≡ out.old.items ++ expr_text (slice of.now high.now low.now 0)) }
{
    push_ref(out, of)?;
    out.extend_from_slice(b"[ ")?;
    push_count(out, high)?;
    out.extend_from_slice(b": ")?;
    push_count(out, low)?;
    out.extend_from_slice(b"] ")?;
    Ok(())
}

/// How tightly an expression holds together: 0 a choice, 1 a relation, 2 a sum, 3 a product, 4 all
/// else.
fn tightness(expr: &Expr) -> u8
    ensures { result ≡ tightness (tree expr.now) }
{
    match expr {
        Expr::Binary { op, .. } => op_tightness(*op),
        Expr::Choice { .. } => 0,
        _ => 4,
    }
}

/// How tightly an operator holds its sides together.
fn op_tightness(op: Op) -> u8
    ensures { result ≡ op_tightness op }
{
    match op {
        Op::And => 3,
        Op::Or | Op::Xor | Op::Add | Op::Sub => 2,
        Op::Eq | Op::Ne | Op::Lt | Op::Le | Op::Gt | Op::Ge => 1,
        _ => 4,
    }
}

/// How tightly the left side of an operator must hold together.
fn left_needs(op: Op) -> u8
    ensures { result ≡ left_needs op }
{
    match op {
        Op::And => 3,
        _ => 2,
    }
}

/// How tightly the right side of an operator must hold together.
fn right_needs(op: Op) -> u8
    ensures { result ≡ right_needs op }
{
    match op {
        Op::And => 4,
        Op::Or | Op::Xor | Op::Add | Op::Sub => 3,
        _ => 2,
    }
}

/// Whether an operator is written as a word before its sides.
fn is_shift(op: Op) -> bool
    ensures { result ≡ is_shift op }
{
    match op {
        Op::Shl | Op::Shr | Op::Asr | Op::Ror => true,
        _ => false,
    }
}

/// The token of an operator. Negations and choices are no binary expressions, so they have none.
fn sign(op: Op) -> &'static [u8]
    ensures { result.now ≡ sign_text op }
{
    match op {
        Op::And => b"& ",
        Op::Or => b"| ",
        Op::Xor => b"^ ",
        Op::Add => b"+ ",
        Op::Sub => b"- ",
        Op::Eq => b"= ",
        Op::Ne => b"# ",
        Op::Lt => b"< ",
        Op::Le => b"<= ",
        Op::Gt => b"> ",
        Op::Ge => b">= ",
        Op::Shl => b"SHL ",
        Op::Shr => b"SHR ",
        Op::Asr => b"ASR ",
        Op::Ror => b"ROR ",
        Op::Not | Op::Mux => b"",
    }
}
