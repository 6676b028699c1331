// What a text is as a design or an expression, and the bits of an expression over leaves.
ghost use Rattle.std.specs.Prelude.{◌≡◌, ◌≤◌, Some, map, length, IfSome};
ghost use Rattle.lola_tree.specs.Width.{operator_width};
ghost use Rattle.lola_elab.specs.Flat.{flat_width};

use lola_bits::{Op, Seq, fits};
use lola_elab::{Design, ElabError, Flat, flat_bits, number_bits, read_design};
use lola_parse::{parse, parse_expr, parse_table_expr, tokens_lie_within};
use lola_scan::scan;
use lola_tree::Expr;
use std::alloc::Global;
use std::process::Abort;
use std::test::Fail;

/// The design of a text.
pub(crate) fn design(alloc: Global, text: &[u8]) -> Result<Result<Design, ElabError>, Fail> {
    if text.len() > 1_048_576 {
        return Err(Fail::from("too long"));
    }
    tokens_lie_within();
    let tokens = scan(alloc, text).map_err(|_| "scan")?;
    let source = parse(alloc, text, tokens.as_slice()).map_err(|_| "parse")?;
    Ok(read_design(alloc, &source))
}

/// The expression of a design that a text begins with.
pub(crate) fn expression(alloc: Global, text: &[u8]) -> Result<Expr, Fail> {
    if text.len() > 1_048_576 {
        return Err(Fail::from("too long"));
    }
    tokens_lie_within();
    let tokens = scan(alloc, text).map_err(|_| "scan")?;
    let (expr, _) = parse_expr(alloc, text, tokens.as_slice(), 0).map_err(|_| "parse")?;
    Ok(expr)
}

/// The expression of a table that a text begins with.
pub(crate) fn table_expression(alloc: Global, text: &[u8]) -> Result<Expr, Fail> {
    if text.len() > 1_048_576 {
        return Err(Fail::from("too long"));
    }
    tokens_lie_within();
    let tokens = scan(alloc, text).map_err(|_| "scan")?;
    let (expr, _) = parse_table_expr(alloc, text, tokens.as_slice(), 0).map_err(|_| "parse")?;
    Ok(expr)
}

/// Leaves with these widths and numbers.
pub(crate) fn leaves(alloc: Global, numbers: &[(u32, u128)]) -> Result<Vec<Seq<bool>>, Fail> {
    let mut leaves = Vec::new(alloc);
    for (width, number) in numbers {
        if !fits(*width, *number) {
            return Err(Fail::from("too wide"));
        }
        leaves.push(number_bits(alloc, *width as usize, *number).map_err(|_| "memory")?)?;
    }
    Ok(leaves)
}

/// The width that an operator makes of two.
fn operator_width(op: Op, left: usize, right: usize) -> Option<usize>
    ensures { result ≡ operator_width op (Some left) (Some right) }
{
    match op {
        Op::Eq | Op::Ne | Op::Lt | Op::Le | Op::Gt | Op::Ge => if left == right {
            Some(1)
        } else {
            None
        },
        Op::Shl | Op::Shr | Op::Asr | Op::Ror => Some(left),
        Op::And | Op::Or | Op::Xor | Op::Add | Op::Sub => if left == right {
            Some(left)
        } else {
            None
        },
        Op::Not | Op::Mux => None,
    }
}

/// Not more than 128 bits.
fn at_most_128(width: usize) -> Option<usize>
    ensures { IfSome result (λ w. (w ≡ width) × (w ≤ 128)) }
{
    if width <= 128 { Some(width) } else { None }
}

/// The width of an expression over leaves. None where it has none, or an operator has a vector
/// without bits.
fn width_of(flat: &Flat, leaves: &[Seq<bool>]) -> Option<usize>
    ensures { IfSome result (λ w. (flat_width (map length leaves.now) flat.now ≡ Some w) × (w ≤ 128)) }
{
    match flat {
        Flat::Number { width: 0, value: 0 } => Some(0),
        Flat::Number { width, value } => if *width <= 128 && fits(*width as u32, *value) {
            Some(*width)
        } else {
            None
        },
        Flat::Leaf { number } => if *number < leaves.len() {
            at_most_128(leaves[*number].items().len())
        } else {
            None
        },
        Flat::Slice { of, high, low } => {
            let of = width_of(of, leaves)?;
            if *high < of && *low <= *high {
                Some(*high - *low + 1)
            } else {
                None
            }
        }
        Flat::Join { high, low } => {
            let high = width_of(high, leaves)?;
            let low = width_of(low, leaves)?;
            at_most_128(high + low)
        }
        Flat::Repeat { part, times } => {
            let part = width_of(part, leaves)?;
            if 1 <= *times && *times <= 128 {
                at_most_128(*times * part)
            } else {
                None
            }
        }
        Flat::Not { arg } => {
            let arg = width_of(arg, leaves)?;
            if 1 <= arg { Some(arg) } else { None }
        }
        Flat::Both { op, left, right } => {
            let left = width_of(left, leaves)?;
            let right = width_of(right, leaves)?;
            if 1 <= left && 1 <= right {
                operator_width(*op, left, right)
            } else {
                None
            }
        }
        Flat::Choice { test, yes, no } => {
            let test = width_of(test, leaves)?;
            let yes = width_of(yes, leaves)?;
            let no = width_of(no, leaves)?;
            if test == 1 && yes == no && 1 <= yes {
                Some(yes)
            } else {
                None
            }
        }
    }
}

/// An expression over leaves has these bits, the lowest first.
pub(crate) fn has_bits(
    rt: &impl Abort,
    alloc: Global,
    flat: &Flat,
    leaves: &[Seq<bool>],
    bits: &[bool],
) -> Result<(), Fail> {
    if width_of(flat, leaves).is_none() {
        return Err(Fail::from("no width"));
    }
    let found = flat_bits(alloc, flat, leaves).map_err(|_| "memory")?;
    assert_eq!(rt; found.items(), bits);
    Ok(())
}
