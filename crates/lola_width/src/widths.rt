ghost use Rattle.std.specs.Prelude.{◌≡◌, Some};
ghost use Rattle.std.specs.Option.{option_copied};
ghost use Rattle.lola_tree.specs.Tree.{tree, parts_tree};
ghost use Rattle.lola_tree.specs.Names.{count_number, ref_name, entry_shape};
ghost use Rattle.lola_tree.specs.Width.{is_width, checked_width, is_number, number_width, vector_width, entry_width, named_shape, element_width, elements_width, scope_over, same_width, defined_width, bit_width, slice_width, operator_width, repeated_width, joined_width, width, total_width};
ghost use Rattle.lola_width.specs.Capped.{capped, capped_width};
ghost use Rattle.lola_width.specs.WidthFaults.{count_at, number_faults, differ, beyond, turned_round, never, wide, operator_faults, slice_faults, expr_widths, part_widths};
ghost use Rattle.lola_width.specs.Order.{first_after};
ghost use Rattle.lola_width.specs.Table.{some_entry, found};

use crate::counts::{count_at, count_number, ref_name};
use crate::declared::Declared;
use crate::fault::{SourceFault, note};
use crate::table::Table;
use crate::types::place_width;
use crate::uses::shape_of;
use lola_bits::Op;
use lola_tree::{Count, Expr, Part, Ref, Shape};

/// Whether a number is a width of a vector.
pub fn is_width(number: u128) -> bool
    ensures { result ≡ is_width number }
{
    0 < number && number < 129
}

fn checked_width(number: Option<u128>) -> Option<u32>
    ensures { result ≡ checked_width number }
{
    match number {
        Some(number) => {
            if is_width(number) {
                Some(number as u32)
            } else {
                None
            }
        }
        None => None,
    }
}

/// The width of a type that is a vector.
pub fn vector_width(table: &Table, shape: &Shape) -> Option<u32>
    ensures { result ≡ vector_width (found table.now) (Some shape.now) }
{
    match shape {
        Shape::Vector { width } => checked_width(count_number(table, width)),
        Shape::Array { count: _, width: _ } => None,
    }
}

/// The width of a name that is no array.
pub fn name_width(table: &Table, name: &str) -> Option<u32>
    ensures { result ≡ entry_width (found table.now) (found table.now name.now) }
{
    match table.find(name) {
        Some(Declared::Port(port)) => vector_width(table, &port.shape),
        Some(Declared::Const(constant)) => number_width(constant.value, constant.width),
        Some(Declared::Local(local)) => match shape_of(Declared::Local(local)) {
            Some(shape) => vector_width(table, shape),
            None => None,
        },
        None => None,
    }
}

/// The type of a name that has one.
fn named_shape<'a>(table: &Table<'a>, name: &str) -> Option<&'a Shape>
    ensures { option_copied result ≡ named_shape (found table.now name.now) }
{
    match table.find(name) {
        Some(declared) => shape_of(declared),
        None => None,
    }
}

/// The width of the elements of an array.
pub fn element_width(table: &Table, name: &str) -> Option<u32>
    ensures { result ≡ element_width (found table.now) (named_shape (found table.now name.now)) }
{
    match named_shape(table, name) {
        Some(Shape::Array { count: _, width }) => checked_width(count_number(table, width)),
        _ => None,
    }
}

/// The width of the places of an array.
pub fn elements_width(table: &Table, name: &str) -> Option<u32>
    ensures { result ≡ elements_width (found table.now) (named_shape (found table.now name.now)) }
{
    match named_shape(table, name) {
        Some(Shape::Array { count, width: _ }) => match count_number(table, count) {
            Some(count) => place_width(count),
            None => None,
        },
        _ => None,
    }
}

/// Whether a number is below 2 to its width, which is 1 where none is written.
fn is_number(value: u128, width: Option<u128>) -> bool
    ensures { result ≡ is_number value width }
{
    let width = match width {
        Some(width) => width,
        None => 1,
    };
    is_width(width) && (width == 128 || value < 1u128 << (width as u32))
}

fn number_width(value: u128, width: Option<u128>) -> Option<u32>
    ensures { result ≡ number_width value width }
{
    if is_number(value, width) {
        match width {
            Some(width) => Some(width as u32),
            None => Some(1),
        }
    } else {
        None
    }
}

/// The width of two that must be equal.
fn same_width(left: Option<u32>, right: Option<u32>) -> Option<u32>
    ensures { result ≡ same_width left right }
{
    match left {
        Some(left) => match right {
            Some(right) => { if left == right { Some(left) } else { None } }
            None => None,
        },
        None => None,
    }
}

/// A width where another is defined too.
fn defined_width(width: Option<u32>, other: Option<u32>) -> Option<u32>
    ensures { result ≡ defined_width width other }
{
    match other {
        Some(_) => width,
        None => None,
    }
}

fn bit_width(place: Option<u128>, width: Option<u32>) -> Option<u32>
    ensures { result ≡ bit_width place width }
{
    match place {
        Some(place) => match width {
            Some(width) => { if place < width as u128 { Some(1) } else { None } }
            None => None,
        },
        None => None,
    }
}

fn slice_width(high: Option<u128>, low: Option<u128>, width: Option<u32>) -> Option<u32>
    ensures { result ≡ slice_width high low width }
{
    match high {
        Some(high) => match low {
            Some(low) => match width {
                Some(width) => {
                    if high < width as u128 && !(high < low) {
                        Some((high - low + 1) as u32)
                    } else {
                        None
                    }
                }
                None => None,
            },
            None => None,
        },
        None => None,
    }
}

/// What an operator makes of two widths.
fn operator_width(op: Op, left: Option<u32>, right: Option<u32>) -> Option<u32>
    ensures { result ≡ operator_width op left right }
{
    match op {
        Op::Eq => defined_width(Some(1), same_width(left, right)),
        Op::Ne => defined_width(Some(1), same_width(left, right)),
        Op::Lt => defined_width(Some(1), same_width(left, right)),
        Op::Le => defined_width(Some(1), same_width(left, right)),
        Op::Gt => defined_width(Some(1), same_width(left, right)),
        Op::Ge => defined_width(Some(1), same_width(left, right)),
        Op::Shl => defined_width(left, right),
        Op::Shr => defined_width(left, right),
        Op::Asr => defined_width(left, right),
        Op::Ror => defined_width(left, right),
        Op::And => same_width(left, right),
        Op::Or => same_width(left, right),
        Op::Xor => same_width(left, right),
        Op::Add => same_width(left, right),
        Op::Sub => same_width(left, right),
        Op::Not => None,
        Op::Mux => None,
    }
}

/// The width of what stands several times, as far as a vector may be wide: 129 for all above.
fn repeated_width(width: Option<u32>, times: Option<u128>) -> Option<u32>
    ensures { result ≡ capped_width (repeated_width width times) }
{
    match width {
        Some(width) => match times {
            Some(times) => {
                if times == 0 {
                    None
                } else {
                    let times = times.min(129) as u64;
                    Some((times * width as u64).min(129) as u32)
                }
            }
            None => None,
        },
        None => None,
    }
}

/// The width of two parts together, with the same bound.
fn joined_width(width: Option<u32>, more: Option<u32>) -> Option<u32>
    ensures { result ≡ capped_width (joined_width width more) }
{
    match width {
        Some(width) => match more {
            Some(more) => Some((width as u64 + more as u64).min(129) as u32),
            None => None,
        },
        None => None,
    }
}

/// Notes two widths that differ.
pub fn note_differ(at: u32, left: Option<u32>, right: Option<u32>, first: &mut Option<SourceFault>)
    ensures { first.new ≡ first_after first.old (differ at left right) }
{
    match left {
        Some(left) => match right {
            Some(right) => {
                if left != right {
                    note(first, SourceFault::Width { at, left, right });
                }
            }
            None => {}
        },
        None => {}
    }
}

/// Notes a number that isn't below 2 to its width, or has none.
pub fn note_number(value: u128, width: Option<u128>, at: u32, first: &mut Option<SourceFault>)
    ensures { first.new ≡ first_after first.old (number_faults value width at) }
{
    if !is_number(value, width) {
        note(first, SourceFault::TooWide { at });
    }
}

/// Notes a place that isn't below a width.
fn note_beyond(at: u32, place: Option<u128>, width: Option<u32>, first: &mut Option<SourceFault>)
    ensures { first.new ≡ first_after first.old (beyond at place width) }
{
    match place {
        Some(place) => match width {
            Some(width) => {
                if !(place < width as u128) {
                    note(first, SourceFault::IndexRange { at });
                }
            }
            None => {}
        },
        None => {}
    }
}

/// Notes a low end above the high end.
fn note_turned_round(
    at: u32,
    high: Option<u128>,
    low: Option<u128>,
    first: &mut Option<SourceFault>,
)
    ensures { first.new ≡ first_after first.old (turned_round at high low) }
{
    match high {
        Some(high) => match low {
            Some(low) => {
                if high < low {
                    note(first, SourceFault::IndexRange { at });
                }
            }
            None => {}
        },
        None => {}
    }
}

/// Notes a repetition of no times.
fn note_never(at: u32, times: Option<u128>, first: &mut Option<SourceFault>)
    ensures { first.new ≡ first_after first.old (never at times) }
{
    match times {
        Some(times) => {
            if times == 0 {
                note(first, SourceFault::TooWide { at });
            }
        }
        None => {}
    }
}

/// Notes a concatenation that is wider than a vector may be.
fn note_wide(at: u32, width: Option<u32>, first: &mut Option<SourceFault>)
    ensures { first.new ≡ first_after first.old (wide at width) }
{
    match width {
        Some(width) => {
            if 128 < width {
                note(first, SourceFault::TooWide { at });
            }
        }
        None => {}
    }
}

/// Notes the operands of an operator that must have one width and haven't.
fn note_operator(
    op: Op,
    at: u32,
    left: Option<u32>,
    right: Option<u32>,
    first: &mut Option<SourceFault>,
)
    ensures { first.new ≡ first_after first.old (operator_faults op at left right) }
{
    match op {
        Op::Shl => {}
        Op::Shr => {}
        Op::Asr => {}
        Op::Ror => {}
        _ => note_differ(at, left, right, first),
    }
}

/// The width of a concatenation whose parts have so many bits together.
fn fitting(total: Option<u32>) -> Option<u32>
    ensures { result ≡ checked_width total }
{
    match total {
        Some(total) => {
            if 0 < total && total < 129 {
                Some(total)
            } else {
                None
            }
        }
        None => None,
    }
}

/// Notes the faults of widths in an expression, and gives its width: none where there is one.
#[cycle(widths)]
#[tactic(auto, using(crate::proofs::Faults::first_append))]
pub fn note_widths(table: &Table, expr: &Expr, first: &mut Option<SourceFault>) -> Option<u32>
    ensures width { result ≡ width (scope_over (found table.now)) (tree expr.now) }
    ensures first { first.new ≡ first_after first.old (expr_widths (scope_over (found table.now)) (tree expr.now)) }
{
    match expr {
        Expr::Number { value, width, at } => {
            note_number(*value, *width, *at, first);
            number_width(*value, *width)
        }
        Expr::Whole { of } => name_width(table, ref_name(of)),
        Expr::Bit { of, index, at: _ } => {
            let place = count_number(table, index);
            let width = name_width(table, ref_name(of));
            note_beyond(count_at(index), place, width, first);
            bit_width(place, width)
        }
        Expr::Slice {
            of,
            high,
            low,
            at: _,
        } => note_slice(table, of, high, low, first),
        Expr::Index { of, place, at } => {
            let width = note_widths(table, place, first);
            let needed = elements_width(table, ref_name(of));
            note_differ(*at, needed, width, first);
            defined_width(
                element_width(table, ref_name(of)),
                same_width(needed, width),
            )
        }
        Expr::Concat { parts, at } => {
            let total = note_part_widths(table, parts.items(), first);
            note_wide(*at, total, first);
            fitting(total)
        }
        Expr::Not { arg, at: _ } => note_widths(table, arg, first),
        Expr::Binary {
            op,
            left,
            right,
            at,
        } => {
            let left = note_widths(table, left, first);
            let right = note_widths(table, right, first);
            note_operator(*op, *at, left, right, first);
            operator_width(*op, left, right)
        }
        Expr::Choice { test, yes, no, at } => {
            let test = note_widths(table, test, first);
            let yes = note_widths(table, yes, first);
            let no = note_widths(table, no, first);
            note_differ(*at, yes, no, first);
            note_differ(*at, Some(1), test, first);
            defined_width(same_width(yes, no), same_width(Some(1), test))
        }
    }
}

/// The same of a slice.
#[tactic(auto, using(crate::proofs::Faults::first_append))]
fn note_slice(
    table: &Table,
    of: &Ref,
    high: &Count,
    low: &Count,
    first: &mut Option<SourceFault>,
) -> Option<u32>
    ensures width { result ≡ slice_width (count_number (found table.now) high.now) (count_number (found table.now) low.now) (entry_width (found table.now) (found table.now (ref_name of.now))) }
    ensures first { first.new ≡ first_after first.old (slice_faults (found table.now) of.now high.now low.now) }
{
    let width = name_width(table, ref_name(of));
    let high_end = count_number(table, high);
    let low_end = count_number(table, low);
    note_beyond(count_at(high), high_end, width, first);
    note_turned_round(count_at(low), high_end, low_end, first);
    slice_width(high_end, low_end, width)
}

/// The same of the parts of a concatenation, with their width together as far as a vector may be
/// wide: 129 for all above.
#[cycle(widths)]
#[tactic(auto, using(crate::proofs::Faults::first_append))]
fn note_part_widths(table: &Table, parts: &[Part], first: &mut Option<SourceFault>) -> Option<u32>
    ensures width { result ≡ capped_width (total_width (scope_over (found table.now)) (parts_tree parts.now)) }
    ensures first { first.new ≡ first_after first.old (part_widths (scope_over (found table.now)) (parts_tree parts.now)) }
{
    let mut total = Some(0);
    for part in parts {
        let width = note_widths(table, &part.value, first);
        let times = count_number(table, &part.times);
        note_never(count_at(&part.times), times, first);
        total = joined_width(total, repeated_width(width, times));
    }
    total
}
