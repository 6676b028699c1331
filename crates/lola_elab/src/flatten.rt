ghost use Rattle.std.specs.Prelude.{◌≡◌, ◌≢◌, ◌≤◌, ◌<◌, ◌+◌, ℕ, Some, Err, IfOk, MatchOption};
ghost use Rattle.std.specs.BTreeMap.{get_by_text};
ghost use Rattle.lola_tree.specs.declared.named.Count.{Count as Counted};
ghost use Rattle.lola_tree.specs.Tree.{tree, Tree, number, whole, bit, slice, concat, negation, binary, choice, Parts, no_part, one_part, parts_tree};
ghost use Rattle.lola_tree.specs.Width.{operator_width};
ghost use Rattle.lola_elab.specs.Meanings.{Meanings, AreVectors, HasMeaning, NotBelow, IsFlatOf, HasNoFlat, ArePartsFlat, HaveNoFlat, count_of};

use crate::fault::ElabError;
use crate::flat::{Flat, choice, inversion, join, operation, repeat, slice};
use crate::meaning::{Meaning, count_of, meaning_of, number_width};
use lola_bits::Op;
use lola_tree::{Count, Expr, Part, Ref};
use std::alloc::Global;
use std::collections::BTreeMap;

/// An expression over leaves, and its width of 1 to 128 bits.
#[derive(Debug, Drop)]
pub struct Typed {
    pub flat: Flat,
    pub width: usize,
}

/// A written number.
#[tactic(auto, using(crate::proofs::FlatMeans::number_is, crate::proofs::FlatMeans::no_number))]
fn number_flat(value: u128, written: Option<u128>) -> Result<Typed, ElabError>
    ensures ok { (names : Meanings) (at : ℕ) → IfOk result (λ t. IsFlatOf names (number value written at) t.flat t.width) }
    ensures none { result ≡ Err ElabError.NotBuilt → (names : Meanings) (at : ℕ) → HasNoFlat names (number value written at) }
{
    match number_width(value, written) {
        Some(width) => Ok(Typed {
            flat: Flat::Number { width, value },
            width,
        }),
        None => Err(ElabError::NotBuilt),
    }
}

/// A name.
#[tactic(auto, using(crate::proofs::FlatMeans::leaf_is, crate::proofs::FlatMeans::constant_is, crate::proofs::FlatMeans::no_name))]
fn name_flat(of: &Ref, names: &BTreeMap<String, Meaning>) -> Result<Typed, ElabError>
    requires { AreVectors (get_by_text names.now) }
    ensures ok { IfOk result (λ t. IsFlatOf (get_by_text names.now) (whole of.now) t.flat t.width) }
    ensures none { result ≡ Err ElabError.NotBuilt → HasMeaning (get_by_text names.now) of.now → ⊥ }
{
    match meaning_of(of, names) {
        Some(Meaning::Leaf { number, width }) => Ok(Typed {
            flat: Flat::Leaf { number },
            width,
        }),
        Some(Meaning::Constant { width, value }) => Ok(Typed {
            flat: Flat::Number { width, value },
            width,
        }),
        None => Err(ElabError::NotBuilt),
    }
}

/// One bit of a name.
#[tactic(auto, using(crate::proofs::FlatMeans::bit_flat_is, crate::proofs::FlatMeans::no_bit))]
fn bit_flat(
    alloc: Global,
    of: &Ref,
    index: &Count,
    names: &BTreeMap<String, Meaning>,
) -> Result<Typed, ElabError>
    requires { AreVectors (get_by_text names.now) }
    ensures ok { (at : ℕ) → IfOk result (λ t. IsFlatOf (get_by_text names.now) (bit of.now index.now at) t.flat t.width) }
    ensures none { result ≡ Err ElabError.NotBuilt → (at : ℕ) → HasNoFlat (get_by_text names.now) (bit of.now index.now at) }
{
    let of = match name_flat(of, names) {
        Ok(of) => of,
        Err(fault) => return Err(fault),
    };
    match place_in(of.width, index, names) {
        Some(place) => Ok(Typed {
            flat: slice(alloc, of.flat, place, place)?,
            width: 1,
        }),
        None => Err(ElabError::NotBuilt),
    }
}

/// A count that is below a width.
fn place_in(width: usize, count: &Count, names: &BTreeMap<String, Meaning>) -> Option<usize>
    ensures { MatchOption result (NotBelow (count_of (get_by_text names.now) count.now) width) (λ place. (count_of (get_by_text names.now) count.now ≡ Some place) × (place < width)) }
{
    match count_of(count, names) {
        Some(place) if place < width as u128 => Some(place as usize),
        _ => None,
    }
}

/// The bits of a name from one to another.
#[tactic(auto, using(crate::proofs::FlatMeans::slice_flat_is, crate::proofs::FlatMeans::no_high, crate::proofs::FlatMeans::no_low))]
fn slice_flat(
    alloc: Global,
    of: &Ref,
    high: &Count,
    low: &Count,
    names: &BTreeMap<String, Meaning>,
) -> Result<Typed, ElabError>
    requires { AreVectors (get_by_text names.now) }
    ensures ok { (at : ℕ) → IfOk result (λ t. IsFlatOf (get_by_text names.now) (slice of.now high.now low.now at) t.flat t.width) }
    ensures none { result ≡ Err ElabError.NotBuilt → (at : ℕ) → HasNoFlat (get_by_text names.now) (slice of.now high.now low.now at) }
{
    let of = match name_flat(of, names) {
        Ok(of) => of,
        Err(fault) => return Err(fault),
    };
    let Some(high) = place_in(of.width, high, names) else {
        return Err(ElabError::NotBuilt);
    };
    match place_in(high + 1, low, names) {
        Some(low) => Ok(Typed {
            flat: slice(alloc, of.flat, high, low)?,
            width: high - low + 1,
        }),
        None => Err(ElabError::NotBuilt),
    }
}

/// The negation of an expression.
#[tactic(auto, using(crate::proofs::FlatMeans::not_flat_is))]
fn not_flat(alloc: Global, arg: Typed) -> Result<Typed, ElabError>
    ensures ok { (names : Meanings) (e : Tree) (at : ℕ) → IsFlatOf names e arg.flat arg.width → IfOk result (λ t. IsFlatOf names (negation e at) t.flat t.width) }
    ensures none { result ≢ Err ElabError.NotBuilt }
{
    Ok(Typed {
        flat: inversion(alloc, arg.flat)?,
        width: arg.width,
    })
}

/// The width that an operator makes of two.
fn operator_width(op: Op, left: usize, right: usize) -> Option<usize>
    ensures { result ≡ operator_width op (Some left) (Some right) }
{
    match op {
        Op::Eq | Op::Ne | Op::Lt | Op::Le | Op::Gt | Op::Ge => if left == right {
            Some(1)
        } else {
            None
        },
        Op::Shl | Op::Shr | Op::Asr | Op::Ror => Some(left),
        Op::And | Op::Or | Op::Xor | Op::Add | Op::Sub => if left == right {
            Some(left)
        } else {
            None
        },
        Op::Not | Op::Mux => None,
    }
}

/// An operator on two expressions.
#[tactic(auto, using(crate::proofs::FlatMeans::both_flat_is, crate::proofs::FlatMeans::no_both))]
fn both_flat(alloc: Global, op: Op, left: Typed, right: Typed) -> Result<Typed, ElabError>
    ensures ok { (names : Meanings) (a b : Tree) (at : ℕ) → IsFlatOf names a left.flat left.width → IsFlatOf names b right.flat right.width → IfOk result (λ t. IsFlatOf names (binary op a b at) t.flat t.width) }
    ensures none { result ≡ Err ElabError.NotBuilt → (names : Meanings) (a b : Tree) (at : ℕ) → IsFlatOf names a left.flat left.width → IsFlatOf names b right.flat right.width → HasNoFlat names (binary op a b at) }
{
    match operator_width(op, left.width, right.width) {
        Some(width) => Ok(Typed {
            flat: operation(alloc, op, left.flat, right.flat)?,
            width,
        }),
        None => Err(ElabError::NotBuilt),
    }
}

/// A choice of two expressions.
#[tactic(auto, using(crate::proofs::FlatMeans::choice_flat_is, crate::proofs::FlatMeans::no_choice))]
fn choice_flat(alloc: Global, test: Typed, yes: Typed, no: Typed) -> Result<Typed, ElabError>
    ensures ok { (names : Meanings) (c a b : Tree) (at : ℕ) → IsFlatOf names c test.flat test.width → IsFlatOf names a yes.flat yes.width → IsFlatOf names b no.flat no.width → IfOk result (λ t. IsFlatOf names (choice c a b at) t.flat t.width) }
    ensures none { result ≡ Err ElabError.NotBuilt → (names : Meanings) (c a b : Tree) (at : ℕ) → IsFlatOf names c test.flat test.width → IsFlatOf names a yes.flat yes.width → IsFlatOf names b no.flat no.width → HasNoFlat names (choice c a b at) }
{
    if test.width != 1 || yes.width != no.width {
        return Err(ElabError::NotBuilt);
    }
    let width = yes.width;
    Ok(Typed {
        flat: choice(alloc, test.flat, yes.flat, no.flat)?,
        width,
    })
}

/// No part of a concatenation: a vector without bits.
#[tactic(auto, using(crate::proofs::FlatParts::none_flat))]
fn no_part() -> Typed
    ensures flat { (names : Meanings) → ArePartsFlat names no_part result.flat result.width }
    ensures width { result.width ≡ 0 }
{
    Typed {
        flat: Flat::Number { width: 0, value: 0 },
        width: 0,
    }
}

/// A part so many times, as often as it is written, before the parts behind it. NotBuilt where they
/// come to more than 128 bits, or the part stands no time.
#[tactic(auto, using(crate::proofs::FlatParts::before_is, crate::proofs::FlatParts::too_wide, crate::proofs::FlatParts::no_time, crate::proofs::FlatParts::no_count, crate::proofs::FlatParts::many_times))]
fn before(
    alloc: Global,
    part: Typed,
    times: Option<u128>,
    behind: Typed,
) -> Result<Typed, ElabError>
    requires part { (1 ≤ part.width) × (part.width ≤ 128) }
    requires behind { behind.width ≤ 128 }
    ensures at_most { IfOk result (λ t. t.width ≤ 128) }
    ensures ok { (names : Meanings) (e : Tree) (c : Counted) (more : Parts) → count_of names c ≡ times → IsFlatOf names e part.flat part.width → ArePartsFlat names more behind.flat behind.width → IfOk result (λ t. ArePartsFlat names (one_part e c more) t.flat t.width) }
    ensures none { result ≡ Err ElabError.NotBuilt → (names : Meanings) (e : Tree) (c : Counted) (more : Parts) → count_of names c ≡ times → IsFlatOf names e part.flat part.width → ArePartsFlat names more behind.flat behind.width → HaveNoFlat names (one_part e c more) }
{
    match times {
        Some(times) if 1 <= times && times <= 128 => {
            let times = times as usize;
            let width = times * part.width + behind.width;
            if width > 128 {
                return Err(ElabError::NotBuilt);
            }
            let repeated = repeat(alloc, part.flat, times)?;
            Ok(Typed {
                flat: join(alloc, repeated, behind.flat)?,
                width,
            })
        }
        _ => Err(ElabError::NotBuilt),
    }
}

/// The parts of a concatenation, if there are any.
#[tactic(auto, using(crate::proofs::FlatParts::whole_is, crate::proofs::FlatParts::no_whole))]
fn joined(parts: Typed) -> Result<Typed, ElabError>
    requires { parts.width ≤ 128 }
    ensures ok { (names : Meanings) (ps : Parts) (at : ℕ) → ArePartsFlat names ps parts.flat parts.width → IfOk result (λ t. IsFlatOf names (concat ps at) t.flat t.width) }
    ensures none { result ≡ Err ElabError.NotBuilt → (names : Meanings) (ps : Parts) (at : ℕ) → ArePartsFlat names ps parts.flat parts.width → HasNoFlat names (concat ps at) }
{
    if parts.width == 0 {
        Err(ElabError::NotBuilt)
    } else {
        Ok(parts)
    }
}

/// A concatenation.
#[cycle(flat)]
fn concat_flat(
    alloc: Global,
    parts: &[Part],
    names: &BTreeMap<String, Meaning>,
) -> Result<Typed, ElabError>
    requires { AreVectors (get_by_text names.now) }
    ensures ok { (at : ℕ) → IfOk result (λ t. IsFlatOf (get_by_text names.now) (concat (parts_tree parts.now) at) t.flat t.width) }
    ensures none { result ≡ Err ElabError.NotBuilt → (at : ℕ) → HasNoFlat (get_by_text names.now) (concat (parts_tree parts.now) at) }
{
    let mut behind = no_part();
    for left in (0..parts.len()).rev() {
        let part = &parts[left];
        let value = match flat_of(alloc, &part.value, names) {
            Ok(value) => value,
            Err(fault) => return Err(fault),
        };
        behind = match before(alloc, value, count_of(&part.times, names), behind) {
            Ok(more) => more,
            Err(fault) => return Err(fault),
        };
    }
    joined(behind)
}

/// The expression over leaves that an expression means where names stand for leaves and constants.
/// NotBuilt where it has no width, or holds a name that stands for neither or an element of an array.
/// Memory where there isn't enough for it.
#[cycle(flat)]
pub fn flat_of(
    alloc: Global,
    expr: &Expr,
    names: &BTreeMap<String, Meaning>,
) -> Result<Typed, ElabError>
    requires { AreVectors (get_by_text names.now) }
    ensures ok { IfOk result (λ t. IsFlatOf (get_by_text names.now) (tree expr.now) t.flat t.width) }
    ensures none { result ≡ Err ElabError.NotBuilt → HasNoFlat (get_by_text names.now) (tree expr.now) }
{
    match expr {
        Expr::Number {
            value,
            width,
            at: _,
        } => number_flat(*value, *width),
        Expr::Whole { of } => name_flat(of, names),
        Expr::Bit { of, index, at: _ } => bit_flat(alloc, of, index, names),
        Expr::Slice {
            of,
            high,
            low,
            at: _,
        } => slice_flat(alloc, of, high, low, names),
        Expr::Index { .. } => Err(ElabError::NotBuilt),
        Expr::Concat { parts, at: _ } => concat_flat(alloc, parts.items(), names),
        Expr::Not { arg, at: _ } => match flat_of(alloc, arg, names) {
            Ok(arg) => not_flat(alloc, arg),
            Err(fault) => Err(fault),
        },
        Expr::Binary {
            op,
            left,
            right,
            at: _,
        } => {
            let left = match flat_of(alloc, left, names) {
                Ok(left) => left,
                Err(fault) => return Err(fault),
            };
            match flat_of(alloc, right, names) {
                Ok(right) => both_flat(alloc, *op, left, right),
                Err(fault) => Err(fault),
            }
        }
        Expr::Choice {
            test,
            yes,
            no,
            at: _,
        } => {
            let test = match flat_of(alloc, test, names) {
                Ok(test) => test,
                Err(fault) => return Err(fault),
            };
            let yes = match flat_of(alloc, yes, names) {
                Ok(yes) => yes,
                Err(fault) => return Err(fault),
            };
            match flat_of(alloc, no, names) {
                Ok(no) => choice_flat(alloc, test, yes, no),
                Err(fault) => Err(fault),
            }
        }
    }
}
