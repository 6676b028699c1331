ghost use Rattle.std.specs.Prelude.{◌≡◌, ℕ, List, Some, cond, nat_eq, IfOk};
ghost use Rattle.lola_bits.specs.Number.{inverted, operate, joined, slice_of};
ghost use Rattle.lola_tree.specs.Width.{checked_width, same_width, defined_width, slice_width, operator_width, repeated_width, joined_width};
ghost use Rattle.lola_tree.specs.Value.{or_zero, repeated};
ghost use Rattle.lola_elab.specs.Flat.{flat_width, flat_number};

use lola_bits::Op;
use std::alloc::{AllocError, Global};

/// An expression over vectors, its leaves, which are known by their numbers from 0: first the inputs
/// of a design but the clock, in text order, and then its registers.
#[derive(Debug, Drop)]
pub enum Flat {
    /// A number below 2 to its width in bits.
    Number {
        width: usize,
        value: u128,
    },
    Leaf {
        number: usize,
    },
    /// The bits of a vector from `low` to `high`, which count from 0.
    Slice {
        of: Box<Flat>,
        high: usize,
        low: usize,
    },
    /// Two vectors, one behind the other.
    Join {
        high: Box<Flat>,
        low: Box<Flat>,
    },
    /// A vector so many times, one behind another.
    Repeat {
        part: Box<Flat>,
        times: usize,
    },
    Not {
        arg: Box<Flat>,
    },
    /// An operator on two vectors.
    Both {
        op: Op,
        left: Box<Flat>,
        right: Box<Flat>,
    },
    /// The first result where the test is 1, and else the second.
    Choice {
        test: Box<Flat>,
        yes: Box<Flat>,
        no: Box<Flat>,
    },
}

/// The bits from `low` to `high` of a vector.
pub fn slice(alloc: Global, of: Flat, high: usize, low: usize) -> Result<Flat, AllocError>
    ensures width { IfOk result (λ made. (widths : List ℕ) → flat_width widths made ≡ slice_width (Some high) (Some low) (flat_width widths of)) }
    ensures number { IfOk result (λ made. (widths numbers : List ℕ) → flat_number widths made numbers ≡ slice_of (flat_number widths of numbers) high low) }
{
    Ok(Flat::Slice {
        of: Box::new(alloc, of)?,
        high,
        low,
    })
}

/// A vector and another behind it.
pub fn join(alloc: Global, high: Flat, low: Flat) -> Result<Flat, AllocError>
    ensures width { IfOk result (λ made. (widths : List ℕ) → flat_width widths made ≡ joined_width (flat_width widths high) (flat_width widths low)) }
    ensures number { IfOk result (λ made. (widths numbers : List ℕ) → flat_number widths made numbers ≡ joined (flat_number widths high numbers) (or_zero (flat_width widths low)) (flat_number widths low numbers)) }
{
    Ok(Flat::Join {
        high: Box::new(alloc, high)?,
        low: Box::new(alloc, low)?,
    })
}

/// A vector so many times, one behind another.
pub fn repeat(alloc: Global, part: Flat, times: usize) -> Result<Flat, AllocError>
    ensures width { IfOk result (λ made. (widths : List ℕ) → flat_width widths made ≡ repeated_width (flat_width widths part) (Some times)) }
    ensures number { IfOk result (λ made. (widths numbers : List ℕ) → flat_number widths made numbers ≡ repeated times (or_zero (flat_width widths part)) (flat_number widths part numbers)) }
{
    Ok(Flat::Repeat {
        part: Box::new(alloc, part)?,
        times,
    })
}

/// The negation of a vector.
pub fn inversion(alloc: Global, arg: Flat) -> Result<Flat, AllocError>
    ensures width { IfOk result (λ made. (widths : List ℕ) → flat_width widths made ≡ checked_width (flat_width widths arg)) }
    ensures number { IfOk result (λ made. (widths numbers : List ℕ) → flat_number widths made numbers ≡ inverted (or_zero (flat_width widths arg)) (flat_number widths arg numbers)) }
{
    Ok(Flat::Not {
        arg: Box::new(alloc, arg)?,
    })
}

/// An operator on two vectors.
pub fn operation(alloc: Global, op: Op, left: Flat, right: Flat) -> Result<Flat, AllocError>
    ensures width { IfOk result (λ made. (widths : List ℕ) → flat_width widths made ≡ operator_width op (checked_width (flat_width widths left)) (checked_width (flat_width widths right))) }
    ensures number { IfOk result (λ made. (widths numbers : List ℕ) → flat_number widths made numbers ≡ operate op (or_zero (flat_width widths left)) (flat_number widths left numbers) (flat_number widths right numbers)) }
{
    Ok(Flat::Both {
        op,
        left: Box::new(alloc, left)?,
        right: Box::new(alloc, right)?,
    })
}

/// The first result where the test is 1, and else the second.
pub fn choice(alloc: Global, test: Flat, yes: Flat, no: Flat) -> Result<Flat, AllocError>
    ensures width { IfOk result (λ made. (widths : List ℕ) → flat_width widths made ≡ defined_width (same_width (checked_width (flat_width widths yes)) (checked_width (flat_width widths no))) (same_width (Some 1) (flat_width widths test))) }
    ensures number { IfOk result (λ made. (widths numbers : List ℕ) → flat_number widths made numbers ≡ cond (nat_eq (flat_number widths test numbers) 1) (flat_number widths yes numbers) (flat_number widths no numbers)) }
{
    Ok(Flat::Choice {
        test: Box::new(alloc, test)?,
        yes: Box::new(alloc, yes)?,
        no: Box::new(alloc, no)?,
    })
}
