// Clauses that say that two ways of writing a sum differ: no assignment makes them true.
use crate::gates::Gates;
use crate::make::{Told, cnf, searched};
use lrat_check::Cnf;
use std::alloc::Global;
use std::test::Fail;

/// The gates from 3 to 11 with three clauses each, and that the last one is true.
pub(crate) fn two_bits(alloc: Global) -> Result<Cnf, Fail> {
    cnf(
        alloc,
        11,
        &[
            &[-3, 1],
            &[-3, 2],
            &[3, -1, -2],
            &[-4, -1],
            &[-4, -2],
            &[4, 1, 2],
            &[-5, -3],
            &[-5, -4],
            &[5, 3, 4],
            &[-6, -1],
            &[-6, 2],
            &[6, 1, -2],
            &[-7, 1],
            &[-7, -2],
            &[7, -1, 2],
            &[-8, -6],
            &[-8, -7],
            &[8, 6, 7],
            &[-9, 5],
            &[-9, -8],
            &[9, -5, 8],
            &[-10, -5],
            &[-10, 8],
            &[10, 5, -8],
            &[-11, -9],
            &[-11, -10],
            &[11, 9, 10],
            &[11],
        ],
    )
}

/// That q + x and ~(~q - x) differ, for numbers of so many bits. Where `shut` they are said to differ,
/// and else not to.
pub(crate) fn sums_differ(alloc: Global, width: i32, shut: bool) -> Result<Cnf, Fail> {
    let mut gates = Gates::new(alloc, width.saturating_mul(2).saturating_add(1));
    let one = width.saturating_mul(2).saturating_add(1);
    gates.clause(&[one])?;
    let mut carry = one.wrapping_neg();
    let mut borrow = one;
    let mut differ = one.wrapping_neg();
    for bit in 1..width.saturating_add(1) {
        let q = bit;
        let x = bit.saturating_add(width);
        let (sum, next) = gates.add(q, x, carry)?;
        let (less, kept) = gates.add(q.wrapping_neg(), x.wrapping_neg(), borrow)?;
        let here = gates.xor(sum, less.wrapping_neg())?;
        differ = gates.or(differ, here)?;
        carry = next;
        borrow = kept;
    }
    if shut {
        gates.clause(&[differ])?;
    } else {
        gates.clause(&[differ.wrapping_neg()])?;
    }
    Ok(gates.done())
}

#[test]
fn the_sum_of_two_bits_is_refuted(rt: HostRuntime) -> Result<(), Fail> {
    let clauses = two_bits(rt.alloc())?;
    assert_eq!(rt; searched(rt.alloc(), &clauses, 100)?, Told::Refuted);
    Ok(())
}

#[test]
fn a_sum_of_four_bits_is_refuted(rt: HostRuntime) -> Result<(), Fail> {
    let clauses = sums_differ(rt.alloc(), 4, true)?;
    assert_eq!(rt; searched(rt.alloc(), &clauses, 10_000)?, Told::Refuted);
    let open = sums_differ(rt.alloc(), 4, false)?;
    assert_eq!(rt; searched(rt.alloc(), &open, 10_000)?, Told::Satisfied);
    Ok(())
}

// No unit of these clauses comes to a conflict, so that one addition doesn't close.
#[test]
fn a_sum_of_twenty_bits_is_refuted(rt: HostRuntime) -> Result<(), Fail> {
    let clauses = sums_differ(rt.alloc(), 20, true)?;
    assert_eq!(rt; searched(rt.alloc(), &clauses, 1)?, Told::Spent(1));
    assert_eq!(rt; searched(rt.alloc(), &clauses, 1_000_000)?, Told::Refuted);
    Ok(())
}
