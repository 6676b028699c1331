// Clauses of gates, by all values of their inputs.
use crate::gates::Gates;
use crate::make::{Told, cnf, split_by, split_values};
use crate::sums::{sums_differ, two_bits};
use lrat_check::Cnf;
use std::alloc::Global;
use std::test::Fail;

#[test]
fn the_sum_of_two_bits_is_refuted_by_its_inputs(rt: HostRuntime) -> Result<(), Fail> {
    let clauses = two_bits(rt.alloc())?;
    assert_eq!(rt; split_by(rt.alloc(), &clauses, &[1, 2])?, Told::Refuted);
    assert_eq!(rt; split_by(rt.alloc(), &clauses, &[2, 1])?, Told::Refuted);
    Ok(())
}

#[test]
fn no_inputs_are_enough_for_no_gates(rt: HostRuntime) -> Result<(), Fail> {
    let none = cnf(rt.alloc(), 3, &[])?;
    assert_eq!(rt; split_by(rt.alloc(), &none, &[])?, Told::Satisfied);
    let empty = cnf(rt.alloc(), 3, &[&[]])?;
    assert_eq!(rt; split_by(rt.alloc(), &empty, &[])?, Told::Refuted);
    Ok(())
}

#[test]
fn one_input_alone(rt: HostRuntime) -> Result<(), Fail> {
    let shut = cnf(rt.alloc(), 1, &[&[1], &[-1]])?;
    assert_eq!(rt; split_by(rt.alloc(), &shut, &[1])?, Told::Refuted);
    let open = cnf(rt.alloc(), 2, &[&[1, 1]])?;
    assert_eq!(rt; split_by(rt.alloc(), &open, &[1])?, Told::Satisfied);
    Ok(())
}

// Gate 4 is that 1 and 2 are both false, and gate 5 that 3 and 1 are both true. Neither is to be so: of 1, 2, 3 the values
// 010, 011, 100 and 110 are left.
#[test]
fn the_least_assignment_is_found(rt: HostRuntime) -> Result<(), Fail> {
    let alloc = rt.alloc();
    let mut gates = Gates::new(alloc, 3);
    let neither = gates.and(-1, -2)?;
    let both = gates.and(3, 1)?;
    gates.clause(&[neither.wrapping_neg()])?;
    gates.clause(&[both.wrapping_neg()])?;
    let clauses = gates.done();
    let first = split_values(alloc, &clauses, &[1, 2, 3])?;
    let least = [false, true, false, false, false];
    assert!(rt; first.items() == least.as_slice());
    let second = split_values(alloc, &clauses, &[3, 2, 1])?;
    let least = [true, false, false, false, false];
    assert!(rt; second.items() == least.as_slice());
    Ok(())
}

#[test]
fn a_sum_of_four_bits_is_refuted_by_its_inputs(rt: HostRuntime) -> Result<(), Fail> {
    let inputs = [1, 2, 3, 4, 5, 6, 7, 8, 9];
    let shut = sums_differ(rt.alloc(), 4, true)?;
    assert_eq!(rt; split_by(rt.alloc(), &shut, &inputs)?, Told::Refuted);
    let open = sums_differ(rt.alloc(), 4, false)?;
    assert_eq!(rt; split_by(rt.alloc(), &open, &inputs)?, Told::Satisfied);
    Ok(())
}

/// That the parity of so many bits from the first on differs from that from the last on.
fn parities_differ(alloc: Global, width: i32) -> Result<Cnf, Fail> {
    let mut gates = Gates::new(alloc, width);
    let mut up = 1;
    let mut down = width;
    for step in 1..width {
        up = gates.xor(up, step.saturating_add(1))?;
        down = gates.xor(down, width.saturating_sub(step))?;
    }
    let differ = gates.xor(up, down)?;
    gates.clause(&[differ])?;
    Ok(gates.done())
}

// Nothing follows here before the last input but one has its value.
#[test]
fn the_parity_of_ten_bits_is_refuted(rt: HostRuntime) -> Result<(), Fail> {
    let inputs = [1, 2, 3, 4, 5, 6, 7, 8, 9, 10];
    let clauses = parities_differ(rt.alloc(), 10)?;
    assert_eq!(rt; split_by(rt.alloc(), &clauses, &inputs)?, Told::Refuted);
    Ok(())
}
