// Clauses at the edges of what a search takes.
use crate::make::{Told, cnf, searched, square};
use std::test::Fail;

#[test]
fn no_clauses_are_satisfied(rt: HostRuntime) -> Result<(), Fail> {
    let none = cnf(rt.alloc(), 3, &[])?;
    assert_eq!(rt; searched(rt.alloc(), &none, 1)?, Told::Satisfied);
    let nothing = cnf(rt.alloc(), 0, &[])?;
    assert_eq!(rt; searched(rt.alloc(), &nothing, 1)?, Told::Satisfied);
    Ok(())
}

#[test]
fn the_empty_clause_is_refuted(rt: HostRuntime) -> Result<(), Fail> {
    let empty = cnf(rt.alloc(), 3, &[&[1, 2], &[]])?;
    assert_eq!(rt; searched(rt.alloc(), &empty, 1)?, Told::Refuted);
    let alone = cnf(rt.alloc(), 0, &[&[]])?;
    assert_eq!(rt; searched(rt.alloc(), &alone, 1)?, Told::Refuted);
    Ok(())
}

#[test]
fn a_literal_with_its_negation_is_no_hindrance(rt: HostRuntime) -> Result<(), Fail> {
    let always = cnf(rt.alloc(), 1, &[&[1, -1]])?;
    assert_eq!(rt; searched(rt.alloc(), &always, 5)?, Told::Satisfied);
    let shut = cnf(rt.alloc(), 2, &[&[2, -2], &[1], &[1, -1, 2], &[-1]])?;
    assert_eq!(rt; searched(rt.alloc(), &shut, 5)?, Told::Refuted);
    let open = cnf(rt.alloc(), 2, &[&[1, -1, 2], &[-1, 2]])?;
    assert_eq!(rt; searched(rt.alloc(), &open, 5)?, Told::Satisfied);
    Ok(())
}

#[test]
fn repeated_literals_are_no_hindrance(rt: HostRuntime) -> Result<(), Fail> {
    let shut = cnf(rt.alloc(), 2, &[&[2, 2], &[-2, -2, -2]])?;
    assert_eq!(rt; searched(rt.alloc(), &shut, 5)?, Told::Refuted);
    let square = cnf(
        rt.alloc(),
        2,
        &[&[1, 2, 1], &[-1, 2, 2], &[1, -2, 1], &[-2, -1, -2]],
    )?;
    assert_eq!(rt; searched(rt.alloc(), &square, 5)?, Told::Refuted);
    let open = cnf(rt.alloc(), 3, &[&[1, 1, 3], &[-3, -3, -1]])?;
    assert_eq!(rt; searched(rt.alloc(), &open, 5)?, Told::Satisfied);
    Ok(())
}

#[test]
fn variables_that_no_clause_has_get_values(rt: HostRuntime) -> Result<(), Fail> {
    let one = cnf(rt.alloc(), 1000, &[&[7], &[-900, -7]])?;
    assert_eq!(rt; searched(rt.alloc(), &one, 1)?, Told::Satisfied);
    let two = cnf(rt.alloc(), 1000, &[&[7], &[-900, -7], &[900]])?;
    assert_eq!(rt; searched(rt.alloc(), &two, 1)?, Told::Refuted);
    Ok(())
}

// No clause of the square is a unit, so the empty clause doesn't follow at once: two additions are needed.
#[test]
fn a_limit_of_one_is_spent(rt: HostRuntime) -> Result<(), Fail> {
    let square = square(rt.alloc())?;
    assert_eq!(rt; searched(rt.alloc(), &square, 1)?, Told::Spent(1));
    assert_eq!(rt; searched(rt.alloc(), &square, 2)?, Told::Refuted);
    Ok(())
}
