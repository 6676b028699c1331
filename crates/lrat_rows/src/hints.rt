// What the clause of a hint is.
use crate::make::{Row, checker, first_other, square};
use lrat_check::LineError;
use std::test::Fail;

#[test]
fn a_satisfied_hint_is_idle(rt: HostRuntime) -> Result<(), Fail> {
    let mut checker = square(rt.alloc())?;
    let rows = [
        Row {
            id: 5,
            clause: &[2],
            hints: &[1, 1],
            answer: Err(LineError::HintIdle { hint: 1 }),
        },
        Row {
            id: 5,
            clause: &[2],
            hints: &[1, 3],
            answer: Err(LineError::HintIdle { hint: 3 }),
        },
    ];
    assert_eq!(rt; first_other(&mut checker, &rows), None);
    Ok(())
}

#[test]
fn hints_behind_the_conflict_are_not_looked_up(rt: HostRuntime) -> Result<(), Fail> {
    let mut checker = square(rt.alloc())?;
    let rows = [
        Row {
            id: 5,
            clause: &[2],
            hints: &[1, 2, -3],
            answer: Err(LineError::Rat { hint: -3 }),
        },
        Row {
            id: 5,
            clause: &[2],
            hints: &[1, 2, 99, 0],
            answer: Ok(()),
        },
        Row {
            id: 6,
            clause: &[2],
            hints: &[1, 2, 1],
            answer: Ok(()),
        },
    ];
    assert_eq!(rt; first_other(&mut checker, &rows), None);
    Ok(())
}

#[test]
fn both_literals_of_a_tautology_are_false(rt: HostRuntime) -> Result<(), Fail> {
    let mut checker = checker(rt.alloc(), 3, &[&[1, 2], &[-1, 2], &[1, -2], &[3, -3]])?;
    let rows = [
        Row {
            id: 5,
            clause: &[1, -1],
            hints: &[1, 2],
            answer: Err(LineError::HintIdle { hint: 2 }),
        },
        Row {
            id: 5,
            clause: &[1, -1],
            hints: &[1, 3],
            answer: Ok(()),
        },
        Row {
            id: 6,
            clause: &[2, 3, -3],
            hints: &[4],
            answer: Ok(()),
        },
        Row {
            id: 7,
            clause: &[2],
            hints: &[5],
            answer: Err(LineError::HintIdle { hint: 5 }),
        },
    ];
    assert_eq!(rt; first_other(&mut checker, &rows), None);
    Ok(())
}

#[test]
fn a_repeated_literal_counts_once(rt: HostRuntime) -> Result<(), Fail> {
    let mut checker = checker(rt.alloc(), 2, &[&[1, 2, 1], &[-1, 2, -1, -1], &[-2, -2]])?;
    let rows = [
        Row {
            id: 4,
            clause: &[2, 2],
            hints: &[1],
            answer: Err(LineError::NoConflict),
        },
        Row {
            id: 4,
            clause: &[2, 2],
            hints: &[1, 2],
            answer: Ok(()),
        },
        Row {
            id: 5,
            clause: &[],
            hints: &[3, 4],
            answer: Ok(()),
        },
    ];
    assert_eq!(rt; first_other(&mut checker, &rows), None);
    assert_eq!(rt; checker.closed(), true);
    Ok(())
}
