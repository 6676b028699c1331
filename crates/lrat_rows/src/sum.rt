// A refutation of 28 clauses: that two ways of writing a sum of two bits differ.
use crate::make::{Row, checker, first_other};
use lrat_check::{Checker, LineError};
use std::alloc::Global;
use std::test::Fail;

/// The gates from 3 to 11 with three clauses each, and that the last one is true.
pub(crate) fn sum(alloc: Global) -> Result<Checker, Fail> {
    checker(
        alloc,
        11,
        &[
            &[-3, 1],
            &[-3, 2],
            &[3, -1, -2],
            &[-4, -1],
            &[-4, -2],
            &[4, 1, 2],
            &[-5, -3],
            &[-5, -4],
            &[5, 3, 4],
            &[-6, -1],
            &[-6, 2],
            &[6, 1, -2],
            &[-7, 1],
            &[-7, -2],
            &[7, -1, 2],
            &[-8, -6],
            &[-8, -7],
            &[8, 6, 7],
            &[-9, 5],
            &[-9, -8],
            &[9, -5, 8],
            &[-10, -5],
            &[-10, 8],
            &[10, 5, -8],
            &[-11, -9],
            &[-11, -10],
            &[11, 9, 10],
            &[11],
        ],
    )
}

#[test]
fn the_four_lines_close(rt: HostRuntime) -> Result<(), Fail> {
    let mut checker = sum(rt.alloc())?;
    let rows = [
        Row {
            id: 29,
            clause: &[-1, -2],
            hints: &[28, 26, 3, 7, 10, 14, 18, 24],
            answer: Ok(()),
        },
        Row {
            id: 30,
            clause: &[-1],
            hints: &[29, 28, 25, 2, 4, 9, 15, 17, 21],
            answer: Ok(()),
        },
        Row {
            id: 31,
            clause: &[-2],
            hints: &[30, 28, 25, 1, 5, 9, 12, 16, 21],
            answer: Ok(()),
        },
        Row {
            id: 32,
            clause: &[],
            hints: &[30, 31, 28, 26, 6, 8, 11, 13, 18, 24],
            answer: Ok(()),
        },
    ];
    assert_eq!(rt; first_other(&mut checker, &rows), None);
    assert_eq!(rt; checker.closed(), true);
    Ok(())
}

#[test]
fn a_hint_that_comes_too_early_is_idle(rt: HostRuntime) -> Result<(), Fail> {
    let mut checker = sum(rt.alloc())?;
    let rows = [Row {
        id: 29,
        clause: &[-1, -2],
        hints: &[24, 28, 26, 3, 7, 10, 14, 18],
        answer: Err(LineError::HintIdle { hint: 24 }),
    }];
    assert_eq!(rt; first_other(&mut checker, &rows), None);
    assert_eq!(rt; checker.closed(), false);
    Ok(())
}
