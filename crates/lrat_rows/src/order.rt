// Each fault in its place in the order in which faults are looked for.
use crate::make::{Row, first_other, square};
use lrat_check::LineError;
use std::test::Fail;

#[test]
fn the_first_fault_in_order_counts(rt: HostRuntime) -> Result<(), Fail> {
    let mut checker = square(rt.alloc())?;
    let rows = [
        Row {
            id: 4,
            clause: &[9, 1],
            hints: &[99, -7],
            answer: Err(LineError::IdNotRising),
        },
        Row {
            id: 0,
            clause: &[],
            hints: &[],
            answer: Err(LineError::IdNotRising),
        },
        Row {
            id: 5,
            clause: &[1, -9, 8],
            hints: &[99, -7],
            answer: Err(LineError::VarUnknown { var: 9 }),
        },
        Row {
            id: 5,
            clause: &[4, 5],
            hints: &[99, -7],
            answer: Err(LineError::VarUnknown { var: 5 }),
        },
        Row {
            id: 5,
            clause: &[2],
            hints: &[99, -7, -8],
            answer: Err(LineError::Rat { hint: -7 }),
        },
        Row {
            id: 5,
            clause: &[2],
            hints: &[99, 3],
            answer: Err(LineError::HintUnknown { hint: 99 }),
        },
        Row {
            id: 5,
            clause: &[2],
            hints: &[0],
            answer: Err(LineError::HintUnknown { hint: 0 }),
        },
        Row {
            id: 5,
            clause: &[3],
            hints: &[1, 99],
            answer: Err(LineError::HintIdle { hint: 1 }),
        },
        Row {
            id: 5,
            clause: &[2],
            hints: &[1],
            answer: Err(LineError::NoConflict),
        },
        Row {
            id: 5,
            clause: &[],
            hints: &[],
            answer: Err(LineError::NoConflict),
        },
        Row {
            id: 5,
            clause: &[2],
            hints: &[1, 2],
            answer: Ok(()),
        },
    ];
    assert_eq!(rt; first_other(&mut checker, &rows), None);
    assert_eq!(rt; checker.closed(), false);
    Ok(())
}

#[test]
fn a_refused_line_leaves_nothing(rt: HostRuntime) -> Result<(), Fail> {
    let mut checker = square(rt.alloc())?;
    let rows = [
        Row {
            id: 7,
            clause: &[2],
            hints: &[1],
            answer: Err(LineError::NoConflict),
        },
        Row {
            id: 5,
            clause: &[],
            hints: &[1],
            answer: Err(LineError::HintIdle { hint: 1 }),
        },
        Row {
            id: 5,
            clause: &[],
            hints: &[5],
            answer: Err(LineError::HintUnknown { hint: 5 }),
        },
    ];
    assert_eq!(rt; first_other(&mut checker, &rows), None);
    Ok(())
}
