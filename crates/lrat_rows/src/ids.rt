// Ids, deletions and room.
use crate::make::{Row, checker, first_other, square};
use lrat_check::LineError;
use std::test::Fail;

#[test]
fn ids_may_have_holes(rt: HostRuntime) -> Result<(), Fail> {
    let mut checker = square(rt.alloc())?;
    let rows = [
        Row {
            id: 1_000,
            clause: &[2],
            hints: &[1, 2],
            answer: Ok(()),
        },
        Row {
            id: 999,
            clause: &[2],
            hints: &[1, 2],
            answer: Err(LineError::IdNotRising),
        },
        Row {
            id: 1_000_000_000_000,
            clause: &[1],
            hints: &[1000, 3],
            answer: Ok(()),
        },
        Row {
            id: 9_223_372_036_854_775_806,
            clause: &[3],
            hints: &[5],
            answer: Err(LineError::HintUnknown { hint: 5 }),
        },
        Row {
            id: 9_223_372_036_854_775_806,
            clause: &[3],
            hints: &[9_223_372_036_854_775_807],
            answer: Err(LineError::HintUnknown {
                hint: 9_223_372_036_854_775_807,
            }),
        },
        Row {
            id: 9_223_372_036_854_775_806,
            clause: &[-3],
            hints: &[1_000_000_000_000, 1_000, 4],
            answer: Ok(()),
        },
        Row {
            id: 9_223_372_036_854_775_807,
            clause: &[],
            hints: &[1_000_000_000_000, 1_000, 4],
            answer: Ok(()),
        },
        Row {
            id: 18_446_744_073_709_551_615,
            clause: &[1],
            hints: &[9_223_372_036_854_775_807],
            answer: Ok(()),
        },
        Row {
            id: 18_446_744_073_709_551_615,
            clause: &[1],
            hints: &[9_223_372_036_854_775_807],
            answer: Err(LineError::IdNotRising),
        },
    ];
    assert_eq!(rt; first_other(&mut checker, &rows), None);
    assert_eq!(rt; checker.closed(), true);
    Ok(())
}

#[test]
fn a_deleted_clause_is_no_hint(rt: HostRuntime) -> Result<(), Fail> {
    let mut checker = square(rt.alloc())?;
    checker.delete(&[99, 0, 2]);
    checker.delete(&[2]);
    checker.delete(&[]);
    let rows = [
        Row {
            id: 5,
            clause: &[2],
            hints: &[1, 2],
            answer: Err(LineError::HintUnknown { hint: 2 }),
        },
        Row {
            id: 2,
            clause: &[1],
            hints: &[1, 3],
            answer: Err(LineError::IdNotRising),
        },
        Row {
            id: 5,
            clause: &[1],
            hints: &[1, 3],
            answer: Ok(()),
        },
    ];
    assert_eq!(rt; first_other(&mut checker, &rows), None);
    checker.delete(&[5, 1, 5]);
    let rows = [
        Row {
            id: 5,
            clause: &[1],
            hints: &[3],
            answer: Err(LineError::IdNotRising),
        },
        Row {
            id: 6,
            clause: &[1],
            hints: &[3, 5],
            answer: Err(LineError::HintUnknown { hint: 5 }),
        },
    ];
    assert_eq!(rt; first_other(&mut checker, &rows), None);
    Ok(())
}

#[test]
fn the_empty_clause_counts_though_it_is_deleted(rt: HostRuntime) -> Result<(), Fail> {
    let mut closing = checker(rt.alloc(), 1, &[&[1], &[-1]])?;
    assert_eq!(rt; closing.closed(), false);
    assert_eq!(rt; closing.add(3, &[], &[1, 2]), Ok(()));
    assert_eq!(rt; closing.closed(), true);
    closing.delete(&[3]);
    assert_eq!(rt; closing.closed(), true);
    let mut closed = checker(rt.alloc(), 1, &[&[1], &[]])?;
    assert_eq!(rt; closed.closed(), true);
    closed.delete(&[2]);
    assert_eq!(rt; closed.closed(), true);
    Ok(())
}

#[test]
fn the_room_of_deleted_clauses_is_used_again(rt: HostRuntime) -> Result<(), Fail> {
    let mut checker = square(rt.alloc())?;
    checker.reserve(2, 3)?;
    for number in 0..20_000 {
        let id = 5 + 3 * number;
        if checker.add(id, &[2, 3, 4], &[1, 2]) != Ok(()) {
            return Err(Fail::from("not added"));
        }
        if number % 1_000 != 0 {
            checker.delete(&[id]);
        }
    }
    let rows = [
        Row {
            id: 100_000,
            clause: &[2, 3, 4],
            hints: &[3_005],
            answer: Ok(()),
        },
        Row {
            id: 100_001,
            clause: &[2, 3, 4],
            hints: &[3_008],
            answer: Err(LineError::HintUnknown { hint: 3_008 }),
        },
        Row {
            id: 100_001,
            clause: &[2, 3, 4],
            hints: &[57_005],
            answer: Ok(()),
        },
        Row {
            id: 100_002,
            clause: &[2],
            hints: &[1, 2],
            answer: Ok(()),
        },
    ];
    assert_eq!(rt; first_other(&mut checker, &rows), None);
    Ok(())
}
