// Orders and loops of few signals.
use crate::answer::{has_loop, has_order};
use std::test::Fail;

// Two adders of half a bit, u and v, that make a whole one: x y z s c u.a u.b u.s u.c v.a v.b v.s v.c s1 c1
// c2, in this order. Its equations stand in the order u.a, u.b, u.s, u.c, v.b, s1, v.a, v.s, s, v.c, c1, c2, c.
#[test]
fn two_half_adders(rt: HostRuntime) -> Result<(), Fail> {
    let rows = [
        None,
        None,
        None,
        Some([11].as_slice()),
        Some([14, 15].as_slice()),
        Some([0].as_slice()),
        Some([1].as_slice()),
        Some([5, 6].as_slice()),
        Some([5, 6].as_slice()),
        Some([13].as_slice()),
        Some([2].as_slice()),
        Some([9, 10].as_slice()),
        Some([9, 10].as_slice()),
        Some([7].as_slice()),
        Some([8].as_slice()),
        Some([12].as_slice()),
    ];
    let expected = [5, 6, 7, 8, 10, 13, 9, 11, 3, 12, 14, 15, 4];
    assert!(&rt; has_order(rt.alloc(), rows.as_slice(), expected.as_slice())?);
    Ok(())
}

// clk x r y, where r is a register: y := r & x and x := y, or x := x.
#[test]
fn a_loop_through_a_wire(rt: HostRuntime) -> Result<(), Fail> {
    let through = [None, Some([3].as_slice()), None, Some([2, 1].as_slice())];
    assert!(&rt; has_loop(rt.alloc(), through.as_slice(), [1, 3].as_slice())?);
    let itself = [None, Some([1].as_slice())];
    assert!(&rt; has_loop(rt.alloc(), itself.as_slice(), [1].as_slice())?);
    Ok(())
}

// What a register breaks is no loop, and what is used twice is placed once.
#[test]
fn no_loop(rt: HostRuntime) -> Result<(), Fail> {
    let rows = [Some([1, 1].as_slice()), None, Some([0, 1, 0].as_slice())];
    assert!(&rt; has_order(rt.alloc(), rows.as_slice(), [0, 2].as_slice())?);
    let none: [Option<&[u32]>; 0] = [];
    assert!(&rt; has_order(rt.alloc(), none.as_slice(), [].as_slice())?);
    Ok(())
}

// 0 only waits for a loop of 3, 1 and 2; it is no part of it.
#[test]
fn a_loop_begins_with_its_earliest(rt: HostRuntime) -> Result<(), Fail> {
    let rows = [
        Some([3].as_slice()),
        Some([2].as_slice()),
        Some([3].as_slice()),
        Some([1].as_slice()),
    ];
    assert!(&rt; has_loop(rt.alloc(), rows.as_slice(), [1, 3, 2].as_slice())?);
    Ok(())
}
