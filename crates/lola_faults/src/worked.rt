// Worked examples, with their places as numbers.
use crate::answer::{answers, rows_hold};
use std::test::Fail;

#[test]
fn a_sum_of_unequal_widths(rt: HostRuntime) -> Result<(), Fail> {
    answers(
        &rt,
        rt.alloc(),
        "MODULE W(IN a: [8] BIT; b: [4] BIT; OUT o: [8] BIT); BEGIN o := a + b END W.",
        "Width 66 8 4",
    )?;
    answers(
        &rt,
        rt.alloc(),
        "MODULE W(IN a: [8] BIT; b: [8] BIT; OUT o: [8] BIT); BEGIN o := a + b END W.",
        "well sized",
    )
}

#[test]
fn a_port_of_129_bits(rt: HostRuntime) -> Result<(), Fail> {
    answers(
        &rt,
        rt.alloc(),
        "MODULE W(OUT o: [129] BIT); BEGIN o := 0 END W.",
        "TooWide 17",
    )?;
    answers(
        &rt,
        rt.alloc(),
        "MODULE W(OUT o: [128] BIT); BEGIN o := 1H'128 END W.",
        "well sized",
    )
}

#[test]
fn another_name_behind_the_end(rt: HostRuntime) -> Result<(), Fail> {
    answers(&rt, rt.alloc(), "MODULE A(); END B.", "Kind 16")
}

#[test]
fn designs_that_run(rt: HostRuntime) -> Result<(), Fail> {
    let rows = "
        MODULE Tog(IN clk, rst, t: BIT; OUT o: BIT); REG (clk) q: BIT; BEGIN q := ~rst & (q ^ t); o := q END Tog.
        MODULE Cnt(IN clk, rst: BIT); REG (clk) q0, q1: BIT; BEGIN q0 := ~rst & ~q0; q1 := q1 ^ (q0 & ~rst) END Cnt.
        MODULE L(OUT x: BIT); BEGIN x := ~x END L.
        MODULE L(IN clk: BIT; OUT x: BIT); REG (clk) r: BIT; VAR y: BIT; BEGIN r := r; x := y; y := r & x END L.
        MODULE HA(IN a, b: BIT; OUT s, c: BIT); BEGIN s := a ^ b; c := a & b END HA. MODULE FA(IN x, y, z: BIT; OUT s, c: BIT); VAR u, v: HA; s1, c1, c2: BIT; BEGIN u(x, y, s1, c1); v(s1, z, s, c2); c := c1 | c2 END FA.
        MODULE P(INOUT p: BIT; IN z, d: BIT; OUT i: BIT); VAR c: BIT; BEGIN TS(p, c, d, z); i := c END P.
        MODULE C8(IN clk: BIT; OUT o: BYTE); REG (clk) q: BYTE; BEGIN q := q + 1'8; o := q END C8.
    ";
    rows_hold(&rt, rt.alloc(), rows)
}
