// Closed chains of signals, each of which occurs in the equation of the next.
use crate::answer::gives;
use std::test::Fail;

#[test]
fn a_loop_is_named_from_its_earliest_signal(rt: HostRuntime) -> Result<(), Fail> {
    let alloc = rt.alloc();
    gives(
        &rt,
        alloc,
        "MODULE L(OUT x: BIT); BEGIN x := ~x END L.",
        "loop x",
    )?;
    gives(
        &rt,
        alloc,
        "MODULE L(IN clk: BIT; OUT x: BIT); REG (clk) r: BIT; VAR y: BIT;
        BEGIN r := r; x := y; y := r & x END L.",
        "loop x y",
    )?;
    // what only waits for a loop is no part of it
    gives(
        &rt,
        alloc,
        "MODULE L(OUT w: BIT); VAR a, b, c: BIT; BEGIN w := a; a := c; c := ~b; b := a END L.",
        "loop a b c",
    )
}

// An OUT port that feeds back: through a register it is no loop, through wires it is one.
#[test]
fn an_out_port_feeds_back(rt: HostRuntime) -> Result<(), Fail> {
    let alloc = rt.alloc();
    gives(
        &rt,
        alloc,
        "MODULE R(IN clk, a: BIT; OUT o: BIT); REG (clk) q: BIT; BEGIN q := ~a; o := q END R.
        MODULE L(IN clk: BIT; OUT x: BIT); VAR u: R; BEGIN u(clk, x, x) END L.",
        "L clock clk
        ports clk x
        clk input 1
        x wire 1 = u.o
        u.a wire 1 = x
        u.o wire 1 = u.q
        u.q register 1 := not(u.a)
        order u.o x u.a",
    )?;
    gives(
        &rt,
        alloc,
        "MODULE N(IN a: BIT; OUT o: BIT); BEGIN o := ~a END N.
        MODULE L(OUT x: BIT); VAR u: N; BEGIN u(x, x) END L.",
        "loop x u.a u.o",
    )
}

#[test]
fn a_loop_stands_within_an_instance(rt: HostRuntime) -> Result<(), Fail> {
    let alloc = rt.alloc();
    gives(
        &rt,
        alloc,
        "MODULE N(IN a: BIT; OUT o: BIT); VAR b: BIT; BEGIN b := o ^ a; o := b END N.
        MODULE L(IN a: BIT; OUT x: BIT); VAR u: N; BEGIN u(a, x) END L.",
        "loop u.o u.b",
    )?;
    // two instances, each of which is harmless alone
    gives(
        &rt,
        alloc,
        "MODULE N(IN a: BIT; OUT o: BIT); BEGIN o := ~a END N.
        MODULE L(); VAR u, v: N; x, y: BIT; BEGIN u(y, x); v(x, y) END L.",
        "loop u.a u.o x v.a v.o y",
    )
}

// What drives a pad, and whether it is released, may not hang on what the pad carries; the outside value is no
// signal. The place of an element that is read is used, and the array isn't.
#[test]
fn a_loop_goes_through_pads_and_places(rt: HostRuntime) -> Result<(), Fail> {
    let alloc = rt.alloc();
    gives(
        &rt,
        alloc,
        "MODULE P(INOUT p: BIT; IN z: BIT; OUT i: BIT); BEGIN TS(p, i, ~i, z) END P.",
        "loop p i",
    )?;
    gives(
        &rt,
        alloc,
        "MODULE P(INOUT p: BIT; IN d: BIT; OUT i: BIT); BEGIN TS(p, i, d, i) END P.",
        "loop p i",
    )?;
    gives(
        &rt,
        alloc,
        "MODULE E(IN clk: BIT; OUT o: [2] BIT); REG (clk) R: [4] [2] BIT;
        BEGIN R[R[0'2]] := R[R[3'2]]; o := R[o] END E.",
        "loop o",
    )
}
