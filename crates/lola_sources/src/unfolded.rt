// Sources that are accepted, with the signals of their flat designs and the order of their equations.
use crate::answer::answers;
use std::test::Fail;

// A full adder of two half adders.
#[test]
fn a_full_adder(rt: HostRuntime) -> Result<(), Fail> {
    answers(
        &rt,
        rt.alloc(),
        "MODULE HA(IN a, b: BIT; OUT s, c: BIT); BEGIN s := a ^ b; c := a & b END HA. MODULE FA(IN x, y, z: BIT; OUT s, c: BIT); VAR u, v: HA; s1, c1, c2: BIT; BEGIN u(x, y, s1, c1); v(s1, z, s, c2); c := c1 | c2 END FA.",
        "in x 1x1; in y 1x1; in z 1x1; wire s 1x1; wire c 1x1; wire u.a 1x1; wire u.b 1x1; wire u.s 1x1; wire u.c 1x1; wire v.a 1x1; wire v.b 1x1; wire v.s 1x1; wire v.c 1x1; wire s1 1x1; wire c1 1x1; wire c2 1x1; order u.a u.b u.s u.c v.b s1 v.a v.s s v.c c1 c2 c",
    )
}

// An instance that drives a pad of the root, two of a module with a register, and an array that is read and
// written. The clocks of instances are no signals. `o` needs inputs alone; the pad waits for what drives it, and
// what sees it comes behind.
#[test]
fn pads_registers_and_arrays(rt: HostRuntime) -> Result<(), Fail> {
    answers(
        &rt,
        rt.alloc(),
        "MODULE Drive(INOUT p: BIT; IN d, z: BIT; OUT i: BIT); VAR c: BIT; BEGIN TS(p, c, d, z); i := c END Drive. MODULE Count(IN clk, e: BIT; OUT n: BYTE); REG (clk) q: BYTE; BEGIN q := e -> q + 1'8 : q; n := q END Count. MODULE Board(IN clk, e, d: BIT; a: [2] BIT; INOUT io: BIT; OUT o: BYTE; seen: BIT); REG (clk) R: [4] BYTE; VAR u: Drive; v, w: Count; m, n: BYTE; BEGIN u(io, d, e, seen); v(clk, e, m); w(clk, seen, n); R[a] := m ^ n; o := R[a] END Board.",
        "in clk 1x1; in e 1x1; in d 1x1; in a 2x1; pad io 1x1; wire o 8x1; wire seen 1x1; reg R 8x4; wire u.p 1x1; wire u.d 1x1; wire u.z 1x1; wire u.i 1x1; wire u.c 1x1; wire v.e 1x1; wire v.n 8x1; reg v.q 8x1; wire w.e 1x1; wire w.n 8x1; reg w.q 8x1; wire m 8x1; wire n 8x1; order o u.d u.z io u.p u.c u.i seen v.e v.n w.e w.n m n",
    )
}
