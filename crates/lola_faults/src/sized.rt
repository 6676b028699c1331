// Designs that break no rule of names, widths and assignments.
use crate::answer::{bodies_hold, rows_hold};
use std::test::Fail;

#[test]
fn bodies_of_the_frame(rt: HostRuntime) -> Result<(), Fail> {
    let bodies = "
        out := byte; reg := byte; mem[three] := byte; low := byte; one := bit; u(clk, bit, byte, var, pad); TS(thin, half, nib, bit)
        TS(thin, half, (nib), (bit)); u((clk), (bit), (byte), (var), (pad)); one := (bit); low := (byte); mem[(three)] := (byte); reg := (byte); out := (byte)
    ";
    bodies_hold(&rt, rt.alloc(), bodies)
}

#[test]
fn declarations_and_statements(rt: HostRuntime) -> Result<(), Fail> {
    let rows = "
        (* names *)
        MODULE A(); END A.
        MODULE A(); BEGIN END A.
        MODULE A(IN a: BIT); END A.
        MODULE A(); CONST n := 1; END A.
        MODULE A(IN A: BIT); END A.
        MODULE A(IN a, b: BIT); END A. MODULE B(IN a, b: BIT); END B.
        MODULE A(IN a, A, aa, AA: BIT); END A.
        MODULE A(OUT A: BIT); BEGIN A := 0 END A. MODULE B(OUT A: BIT); BEGIN A := 0 END B.
        MODULE A(IN a: BIT); END A. MODULE B(); VAR A: A; BEGIN A(0) END B.
        MODULE A(IN a: [n] BIT); CONST n := 8'4; END A.
        MODULE A(IN c: [n] BIT); CONST n := 1; REG (c) q: BIT; BEGIN q := q END A.
        (* clocks *)
        MODULE A(IN c: [1] BIT); REG (c) q: BIT; BEGIN q := ~q END A.
        MODULE A(IN c: BIT); REG (c) q: BIT; REG (c) r: BYTE; BEGIN q := r.0; r := {q ! 8} END A.
        MODULE A(IN c: BIT; OUT x: BIT); BEGIN x := c END A.
        MODULE A(IN c: BIT; OUT x: BIT); BEGIN x := c END A. MODULE B(IN c, d: BIT; OUT x: BIT); REG (c) q: BIT; VAR u: A; BEGIN u(d, x); q := x END B.
        MODULE I(IN c: BIT); REG (c) q: BIT; BEGIN q := q END I. MODULE A(IN c: BIT); VAR u, v: I; BEGIN u(c); v((c)) END A.
        MODULE I(IN c: BIT); REG (c) q: BIT; BEGIN q := q END I. MODULE M(IN k: [1] BIT); VAR u: I; BEGIN u(k) END M. MODULE A(IN d, c: BIT); REG (c) q: BIT; VAR u: M; BEGIN q := d; u(c) END A.
        MODULE A(IN c: BIT; OUT x: BIT); BEGIN x := c END A. MODULE B(IN c: BIT; OUT x: BIT); REG (c) q: BIT; BEGIN q := q; x := q END B. MODULE C(IN d, c: BIT; OUT x, y: BIT); VAR u: A; v: B; BEGIN u(d, x); v(c, y) END C.
        (* arrays *)
        MODULE A(IN c, a: BIT); REG (c) m: [2] BYTE; BEGIN m[a] := 1'8 END A.
        MODULE A(IN c: BIT; a: [10] BIT); REG (c) m: [1024] BYTE; BEGIN m[a] := m[a] + 1'8 END A.
        MODULE A(IN c: BIT); REG (c) m: [1024] WORD; BEGIN m[1023'10] := 0'32 END A.
        MODULE A(IN c: BIT); REG (c) m: [4] [1] BIT; BEGIN m[0'2] := m[1'2] = 0 END A.
        MODULE A(IN c: BIT); REG (c) k, m: [8] BYTE; BEGIN k[0'3] := m[1'3]; m[7'3] := k[0'3] END A.
        MODULE A(IN c: BIT); REG (c) k, m: [256] BYTE; BEGIN k[m[3'8]] := m[k[m[0'8]]]; m[1'8] := 2'8 END A.
        MODULE A(IN c: BIT; a: BYTE; OUT x: BYTE); REG (c) R: [4] BYTE; BEGIN R[a[1 : 0]] := a; x := R[a[7 : 6]] END A.
        MODULE A(IN c: BIT); REG (c) a: [8] BYTE; b: [16] BYTE; d: [32] BYTE; e: [64] BYTE; f: [128] BYTE; g: [512] BYTE; BEGIN a[0'3] := 0'8; b[0'4] := 0'8; d[0'5] := 0'8; e[0'6] := 0'8; f[0'7] := 0'8; g[0'9] := 0'8 END A.
        (* instances and pads *)
        MODULE I(IN c: BIT; a: BYTE; OUT x: BYTE; INOUT p: BYTE); REG (c) q: BYTE; VAR v: BYTE; BEGIN q := a; x := v; TS(p, v, q, a.0) END I. MODULE A(IN c: BIT; a: BYTE; OUT x: BYTE; INOUT p: BYTE); VAR u: I; BEGIN u(c, a + 1'8, x, p) END A.
        MODULE I(IN a: BIT; OUT x: BIT); BEGIN x := a END I. MODULE A(IN a: BIT; OUT x: BIT); VAR u, v: I; w: BIT; BEGIN u(~a, (w)); v(w & a, x) END A.
        MODULE I(INOUT p: BIT; OUT i: BIT); BEGIN TS(p, i, 1, 0) END I. MODULE M(INOUT p: BIT; OUT i: BIT); VAR u: I; BEGIN u((p), i) END M. MODULE A(INOUT p, r: BIT); VAR u, v: M; i, j: BIT; BEGIN v(r, i); u(p, j) END A.
        MODULE I(IN a: [2] BIT); END I. MODULE A(); VAR u: I; BEGIN u({1, 0}) END A.
        MODULE A(INOUT p: BYTE; IN d: BYTE; z: BIT; OUT i: BYTE); BEGIN TS(p, i, d, z) END A.
        MODULE A(INOUT p: [4] BIT); VAR v: [4] BIT; BEGIN TS(p, v, (v), (v.0)) END A.
    ";
    rows_hold(&rt, rt.alloc(), rows)
}

#[test]
fn expressions(rt: HostRuntime) -> Result<(), Fail> {
    let rows = "
        (* operators *)
        MODULE A(IN a, b: BYTE; OUT x: BYTE); BEGIN x := a & b END A.
        MODULE A(IN a, b: BYTE; OUT x: BYTE); BEGIN x := a | b END A.
        MODULE A(IN a, b: BYTE; OUT x: BYTE); BEGIN x := a ^ b END A.
        MODULE A(IN a, b: BYTE; OUT x: BYTE); BEGIN x := a + b END A.
        MODULE A(IN a, b: BYTE; OUT x: BYTE); BEGIN x := a - b END A.
        MODULE A(IN a: BYTE; OUT x: BYTE); BEGIN x := ~a END A.
        MODULE A(IN a, b: BYTE; OUT x: BIT); BEGIN x := a = b END A.
        MODULE A(IN a, b: BYTE; OUT x: BIT); BEGIN x := a # b END A.
        MODULE A(IN a, b: BYTE; OUT x: BIT); BEGIN x := a < b END A.
        MODULE A(IN a, b: BYTE; OUT x: BIT); BEGIN x := a <= b END A.
        MODULE A(IN a, b: BYTE; OUT x: BIT); BEGIN x := a > b END A.
        MODULE A(IN a, b: BYTE; OUT x: BIT); BEGIN x := a >= b END A.
        MODULE A(IN a, b: BYTE; t: BIT; OUT x: BYTE); BEGIN x := t -> a : b END A.
        MODULE A(IN a, b: BYTE; OUT x: BYTE); BEGIN x := a < b -> a + b : a = b -> a : ~b END A.
        MODULE A(IN a, b: BYTE; OUT x: BYTE); BEGIN x := a + b & ~a - (a | b) ^ a END A.
        (* shifts by any width *)
        MODULE A(IN a: BYTE; b: BIT; OUT x: BYTE); BEGIN x := SHL(a, b) END A.
        MODULE A(IN a: BYTE; b: WORD; OUT x: BYTE); BEGIN x := SHR(a, b) END A.
        MODULE A(IN a: BIT; b: [128] BIT; OUT x: BIT); BEGIN x := ASR(a, b) END A.
        MODULE A(IN a: [128] BIT; b: BYTE; OUT x: [128] BIT); BEGIN x := ROR(a, b) END A.
        MODULE A(IN a, b: BYTE; OUT x: BYTE); BEGIN x := SHL(a + b, ROR(b, 1)) END A.
        (* numbers and constants *)
        MODULE A(OUT x: BIT); BEGIN x := 0 END A.
        MODULE A(OUT x: BIT); BEGIN x := 1H'1 END A.
        MODULE A(OUT x: BYTE); BEGIN x := 255'8 END A.
        MODULE A(OUT x: [127] BIT); BEGIN x := 170141183460469231731687303715884105727'127 END A.
        MODULE A(OUT x: [128] BIT); BEGIN x := 340282366920938463463374607431768211455'128 END A.
        MODULE A(OUT x: [4] BIT); CONST n := 8'4; BEGIN x := n END A.
        MODULE A(OUT x: [4] BIT); CONST n := 8'4; BEGIN x := n + 1'4 END A.
        MODULE A(OUT x: BIT); CONST n := 8'4; BEGIN x := n.3 END A.
        MODULE A(OUT x: [4] BIT); CONST n := 8'4; BEGIN x := n[3 : 0] END A.
        MODULE A(OUT x: BIT); CONST n := 1; m := 0'1; BEGIN x := n & m END A.
        (* counts by constants *)
        MODULE A(IN a: [n] BIT; OUT x: BYTE); CONST n := 8'4; BEGIN x := a END A.
        MODULE A(OUT x: [128] BIT); CONST n := 128'8; VAR v: [n] BIT; BEGIN v := x; x := v END A.
        MODULE A(IN a: BYTE; OUT x: BIT); CONST n := 7'3; BEGIN x := a.n END A.
        MODULE A(IN a: BYTE; OUT x: [5] BIT); CONST n := 6'3; m := 2'2; BEGIN x := a[n : m] END A.
        MODULE A(IN a: BYTE; OUT x: BIT); CONST n := 7'3; BEGIN x := a[n : n] END A.
        MODULE A(IN a: BYTE; OUT x: WORD); CONST n := 4'3; BEGIN x := {a ! n} END A.
        MODULE A(IN c: BIT); CONST n := 2'2; REG (c) m: [n] [n] BIT; BEGIN m[0] := 3'2 END A.
        MODULE A(IN c: BIT; OUT x: BIT); CONST n := 0; REG (c) q: BYTE; BEGIN q := q; x := q.n END A.
        (* bits slices and concatenations *)
        MODULE A(IN a: BYTE; OUT x: BIT); BEGIN x := a.0 END A.
        MODULE A(IN a: BYTE; OUT x: BIT); BEGIN x := a.7 END A.
        MODULE A(IN a: [128] BIT; OUT x: BIT); BEGIN x := a.127 END A.
        MODULE A(IN a: BIT; OUT x: BIT); BEGIN x := a.0 END A.
        MODULE A(IN a: BYTE; OUT x: BYTE); BEGIN x := a[7 : 0] END A.
        MODULE A(IN a: BYTE; OUT x: BIT); BEGIN x := a[7 : 7] END A.
        MODULE A(IN a: [128] BIT; OUT x: [127] BIT); BEGIN x := a[127 : 1] END A.
        MODULE A(IN a: BIT; OUT x: [128] BIT); BEGIN x := {a ! 128} END A.
        MODULE A(IN a: BYTE; OUT x: [128] BIT); BEGIN x := {a ! 16} END A.
        MODULE A(IN a: [127] BIT; b: BIT; OUT x: [128] BIT); BEGIN x := {a, b} END A.
        MODULE A(IN a: BIT; OUT x: [128] BIT); BEGIN x := {{{a ! 4} ! 8} ! 4} END A.
        MODULE A(IN a, b: BYTE; OUT x: [20] BIT); BEGIN x := {a[7 : 4], b + a, 0FH'4, a = b ! 4} END A.
        MODULE A(OUT x: BYTE; y: BIT); BEGIN x := {y ! 8}; y := x.7 & (x = {x[6 : 0], y}) END A.
        (* vectors of 128 bits *)
        MODULE A(IN a, b: [128] BIT; OUT x: [128] BIT; y: BIT); BEGIN x := a + b; y := a < b END A.
        MODULE A(IN c: BIT; a: [128] BIT); REG (c) q: [128] BIT; BEGIN q := q ^ a END A.
        MODULE A(IN c: BIT; a: [128] BIT); REG (c) m: [2] [128] BIT; BEGIN m[a.0] := m[a.127] - a END A.
        MODULE A(INOUT p: [128] BIT); VAR v: [128] BIT; BEGIN TS(p, v, ~v, v = v) END A.
    ";
    rows_hold(&rt, rt.alloc(), rows)
}
