// Arrays that aren't registers or have another number of elements, and clocks.
use crate::answer::{bodies_hold, rows_hold};
use std::test::Fail;

#[test]
fn arrays_are_registers_of_a_power_of_two(rt: HostRuntime) -> Result<(), Fail> {
    let rows = "
        (* an array is a register *)
        MODULE A(IN $m: [4] BYTE); END A. => ArrayShape m
        MODULE A(OUT $m: [4] WORD); END A. => ArrayShape m
        MODULE A(INOUT $m: [4] [4] BIT); END A. => ArrayShape m
        MODULE A(); VAR $m: [4] BYTE; END A. => ArrayShape m
        MODULE A(); VAR $m, k: [4] BYTE; END A. => ArrayShape m
        MODULE A(); VAR $m: [3] BYTE; END A. => ArrayShape m
        MODULE A(); VAR v: BIT; $m: [4] [1] BIT; END A. => ArrayShape m
        MODULE A(); VAR $m: [n] BYTE; END A. => ArrayShape m
        (* an array has a power of two from 2 to 1024 of elements *)
        MODULE A(IN c: BIT); REG (c) $m: [0] BYTE; END A. => ArrayShape m
        MODULE A(IN c: BIT); REG (c) $m: [1] BYTE; END A. => ArrayShape m
        MODULE A(IN c: BIT); REG (c) $m: [3] BYTE; END A. => ArrayShape m
        MODULE A(IN c: BIT); REG (c) $m: [6] WORD; END A. => ArrayShape m
        MODULE A(IN c: BIT); REG (c) $m: [1023] [4] BIT; END A. => ArrayShape m
        MODULE A(IN c: BIT); REG (c) $m: [2048] BYTE; END A. => ArrayShape m
        MODULE A(IN c: BIT); REG (c) $m: [170141183460469231731687303715884105728] BYTE; END A. => ArrayShape m
        MODULE A(IN c: BIT); CONST n := 0; REG (c) $m: [n] BYTE; END A. => ArrayShape m
        MODULE A(IN c: BIT); CONST n := 1; REG (c) $m: [n] BYTE; END A. => ArrayShape m
        MODULE A(IN c: BIT); CONST n := 12'4; REG (c) $m: [n] BYTE; END A. => ArrayShape m
        MODULE A(IN c: BIT); CONST n := 3; REG (c) $m: [n] BYTE; END A. => ArrayShape m
        MODULE A(IN c: BIT); REG (c) q: BIT; k: [2] BYTE; $m: [7] BYTE; END A. => ArrayShape m
    ";
    rows_hold(&rt, rt.alloc(), rows)
}

#[test]
fn a_module_has_one_clock_which_stands_alone(rt: HostRuntime) -> Result<(), Fail> {
    let rows = "
        (* a clock is an in port of one bit *)
        MODULE A(OUT c: BIT); REG ($c) q: BIT; END A. => Clock
        MODULE A(INOUT c: BIT); REG ($c) q: BIT; END A. => Clock
        MODULE A(IN c: [2] BIT); REG ($c) q: BIT; END A. => Clock
        MODULE A(IN c: BYTE); REG ($c) q: BIT; END A. => Clock
        MODULE A(IN c: [n] BIT); CONST n := 2'2; REG ($c) q: BIT; END A. => Clock
        MODULE A(); CONST c := 1; REG ($c) q: BIT; END A. => Clock
        MODULE A(); VAR c: BIT; REG ($c) q: BIT; END A. => Clock
        MODULE A(); REG ($q) q: BIT; END A. => Clock
        MODULE A(IN c: BIT); REG (c) q: BIT; REG ($q) r: BIT; END A. => Clock
        MODULE I(); END I. MODULE A(); VAR u: I; REG ($u) q: BIT; END A. => Clock
        MODULE A(IN c: [n] BIT); CONST n := 2; REG ($c) q: BIT; END A. => Clock
        (* a module has one clock *)
        MODULE A(IN c, d: BIT); REG (c) q: BIT; REG ($d) r: BIT; END A. => Clock
        MODULE A(IN c, d: BIT); REG (d) q: BIT; REG ($c) r: BIT; END A. => Clock
        MODULE A(IN c, d: BIT); REG (c) q: BIT; REG (c) r: BIT; REG ($d) s: BIT; REG (c) t: BIT; END A. => Clock
        MODULE I(IN c: BIT); REG (c) q: BIT; BEGIN q := q END I. MODULE A(IN c, d: BIT); VAR u, v: I; BEGIN u(c); v($d) END A. => Clock
        MODULE I(IN c: BIT); REG (c) q: BIT; BEGIN q := q END I. MODULE A(IN c, d: BIT); VAR u, v: I; BEGIN v(d); u($c) END A. => Clock
        MODULE I(IN c: BIT); REG (c) q: BIT; BEGIN q := q END I. MODULE M(IN c: BIT); VAR u: I; BEGIN u(c) END M. MODULE A(IN c, d: BIT); REG (c) q: BIT; VAR u: M; BEGIN u($d); q := q END A. => Clock
        (* a clock is one in the whole of its module *)
        MODULE A(IN c: BIT; OUT x: BIT); BEGIN x := c END A. MODULE B(IN c: BIT; OUT x: BIT); REG (c) q: BIT; BEGIN q := q; x := $c END B. => Clock
        MODULE A(IN c: BIT; OUT x: BIT); REG (c) q: BIT; BEGIN q := q; x := $c END A. MODULE B(IN c: BIT; OUT x: BIT); BEGIN x := c END B. => Clock
        MODULE I(IN c: BIT); REG (c) q: BIT; BEGIN q := q END I. MODULE A(IN c: BIT; OUT x: BIT); VAR u: I; BEGIN x := $c; u(c) END A. => Clock
        MODULE I(IN c: BIT; OUT x: BIT); BEGIN x := c END I. MODULE A(IN c: BIT; OUT x: BIT); REG (c) q: BIT; VAR u: I; BEGIN q := q; u($c, x) END A. => Clock
        MODULE I(IN c: BIT); REG (c) q: BIT; BEGIN q := q END I. MODULE M(IN c: BIT); VAR u: I; BEGIN u(c) END M. MODULE A(IN c: BIT; OUT x: BIT); VAR u: M; BEGIN u(c); x := $c END A. => Clock
    ";
    rows_hold(&rt, rt.alloc(), rows)?;
    let bodies = "
        (* a module has one clock *)
        u($bit, bit, byte, var, pad) => Clock
        u(($bit), bit, byte, var, pad) => Clock
        (* the argument for a clock is the bare name of one *)
        u($nib, bit, byte, var, pad) => Clock
        u($out, bit, byte, var, pad) => Clock
        u($three, bit, byte, var, pad) => Clock
        u($none, bit, byte, var, pad) => Clock
        u($reg, bit, byte, var, pad) => Clock
        u($one, bit, byte, var, pad) => Clock
        u($1, bit, byte, var, pad) => Clock
        u($~clk, bit, byte, var, pad) => Clock
        u($clk & bit, bit, byte, var, pad) => Clock
        u($bit & clk, bit, byte, var, pad) => Clock
        u($(bit & bit), bit, byte, var, pad) => Clock
        u($clk.0, bit, byte, var, pad) => Clock
        u($bit.0, bit, byte, var, pad) => Clock
        u(${clk}, bit, byte, var, pad) => Clock
        u($mem[three], bit, byte, var, pad) => Clock
        u($pad, bit, byte, var, pad) => Kind
        u($u, bit, byte, var, pad) => Kind
        u($mem, bit, byte, var, pad) => Kind
        (* a clock stands nowhere else *)
        one := $clk => Clock
        one := $clk.0 => Clock
        one := $clk[0 : 0] => Clock
        one := ~$clk => Clock
        one := bit & $clk => Clock
        var := {bit ! 7, $clk} => Clock
        var := $clk -> byte : low => Clock
        var := bit -> $clk : low => Clock
        var := SHL(byte, $clk) => Clock
        var := mem[$clk] => Clock
        mem[$clk] := byte => Clock
        mem[three] := $clk => Clock
        u(clk, $clk, byte, var, pad) => Clock
        u(clk, bit, byte, var, pad, $clk) => Clock
        TS(pad, var, $clk, bit) => Clock
        TS(pad, var, byte, $clk) => Clock
    ";
    bodies_hold(&rt, rt.alloc(), bodies)
}
