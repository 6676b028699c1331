// Widths and numbers that are too large, widths that differ, places outside a vector, and calls with
// another number of arguments than ports.
use crate::answer::{bodies_hold, rows_hold};
use std::test::Fail;

#[test]
fn widths_and_numbers_are_small_enough(rt: HostRuntime) -> Result<(), Fail> {
    let rows = "
        (* a width is 1 to 128 *)
        MODULE A(IN a: [$0] BIT); END A. => TooWide
        MODULE A(IN a: [$129] BIT); END A. => TooWide
        MODULE A(OUT a: [$129] BIT); END A. => TooWide
        MODULE A(INOUT a: [$129] BIT); END A. => TooWide
        MODULE A(IN a: [$340282366920938463463374607431768211455] BIT); END A. => TooWide
        MODULE A(IN a, b: [$129] BIT); END A. => TooWide
        MODULE A(); VAR v: [$0] BIT; END A. => TooWide
        MODULE A(); VAR v: [$129] BIT; END A. => TooWide
        MODULE A(IN c: BIT); REG (c) q: [$0] BIT; END A. => TooWide
        MODULE A(IN c: BIT); REG (c) q: [$129] BIT; END A. => TooWide
        MODULE A(IN c: BIT); REG (c) m: [4] [$0] BIT; END A. => TooWide
        MODULE A(IN c: BIT); REG (c) m: [4] [$129] BIT; END A. => TooWide
        (* a constant as a width is 1 to 128 *)
        MODULE A(); CONST n := 0; VAR v: [$n] BIT; END A. => TooWide
        MODULE A(); CONST n := 129'8; VAR v: [$n] BIT; END A. => TooWide
        MODULE A(IN a: [$n] BIT); CONST n := 129'8; END A. => TooWide
        MODULE A(IN c: BIT); CONST n := 200'8; REG (c) q: [$n] BIT; END A. => TooWide
        MODULE A(IN c: BIT); CONST n := 0'8; REG (c) m: [2] [$n] BIT; END A. => TooWide
        MODULE A(IN a: [$n] BIT); CONST n := 200; END A. => TooWide
        (* the number of a constant is below 2 to its width *)
        MODULE A(); CONST n := $8; END A. => TooWide
        MODULE A(); CONST n := $2; END A. => TooWide
        MODULE A(); CONST n := $0'0; END A. => TooWide
        MODULE A(); CONST n := $1'129; END A. => TooWide
        MODULE A(); CONST n := $8'3; END A. => TooWide
        MODULE A(); CONST n := 7'3; m := $8'3; END A. => TooWide
        MODULE A(); VAR v: BIT; CONST n := $2; END A. => TooWide
        MODULE A(); CONST n := $8; VAR v: [n] BIT; END A. => TooWide
        MODULE A(IN a: [n] BIT); CONST n := $8; END A. => TooWide
        MODULE A(IN c: BIT); CONST n := $4; REG (c) m: [n] BYTE; END A. => TooWide
    ";
    rows_hold(&rt, rt.alloc(), rows)?;
    let bodies = "
        (* a number is below 2 to its width *)
        one := $0'0 => TooWide
        one := $1'0 => TooWide
        one := $0'129 => TooWide
        one := $1'129 => TooWide
        one := $1'340282366920938463463374607431768211455 => TooWide
        one := $2'1 => TooWide
        one := $2 => TooWide
        one := $340282366920938463463374607431768211455 => TooWide
        var := $256'8 => TooWide
        var := $0FFH'7 => TooWide
        var := $170141183460469231731687303715884105728'127 => TooWide
        var := {bit, $16'4} => TooWide
        var := byte + $256'8 => TooWide
        mem[$4'2] := byte => TooWide
        var := SHL(byte, $8) => TooWide
        u(clk, $3, byte, var, pad) => TooWide
        TS(pad, var, byte, $2) => TooWide
        (* a concatenation has at most 128 bits *)
        var := {byte ! $0} => TooWide
        var := {byte ! $none} => TooWide
        var := {byte, bit ! $0} => TooWide
        var := ${bit ! 129} => TooWide
        var := ${byte ! 16, bit} => TooWide
        var := ${bit, byte ! 16} => TooWide
        var := ${byte ! 17} => TooWide
        var := ${1'128, bit} => TooWide
        var := ${byte ! 340282366920938463463374607431768211455} => TooWide
        var := ${byte ! 340282366920938463463374607431768211455, byte ! 340282366920938463463374607431768211455} => TooWide
        var := ${byte ! 20000000000000000000000000000000H, bit} => TooWide
        var := ${{nib ! 4} ! 9} => TooWide
        var := ${{{bit ! 3} ! 3} ! 3, {byte ! 13}} => TooWide
        var := {bit, ${byte ! 17}} => TooWide
        var := ${mem[three] ! 16, bit} => TooWide
        mem[${bit ! 129}] := byte => TooWide
    ";
    bodies_hold(&rt, rt.alloc(), bodies)
}

#[test]
fn widths_are_equal(rt: HostRuntime) -> Result<(), Fail> {
    let rows = "
        (* the place of an array has its width *)
        MODULE A(IN c: BIT); REG (c) m: [2] [1] BIT; BEGIN m$[0'2] := 0 END A. => Width 1 2
        MODULE A(IN c: BIT); REG (c) m: [8] [1] BIT; BEGIN m$[0'2] := 0 END A. => Width 3 2
        MODULE A(IN c: BIT); REG (c) m: [16] [1] BIT; BEGIN m$[0'3] := 0 END A. => Width 4 3
        MODULE A(IN c: BIT); REG (c) m: [32] [1] BIT; BEGIN m$[0'4] := 0 END A. => Width 5 4
        MODULE A(IN c: BIT); REG (c) m: [64] [1] BIT; BEGIN m$[0'5] := 0 END A. => Width 6 5
        MODULE A(IN c: BIT); REG (c) m: [128] [1] BIT; BEGIN m$[0'6] := 0 END A. => Width 7 6
        MODULE A(IN c: BIT); REG (c) m: [256] [1] BIT; BEGIN m$[0'7] := 0 END A. => Width 8 7
        MODULE A(IN c: BIT); REG (c) m: [512] [1] BIT; BEGIN m$[0'8] := 0 END A. => Width 9 8
        MODULE A(IN c: BIT); REG (c) m: [1024] [1] BIT; BEGIN m$[0'9] := 0 END A. => Width 10 9
    ";
    rows_hold(&rt, rt.alloc(), rows)?;
    let bodies = "
        (* sides of an operator have one width *)
        var := byte $& nib => Width 8 4
        var := byte $| nib => Width 8 4
        var := byte $^ nib => Width 8 4
        var := byte $+ nib => Width 8 4
        var := byte $- nib => Width 8 4
        one := byte $= nib => Width 8 4
        one := byte $# nib => Width 8 4
        one := byte $< nib => Width 8 4
        one := byte $<= nib => Width 8 4
        one := byte $> nib => Width 8 4
        one := byte $>= nib => Width 8 4
        var := nib $& byte => Width 4 8
        var := nib $+ byte => Width 4 8
        one := nib $< byte => Width 4 8
        var := byte & low $& bit => Width 8 1
        var := byte + low $- bit => Width 8 1
        var := byte $+ nib & half => Width 8 4
        var := byte $+ 1 => Width 8 1
        var := byte $+ three => Width 8 2
        var := byte $& 1'128 => Width 8 128
        var := byte $& out[6 : 0] => Width 8 7
        var := byte $& out.7 => Width 8 1
        var := byte $& {bit, half} => Width 8 5
        var := byte $& {nib ! 3} => Width 8 12
        var := byte $& (low = reg) => Width 8 1
        var := nib $& mem[three] => Width 4 8
        var := byte $& SHL(nib, byte) => Width 8 4
        var := byte $& ~nib => Width 8 4
        var := byte $& (bit -> nib : half) => Width 8 4
        (* results of a choice have one width and its test 1 *)
        var := bit $-> byte : nib => Width 8 4
        var := bit $-> nib : byte => Width 4 8
        var := nib $-> byte : low => Width 1 4
        var := byte + low $-> byte : low => Width 1 8
        var := nib $-> byte : half => Width 8 4
        var := bit -> byte : one $-> low : nib => Width 8 4
        var := bit $-> nib : one -> byte : low => Width 4 8
        (* the place of an array has its width *)
        var := mem$[byte] => Width 2 8
        var := mem$[(byte)] => Width 2 8
        var := mem$[0] => Width 2 1
        var := mem$[bit] => Width 2 1
        mem$[byte] := low => Width 2 8
        mem$[1'3] := low => Width 2 3
        (* a target and its value have one width *)
        var $:= nib => Width 8 4
        out $:= nib => Width 8 4
        reg $:= nib => Width 8 4
        half $:= byte => Width 4 8
        one $:= byte => Width 1 8
        var $:= 1 => Width 8 1
        var $:= three => Width 8 2
        var $:= byte = low => Width 8 1
        mem[three] $:= nib => Width 8 4
        mem[three] $:= byte.0 & bit => Width 8 1
        (* an argument and its port have one width *)
        u(clk, $nib, byte, var, pad) => Width 1 4
        u(clk, bit, $nib, var, pad) => Width 8 4
        u(clk, bit, $~nib, var, pad) => Width 8 4
        u(clk, bit, $(nib), var, pad) => Width 8 4
        u(clk, bit, $nib + half, var, pad) => Width 8 4
        u(clk, bit, ${nib, bit}, var, pad) => Width 8 5
        u(clk, bit, $1, var, pad) => Width 8 1
        u(clk, bit, $SHL(nib, byte), var, pad) => Width 8 4
        u(clk, bit, $mem[three] = byte, var, pad) => Width 8 1
        u(clk, bit, byte, $one, pad) => Width 8 1
        u(clk, bit, byte, $(one), pad) => Width 8 1
        u(clk, bit, byte, var, $thin) => Width 8 4
        u(clk, bit, byte, var, $(thin)) => Width 8 4
        (* what drives a pad has its width and the release 1 *)
        TS(pad, $half, byte, bit) => Width 8 4
        TS(pad, var, $nib, bit) => Width 8 4
        TS(pad, var, $(nib), bit) => Width 8 4
        TS(pad, var, $~nib, bit) => Width 8 4
        TS(pad, var, $nib + half, bit) => Width 8 4
        TS(pad, var, byte, $nib) => Width 1 4
        TS(pad, var, byte, $~nib) => Width 1 4
        TS(pad, $half, nib, bit) => Width 8 4
        TS(thin, $var, byte, bit) => Width 4 8
        TS(thin, half, $byte, bit) => Width 4 8
    ";
    bodies_hold(&rt, rt.alloc(), bodies)
}

#[test]
fn bits_slices_and_calls_fit(rt: HostRuntime) -> Result<(), Fail> {
    let rows = "
        (* a call has an argument for each port *)
        MODULE I(); END I. MODULE A(); VAR u: I; BEGIN $u(1) END A. => PortCount
        MODULE I(IN a, b: BIT); END I. MODULE A(); VAR u: I; BEGIN $u(1) END A. => PortCount
    ";
    rows_hold(&rt, rt.alloc(), rows)?;
    let bodies = "
        (* bits and slices lie below the width *)
        one := byte.$8 => IndexRange
        one := byte.$9 => IndexRange
        one := bit.$1 => IndexRange
        one := out.$8 => IndexRange
        one := reg.$8 => IndexRange
        one := half.$4 => IndexRange
        one := byte.$340282366920938463463374607431768211455 => IndexRange
        one := byte.$eight => IndexRange
        one := three.$2 => IndexRange
        one := eight.$eight => IndexRange
        one := none.$1 => IndexRange
        half := byte[$8 : 5] => IndexRange
        half := byte[$eight : 5] => IndexRange
        half := byte[$340282366920938463463374607431768211455 : 0] => IndexRange
        half := three[$2 : 0] => IndexRange
        half := byte[3 : $4] => IndexRange
        half := byte[3 : $eight] => IndexRange
        half := byte[none : $three] => IndexRange
        half := three[0 : $1] => IndexRange
        half := byte[7 : $340282366920938463463374607431768211455] => IndexRange
        half := byte[$8 : 9] => IndexRange
        (* a call has an argument for each port *)
        $u(clk, bit, byte, var) => PortCount
        $u(clk) => PortCount
        $u(clk, bit, byte, var, pad, one) => PortCount
        $u(clk, bit, byte, var, pad, one, one) => PortCount
        $u(clk, nib, byte, var) => PortCount
        $u(clk, bit, byte, var, pad, byte + nib) => PortCount
        $u(clk, bit, byte, var, pad, 2) => PortCount
    ";
    bodies_hold(&rt, rt.alloc(), bodies)
}
