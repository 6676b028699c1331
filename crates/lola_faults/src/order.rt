// Which of several faults is answered: the first by stage, then by place, then by the row of its kind.
use crate::answer::{bodies_hold, rows_hold};
use std::test::Fail;

#[test]
fn the_first_stage_comes_first(rt: HostRuntime) -> Result<(), Fail> {
    let rows = "
        (* names come before widths *)
        MODULE A(IN a: [129] BIT); END $B. => Kind
        MODULE A(IN a: [129] BIT; $a: BIT); END A. => Doubled a
        MODULE A(); CONST n := 2; VAR $m: [4] BYTE; END A. => ArrayShape m
        MODULE A(IN a: [129] BIT); END A. MODULE B(IN b: [$n] BIT); END B. => Unknown n
        (* names and widths come before assignments *)
        MODULE A(OUT x: BIT); END $B. => Kind
        MODULE A(OUT x: BIT); VAR $x: BIT; END A. => Doubled x
        MODULE A(OUT x: BIT); BEGIN x := 0; x := 1; x := $z END A. => Unknown z
        MODULE A(OUT x: BIT); BEGIN x := $z; x := 1 END A. => Unknown z
        MODULE A(OUT x: BIT); BEGIN x := 0; x $:= 1'2 END A. => Width 1 2
        MODULE A(OUT x: BIT); BEGIN x $:= 1'2; x := 1 END A. => Width 1 2
        MODULE A(OUT x: BIT); VAR v: BIT; BEGIN v := $2 END A. => TooWide
        MODULE A(OUT x: BIT); END A. MODULE B(IN b: [$0] BIT); END B. => TooWide
        MODULE A(OUT x: BIT); END A. MODULE B(); END $A. => Kind
        MODULE A(OUT x: BIT); END A. MODULE B(IN b: [0] BIT); END B. MODULE C(); END $A. => Kind
    ";
    rows_hold(&rt, rt.alloc(), rows)?;
    let bodies = "
        (* names come before widths *)
        var := byte + nib; low := $z => Unknown z
        low := $z; var := byte + nib => Unknown z
        var := byte + nib; low := $pad => Kind
        var := 2; one := $clk => Clock
        var := byte & nib & $z => Unknown z
        u(clk, bit, byte, var, pad, $z) => Unknown z
        u(clk, nib, byte, var, $low) => Kind
    ";
    bodies_hold(&rt, rt.alloc(), bodies)
}

#[test]
fn the_first_place_and_row_come_first(rt: HostRuntime) -> Result<(), Fail> {
    let rows = "
        (* in one stage the earlier place comes first *)
        MODULE A(); END $B. MODULE A(); END B. => Kind
        MODULE A(IN a: BIT; b: [$a] BIT; b: BIT); END A. => Kind
        MODULE A(IN a: [$n] BIT); VAR a: BIT; END A. => Unknown n
        MODULE A(); VAR $m: [4] BYTE; m: BIT; u: I; END A. => ArrayShape m
        MODULE A(OUT c: BIT); REG ($c) q, q: BIT; END A. => Clock
        MODULE A(OUT x: [$0] BIT); END A. MODULE B(OUT x: [0] BIT); END B. => TooWide
        MODULE A(OUT $x: BIT); END A. MODULE B(OUT y: BIT); END B. => NotAssigned x
        MODULE A(OUT x, $y: BIT); BEGIN x := 0; x := 1 END A. => NotAssigned y
        MODULE A(OUT x: BIT); BEGIN x := 0; $x := 1 END A. MODULE B(OUT y: BIT); END B. => AssignedTwice x
        MODULE A(OUT x: BIT); BEGIN x := 0 END A. MODULE B(OUT x: BIT); BEGIN x := 0; $x := 0 END B. => AssignedTwice x
        (* at one place the lower row comes first *)
        MODULE A(); VAR v: BIT; $v: [3] BYTE; END A. => Doubled v
        MODULE A(IN v: BIT; $v: [4] BYTE); END A. => Doubled v
        MODULE A(IN c: BIT; v: BIT); REG (c) $v: [3] BYTE; END A. => Doubled v
        MODULE A(); REG ($c) q: BIT; END A. => Unknown c
        MODULE A(IN c: BIT); REG (c) q: [$c] BIT; END A. => Kind
    ";
    rows_hold(&rt, rt.alloc(), rows)?;
    let bodies = "
        (* in one stage the earlier place comes first *)
        var := $pad & z => Kind
        var := $z & pad => Unknown z
        one := $clk & z => Clock
        $byte := z => Kind
        var $:= bit; one := byte & nib => Width 8 1
        one := byte.$8; var := 2 => IndexRange
        one := $2; one := byte.8 => TooWide
        $u(clk, nib) => PortCount
        mem$[byte] := nib => Width 2 8
        mem[three] $:= byte = low; var := 2 => Width 8 1
        var := byte $& nib + {bit ! 0} => Width 8 4
        var := (byte $+ nib) & (low + half) => Width 8 4
        (* at one place the lower row comes first *)
        u(clk, bit, byte, $z & var, pad) => Unknown z
        u(clk, bit, byte, $z.1, pad) => Unknown z
        u(clk, bit, byte, var, $z & pad) => Unknown z
        u($z, bit, byte, var, pad) => Unknown z
        u($z & clk, bit, byte, var, pad) => Unknown z
        u($pad & bit, bit, byte, var, pad) => Kind
        u(clk, bit, byte, $clk, pad) => Kind
        u(clk, bit, byte, $clk & bit, pad) => Kind
        u(clk, bit, byte, var, $clk) => Kind
        $clk := bit => Kind
        one := byte.$clk => Kind
        one := $clk[bit] => Kind
        $clk(bit) => Kind
        TS($clk, one, bit, bit) => Kind
        TS(pad, $clk, byte, bit) => Kind
        var := nib $-> byte : half => Width 8 4
    ";
    bodies_hold(&rt, rt.alloc(), bodies)
}

#[test]
fn an_expression_with_a_fault_inside_has_no_width(rt: HostRuntime) -> Result<(), Fail> {
    let bodies = "
        (* an expression with a fault inside has no width *)
        var := nib & (byte $+ nib) => Width 8 4
        var := nib + ~(byte $+ nib) => Width 8 4
        var := nib & (byte $= nib) => Width 8 4
        one := nib < (byte $- nib) => Width 8 4
        one := byte $+ nib => Width 8 4
        var := bit -> (byte $+ nib) : half => Width 8 4
        var := (nib & (byte $+ nib)) -> byte : low => Width 8 4
        var := nib & (nib $-> byte : low) => Width 1 4
        one := nib $-> byte : low => Width 1 4
        var := nib & SHL(byte $+ nib, bit) => Width 8 4
        one := SHL(byte, byte $+ nib) => Width 8 4
        var := mem[byte $+ nib] => Width 8 4
        var := nib & mem$[byte] => Width 2 8
        one := mem$[byte] => Width 2 8
        mem[byte $+ nib] := low => Width 8 4
        one := {byte $+ nib} => Width 8 4
        var := nib & byte.$8 => IndexRange
        var := nib & byte[3 : $4] => IndexRange
        var := nib & byte[$8 : 0] => IndexRange
        var := nib & $2 => TooWide
        var := nib & ${byte ! 17} => TooWide
        var := nib & {byte ! $0} => TooWide
        half := ${byte ! 17} => TooWide
        var := {bit, ${byte ! 17}} => TooWide
        var := {byte ! 17, byte ! $0} => TooWide
        var := {byte ! 17, $2} => TooWide
        var := {byte ! 17, byte $+ nib} => Width 8 4
        u(clk, byte $+ nib, byte, var, pad) => Width 8 4
        TS(thin, half, byte $+ nib, bit) => Width 8 4
        TS(pad, var, byte, byte $+ nib) => Width 8 4
        (* faults beside one without a width remain *)
        var := nib $-> (byte + nib) : low => Width 1 4
        var := nib $-> 2 : low => Width 1 4
        var := 1 -> $2 : low => TooWide
    ";
    bodies_hold(&rt, rt.alloc(), bodies)
}
