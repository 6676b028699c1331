// Names that are used as what they aren't.
use crate::answer::{bodies_hold, rows_hold};
use std::test::Fail;

#[test]
fn what_a_name_stands_for_decides_where_it_may_stand(rt: HostRuntime) -> Result<(), Fail> {
    let rows = "
        (* a count is a constant *)
        MODULE A(IN a: BIT; b: [$a] BIT); END A. => Kind
        MODULE A(IN a: [$a] BIT); END A. => Kind
        MODULE A(OUT a: BIT); VAR v: [$a] BIT; END A. => Kind
        MODULE A(INOUT a: BIT); VAR v: [$a] BIT; END A. => Kind
        MODULE A(); VAR v: BIT; w: [$v] BIT; END A. => Kind
        MODULE A(IN c: BIT); REG (c) q: BIT; r: [$q] BIT; END A. => Kind
        MODULE A(IN c: BIT); VAR v: BIT; REG (c) m: [$v] BYTE; END A. => Kind
        MODULE A(IN c: BIT); VAR v: BIT; REG (c) m: [4] [$v] BIT; END A. => Kind
        MODULE A(IN c: BIT); REG (c) m: [4] BYTE; VAR v: [$m] BIT; END A. => Kind
        MODULE I(); END I. MODULE A(); VAR u: I; v: [$u] BIT; END A. => Kind
        (* a module ends with its name *)
        MODULE A(); END $B. => Kind
        MODULE A(); END $a. => Kind
        MODULE A(); END $AA. => Kind
        MODULE A(IN b: BIT); END $b. => Kind
        MODULE A(); END $B. MODULE B(); END B. => Kind
        MODULE A(); END A. MODULE B(); END $A. => Kind
    ";
    rows_hold(&rt, rt.alloc(), rows)?;
    let bodies = "
        (* a count is a constant *)
        one := byte.$low => Kind
        one := byte.$bit => Kind
        one := byte.$reg => Kind
        one := byte.$mem => Kind
        one := byte.$pad => Kind
        one := byte.$u => Kind
        half := byte[$low : 0] => Kind
        half := byte[3 : $low] => Kind
        var := {bit ! $low} => Kind
        var := {bit ! $reg, half} => Kind
        (* instances pads and whole arrays have no value *)
        var := $u => Kind
        var := $pad => Kind
        var := $mem => Kind
        one := $u.1 => Kind
        one := $pad.1 => Kind
        one := $mem.1 => Kind
        half := $u[3 : 0] => Kind
        half := $pad[3 : 0] => Kind
        half := $mem[3 : 0] => Kind
        var := ~$pad => Kind
        var := byte & $pad => Kind
        var := {bit ! 2, $u} => Kind
        var := bit -> $mem : byte => Kind
        var := mem[$mem] => Kind
        mem[$pad] := byte => Kind
        mem[three] := $mem => Kind
        u(clk, bit, $pad, var, pad) => Kind
        u(clk, bit, byte, var, pad, $pad) => Kind
        u(clk, bit, byte, var, pad, bit, $mem) => Kind
        TS(pad, var, $pad, bit) => Kind
        TS(pad, var, byte, $u) => Kind
        (* only an array has places *)
        one := $byte[nib] => Kind
        one := $byte[3] => Kind
        one := $out[bit] => Kind
        one := $pad[bit] => Kind
        one := $three[bit] => Kind
        one := $reg[bit] => Kind
        one := $var[bit] => Kind
        one := $u[bit] => Kind
        (* a target is an out port a register or a variable *)
        $byte := low => Kind
        $pad := byte => Kind
        $three := 3'2 => Kind
        $u := byte => Kind
        $mem := byte => Kind
        $byte[bit] := low => Kind
        $out[bit] := byte => Kind
        $pad[bit] := byte => Kind
        $three[bit] := byte => Kind
        $reg[bit] := byte => Kind
        $var[bit] := byte => Kind
        $u[bit] := byte => Kind
        (* only an instance is called *)
        $byte(bit) => Kind
        $out(bit) => Kind
        $pad(bit) => Kind
        $three(bit) => Kind
        $reg(bit) => Kind
        $mem(bit) => Kind
        $var(clk, bit, byte, var, pad) => Kind
    ";
    bodies_hold(&rt, rt.alloc(), bodies)
}

#[test]
fn arguments_and_pads_are_bare_names(rt: HostRuntime) -> Result<(), Fail> {
    let bodies = "
        (* an out argument is the name of a variable or out port *)
        u(clk, bit, byte, $byte, pad) => Kind
        u(clk, bit, byte, $pad, pad) => Kind
        u(clk, bit, byte, $three, pad) => Kind
        u(clk, bit, byte, $reg, pad) => Kind
        u(clk, bit, byte, $mem, pad) => Kind
        u(clk, bit, byte, $u, pad) => Kind
        u(clk, bit, byte, ($reg), pad) => Kind
        u(clk, bit, byte, $5'8, pad) => Kind
        u(clk, bit, byte, $~var, pad) => Kind
        u(clk, bit, byte, $var & low, pad) => Kind
        u(clk, bit, byte, $(var & low), pad) => Kind
        u(clk, bit, byte, $(z & var), pad) => Kind
        u(clk, bit, byte, $var.1, pad) => Kind
        u(clk, bit, byte, $var[7 : 0], pad) => Kind
        u(clk, bit, byte, $mem[three], pad) => Kind
        u(clk, bit, byte, ${var}, pad) => Kind
        u(clk, bit, byte, $SHL(var, bit), pad) => Kind
        u(clk, bit, byte, $bit -> var : low, pad) => Kind
        u(clk, bit, byte, $~z, pad) => Kind
        (* an inout argument is the name of an inout port *)
        u(clk, bit, byte, var, $byte) => Kind
        u(clk, bit, byte, var, $out) => Kind
        u(clk, bit, byte, var, $three) => Kind
        u(clk, bit, byte, var, $reg) => Kind
        u(clk, bit, byte, var, $mem) => Kind
        u(clk, bit, byte, var, $low) => Kind
        u(clk, bit, byte, var, ($low)) => Kind
        u(clk, bit, byte, var, $u) => Kind
        u(clk, bit, byte, var, $1) => Kind
        u(clk, bit, byte, var, $~pad) => Kind
        u(clk, bit, byte, var, $(pad & byte)) => Kind
        u(clk, bit, byte, var, $pad.1) => Kind
        u(clk, bit, byte, var, $byte & low) => Kind
        (* a pad is an inout port *)
        TS($byte, var, byte, bit) => Kind
        TS($out, var, byte, bit) => Kind
        TS($three, var, byte, bit) => Kind
        TS($reg, var, byte, bit) => Kind
        TS($mem, var, byte, bit) => Kind
        TS($low, var, byte, bit) => Kind
        TS($u, var, byte, bit) => Kind
        (* an inner name is a variable or out port *)
        TS(pad, $byte, byte, bit) => Kind
        TS(pad, $pad, byte, bit) => Kind
        TS(pad, $three, byte, bit) => Kind
        TS(pad, $reg, byte, bit) => Kind
        TS(pad, $mem, byte, bit) => Kind
        TS(pad, $u, byte, bit) => Kind
    ";
    bodies_hold(&rt, rt.alloc(), bodies)
}
