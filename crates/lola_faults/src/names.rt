// Names that are declared twice or not at all.
use crate::answer::{bodies_hold, rows_hold};
use std::test::Fail;

#[test]
fn names_are_declared_once(rt: HostRuntime) -> Result<(), Fail> {
    let rows = "
        (* a name is declared once in its module *)
        MODULE A(IN a, $a: BIT); END A. => Doubled a
        MODULE A(IN a: BIT; OUT $a: BIT); END A. => Doubled a
        MODULE A(IN a: BIT); CONST $a := 1; END A. => Doubled a
        MODULE A(IN a: BIT); REG (a) $a: BIT; END A. => Doubled a
        MODULE A(IN a: BIT); VAR $a: BIT; END A. => Doubled a
        MODULE I(IN a: BIT); END I. MODULE A(IN u: BIT); VAR $u: I; END A. => Doubled u
        MODULE A(); CONST n := 1; $n := 0; END A. => Doubled n
        MODULE A(); CONST n := 1; VAR $n: BIT; END A. => Doubled n
        MODULE A(IN c: BIT); CONST n := 1; REG (c) $n: BIT; END A. => Doubled n
        MODULE A(); VAR v, $v: BIT; END A. => Doubled v
        MODULE A(); VAR v: BIT; VAR $v: BYTE; END A. => Doubled v
        MODULE A(IN c: BIT); REG (c) q, $q: BIT; END A. => Doubled q
        MODULE A(IN c: BIT); REG (c) q: BIT; VAR $q: BIT; END A. => Doubled q
        MODULE A(IN c: BIT); VAR q: BIT; REG (c) $q: BIT; END A. => Doubled q
        MODULE I(IN a: BIT); END I. MODULE A(); VAR u: BIT; $u: I; END A. => Doubled u
        MODULE I(IN a: BIT); END I. MODULE A(); VAR u, $u: I; END A. => Doubled u
        MODULE A(); VAR v, $v, v: BIT; END A. => Doubled v
        (* a module has a name of its own *)
        MODULE A(); END A. MODULE $A(); END A. => Doubled A
        MODULE A(); END A. MODULE B(); END B. MODULE $A(IN a: BIT); END A. => Doubled A
        MODULE A(); END A. MODULE $A(); END A. MODULE A(); END A. => Doubled A
    ";
    rows_hold(&rt, rt.alloc(), rows)
}

#[test]
fn the_first_declaration_is_the_earliest_of_the_text(rt: HostRuntime) -> Result<(), Fail> {
    let rows = "
        (* the second declaration is the later one of the text *)
        MODULE A(); VAR n: BIT; CONST $n := 1; END A. => Doubled n
        MODULE A(IN c: BIT); REG (c) n: BIT; CONST $n := 1; END A. => Doubled n
        MODULE I(IN a: BIT); END I. MODULE A(); VAR n: I; CONST $n := 1; END A. => Doubled n
        MODULE A(); VAR n: BIT; CONST $n := 1; VAR n: BIT; END A. => Doubled n
        (* a use means the first declaration *)
        MODULE A(IN a: [n] BIT); CONST n := 1; VAR $n: BIT; END A. => Doubled n
        MODULE A(IN a: [$n] BIT); VAR n: BIT; CONST n := 1; END A. => Kind
    ";
    rows_hold(&rt, rt.alloc(), rows)
}

#[test]
fn names_are_declared(rt: HostRuntime) -> Result<(), Fail> {
    let rows = "
        (* counts of types are declared *)
        MODULE A(IN a: [$n] BIT); END A. => Unknown n
        MODULE A(); VAR v: [$n] BIT; END A. => Unknown n
        MODULE A(IN c: BIT); REG (c) q: [$n] BIT; END A. => Unknown n
        MODULE A(IN c: BIT); REG (c) m: [$n] BYTE; END A. => Unknown n
        MODULE A(IN c: BIT); REG (c) m: [$n] [k] BIT; END A. => Unknown n
        MODULE A(IN c: BIT); REG (c) m: [4] [$n] BIT; END A. => Unknown n
        MODULE A(); CONST n := 1; END A. MODULE B(); VAR v: [$n] BIT; END B. => Unknown n
        (* clocks and modules are declared *)
        MODULE A(); REG ($c) q: BIT; END A. => Unknown c
        MODULE A(); VAR u: $I; END A. => Unknown I
        MODULE A(); VAR u: $B; END A. MODULE B(); END B. => Unknown B
        MODULE A(); VAR u: $A; END A. => Unknown A
        MODULE A(); VAR v: BIT; u: $v; END A. => Unknown v
        MODULE A(); VAR u, v: $I; END A. => Unknown I
    ";
    rows_hold(&rt, rt.alloc(), rows)?;
    let bodies = "
        (* names of expressions are declared *)
        var := $z => Unknown z
        var := $z.3 => Unknown z
        var := byte.$z => Unknown z
        var := $z[3 : 0] => Unknown z
        var := byte[$z : 0] => Unknown z
        var := byte[3 : $z] => Unknown z
        var := byte[$z : y] => Unknown z
        var := $z[three] => Unknown z
        var := mem[$z] => Unknown z
        var := {$z} => Unknown z
        var := {byte ! $z} => Unknown z
        var := {$z ! y} => Unknown z
        var := {bit, $z} => Unknown z
        var := ~$z => Unknown z
        var := $z + y => Unknown z
        var := byte + $z => Unknown z
        var := byte & low & $z => Unknown z
        one := byte < $z => Unknown z
        var := $z -> byte : low => Unknown z
        var := bit -> $z : low => Unknown z
        var := bit -> byte : $z => Unknown z
        var := SHL($z, bit) => Unknown z
        var := ROR(byte, $z) => Unknown z
        var := (((($z)))) => Unknown z
        var := $Inner => Unknown Inner
        var := $Frame => Unknown Frame
        var := $q => Unknown q
        (* names of statements are declared *)
        $z := byte => Unknown z
        $z[three] := byte => Unknown z
        mem[$z] := byte => Unknown z
        mem[three] := $z => Unknown z
        $z(byte) => Unknown z
        $Inner(clk, bit, byte, var, pad) => Unknown Inner
        u($z, bit, byte, var, pad) => Unknown z
        u(clk, $z, byte, var, pad) => Unknown z
        u(clk, bit, byte & $z, var, pad) => Unknown z
        u(clk, bit, byte, $z, pad) => Unknown z
        u(clk, bit, byte, ($z), pad) => Unknown z
        u(clk, bit, byte, var, $z) => Unknown z
        u(clk, bit, byte, var, pad, $z) => Unknown z
        u(clk, bit, byte, var, pad, bit & $z) => Unknown z
        TS($z, var, byte, bit) => Unknown z
        TS(pad, $z, byte, bit) => Unknown z
        TS(pad, var, $z, bit) => Unknown z
        TS(pad, var, byte, $z) => Unknown z
    ";
    bodies_hold(&rt, rt.alloc(), bodies)
}
