// Texts of designs, with each form of the grammar.
use crate::answer::{is_spelled, joined};
use std::alloc::Global;
use std::process::Abort;
use std::test::Fail;

/// A text with this between BEGIN and END is one of a design.
fn body(rt: &impl Abort, alloc: Global, text: &[u8]) -> Result<(), Fail> {
    let front = joined(alloc, b"MODULE A(); BEGIN ", 0, 0, text)?;
    let whole = joined(alloc, front.as_slice(), 32, 1, b"END A.")?;
    is_spelled(rt, alloc, whole.as_slice());
    Ok(())
}

#[test]
fn modules_and_ports(rt: HostRuntime) {
    let alloc = rt.alloc();
    is_spelled(&rt, alloc, b"MODULE A(); END A.");
    is_spelled(&rt, alloc, b"MODULE A(); BEGIN END A.");
    is_spelled(&rt, alloc, b"MODULE A(); END B.");
    is_spelled(&rt, alloc, b"MODULE A(); END A. MODULE B(); END B.");
    is_spelled(&rt, alloc, b"MODULE A(IN a: BIT); END A.");
    is_spelled(&rt, alloc, b"MODULE A(OUT a, b: BYTE); END A.");
    is_spelled(
        &rt,
        alloc,
        b"MODULE A(INOUT a: WORD; b: BIT; IN c: BIT); END A.",
    );
    is_spelled(&rt, alloc, b"MODULE A(IN a: [5] BIT; b: [n] BIT); END A.");
    is_spelled(&rt, alloc, b"MODULE A(IN a: [4] BYTE; b: [n] WORD); END A.");
    is_spelled(&rt, alloc, b"MODULE A(IN a: [4] [n] BIT); END A.");
    is_spelled(&rt, alloc, b"(* a *)MODULE(**)A\t(\r)\n;END A.(* MODULE *)");
}

#[test]
fn declarations(rt: HostRuntime) {
    let alloc = rt.alloc();
    is_spelled(&rt, alloc, b"MODULE A(); CONST END A.");
    is_spelled(&rt, alloc, b"MODULE A(); CONST n := 1; m := 0FFH'8; END A.");
    is_spelled(&rt, alloc, b"MODULE A(); VAR END A.");
    is_spelled(
        &rt,
        alloc,
        b"MODULE A(); VAR v, w: BIT; x: [2] BYTE; i: Inner; END A.",
    );
    is_spelled(&rt, alloc, b"MODULE A(); REG (c) q: BIT; END A.");
    is_spelled(
        &rt,
        alloc,
        b"MODULE A(); REG (c) q, r: BIT; m: [4] [8] BIT; END A.",
    );
    is_spelled(
        &rt,
        alloc,
        b"MODULE A(); VAR v: BIT; REG (c) q: BIT; CONST n := 1; REG (d) r: BIT; VAR BEGIN END A.",
    );
}

#[test]
fn statements(rt: HostRuntime) -> Result<(), Fail> {
    let alloc = rt.alloc();
    body(&rt, alloc, b"x := 1")?;
    body(&rt, alloc, b";; x := 1;; y := 2;")?;
    body(&rt, alloc, b"m[q + 1] := x")?;
    body(&rt, alloc, b"i(a)")?;
    body(&rt, alloc, b"i(a, b + c, (d))")?;
    body(&rt, alloc, b"TS(p, v, a & b, ~c)")
}

#[test]
fn expressions(rt: HostRuntime) -> Result<(), Fail> {
    let alloc = rt.alloc();
    body(&rt, alloc, b"x := a -> b : c")?;
    body(&rt, alloc, b"x := a -> b : c -> d : e")?;
    body(&rt, alloc, b"x := a -> b -> c : d : e")?;
    body(
        &rt,
        alloc,
        b"x := a = b; x := a # b; x := a < b; x := a <= b; x := a > b; x := a >= b",
    )?;
    body(&rt, alloc, b"x := (a = b) = c")?;
    body(&rt, alloc, b"x := a + b - c | d ^ e")?;
    body(&rt, alloc, b"x := a & b & ~c")?;
    body(&rt, alloc, b"x := ~~(~a)")?;
    body(&rt, alloc, b"x := 12; x := 1FH; x := 5'8; x := 0FFH'8")?;
    body(&rt, alloc, b"x := a.3; x := a.n")?;
    body(
        &rt,
        alloc,
        b"x := a[7 : 0]; x := a[n : 0]; x := a[7 : n]; x := a[n : m]",
    )?;
    body(
        &rt,
        alloc,
        b"x := a[7]; x := a[n]; x := a[n + 1]; x := a[5'8]; x := a[b[c]]",
    )?;
    body(&rt, alloc, b"x := {a}; x := {a, b ! 2, {c} ! n, d + e}")?;
    body(
        &rt,
        alloc,
        b"x := SHL(a, 1); x := SHR(a, b + c); x := ASR(a, b); x := ROR(a, b)",
    )
}

#[test]
fn the_examples_that_describe_the_language(rt: HostRuntime) -> Result<(), Fail> {
    let alloc = rt.alloc();
    is_spelled(
        &rt,
        alloc,
        b"MODULE Toggler(IN clk, rst, t: BIT; OUT o: BIT);\nREG (clk) q: BIT;\nBEGIN\n  q := ~rst & (q ^ t);\n  o := q\nEND Toggler.",
    );
    is_spelled(
        &rt,
        alloc,
        b"MODULE Half(IN a, b: BIT; OUT s, c: BIT);\nBEGIN s := a ^ b; c := a & b END Half.",
    );
    is_spelled(
        &rt,
        alloc,
        b"MODULE A(); REG (clk) pc: [22] BIT; R: [16] WORD; END A.",
    );
    is_spelled(
        &rt,
        alloc,
        b"MODULE A(); CONST n := 3'2; mask := 0FFH'8; END A.",
    );
    is_spelled(
        &rt,
        alloc,
        b"MODULE A(); REG (clk) q: BIT; count: BYTE; END A.",
    );
    is_spelled(
        &rt,
        alloc,
        b"MODULE A(); VAR sum, carry: BIT; low: Half; END A.",
    );
    body(&rt, alloc, b"low(a, b, sum, carry)")?;
    body(&rt, alloc, b"TS(io, seen, e, off)")?;
    body(&rt, alloc, b"R[pc[3 : 0]] := d; count := count + 1'8")?;
    body(&rt, alloc, b"n := c -> {a[6 : 0], a.7} : SHR(a, 1'3) ^ b")
}
