// What is never assigned or called, and what is so twice.
use crate::answer::rows_hold;
use std::test::Fail;

#[test]
fn each_is_assigned_or_called_once(rt: HostRuntime) -> Result<(), Fail> {
    let rows = "
        (* each is assigned or called *)
        MODULE A(OUT $x: BIT); END A. => NotAssigned x
        MODULE A(INOUT $p: BIT); END A. => NotAssigned p
        MODULE A(IN c: BIT); REG (c) $q: BIT; END A. => NotAssigned q
        MODULE A(IN c: BIT); REG (c) $m: [2] [1] BIT; END A. => NotAssigned m
        MODULE A(); VAR $v: BIT; END A. => NotAssigned v
        MODULE I(IN a: BIT); END I. MODULE A(); VAR $u: I; END A. => NotAssigned u
        MODULE I(); END I. MODULE A(); VAR $u: I; END A. => NotAssigned u
        MODULE A(OUT $x, y: BIT); END A. => NotAssigned x
        MODULE A(OUT x, $y: BIT); BEGIN x := 0 END A. => NotAssigned y
        MODULE A(OUT x: BIT); VAR $v: BIT; BEGIN x := v END A. => NotAssigned v
        MODULE A(OUT $x: BIT); VAR v: BIT; BEGIN v := x END A. => NotAssigned x
        MODULE A(IN c: BIT; OUT x: BIT); REG (c) $q: BIT; BEGIN x := q END A. => NotAssigned q
        MODULE I(INOUT p: BIT); VAR v: BIT; BEGIN TS(p, v, 0, 0) END I. MODULE A(INOUT p, $r: BIT); VAR u: I; BEGIN u(p) END A. => NotAssigned r
        MODULE I(OUT o: BIT); BEGIN o := 0 END I. MODULE A(); VAR v: BIT; $u: I; BEGIN v := 0; END A. MODULE B(OUT x: BIT); END B. => NotAssigned u
        (* each is assigned or called once *)
        MODULE A(OUT x: BIT); BEGIN x := 0; $x := 0 END A. => AssignedTwice x
        MODULE A(); VAR v: BIT; BEGIN v := 0; $v := 1 END A. => AssignedTwice v
        MODULE A(IN c: BIT); REG (c) q: BIT; BEGIN q := q; $q := 1 END A. => AssignedTwice q
        MODULE A(OUT x: BIT); VAR v: BIT; BEGIN x := 0; v := x; $x := v END A. => AssignedTwice x
        MODULE A(IN c: BIT); REG (c) m: [2] [1] BIT; BEGIN m[0] := 1; $m[1] := 0 END A. => AssignedTwice m
        MODULE A(IN c: BIT); REG (c) m: [2] [1] BIT; BEGIN m[0] := 1; $m[0] := 1 END A. => AssignedTwice m
        MODULE I(IN a: BIT); END I. MODULE A(); VAR u: I; BEGIN u(0); $u(1) END A. => AssignedTwice u
        MODULE A(OUT x: BIT); BEGIN x := 0; $x := 1; x := 0 END A. => AssignedTwice x
        MODULE A(OUT x, y: BIT); BEGIN x := 0; y := 0; $y := 0; x := 0 END A. => AssignedTwice y
        (* an out argument is a target *)
        MODULE I(OUT o: BIT); BEGIN o := 1 END I. MODULE A(OUT x: BIT); VAR u: I; BEGIN x := 0; u($x) END A. => AssignedTwice x
        MODULE I(OUT o: BIT); BEGIN o := 1 END I. MODULE A(OUT x: BIT); VAR u: I; BEGIN u(x); $x := 0 END A. => AssignedTwice x
        MODULE I(OUT o: BIT); BEGIN o := 1 END I. MODULE A(OUT x: BIT); VAR u, v: I; BEGIN u(x); v($x) END A. => AssignedTwice x
        MODULE I(OUT o: BIT); BEGIN o := 1 END I. MODULE A(OUT x: BIT); VAR u, v: I; BEGIN u((x)); v(($x)) END A. => AssignedTwice x
        MODULE I(OUT o, n: BIT); BEGIN o := 1; n := 1 END I. MODULE A(OUT x: BIT); VAR u: I; BEGIN u(x, $x) END A. => AssignedTwice x
        MODULE I(OUT o: BIT); BEGIN o := 1 END I. MODULE A(OUT x: BIT); VAR u: I; BEGIN u(x); $u(x) END A. => AssignedTwice u
        (* a pad and its inner name are targets *)
        MODULE A(INOUT p: BIT); VAR v, w: BIT; BEGIN TS(p, v, 0, 0); TS($p, w, 0, 0) END A. => AssignedTwice p
        MODULE A(INOUT p: BIT); VAR v: BIT; BEGIN TS(p, v, 0, 0); TS($p, v, 0, 0) END A. => AssignedTwice p
        MODULE A(INOUT p, r: BIT); VAR v: BIT; BEGIN TS(p, v, 0, 0); TS(r, $v, 0, 0) END A. => AssignedTwice v
        MODULE A(INOUT p: BIT); VAR v: BIT; BEGIN v := 0; TS(p, $v, 0, 0) END A. => AssignedTwice v
        MODULE A(INOUT p: BIT; OUT x: BIT); BEGIN TS(p, x, 0, 0); $x := 0 END A. => AssignedTwice x
        MODULE I(INOUT p: BIT); VAR v: BIT; BEGIN TS(p, v, 0, 0) END I. MODULE A(INOUT p: BIT); VAR v: BIT; u: I; BEGIN TS(p, v, 0, 0); u($p) END A. => AssignedTwice p
        MODULE I(INOUT p: BIT); VAR v: BIT; BEGIN TS(p, v, 0, 0) END I. MODULE A(INOUT p: BIT); VAR v: BIT; u: I; BEGIN u(p); TS($p, v, 0, 0) END A. => AssignedTwice p
        MODULE I(INOUT p: BIT); VAR v: BIT; BEGIN TS(p, v, 0, 0) END I. MODULE A(INOUT p: BIT); VAR u, v: I; BEGIN u(p); v($p) END A. => AssignedTwice p
        MODULE I(OUT o: BIT); BEGIN o := 0 END I. MODULE A(INOUT p: BIT); VAR v: BIT; u: I; BEGIN u(v); TS(p, $v, 0, 0) END A. => AssignedTwice v
        MODULE I(INOUT p, r: BIT); VAR v, w: BIT; BEGIN TS(p, v, 0, 0); TS(r, w, 0, 0) END I. MODULE A(INOUT p: BIT); VAR u: I; BEGIN u(p, $p) END A. => AssignedTwice p
    ";
    rows_hold(&rt, rt.alloc(), rows)
}
