// Registers, arrays and clocks.
use crate::answer::gives;
use std::test::Fail;

// Each instance has its own register. The root has no register itself: its clock is the port that stands as the
// argument of a clock.
#[test]
fn two_instances_keep_two_registers(rt: HostRuntime) -> Result<(), Fail> {
    gives(
        &rt,
        rt.alloc(),
        "MODULE T(IN clk, t: BIT; OUT o: BIT); REG (clk) q: BIT; BEGIN q := q ^ t; o := q END T.
        MODULE Two(IN a, c, b: BIT; OUT x, y: BIT); VAR u, v: T;
        BEGIN u(c, a, x); v(c, b, y) END Two.",
        "Two clock c
        ports a c b x y
        a input 1
        c input 1
        b input 1
        x wire 1 = u.o
        y wire 1 = v.o
        u.t wire 1 = a
        u.o wire 1 = u.q
        u.q register 1 := xor(u.q, u.t)
        v.t wire 1 = b
        v.o wire 1 = v.q
        v.q register 1 := xor(v.q, v.t)
        order u.t u.o x v.t v.o y",
    )
}

// A clock goes through a module that has no register: it is no signal there, and neither in the innermost one.
#[test]
fn a_clock_is_used_by_instances_alone(rt: HostRuntime) -> Result<(), Fail> {
    gives(
        &rt,
        rt.alloc(),
        "MODULE A(IN d, clk: BIT); REG (clk) q: BIT; BEGIN q := d END A.
        MODULE B(IN beat, d: BIT); VAR a: A; BEGIN a(~d, beat) END B.
        MODULE C(IN d, ck: BIT); VAR b: B; BEGIN b(ck, d) END C.",
        "C clock ck
        ports d ck
        d input 1
        ck input 1
        b.d wire 1 = d
        b.a.d wire 1 = not(b.d)
        b.a.q register 1 := b.a.d
        order b.d b.a.d",
    )
}

// The example of `docs/LANGUAGE.md` for arrays.
#[test]
fn an_array_is_written_and_read(rt: HostRuntime) -> Result<(), Fail> {
    gives(
        &rt,
        rt.alloc(),
        "MODULE File(IN clk: BIT; w, r: [3] BIT; d: BYTE; OUT o: BYTE);
        REG (clk) R: [8] BYTE;
        BEGIN R[w] := d; o := R[r] END File.",
        "File clock clk
        ports clk w r d o
        clk input 1
        w input 3
        r input 3
        d input 8
        o wire 8 = R[r]
        R register 8 of 8 [w] := d
        order o",
    )
}

// A place has as many bits as number the elements; 5 of 8 is past half. The element that is read has no part in
// the order but by its place.
#[test]
fn an_array_has_places_past_half(rt: HostRuntime) -> Result<(), Fail> {
    gives(
        &rt,
        rt.alloc(),
        "MODULE M(IN clk, w: BIT; p: [3] BIT; d: BYTE; OUT o, h: BYTE);
        REG (clk) R: [8] BYTE; S: [1024] [5] BIT; q: BYTE;
        BEGIN R[p] := w -> d : R[p]; S[3FFH'10] := d[4 : 0]; q := o;
        o := R[{1'1, p[1 : 0]}]; h := R[5'3] + {0 ! 3, S[200H'10]} END M.",
        "M clock clk
        ports clk w p d o h
        clk input 1
        w input 1
        p input 3
        d input 8
        o wire 8 = R[{1'1!1, p[1:0]!1}]
        h wire 8 = add(R[5'3], {0'1!3, S[512'10]!1})
        R register 8 of 8 [p] := mux(w, d, R[p])
        S register 1024 of 5 [1023'10] := d[4:0]
        q register 8 := o
        order o h",
    )
}

// An array in an instance, under the place and the value that the caller passes.
#[test]
fn an_array_stands_in_an_instance(rt: HostRuntime) -> Result<(), Fail> {
    gives(
        &rt,
        rt.alloc(),
        "MODULE File(IN clk: BIT; w, r: [2] BIT; d: BYTE; OUT o: BYTE); CONST n := 4'3;
        REG (clk) R: [n] BYTE; BEGIN R[w] := d; o := R[r] END File.
        MODULE Two(IN clk: BIT; p: [4] BIT; OUT a, b: BYTE); VAR u, v: File;
        BEGIN u(clk, p[1 : 0], p[3 : 2], b, a); v(clk, p[3 : 2], p[1 : 0], 7'8, b) END Two.",
        "Two clock clk
        ports clk p a b
        clk input 1
        p input 4
        a wire 8 = u.o
        b wire 8 = v.o
        u.w wire 2 = p[1:0]
        u.r wire 2 = p[3:2]
        u.d wire 8 = b
        u.o wire 8 = u.R[u.r]
        u.R register 4 of 8 [u.w] := u.d
        v.w wire 2 = p[3:2]
        v.r wire 2 = p[1:0]
        v.d wire 8 = 7'8
        v.o wire 8 = v.R[v.r]
        v.R register 4 of 8 [v.w] := v.d
        order u.w u.r u.o a v.w v.r v.d v.o b u.d",
    )
}

// Each operator with its arguments in their order, a bit, and an expression without any name.
#[test]
fn expressions_stand_over_signals(rt: HostRuntime) -> Result<(), Fail> {
    gives(
        &rt,
        rt.alloc(),
        "MODULE E(IN a, b: BYTE; OUT o: BYTE; OUT t: BIT; OUT k: WORD);
        VAR l, m, n: BYTE;
        BEGIN l := a - b | (SHL(a, b) ^ ~b); m := SHR(a, 1'3) & ASR(b, 2'3); n := ROR(l, a.7) + m;
        o := a <= b -> l : n;
        t := (a = b) & (a # b) & (a < b) & (a > b) & (a >= b); k := 0FFFFFFFFH'32 END E.",
        "E
        ports a b o t k
        a input 8
        b input 8
        o wire 8 = mux(le(a, b), l, n)
        t wire 1 = and(and(and(and(eq(a, b), ne(a, b)), lt(a, b)), gt(a, b)), ge(a, b))
        k wire 32 = 4294967295'32
        l wire 8 = or(sub(a, b), xor(shl(a, b), not(b)))
        m wire 8 = and(shr(a, 1'3), asr(b, 2'3))
        n wire 8 = add(ror(l, a[7:7]), m)
        order t k l m n o",
    )
}
