// Small texts that are refused, each with its refusal.
use crate::answer::rows_hold;
use std::test::Fail;

// What is no token comes first, then what is no source, then names, widths and assignments.
#[test]
fn each_stage_comes_before_the_next(rt: HostRuntime) -> Result<(), Fail> {
    rows_hold(
        &rt,
        rt.alloc(),
        &[
            " => source: Syntax 0",
            "? => source: BadByte 0",
            "(* => source: OpenComment 0",
            "END ? => source: BadByte 4",
            "END END => source: Syntax 0",
            "MODULE W(OUT o: [128] BIT); BEGIN o := 340282366920938463463374607431768211456 END W. => source: NumberTooLarge 39",
            "MODULE W(OUT o: [129] BIT); BEGIN o := 0 END W. => source: TooWide 17",
            "MODULE W(IN a: [8] BIT; b: [4] BIT; OUT o: [8] BIT); BEGIN o := a + b END W. => source: Width 66 8 4",
            "MODULE W(OUT x, y: BIT); BEGIN x := ~x; y := z END W. => source: Unknown 45 z",
        ],
    )
}

// A signal on its own value; two on each other, beside a register on its own; through an instance, and in the
// place of an array; and where the chain goes through a register, none.
#[test]
fn loops_are_named(rt: HostRuntime) -> Result<(), Fail> {
    rows_hold(
        &rt,
        rt.alloc(),
        &[
            "MODULE L(OUT x: BIT); BEGIN x := ~x END L. => source: Loop x",
            "MODULE L(IN clk: BIT; OUT x: BIT); REG (clk) r: BIT; VAR y: BIT; BEGIN r := r; x := y; y := r & x END L. => source: Loop x y",
            "MODULE P(IN a: BIT; OUT b: BIT); BEGIN b := a END P. MODULE L(OUT o: BIT); VAR u: P; x: BIT; BEGIN u(x, x); o := x END L. => source: Loop u.a u.b x",
            "MODULE L(IN clk: BIT; OUT x: BIT); REG (clk) R: [2] [1] BIT; BEGIN R[x] := 0; x := R[x] END L. => source: Loop x",
            "MODULE L(IN clk: BIT; OUT x: BIT); REG (clk) r: BIT; BEGIN r := x; x := ~r END L. => in clk 1x1; wire x 1x1; reg r 1x1; order x",
        ],
    )
}
