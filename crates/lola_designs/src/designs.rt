// Sources as designs: names, widths and the registers' values after a clock edge.
use crate::answer::{design, has_bits, leaves};
use lola_elab::{Design, ElabError, Vector};
use std::alloc::Global;
use std::process::Abort;
use std::test::Fail;

const T: bool = true;

const F: bool = false;

/// Whether a vector has this name and width.
fn is_vector(vector: &Vector, name: &str, width: usize) -> bool {
    vector.name.as_str() == name && vector.width == width
}

/// A text is outside the small form.
fn is_not_built(rt: &impl Abort, alloc: Global, text: &[u8]) -> Result<(), Fail> {
    assert!(rt; matches!(design(alloc, text)?, Err(ElabError::NotBuilt)));
    Ok(())
}

/// After a clock edge a register, by its number, has these bits where the leaves have these numbers.
fn becomes(
    rt: &impl Abort,
    alloc: Global,
    design: &Design,
    register: usize,
    numbers: &[(u32, u128)],
    bits: &[bool],
) -> Result<(), Fail> {
    let leaves = leaves(alloc, numbers)?;
    match design.nexts.get(register) {
        Some(next) => has_bits(rt, alloc, next, leaves.as_slice(), bits),
        None => Err(Fail::from("no register")),
    }
}

const V: &[u8] = b"MODULE V(IN clk, rst: BIT; a: [4] BIT; OUT o: BIT); CONST n := 2'2;
REG (clk) q: BIT; r: BYTE; BEGIN q := ~rst & (q ^ a.n); r := {a, a} + 1'8; o := q END V.";

#[test]
fn a_design_has_its_names_and_widths_in_text_order(rt: HostRuntime) -> Result<(), Fail> {
    let v = design(rt.alloc(), V)?.map_err(|_| "V")?;
    assert_eq!(rt; v.root.as_str(), "V");
    match v.inputs.as_slice() {
        [rst, a] => assert!(rt; is_vector(rst, "rst", 1) && is_vector(a, "a", 4)),
        _ => assert!(rt; false),
    }
    match v.registers.as_slice() {
        [q, r] => assert!(rt; is_vector(q, "q", 1) && is_vector(r, "r", 8)),
        _ => assert!(rt; false),
    }
    assert_eq!(rt; v.nexts.len(), 2);
    Ok(())
}

// The leaves are rst, a, q and r.
#[test]
fn registers_become_what_they_are_assigned(rt: HostRuntime) -> Result<(), Fail> {
    let alloc = rt.alloc();
    let v = design(alloc, V)?.map_err(|_| "V")?;
    // bit 2 of 4 is 1, so q turns; 44H + 1 is 45H
    let four = [(1, 0), (4, 4), (1, 0), (8, 9)];
    becomes(&rt, alloc, &v, 0, &four, &[T])?;
    becomes(&rt, alloc, &v, 1, &four, &[T, F, T, F, F, F, T, F])?;
    becomes(&rt, alloc, &v, 0, &[(1, 0), (4, 4), (1, 1), (8, 9)], &[F])?;
    // bit 2 of 2 is 0, so q stays where rst is 0; 22H + 1 is 23H
    let two = [(1, 0), (4, 2), (1, 1), (8, 255)];
    becomes(&rt, alloc, &v, 0, &two, &[T])?;
    becomes(&rt, alloc, &v, 1, &two, &[T, T, F, F, F, T, F, F])?;
    becomes(&rt, alloc, &v, 0, &[(1, 1), (4, 2), (1, 1), (8, 255)], &[F])?;
    // 0FFH + 1 is 0 in 8 bits
    let fifteen = [(1, 0), (4, 15), (1, 0), (8, 0)];
    becomes(&rt, alloc, &v, 1, &fifteen, &[F, F, F, F, F, F, F, F])
}

// The leaves are a, b and s.
#[test]
fn a_register_is_turned_or_counted_down(rt: HostRuntime) -> Result<(), Fail> {
    let alloc = rt.alloc();
    let text = b"MODULE W(IN clk: BIT; a: BYTE; b: BIT); REG (clk) s: BYTE;
        BEGIN s := b -> {a[6 : 0], a.7} : SHR(s, 1'3) - a END W.";
    let w = design(alloc, text)?.map_err(|_| "W")?;
    // 96H turned left is 2DH
    let turned = [(8, 150), (1, 1), (8, 80)];
    becomes(&rt, alloc, &w, 0, &turned, &[T, F, T, T, F, T, F, F])?;
    // 50H halved is 28H, and 28H - 96H is 92H in 8 bits
    let down = [(8, 150), (1, 0), (8, 80)];
    becomes(&rt, alloc, &w, 0, &down, &[F, T, F, F, T, F, F, T])
}

#[test]
fn a_design_may_have_no_register(rt: HostRuntime) -> Result<(), Fail> {
    let text = b"MODULE C(IN a: BIT; OUT o: BIT); BEGIN o := ~a END C.";
    let c = design(rt.alloc(), text)?.map_err(|_| "C")?;
    match c.inputs.as_slice() {
        [a] => assert!(rt; is_vector(a, "a", 1)),
        _ => assert!(rt; false),
    }
    assert_eq!(rt; c.registers.len() + c.nexts.len(), 0);
    Ok(())
}

#[test]
fn other_forms_are_not_built(rt: HostRuntime) -> Result<(), Fail> {
    let alloc = rt.alloc();
    is_not_built(&rt, alloc, b"MODULE A(); END A. MODULE B(); END B.")?;
    is_not_built(
        &rt,
        alloc,
        b"MODULE A(IN a: BIT; OUT o: BIT); VAR v: BIT; BEGIN v := a; o := v END A.",
    )?;
    is_not_built(
        &rt,
        alloc,
        b"MODULE A(INOUT p: BIT; IN z, d: BIT; OUT i: BIT); BEGIN TS(p, i, d, z) END A.",
    )?;
    is_not_built(
        &rt,
        alloc,
        b"MODULE A(IN clk, p, d: BIT); REG (clk) m: [2] [1] BIT; BEGIN m[p] := d END A.",
    )
}

#[test]
fn designs_that_break_a_rule_are_not_built(rt: HostRuntime) -> Result<(), Fail> {
    let alloc = rt.alloc();
    is_not_built(&rt, alloc, b"MODULE A(OUT o: BIT); BEGIN o := 1 END B.")?;
    is_not_built(&rt, alloc, b"MODULE A(OUT o: BIT); END A.")?;
    is_not_built(&rt, alloc, b"MODULE A(OUT o: BIT); BEGIN o := 2'2 END A.")?;
    is_not_built(
        &rt,
        alloc,
        b"MODULE A(OUT o: BIT); BEGIN o := 0; o := 0 END A.",
    )?;
    is_not_built(&rt, alloc, b"MODULE A(OUT o: BIT); BEGIN o := o END A.")?;
    is_not_built(
        &rt,
        alloc,
        b"MODULE A(IN c: BYTE); REG (c) q: BIT; BEGIN q := q END A.",
    )
}
