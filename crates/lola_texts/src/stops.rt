// Texts that the grammar refuses. Each front begins some design.
use crate::answer::{Answer, read_text, stops};
use lola_scan::scan;
use std::test::Fail;

#[test]
fn marks_are_no_names(rt: HostRuntime) -> Result<(), Fail> {
    let alloc = rt.alloc();
    stops(&rt, alloc, b"MODULE ", b"(")?;
    stops(&rt, alloc, b"MODULE ", b")")?;
    stops(&rt, alloc, b"MODULE ", b"[")?;
    stops(&rt, alloc, b"MODULE ", b"]")?;
    stops(&rt, alloc, b"MODULE ", b"{")?;
    stops(&rt, alloc, b"MODULE ", b"}")?;
    stops(&rt, alloc, b"MODULE ", b",")?;
    stops(&rt, alloc, b"MODULE ", b";")?;
    stops(&rt, alloc, b"MODULE ", b":")?;
    stops(&rt, alloc, b"MODULE ", b":=")?;
    stops(&rt, alloc, b"MODULE ", b".")?;
    stops(&rt, alloc, b"MODULE ", b"->")?;
    stops(&rt, alloc, b"MODULE ", b"=")?;
    stops(&rt, alloc, b"MODULE ", b"#")?;
    stops(&rt, alloc, b"MODULE ", b"<")?;
    stops(&rt, alloc, b"MODULE ", b"<=")?;
    stops(&rt, alloc, b"MODULE ", b">")?;
    stops(&rt, alloc, b"MODULE ", b">=")?;
    stops(&rt, alloc, b"MODULE ", b"+")?;
    stops(&rt, alloc, b"MODULE ", b"-")?;
    stops(&rt, alloc, b"MODULE ", b"|")?;
    stops(&rt, alloc, b"MODULE ", b"^")?;
    stops(&rt, alloc, b"MODULE ", b"&")?;
    stops(&rt, alloc, b"MODULE ", b"~")?;
    stops(&rt, alloc, b"MODULE ", b"!")?;
    stops(&rt, alloc, b"MODULE ", b"@")
}

#[test]
fn reserved_words_numbers_and_patterns_are_no_names(rt: HostRuntime) -> Result<(), Fail> {
    let alloc = rt.alloc();
    stops(&rt, alloc, b"MODULE ", b"MODULE")?;
    stops(&rt, alloc, b"MODULE ", b"IN")?;
    stops(&rt, alloc, b"MODULE ", b"OUT")?;
    stops(&rt, alloc, b"MODULE ", b"INOUT")?;
    stops(&rt, alloc, b"MODULE ", b"CONST")?;
    stops(&rt, alloc, b"MODULE ", b"REG")?;
    stops(&rt, alloc, b"MODULE ", b"VAR")?;
    stops(&rt, alloc, b"MODULE ", b"BEGIN")?;
    stops(&rt, alloc, b"MODULE ", b"END")?;
    stops(&rt, alloc, b"MODULE ", b"BIT")?;
    stops(&rt, alloc, b"MODULE ", b"BYTE")?;
    stops(&rt, alloc, b"MODULE ", b"WORD")?;
    stops(&rt, alloc, b"MODULE ", b"SHL")?;
    stops(&rt, alloc, b"MODULE ", b"SHR")?;
    stops(&rt, alloc, b"MODULE ", b"ASR")?;
    stops(&rt, alloc, b"MODULE ", b"ROR")?;
    stops(&rt, alloc, b"MODULE ", b"TS")?;
    stops(&rt, alloc, b"MODULE ", b"1")?;
    stops(&rt, alloc, b"MODULE ", b"\"01\"")
}

#[test]
fn texts_around_modules(rt: HostRuntime) -> Result<(), Fail> {
    let alloc = rt.alloc();
    stops(&rt, alloc, b"", b"")?;
    stops(&rt, alloc, b"(* a *) ", b"")?;
    stops(&rt, alloc, b"", b"A")?;
    stops(&rt, alloc, b"", b";")?;
    stops(&rt, alloc, b"MODULE A", b"; END A.")?;
    stops(&rt, alloc, b"MODULE A() ", b"END A.")?;
    stops(&rt, alloc, b"MODULE A(); ", b"x := 1 END A.")?;
    stops(&rt, alloc, b"MODULE A(); END ", b".")?;
    stops(&rt, alloc, b"MODULE A(); END ", b"BIT.")?;
    stops(&rt, alloc, b"MODULE A(); END A", b";")?;
    stops(&rt, alloc, b"MODULE A(); END A. ", b"x")?;
    stops(&rt, alloc, b"MODULE A(); END A.", b".")
}

#[test]
fn ports_and_types(rt: HostRuntime) -> Result<(), Fail> {
    let alloc = rt.alloc();
    stops(&rt, alloc, b"MODULE A(", b"a: BIT); END A.")?;
    stops(&rt, alloc, b"MODULE A(IN ", b"OUT a: BIT); END A.")?;
    stops(&rt, alloc, b"MODULE A(IN a, ", b": BIT); END A.")?;
    stops(&rt, alloc, b"MODULE A(IN a ", b"BIT); END A.")?;
    stops(&rt, alloc, b"MODULE A(IN a: ", b"T); END A.")?;
    stops(&rt, alloc, b"MODULE A(IN a: BIT;", b"); END A.")?;
    stops(&rt, alloc, b"MODULE A(IN a: BIT", b", OUT b: BIT); END A.")?;
    stops(&rt, alloc, b"MODULE A(IN a: [", b"] BIT); END A.")?;
    stops(&rt, alloc, b"MODULE A(IN a: [", b"8'4] BIT); END A.")?;
    stops(&rt, alloc, b"MODULE A(IN a: [8 ", b"BIT); END A.")?;
    stops(&rt, alloc, b"MODULE A(IN a: [8] ", b"T); END A.")?;
    stops(&rt, alloc, b"MODULE A(IN a: [4] [8] ", b"BYTE); END A.")?;
    stops(&rt, alloc, b"MODULE A(IN a: [4] [8] ", b"[2] BIT); END A.")
}

#[test]
fn declarations(rt: HostRuntime) -> Result<(), Fail> {
    let alloc = rt.alloc();
    stops(&rt, alloc, b"MODULE A(); CONST n ", b"= 1; END A.")?;
    stops(&rt, alloc, b"MODULE A(); CONST n := ", b"m; END A.")?;
    stops(&rt, alloc, b"MODULE A(); CONST n := 1 ", b"END A.")?;
    stops(&rt, alloc, b"MODULE A(); CONST n := 1 ", b"+ 1; END A.")?;
    stops(&rt, alloc, b"MODULE A(); REG ", b"q: BIT; END A.")?;
    stops(&rt, alloc, b"MODULE A(); REG (", b") q: BIT; END A.")?;
    stops(&rt, alloc, b"MODULE A(); REG (c) ", b"END A.")?;
    stops(&rt, alloc, b"MODULE A(); REG (c) q: ", b"T; END A.")?;
    stops(
        &rt,
        alloc,
        b"MODULE A(); REG (c) q: BIT; REG ",
        b"r: BIT; END A.",
    )?;
    stops(&rt, alloc, b"MODULE A(); VAR v ", b"BIT; END A.")?;
    stops(&rt, alloc, b"MODULE A(); VAR v: BIT ", b"END A.")?;
    stops(&rt, alloc, b"MODULE A(); VAR v, ", b"END A.")?;
    stops(&rt, alloc, b"MODULE A(); VAR i: Inner", b"(a); END A.")?;
    stops(&rt, alloc, b"MODULE A(); BEGIN ", b"VAR v: BIT; END A.")?;
    stops(&rt, alloc, b"MODULE A(); BEGIN ", b"BEGIN END A.")
}

#[test]
fn statements(rt: HostRuntime) -> Result<(), Fail> {
    let alloc = rt.alloc();
    stops(&rt, alloc, b"MODULE A(); BEGIN x ", b"= 1 END A.")?;
    stops(&rt, alloc, b"MODULE A(); BEGIN x ", b"END A.")?;
    stops(&rt, alloc, b"MODULE A(); BEGIN x", b".1 := 1 END A.")?;
    stops(&rt, alloc, b"MODULE A(); BEGIN ", b"1 := x END A.")?;
    stops(&rt, alloc, b"MODULE A(); BEGIN x := ", b"END A.")?;
    stops(&rt, alloc, b"MODULE A(); BEGIN x := 1 ", b"y := 2 END A.")?;
    stops(&rt, alloc, b"MODULE A(); BEGIN x := 1", b", y := 2 END A.")?;
    stops(&rt, alloc, b"MODULE A(); BEGIN m[", b"] := 1 END A.")?;
    stops(&rt, alloc, b"MODULE A(); BEGIN m[1] ", b"; END A.")?;
    stops(&rt, alloc, b"MODULE A(); BEGIN m[1 ", b": 0] := 1 END A.")?;
    stops(&rt, alloc, b"MODULE A(); BEGIN i(", b") END A.")?;
    stops(&rt, alloc, b"MODULE A(); BEGIN i(a", b"; END A.")?;
    stops(&rt, alloc, b"MODULE A(); BEGIN i(a) ", b":= 1 END A.")?;
    stops(&rt, alloc, b"MODULE A(); BEGIN TS(", b"1, v, a, b) END A.")?;
    stops(
        &rt,
        alloc,
        b"MODULE A(); BEGIN TS(p",
        b".1, v, a, b) END A.",
    )?;
    stops(&rt, alloc, b"MODULE A(); BEGIN TS(p, v, a", b") END A.")?;
    stops(
        &rt,
        alloc,
        b"MODULE A(); BEGIN TS(p, v, a, b",
        b", c) END A.",
    )
}

#[test]
fn expressions(rt: HostRuntime) -> Result<(), Fail> {
    let alloc = rt.alloc();
    stops(&rt, alloc, b"MODULE A(); BEGIN x := a -> b ", b"END A.")?;
    stops(&rt, alloc, b"MODULE A(); BEGIN x := a -> b : ", b"; END A.")?;
    stops(
        &rt,
        alloc,
        b"MODULE A(); BEGIN x := a -> b : c ",
        b": d END A.",
    )?;
    stops(&rt, alloc, b"MODULE A(); BEGIN x := a = b ", b"= c END A.")?;
    stops(&rt, alloc, b"MODULE A(); BEGIN x := a + ", b"+ b END A.")?;
    stops(&rt, alloc, b"MODULE A(); BEGIN x := ", b"- a END A.")?;
    stops(&rt, alloc, b"MODULE A(); BEGIN x := a & ", b"| b END A.")?;
    stops(&rt, alloc, b"MODULE A(); BEGIN x := a ", b"~ b END A.")?;
    stops(&rt, alloc, b"MODULE A(); BEGIN x := ~", b"; END A.")?;
    stops(&rt, alloc, b"MODULE A(); BEGIN x := a.", b"3'2 END A.")?;
    stops(&rt, alloc, b"MODULE A(); BEGIN x := a.", b"[1] END A.")?;
    stops(&rt, alloc, b"MODULE A(); BEGIN x := a.b", b".c END A.")?;
    stops(&rt, alloc, b"MODULE A(); BEGIN x := a[1]", b"[2] END A.")?;
    stops(&rt, alloc, b"MODULE A(); BEGIN x := a[", b"] END A.")?;
    stops(&rt, alloc, b"MODULE A(); BEGIN x := a[5'8 ", b": 3] END A.")?;
    stops(
        &rt,
        alloc,
        b"MODULE A(); BEGIN x := a[n + 1 ",
        b": 0] END A.",
    )?;
    stops(&rt, alloc, b"MODULE A(); BEGIN x := a[n : ", b"] END A.")?;
    stops(&rt, alloc, b"MODULE A(); BEGIN x := a[1 : ", b"0'2] END A.")?;
    stops(&rt, alloc, b"MODULE A(); BEGIN x := 5", b".1 END A.")?;
    stops(&rt, alloc, b"MODULE A(); BEGIN x := (a)", b".1 END A.")?;
    stops(&rt, alloc, b"MODULE A(); BEGIN x := (", b") END A.")?;
    stops(&rt, alloc, b"MODULE A(); BEGIN x := (a ", b"END A.")?;
    stops(&rt, alloc, b"MODULE A(); BEGIN x := a", b") END A.")?;
    stops(&rt, alloc, b"MODULE A(); BEGIN x := {", b"} END A.")?;
    stops(&rt, alloc, b"MODULE A(); BEGIN x := {a, ", b"} END A.")?;
    stops(&rt, alloc, b"MODULE A(); BEGIN x := {a ! ", b"3'2} END A.")?;
    stops(
        &rt,
        alloc,
        b"MODULE A(); BEGIN x := {a ! 2 ",
        b"! 3} END A.",
    )?;
    stops(&rt, alloc, b"MODULE A(); BEGIN x := a ", b"! 2 END A.")?;
    stops(&rt, alloc, b"MODULE A(); BEGIN x := SHL ", b"a END A.")?;
    stops(&rt, alloc, b"MODULE A(); BEGIN x := SHL(a", b") END A.")?;
    stops(
        &rt,
        alloc,
        b"MODULE A(); BEGIN x := ROR(a, b",
        b", c) END A.",
    )?;
    stops(&rt, alloc, b"MODULE A(); BEGIN x := f", b"(a) END A.")?;
    stops(&rt, alloc, b"MODULE A(); BEGIN x := ", b"@q END A.")?;
    stops(&rt, alloc, b"MODULE A(); BEGIN x := ", b"\"01\" END A.")?;
    stops(&rt, alloc, b"MODULE A(); BEGIN x := ", b"BIT END A.")
}

#[test]
fn places_as_numbers(rt: HostRuntime) {
    let alloc = rt.alloc();
    assert_eq!(rt; read_text(alloc, b"MODULE A("), Answer::Syntax { at: 9 });
    assert_eq!(rt;
        read_text(alloc, b"MODULE A(IN); END A."),
        Answer::Syntax { at: 11 }
    );
    assert_eq!(rt;
        read_text(alloc, b"MODULE A(); BEGIN x = 1 END A."),
        Answer::Syntax { at: 20 }
    );
    assert_eq!(rt;
        read_text(alloc, b"MODULE A(); END A"),
        Answer::Syntax { at: 17 }
    );
}

const RICH: &[u8] =
    b"MODULE Rich(IN clk, rst: BIT; OUT o: [8] BIT; a: BYTE; INOUT p: [2] BYTE);\nCONST n := 3; REG (clk) q, r: [n] BIT; m: [4] [8] BIT; VAR v: WORD; i: Inner;\nBEGIN q := ~rst -> a[7 : n] + {q, r ! 2} & 5'8 : SHL(m[q], r.n); m[q] := (v # 0H) | x ^ y - z;\ni(q, p); TS(p, v, a < b, ~(c >= d)) END Rich.";

#[test]
fn a_text_that_ends_too_early_stops_at_its_length(rt: HostRuntime) -> Result<(), Fail> {
    let alloc = rt.alloc();
    let tokens = scan(alloc, RICH).map_err(|_| "scan")?;
    assert_eq!(rt; read_text(alloc, RICH), Answer::Tree);
    for token in tokens.as_slice() {
        let mut text = Vec::new(alloc);
        for byte in RICH {
            if text.len() < token.from as usize {
                text.push(*byte)?;
            }
        }
        assert_eq!(rt;
            read_text(alloc, text.as_slice()),
            Answer::Syntax {
                at: token.from as usize
            }
        );
    }
    Ok(())
}
