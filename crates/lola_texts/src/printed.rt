// What designs and expressions are printed as, by hand from the rules of printing.
use lola_parse::{parse, parse_expr, tokens_lie_within};
use lola_scan::scan;
use lola_tree::{print, print_expr};
use std::alloc::Global;
use std::process::Abort;
use std::test::Fail;

/// What the design that a text spells is printed as; a text without one is answered by its length.
fn reprinted(alloc: Global, text: &[u8]) -> Result<Vec<u8>, usize> {
    if text.len() > 1_048_576 {
        return Err(text.len());
    }
    tokens_lie_within();
    let tokens = match scan(alloc, text) {
        Ok(tokens) => tokens,
        Err(_) => return Err(text.len()),
    };
    let source = match parse(alloc, text, tokens.as_slice()) {
        Ok(source) => source,
        Err(_) => return Err(text.len()),
    };
    match print(alloc, &source) {
        Ok(printed) => Ok(printed),
        Err(_) => Err(text.len()),
    }
}

/// A design is printed so, and so is what that text spells.
fn prints(rt: &impl Abort, alloc: Global, text: &[u8], printed: &[u8]) {
    match reprinted(alloc, text) {
        Ok(found) => assert_eq!(rt; found.as_slice(), printed),
        Err(length) => assert_eq!(rt; length, 0),
    }
    match reprinted(alloc, printed) {
        Ok(found) => assert_eq!(rt; found.as_slice(), printed),
        Err(length) => assert_eq!(rt; length, 0),
    }
}

/// The expression at the front of a text has so many tokens, and is printed so.
fn prints_expr(rt: &impl Abort, alloc: Global, text: &[u8], count: usize, printed: &[u8]) {
    if text.len() > 1_048_576 {
        return assert_eq!(rt; text.len(), 0);
    }
    tokens_lie_within();
    let tokens = match scan(alloc, text) {
        Ok(tokens) => tokens,
        Err(_) => return assert_eq!(rt; text.len(), 0),
    };
    match parse_expr(alloc, text, tokens.as_slice(), 0) {
        Ok((tree, behind)) => {
            assert_eq!(rt; behind, count);
            match print_expr(alloc, &tree) {
                Ok(found) => assert_eq!(rt; found.as_slice(), printed),
                Err(_) => assert_eq!(rt; text.len(), 0),
            }
        }
        Err(_) => assert_eq!(rt; text.len(), 0),
    }
}

#[test]
fn a_sum_in_a_longer_text(rt: HostRuntime) {
    prints_expr(&rt, rt.alloc(), b"q ^ t;", 3, b"q ^ t ");
}

#[test]
fn the_toggler(rt: HostRuntime) {
    prints(
        &rt,
        rt.alloc(),
        b"MODULE Tog(IN clk, rst, t: BIT; OUT o: BIT); REG (clk) q: BIT;\nBEGIN q := ~rst & (q ^ t); o := q END Tog.",
        b"MODULE Tog ( IN clk : BIT ;\nIN rst : BIT ;\nIN t : BIT ;\nOUT o : BIT ) ;\nREG ( clk ) q : BIT ;\nBEGIN\nq := ~ rst & ( q ^ t ) ;\no := q END Tog .\n",
    );
}

#[test]
fn the_first_design_of_the_language_page(rt: HostRuntime) {
    prints(
        &rt,
        rt.alloc(),
        b"MODULE Toggler(IN clk, rst, t: BIT; OUT o: BIT);\nREG (clk) q: BIT;\nBEGIN\n  q := ~rst & (q ^ t);\n  o := q\nEND Toggler.\n",
        b"MODULE Toggler ( IN clk : BIT ;\nIN rst : BIT ;\nIN t : BIT ;\nOUT o : BIT ) ;\nREG ( clk ) q : BIT ;\nBEGIN\nq := ~ rst & ( q ^ t ) ;\no := q END Toggler .\n",
    );
}

#[test]
fn parentheses_stand_where_the_grammar_needs_them(rt: HostRuntime) {
    let alloc = rt.alloc();
    prints_expr(&rt, alloc, b"((a))", 5, b"a ");
    prints_expr(&rt, alloc, b"(a + b) + c", 7, b"a + b + c ");
    prints_expr(&rt, alloc, b"a + (b - c)", 7, b"a + ( b - c ) ");
    prints_expr(&rt, alloc, b"(a & b) & c", 7, b"a & b & c ");
    prints_expr(&rt, alloc, b"a & (b & c)", 7, b"a & ( b & c ) ");
    prints_expr(&rt, alloc, b"(a & b) | c", 7, b"a & b | c ");
    prints_expr(&rt, alloc, b"(a | b) & c", 7, b"( a | b ) & c ");
    prints_expr(&rt, alloc, b"(a ^ b) = (c & d)", 11, b"a ^ b = c & d ");
    prints_expr(&rt, alloc, b"(a = b) = c", 7, b"( a = b ) = c ");
    prints_expr(&rt, alloc, b"a < (b >= c)", 7, b"a < ( b >= c ) ");
    prints_expr(&rt, alloc, b"~(a & b)", 6, b"~ ( a & b ) ");
    prints_expr(&rt, alloc, b"~(~(a))", 7, b"~ ~ a ");
    prints_expr(
        &rt,
        alloc,
        b"(a -> b : c) -> d : e",
        11,
        b"( a -> b : c ) -> d : e ",
    );
    prints_expr(
        &rt,
        alloc,
        b"a -> (b -> c : d) : (e -> f : g)",
        17,
        b"a -> b -> c : d : e -> f : g ",
    );
    prints_expr(
        &rt,
        alloc,
        b"(a # b) -> (c) : (d <= e)",
        15,
        b"a # b -> c : d <= e ",
    );
    prints_expr(&rt, alloc, b"a + (b -> c : d)", 9, b"a + ( b -> c : d ) ");
}

#[test]
fn factors(rt: HostRuntime) {
    let alloc = rt.alloc();
    prints_expr(&rt, alloc, b"0FFH'8 > 12'4", 3, b"255'8 > 12'4 ");
    prints_expr(&rt, alloc, b"a.3", 3, b"a . 3 ");
    prints_expr(&rt, alloc, b"a.n", 3, b"a . n ");
    prints_expr(&rt, alloc, b"a[0AH:n]", 6, b"a [ 10 : n ] ");
    prints_expr(&rt, alloc, b"a[(i + 1'4)]", 8, b"a [ i + 1'4 ] ");
    prints_expr(
        &rt,
        alloc,
        b"{a!1, (b)!n, {c!4}}",
        17,
        b"{ a , b ! n , { c ! 4 } } ",
    );
    prints_expr(&rt, alloc, b"SHL((a), b)", 8, b"SHL ( a , b ) ");
    prints_expr(
        &rt,
        alloc,
        b"~SHR(a | b, ASR(c, ROR(d, e)))",
        19,
        b"~ SHR ( a | b , ASR ( c , ROR ( d , e ) ) ) ",
    );
}

#[test]
fn what_a_tree_does_not_keep(rt: HostRuntime) {
    let alloc = rt.alloc();
    prints(
        &rt,
        alloc,
        b"MODULE A(INOUT p, q: [8] BIT; OUT r: [2] [1] BIT; s: [1] BIT; t: [n] BIT); VAR BEGIN ; ; END A.",
        b"MODULE A ( INOUT p : BYTE ;\nINOUT q : BYTE ;\nOUT r : [ 2 ] [ 1 ] BIT ;\nOUT s : BIT ;\nOUT t : [ n ] BIT ) ;\nEND A .\n",
    );
    prints(
        &rt,
        alloc,
        b"MODULE A(); VAR v: BIT; REG (c) q, r: [4] BYTE; REG (c) s: [4] [32] BIT; REG (d) w: WORD; CONST n := 1; VAR i: Inner; CONST m := 3'2; VAR x: [n] [n] BIT; END B.",
        b"MODULE A ( ) ;\nCONST n := 1 ;\nm := 3'2 ;\nVAR v : BIT ;\nREG ( c ) q : [ 4 ] BYTE ;\nr : [ 4 ] BYTE ;\ns : [ 4 ] WORD ;\nREG ( d ) w : WORD ;\nVAR i : Inner ;\nx : [ n ] [ n ] BIT ;\nEND B .\n",
    );
}

#[test]
fn every_statement(rt: HostRuntime) {
    prints(
        &rt,
        rt.alloc(),
        b"MODULE A(); BEGIN ; x := (1); r[(a)] := b; ; u((a), b & c); TS(io, i, (v), 0) ; END A. MODULE B(); BEGIN x := y END B.",
        b"MODULE A ( ) ;\nBEGIN\nx := 1 ;\nr [ a ] := b ;\nu ( a , b & c ) ;\nTS ( io , i , v , 0 ) END A .\nMODULE B ( ) ;\nBEGIN\nx := y END B .\n",
    );
}
