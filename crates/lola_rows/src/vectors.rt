// What `decide` says of designs whose ports and registers are vectors, each worked out by hand.
use crate::decide::expect;
use lola_app::Status;
use std::alloc::Global;
use std::process::Abort;
use std::test::Fail;

/// A table that changes the state in each cycle.
const FLIP: &[u8] =
    b"TABLE T FOR V; ROLES RESET rst = 1; STATE q: BIT IS @q; INVARIANT 1; BOUNDARY 1; START q := 0;\nCLASS flip \"-\" PHASE; SET q := ~q; END T.";

/// A table that leaves the state as it is.
const STAY: &[u8] =
    b"TABLE T FOR V; ROLES RESET rst = 1; STATE q: BIT IS @q; INVARIANT 1; BOUNDARY 1; START q := 0;\nCLASS go \"-\" PHASE; END T.";

/// A table whose invariant is that the last test was passed.
const PASSED: &[u8] =
    b"TABLE T FOR V; ROLES RESET rst = 1; STATE INVARIANT @q; BOUNDARY 1; START CLASS go \"-\" PHASE; END T.";

/// A table without states.
const BARE: &[u8] =
    b"TABLE T FOR V; ROLES RESET rst = 1; STATE INVARIANT 1; BOUNDARY 1; START CLASS go \"-\" PHASE; END T.";

const YES: &[u8] = b"yes obligations=7 classes=1 outside=0\n";

/// Texts, one behind the other.
fn joined(alloc: Global, parts: &[&[u8]]) -> Result<Vec<u8>, Fail> {
    let mut text = Vec::new(alloc);
    for part in parts {
        text.extend_from_slice(part)?;
    }
    Ok(text)
}

/// Expects that each test of two vectors of 4 bits is 1 everywhere.
fn always(rt: &impl Abort, alloc: Global, tests: &[&[u8]]) -> Result<(), Fail> {
    let mut source =
        b"MODULE V(IN clk, rst: BIT; a, b: [4] BIT); REG (clk) q: BIT; BEGIN q := 1".to_vec(alloc)?;
    for test in tests {
        source.extend_from_slice(b"\n& (")?;
        source.extend_from_slice(test)?;
        source.extend_from_slice(b")")?;
    }
    source.extend_from_slice(b" END V.")?;
    let text = b"yes obligations=5 classes=1 outside=0\n";
    expect(rt, alloc, source.as_slice(), PASSED, Status::Ok, text)
}

/// Expects that each test of two vectors of 4 bits is 0 first at these two digits.
fn fails_at(rt: &impl Abort, alloc: Global, tests: &[(&[u8], &[u8], &[u8])]) -> Result<(), Fail> {
    for (test, a, b) in tests {
        let source = joined(
            alloc,
            &[
                b"MODULE V(IN clk, rst: BIT; a, b: [4] BIT); REG (clk) q: BIT; BEGIN q := ".as_slice(),
                test,
                b" END V.".as_slice(),
            ],
        )?;
        let text = joined(
            alloc,
            &[
                b"no reset/INVARIANT\n@a=".as_slice(),
                a,
                b"\n@b=".as_slice(),
                b,
                b"\n@q=0\nend\n".as_slice(),
            ],
        )?;
        expect(
            rt,
            alloc,
            source.as_slice(),
            PASSED,
            Status::No,
            text.as_slice(),
        )?;
    }
    Ok(())
}

/// Expects that a test, whether an input of some type is below a number, fails first at that number.
fn first_from(
    rt: &impl Abort,
    alloc: Global,
    type_: &[u8],
    number: &[u8],
    digits: &[u8],
) -> Result<(), Fail> {
    let source = joined(
        alloc,
        &[
            b"MODULE V(IN clk, rst: BIT; a: ".as_slice(),
            type_,
            b"); REG (clk) q: BIT; BEGIN q := a < ".as_slice(),
            number,
            b" END V.".as_slice(),
        ],
    )?;
    let text = joined(
        alloc,
        &[
            b"no reset/INVARIANT\n@a=".as_slice(),
            digits,
            b"\n@q=0\nend\n".as_slice(),
        ],
    )?;
    expect(
        rt,
        alloc,
        source.as_slice(),
        PASSED,
        Status::No,
        text.as_slice(),
    )
}

/// Expects that each source is refused as one that isn't built.
fn outside(rt: &impl Abort, alloc: Global, sources: &[&[u8]]) -> Result<(), Fail> {
    for source in sources {
        expect(
            rt,
            alloc,
            source,
            FLIP,
            Status::SourceFault,
            b"source: NotBuilt\n",
        )?;
    }
    Ok(())
}

#[test]
fn a_sum_has_one_value_both_ways(rt: HostRuntime) -> Result<(), Fail> {
    let source =
        b"MODULE V(IN clk, rst: BIT; a, b: [4] BIT); REG (clk) q: BIT; BEGIN q := ~rst & (q ^ (a + b = b + a)) END V.";
    expect(&rt, rt.alloc(), source, FLIP, Status::Ok, YES)
}

#[test]
fn a_difference_the_other_way_is_another(rt: HostRuntime) -> Result<(), Fail> {
    let source =
        b"MODULE V(IN clk, rst: BIT; a, b: [4] BIT); REG (clk) q: BIT; BEGIN q := ~rst & (q ^ (a - b = b - a)) END V.";
    let text = b"no flip/0/end/q\n@a=0\n@b=1\n@q=0\nend\n";
    expect(&rt, rt.alloc(), source, FLIP, Status::No, text)
}

#[test]
fn a_number_is_printed_in_capital_hexadecimal_digits(rt: HostRuntime) -> Result<(), Fail> {
    let cases: [(&[u8], &[u8]); 10] = [
        (b"0AAH'12", b"0AA"),
        (b"0BCH'12", b"0BC"),
        (b"0DEH'12", b"0DE"),
        (b"1F2H'12", b"1F2"),
        (b"34H'12", b"034"),
        (b"56H'12", b"056"),
        (b"78H'12", b"078"),
        (b"19BH'12", b"19B"),
        (b"5C3H'12", b"5C3"),
        (b"171'12", b"0AB"),
    ];
    for (number, digits) in cases {
        first_from(&rt, rt.alloc(), b"[12] BIT", number, digits)?;
    }
    Ok(())
}

#[test]
fn a_number_has_a_digit_for_each_4_bits_and_for_those_left(rt: HostRuntime) -> Result<(), Fail> {
    let cases: [(&[u8], &[u8], &[u8]); 10] = [
        (b"BIT", b"1", b"1"),
        (b"[3] BIT", b"6'3", b"6"),
        (b"[4] BIT", b"15'4", b"F"),
        (b"[5] BIT", b"16'5", b"10"),
        (b"[5] BIT", b"12'5", b"0C"),
        (b"BYTE", b"0C8H'8", b"C8"),
        (b"[9] BIT", b"100H'9", b"100"),
        (b"[9] BIT", b"7'9", b"007"),
        (b"[10] BIT", b"2BEH'10", b"2BE"),
        (b"[13] BIT", b"40DH'13", b"040D"),
    ];
    for (type_, number, digits) in cases {
        first_from(&rt, rt.alloc(), type_, number, digits)?;
    }
    Ok(())
}

#[test]
fn a_wide_register_is_printed_among_the_registers(rt: HostRuntime) -> Result<(), Fail> {
    let source =
        b"MODULE V(IN clk, rst: BIT; a: [2] BIT); REG (clk) q: BIT; n: [5] BIT;\nBEGIN n := n; q := ~rst & (q ^ ((a < 2'2) | (n < 1BH'5))) END V.";
    let text = b"no flip/0/end/q\n@a=2\n@q=0\n@n=1B\nend\n";
    expect(&rt, rt.alloc(), source, FLIP, Status::No, text)
}

#[test]
fn a_state_that_reset_leaves_is_told_with_wide_numbers(rt: HostRuntime) -> Result<(), Fail> {
    let source =
        b"MODULE V(IN a: [3] BIT; rst, clk: BIT); REG (clk) n: [5] BIT; q: BIT;\nBEGIN n := ~n; q := ~rst & ~q | (a = 5'3) & (n > 1AH'5) END V.";
    let text = b"no reset/q\n@a=5\n@n=1B\n@q=0\nend\n";
    expect(&rt, rt.alloc(), source, FLIP, Status::No, text)
}

#[test]
fn a_design_without_free_bits_has_one_case(rt: HostRuntime) -> Result<(), Fail> {
    let source = b"MODULE V(IN rst: BIT); END V.";
    let text = b"yes obligations=5 classes=1 outside=0\n";
    expect(&rt, rt.alloc(), source, BARE, Status::Ok, text)?;
    let table =
        b"TABLE T FOR V; ROLES RESET rst = 1; STATE INVARIANT 0; BOUNDARY 1; START CLASS go \"-\" PHASE; END T.";
    let text = b"no reset/INVARIANT\nend\n";
    expect(&rt, rt.alloc(), source, table, Status::No, text)
}

/// An input and a register of 16 bits, beside the clock and RESET, and an output.
const SIXTEEN: &[u8] =
    b"MODULE V(IN clk, rst: BIT; a: [15] BIT; OUT o: [128] BIT); REG (clk) q: BIT;\nBEGIN q := ~(q & (a = 7FFFH'15)); o := 0'128 END V.";

/// One bit more.
const SEVENTEEN: &[u8] =
    b"MODULE V(IN clk, rst: BIT; a: [16] BIT; OUT o: [128] BIT); REG (clk) q: BIT;\nBEGIN q := ~(q & (a = 0FFFFH'16)); o := 0'128 END V.";

#[test]
fn sixteen_free_bits_are_tried_to_the_last_case(rt: HostRuntime) -> Result<(), Fail> {
    let text = b"no reset/INVARIANT\n@a=7FFF\n@q=1\nend\n";
    expect(&rt, rt.alloc(), SIXTEEN, PASSED, Status::No, text)
}

#[test]
fn seventeen_free_bits_are_too_many(rt: HostRuntime) -> Result<(), Fail> {
    let text = b"limit: bits reset/INVARIANT 17\n";
    expect(&rt, rt.alloc(), SEVENTEEN, BARE, Status::Limit, text)?;
    let source =
        b"MODULE V(IN t, clk, rst: BIT; a: BYTE); REG (clk) n: [7] BIT; q: BIT;\nBEGIN n := n; q := ~rst & ~q END V.";
    let table =
        b"TABLE T FOR V; ROLES RESET rst = 1; LOADED t; STATE q: BIT IS @q; INVARIANT 1; BOUNDARY 1; START q := 0;\nCLASS flip \"-\" PHASE LOAD; SET q := ~q; END T.";
    expect(&rt, rt.alloc(), source, table, Status::Limit, text)
}

#[test]
fn free_bits_far_over_their_limit_are_counted(rt: HostRuntime) -> Result<(), Fail> {
    let cases: [(&[u8], &[u8]); 3] = [
        (
            b"MODULE V(IN clk, rst: BIT; a, b: [128] BIT); REG (clk) q: BIT; BEGIN q := ~rst & (q ^ (a = b)) END V.",
            b"limit: bits reset/INVARIANT 257\n",
        ),
        (
            b"MODULE V(IN clk, rst: BIT); REG (clk) q: BIT; m, n: [128] BIT; w: WORD; BEGIN m := n; n := m; w := w; q := ~rst & ~q END V.",
            b"limit: bits reset/INVARIANT 289\n",
        ),
        (
            b"MODULE V(IN clk, rst: BIT; w: WORD; y: BYTE); REG (clk) q: BIT; BEGIN q := ~rst & ~q END V.",
            b"limit: bits reset/INVARIANT 41\n",
        ),
    ];
    for (source, text) in cases {
        expect(&rt, rt.alloc(), source, FLIP, Status::Limit, text)?;
    }
    Ok(())
}

#[test]
fn free_bits_are_counted_before_anything_is_tried(rt: HostRuntime) -> Result<(), Fail> {
    let table =
        b"TABLE T FOR V; ROLES RESET rst = 1; STATE INVARIANT 0; BOUNDARY 1; START CLASS go \"1\" PHASE; END T.";
    let text = b"limit: bits reset/INVARIANT 17\n";
    expect(&rt, rt.alloc(), SEVENTEEN, table, Status::Limit, text)?;
    let text = b"no cover\ni=0\nend\n";
    expect(&rt, rt.alloc(), SIXTEEN, table, Status::No, text)
}

#[test]
fn a_table_that_does_not_fit_is_refused_before_free_bits_are_counted(
    rt: HostRuntime,
) -> Result<(), Fail> {
    let table =
        b"TABLE T FOR V; ROLES RESET a = 1; STATE INVARIANT 1; BOUNDARY 1; START CLASS go \"-\" PHASE; END T.";
    let text = b"table: NotBuilt\n";
    expect(&rt, rt.alloc(), SEVENTEEN, table, Status::TableFault, text)
}

#[test]
fn a_design_of_two_modules_is_not_built(rt: HostRuntime) -> Result<(), Fail> {
    outside(
        &rt,
        rt.alloc(),
        &[
            b"MODULE U(IN a: BIT; OUT o: BIT); BEGIN o := a END U.\nMODULE V(IN clk, rst: BIT); REG (clk) q: BIT; BEGIN q := ~rst & ~q END V.",
            b"MODULE U(); END U.\nMODULE V(IN clk, rst: BIT); REG (clk) q: BIT; BEGIN q := ~rst & ~q END V.",
            b"MODULE U(IN a: BIT; OUT o: BIT); BEGIN o := a END U.\nMODULE V(IN clk, rst: BIT; OUT p: BIT); REG (clk) q: BIT; VAR u: U;\nBEGIN u(q, p); q := ~rst & ~q END V.",
        ],
    )
}

#[test]
fn variables_are_not_built(rt: HostRuntime) -> Result<(), Fail> {
    outside(
        &rt,
        rt.alloc(),
        &[
            b"MODULE V(IN clk, rst: BIT); REG (clk) q: BIT; VAR x: BIT; BEGIN x := ~q; q := ~rst & x END V.",
            b"MODULE V(IN clk, rst: BIT; a: [4] BIT); REG (clk) q: BIT; VAR x: [4] BIT; BEGIN x := a; q := ~rst & ~q END V.",
        ],
    )
}

#[test]
fn pads_are_not_built(rt: HostRuntime) -> Result<(), Fail> {
    outside(
        &rt,
        rt.alloc(),
        &[
            b"MODULE V(IN clk, rst: BIT; INOUT io: BIT; OUT seen: BIT); REG (clk) q: BIT;\nBEGIN TS(io, seen, q, rst); q := ~rst & ~q END V.",
            b"MODULE V(IN clk, rst: BIT; INOUT io: BYTE; OUT seen: BYTE); REG (clk) q: BIT;\nBEGIN TS(io, seen, 5'8, q); q := ~rst & ~q END V.",
        ],
    )
}

#[test]
fn arrays_are_not_built(rt: HostRuntime) -> Result<(), Fail> {
    outside(
        &rt,
        rt.alloc(),
        &[
            b"MODULE V(IN clk, rst: BIT); REG (clk) q: BIT; R: [2] BYTE;\nBEGIN R[q] := 0FFH'8; q := ~rst & ~q END V.",
            b"MODULE V(IN clk, rst: BIT; a: [2] BIT); REG (clk) R: [4] [3] BIT; q: BIT;\nBEGIN R[a] := R[a + 1'2] + 1'3; q := ~rst & ~q END V.",
        ],
    )
}

#[test]
fn an_out_port_that_is_read_is_not_built(rt: HostRuntime) -> Result<(), Fail> {
    outside(
        &rt,
        rt.alloc(),
        &[
            b"MODULE V(IN clk, rst: BIT; OUT o: BIT); REG (clk) q: BIT; BEGIN o := ~q; q := ~rst & o END V.",
            b"MODULE V(IN clk, rst: BIT; a: BYTE; OUT o: BYTE); REG (clk) q: BIT; BEGIN o := ~a; q := ~rst & o.7 END V.",
            b"MODULE V(IN clk, rst: BIT; a: BYTE; OUT o: BYTE); REG (clk) q: BIT; BEGIN o := a; q := ~rst & ({o[3 : 0], 0'4} = a) END V.",
            b"MODULE V(IN clk, rst: BIT; a: BYTE; OUT o: BYTE); REG (clk) q: BIT; BEGIN o := a; q := ~rst & (SHL(a, o) = a) END V.",
            b"MODULE V(IN clk, rst: BIT; OUT o, p: BIT); REG (clk) q: BIT; BEGIN o := q; p := q -> o : 1; q := ~rst & ~q END V.",
        ],
    )
}

#[test]
fn a_clock_that_is_read_is_named_as_such(rt: HostRuntime) -> Result<(), Fail> {
    let source = b"MODULE V(IN clk, rst: BIT); REG (clk) q: BIT; BEGIN q := ~rst & {clk} END V.";
    let text = b"source: Clock 65\n";
    expect(&rt, rt.alloc(), source, FLIP, Status::SourceFault, text)
}

#[test]
fn widths_and_numbers_may_be_constants(rt: HostRuntime) -> Result<(), Fail> {
    let sources: [&[u8]; 3] = [
        b"MODULE V(IN clk, rst: BIT; a: [n] BIT); CONST n := 3'2; five := 5'3; REG (clk) q: BIT;\nBEGIN q := ~rst & (q ^ (a + five - five = a)) END V.",
        b"MODULE V(IN clk, rst: BIT; a: BYTE); REG (clk) q: [one] BIT; CONST one := 1; high := 7'3; low := 4'3;\nBEGIN q := ~rst & (q ^ (a[high : low] = {a.high, a[6 : 5], a.low ! one})) END V.",
        b"MODULE V(IN clk, rst: BIT; OUT o: [4] BIT); CONST mask := 0CH'4; REG (clk) q: BIT; m: [4] BIT;\nBEGIN m := rst -> 0'4 : mask; o := m; q := ~rst & (q ^ (mask[2 : 1] = 2'2)) END V.",
    ];
    for source in sources {
        expect(&rt, rt.alloc(), source, FLIP, Status::Ok, YES)?;
    }
    Ok(())
}

#[test]
fn an_out_port_may_be_of_128_bits(rt: HostRuntime) -> Result<(), Fail> {
    let source =
        b"MODULE V(IN clk, rst: BIT; a: [4] BIT; OUT o: [128] BIT; p: WORD); REG (clk) q: BIT;\nBEGIN o := {a ! 32}; p := {a, 0'28}; q := ~rst & ~q END V.";
    expect(&rt, rt.alloc(), source, FLIP, Status::Ok, YES)
}

/// A design with a wide input and a wide register beside those of one bit.
const MIXED: &[u8] =
    b"MODULE V(IN clk, rst, t: BIT; a: [2] BIT); REG (clk) n: [2] BIT; q: BIT;\nBEGIN n := a; q := ~rst & ~q END V.";

#[test]
fn a_table_sees_the_inputs_and_registers_of_one_bit(rt: HostRuntime) -> Result<(), Fail> {
    let table =
        b"TABLE T FOR V; ROLES RESET rst = 1; LOADED t; STATE q: BIT IS @q; INVARIANT @q | ~@q; BOUNDARY 1; START q := 0;\nCLASS flip \"-\" PHASE LOAD; SET q := ~q; END T.";
    expect(&rt, rt.alloc(), MIXED, table, Status::Ok, YES)
}

#[test]
fn a_table_that_names_a_wide_input_or_register_is_not_built(rt: HostRuntime) -> Result<(), Fail> {
    let tables: [&[u8]; 10] = [
        b"TABLE T FOR V; ROLES RESET a = 1; STATE q: BIT IS @q; INVARIANT 1; BOUNDARY 1; START q := 0; CLASS flip \"-\" PHASE; SET q := ~q; END T.",
        b"TABLE T FOR V; ROLES RESET rst = 1; LOADED a; STATE q: BIT IS @q; INVARIANT 1; BOUNDARY 1; START q := 0; CLASS flip \"-\" PHASE LOAD; SET q := ~q; END T.",
        b"TABLE T FOR V; ROLES RESET rst = 1; LOADED a; STATE q: BIT IS @q; INVARIANT 1; BOUNDARY 1; START q := 0; CLASS flip \"-\" PHASE; SET q := ~q; END T.",
        b"TABLE T FOR V; ROLES RESET rst = 1; STATE n: BIT IS @n; INVARIANT 1; BOUNDARY 1; START CLASS go \"-\" PHASE; END T.",
        b"TABLE T FOR V; ROLES RESET rst = 1; STATE n: [2] BIT IS @n; INVARIANT 1; BOUNDARY 1; START CLASS go \"-\" PHASE; END T.",
        b"TABLE T FOR V; ROLES RESET rst = 1; STATE n: BIT IS @n.0; INVARIANT 1; BOUNDARY 1; START CLASS go \"-\" PHASE; END T.",
        b"TABLE T FOR V; ROLES RESET rst = 1; STATE q: [2] BIT IS @q; INVARIANT 1; BOUNDARY 1; START CLASS go \"-\" PHASE; END T.",
        b"TABLE T FOR V; ROLES RESET rst = 1; STATE q: BIT IS @q; INVARIANT @n; BOUNDARY 1; START q := 0; CLASS flip \"-\" PHASE; SET q := ~q; END T.",
        b"TABLE T FOR V; ROLES RESET rst = 1; STATE q: BIT IS @q; INVARIANT @q | ~@n; BOUNDARY 1; START q := 0; CLASS flip \"-\" PHASE; SET q := ~q; END T.",
        b"TABLE T FOR V; ROLES RESET rst = 1; STATE q: BIT IS @q; INVARIANT 1; BOUNDARY @n; START q := 0; CLASS flip \"-\" PHASE; SET q := ~q; END T.",
    ];
    for table in tables {
        expect(
            &rt,
            rt.alloc(),
            MIXED,
            table,
            Status::TableFault,
            b"table: NotBuilt\n",
        )?;
    }
    let source = b"MODULE V(IN rst: BYTE); END V.";
    expect(
        &rt,
        rt.alloc(),
        source,
        BARE,
        Status::TableFault,
        b"table: NotBuilt\n",
    )
}

#[test]
fn a_table_with_a_number_of_a_width_is_not_built(rt: HostRuntime) -> Result<(), Fail> {
    let tables: [&[u8]; 3] = [
        b"TABLE T FOR V; ROLES RESET rst = 1; STATE q: BIT IS @q; INVARIANT 1'1; BOUNDARY 1; START q := 0; CLASS flip \"-\" PHASE; SET q := ~q; END T.",
        b"TABLE T FOR V; ROLES RESET rst = 1; STATE q: BIT IS @q; INVARIANT 1; BOUNDARY 1; START q := 0'1; CLASS flip \"-\" PHASE; SET q := ~q; END T.",
        b"TABLE T FOR V; ROLES RESET rst = 1; STATE q: BIT IS @q; INVARIANT 1; BOUNDARY 1; START q := 0; CLASS flip \"-\" PHASE; SET q := q = 0; END T.",
    ];
    for table in tables {
        expect(
            &rt,
            rt.alloc(),
            MIXED,
            table,
            Status::TableFault,
            b"table: NotBuilt\n",
        )?;
    }
    Ok(())
}

#[test]
fn a_count_that_a_state_depends_on_is_told(rt: HostRuntime) -> Result<(), Fail> {
    let cases: [(&[u8], &[u8]); 3] = [
        (
            b"MODULE V(IN clk, rst: BIT); REG (clk) q: BIT; n: [3] BIT;\nBEGIN n := rst -> 0'3 : n + 1'3; q := ~rst & (q ^ (n = 5'3)) END V.",
            b"no go/0/end/q\n@q=0\n@n=5\nend\n",
        ),
        (
            b"MODULE V(IN clk, rst: BIT); REG (clk) n: [3] BIT; q: BIT;\nBEGIN n := rst -> 0'3 : n + 1'3; q := ~rst & q & ~(n + 3'3 < n) END V.",
            b"no go/0/end/q\n@n=5\n@q=1\nend\n",
        ),
        (
            b"MODULE V(IN clk, rst: BIT); REG (clk) n: BYTE; q: BIT;\nBEGIN n := rst -> 0'8 : n + 1'8; q := ~rst & (q | n.7 & n.5 & n.1) END V.",
            b"no go/0/end/q\n@n=A2\n@q=0\nend\n",
        ),
    ];
    for (source, text) in cases {
        expect(&rt, rt.alloc(), source, STAY, Status::No, text)?;
    }
    Ok(())
}

#[test]
fn a_count_that_no_state_depends_on_is_tried_and_passed(rt: HostRuntime) -> Result<(), Fail> {
    let source =
        b"MODULE V(IN clk, rst: BIT); REG (clk) n: BYTE; q: BIT;\nBEGIN n := rst -> 0'8 : n + 1'8; q := ~rst & (q ^ (n + 1'8 # n)) END V.";
    expect(&rt, rt.alloc(), source, FLIP, Status::Ok, YES)
}

/// Inputs and registers of one bit, with wide ones before and between them.
const BETWEEN: &[u8] =
    b"MODULE V(IN a: [2] BIT; clk, t, rst: BIT); REG (clk) m: [2] BIT; p: BIT; n: [2] BIT; r: BIT;\nBEGIN m := a + m; p := ~rst & r; n := m; r := ~rst & (p ^ t) END V.";

#[test]
fn wide_vectors_between_those_of_one_bit_change_no_state(rt: HostRuntime) -> Result<(), Fail> {
    let table =
        b"TABLE T FOR V; ROLES RESET rst = 1; LOADED t; STATE r: BIT IS @r; p: BIT IS @p; INVARIANT 1; BOUNDARY 1;\nSTART p := 0; r := 0; CLASS go \"-\" PHASE LOAD; SET p := r; SET r := p ^ d0; END T.";
    let text = b"yes obligations=9 classes=1 outside=0\n";
    expect(&rt, rt.alloc(), BETWEEN, table, Status::Ok, text)
}

#[test]
fn a_valuation_has_the_inputs_and_then_the_registers_in_text_order(
    rt: HostRuntime,
) -> Result<(), Fail> {
    let table =
        b"TABLE T FOR V; ROLES RESET rst = 1; LOADED t; STATE r: BIT IS @r; p: BIT IS @p; INVARIANT 1; BOUNDARY 1;\nSTART p := 0; r := 0; CLASS go \"-\" PHASE LOAD; SET p := r; SET r := p; END T.";
    let text = b"no go/0/end/r\n@a=0\n@t=1\n@m=0\n@p=0\n@n=0\n@r=0\nend\n";
    expect(&rt, rt.alloc(), BETWEEN, table, Status::No, text)
}

#[test]
fn sums_and_differences_are_modulo_their_width(rt: HostRuntime) -> Result<(), Fail> {
    always(
        &rt,
        rt.alloc(),
        &[
            b"a - b = ~(~a + b)",
            b"a + b - b = a",
            b"~a + 1'4 = 0'4 - a",
            b"a - b - b = a - (b + b)",
        ],
    )?;
    fails_at(
        &rt,
        rt.alloc(),
        &[
            (b"a + 3'4 > 2'4", b"D", b"0"),
            (b"a - 3'4 # 9'4", b"C", b"0"),
            (b"a - b # 14'4", b"0", b"2"),
        ],
    )
}

#[test]
fn logic_goes_bit_by_bit(rt: HostRuntime) -> Result<(), Fail> {
    always(
        &rt,
        rt.alloc(),
        &[
            b"a & b = ~(~a | ~b)",
            b"a ^ b = a & ~b | ~a & b",
            b"(a | b) + (a & b) = a + b",
            b"a ^ ~a = 0FH'4",
        ],
    )?;
    fails_at(
        &rt,
        rt.alloc(),
        &[
            (b"a & b # 9'4", b"9", b"9"),
            (b"a ^ b # 9'4", b"0", b"9"),
            (b"a | 5'4 # 15'4", b"A", b"0"),
            (b"~a # 6'4", b"9", b"0"),
        ],
    )
}

#[test]
fn numbers_are_compared_without_sign(rt: HostRuntime) -> Result<(), Fail> {
    always(
        &rt,
        rt.alloc(),
        &[
            b"(a < b) = (b > a)",
            b"(a <= b) # (a > b)",
            b"(a >= b) = ~(a < b)",
            b"(a = b) = (a <= b) & (a >= b)",
        ],
    )?;
    fails_at(
        &rt,
        rt.alloc(),
        &[
            (b"a < 8'4", b"8", b"0"),
            (b"a <= 12'4", b"D", b"0"),
            (b"15'4 > a", b"F", b"0"),
            (b"9'4 >= a", b"A", b"0"),
            (b"a # 11'4", b"B", b"0"),
            (b"a = b", b"0", b"1"),
            (b"a <= b", b"1", b"0"),
        ],
    )
}

#[test]
fn shifts_by_numbers_move_bits(rt: HostRuntime) -> Result<(), Fail> {
    always(
        &rt,
        rt.alloc(),
        &[
            b"SHL(a, 1'3) = a + a",
            b"SHR(a, 2'4) = {0'2, a[3 : 2]}",
            b"ASR(a, 1) = {a.3, a[3 : 1]}",
            b"ROR(a, 1) = {a.0, a[3 : 1]}",
            b"ROR(a, 2'2) = {a[1 : 0], a[3 : 2]}",
        ],
    )?;
    fails_at(
        &rt,
        rt.alloc(),
        &[
            (b"SHL(a, 1'3) # 10'4", b"5", b"0"),
            (b"SHR(a, 2'3) < 3'4", b"C", b"0"),
            (b"ASR(a, 1) < 15'4", b"E", b"0"),
            (b"ROR(a, 1) # 9'4", b"3", b"0"),
        ],
    )
}

#[test]
fn shifts_by_a_value_move_as_many_bits(rt: HostRuntime) -> Result<(), Fail> {
    always(
        &rt,
        rt.alloc(),
        &[
            b"b < 4'4 -> 1 : SHL(a, b) = 0'4",
            b"b < 4'4 -> 1 : SHR(a, b) = 0'4",
            b"b < 3'4 -> 1 : ASR(a, b) = {a.3 ! 4}",
            b"ROR(a, b) = ROR(a, b & 3'4)",
            b"ROR(a, b) = SHR(a, b[1 : 0]) | SHL(a, 4'3 - {0, b[1 : 0]})",
        ],
    )?;
    fails_at(
        &rt,
        rt.alloc(),
        &[
            (b"SHL(a, b) # 12'4", b"3", b"2"),
            (b"(SHR(a, b) # 5'4) | (b = 0'4)", b"A", b"1"),
            (b"ASR(a, b) # 13'4", b"A", b"1"),
            (b"ROR(a, b) # 6'4", b"3", b"3"),
            (b"SHR(a, {b, b}) = 0'4", b"1", b"0"),
        ],
    )
}

#[test]
fn shifts_by_the_greatest_number_leave_what_came_in(rt: HostRuntime) -> Result<(), Fail> {
    let source =
        b"MODULE V(IN clk, rst: BIT; a: [4] BIT); CONST n := 0FFFFFFFFFFFFFFFFFFFFFFFFFFFFFFFFH'128; REG (clk) q: BIT;\nBEGIN q := (SHL(a, n) = 0'4) & (SHR(a, n) = 0'4) & (ASR(a, n) = {a.3 ! 4}) & (ROR(a, n) = ROR(a, 3'2)) END V.";
    let text = b"yes obligations=5 classes=1 outside=0\n";
    expect(&rt, rt.alloc(), source, PASSED, Status::Ok, text)
}

#[test]
fn vectors_of_128_bits_are_added_and_compared(rt: HostRuntime) -> Result<(), Fail> {
    let source =
        b"MODULE V(IN clk, rst: BIT; a, b: [2] BIT); REG (clk) q: BIT;\nBEGIN q := ({a ! 64} + {~a ! 64} + 1'128 = 0'128) & (({a ! 64} < {b ! 64}) = (a < b)) END V.";
    let text = b"yes obligations=5 classes=1 outside=0\n";
    expect(&rt, rt.alloc(), source, PASSED, Status::Ok, text)?;
    let source =
        b"MODULE V(IN clk, rst: BIT; a, b: [2] BIT); REG (clk) q: BIT;\nBEGIN q := {a ! 64} - 1'128 > {a ! 62, b, b} END V.";
    let text = b"no reset/INVARIANT\n@a=1\n@b=1\n@q=0\nend\n";
    expect(&rt, rt.alloc(), source, PASSED, Status::No, text)
}

#[test]
fn vectors_turn_by_a_number_modulo_their_width(rt: HostRuntime) -> Result<(), Fail> {
    let source =
        b"MODULE V(IN clk, rst: BIT; a: [3] BIT; n: [4] BIT); REG (clk) q: BIT;\nBEGIN q := ROR(a, n) = ROR(ROR(a, n + 1'4), 2'2) END V.";
    let text = b"no reset/INVARIANT\n@a=1\n@n=F\n@q=0\nend\n";
    expect(&rt, rt.alloc(), source, PASSED, Status::No, text)?;
    let source =
        b"MODULE V(IN clk, rst: BIT; a: [3] BIT; n: [4] BIT); REG (clk) q: BIT;\nBEGIN q := ROR(a, n) = (n = 15'4 -> a : ROR(ROR(a, n + 1'4), 2'2)) END V.";
    let text = b"yes obligations=5 classes=1 outside=0\n";
    expect(&rt, rt.alloc(), source, PASSED, Status::Ok, text)
}

#[test]
fn the_leftmost_part_of_vectors_side_by_side_is_the_highest(rt: HostRuntime) -> Result<(), Fail> {
    always(
        &rt,
        rt.alloc(),
        &[
            b"{a, b} = {a.3, a[2 : 0], b}",
            b"{a ! 2} = {a, a}",
            b"{a ! 2, b} = {a, a, b}",
            b"{a, b} = SHL({0'4, a}, 4'3) + {0'4, b}",
        ],
    )?;
    fails_at(
        &rt,
        rt.alloc(),
        &[
            (b"{a, b} < 0A7H'8", b"A", b"7"),
            (b"{b, a} < 0A7H'8", b"0", b"B"),
            (b"{a[1 : 0] ! 2} # 10'4", b"2", b"0"),
            (b"~(a.2 & b.1)", b"4", b"2"),
            (b"a[2 : 1] # 3'2", b"6", b"0"),
            (b"{a.0, b[3 : 1]} # 13'4", b"1", b"A"),
        ],
    )
}

#[test]
fn a_choice_takes_its_first_value_where_its_test_is_1(rt: HostRuntime) -> Result<(), Fail> {
    always(
        &rt,
        rt.alloc(),
        &[
            b"(a < b -> a : b) <= a",
            b"(a.0 -> a : a + 1'4) = (a | 1'4)",
            b"(a.0 -> b.0 -> 1 : 0 : 0) = (a.0 & b.0)",
        ],
    )?;
    fails_at(
        &rt,
        rt.alloc(),
        &[
            (b"(a.3 -> b : ~b) # 6'4", b"0", b"9"),
            (b"(a.3 -> b : 15'4) # 6'4", b"8", b"6"),
            (b"a < 3'4 -> 1 : b = 0'4", b"3", b"1"),
        ],
    )
}
