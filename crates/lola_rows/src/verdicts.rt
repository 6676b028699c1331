// What `decide` says of small designs and tables, each worked out by hand.
use crate::decide::{TOGGLER, expect};
use lola_app::Status;
use std::test::Fail;

const SWAP: &[u8] =
    b"MODULE Swap(IN clk, rst: BIT); REG (clk) a, b: BIT;\nBEGIN a := ~rst & b; b := ~rst & a END Swap.";

#[test]
fn an_invariant_that_reset_breaks_fails(rt: HostRuntime) -> Result<(), Fail> {
    let table =
        b"TABLE T FOR Tog; ROLES RESET rst = 1; LOADED t; STATE q: BIT IS @q; INVARIANT @q; BOUNDARY 1;\nSTART q := 0; CLASS flip \"-\" PHASE LOAD; SET q := q ^ d0; END T.";
    let text = b"no reset/INVARIANT\n@t=0\n@q=0\nend\n";
    expect(&rt, rt.alloc(), TOGGLER, table, Status::No, text)
}

#[test]
fn an_invariant_that_an_instruction_breaks_fails(rt: HostRuntime) -> Result<(), Fail> {
    let table =
        b"TABLE T FOR Tog; ROLES RESET rst = 1; LOADED t; STATE q: BIT IS @q; INVARIANT ~@q; BOUNDARY 1;\nSTART q := 0; CLASS flip \"-\" PHASE LOAD; SET q := q ^ d0; END T.";
    let text = b"no flip/0/end/INVARIANT\n@t=1\n@q=0\nend\n";
    expect(&rt, rt.alloc(), TOGGLER, table, Status::No, text)
}

#[test]
fn a_register_that_ignores_reset_breaks_its_start(rt: HostRuntime) -> Result<(), Fail> {
    let source = b"MODULE Tog(IN clk, rst, t: BIT); REG (clk) q: BIT; BEGIN q := q ^ t END Tog.";
    let table =
        b"TABLE T FOR Tog; ROLES RESET rst = 1; LOADED t; STATE q: BIT IS @q; INVARIANT 1; BOUNDARY 1;\nSTART q := 0; CLASS flip \"-\" PHASE LOAD; SET q := q ^ d0; END T.";
    let text = b"no reset/q\n@t=0\n@q=1\nend\n";
    expect(&rt, rt.alloc(), source, table, Status::No, text)
}

#[test]
fn without_a_start_row_nothing_is_asked_of_reset(rt: HostRuntime) -> Result<(), Fail> {
    let source = b"MODULE Tog(IN clk, rst, t: BIT); REG (clk) q: BIT; BEGIN q := q ^ t END Tog.";
    let table =
        b"TABLE T FOR Tog; ROLES RESET rst = 1; LOADED t; STATE q: BIT IS @q; INVARIANT 1; BOUNDARY 1;\nSTART CLASS flip \"-\" PHASE LOAD; SET q := q ^ d0; END T.";
    let text = b"yes obligations=6 classes=1 outside=0\n";
    expect(&rt, rt.alloc(), source, table, Status::Ok, text)
}

#[test]
fn two_registers_swap(rt: HostRuntime) -> Result<(), Fail> {
    let table =
        b"TABLE T FOR Swap; ROLES RESET rst = 1; STATE a: BIT IS @a; b: BIT IS @b; INVARIANT 1; BOUNDARY 1;\nSTART a := 0; b := 0; CLASS go \"-\" PHASE; SET a := b; SET b := a; END T.";
    let text = b"yes obligations=9 classes=1 outside=0\n";
    expect(&rt, rt.alloc(), SWAP, table, Status::Ok, text)
}

#[test]
fn one_of_two_registers_stays_in_the_table_alone(rt: HostRuntime) -> Result<(), Fail> {
    let table =
        b"TABLE T FOR Swap; ROLES RESET rst = 1; STATE a: BIT IS @a; b: BIT IS @b; INVARIANT 1; BOUNDARY 1;\nSTART a := 0; b := 0; CLASS go \"-\" PHASE; SET a := b; END T.";
    let text = b"no go/0/end/b\n@a=0\n@b=1\nend\n";
    expect(&rt, rt.alloc(), SWAP, table, Status::No, text)
}

#[test]
fn an_out_port_that_nothing_reads_counts_for_nothing(rt: HostRuntime) -> Result<(), Fail> {
    let source =
        b"MODULE Tog(IN clk, rst, t: BIT; OUT o, p: BIT); REG (clk) q: BIT;\nBEGIN p := ~q | t; q := ~rst & (q ^ t); o := 1 END Tog.";
    let table =
        b"TABLE T FOR Tog; ROLES RESET rst = 1; LOADED t; STATE q: BIT IS @q; INVARIANT 1; BOUNDARY 1;\nSTART q := 0; CLASS flip \"-\" PHASE LOAD; SET q := q ^ d0; END T.";
    let text = b"yes obligations=7 classes=1 outside=0\n";
    expect(&rt, rt.alloc(), source, table, Status::Ok, text)
}

#[test]
fn a_reset_that_is_active_low_is_tried_at_0(rt: HostRuntime) -> Result<(), Fail> {
    let source =
        b"MODULE Tog(IN t, rst, clk: BIT); REG (clk) q: [1] BIT; BEGIN q := rst & (q ^ t) END Tog.";
    let table =
        b"TABLE T FOR Tog; ROLES LOADED t; RESET rst = 0; STATE q: [1] BIT IS @q; INVARIANT 1; BOUNDARY 1;\nSTART q := 0; CLASS flip \" - \" PHASE LOAD LINK 1; SET q := ~q ^ ~d0; END T.";
    let text = b"yes obligations=7 classes=1 outside=0\n";
    expect(&rt, rt.alloc(), source, table, Status::Ok, text)
}

#[test]
fn a_boundary_that_is_left_fails(rt: HostRuntime) -> Result<(), Fail> {
    let table =
        b"TABLE T FOR Swap; ROLES RESET rst = 1; STATE a: BIT IS @a; INVARIANT 1; BOUNDARY ~@a;\nSTART a := 0; CLASS go \"0\" PHASE; SET a := 0; END T.";
    let text = b"no cover\ni=1\nend\n";
    expect(&rt, rt.alloc(), SWAP, table, Status::No, text)?;
    let table =
        b"TABLE T FOR Swap; ROLES RESET rst = 1; STATE a: BIT IS @a; INVARIANT 1; BOUNDARY ~@a;\nSTART a := 0; CLASS go \"-\" PHASE; SET a := 0; END T.";
    let text = b"no go/0/end/BOUNDARY\n@a=0\n@b=1\nend\n";
    expect(&rt, rt.alloc(), SWAP, table, Status::No, text)
}

#[test]
fn rows_of_unknown_states_and_names_are_not_built(rt: HostRuntime) -> Result<(), Fail> {
    let tables: [&[u8]; 10] = [
        b"TABLE T FOR Tog; ROLES RESET rst = 1; STATE q: BIT IS @q; INVARIANT 1; BOUNDARY 1; START CLASS go \"-\" PHASE; SET p := q; END T.",
        b"TABLE T FOR Tog; ROLES RESET rst = 1; STATE q: BIT IS @q; INVARIANT 1; BOUNDARY 1; START p := 0; CLASS go \"-\" PHASE; END T.",
        b"TABLE T FOR Tog; ROLES RESET rst = 1; STATE q: BIT IS @q; INVARIANT 1; BOUNDARY 1; START CLASS go \"-\" PHASE; SET q := p; END T.",
        b"TABLE T FOR Tog; ROLES RESET rst = 1; STATE q: BIT IS @q; INVARIANT 1; BOUNDARY 1; START CLASS go \"-\" PHASE; SET q := d0; END T.",
        b"TABLE T FOR Tog; ROLES RESET rst = 1; STATE q: BIT IS @q; INVARIANT 1; BOUNDARY 1; START CLASS go \"-\" PHASE; SET q := @q; END T.",
        b"TABLE T FOR Tog; ROLES RESET rst = 1; STATE q: BIT IS @q; INVARIANT 1; BOUNDARY 1; START q := q; CLASS go \"-\" PHASE; END T.",
        b"TABLE T FOR Tog; ROLES RESET rst = 1; STATE q: BIT IS @q; q: BIT IS @q; INVARIANT 1; BOUNDARY 1; START CLASS go \"-\" PHASE; END T.",
        b"TABLE T FOR Tog; ROLES RESET rst = 1; STATE d0: BIT IS @q; INVARIANT 1; BOUNDARY 1; START CLASS go \"-\" PHASE; END T.",
        b"TABLE T FOR Tog; ROLES RESET rst = 1; STATE q: BIT IS @t; INVARIANT 1; BOUNDARY 1; START CLASS go \"-\" PHASE; END T.",
        b"TABLE T FOR Tog; ROLES RESET rst = 1; STATE q: BIT IS @q; INVARIANT 1; BOUNDARY 1; START CLASS go \"-\" PHASE LINK 0; END T.",
    ];
    for table in tables {
        expect(
            &rt,
            rt.alloc(),
            TOGGLER,
            table,
            Status::TableFault,
            b"table: NotBuilt\n",
        )?;
    }
    Ok(())
}
