// Rows of each kind, and each broken once.
use crate::answer::{Answer, Kind, read_rows};
use std::alloc::Global;
use std::process::Abort;

fn is_read(rt: &impl Abort, alloc: Global, kind: Kind, text: &[u8], rows: usize) {
    assert_eq!(rt;
        read_rows(alloc, kind, text),
        Answer::Rows { rows, left: 1 }
    );
}

fn stops(rt: &impl Abort, alloc: Global, kind: Kind, text: &[u8], left: usize) {
    assert_eq!(rt; read_rows(alloc, kind, text), Answer::Syntax { left });
}

#[test]
fn roles(rt: HostRuntime) {
    let alloc = rt.alloc();
    is_read(&rt, alloc, Kind::Roles, b"STATE", 0);
    is_read(&rt, alloc, Kind::Roles, b"RESET rst = 0; STATE", 1);
    is_read(
        &rt,
        alloc,
        Kind::Roles,
        b"RESET a = 1; RESET b = 7'8; STATE",
        2,
    );
    is_read(
        &rt,
        alloc,
        Kind::Roles,
        b"STALL BIT = 1; CODE {@u.I, @I.3}; FETCHED f; LOADED END; READ r; WRITE w; ADDRESS a; BYTE b; DATA d; STATE",
        9,
    );
    stops(&rt, alloc, Kind::Roles, b"RESET = 0; STATE", 4);
    stops(&rt, alloc, Kind::Roles, b"RESET rst 0; STATE", 3);
    stops(&rt, alloc, Kind::Roles, b"RESET rst = x; STATE", 3);
    stops(&rt, alloc, Kind::Roles, b"RESET rst = 0 STATE", 1);
    stops(&rt, alloc, Kind::Roles, b"CODE ; STATE", 2);
    stops(&rt, alloc, Kind::Roles, b"CODE @I STATE", 1);
    stops(&rt, alloc, Kind::Roles, b"LOADED 5; STATE", 3);
    stops(&rt, alloc, Kind::Roles, b"BYTE b STATE", 1);
}

#[test]
fn states(rt: HostRuntime) {
    let alloc = rt.alloc();
    is_read(&rt, alloc, Kind::States, b"INVARIANT", 0);
    is_read(
        &rt,
        alloc,
        Kind::States,
        b"q: BIT IS @q; v: [5] BIT IS @u.v; m: [4] BYTE IS @m; INVARIANT",
        3,
    );
    stops(&rt, alloc, Kind::States, b"q BIT IS @q; INVARIANT", 6);
    stops(&rt, alloc, Kind::States, b"q: 5 IS @q; INVARIANT", 6);
    stops(&rt, alloc, Kind::States, b"q: BIT @q; INVARIANT", 4);
    stops(&rt, alloc, Kind::States, b"q: BIT IS ; INVARIANT", 2);
    stops(&rt, alloc, Kind::States, b"q: BIT IS @q INVARIANT", 1);
}

#[test]
fn fields_and_starts(rt: HostRuntime) {
    let alloc = rt.alloc();
    is_read(
        &rt,
        alloc,
        Kind::Fields,
        b"op IS i[3:0]; hi IS op.3; INVARIANT",
        2,
    );
    stops(&rt, alloc, Kind::Fields, b"op i; INVARIANT", 3);
    is_read(&rt, alloc, Kind::Starts, b"q := 0; r := 5; FETCH", 2);
    stops(&rt, alloc, Kind::Starts, b"m[0] := 5; END", 7);
    stops(&rt, alloc, Kind::Starts, b"q = 0; END", 4);
}

#[test]
fn lets_and_sets(rt: HostRuntime) {
    let alloc = rt.alloc();
    is_read(
        &rt,
        alloc,
        Kind::Lets,
        b"LET a IS q + 1; LET b IS a; PHASE",
        2,
    );
    stops(&rt, alloc, Kind::Lets, b"LET IS q; PHASE", 4);
    is_read(
        &rt,
        alloc,
        Kind::Sets,
        b"SET q := d0; SET m[a] := q; CLASS",
        2,
    );
    stops(&rt, alloc, Kind::Sets, b"SET m[] := q; CLASS", 5);
    stops(&rt, alloc, Kind::Sets, b"SET m[a := q; CLASS", 4);
    stops(&rt, alloc, Kind::Sets, b"SET q := d0 CLASS", 1);
    is_read(&rt, alloc, Kind::Shows, b";", 0);
    is_read(&rt, alloc, Kind::Shows, b"SHOWS q := 1, m[2] := 3 LINK", 2);
    stops(&rt, alloc, Kind::Shows, b"SHOWS q := 1, ;", 1);
    stops(&rt, alloc, Kind::Shows, b"SHOWS LINK", 1);
}

#[test]
fn phases(rt: HostRuntime) {
    let alloc = rt.alloc();
    is_read(&rt, alloc, Kind::Phases, b"PHASE; SET", 1);
    is_read(
        &rt,
        alloc,
        Kind::Phases,
        b"PHASE LOAD; PHASE LOAD a + 4 BYTE 1; PHASE STORE a BYTE b DATA q; PHASE FETCH pc; END",
        4,
    );
    is_read(
        &rt,
        alloc,
        Kind::Phases,
        b"PHASE TURNS 31 OF WORD FROM 0'32 STEP t1 + 1'32 SHOWS q := k, r := t1 LINK @u.b; END",
        1,
    );
    stops(&rt, alloc, Kind::Phases, b"LOAD; END", 3);
    stops(
        &rt,
        alloc,
        Kind::Phases,
        b"PHASE TURNS n OF BIT FROM 0 STEP 1; END",
        9,
    );
    stops(
        &rt,
        alloc,
        Kind::Phases,
        b"PHASE TURNS 3 BIT FROM 0 STEP 1; END",
        7,
    );
    stops(
        &rt,
        alloc,
        Kind::Phases,
        b"PHASE TURNS 3 OF FROM 0 STEP 1; END",
        6,
    );
    stops(
        &rt,
        alloc,
        Kind::Phases,
        b"PHASE TURNS 3 OF BIT FROM 0; END",
        2,
    );
    stops(&rt, alloc, Kind::Phases, b"PHASE STORE a; END", 2);
    stops(
        &rt,
        alloc,
        Kind::Phases,
        b"PHASE STORE a BYTE DATA q; END",
        4,
    );
    stops(&rt, alloc, Kind::Phases, b"PHASE FETCH; END", 2);
    stops(&rt, alloc, Kind::Phases, b"PHASE LINK; END", 2);
    stops(&rt, alloc, Kind::Phases, b"PHASE LOAD FETCH a; END", 4);
}
