// Tables as a whole: what is read, and at which place the reading stops.
use lola_parse::{ParseError, tokens_lie_within};
use lola_scan::scan;
use std::alloc::Global;
use std::process::Abort;
use tab_parse::{PlacedTable, parse_table};

/// How many rows of each kind a table has, or why there is none.
#[derive(Clone, Copy, Debug, PartialEq, Eq)]
enum Answer {
    Table { rows: Rows },
    Syntax { at: u32 },
    Long { at: u32 },
    Memory,
    NoTokens,
}

#[derive(Clone, Copy, Debug, PartialEq, Eq)]
struct Rows {
    roles: usize,
    states: usize,
    fields: usize,
    starts: usize,
    fetches: bool,
    classes: usize,
}

fn read_text(alloc: Global, text: &[u8]) -> Answer {
    if text.len() > 1_048_576 {
        return Answer::NoTokens;
    }
    tokens_lie_within();
    let tokens = match scan(alloc, text) {
        Ok(tokens) => tokens,
        Err(_) => return Answer::NoTokens,
    };
    match parse_table(alloc, text, tokens.as_slice()) {
        Ok(table) => Answer::Table {
            rows: counted(&table),
        },
        Err(ParseError::Syntax { at }) => Answer::Syntax { at },
        Err(ParseError::Long { at }) => Answer::Long { at },
        Err(ParseError::Memory) => Answer::Memory,
    }
}

fn counted(table: &PlacedTable) -> Rows {
    Rows {
        roles: table.roles.items().len(),
        states: table.states.items().len(),
        fields: table.fields.items().len(),
        starts: table.starts.items().len(),
        fetches: table.start_fetch.is_some(),
        classes: table.classes.items().len(),
    }
}

fn stops(rt: &impl Abort, alloc: Global, text: &[u8], at: u32) {
    assert_eq!(rt; read_text(alloc, text), Answer::Syntax { at });
}

#[test]
fn a_table_without_rows(rt: HostRuntime) {
    let text: &[u8] = b"TABLE T FOR M; ROLES STATE INVARIANT 1; BOUNDARY 1; START END T.";
    let rows = Rows {
        roles: 0,
        states: 0,
        fields: 0,
        starts: 0,
        fetches: false,
        classes: 0,
    };
    assert_eq!(rt; read_text(rt.alloc(), text), Answer::Table { rows });
}

#[test]
fn the_toggler(rt: HostRuntime) {
    let text: &[u8] =
        b"TABLE T FOR M; ROLES RESET rst = 1; STATE q: BIT IS @q; INVARIANT 1; BOUNDARY 1; START CLASS c \"-\" PHASE; PHASE; SET q := ~q; END T.";
    let rows = Rows {
        roles: 1,
        states: 1,
        fields: 0,
        starts: 0,
        fetches: false,
        classes: 1,
    };
    assert_eq!(rt; read_text(rt.alloc(), text), Answer::Table { rows });
}

#[test]
fn every_section(rt: HostRuntime) {
    let text: &[u8] =
        b"TABLE Big FOR M; ROLES RESET rst = 0; CODE @I; FETCHED code; STATE a: [8] BIT IS @A; m: [4] BYTE IS @m; FIELDS low IS i[1:0]; high IS i.7; INVARIANT @A # 8'0; BOUNDARY @p = 0; START a := 8'0; FETCH 24'1; OUTSIDE halt \"1111 1111\"; CLASS move \"0--- ----\" LET to IS low; LET of IS to; PHASE FETCH i; SET m[to] := a; SET a := 8'1; CLASS step \"10------\" PHASE LOAD a BYTE 1 SHOWS a := d0, a := 8'1 LINK @p; PHASE TURNS 3 OF [8] BIT FROM a STEP t1 + 8'1; PHASE STORE a DATA a; END Wrong.";
    let rows = Rows {
        roles: 3,
        states: 2,
        fields: 2,
        starts: 1,
        fetches: true,
        classes: 3,
    };
    assert_eq!(rt; read_text(rt.alloc(), text), Answer::Table { rows });
}

#[test]
fn the_heading(rt: HostRuntime) {
    let alloc = rt.alloc();
    stops(&rt, alloc, b"TABLE T FOR M; STATE", 15);
    stops(&rt, alloc, b"TABLE T FOR M; ROLES RESET rst = x;", 33);
    stops(&rt, alloc, b"TABLE FOR M;", 6);
    stops(&rt, alloc, b"TABLE STATE FOR M;", 6);
    stops(&rt, alloc, b"TABLE T FOR ;", 12);
    stops(
        &rt,
        alloc,
        b"TABLE T FOR M; ROLES RESET r = 1; INVARIANT 1;",
        34,
    );
    stops(&rt, alloc, b"TABLE T FOR M; ROLES FIELDS", 21);
}

#[test]
fn the_sections(rt: HostRuntime) {
    let alloc = rt.alloc();
    stops(&rt, alloc, b"TABLE T FOR M; ROLES STATE FIELDS FIELDS", 34);
    stops(&rt, alloc, b"TABLE T FOR M; ROLES STATE BOUNDARY 1;", 27);
    stops(
        &rt,
        alloc,
        b"TABLE T FOR M; ROLES STATE INVARIANT 1; START",
        40,
    );
    stops(
        &rt,
        alloc,
        b"TABLE T FOR M; ROLES STATE INVARIANT 1; BOUNDARY 1; START a[1] := 1;",
        59,
    );
    stops(
        &rt,
        alloc,
        b"TABLE T FOR M; ROLES STATE INVARIANT 1; BOUNDARY 1; START FETCH 1; FETCH 1;",
        67,
    );
    stops(
        &rt,
        alloc,
        b"TABLE T FOR M; ROLES STATE INVARIANT 1; BOUNDARY 1; START FETCH 1; a := 1;",
        67,
    );
}

#[test]
fn the_classes(rt: HostRuntime) {
    let alloc = rt.alloc();
    stops(
        &rt,
        alloc,
        b"TABLE T FOR M; ROLES STATE INVARIANT 1; BOUNDARY 1; START OUTSIDE c ;",
        68,
    );
    stops(
        &rt,
        alloc,
        b"TABLE T FOR M; ROLES STATE INVARIANT 1; BOUNDARY 1; START CLASS \"-\" c PHASE;",
        64,
    );
    stops(
        &rt,
        alloc,
        b"TABLE T FOR M; ROLES STATE INVARIANT 1; BOUNDARY 1; START OUTSIDE c \"-\" PHASE;",
        72,
    );
    stops(
        &rt,
        alloc,
        b"TABLE T FOR M; ROLES STATE INVARIANT 1; BOUNDARY 1; START CLASS c \"-\" SET q := 1;",
        70,
    );
    stops(
        &rt,
        alloc,
        b"TABLE T FOR M; ROLES STATE INVARIANT 1; BOUNDARY 1; START CLASS c \"-\" LET a IS 1; CLASS d",
        82,
    );
    stops(
        &rt,
        alloc,
        b"TABLE T FOR M; ROLES STATE INVARIANT 1; BOUNDARY 1; START CLASS c \"-\" PHASE; LET a IS 1;",
        77,
    );
    stops(
        &rt,
        alloc,
        b"TABLE T FOR M; ROLES STATE INVARIANT 1; BOUNDARY 1; START CLASS c \"-\" PHASE; SET q := 1; PHASE;",
        89,
    );
    stops(
        &rt,
        alloc,
        b"TABLE T FOR M; ROLES STATE INVARIANT 1; BOUNDARY 1; START CLASS c \"-\" PHASE LOAD BYTE 1;",
        81,
    );
    stops(
        &rt,
        alloc,
        b"TABLE T FOR M; ROLES STATE INVARIANT 1; BOUNDARY 1; START ACCESS",
        58,
    );
}

#[test]
fn the_end(rt: HostRuntime) {
    let alloc = rt.alloc();
    stops(
        &rt,
        alloc,
        b"TABLE T FOR M; ROLES STATE INVARIANT 1; BOUNDARY 1; START END MODULE.",
        62,
    );
    stops(
        &rt,
        alloc,
        b"TABLE T FOR M; ROLES STATE INVARIANT 1; BOUNDARY 1; START END T;",
        63,
    );
    stops(
        &rt,
        alloc,
        b"TABLE T FOR M; ROLES STATE INVARIANT 1; BOUNDARY 1; START END T. x",
        65,
    );
    stops(
        &rt,
        alloc,
        b"TABLE T FOR M; ROLES STATE INVARIANT 1; BOUNDARY 1; START END T..",
        64,
    );
    stops(&rt, alloc, b"MODULE M", 0);
    stops(&rt, alloc, b"", 0);
    stops(&rt, alloc, b"  ", 2);
    stops(&rt, alloc, b"TABLE T", 7);
    stops(
        &rt,
        alloc,
        b"TABLE T FOR M; ROLES STATE INVARIANT 1; BOUNDARY 1; START END T ",
        64,
    );
}

// A text whose invariant begins at byte 37 with so many signs.
fn with_signs(alloc: Global, signs: usize) -> Answer {
    let mut text = Vec::new(alloc);
    if text
        .extend_from_slice(b"TABLE T FOR M; ROLES STATE INVARIANT ")
        .is_err()
    {
        return Answer::Memory;
    }
    for _ in 0..signs {
        if text.push(b'~').is_err() {
            return Answer::Memory;
        }
    }
    if text
        .extend_from_slice(b"1; BOUNDARY 1; START END T.")
        .is_err()
    {
        return Answer::Memory;
    }
    read_text(alloc, text.as_slice())
}

#[test]
fn an_invariant_of_512_tokens_is_read_and_the_513th_is_too_many(rt: HostRuntime) {
    let alloc = rt.alloc();
    let rows = Rows {
        roles: 0,
        states: 0,
        fields: 0,
        starts: 0,
        fetches: false,
        classes: 0,
    };
    assert_eq!(rt; with_signs(alloc, 511), Answer::Table { rows });
    assert_eq!(rt; with_signs(alloc, 512), Answer::Long { at: 549 });
    assert_eq!(rt; with_signs(alloc, 600), Answer::Long { at: 549 });
}

#[test]
fn a_pattern_has_its_places_without_blanks(rt: HostRuntime) {
    let alloc = rt.alloc();
    let text: &[u8] =
        b"TABLE T FOR M; ROLES STATE INVARIANT 1; BOUNDARY 1; START OUTSIDE c \" 0 -1\"; END T.";
    tokens_lie_within();
    match scan(alloc, text) {
        Ok(tokens) => match parse_table(alloc, text, tokens.as_slice()) {
            Ok(table) => match table.classes.items() {
                [class] => {
                    assert_eq!(rt; class.name.at, 66);
                    assert_eq!(rt; class.pattern_at, 68);
                    assert_eq!(rt; class.pattern.items() == b"0-1".as_slice(), true);
                    assert_eq!(rt; class.inside.is_none(), true);
                    assert_eq!(rt; table.ends.at, 81);
                }
                _ => rt.abort(),
            },
            Err(_) => rt.abort(),
        },
        Err(_) => rt.abort(),
    }
}
