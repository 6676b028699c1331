ghost use Rattle.std.specs.Prelude.{◌≡◌, ◌<◌, ◌≤◌, List, [], ◌∷◌, map, length, IfOk, codes};
ghost use Rattle.lola_tree.specs.Tree.{place_tree};
ghost use Rattle.lola_parse.specs.Read.{IsWhole, Anywhere, Stops};
ghost use Rattle.tab_parse.specs.Placed.{let_at, set_at};
ghost use Rattle.tab_parse.specs.Grammar.{More, LetLine, Placing, SetPart, SetLine, SetList, Shows, NextSet};
ghost use Rattle.tab_parse.specs.Fronts.{at_word, at_bracket, NotAt, EndsList, EndsShows, at_comma};

use crate::front::{Read, behind_word, is_at, past_word, take_assign, take_expr, take_name};
use crate::placed::{PlacedLet, PlacedSet};
use crate::rows::take_let;
use lola_parse::{Cursor, Symbol};
use lola_tree::Actual;
use std::alloc::Global;

/// The LET rows at the front: `{"LET" name "IS" expr ";"}`.
pub fn take_lets<'a>(alloc: Global, here: Cursor<'a>) -> Read<'a, Vec<PlacedLet>>
    ensures shorter { IfOk result (λ read. length read.1 ≤ length here.entry) }
    ensures ok { IfOk result (λ read. More LetLine [] here.entry (map let_at read.0.items) read.1) }
    ensures whole { IsWhole (λ v. map let_at v.items) (More LetLine [] here.entry) (NotAt (at_word (codes "LET"))) result }
{
    let mut rows = Vec::new(alloc);
    let mut behind = here;
    'rows: while is_at(&behind, "LET") {
        let (row, rest) = take_let_line(alloc, behind)?;
        rows.push(row)?;
        behind = rest;
    }
    Ok((rows, behind))
}

/// The SET rows at the front: `{"SET" set ";"}`.
pub fn take_sets<'a>(alloc: Global, here: Cursor<'a>) -> Read<'a, Vec<PlacedSet>>
    ensures shorter { IfOk result (λ read. length read.1 ≤ length here.entry) }
    ensures ok { IfOk result (λ read. More SetLine [] here.entry (map set_at read.0.items) read.1) }
    ensures whole { IsWhole (λ v. map set_at v.items) (More SetLine [] here.entry) (NotAt (at_word (codes "SET"))) result }
{
    let mut rows = Vec::new(alloc);
    let mut behind = here;
    'rows: while is_at(&behind, "SET") {
        let (row, rest) = take_set_line(alloc, behind)?;
        rows.push(row)?;
        behind = rest;
    }
    Ok((rows, behind))
}

/// `"LET" name "IS" expr ";"`.
fn take_let_line<'a>(alloc: Global, here: Cursor<'a>) -> Read<'a, PlacedLet>
    ensures shorter { IfOk result (λ read. length read.1 < length here.entry) }
    ensures ok { IfOk result (λ read. LetLine here.entry (let_at read.0) read.1) }
    ensures whole { IsWhole let_at (LetLine here.entry) Anywhere result }
{
    let behind = behind_word(here, "LET")?;
    let (row, behind) = take_let(alloc, behind)?;
    Ok((row, behind))
}

/// `"SET" set ";"`.
fn take_set_line<'a>(alloc: Global, here: Cursor<'a>) -> Read<'a, PlacedSet>
    ensures shorter { IfOk result (λ read. length read.1 < length here.entry) }
    ensures ok { IfOk result (λ read. SetLine here.entry (set_at read.0) read.1) }
    ensures whole { IsWhole set_at (SetLine here.entry) Anywhere result }
{
    let behind = behind_word(here, "SET")?;
    let (row, behind) = take_set(alloc, behind)?;
    Ok((row, behind.behind_semicolon()?))
}

/// `name ":=" expr` or `name "[" expr "]" ":=" expr`.
fn take_set<'a>(alloc: Global, here: Cursor<'a>) -> Read<'a, PlacedSet>
    ensures shorter { IfOk result (λ read. length read.1 < length here.entry) }
    ensures ok { IfOk result (λ read. SetPart here.entry (set_at read.0) read.1) }
    ensures whole { IsWhole set_at (SetPart here.entry) Stops result }
{
    let (name, behind) = take_name(alloc, here)?;
    let (place, behind) = take_place(alloc, behind)?;
    let (equals, behind) = take_assign(behind)?;
    let (value, behind) = take_expr(alloc, behind)?;
    Ok((
        PlacedSet {
            name,
            place,
            equals,
            value,
        },
        behind,
    ))
}

/// `["[" expr "]"]`.
fn take_place<'a>(alloc: Global, here: Cursor<'a>) -> Read<'a, Option<Actual>>
    ensures shorter { IfOk result (λ read. length read.1 ≤ length here.entry) }
    ensures ok { IfOk result (λ read. Placing here.entry (place_tree read.0) read.1) }
    ensures whole { IsWhole place_tree (Placing here.entry) (NotAt at_bracket) result }
{
    let next = here.next();
    match next.symbol {
        Symbol::OpenBracket => {
            let (expr, behind) = take_expr(alloc, next.rest)?;
            let behind = behind.behind_close_bracket()?;
            let place = Actual {
                value: expr.value,
                at: next.at,
            };
            Ok((Some(place), behind))
        }
        _ => Ok((None, here)),
    }
}

/// The sets of SHOWS, where it is at the front: `["SHOWS" set {"," set}]`.
pub fn take_shows<'a>(alloc: Global, here: Cursor<'a>) -> Read<'a, Vec<PlacedSet>>
    ensures shorter { IfOk result (λ read. length read.1 ≤ length here.entry) }
    ensures ok { IfOk result (λ read. Shows here.entry (map set_at read.0.items) read.1) }
    ensures whole { IsWhole (λ v. map set_at v.items) (Shows here.entry) EndsShows result }
{
    match past_word(&here, "SHOWS") {
        Some(first) => take_list(alloc, first),
        None => Ok((Vec::new(alloc), here)),
    }
}

/// `set {"," set}`.
fn take_list<'a>(alloc: Global, here: Cursor<'a>) -> Read<'a, Vec<PlacedSet>>
    ensures shorter { IfOk result (λ read. length read.1 < length here.entry) }
    ensures ok { IfOk result (λ read. SetList here.entry (map set_at read.0.items) read.1) }
    ensures whole { IsWhole (λ v. map set_at v.items) (SetList here.entry) EndsList result }
{
    let (first, mut behind) = take_set(alloc, here)?;
    let mut rows = Vec::new(alloc);
    rows.push(first)?;
    'rows: while is_at_comma(&behind) {
        let (row, rest) = take_next_set(alloc, behind)?;
        rows.push(row)?;
        behind = rest;
    }
    Ok((rows, behind))
}

/// `"," set`.
fn take_next_set<'a>(alloc: Global, here: Cursor<'a>) -> Read<'a, PlacedSet>
    ensures shorter { IfOk result (λ read. length read.1 < length here.entry) }
    ensures ok { IfOk result (λ read. NextSet here.entry (set_at read.0) read.1) }
    ensures whole { IsWhole set_at (NextSet here.entry) Stops result }
{
    let behind = here.behind_comma()?;
    let (row, behind) = take_set(alloc, behind)?;
    Ok((row, behind))
}

/// Whether a comma is at the front.
fn is_at_comma(here: &Cursor) -> bool
    ensures { result ≡ at_comma here.now }
{
    match here.next().symbol {
        Symbol::Comma => true,
        _ => false,
    }
}
