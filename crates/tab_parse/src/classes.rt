ghost use Rattle.std.specs.Prelude.{◌≡◌, ◌<◌, ◌≤◌, List, [], map, filter, length, IfOk};
ghost use Rattle.lola_parse.specs.Read.{IsWhole, Anywhere};
ghost use Rattle.lola_parse.specs.MayEnd.{Before};
ghost use Rattle.tab_parse.specs.Placed.{inside_at, class_at};
ghost use Rattle.tab_parse.specs.Grammar.{More, is_place, Patterned, Steps, OutsideBehind, InsideBehind, ClassRow};
ghost use Rattle.tab_parse.specs.Fronts.{at_class, EndsClass};

use crate::front::{Read, behind_word, is_at, past_word, take_name};
use crate::phases::take_phases;
use crate::placed::{PlacedClass, PlacedInside};
use crate::sets::{take_lets, take_sets};
use lola_bits::Seq;
use lola_parse::{Cursor, Symbol};
use std::alloc::{AllocFailed, Global};

/// The classes at the front: `{class}`.
pub fn take_classes<'a>(alloc: Global, here: Cursor<'a>) -> Read<'a, Vec<PlacedClass>>
    ensures shorter { IfOk result (λ read. length read.1 ≤ length here.entry) }
    ensures ok { IfOk result (λ read. More ClassRow [] here.entry (map class_at read.0.items) read.1) }
    ensures whole { IsWhole (λ v. map class_at v.items) (More ClassRow [] here.entry) (Before Symbol.End) result }
{
    let mut rows = Vec::new(alloc);
    let mut behind = here;
    'rows: while is_at_class(&behind) {
        let (row, rest) = take_class(alloc, behind)?;
        rows.push(row)?;
        behind = rest;
    }
    Ok((rows, behind))
}

/// Whether the word of a class is at the front.
fn is_at_class(here: &Cursor) -> bool
    ensures { result ≡ at_class here.now }
{
    is_at(here, "CLASS") || is_at(here, "OUTSIDE")
}

/// `"OUTSIDE" name pattern ";"`, or `"CLASS" name pattern` and its steps.
fn take_class<'a>(alloc: Global, here: Cursor<'a>) -> Read<'a, PlacedClass>
    ensures shorter { IfOk result (λ read. length read.1 < length here.entry) }
    ensures ok { IfOk result (λ read. ClassRow here.entry (class_at read.0) read.1) }
    ensures whole { IsWhole class_at (ClassRow here.entry) EndsClass result }
{
    match past_word(&here, "OUTSIDE") {
        Some(first) => take_outside(alloc, first),
        None => take_inside(alloc, behind_word(here, "CLASS")?),
    }
}

/// `name pattern ";"`, behind OUTSIDE.
fn take_outside<'a>(alloc: Global, here: Cursor<'a>) -> Read<'a, PlacedClass>
    ensures shorter { IfOk result (λ read. length read.1 < length here.entry) }
    ensures ok { IfOk result (λ read. OutsideBehind here.entry (class_at read.0) read.1) }
    ensures whole { IsWhole class_at (OutsideBehind here.entry) Anywhere result }
{
    let (name, behind) = take_name(alloc, here)?;
    let (pattern, behind) = take_pattern(alloc, behind)?;
    let behind = behind.behind_semicolon()?;
    Ok((
        PlacedClass {
            name,
            pattern: pattern.places,
            pattern_at: pattern.at,
            inside: None,
        },
        behind,
    ))
}

/// `name pattern {"LET" ..} phase {phase} {"SET" ..}`, behind CLASS.
fn take_inside<'a>(alloc: Global, here: Cursor<'a>) -> Read<'a, PlacedClass>
    ensures shorter { IfOk result (λ read. length read.1 < length here.entry) }
    ensures ok { IfOk result (λ read. InsideBehind here.entry (class_at read.0) read.1) }
    ensures whole { IsWhole class_at (InsideBehind here.entry) EndsClass result }
{
    let (name, behind) = take_name(alloc, here)?;
    let (pattern, behind) = take_pattern(alloc, behind)?;
    let (steps, behind) = take_steps(alloc, behind)?;
    Ok((
        PlacedClass {
            name,
            pattern: pattern.places,
            pattern_at: pattern.at,
            inside: Some(steps),
        },
        behind,
    ))
}

/// `{"LET" ..} phase {phase} {"SET" ..}`.
fn take_steps<'a>(alloc: Global, here: Cursor<'a>) -> Read<'a, PlacedInside>
    ensures shorter { IfOk result (λ read. length read.1 < length here.entry) }
    ensures ok { IfOk result (λ read. Steps here.entry (inside_at read.0) read.1) }
    ensures whole { IsWhole inside_at (Steps here.entry) EndsClass result }
{
    let (lets, behind) = take_lets(alloc, here)?;
    let (phases, behind) = take_phases(alloc, behind)?;
    let (sets, behind) = take_sets(alloc, behind)?;
    Ok((
        PlacedInside {
            lets: Seq::of(lets),
            phases: Seq::of(phases),
            sets: Seq::of(sets),
        },
        behind,
    ))
}

/// The places of a pattern, as bytes, and the place where it begins in the text.
#[derive(Debug, Drop)]
struct Pattern {
    at: u32,
    places: Seq<u8>,
}

/// A pattern.
fn take_pattern<'a>(alloc: Global, here: Cursor<'a>) -> Read<'a, Pattern>
    ensures shorter { IfOk result (λ read. length read.1 < length here.entry) }
    ensures ok { IfOk result (λ read. Patterned here.entry read.0 read.1) }
    ensures whole { IsWhole (λ p. p) (Patterned here.entry) Anywhere result }
{
    let next = here.next();
    match next.symbol {
        Symbol::Pattern => {
            let places = places(alloc, next.spelled.as_bytes())?;
            let pattern = Pattern {
                at: next.at,
                places: Seq::of(places),
            };
            Ok((pattern, next.rest))
        }
        _ => Err(here.fault()),
    }
}

/// The places of a pattern. Neither its quotes nor blanks count.
fn places(alloc: Global, spelled: &[u8]) -> Result<Vec<u8>, AllocFailed<u8>>
    ensures { IfOk result (λ v. v.items ≡ filter is_place spelled.now) }
{
    let mut places = Vec::new(alloc);
    for byte in spelled {
        if is_place(*byte) {
            places.push(*byte)?;
        }
    }
    Ok(places)
}

/// Whether a byte is a place of a pattern.
fn is_place(byte: u8) -> bool
    ensures { result ≡ is_place byte }
{
    match byte {
        b'-' | b'0' | b'1' => true,
        _ => false,
    }
}
