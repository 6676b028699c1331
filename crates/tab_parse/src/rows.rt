ghost use Rattle.std.specs.Prelude.{◌≡◌, ◌<◌, ◌≤◌, List, [], map, length, IfOk};
ghost use Rattle.lola_parse.specs.Read.{IsWhole, Anywhere};
ghost use Rattle.tab_parse.specs.Placed.{state_at, let_at, set_at};
ghost use Rattle.tab_parse.specs.Grammar.{More, StateRow, LetRow, StartRow};
ghost use Rattle.tab_parse.specs.Fronts.{at_name, NotAt};

use crate::front::{Read, behind_word, is_at_name, take_assign, take_ended, take_name};
use crate::placed::{PlacedLet, PlacedSet, PlacedState};
use lola_parse::{Cursor, shape};
use std::alloc::Global;

/// The STATE rows at the front: `{state}`. The rows end at the first token that is no name. A fault
/// other than Memory comes only where no such rows stand there.
pub fn take_states<'a>(alloc: Global, here: Cursor<'a>) -> Read<'a, Vec<PlacedState>>
    ensures shorter { IfOk result (λ read. length read.1 ≤ length here.entry) }
    ensures ok { IfOk result (λ read. More StateRow [] here.entry (map state_at read.0.items) read.1) }
    ensures whole { IsWhole (λ v. map state_at v.items) (More StateRow [] here.entry) (NotAt at_name) result }
{
    let mut rows = Vec::new(alloc);
    let mut behind = here;
    'rows: while is_at_name(&behind) {
        let (row, rest) = take_state(alloc, behind)?;
        rows.push(row)?;
        behind = rest;
    }
    Ok((rows, behind))
}

/// The rows behind FIELDS: `{name "IS" expr ";"}`, as `take_states`.
pub fn take_fields<'a>(alloc: Global, here: Cursor<'a>) -> Read<'a, Vec<PlacedLet>>
    ensures shorter { IfOk result (λ read. length read.1 ≤ length here.entry) }
    ensures ok { IfOk result (λ read. More LetRow [] here.entry (map let_at read.0.items) read.1) }
    ensures whole { IsWhole (λ v. map let_at v.items) (More LetRow [] here.entry) (NotAt at_name) result }
{
    let mut rows = Vec::new(alloc);
    let mut behind = here;
    'rows: while is_at_name(&behind) {
        let (row, rest) = take_let(alloc, behind)?;
        rows.push(row)?;
        behind = rest;
    }
    Ok((rows, behind))
}

/// The rows behind START: `{name ":=" expr ";"}`, as `take_states`.
pub fn take_starts<'a>(alloc: Global, here: Cursor<'a>) -> Read<'a, Vec<PlacedSet>>
    ensures shorter { IfOk result (λ read. length read.1 ≤ length here.entry) }
    ensures ok { IfOk result (λ read. More StartRow [] here.entry (map set_at read.0.items) read.1) }
    ensures whole { IsWhole (λ v. map set_at v.items) (More StartRow [] here.entry) (NotAt at_name) result }
{
    let mut rows = Vec::new(alloc);
    let mut behind = here;
    'rows: while is_at_name(&behind) {
        let (row, rest) = take_start(alloc, behind)?;
        rows.push(row)?;
        behind = rest;
    }
    Ok((rows, behind))
}

/// `name ":" type "IS" expr ";"`.
fn take_state<'a>(alloc: Global, here: Cursor<'a>) -> Read<'a, PlacedState>
    ensures shorter { IfOk result (λ read. length read.1 < length here.entry) }
    ensures ok { IfOk result (λ read. StateRow here.entry (state_at read.0) read.1) }
    ensures whole { IsWhole state_at (StateRow here.entry) Anywhere result }
{
    let (name, behind) = take_name(alloc, here)?;
    let (shape, behind) = shape(alloc, behind.behind_colon()?)?;
    let (shown, behind) = take_ended(alloc, behind_word(behind, "IS")?)?;
    Ok((PlacedState { name, shape, shown }, behind))
}

/// `name "IS" expr ";"`.
pub fn take_let<'a>(alloc: Global, here: Cursor<'a>) -> Read<'a, PlacedLet>
    ensures shorter { IfOk result (λ read. length read.1 < length here.entry) }
    ensures ok { IfOk result (λ read. LetRow here.entry (let_at read.0) read.1) }
    ensures whole { IsWhole let_at (LetRow here.entry) Anywhere result }
{
    let (name, behind) = take_name(alloc, here)?;
    let (value, behind) = take_ended(alloc, behind_word(behind, "IS")?)?;
    Ok((PlacedLet { name, value }, behind))
}

/// `name ":=" expr ";"`.
fn take_start<'a>(alloc: Global, here: Cursor<'a>) -> Read<'a, PlacedSet>
    ensures shorter { IfOk result (λ read. length read.1 < length here.entry) }
    ensures ok { IfOk result (λ read. StartRow here.entry (set_at read.0) read.1) }
    ensures whole { IsWhole set_at (StartRow here.entry) Anywhere result }
{
    let (name, behind) = take_name(alloc, here)?;
    let (equals, behind) = take_assign(behind)?;
    let (value, behind) = take_ended(alloc, behind)?;
    Ok((
        PlacedSet {
            name,
            place: None,
            equals,
            value,
        },
        behind,
    ))
}
