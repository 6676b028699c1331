ghost use Rattle.std.specs.Prelude.{◌≡◌, ◌<◌, ◌≤◌, List, true, false, map, length, IfOk, codes};
ghost use Rattle.lola_tree.specs.Tree.{place_tree};
ghost use Rattle.lola_parse.specs.Grammar.{Passes};
ghost use Rattle.lola_parse.specs.Read.{IsWhole, Anywhere, Stops};
ghost use Rattle.tab_parse.specs.Placed.{turns_at, some_turns_at, access_at, phase_at};
ghost use Rattle.tab_parse.specs.Grammar.{Keyword, MaybeExpr, TurnsBehind, MaybeTurns, LoadRead, StoreBehind, Access, PhaseRow, PhaseList};
ghost use Rattle.tab_parse.specs.Fronts.{NotAt, at_word, EndsTurns, EndsAccess, EndsByte, EndsLink, EndedAccess};

use crate::front::{Read, behind_word, is_at, past_word, take_expr, take_number};
use crate::placed::{PlacedAccess, PlacedPhase, PlacedTurns};
use crate::sets::take_shows;
use lola_bits::Seq;
use lola_parse::{Cursor, Symbol, shape};
use lola_tree::Actual;
use std::alloc::Global;

/// The phases at the front: `phase {phase}`.
pub fn take_phases<'a>(alloc: Global, here: Cursor<'a>) -> Read<'a, Vec<PlacedPhase>>
    ensures shorter { IfOk result (λ read. length read.1 < length here.entry) }
    ensures ok { IfOk result (λ read. PhaseList here.entry (map phase_at read.0.items) read.1) }
    ensures whole { IsWhole (λ v. map phase_at v.items) (PhaseList here.entry) (NotAt (at_word (codes "PHASE"))) result }
{
    let (first, mut behind) = take_phase(alloc, here)?;
    let mut rows = Vec::new(alloc);
    rows.push(first)?;
    'rows: while is_at(&behind, "PHASE") {
        let (row, rest) = take_phase(alloc, behind)?;
        rows.push(row)?;
        behind = rest;
    }
    Ok((rows, behind))
}

/// `"PHASE" ["TURNS" ..] [access] ["SHOWS" set {"," set}] ["LINK" expr] ";"`.
fn take_phase<'a>(alloc: Global, here: Cursor<'a>) -> Read<'a, PlacedPhase>
    ensures shorter { IfOk result (λ read. length read.1 < length here.entry) }
    ensures ok { IfOk result (λ read. PhaseRow here.entry (phase_at read.0) read.1) }
    ensures whole { IsWhole phase_at (PhaseRow here.entry) Anywhere result }
{
    let behind = behind_word(here, "PHASE")?;
    let (turns, behind) = take_turns(alloc, behind)?;
    let (access, behind) = take_access(alloc, behind)?;
    let (shows, behind) = take_shows(alloc, behind)?;
    let (link, behind) = take_link(alloc, behind)?;
    let behind = behind.behind_semicolon()?;
    Ok((
        PlacedPhase {
            turns,
            access,
            shows: Seq::of(shows),
            link,
        },
        behind,
    ))
}

/// `["TURNS" number "OF" type "FROM" expr "STEP" expr]`.
fn take_turns<'a>(alloc: Global, here: Cursor<'a>) -> Read<'a, Option<PlacedTurns>>
    ensures shorter { IfOk result (λ read. length read.1 ≤ length here.entry) }
    ensures ok { IfOk result (λ read. MaybeTurns here.entry (some_turns_at read.0) read.1) }
    ensures whole { IsWhole some_turns_at (MaybeTurns here.entry) EndsTurns result }
{
    match past_word(&here, "TURNS") {
        Some(first) => {
            let (turns, behind) = take_turns_behind(alloc, first)?;
            Ok((Some(turns), behind))
        }
        None => Ok((None, here)),
    }
}

/// `number "OF" type "FROM" expr "STEP" expr`, behind TURNS.
fn take_turns_behind<'a>(alloc: Global, here: Cursor<'a>) -> Read<'a, PlacedTurns>
    ensures shorter { IfOk result (λ read. length read.1 < length here.entry) }
    ensures ok { IfOk result (λ read. TurnsBehind here.entry (turns_at read.0) read.1) }
    ensures whole { IsWhole turns_at (TurnsBehind here.entry) Stops result }
{
    let (times, behind) = take_number(here)?;
    let behind = behind_word(behind, "OF")?;
    let shape_at = behind.at();
    let (shape, behind) = shape(alloc, behind)?;
    let (first, behind) = take_expr(alloc, behind_word(behind, "FROM")?)?;
    let (step, behind) = take_expr(alloc, behind_word(behind, "STEP")?)?;
    Ok((
        PlacedTurns {
            times,
            shape,
            shape_at,
            first,
            step,
        },
        behind,
    ))
}

/// `"LOAD" [expr ["BYTE" expr]] | "STORE" expr ["BYTE" expr] "DATA" expr | "FETCH" expr`, or nothing.
fn take_access<'a>(alloc: Global, here: Cursor<'a>) -> Read<'a, PlacedAccess>
    ensures shorter { IfOk result (λ read. length read.1 ≤ length here.entry) }
    ensures ok { IfOk result (λ read. Access here.entry (access_at read.0) read.1) }
    ensures whole { IsWhole access_at (Access here.entry) EndsAccess result }
{
    match past_word(&here, "LOAD") {
        Some(first) => take_load(alloc, first),
        None => take_stored(alloc, here),
    }
}

/// `"STORE" expr ["BYTE" expr] "DATA" expr | "FETCH" expr`, or nothing.
fn take_stored<'a>(alloc: Global, here: Cursor<'a>) -> Read<'a, PlacedAccess>
    requires no_load { at_word (codes "LOAD") here ≡ false }
    ensures shorter { IfOk result (λ read. length read.1 ≤ length here.entry) }
    ensures ok { IfOk result (λ read. Access here.entry (access_at read.0) read.1) }
    ensures whole { IsWhole access_at (Access here.entry) EndsAccess result }
{
    match past_word(&here, "STORE") {
        Some(first) => take_store(alloc, first),
        None => take_fetch(alloc, here),
    }
}

/// `"FETCH" expr`, or nothing.
fn take_fetch<'a>(alloc: Global, here: Cursor<'a>) -> Read<'a, PlacedAccess>
    requires no_load { at_word (codes "LOAD") here ≡ false }
    requires no_store { at_word (codes "STORE") here ≡ false }
    ensures shorter { IfOk result (λ read. length read.1 ≤ length here.entry) }
    ensures ok { IfOk result (λ read. Access here.entry (access_at read.0) read.1) }
    ensures whole { IsWhole access_at (Access here.entry) EndsAccess result }
{
    match past_word(&here, "FETCH") {
        Some(first) => {
            let (adr, behind) = take_expr(alloc, first)?;
            Ok((PlacedAccess::Fetch { adr }, behind))
        }
        None => Ok((PlacedAccess::Idle, here)),
    }
}

/// `[expr ["BYTE" expr]]`, behind LOAD. Without an address a word of tables or `;` stands there.
fn take_load<'a>(alloc: Global, here: Cursor<'a>) -> Read<'a, PlacedAccess>
    ensures shorter { IfOk result (λ read. length read.1 ≤ length here.entry) }
    ensures ok { IfOk result (λ read. LoadRead here.entry (access_at read.0) read.1) }
    ensures whole { IsWhole access_at (LoadRead here.entry) EndsAccess result }
{
    if is_access_ended(&here) {
        return Ok((PlacedAccess::Take, here));
    }
    let (adr, behind) = take_expr(alloc, here)?;
    let (byte, behind) = take_byte(alloc, behind)?;
    Ok((PlacedAccess::Load { adr, byte }, behind))
}

/// `expr ["BYTE" expr] "DATA" expr`, behind STORE.
fn take_store<'a>(alloc: Global, here: Cursor<'a>) -> Read<'a, PlacedAccess>
    ensures shorter { IfOk result (λ read. length read.1 < length here.entry) }
    ensures ok { IfOk result (λ read. StoreBehind here.entry (access_at read.0) read.1) }
    ensures whole { IsWhole access_at (StoreBehind here.entry) Stops result }
{
    let (adr, behind) = take_expr(alloc, here)?;
    let (byte, behind) = take_byte(alloc, behind)?;
    let behind = behind_word(behind, "DATA")?;
    let (word, behind) = take_expr(alloc, behind)?;
    Ok((PlacedAccess::Store { adr, byte, word }, behind))
}

/// Whether a word of tables or `;` is at the front.
fn is_access_ended(here: &Cursor) -> bool
    ensures yes { result ≡ true → EndedAccess here.now }
    ensures no { result ≡ false → EndedAccess here.now → ⊥ }
{
    match here.next().symbol {
        Symbol::TableWord => true,
        Symbol::Semicolon => true,
        _ => false,
    }
}

/// `["BYTE" expr]`.
fn take_byte<'a>(alloc: Global, here: Cursor<'a>) -> Read<'a, Option<Actual>>
    ensures shorter { IfOk result (λ read. length read.1 ≤ length here.entry) }
    ensures ok { IfOk result (λ read. MaybeExpr (Passes Symbol.Byte) here.entry (place_tree read.0) read.1) }
    ensures whole { IsWhole place_tree (MaybeExpr (Passes Symbol.Byte) here.entry) EndsByte result }
{
    let next = here.next();
    match next.symbol {
        Symbol::Byte => {
            let (expr, behind) = take_expr(alloc, next.rest)?;
            Ok((Some(expr), behind))
        }
        _ => Ok((None, here)),
    }
}

/// `["LINK" expr]`.
fn take_link<'a>(alloc: Global, here: Cursor<'a>) -> Read<'a, Option<Actual>>
    ensures shorter { IfOk result (λ read. length read.1 ≤ length here.entry) }
    ensures ok { IfOk result (λ read. MaybeExpr (Keyword (codes "LINK")) here.entry (place_tree read.0) read.1) }
    ensures whole { IsWhole place_tree (MaybeExpr (Keyword (codes "LINK")) here.entry) EndsLink result }
{
    match past_word(&here, "LINK") {
        Some(first) => {
            let (expr, behind) = take_expr(alloc, first)?;
            Ok((Some(expr), behind))
        }
        None => Ok((None, here)),
    }
}
