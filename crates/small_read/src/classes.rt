ghost use Rattle.std.specs.Prelude.{◌≡◌, ◌<◌, ◌≤◌, ℕ, Bool, true, false, List, [], ◌++◌, map, filter, codes, None, length, drop, IfOk};
ghost use Rattle.lola_tree.specs.Tree.{Tree, tree, number};
ghost use Rattle.lola_parse.specs.Symbols.{Item};
ghost use Rattle.small_tree.specs.Table.{PhaseTree, phase_tree, SetTree, set_tree, ClassTree, class_tree};
ghost use Rattle.small_read.specs.Grammar.{is_place, Patterned, Loads, Linked, OnePhase, MoreSets, OneClass, MoreClasses};
ghost use Rattle.small_read.specs.Read.{IsRead, Lacks, LacksRow, LacksClass, Phases};

use crate::fault::TableFault;
use crate::rows::{Read, behind_word, is_at, past_word, take_ended, take_name, take_set};
use lola_bits::Seq;
use lola_parse::{Cursor, Symbol};
use lola_tree::Expr;
use small_tree::{Class, Phase, SetRow};
use std::alloc::Global;

/// `{class}`.
pub fn take_classes<'a>(alloc: Global, here: Cursor<'a>) -> Read<'a, Vec<Class>>
    ensures shorter { IfOk result (λ read. length read.1 ≤ length here.entry) }
    ensures ok { IfOk result (λ read. MoreClasses [] here.entry (map class_tree read.0.items) read.1) }
    ensures whole { (classes : List ClassTree) (rest : List Item) → MoreClasses [] here.entry classes rest → LacksClass rest →
        IsRead (λ v. map class_tree v.items) classes rest result }
{
    let mut classes = Vec::new(alloc);
    let mut behind = here;
    'classes: while is_at(&behind, "CLASS") {
        let (class, rest) = take_class(alloc, behind)?;
        classes.push(class)?;
        behind = rest;
    }
    Ok((classes, behind))
}

/// `"CLASS" name pattern phase {phase} {"SET" set}`.
fn take_class<'a>(alloc: Global, here: Cursor<'a>) -> Read<'a, Class>
    ensures shorter { IfOk result (λ read. length read.1 < length here.entry) }
    ensures ok { IfOk result (λ read. OneClass here.entry (class_tree read.0) read.1) }
    ensures whole { (class : ClassTree) (rest : List Item) → OneClass here.entry class rest → LacksRow rest → IsRead class_tree class rest result }
{
    let (name, behind) = take_name(alloc, behind_word(here, "CLASS")?)?;
    let (pattern, behind) = take_pattern(alloc, behind)?;
    let (phases, behind) = take_phases(alloc, behind)?;
    let (sets, behind) = take_sets(alloc, behind)?;
    let class = Class {
        name,
        pattern: Seq::of(pattern),
        phases: Seq::of(phases),
        sets: Seq::of(sets),
    };
    Ok((class, behind))
}

/// A pattern: its places, as bytes.
fn take_pattern<'a>(alloc: Global, here: Cursor<'a>) -> Read<'a, Vec<u8>>
    ensures shorter { IfOk result (λ read. length read.1 < length here.entry) }
    ensures ok { IfOk result (λ read. Patterned read.0.items here.entry read.1) }
    ensures whole { (pattern : List ℕ) (rest : List Item) → Patterned pattern here.entry rest → IsRead (λ v. v.items) pattern rest result }
{
    let next = here.next();
    match next.symbol {
        Symbol::Pattern => match places(alloc, next.spelled.as_bytes()) {
            Ok(pattern) => Ok((pattern, next.rest)),
            Err(_) => Err(TableFault::Memory),
        },
        _ => Err(TableFault::NotBuilt),
    }
}

/// The places of a pattern. Neither its quotes nor blanks count.
fn places(alloc: Global, spelled: &[u8]) -> Result<Vec<u8>, TableFault>
    ensures { IfOk result (λ v. v.items ≡ filter is_place spelled.now) }
{
    let mut places = Vec::new(alloc);
    for byte in spelled {
        if is_place(*byte) {
            places.push(*byte)?;
        }
    }
    Ok(places)
}

/// Whether a byte is a place of a pattern.
fn is_place(byte: u8) -> bool
    ensures { result ≡ is_place byte }
{
    match byte {
        b'-' | b'0' | b'1' => true,
        _ => false,
    }
}

/// `phase {phase}`.
fn take_phases<'a>(alloc: Global, here: Cursor<'a>) -> Read<'a, Vec<Phase>>
    ensures shorter { IfOk result (λ read. length read.1 < length here.entry) }
    ensures ok { IfOk result (λ read. Phases here.entry (map phase_tree read.0.items) read.1) }
    ensures whole { (phases : List PhaseTree) (rest : List Item) → Phases here.entry phases rest → Lacks (codes "PHASE") rest →
        IsRead (λ v. map phase_tree v.items) phases rest result }
{
    let (first, mut behind) = take_phase(alloc, here)?;
    let mut phases = Vec::new(alloc);
    phases.push(first)?;
    'phases: while is_at(&behind, "PHASE") {
        let (phase, rest) = take_phase(alloc, behind)?;
        phases.push(phase)?;
        behind = rest;
    }
    Ok((phases, behind))
}

/// `"PHASE" ["LOAD"] ["LINK" expr] ";"`.
fn take_phase<'a>(alloc: Global, here: Cursor<'a>) -> Read<'a, Phase>
    ensures shorter { IfOk result (λ read. length read.1 < length here.entry) }
    ensures ok { IfOk result (λ read. OnePhase here.entry (phase_tree read.0) read.1) }
    ensures whole { (phase : PhaseTree) (rest : List Item) → OnePhase here.entry phase rest → IsRead phase_tree phase rest result }
{
    let (loads, behind) = take_loads(behind_word(here, "PHASE")?);
    let (link, behind) = take_link(alloc, behind)?;
    Ok((Phase { loads, link }, behind))
}

/// `["LOAD"]`.
fn take_loads<'a>(here: Cursor<'a>) -> (bool, Cursor<'a>)
    ensures shorter { length result.1 ≤ length here.entry }
    ensures ok { Loads here.entry result.0 result.1 }
    ensures whole { (loads : Bool) (rest : List Item) → Loads here.entry loads rest → Lacks (codes "LOAD") rest → (result.0 ≡ loads) × (result.1 ≡ rest) }
{
    match past_word(&here, "LOAD") {
        Some(behind) => (true, behind),
        None => (false, here),
    }
}

/// `["LINK" expr] ";"`. A LINK that isn't written is the number 1.
fn take_link<'a>(alloc: Global, here: Cursor<'a>) -> Read<'a, Expr>
    ensures shorter { IfOk result (λ read. length read.1 < length here.entry) }
    ensures ok { IfOk result (λ read. Linked here.entry (tree read.0) read.1) }
    ensures whole { (link : Tree) (rest : List Item) → Linked here.entry link rest → IsRead tree link rest result }
{
    match past_word(&here, "LINK") {
        Some(behind) => take_ended(alloc, behind),
        None => {
            let behind = here.behind_semicolon()?;
            Ok((unwritten_link(), behind))
        }
    }
}

/// The number 1, which a LINK that isn't written is.
fn unwritten_link() -> Expr
    ensures { tree result ≡ number 1 None 0 }
{
    Expr::Number {
        value: 1,
        width: None,
        at: 0,
    }
}

/// `{"SET" name ":=" expr ";"}`.
fn take_sets<'a>(alloc: Global, here: Cursor<'a>) -> Read<'a, Vec<SetRow>>
    ensures shorter { IfOk result (λ read. length read.1 ≤ length here.entry) }
    ensures ok { IfOk result (λ read. MoreSets [] here.entry (map set_tree read.0.items) read.1) }
    ensures whole { (rows : List SetTree) (rest : List Item) → MoreSets [] here.entry rows rest → Lacks (codes "SET") rest →
        IsRead (λ v. map set_tree v.items) rows rest result }
{
    let mut rows = Vec::new(alloc);
    let mut behind = here;
    'rows: loop {
        match past_word(&behind, "SET") {
            Some(first) => {
                let (row, rest) = take_set(alloc, first)?;
                rows.push(row)?;
                behind = rest;
            }
            None => return Ok((rows, behind)),
        }
    }
}
