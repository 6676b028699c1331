ghost use Rattle.std.specs.Prelude.{◌≡◌, ◌≢◌, ◌<◌, ◌≤◌, ◌^◌, ℕ, List, [], map, length, drop, codes, IfOk, IfErr, IfSome};
ghost use Rattle.lola_tree.specs.Tree.{place_tree};
ghost use Rattle.lola_parse.specs.Symbols.{Item, AreIn, items_of};
ghost use Rattle.lola_parse.specs.Read.{IsWant, IsWhole, IsMade, Anywhere};
ghost use Rattle.lola_parse.specs.MayEnd.{Before};
ghost use Rattle.lola_parse.specs.Long.{BeginsTooLong, IsTooLong, LongSays};
ghost use Rattle.lola_tree.specs.declared.named.Named.{Named as TheNamed};
ghost use Rattle.tab_parse.specs.Placed.{TableAt, table_at, let_at, heading_at, views_at, effects_at};
ghost use Rattle.tab_parse.specs.Grammar.{Fields, StartFetch, Headed, Viewed, Effected, Ending, SpellsTable};
ghost use Rattle.tab_parse.specs.Fronts.{at_role, at_word, NotAt, EndsFields};

use crate::classes::take_classes;
use crate::front::{Read, behind_word, past_word, take_ended, take_name};
use crate::placed::{PlacedClass, PlacedLet, PlacedRole, PlacedSet, PlacedState, PlacedTable};
use crate::roles::take_roles;
use crate::rows::{take_fields, take_starts, take_states};
use lola_bits::Seq;
use lola_parse::{Cursor, Fault, Language, ParseError, Symbol, parse_table_expr};
use lola_scan::Token;
use lola_tree::{Actual, Named};
use std::alloc::Global;

/// How many tokens an outermost expression may have.
const LIMIT: usize = 512;

/// The table of a text, which all its tokens spell, with the places that its faults need. The tokens
/// are those that `scan` gave for the text. Syntax stands at the first token such that no table begins
/// with the tokens up to it, or at the text's length where it ends too early; Long at the 513th token
/// of one outermost expression, where that would go on with it. Both come only where the tokens spell
/// no table with at most 512 tokens in each outermost expression. Time and memory are linear in the
/// tokens.
pub fn parse_table(alloc: Global, text: &[u8], tokens: &[Token]) -> Result<PlacedTable, ParseError>
    requires short { length text.now < 2 ^ 32 }
    requires lie_within { AreIn text.now tokens.now }
    ensures ok { IfOk result (λ table. SpellsTable (items_of Language.Table text.now tokens.now) (table_at table)) }
    ensures none { IfErr result (λ error. error ≢ ParseError.Memory → (T : TableAt) → SpellsTable (items_of Language.Table text.now tokens.now) T → ⊥) }
    ensures long { IfErr result (LongSays (IsTooLong Language.Table (items_of Language.Table text.now tokens.now))) }
{
    match take_table(alloc, Cursor::new(Language::Table, text, tokens)) {
        Ok(table) => Ok(table),
        Err(fault) => Err(placed(alloc, text, tokens, fault)),
    }
}

/// The answer for a fault, with its place in the text.
fn placed(alloc: Global, text: &[u8], tokens: &[Token], fault: Fault) -> ParseError
    requires short { length text.now < 2 ^ 32 }
    requires lie_within { AreIn text.now tokens.now }
    ensures want { IsWant fault → result ≡ ParseError.Memory }
    ensures long { LongSays (IsTooLong Language.Table (items_of Language.Table text.now tokens.now)) result }
{
    match fault {
        Fault::Syntax { left } => ParseError::Syntax {
            at: place(text, tokens, left),
        },
        Fault::Long { left } => too_long(alloc, text, tokens, left),
        Fault::Memory => ParseError::Memory,
    }
}

/// The answer for an expression whose 513th token leaves so many tokens. The expression is read once
/// more by itself, which says that it is too long, and where.
fn too_long(alloc: Global, text: &[u8], tokens: &[Token], left: usize) -> ParseError
    requires short { length text.now < 2 ^ 32 }
    requires lie_within { AreIn text.now tokens.now }
    ensures { LongSays (IsTooLong Language.Table (items_of Language.Table text.now tokens.now)) result }
{
    let from = tokens.len().saturating_sub(left).saturating_sub(LIMIT);
    match refused(alloc, text, tokens, from) {
        Some(error) => error,
        None => ParseError::Syntax {
            at: place(text, tokens, left),
        },
    }
}

/// Why no expression is read from a token on.
fn refused(alloc: Global, text: &[u8], tokens: &[Token], from: usize) -> Option<ParseError>
    requires short { length text.now < 2 ^ 32 }
    requires lie_within { AreIn text.now tokens.now }
    requires from_in { from ≤ length tokens.now }
    ensures { IfSome result (LongSays (BeginsTooLong Language.Table (items_of Language.Table text.now (drop from tokens.now)))) }
{
    parse_table_expr(alloc, text, tokens, from).err()
}

/// The place of the token from which on so many are left, or the text's length.
fn place(text: &[u8], tokens: &[Token], left: usize) -> u32
    requires { length text.now < 2 ^ 32 }
{
    match tokens.get(tokens.len().saturating_sub(left)) {
        Some(token) => token.from,
        None => text.len() as u32,
    }
}

/// A table up to the end of the text.
fn take_table(alloc: Global, here: Cursor) -> Result<PlacedTable, Fault>
    ensures ok { IfOk result (λ table. SpellsTable here.entry (table_at table)) }
    ensures whole { (T : TableAt) → SpellsTable here.entry T → IsMade table_at T result }
{
    let (heading, behind) = take_heading(alloc, here)?;
    let (views, behind) = take_views(alloc, behind)?;
    let (effects, behind) = take_effects(alloc, behind)?;
    let ends = take_ending(alloc, behind)?;
    Ok(PlacedTable {
        name: heading.name,
        root: heading.root,
        roles: heading.roles,
        states: views.states,
        fields: views.fields,
        invariant: views.invariant,
        boundary: views.boundary,
        starts: effects.starts,
        start_fetch: effects.start_fetch,
        classes: effects.classes,
        ends,
    })
}

/// What a table says before STATE.
#[derive(Drop)]
struct Heading {
    name: Named,
    root: Named,
    roles: Seq<PlacedRole>,
}

/// `"TABLE" name "FOR" name ";" "ROLES" {role}`.
fn take_heading<'a>(alloc: Global, here: Cursor<'a>) -> Read<'a, Heading>
    ensures ok { IfOk result (λ read. Headed here.entry (heading_at read.0) read.1) }
    ensures whole { IsWhole heading_at (Headed here.entry) (NotAt at_role) result }
{
    let behind = behind_word(here, "TABLE")?;
    let (name, behind) = take_name(alloc, behind)?;
    let behind = behind_word(behind, "FOR")?;
    let (root, behind) = take_name(alloc, behind)?;
    let behind = behind.behind_semicolon()?;
    let behind = behind_word(behind, "ROLES")?;
    let (roles, behind) = take_roles(alloc, behind)?;
    let heading = Heading {
        name,
        root,
        roles: Seq::of(roles),
    };
    Ok((heading, behind))
}

/// What of a table speaks of the design's registers, and its fields.
#[derive(Drop)]
struct Views {
    states: Seq<PlacedState>,
    fields: Seq<PlacedLet>,
    invariant: Actual,
    boundary: Actual,
}

/// `"STATE" {state} ["FIELDS" {name "IS" expr ";"}] "INVARIANT" expr ";" "BOUNDARY" expr ";"`.
fn take_views<'a>(alloc: Global, here: Cursor<'a>) -> Read<'a, Views>
    ensures ok { IfOk result (λ read. Viewed here.entry (views_at read.0) read.1) }
    ensures whole { IsWhole views_at (Viewed here.entry) Anywhere result }
{
    let behind = behind_word(here, "STATE")?;
    let (states, behind) = take_states(alloc, behind)?;
    let (fields, behind) = take_maybe_fields(alloc, behind)?;
    let behind = behind_word(behind, "INVARIANT")?;
    let (invariant, behind) = take_ended(alloc, behind)?;
    let behind = behind_word(behind, "BOUNDARY")?;
    let (boundary, behind) = take_ended(alloc, behind)?;
    let views = Views {
        states: Seq::of(states),
        fields: Seq::of(fields),
        invariant,
        boundary,
    };
    Ok((views, behind))
}

/// `["FIELDS" {name "IS" expr ";"}]`.
fn take_maybe_fields<'a>(alloc: Global, here: Cursor<'a>) -> Read<'a, Vec<PlacedLet>>
    ensures ok { IfOk result (λ read. Fields here.entry (map let_at read.0.items) read.1) }
    ensures whole { IsWhole (λ v. map let_at v.items) (Fields here.entry) EndsFields result }
{
    match past_word(&here, "FIELDS") {
        Some(first) => take_fields(alloc, first),
        None => Ok((Vec::new(alloc), here)),
    }
}

/// What a table says of instructions and of their start.
#[derive(Drop)]
struct Effects {
    starts: Seq<PlacedSet>,
    start_fetch: Option<Actual>,
    classes: Seq<PlacedClass>,
}

/// `"START" {name ":=" expr ";"} ["FETCH" expr ";"] {class}`.
fn take_effects<'a>(alloc: Global, here: Cursor<'a>) -> Read<'a, Effects>
    ensures ok { IfOk result (λ read. Effected here.entry (effects_at read.0) read.1) }
    ensures whole { IsWhole effects_at (Effected here.entry) (Before Symbol.End) result }
{
    let behind = behind_word(here, "START")?;
    let (starts, behind) = take_starts(alloc, behind)?;
    let (start_fetch, behind) = take_start_fetch(alloc, behind)?;
    let (classes, behind) = take_classes(alloc, behind)?;
    let effects = Effects {
        starts: Seq::of(starts),
        start_fetch,
        classes: Seq::of(classes),
    };
    Ok((effects, behind))
}

/// `["FETCH" expr ";"]` of START.
fn take_start_fetch<'a>(alloc: Global, here: Cursor<'a>) -> Read<'a, Option<Actual>>
    ensures ok { IfOk result (λ read. StartFetch here.entry (place_tree read.0) read.1) }
    ensures whole { IsWhole place_tree (StartFetch here.entry) (NotAt (at_word (codes "FETCH"))) result }
{
    match past_word(&here, "FETCH") {
        Some(first) => {
            let (adr, behind) = take_ended(alloc, first)?;
            Ok((Some(adr), behind))
        }
        None => Ok((None, here)),
    }
}

/// `"END" name "."` up to the end of the text, and its name.
fn take_ending(alloc: Global, here: Cursor) -> Result<Named, Fault>
    ensures ok { IfOk result (λ name. Ending here.entry name) }
    ensures whole { (name : TheNamed) → Ending here.entry name → IsMade (λ n. n) name result }
{
    let behind = here.behind_end()?;
    let (name, behind) = take_name(alloc, behind)?;
    let behind = behind.behind_dot()?;
    if behind.left() > 0 {
        return Err(behind.fault());
    }
    Ok(name)
}
