ghost use Rattle.std.specs.Prelude.{◌≡◌, ◌∷◌, List, IfOk};
ghost use Rattle.std.specs.Option.{option_map};
ghost use Rattle.lrat_text.specs.Cut.{items_of, items_in};
ghost use Rattle.lrat_text.specs.Parse.{parse, named, ended, first, numbered, deleted, added, hinted, text_line};
ghost use Rattle.lrat_text.specs.Number.{read_id, read_literal, read_hint};
ghost use Rattle.lrat_text.specs.Parse.{numbers as numbers_in};
ghost use Rattle.lrat_text.specs.Text.{is_name_byte};
ghost use Rattle.std.specs.List.{list_all};

use crate::items::{first_item, one_item};
use crate::number::{Number, read_number};
use crate::numbers::numbers;
use lola_bits::{Memory, Seq};
use lrat_check::{Clause, Line};
use std::alloc::Global;

/// A line of the text.
#[derive(Drop)]
pub enum Text<'a> {
    First,
    Named(&'a [u8]),
    Taken(Line),
    Ended(u64),
}

/// What a line is, if it is one.
pub(crate) fn read_text<'a>(alloc: Global, line: &'a [u8]) -> Result<Option<Text<'a>>, Memory>
    ensures { IfOk result (λ text. option_map text_line text ≡ parse (items_of line.now)) }
{
    let (word, rest) = first_item(line);
    parse(alloc, word, rest)
}

/// What a line is, by its first item and what stands behind it.
fn parse<'a>(
    alloc: Global,
    word: &'a [u8],
    rest: Option<&'a [u8]>,
) -> Result<Option<Text<'a>>, Memory>
    ensures { IfOk result (λ text. option_map text_line text ≡ parse (word.now ∷ items_in (option_map (λ r. r.now) rest.entry))) }
{
    if word == b"o".as_slice() {
        Ok(named(rest))
    } else if word == b"end".as_slice() {
        Ok(ended(rest))
    } else if word == b"lola-cert".as_slice() {
        Ok(first(rest))
    } else {
        match u64::read(word) {
            None => Ok(None),
            Some(id) => numbered(alloc, id, rest),
        }
    }
}

/// A line of an obligation's name, behind its first item.
fn named<'a>(rest: Option<&'a [u8]>) -> Option<Text<'a>>
    ensures { option_map text_line result ≡ named (items_in (option_map (λ r. r.now) rest.entry)) }
{
    match one_item(rest) {
        None => None,
        Some(name) => {
            if name.len() == 0 {
                None
            } else if is_name(name) {
                Some(Text::Named(name))
            } else {
                None
            }
        }
    }
}

/// Whether bytes have neither a blank nor a line feed.
fn is_name(name: &[u8]) -> bool
    ensures { result ≡ list_all is_name_byte name.now }
{
    for &byte in name {
        if byte == b' ' {
            return false;
        }
        if byte == b'\n' {
            return false;
        }
    }
    true
}

/// The last line, behind its first item.
fn ended<'a>(rest: Option<&'a [u8]>) -> Option<Text<'a>>
    ensures { option_map text_line result ≡ ended (items_in (option_map (λ r. r.now) rest.entry)) }
{
    match one_item(rest) {
        None => None,
        Some(count) => match read_number(count) {
            None => None,
            Some(count) => Some(Text::Ended(count)),
        },
    }
}

/// The first line, behind its first item.
fn first<'a>(rest: Option<&'a [u8]>) -> Option<Text<'a>>
    ensures { option_map text_line result ≡ first (items_in (option_map (λ r. r.now) rest.entry)) }
{
    match one_item(rest) {
        None => None,
        Some(one) => {
            if one == b"1".as_slice() {
                Some(Text::First)
            } else {
                None
            }
        }
    }
}

/// A line of a refutation, behind its id.
fn numbered<'a>(alloc: Global, id: u64, rest: Option<&'a [u8]>) -> Result<Option<Text<'a>>, Memory>
    ensures { IfOk result (λ text. option_map text_line text ≡ numbered id (items_in (option_map (λ r. r.now) rest.entry))) }
{
    match rest {
        None => Ok(None),
        Some(line) => {
            let (word, ids) = first_item(line);
            if word == b"d".as_slice() {
                deletion(alloc, id, ids)
            } else {
                addition(alloc, id, line)
            }
        }
    }
}

/// A deletion, behind its mark.
fn deletion<'a>(alloc: Global, id: u64, rest: Option<&'a [u8]>) -> Result<Option<Text<'a>>, Memory>
    ensures { IfOk result (λ text. option_map text_line text ≡ deleted id (numbers_in read_id (items_in (option_map (λ r. r.now) rest.entry)))) }
{
    match rest {
        None => Ok(None),
        Some(line) => match numbers::<u64>(alloc, line) {
            Ok(None) => Ok(None),
            Ok(Some((_, Some(_)))) => Ok(None),
            Ok(Some((ids, None))) => Ok(Some(Text::Taken(Line::Delete {
                id,
                ids: Seq::of(ids),
            }))),
            Err(fault) => Err(fault),
        },
    }
}

/// An addition, behind its id.
fn addition<'a>(alloc: Global, id: u64, line: &'a [u8]) -> Result<Option<Text<'a>>, Memory>
    ensures { IfOk result (λ text. option_map text_line text ≡ added id (numbers_in read_literal (items_of line.now))) }
{
    match numbers::<i32>(alloc, line) {
        Ok(None) => Ok(None),
        Ok(Some((literals, rest))) => hinted(alloc, id, literals, rest),
        Err(fault) => Err(fault),
    }
}

/// An addition, behind the literals of its clause.
fn hinted<'a>(
    alloc: Global,
    id: u64,
    literals: Vec<i32>,
    rest: Option<&'a [u8]>,
) -> Result<Option<Text<'a>>, Memory>
    ensures { IfOk result (λ text. option_map text_line text ≡ hinted id literals.items (numbers_in read_hint (items_in (option_map (λ r. r.now) rest.entry)))) }
{
    match rest {
        None => Ok(None),
        Some(line) => match numbers::<i64>(alloc, line) {
            Ok(None) => Ok(None),
            Ok(Some((_, Some(_)))) => Ok(None),
            Ok(Some((hints, None))) => Ok(Some(Text::Taken(Line::Add {
                id,
                clause: Clause {
                    literals: Seq::of(literals),
                },
                hints: Seq::of(hints),
            }))),
            Err(fault) => Err(fault),
        },
    }
}
