ghost use Rattle.std.specs.Prelude.{◌≡◌, ◌<◌, List, false, length, IfOk, IfSome, MatchOption};
ghost use Rattle.lola_parse.specs.Symbols.{Item};
ghost use Rattle.lola_parse.specs.Grammar.{Passes, Stands};
ghost use Rattle.lola_parse.specs.Read.{IsWhole, IsBehind, Anywhere, Stops};
ghost use Rattle.lola_tree.specs.Tree.{actual_tree};
ghost use Rattle.tab_parse.specs.Grammar.{Keyword, NameAt, WordAt, Numbered, ExprAt, Ended, AssignAt};
ghost use Rattle.tab_parse.specs.Fronts.{at_word, at_name};

use lola_bits::Name;
use lola_parse::{Cursor, Fault, Language, Symbol, outermost};
use lola_tree::{Actual, Named};
use std::alloc::Global;

/// What was read, and what stands behind it.
pub type Read<'a, T> = Result<(T, Cursor<'a>), Fault>;

/// Behind a word that tables reserve, where it is at the front.
pub fn past_word<'a>(here: &Cursor<'a>, word: &str) -> Option<Cursor<'a>>
    ensures shorter { IfSome result (λ rest. length rest < length here.now) }
    ensures ok { MatchOption result (at_word word.now here.now ≡ false) (λ rest. Keyword word.now here.now rest) }
{
    let next = here.next();
    match next.symbol {
        Symbol::TableWord => {
            if next.spelled == word {
                Some(next.rest)
            } else {
                None
            }
        }
        _ => None,
    }
}

/// Whether a word that tables reserve is at the front.
pub fn is_at(here: &Cursor, word: &str) -> bool
    ensures { result ≡ at_word word.now here.now }
{
    match past_word(here, word) {
        Some(_) => true,
        None => false,
    }
}

/// Whether a name is at the front.
pub fn is_at_name(here: &Cursor) -> bool
    ensures { result ≡ at_name here.now }
{
    match here.next().symbol {
        Symbol::Name => true,
        _ => false,
    }
}

/// Behind a word that tables reserve and that must be at the front.
pub fn behind_word<'a>(here: Cursor<'a>, word: &str) -> Result<Cursor<'a>, Fault>
    ensures shorter { IfOk result (λ rest. length rest < length here.entry) }
    ensures ok { IfOk result (λ rest. Keyword word.now here.entry rest) }
    ensures whole { (rest : List Item) → Keyword word.now here.entry rest → IsBehind rest result }
{
    match past_word(&here, word) {
        Some(rest) => Ok(rest),
        None => Err(here.fault()),
    }
}

/// Behind `=`, which must be at the front.
pub fn behind_equal<'a>(here: Cursor<'a>) -> Result<Cursor<'a>, Fault>
    ensures shorter { IfOk result (λ rest. length rest < length here.entry) }
    ensures ok { IfOk result (λ rest. Passes Symbol.Equal here.entry rest) }
    ensures whole { (rest : List Item) → Passes Symbol.Equal here.entry rest → IsBehind rest result }
{
    let next = here.next();
    match next.symbol {
        Symbol::Equal => Ok(next.rest),
        _ => Err(here.fault()),
    }
}

/// Behind `:=`, which must be at the front, and its place.
pub fn take_assign<'a>(here: Cursor<'a>) -> Read<'a, u32>
    ensures shorter { IfOk result (λ read. length read.1 < length here.entry) }
    ensures ok { IfOk result (λ read. Stands Symbol.Assign read.0 here.entry read.1) }
    ensures whole { IsWhole (λ at. at) (AssignAt here.entry) Anywhere result }
{
    let next = here.next();
    match next.symbol {
        Symbol::Assign => Ok((next.at, next.rest)),
        _ => Err(here.fault()),
    }
}

/// A name: a word that isn't reserved in tables.
pub fn take_name<'a>(alloc: Global, here: Cursor<'a>) -> Read<'a, Named>
    ensures shorter { IfOk result (λ read. length read.1 < length here.entry) }
    ensures ok { IfOk result (λ read. NameAt here.entry read.0 read.1) }
    ensures whole { IsWhole (λ n. n) (NameAt here.entry) Anywhere result }
{
    let next = here.next();
    match next.symbol {
        Symbol::Name => {
            let name = Name::new(alloc, next.spelled)?;
            Ok((Named { name, at: next.at }, next.rest))
        }
        _ => Err(here.fault()),
    }
}

/// Any word, as the name of a port.
pub fn take_word<'a>(alloc: Global, here: Cursor<'a>) -> Read<'a, Named>
    ensures shorter { IfOk result (λ read. length read.1 < length here.entry) }
    ensures ok { IfOk result (λ read. WordAt here.entry read.0 read.1) }
    ensures whole { IsWhole (λ n. n) (WordAt here.entry) Anywhere result }
{
    let next = here.next();
    if !next.is_word {
        return Err(here.fault());
    }
    let name = Name::new(alloc, next.spelled)?;
    Ok((Named { name, at: next.at }, next.rest))
}

/// A number. Its width doesn't count.
pub fn take_number<'a>(here: Cursor<'a>) -> Read<'a, u128>
    ensures shorter { IfOk result (λ read. length read.1 < length here.entry) }
    ensures ok { IfOk result (λ read. Numbered here.entry read.0 read.1) }
    ensures whole { IsWhole (λ n. n) (Numbered here.entry) Anywhere result }
{
    let next = here.next();
    match next.symbol {
        Symbol::Number { value, width: _ } => Ok((value, next.rest)),
        _ => Err(here.fault()),
    }
}

/// An expression, with the place of its first token.
pub fn take_expr<'a>(alloc: Global, here: Cursor<'a>) -> Read<'a, Actual>
    ensures shorter { IfOk result (λ read. length read.1 < length here.entry) }
    ensures ok { IfOk result (λ read. ExprAt here.entry (actual_tree read.0) read.1) }
    ensures whole { IsWhole actual_tree (ExprAt here.entry) Stops result }
{
    let at = here.at();
    let (value, behind) = outermost(alloc, Language::Table, here)?;
    Ok((Actual { value, at }, behind))
}

/// `expr ";"`.
pub fn take_ended<'a>(alloc: Global, here: Cursor<'a>) -> Read<'a, Actual>
    ensures shorter { IfOk result (λ read. length read.1 < length here.entry) }
    ensures ok { IfOk result (λ read. Ended here.entry (actual_tree read.0) read.1) }
    ensures whole { IsWhole actual_tree (Ended here.entry) Anywhere result }
{
    let (expr, behind) = take_expr(alloc, here)?;
    Ok((expr, behind.behind_semicolon()?))
}
