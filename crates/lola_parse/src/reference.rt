ghost use Rattle.std.specs.Prelude.{ℕ, ◌<◌, ◌≤◌, Bool, true, false, List, length, IfOk, IfErr, ◌≡◌, [], ◌∷◌};
ghost use Rattle.lola_tree.specs.Tree.{tree};
ghost use Rattle.lola_parse.specs.Symbols.{Item};
ghost use Rattle.lola_parse.specs.Grammar.{Passes, Counted, Times, Reference};
ghost use Rattle.lola_parse.specs.Behind.{BitBehind, SliceBehind, SliceBegins, PathBehind};
ghost use Rattle.lola_parse.specs.MayEnd.{Closes, PathCloses};
ghost use Rattle.lola_parse.specs.Read.{IsWhole, Anywhere};
ghost use Rattle.lola_parse.specs.Long.{Any, AnyTimes, StopsBy};

use crate::cursor::Cursor;
use crate::fault::Fault;
use crate::made::{bit_of, slice_of};
use crate::symbol::{Language, Symbol};
use lola_bits::{Memory, Name, Seq};
use lola_tree::{Count, Expr, Named, Ref};
use std::alloc::Global;

/// A count: a number without a width, or in a design a name.
pub(crate) fn count<'a>(
    alloc: Global,
    language: Language,
    here: Cursor<'a>,
) -> Result<(Count, Cursor<'a>), Fault>
    ensures shorter { IfOk result (λ read. length read.1 < length here.entry) }
    ensures ok { IfOk result (λ read. Counted language here.entry read.0 read.1) }
    ensures whole { IsWhole (λ c. c) (Counted language here.entry) Anywhere result }
    ensures stops { IfErr result (StopsBy (Any (Counted language)) here.entry) }
{
    let next = here.next();
    match next.symbol {
        Symbol::Number { value, width } => match width {
            None => Ok((Count::Fixed { value, at: next.at }, next.rest)),
            Some(_) => Err(here.fault()),
        },
        Symbol::Name => match language {
            Language::Design => {
                let name = Name::new(alloc, next.spelled)?;
                Ok((
                    Count::Const {
                        name: Named { name, at: next.at },
                    },
                    next.rest,
                ))
            }
            Language::Table => Err(here.fault()),
        },
        _ => Err(here.fault()),
    }
}

/// Whether a count and a `:` stand at the front.
pub(crate) fn begins_slice(language: Language, here: &Cursor) -> bool
    ensures yes { result ≡ true → SliceBegins language here.now }
    ensures no { result ≡ false → SliceBegins language here.now → ⊥ }
{
    let next = here.next();
    match next.symbol {
        Symbol::Number { value: _, width } => match width {
            None => begins_with_colon(&next.rest),
            Some(_) => false,
        },
        Symbol::Name => match language {
            Language::Design => begins_with_colon(&next.rest),
            Language::Table => false,
        },
        _ => false,
    }
}

/// Whether a `:` stands at the front.
fn begins_with_colon(here: &Cursor) -> bool
    ensures yes { result ≡ true → (rest : List Item) × Passes Symbol.Colon here.now rest }
    ensures no { result ≡ false → (rest : List Item) → Passes Symbol.Colon here.now rest → ⊥ }
{
    match here.next().symbol {
        Symbol::Colon => true,
        _ => false,
    }
}

/// `["!" count]`; where it isn't written, 1 at the place of the part.
pub(crate) fn times<'a>(
    alloc: Global,
    language: Language,
    at: u32,
    here: Cursor<'a>,
) -> Result<(Count, Cursor<'a>), Fault>
    ensures shorter { IfOk result (λ read. length read.1 ≤ length here.entry) }
    ensures ok { IfOk result (λ read. Times language at here.entry read.0 read.1) }
    ensures whole { IsWhole (λ c. c) (Times language at here.entry) (Closes 2 0) result }
    ensures stops { IfErr result (StopsBy (AnyTimes language) here.entry) }
{
    let next = here.next();
    match next.symbol {
        Symbol::Times => count(alloc, language, next.rest),
        _ => Ok((Count::Fixed { value: 1, at }, here)),
    }
}

/// `count`, behind the `.` of a bit.
pub(crate) fn bit<'a>(
    alloc: Global,
    language: Language,
    of: Ref,
    at: u32,
    here: Cursor<'a>,
) -> Result<(Box<Expr>, Cursor<'a>), Fault>
    ensures shorter { IfOk result (λ read. length read.1 < length here.entry) }
    ensures ok { IfOk result (λ read. BitBehind language of at here.entry (tree read.0.value) read.1) }
    ensures whole { IsWhole (λ b. tree b.value) (BitBehind language of at here.entry) Anywhere result }
    ensures stops { IfErr result (StopsBy (Any (BitBehind language of at)) here.entry) }
{
    let (index, behind) = count(alloc, language, here)?;
    Ok((bit_of(alloc, of, index, at)?, behind))
}

/// `count ":" count "]"`, behind the `[` of a slice.
pub(crate) fn slice<'a>(
    alloc: Global,
    language: Language,
    of: Ref,
    at: u32,
    here: Cursor<'a>,
) -> Result<(Box<Expr>, Cursor<'a>), Fault>
    ensures shorter { IfOk result (λ read. length read.1 < length here.entry) }
    ensures ok { IfOk result (λ read. SliceBehind language of at here.entry (tree read.0.value) read.1) }
    ensures whole { IsWhole (λ b. tree b.value) (SliceBehind language of at here.entry) Anywhere result }
    ensures stops { IfErr result (StopsBy (Any (SliceBehind language of at)) here.entry) }
{
    let (high, behind) = count(alloc, language, here)?;
    let behind = behind.behind_colon()?;
    let (low, behind) = count(alloc, language, behind)?;
    let behind = behind.behind_close_bracket()?;
    Ok((slice_of(alloc, of, high, low, at)?, behind))
}

/// A reference: a name, or in a table also `"@" word {"." word}`.
pub(crate) fn reference<'a>(
    alloc: Global,
    language: Language,
    here: Cursor<'a>,
) -> Result<(Ref, Cursor<'a>), Fault>
    ensures shorter { IfOk result (λ read. length read.1 < length here.entry) }
    ensures ok { IfOk result (λ read. Reference language here.entry read.0 read.1) }
    ensures whole { IsWhole (λ r. r) (Reference language here.entry) (PathCloses language) result }
    ensures stops { IfErr result (StopsBy (Any (Reference language)) here.entry) }
{
    let next = here.next();
    match next.symbol {
        Symbol::Name => {
            let path = one_name(alloc, next.spelled)?;
            Ok((
                Ref {
                    source: false,
                    path: Seq::of(path),
                    at: next.at,
                },
                next.rest,
            ))
        }
        Symbol::At => match language {
            Language::Table => {
                let (path, behind) = path(alloc, next.rest)?;
                Ok((
                    Ref {
                        source: true,
                        path: Seq::of(path),
                        at: next.at,
                    },
                    behind,
                ))
            }
            Language::Design => Err(here.fault()),
        },
        _ => Err(here.fault()),
    }
}

/// `word {"." word}`, behind an `@`. Reserved words are words too.
fn path<'a>(alloc: Global, here: Cursor<'a>) -> Result<(Vec<Name>, Cursor<'a>), Fault>
    ensures shorter { IfOk result (λ read. length read.1 < length here.entry) }
    ensures ok { IfOk result (λ read. PathBehind here.entry read.0.items read.1) }
    ensures whole { IsWhole (λ v. v.items) (PathBehind here.entry) (PathCloses Language.Table) result }
    ensures stops { IfErr result (StopsBy (Any PathBehind) here.entry) }
{
    let next = here.next();
    if !next.is_word {
        return Err(here.fault());
    }
    let mut path = one_name(alloc, next.spelled)?;
    let mut behind = next.rest;
    'words: loop {
        let dot = behind.next();
        match dot.symbol {
            Symbol::Dot => {
                let next = dot.rest.next();
                if !next.is_word {
                    return Ok((path, behind));
                }
                path.push(Name::new(alloc, next.spelled)?)?;
                behind = next.rest;
            }
            _ => return Ok((path, behind)),
        }
    }
}

/// A path of one name.
fn one_name(alloc: Global, text: &str) -> Result<Vec<Name>, Memory>
    ensures { IfOk result (λ path. path.items ≡ text.now ∷ []) }
{
    let mut path = Vec::new(alloc);
    path.push(Name::new(alloc, text)?)?;
    Ok(path)
}
