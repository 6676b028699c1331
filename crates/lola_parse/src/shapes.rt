ghost use Rattle.std.specs.Prelude.{ℕ, ◌≡◌, ◌<◌, ◌≤◌, length, IfOk, IfErr};
ghost use Rattle.lola_parse.specs.Design.{NameList, Shaped};
ghost use Rattle.lola_parse.specs.Behind.{ShapeBehind, VectorsBehind, CountedShape};
ghost use Rattle.lola_parse.specs.MayEnd.{Before};
ghost use Rattle.lola_parse.specs.Read.{IsWhole, Anywhere};
ghost use Rattle.lola_parse.specs.Long.{NeverLong};

use crate::cursor::Cursor;
use crate::fault::Fault;
use crate::reference::count;
use crate::statement::name;
use crate::symbol::{Language, Symbol};
use lola_bits::{Memory, Name};
use lola_tree::{Count, LocalKind, Named, Shape};
use std::alloc::Global;

/// `name {"," name}`.
pub(crate) fn names<'a>(alloc: Global, here: Cursor<'a>) -> Result<(Vec<Named>, Cursor<'a>), Fault>
    ensures shorter { IfOk result (λ read. length read.1 < length here.entry) }
    ensures ok { IfOk result (λ read. NameList here.entry read.0.items read.1) }
    ensures whole { IsWhole (λ v. v.items) (NameList here.entry) (Before Symbol.Colon) result }
    ensures never { IfErr result NeverLong }
{
    let (first, mut behind) = name(alloc, here)?;
    let mut names = Vec::new(alloc);
    names.push(first)?;
    'names: loop {
        let next = behind.next();
        match next.symbol {
            Symbol::Comma => {
                let (named, rest) = name(alloc, next.rest)?;
                names.push(named)?;
                behind = rest;
            }
            _ => return Ok((names, behind)),
        }
    }
}

/// A type at the front, as designs write it, and what stands behind it: `"BIT" | "BYTE" | "WORD" | "["
/// count "]" ("BIT" | "BYTE" | "WORD" | "[" count "]" "BIT")`. A fault other than Memory comes only
/// where none stands there.
pub fn shape<'a>(alloc: Global, here: Cursor<'a>) -> Result<(Shape, Cursor<'a>), Fault>
    ensures shorter { IfOk result (λ read. length read.1 < length here.entry) }
    ensures ok { IfOk result (λ read. Shaped here.entry read.0 read.1) }
    ensures whole { IsWhole (λ t. t) (Shaped here.entry) Anywhere result }
    ensures never { IfErr result NeverLong }
{
    let next = here.next();
    match next.symbol {
        Symbol::Bit => Ok((fixed_vector(1, next.at), next.rest)),
        Symbol::Byte => Ok((fixed_vector(8, next.at), next.rest)),
        Symbol::Word => Ok((fixed_vector(32, next.at), next.rest)),
        Symbol::OpenBracket => counted_shape(alloc, next.rest),
        _ => Err(here.fault()),
    }
}

/// `count "]" ("BIT" | "BYTE" | "WORD" | "[" count "]" "BIT")`, behind a `[`.
fn counted_shape<'a>(alloc: Global, here: Cursor<'a>) -> Result<(Shape, Cursor<'a>), Fault>
    ensures shorter { IfOk result (λ read. length read.1 < length here.entry) }
    ensures ok { IfOk result (λ read. ShapeBehind here.entry read.0 read.1) }
    ensures whole { IsWhole (λ t. t) (CountedShape here.entry) Anywhere result }
    ensures never { IfErr result NeverLong }
{
    let (count, behind) = count(alloc, Language::Design, here)?;
    let behind = behind.behind_close_bracket()?;
    let next = behind.next();
    match next.symbol {
        Symbol::Bit => Ok((Shape::Vector { width: count }, next.rest)),
        Symbol::Byte => Ok((fixed_array(count, 8, next.at), next.rest)),
        Symbol::Word => Ok((fixed_array(count, 32, next.at), next.rest)),
        Symbol::OpenBracket => bit_array(alloc, count, next.rest),
        _ => Err(behind.fault()),
    }
}

/// `count "]" "BIT"`, behind the second `[` of a type.
fn bit_array<'a>(
    alloc: Global,
    number: Count,
    here: Cursor<'a>,
) -> Result<(Shape, Cursor<'a>), Fault>
    ensures shorter { IfOk result (λ read. length read.1 < length here.entry) }
    ensures ok { IfOk result (λ read. VectorsBehind number here.entry read.0 read.1) }
    ensures whole { IsWhole (λ t. t) (VectorsBehind number here.entry) Anywhere result }
    ensures never { IfErr result NeverLong }
{
    let (width, behind) = count(alloc, Language::Design, here)?;
    let behind = behind.behind_close_bracket()?.behind_bit()?;
    Ok((
        Shape::Array {
            count: number,
            width,
        },
        behind,
    ))
}

/// A vector whose width a word says.
fn fixed_vector(width: u128, at: u32) -> Shape
    ensures { result ≡ Shape.Vector (Count.Fixed width at) }
{
    Shape::Vector {
        width: Count::Fixed { value: width, at },
    }
}

/// An array of vectors whose width a word says.
fn fixed_array(count: Count, width: u128, at: u32) -> Shape
    ensures { result ≡ Shape.Array count (Count.Fixed width at) }
{
    Shape::Array {
        count,
        width: Count::Fixed { value: width, at },
    }
}

/// The name once more.
pub(crate) fn copy_name(alloc: Global, name: &Name) -> Result<Name, Memory>
    ensures { IfOk result (λ copy. copy ≡ name.now) }
{
    Name::new(alloc, name.text())
}

/// The name once more, with its place.
pub(crate) fn copy_named(alloc: Global, named: &Named) -> Result<Named, Memory>
    ensures { IfOk result (λ copy. copy ≡ named.now) }
{
    Ok(Named {
        name: copy_name(alloc, &named.name)?,
        at: named.at,
    })
}

/// The count once more.
fn copy_count(alloc: Global, count: &Count) -> Result<Count, Memory>
    ensures { IfOk result (λ copy. copy ≡ count.now) }
{
    match count {
        Count::Fixed { value, at } => Ok(Count::Fixed {
            value: *value,
            at: *at,
        }),
        Count::Const { name } => Ok(Count::Const {
            name: copy_named(alloc, name)?,
        }),
    }
}

/// The type once more.
pub(crate) fn copy_shape(alloc: Global, shape: &Shape) -> Result<Shape, Memory>
    ensures { IfOk result (λ copy. copy ≡ shape.now) }
{
    match shape {
        Shape::Vector { width } => Ok(Shape::Vector {
            width: copy_count(alloc, width)?,
        }),
        Shape::Array { count, width } => Ok(Shape::Array {
            count: copy_count(alloc, count)?,
            width: copy_count(alloc, width)?,
        }),
    }
}

/// The kind once more.
pub(crate) fn copy_kind(alloc: Global, kind: &LocalKind) -> Result<LocalKind, Memory>
    ensures { IfOk result (λ copy. copy ≡ kind.now) }
{
    match kind {
        LocalKind::Reg { clock, shape } => Ok(LocalKind::Reg {
            clock: copy_named(alloc, clock)?,
            shape: copy_shape(alloc, shape)?,
        }),
        LocalKind::Var { shape } => Ok(LocalKind::Var {
            shape: copy_shape(alloc, shape)?,
        }),
        LocalKind::Inst { module } => Ok(LocalKind::Inst {
            module: copy_named(alloc, module)?,
        }),
    }
}
