ghost use Rattle.std.specs.Prelude.{ℕ, ◌<◌, ◌≤◌, length, IfOk, IfErr, map};
ghost use Rattle.lola_tree.specs.Tree.{stmt_tree, actual_tree, place_tree};
ghost use Rattle.lola_parse.specs.Grammar.{Names};
ghost use Rattle.lola_parse.specs.Design.{Argument, Statement, Optional, Body};
ghost use Rattle.lola_parse.specs.Behind.{StatementBehind, AssignedBehind, PlacedBehind, CalledBehind, ArgumentsBehind, PadBehind, NamedStatement, NameRead};
ghost use Rattle.lola_parse.specs.MayEnd.{Before, StatementEnds};
ghost use Rattle.lola_parse.specs.Read.{IsWhole, Anywhere, Stops};
ghost use Rattle.lola_parse.specs.Long.{LongWithin, NeverLong};

use crate::cursor::Cursor;
use crate::expression::outermost;
use crate::fault::Fault;
use crate::symbol::{Language, Symbol};
use lola_bits::{Name, Seq};
use lola_tree::{Actual, Named, Stmt};
use std::alloc::Global;

/// A name at the front, and what stands behind it.
pub(crate) fn name<'a>(alloc: Global, here: Cursor<'a>) -> Result<(Named, Cursor<'a>), Fault>
    ensures shorter { IfOk result (λ read. length read.1 < length here.entry) }
    ensures ok { IfOk result (λ read. Names read.0.name read.0.at here.entry read.1) }
    ensures whole { IsWhole (λ n. n) (NameRead here.entry) Anywhere result }
    ensures never { IfErr result NeverLong }
{
    let next = here.next();
    match next.symbol {
        Symbol::Name => {
            let name = Name::new(alloc, next.spelled)?;
            Ok((Named { name, at: next.at }, next.rest))
        }
        _ => Err(here.fault()),
    }
}

/// A statement: an assignment, a call or the drive of a pad.
pub(crate) fn statement<'a>(alloc: Global, here: Cursor<'a>) -> Result<(Stmt, Cursor<'a>), Fault>
    ensures shorter { IfOk result (λ read. length read.1 < length here.entry) }
    ensures ok { IfOk result (λ read. Statement here.entry (stmt_tree read.0) read.1) }
    ensures whole { IsWhole stmt_tree (Statement here.entry) Stops result }
    ensures long { IfErr result (LongWithin Language.Design here.entry) }
{
    let next = here.next();
    match next.symbol {
        Symbol::Ts => pad(alloc, next.at, next.rest),
        _ => {
            let (target, behind) = name(alloc, here)?;
            named_statement(alloc, target, behind)
        }
    }
}

/// What stands behind the name that begins a statement: `":=" expr`, `"[" expr "]" ":=" expr` or
/// `"(" expr {"," expr} ")"`.
fn named_statement<'a>(
    alloc: Global,
    target: Named,
    here: Cursor<'a>,
) -> Result<(Stmt, Cursor<'a>), Fault>
    ensures shorter { IfOk result (λ read. length read.1 < length here.entry) }
    ensures ok { IfOk result (λ read. StatementBehind target.name target.at here.entry (stmt_tree read.0) read.1) }
    ensures whole { IsWhole stmt_tree (NamedStatement target.name target.at here.entry) Stops result }
    ensures long { IfErr result (LongWithin Language.Design here.entry) }
{
    let next = here.next();
    match next.symbol {
        Symbol::Assign => assigned(alloc, target, None, next.at, next.rest),
        Symbol::OpenBracket => placed(alloc, target, next.at, next.rest),
        Symbol::OpenParen => called(alloc, target, next.rest),
        _ => Err(here.fault()),
    }
}

/// The value of an assignment, behind its `:=`.
fn assigned<'a>(
    alloc: Global,
    target: Named,
    place: Option<Actual>,
    equals: u32,
    here: Cursor<'a>,
) -> Result<(Stmt, Cursor<'a>), Fault>
    ensures shorter { IfOk result (λ read. length read.1 < length here.entry) }
    ensures ok { IfOk result (λ read. AssignedBehind target.name (place_tree place) target.at equals here.entry (stmt_tree read.0) read.1) }
    ensures whole { IsWhole stmt_tree (AssignedBehind target.name (place_tree place) target.at equals here.entry) Stops result }
    ensures long { IfErr result (LongWithin Language.Design here.entry) }
{
    let (value, behind) = outermost(alloc, Language::Design, here)?;
    let Named { name, at } = target;
    Ok((
        Stmt::Assign {
            name,
            place,
            value,
            at,
            equals,
        },
        behind,
    ))
}

/// `expr "]" ":=" expr`, behind the `[` of an assignment's place, which stands at `at`.
fn placed<'a>(
    alloc: Global,
    target: Named,
    at: u32,
    here: Cursor<'a>,
) -> Result<(Stmt, Cursor<'a>), Fault>
    ensures shorter { IfOk result (λ read. length read.1 < length here.entry) }
    ensures ok { IfOk result (λ read. PlacedBehind target.name target.at at here.entry (stmt_tree read.0) read.1) }
    ensures whole { IsWhole stmt_tree (PlacedBehind target.name target.at at here.entry) Stops result }
    ensures long { IfErr result (LongWithin Language.Design here.entry) }
{
    let (value, behind) = outermost(alloc, Language::Design, here)?;
    let behind = behind.behind_close_bracket()?;
    let next = behind.next();
    match next.symbol {
        Symbol::Assign => assigned(
            alloc,
            target,
            Some(Actual { value, at }),
            next.at,
            next.rest,
        ),
        _ => Err(behind.fault()),
    }
}

/// `expr {"," expr} ")"`, behind the `(` of a call.
fn called<'a>(alloc: Global, target: Named, here: Cursor<'a>) -> Result<(Stmt, Cursor<'a>), Fault>
    ensures shorter { IfOk result (λ read. length read.1 < length here.entry) }
    ensures ok { IfOk result (λ read. CalledBehind target.name target.at here.entry (stmt_tree read.0) read.1) }
    ensures whole { IsWhole stmt_tree (CalledBehind target.name target.at here.entry) Anywhere result }
    ensures long { IfErr result (LongWithin Language.Design here.entry) }
{
    let (args, behind) = arguments(alloc, here)?;
    let behind = behind.behind_close_paren()?;
    let Named { name, at } = target;
    Ok((
        Stmt::Call {
            name,
            args: Seq::of(args),
            at,
        },
        behind,
    ))
}

/// `expr {"," expr}`.
fn arguments<'a>(alloc: Global, here: Cursor<'a>) -> Result<(Vec<Actual>, Cursor<'a>), Fault>
    ensures shorter { IfOk result (λ read. length read.1 < length here.entry) }
    ensures ok { IfOk result (λ read. ArgumentsBehind here.entry (map actual_tree read.0.items) read.1) }
    ensures whole { IsWhole (λ v. map actual_tree v.items) (ArgumentsBehind here.entry) (Before Symbol.CloseParen) result }
    ensures long { IfErr result (LongWithin Language.Design here.entry) }
{
    let (first, mut behind) = argument(alloc, here)?;
    let mut args = Vec::new(alloc);
    args.push(first)?;
    'more: loop {
        let next = behind.next();
        match next.symbol {
            Symbol::Comma => {
                let (arg, rest) = argument(alloc, next.rest)?;
                args.push(arg)?;
                behind = rest;
            }
            _ => return Ok((args, behind)),
        }
    }
}

/// An expression as an argument, with the place of its first token.
fn argument<'a>(alloc: Global, here: Cursor<'a>) -> Result<(Actual, Cursor<'a>), Fault>
    ensures shorter { IfOk result (λ read. length read.1 < length here.entry) }
    ensures ok { IfOk result (λ read. Argument here.entry (actual_tree read.0) read.1) }
    ensures whole { IsWhole actual_tree (Argument here.entry) Stops result }
    ensures long { IfErr result (LongWithin Language.Design here.entry) }
{
    let at = here.at();
    let (value, behind) = outermost(alloc, Language::Design, here)?;
    Ok((Actual { value, at }, behind))
}

/// `"(" name "," name "," expr "," expr ")"`, behind the `TS` at `at`.
fn pad<'a>(alloc: Global, at: u32, here: Cursor<'a>) -> Result<(Stmt, Cursor<'a>), Fault>
    ensures shorter { IfOk result (λ read. length read.1 < length here.entry) }
    ensures ok { IfOk result (λ read. PadBehind at here.entry (stmt_tree read.0) read.1) }
    ensures whole { IsWhole stmt_tree (PadBehind at here.entry) Anywhere result }
    ensures long { IfErr result (LongWithin Language.Design here.entry) }
{
    let (io, behind) = name(alloc, here.behind_open_paren()?)?;
    let (inner, behind) = name(alloc, behind.behind_comma()?)?;
    let (value, behind) = argument(alloc, behind.behind_comma()?)?;
    let (release, behind) = argument(alloc, behind.behind_comma()?)?;
    let behind = behind.behind_close_paren()?;
    Ok((
        Stmt::Pad {
            io,
            inner,
            value,
            release,
            at,
        },
        behind,
    ))
}

/// `[stmt] {";" [stmt]}`.
pub(crate) fn body<'a>(alloc: Global, here: Cursor<'a>) -> Result<(Vec<Stmt>, Cursor<'a>), Fault>
    ensures shorter { IfOk result (λ read. length read.1 ≤ length here.entry) }
    ensures ok { IfOk result (λ read. Body here.entry (map stmt_tree read.0.items) read.1) }
    ensures whole { IsWhole (λ v. map stmt_tree v.items) (Body here.entry) (Before Symbol.End) result }
    ensures long { IfErr result (LongWithin Language.Design here.entry) }
{
    let (mut body, mut behind) = with_statement(alloc, Vec::new(alloc), here)?;
    'body: loop {
        let next = behind.next();
        match next.symbol {
            Symbol::Semicolon => {
                let (longer, rest) = with_statement(alloc, body, next.rest)?;
                body = longer;
                behind = rest;
            }
            _ => return Ok((body, behind)),
        }
    }
}

/// `[stmt]`, behind the statements that are read.
fn with_statement<'a>(
    alloc: Global,
    mut body: Vec<Stmt>,
    here: Cursor<'a>,
) -> Result<(Vec<Stmt>, Cursor<'a>), Fault>
    ensures shorter { IfOk result (λ read. length read.1 ≤ length here.entry) }
    ensures ok { IfOk result (λ read. Optional (map stmt_tree body.items) here.entry (map stmt_tree read.0.items) read.1) }
    ensures whole { IsWhole (λ v. map stmt_tree v.items) (Optional (map stmt_tree body.items) here.entry) StatementEnds result }
    ensures long { IfErr result (LongWithin Language.Design here.entry) }
{
    match here.next().symbol {
        Symbol::Name | Symbol::Ts => {
            let (stmt, behind) = statement(alloc, here)?;
            body.push(stmt)?;
            Ok((body, behind))
        }
        _ => Ok((body, here)),
    }
}
