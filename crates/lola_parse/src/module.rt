ghost use Rattle.std.specs.Prelude.{ℕ, ◌<◌, ◌≤◌, length, IfOk, IfErr, OnOk, map, ◌≡◌, [], ◌++◌};
ghost use Rattle.lola_tree.specs.Tree.{SourceTree, stmt_tree, module_tree, source_tree};
ghost use Rattle.lola_parse.specs.declared.symbol.Language.TheVariants.{Design};
ghost use Rattle.lola_parse.specs.Design.{SpellsSource, OneModule, Begun, Ports, Directed, Group, port_of, way_of, Declarations, MoreConstants, Constant, Registers, RegisterRow, MoreVariables, VariableRow, VariableKind, local_of};
ghost use Rattle.lola_parse.specs.Behind.{GroupsBehind, DeclaredRead, declared_of};
ghost use Rattle.lola_parse.specs.MayEnd.{Sole, Before, NoName, DeclarationsEnd};
ghost use Rattle.lola_parse.specs.Read.{IsWant, IsWhole, IsMade, Anywhere};
ghost use Rattle.lola_parse.specs.Long.{LongWithin, NeverLong};

use crate::cursor::Cursor;
use crate::fault::Fault;
use crate::shapes::{copy_kind, copy_name, copy_named, copy_shape, names, shape};
use crate::statement::{body, name};
use crate::symbol::Symbol;
use lola_bits::Seq;
use lola_tree::{Const, Local, LocalKind, Module, Named, Port, Shape, Source, Stmt, Way};
use std::alloc::Global;

/// `module {module}` up to the end of the text.
pub(crate) fn source<'a>(alloc: Global, here: Cursor<'a>) -> Result<Source, Fault>
    ensures ok { IfOk result (λ tree. SpellsSource here.entry (source_tree tree)) }
    ensures whole { (tree : SourceTree) → SpellsSource here.entry tree → IsMade source_tree tree result }
    ensures long { IfErr result (LongWithin Design here.entry) }
{
    let (first, mut behind) = module(alloc, here)?;
    let mut modules = Vec::new(alloc);
    modules.push(first)?;
    'modules: while behind.left() > 0 {
        let (next, rest) = module(alloc, behind)?;
        modules.push(next)?;
        behind = rest;
    }
    Ok(Source {
        modules: Seq::of(modules),
    })
}

/// A module.
fn module<'a>(alloc: Global, here: Cursor<'a>) -> Result<(Module, Cursor<'a>), Fault>
    ensures shorter { IfOk result (λ read. length read.1 < length here.entry) }
    ensures ok { IfOk result (λ read. OneModule here.entry (module_tree read.0) read.1) }
    ensures whole { IsWhole module_tree (OneModule here.entry) Anywhere result }
    ensures long { IfErr result (LongWithin Design here.entry) }
{
    let (title, behind) = name(alloc, here.behind_module()?)?;
    let (ports, behind) = ports(alloc, behind.behind_open_paren()?)?;
    let behind = behind.behind_close_paren()?.behind_semicolon()?;
    let (declared, behind) = declarations(alloc, behind)?;
    let (body, behind) = begun(alloc, behind)?;
    let (ends, behind) = name(alloc, behind.behind_end()?)?;
    let behind = behind.behind_dot()?;
    let Named { name, at } = title;
    let Declared { consts, locals } = declared;
    Ok((
        Module {
            name,
            ports: Seq::of(ports),
            consts: Seq::of(consts),
            locals: Seq::of(locals),
            body: Seq::of(body),
            ends,
            at,
        },
        behind,
    ))
}

/// `["BEGIN" [stmt] {";" [stmt]}]`.
fn begun<'a>(alloc: Global, here: Cursor<'a>) -> Result<(Vec<Stmt>, Cursor<'a>), Fault>
    ensures shorter { IfOk result (λ read. length read.1 ≤ length here.entry) }
    ensures ok { IfOk result (λ read. Begun here.entry (map stmt_tree read.0.items) read.1) }
    ensures whole { IsWhole (λ v. map stmt_tree v.items) (Begun here.entry) (Before Symbol.End) result }
    ensures long { IfErr result (LongWithin Design here.entry) }
{
    let next = here.next();
    match next.symbol {
        Symbol::Begin => body(alloc, next.rest),
        _ => Ok((Vec::new(alloc), here)),
    }
}

/// `[ports {";" ports}]`.
fn ports<'a>(alloc: Global, here: Cursor<'a>) -> Result<(Vec<Port>, Cursor<'a>), Fault>
    ensures shorter { IfOk result (λ read. length read.1 ≤ length here.entry) }
    ensures ok { IfOk result (λ read. Ports here.entry read.0.items read.1) }
    ensures whole { IsWhole (λ v. v.items) (Ports here.entry) (Before Symbol.CloseParen) result }
    ensures never { IfErr result NeverLong }
{
    let next = here.next();
    match way(next.symbol) {
        Some(first) => groups(alloc, first, next.rest),
        None => Ok((Vec::new(alloc), here)),
    }
}

/// The direction that a word says.
fn way(symbol: Symbol) -> Option<Way>
    ensures { result ≡ way_of symbol }
{
    match symbol {
        Symbol::In => Some(Way::Inward),
        Symbol::Out => Some(Way::Outward),
        Symbol::Inout => Some(Way::Both),
        _ => None,
    }
}

/// The groups of ports behind the first direction. A group without one has that of the group before.
fn groups<'a>(alloc: Global, first: Way, here: Cursor<'a>) -> Result<(Vec<Port>, Cursor<'a>), Fault>
    ensures shorter { IfOk result (λ read. length read.1 < length here.entry) }
    ensures ok { IfOk result (λ read. GroupsBehind first here.entry read.0.items read.1) }
    ensures whole { IsWhole (λ v. v.items) (GroupsBehind first here.entry) (Before Symbol.CloseParen) result }
    ensures never { IfErr result NeverLong }
{
    let mut current = first;
    let (mut ports, mut behind) = group(alloc, current, Vec::new(alloc), here)?;
    'groups: loop {
        let next = behind.next();
        match next.symbol {
            Symbol::Semicolon => {
                let (said, rest) = said_way(current, next.rest);
                let (longer, rest) = group(alloc, said, ports, rest)?;
                current = said;
                ports = longer;
                behind = rest;
            }
            _ => return Ok((ports, behind)),
        }
    }
}

/// `["IN" | "OUT" | "INOUT"]`; where none is written, the direction from before.
fn said_way<'a>(before: Way, here: Cursor<'a>) -> (Way, Cursor<'a>)
    ensures shorter { length result.1 ≤ length here.entry }
    ensures ok { Directed before here.entry result.0 result.1 }
    ensures whole { Sole (Directed before here.entry) (Before Symbol.Name) result.0 result.1 }
{
    let next = here.next();
    match way(next.symbol) {
        Some(said) => (said, next.rest),
        None => (before, here),
    }
}

/// `name {"," name} ":" type`, behind the ports that are read.
fn group<'a>(
    alloc: Global,
    way: Way,
    mut ports: Vec<Port>,
    here: Cursor<'a>,
) -> Result<(Vec<Port>, Cursor<'a>), Fault>
    ensures shorter { IfOk result (λ read. length read.1 < length here.entry) }
    ensures ok { IfOk result (λ read. Group way ports.items here.entry read.0.items read.1) }
    ensures whole { IsWhole (λ v. v.items) (Group way ports.items here.entry) Anywhere result }
    ensures never { IfErr result NeverLong }
{
    let (names, behind) = names(alloc, here)?;
    let (shape, behind) = shape(alloc, behind.behind_colon()?)?;
    add_ports(alloc, way, &names, &shape, &mut ports)?;
    Ok((ports, behind))
}

/// Puts a port for each name at the end.
fn add_ports(
    alloc: Global,
    way: Way,
    names: &[Named],
    shape: &Shape,
    ports: &mut Vec<Port>,
) -> Result<(), Fault>
    ensures ok { OnOk result (ports.new.items ≡ ports.old.items ++ map (port_of way shape.now) names.now) }
    ensures fails { IfErr result IsWant }
{
    for named in names {
        ports.push(Port {
            way,
            name: copy_name(alloc, &named.name)?,
            shape: copy_shape(alloc, shape)?,
            at: named.at,
        })?;
    }
    Ok(())
}

/// What the declarations of a module declare.
#[derive(Drop)]
struct Declared {
    consts: Vec<Const>,
    locals: Vec<Local>,
}

/// `{consts | regs | vars}`.
fn declarations<'a>(alloc: Global, here: Cursor<'a>) -> Result<(Declared, Cursor<'a>), Fault>
    ensures shorter { IfOk result (λ read. length read.1 ≤ length here.entry) }
    ensures ok { IfOk result (λ read. Declarations [] [] here.entry read.0.consts.items read.0.locals.items read.1) }
    ensures whole { IsWhole declared_of (DeclaredRead here.entry) DeclarationsEnd result }
    ensures never { IfErr result NeverLong }
{
    let mut consts = Vec::new(alloc);
    let mut locals = Vec::new(alloc);
    let mut behind = here;
    'parts: loop {
        let next = behind.next();
        match next.symbol {
            Symbol::Const => {
                let (longer, rest) = constants(alloc, consts, next.rest)?;
                consts = longer;
                behind = rest;
            }
            Symbol::Reg => {
                let (longer, rest) = registers(alloc, locals, next.rest)?;
                locals = longer;
                behind = rest;
            }
            Symbol::Var => {
                let (longer, rest) = variables(alloc, locals, next.rest)?;
                locals = longer;
                behind = rest;
            }
            _ => return Ok((Declared { consts, locals }, behind)),
        }
    }
}

/// `{name ":=" number ";"}`, behind a `CONST` and the constants that are read.
fn constants<'a>(
    alloc: Global,
    consts: Vec<Const>,
    here: Cursor<'a>,
) -> Result<(Vec<Const>, Cursor<'a>), Fault>
    ensures shorter { IfOk result (λ read. length read.1 ≤ length here.entry) }
    ensures ok { IfOk result (λ read. MoreConstants consts.items here.entry read.0.items read.1) }
    ensures whole { IsWhole (λ v. v.items) (MoreConstants consts.items here.entry) NoName result }
    ensures never { IfErr result NeverLong }
{
    let mut consts = consts;
    let mut behind = here;
    'consts: loop {
        match behind.next().symbol {
            Symbol::Name => {
                let (next, rest) = constant(alloc, behind)?;
                consts.push(next)?;
                behind = rest;
            }
            _ => return Ok((consts, behind)),
        }
    }
}

/// `name ":=" number ";"`.
fn constant<'a>(alloc: Global, here: Cursor<'a>) -> Result<(Const, Cursor<'a>), Fault>
    ensures shorter { IfOk result (λ read. length read.1 < length here.entry) }
    ensures ok { IfOk result (λ read. Constant here.entry read.0 read.1) }
    ensures whole { IsWhole (λ c. c) (Constant here.entry) Anywhere result }
    ensures never { IfErr result NeverLong }
{
    let (named, behind) = name(alloc, here)?;
    let behind = behind.behind_assign()?;
    let number = behind.next();
    match number.symbol {
        Symbol::Number { value, width } => {
            let behind = number.rest.behind_semicolon()?;
            let Named { name, at } = named;
            Ok((
                Const {
                    name,
                    value,
                    width,
                    at,
                    number_at: number.at,
                },
                behind,
            ))
        }
        _ => Err(behind.fault()),
    }
}

/// `"(" name ")" regrow {regrow}`, behind a `REG` and the locals that are read.
fn registers<'a>(
    alloc: Global,
    locals: Vec<Local>,
    here: Cursor<'a>,
) -> Result<(Vec<Local>, Cursor<'a>), Fault>
    ensures shorter { IfOk result (λ read. length read.1 < length here.entry) }
    ensures ok { IfOk result (λ read. Registers locals.items here.entry read.0.items read.1) }
    ensures whole { IsWhole (λ v. v.items) (Registers locals.items here.entry) NoName result }
    ensures never { IfErr result NeverLong }
{
    let (clock, behind) = name(alloc, here.behind_open_paren()?)?;
    let (mut locals, mut behind) = register_row(
        alloc,
        &clock,
        locals,
        behind.behind_close_paren()?,
    )?;
    'rows: loop {
        match behind.next().symbol {
            Symbol::Name => {
                let (longer, rest) = register_row(alloc, &clock, locals, behind)?;
                locals = longer;
                behind = rest;
            }
            _ => return Ok((locals, behind)),
        }
    }
}

/// `name {"," name} ":" type ";"`, behind the locals that are read.
fn register_row<'a>(
    alloc: Global,
    clock: &Named,
    mut locals: Vec<Local>,
    here: Cursor<'a>,
) -> Result<(Vec<Local>, Cursor<'a>), Fault>
    ensures shorter { IfOk result (λ read. length read.1 < length here.entry) }
    ensures ok { IfOk result (λ read. RegisterRow clock.now locals.items here.entry read.0.items read.1) }
    ensures whole { IsWhole (λ v. v.items) (RegisterRow clock.now locals.items here.entry) Anywhere result }
    ensures never { IfErr result NeverLong }
{
    let (names, behind) = names(alloc, here)?;
    let (shape, behind) = shape(alloc, behind.behind_colon()?)?;
    let behind = behind.behind_semicolon()?;
    let kind = LocalKind::Reg {
        clock: copy_named(alloc, clock)?,
        shape,
    };
    add_locals(alloc, &kind, &names, &mut locals)?;
    Ok((locals, behind))
}

/// `{name {"," name} ":" (type | name) ";"}`, behind a `VAR` and the locals that are read.
fn variables<'a>(
    alloc: Global,
    locals: Vec<Local>,
    here: Cursor<'a>,
) -> Result<(Vec<Local>, Cursor<'a>), Fault>
    ensures shorter { IfOk result (λ read. length read.1 ≤ length here.entry) }
    ensures ok { IfOk result (λ read. MoreVariables locals.items here.entry read.0.items read.1) }
    ensures whole { IsWhole (λ v. v.items) (MoreVariables locals.items here.entry) NoName result }
    ensures never { IfErr result NeverLong }
{
    let mut locals = locals;
    let mut behind = here;
    'rows: loop {
        match behind.next().symbol {
            Symbol::Name => {
                let (longer, rest) = variable_row(alloc, locals, behind)?;
                locals = longer;
                behind = rest;
            }
            _ => return Ok((locals, behind)),
        }
    }
}

/// `name {"," name} ":" (type | name) ";"`, behind the locals that are read.
fn variable_row<'a>(
    alloc: Global,
    mut locals: Vec<Local>,
    here: Cursor<'a>,
) -> Result<(Vec<Local>, Cursor<'a>), Fault>
    ensures shorter { IfOk result (λ read. length read.1 < length here.entry) }
    ensures ok { IfOk result (λ read. VariableRow locals.items here.entry read.0.items read.1) }
    ensures whole { IsWhole (λ v. v.items) (VariableRow locals.items here.entry) Anywhere result }
    ensures never { IfErr result NeverLong }
{
    let (names, behind) = names(alloc, here)?;
    let (kind, behind) = variable_kind(alloc, behind.behind_colon()?)?;
    let behind = behind.behind_semicolon()?;
    add_locals(alloc, &kind, &names, &mut locals)?;
    Ok((locals, behind))
}

/// `type | name`.
fn variable_kind<'a>(alloc: Global, here: Cursor<'a>) -> Result<(LocalKind, Cursor<'a>), Fault>
    ensures shorter { IfOk result (λ read. length read.1 < length here.entry) }
    ensures ok { IfOk result (λ read. VariableKind here.entry read.0 read.1) }
    ensures whole { IsWhole (λ k. k) (VariableKind here.entry) Anywhere result }
    ensures never { IfErr result NeverLong }
{
    match here.next().symbol {
        Symbol::Name => {
            let (module, behind) = name(alloc, here)?;
            Ok((LocalKind::Inst { module }, behind))
        }
        _ => {
            let (shape, behind) = shape(alloc, here)?;
            Ok((LocalKind::Var { shape }, behind))
        }
    }
}

/// Puts a local of the kind for each name at the end.
fn add_locals(
    alloc: Global,
    kind: &LocalKind,
    names: &[Named],
    locals: &mut Vec<Local>,
) -> Result<(), Fault>
    ensures ok { OnOk result (locals.new.items ≡ locals.old.items ++ map (local_of kind.now) names.now) }
    ensures fails { IfErr result IsWant }
{
    for named in names {
        locals.push(Local {
            kind: copy_kind(alloc, kind)?,
            name: copy_name(alloc, &named.name)?,
            at: named.at,
        })?;
    }
    Ok(())
}
