ghost use Rattle.std.specs.Prelude.{◌≡◌, IfOk, map};
ghost use Rattle.std.specs.Option.{option_copied};
ghost use Rattle.lola_tree.specs.Tree.{tree, actual_tree, stmt_tree, module_tree};
ghost use Rattle.lola_width.specs.Interface.{is_one, is_bit, is_clock_port, clock_named, kind_clock, locals_clock, bare_clock, arg_clock, args_clock, stmt_clock, body_clock, module_clock};
ghost use Rattle.lola_width.specs.Table.{found, seen_in};

use crate::counts::{bare_name, count_number, ref_name};
use crate::declared::Declared;
use crate::interface::{Modules, Pin, first_pin, instance_pins, later_pins, listed};
use crate::names::ModuleClock;
use crate::table::Table;
use lola_bits::{Memory, Name};
use lola_tree::{Actual, Expr, Local, LocalKind, Module, Ref, Shape, Stmt, Way};
use std::alloc::Global;

/// Whether a type is one bit, however it is written.
fn is_bit(table: &Table, shape: &Shape) -> bool
    ensures { result ≡ is_bit (found table.now) shape.now }
{
    match shape {
        Shape::Vector { width } => match count_number(table, width) {
            Some(width) => width == 1,
            None => false,
        },
        Shape::Array { count: _, width: _ } => false,
    }
}

/// Whether a name is that of an IN port of one bit.
fn is_clock_port(table: &Table, name: &str) -> bool
    ensures { result ≡ is_clock_port (found table.now) (found table.now name.now) }
{
    match table.find(name) {
        Some(Declared::Port(port)) => port.way == Way::Inward && is_bit(table, &port.shape),
        _ => false,
    }
}

/// A name that may be a clock, where it is used as one.
fn clock_named(alloc: Global, table: &Table, name: &str) -> Result<Option<Name>, Memory>
    ensures { IfOk result (λ clock. clock ≡ clock_named (found table.now) name.now) }
{
    if is_clock_port(table, name) {
        Ok(Some(Name::new(alloc, name)?))
    } else {
        Ok(None)
    }
}

fn kind_clock(alloc: Global, table: &Table, kind: &LocalKind) -> Result<Option<Name>, Memory>
    ensures { IfOk result (λ clock. clock ≡ kind_clock (found table.now) kind.now) }
{
    match kind {
        LocalKind::Reg { clock, shape: _ } => clock_named(alloc, table, clock.name.text()),
        _ => Ok(None),
    }
}

/// The first clock of a register.
fn locals_clock(alloc: Global, table: &Table, locals: &[Local]) -> Result<Option<Name>, Memory>
    ensures { IfOk result (λ clock. clock ≡ locals_clock (found table.now) locals.now) }
{
    for local in locals {
        match kind_clock(alloc, table, &local.kind)? {
            Some(clock) => return Ok(Some(clock)),
            None => {}
        }
    }
    Ok(None)
}

/// The clock that is the argument of a clock port.
fn arg_clock(
    alloc: Global,
    table: &Table,
    pin: Option<Pin>,
    arg: &Expr,
) -> Result<Option<Name>, Memory>
    ensures { IfOk result (λ clock. clock ≡ arg_clock (found table.now) pin (tree arg.now)) }
{
    match pin {
        Some(pin) => {
            if pin.clock {
                bare_clock(alloc, table, bare_name(arg))
            } else {
                Ok(None)
            }
        }
        None => Ok(None),
    }
}

fn bare_clock(alloc: Global, table: &Table, of: Option<&Ref>) -> Result<Option<Name>, Memory>
    ensures { IfOk result (λ clock. clock ≡ bare_clock (found table.now) (option_copied of.entry)) }
{
    match of {
        Some(of) => clock_named(alloc, table, ref_name(of)),
        None => Ok(None),
    }
}

/// The first clock among the arguments of a call.
fn args_clock(
    alloc: Global,
    table: &Table,
    args: &[Actual],
    pins: &[Pin],
) -> Result<Option<Name>, Memory>
    ensures { IfOk result (λ clock. clock ≡ args_clock (found table.now) (map actual_tree args.now) pins.now) }
{
    let mut rest = pins;
    for arg in args {
        match arg_clock(alloc, table, first_pin(rest), &arg.value)? {
            Some(clock) => return Ok(Some(clock)),
            None => {}
        }
        rest = later_pins(rest);
    }
    Ok(None)
}

fn stmt_clock(
    alloc: Global,
    table: &Table,
    modules: &Modules,
    stmt: &Stmt,
) -> Result<Option<Name>, Memory>
    ensures { IfOk result (λ clock. clock ≡ stmt_clock (found table.now) (seen_in modules.now) (stmt_tree stmt.now)) }
{
    match stmt {
        Stmt::Call { name, args, at: _ } => {
            let pins = listed(instance_pins(table, modules, name.text()));
            args_clock(alloc, table, args.items(), pins)
        }
        _ => Ok(None),
    }
}

/// The first clock among the calls.
fn body_clock(
    alloc: Global,
    table: &Table,
    modules: &Modules,
    body: &[Stmt],
) -> Result<Option<Name>, Memory>
    ensures { IfOk result (λ clock. clock ≡ body_clock (found table.now) (seen_in modules.now) (map stmt_tree body.now)) }
{
    for stmt in body {
        match stmt_clock(alloc, table, modules, stmt)? {
            Some(clock) => return Ok(Some(clock)),
            None => {}
        }
    }
    Ok(None)
}

/// The clock of a module: the first name that may be one and is used as one.
pub fn module_clock(
    alloc: Global,
    table: &Table,
    modules: &Modules,
    module: &Module,
) -> Result<ModuleClock, Memory>
    ensures { IfOk result (λ clock. clock.name ≡ module_clock (found table.now) (seen_in modules.now) (module_tree «module».now)) }
{
    let name = match locals_clock(alloc, table, module.locals.items())? {
        Some(clock) => Some(clock),
        None => body_clock(alloc, table, modules, module.body.items())?,
    };
    Ok(ModuleClock { name })
}
