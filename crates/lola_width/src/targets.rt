ghost use Rattle.std.specs.Prelude.{◌≡◌, OnOk, IfOk, map};
ghost use Rattle.std.specs.Option.{option_copied};
ghost use Rattle.lola_tree.specs.Tree.{tree, actual_tree, stmt_tree, module_tree};
ghost use Rattle.lola_width.specs.Interface.{bare_name};
ghost use Rattle.lola_width.specs.AssignmentFaults.{bare_target, arg_targets, args_targets, stmt_targets, body_targets, none_taken, taken_with, taken_with_all, again, twice, never_taken, port_never, ports_never, locals_never, assignment_faults};
ghost use Rattle.lola_width.specs.Order.{first_after};
ghost use Rattle.lola_width.specs.Table.{found, seen_in, taken_in};

use crate::counts::{bare_name, ref_name};
use crate::fault::{SourceFault, note};
use crate::interface::{Modules, Pin, first_pin, instance_pins, later_pins, listed};
use crate::table::Table;
use indexmap::IndexSet;
use lola_bits::{Memory, Name};
use lola_tree::{Actual, Expr, Local, Module, Port, Stmt, Way};
use std::alloc::Global;

/// The names that were targets.
#[derive(Drop)]
struct Targets {
    names: IndexSet<String>,
}

impl Targets {
    fn new(alloc: Global) -> Targets
        ensures { taken_in result ≡ none_taken }
    {
        Targets {
            names: IndexSet::new(alloc),
        }
    }

    /// Whether a name was a target.
    fn has(&self, name: &str) -> bool
        ensures { result ≡ taken_in self.now name.now }
    {
        self.names.contains(name)
    }

    fn add(&mut self, alloc: Global, name: &str) -> Result<(), Memory>
        ensures { OnOk result (taken_in self.new ≡ taken_with (taken_in self.old) name.now) }
    {
        let name = String::from_str(alloc, name)?;
        let _is_new = self.names.insert(name)?;
        Ok(())
    }
}

/// Takes a target, and notes where it was one before.
fn take(
    alloc: Global,
    targets: &mut Targets,
    at: u32,
    name: &str,
    first: &mut Option<SourceFault>,
) -> Result<(), Memory>
    ensures taken { OnOk result (taken_in targets.new ≡ taken_with (taken_in targets.old) name.now) }
    ensures first { OnOk result (first.new ≡ first_after first.old (again (taken_in targets.old) at name.now)) }
{
    if targets.has(name) {
        let name = Name::new(alloc, name)?;
        note(first, SourceFault::AssignedTwice { at, name });
    }
    targets.add(alloc, name)
}

/// Takes the argument of an OUT or INOUT port.
fn take_bare(
    alloc: Global,
    targets: &mut Targets,
    arg: &Expr,
    first: &mut Option<SourceFault>,
) -> Result<(), Memory>
    ensures taken { OnOk result (taken_in targets.new ≡ taken_with_all (taken_in targets.old) (bare_target (bare_name (tree arg.now)))) }
    ensures first { OnOk result (first.new ≡ first_after first.old (twice (taken_in targets.old) (bare_target (bare_name (tree arg.now))))) }
{
    match bare_name(arg) {
        Some(of) => take(alloc, targets, of.at, ref_name(of), first),
        None => Ok(()),
    }
}

fn take_arg(
    alloc: Global,
    targets: &mut Targets,
    pin: Option<Pin>,
    arg: &Expr,
    first: &mut Option<SourceFault>,
) -> Result<(), Memory>
    ensures taken { OnOk result (taken_in targets.new ≡ taken_with_all (taken_in targets.old) (arg_targets pin (tree arg.now))) }
    ensures first { OnOk result (first.new ≡ first_after first.old (twice (taken_in targets.old) (arg_targets pin (tree arg.now)))) }
{
    match pin {
        Some(pin) => {
            if pin.way == Way::Inward {
                Ok(())
            } else {
                take_bare(alloc, targets, arg, first)
            }
        }
        None => Ok(()),
    }
}

fn take_args(
    alloc: Global,
    targets: &mut Targets,
    args: &[Actual],
    pins: &[Pin],
    first: &mut Option<SourceFault>,
) -> Result<(), Memory>
    ensures taken { OnOk result (taken_in targets.new ≡ taken_with_all (taken_in targets.old) (args_targets (map actual_tree args.now) pins.now)) }
    ensures first { OnOk result (first.new ≡ first_after first.old (twice (taken_in targets.old) (args_targets (map actual_tree args.now) pins.now))) }
{
    let mut rest = pins;
    for arg in args {
        take_arg(alloc, targets, first_pin(rest), &arg.value, first)?;
        rest = later_pins(rest);
    }
    Ok(())
}

/// Takes what a statement sets or calls.
fn take_stmt(
    alloc: Global,
    table: &Table,
    modules: &Modules,
    targets: &mut Targets,
    stmt: &Stmt,
    first: &mut Option<SourceFault>,
) -> Result<(), Memory>
    ensures taken { OnOk result (taken_in targets.new ≡ taken_with_all (taken_in targets.old) (stmt_targets (found table.now) (seen_in modules.now) (stmt_tree stmt.now))) }
    ensures first { OnOk result (first.new ≡ first_after first.old (twice (taken_in targets.old) (stmt_targets (found table.now) (seen_in modules.now) (stmt_tree stmt.now)))) }
{
    match stmt {
        Stmt::Assign {
            name,
            place: _,
            value: _,
            at,
            equals: _,
        } => take(alloc, targets, *at, name.text(), first),
        Stmt::Call { name, args, at } => {
            take(alloc, targets, *at, name.text(), first)?;
            let pins = listed(instance_pins(table, modules, name.text()));
            take_args(alloc, targets, args.items(), pins, first)?;
            Ok(())
        }
        Stmt::Pad {
            io,
            inner,
            value: _,
            release: _,
            at: _,
        } => {
            take(alloc, targets, io.at, io.name.text(), first)?;
            take(alloc, targets, inner.at, inner.name.text(), first)?;
            Ok(())
        }
    }
}

/// Takes all targets of a module.
fn take_body(
    alloc: Global,
    table: &Table,
    modules: &Modules,
    targets: &mut Targets,
    body: &[Stmt],
    first: &mut Option<SourceFault>,
) -> Result<(), Memory>
    ensures taken { OnOk result (taken_in targets.new ≡ taken_with_all (taken_in targets.old) (body_targets (found table.now) (seen_in modules.now) (map stmt_tree body.now))) }
    ensures first { OnOk result (first.new ≡ first_after first.old (twice (taken_in targets.old) (body_targets (found table.now) (seen_in modules.now) (map stmt_tree body.now)))) }
{
    for stmt in body {
        take_stmt(alloc, table, modules, targets, stmt, first)?;
    }
    Ok(())
}

/// Notes a name that never was a target.
fn note_never_taken(
    alloc: Global,
    targets: &Targets,
    at: u32,
    name: &str,
    first: &mut Option<SourceFault>,
) -> Result<(), Memory>
    ensures { OnOk result (first.new ≡ first_after first.old (never_taken (taken_in targets.now) at name.now)) }
{
    if !targets.has(name) {
        let name = Name::new(alloc, name)?;
        note(first, SourceFault::NotAssigned { at, name });
    }
    Ok(())
}

fn note_port_never(
    alloc: Global,
    targets: &Targets,
    port: &Port,
    first: &mut Option<SourceFault>,
) -> Result<(), Memory>
    ensures { OnOk result (first.new ≡ first_after first.old (port_never (taken_in targets.now) port.now)) }
{
    if port.way == Way::Inward {
        Ok(())
    } else {
        note_never_taken(alloc, targets, port.at, port.name.text(), first)
    }
}

fn note_ports_never(
    alloc: Global,
    targets: &Targets,
    ports: &[Port],
    first: &mut Option<SourceFault>,
) -> Result<(), Memory>
    ensures { OnOk result (first.new ≡ first_after first.old (ports_never (taken_in targets.now) ports.now)) }
{
    for port in ports {
        note_port_never(alloc, targets, port, first)?;
    }
    Ok(())
}

fn note_locals_never(
    alloc: Global,
    targets: &Targets,
    locals: &[Local],
    first: &mut Option<SourceFault>,
) -> Result<(), Memory>
    ensures { OnOk result (first.new ≡ first_after first.old (locals_never (taken_in targets.now) locals.now)) }
{
    for local in locals {
        note_never_taken(alloc, targets, local.at, local.name.text(), first)?;
    }
    Ok(())
}

/// Notes the faults of assignments of a module.
#[tactic(auto, using(crate::proofs::Faults::first_append))]
pub fn note_assignments(
    alloc: Global,
    table: &Table,
    modules: &Modules,
    module: &Module,
    first: &mut Option<SourceFault>,
) -> Result<(), Memory>
    ensures { OnOk result (first.new ≡ first_after first.old (assignment_faults (found table.now) (seen_in modules.now) (module_tree «module».now))) }
{
    let mut targets = Targets::new(alloc);
    take_body(
        alloc,
        table,
        modules,
        &mut targets,
        module.body.items(),
        first,
    )?;
    note_ports_never(alloc, &targets, module.ports.items(), first)?;
    note_locals_never(alloc, &targets, module.locals.items(), first)?;
    Ok(())
}
