ghost use Rattle.std.specs.Prelude.{◌≡◌, OnOk, map};
ghost use Rattle.std.specs.Option.{option_copied};
ghost use Rattle.lola_tree.specs.Tree.{tree, actual_tree, stmt_tree};
ghost use Rattle.lola_width.specs.NameFaults.{use_faults, other_clock, bare_faults, clock_faults, way_faults, arg_faults, args_faults, stmt_faults, body_faults};
ghost use Rattle.lola_width.specs.Interface.{bare_name};
ghost use Rattle.lola_width.specs.Order.{first_after};
ghost use Rattle.lola_width.specs.Table.{found, seen_in};

use crate::counts::{bare_name, ref_name};
use crate::fault::{SourceFault, note};
use crate::interface::{Modules, Pin, first_pin, instance_pins, later_pins, listed};
use crate::names::{ModuleClock, note_names};
use crate::table::Table;
use crate::uses::{Use, note_use};
use lola_bits::Memory;
use lola_tree::{Actual, Stmt, Way};
use std::alloc::Global;

/// Notes an argument of an OUT or INOUT port that is no bare name, or one that doesn't suit.
#[tactic(auto, using(crate::proofs::Faults::first_append))]
fn note_bare(
    alloc: Global,
    table: &Table,
    clock: &ModuleClock,
    used: Use,
    arg: &Actual,
    first: &mut Option<SourceFault>,
) -> Result<(), Memory>
    ensures { OnOk result (first.new ≡ first_after first.old (bare_faults (found table.now) clock.now.name used (actual_tree arg.now) (bare_name (tree arg.now.value)))) }
{
    match bare_name(&arg.value) {
        Some(of) => note_use(alloc, table, used, of.at, ref_name(of), first),
        None => {
            note_names(alloc, table, clock, &arg.value, first)?;
            note(first, SourceFault::Kind { at: arg.at });
            Ok(())
        }
    }
}

/// Notes another name than the clock where it should stand.
pub fn note_other(clock: &ModuleClock, at: u32, name: &str, first: &mut Option<SourceFault>)
    ensures { first.new ≡ first_after first.old (other_clock clock.now.name at name.now) }
{
    if !clock.is(name) {
        note(first, SourceFault::Clock { at });
    }
}

/// Notes an argument of a clock port that isn't the clock.
#[tactic(auto, using(crate::proofs::Faults::first_append))]
fn note_clock_arg(
    alloc: Global,
    table: &Table,
    clock: &ModuleClock,
    arg: &Actual,
    first: &mut Option<SourceFault>,
) -> Result<(), Memory>
    ensures { OnOk result (first.new ≡ first_after first.old (clock_faults (found table.now) clock.now.name (actual_tree arg.now) (bare_name (tree arg.now.value)))) }
{
    match bare_name(&arg.value) {
        Some(of) => {
            note_use(alloc, table, Use::Value, of.at, ref_name(of), first)?;
            note_other(clock, of.at, ref_name(of), first);
            Ok(())
        }
        None => {
            note_names(alloc, table, clock, &arg.value, first)?;
            note(first, SourceFault::Clock { at: arg.at });
            Ok(())
        }
    }
}

fn note_way(
    alloc: Global,
    table: &Table,
    clock: &ModuleClock,
    way: Way,
    arg: &Actual,
    first: &mut Option<SourceFault>,
) -> Result<(), Memory>
    ensures { OnOk result (first.new ≡ first_after first.old (way_faults (found table.now) clock.now.name way (actual_tree arg.now))) }
{
    match way {
        Way::Inward => note_names(alloc, table, clock, &arg.value, first),
        Way::Outward => note_bare(alloc, table, clock, Use::Receiver, arg, first),
        Way::Both => note_bare(alloc, table, clock, Use::Pad, arg, first),
    }
}

/// Notes the faults of names in an argument, by the port that it is for.
fn note_arg(
    alloc: Global,
    table: &Table,
    clock: &ModuleClock,
    pin: Option<Pin>,
    arg: &Actual,
    first: &mut Option<SourceFault>,
) -> Result<(), Memory>
    ensures { OnOk result (first.new ≡ first_after first.old (arg_faults (found table.now) clock.now.name pin (actual_tree arg.now))) }
{
    match pin {
        Some(pin) => {
            if pin.clock {
                note_clock_arg(alloc, table, clock, arg, first)
            } else {
                note_way(alloc, table, clock, pin.way, arg, first)
            }
        }
        None => note_names(alloc, table, clock, &arg.value, first),
    }
}

#[tactic(auto, using(crate::proofs::Faults::first_append))]
fn note_args(
    alloc: Global,
    table: &Table,
    clock: &ModuleClock,
    args: &[Actual],
    pins: &[Pin],
    first: &mut Option<SourceFault>,
) -> Result<(), Memory>
    ensures { OnOk result (first.new ≡ first_after first.old (args_faults (found table.now) clock.now.name (map actual_tree args.now) pins.now)) }
{
    let mut rest = pins;
    for arg in args {
        note_arg(alloc, table, clock, first_pin(rest), arg, first)?;
        rest = later_pins(rest);
    }
    Ok(())
}

/// Notes the faults of names in a statement.
#[tactic(auto, using(crate::proofs::Faults::first_append))]
fn note_stmt(
    alloc: Global,
    table: &Table,
    modules: &Modules,
    clock: &ModuleClock,
    stmt: &Stmt,
    first: &mut Option<SourceFault>,
) -> Result<(), Memory>
    ensures { OnOk result (first.new ≡ first_after first.old (stmt_faults (found table.now) (seen_in modules.now) clock.now.name (stmt_tree stmt.now))) }
{
    match stmt {
        Stmt::Assign {
            name,
            place: None,
            value,
            at,
            equals: _,
        } => {
            note_use(alloc, table, Use::Assigned, *at, name.text(), first)?;
            note_names(alloc, table, clock, value, first)
        }
        Stmt::Assign {
            name,
            place: Some(place),
            value,
            at,
            equals: _,
        } => {
            note_use(alloc, table, Use::ElementAssigned, *at, name.text(), first)?;
            note_names(alloc, table, clock, &place.value, first)?;
            note_names(alloc, table, clock, value, first)
        }
        Stmt::Call { name, args, at } => {
            note_use(alloc, table, Use::Called, *at, name.text(), first)?;
            let pins = listed(instance_pins(table, modules, name.text()));
            note_args(alloc, table, clock, args.items(), pins, first)
        }
        Stmt::Pad {
            io,
            inner,
            value,
            release,
            at: _,
        } => {
            note_use(alloc, table, Use::Pad, io.at, io.name.text(), first)?;
            note_use(
                alloc,
                table,
                Use::Receiver,
                inner.at,
                inner.name.text(),
                first,
            )?;
            note_names(alloc, table, clock, &value.value, first)?;
            note_names(alloc, table, clock, &release.value, first)
        }
    }
}

/// Notes the faults of names in the statements of a module.
#[tactic(auto, using(crate::proofs::Faults::first_append))]
pub fn note_body(
    alloc: Global,
    table: &Table,
    modules: &Modules,
    clock: &ModuleClock,
    body: &[Stmt],
    first: &mut Option<SourceFault>,
) -> Result<(), Memory>
    ensures { OnOk result (first.new ≡ first_after first.old (body_faults (found table.now) (seen_in modules.now) clock.now.name (map stmt_tree body.now))) }
{
    for stmt in body {
        note_stmt(alloc, table, modules, clock, stmt, first)?;
    }
    Ok(())
}
