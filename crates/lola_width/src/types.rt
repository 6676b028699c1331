ghost use Rattle.std.specs.Prelude.{◌≡◌, OnOk};
ghost use Rattle.lola_width.specs.NameFaults.{shape_faults, may_count, array_faults, type_faults, port_faults, no_clock, module_faults, kind_faults, local_faults};
ghost use Rattle.lola_width.specs.Order.{first_after};
ghost use Rattle.lola_width.specs.Table.{found, seen_in};
ghost use Rattle.lola_tree.specs.Width.{place_width, checked_place};

use crate::counts::{count_number, note_count};
use crate::fault::{SourceFault, note};
use crate::interface::Modules;
use crate::names::ModuleClock;
use crate::statements::note_other;
use crate::table::Table;
use lola_bits::{Memory, Name};
use lola_tree::{Count, Local, LocalKind, Named, Port, Shape};
use std::alloc::Global;

/// The width of the places of an array with so many elements: k where they are 2 to k, for k from 1
/// to 10.
pub fn place_width(elements: u128) -> Option<u32>
    ensures { result ≡ place_width elements }
{
    match elements {
        2 => Some(1),
        4 => Some(2),
        8 => Some(3),
        16 => Some(4),
        32 => Some(5),
        64 => Some(6),
        128 => Some(7),
        256 => Some(8),
        512 => Some(9),
        1024 => Some(10),
        _ => None,
    }
}

/// Whether an array may have so many elements, as far as the number is known.
fn may_count(elements: Option<u128>) -> bool
    ensures { result ≡ may_count elements (checked_place elements) }
{
    match elements {
        Some(elements) => place_width(elements).is_some(),
        None => true,
    }
}

/// Notes the names in a type that are no constants.
#[tactic(auto, using(crate::proofs::Faults::first_append))]
fn note_shape(
    alloc: Global,
    table: &Table,
    shape: &Shape,
    first: &mut Option<SourceFault>,
) -> Result<(), Memory>
    ensures { OnOk result (first.new ≡ first_after first.old (shape_faults (found table.now) shape.now)) }
{
    match shape {
        Shape::Vector { width } => note_count(alloc, table, width, first),
        Shape::Array { count, width } => {
            note_count(alloc, table, count, first)?;
            note_count(alloc, table, width, first)
        }
    }
}

/// Notes an array that isn't a register, or whose number of elements doesn't do.
fn note_array(
    alloc: Global,
    table: &Table,
    is_register: bool,
    at: u32,
    name: &str,
    shape: &Shape,
    first: &mut Option<SourceFault>,
) -> Result<(), Memory>
    ensures { OnOk result (first.new ≡ first_after first.old (array_faults (found table.now) is_register at name.now shape.now)) }
{
    match shape {
        Shape::Vector { width: _ } => {}
        Shape::Array { count, width: _ } => {
            if !is_register || !may_count(count_number(table, count)) {
                let name = Name::new(alloc, name)?;
                note(first, SourceFault::ArrayShape { at, name });
            }
        }
    }
    Ok(())
}

/// Notes the faults of names in the type of a declared name.
#[tactic(auto, using(crate::proofs::Faults::first_append))]
fn note_type(
    alloc: Global,
    table: &Table,
    is_register: bool,
    at: u32,
    name: &str,
    shape: &Shape,
    first: &mut Option<SourceFault>,
) -> Result<(), Memory>
    ensures { OnOk result (first.new ≡ first_after first.old (type_faults (found table.now) is_register at name.now shape.now)) }
{
    note_shape(alloc, table, shape, first)?;
    note_array(alloc, table, is_register, at, name, shape, first)
}

/// Notes the faults of names in the types of ports.
pub fn note_ports(
    alloc: Global,
    table: &Table,
    ports: &[Port],
    first: &mut Option<SourceFault>,
) -> Result<(), Memory>
    ensures { OnOk result (first.new ≡ first_after first.old (port_faults (found table.now) ports.now)) }
{
    for port in ports {
        note_type(
            alloc,
            table,
            false,
            port.at,
            port.name.text(),
            &port.shape,
            first,
        )?;
    }
    Ok(())
}

/// Notes what stands where the clock of a register should, and isn't it.
fn note_no_clock(
    alloc: Global,
    table: &Table,
    clock: &ModuleClock,
    named: &Named,
    first: &mut Option<SourceFault>,
) -> Result<(), Memory>
    ensures { OnOk result (first.new ≡ first_after first.old (no_clock (found table.now) clock.now.name named.now.at named.now.name (found table.now named.now.name))) }
{
    match table.find(named.name.text()) {
        Some(_) => note_other(clock, named.at, named.name.text(), first),
        None => {
            let name = Name::new(alloc, named.name.text())?;
            note(first, SourceFault::Unknown { at: named.at, name });
        }
    }
    Ok(())
}

/// Notes the name of a module that is none of an earlier one.
fn note_module(
    alloc: Global,
    modules: &Modules,
    of: &Named,
    first: &mut Option<SourceFault>,
) -> Result<(), Memory>
    ensures { OnOk result (first.new ≡ first_after first.old (module_faults of.now (seen_in modules.now of.now.name))) }
{
    if modules.pins(of.name.text()).is_none() {
        let name = Name::new(alloc, of.name.text())?;
        note(first, SourceFault::Unknown { at: of.at, name });
    }
    Ok(())
}

/// Notes the faults of names in what a local name is declared as.
#[tactic(auto, using(crate::proofs::Faults::first_append))]
fn note_local(
    alloc: Global,
    table: &Table,
    modules: &Modules,
    clock: &ModuleClock,
    local: &Local,
    first: &mut Option<SourceFault>,
) -> Result<(), Memory>
    ensures { OnOk result (first.new ≡ first_after first.old (kind_faults (found table.now) (seen_in modules.now) clock.now.name local.now.at local.now.name local.now.kind)) }
{
    let name = local.name.text();
    match &local.kind {
        LocalKind::Reg {
            clock: under,
            shape,
        } => {
            note_no_clock(alloc, table, clock, under, first)?;
            note_type(alloc, table, true, local.at, name, shape, first)
        }
        LocalKind::Var { shape } => note_type(alloc, table, false, local.at, name, shape, first),
        LocalKind::Inst { module } => note_module(alloc, modules, module, first),
    }
}

/// Notes the faults of names in the declarations of local names.
pub fn note_locals(
    alloc: Global,
    table: &Table,
    modules: &Modules,
    clock: &ModuleClock,
    locals: &[Local],
    first: &mut Option<SourceFault>,
) -> Result<(), Memory>
    ensures { OnOk result (first.new ≡ first_after first.old (local_faults (found table.now) (seen_in modules.now) clock.now.name locals.now)) }
{
    for local in locals {
        note_local(alloc, table, modules, clock, local, first)?;
    }
    Ok(())
}
