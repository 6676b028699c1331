ghost use Rattle.std.specs.Prelude.{◌≡◌, OnOk, IfOk, map};
ghost use Rattle.lola_tree.specs.Names.{entry_name, port, constant, local, entries, names_of};
ghost use Rattle.lola_tree.specs.Tree.{module_tree};
ghost use Rattle.lola_width.specs.NameFaults.{no_names, names_with, names_with_all, doubled, doubled_faults};
ghost use Rattle.lola_width.specs.Order.{first_after};
ghost use Rattle.lola_width.specs.Table.{entry_of, some_entry, found};

use crate::declared::Declared;
use crate::fault::{SourceFault, note};
use crate::table::{Table, declared_at};
use lola_bits::{Memory, Name};
use lola_tree::{Const, Local, Module, Port};
use std::alloc::Global;

/// Notes the later of two declarations of a name, of which one is at a place.
fn note_doubled(
    alloc: Global,
    other: Option<Declared>,
    at: u32,
    name: &str,
    first: &mut Option<SourceFault>,
) -> Result<(), Memory>
    ensures { OnOk result (first.new ≡ first_after first.old (doubled (some_entry other.entry) at name.now)) }
{
    match other {
        Some(other) => {
            let at = at.max(declared_at(other));
            let name = Name::new(alloc, name)?;
            note(first, SourceFault::Doubled { at, name });
        }
        None => {}
    }
    Ok(())
}

/// Adds a declaration, and notes where its name is declared already.
#[tactic(auto, using(crate::proofs::Faults::first_append))]
fn declare<'a>(
    alloc: Global,
    table: &mut Table<'a>,
    name: &str,
    at: u32,
    declared: Declared<'a>,
    first: &mut Option<SourceFault>,
) -> Result<(), Memory>
    ensures table { OnOk result (found table.new ≡ names_with (found table.old) name.now (entry_of declared.entry)) }
    ensures first { OnOk result (first.new ≡ first_after first.old (doubled (found table.old name.now) at name.now)) }
{
    note_doubled(alloc, table.find(name), at, name, first)?;
    table.add(alloc, name, declared)
}

fn declare_ports<'a>(
    alloc: Global,
    table: &mut Table<'a>,
    ports: &'a [Port],
    first: &mut Option<SourceFault>,
) -> Result<(), Memory>
    ensures table { OnOk result (found table.new ≡ names_with_all (found table.old) (map port ports.now)) }
    ensures first { OnOk result (first.new ≡ first_after first.old (doubled_faults (found table.old) (map port ports.now))) }
{
    for port in ports {
        declare(
            alloc,
            table,
            port.name.text(),
            port.at,
            Declared::Port(port),
            first,
        )?;
    }
    Ok(())
}

fn declare_consts<'a>(
    alloc: Global,
    table: &mut Table<'a>,
    consts: &'a [Const],
    first: &mut Option<SourceFault>,
) -> Result<(), Memory>
    ensures table { OnOk result (found table.new ≡ names_with_all (found table.old) (map constant consts.now)) }
    ensures first { OnOk result (first.new ≡ first_after first.old (doubled_faults (found table.old) (map constant consts.now))) }
{
    for constant in consts {
        declare(
            alloc,
            table,
            constant.name.text(),
            constant.at,
            Declared::Const(constant),
            first,
        )?;
    }
    Ok(())
}

fn declare_locals<'a>(
    alloc: Global,
    table: &mut Table<'a>,
    locals: &'a [Local],
    first: &mut Option<SourceFault>,
) -> Result<(), Memory>
    ensures table { OnOk result (found table.new ≡ names_with_all (found table.old) (map local locals.now)) }
    ensures first { OnOk result (first.new ≡ first_after first.old (doubled_faults (found table.old) (map local locals.now))) }
{
    for local in locals {
        declare(
            alloc,
            table,
            local.name.text(),
            local.at,
            Declared::Local(local),
            first,
        )?;
    }
    Ok(())
}

/// The names of a module. Notes each that is declared again.
pub fn declared<'a>(
    alloc: Global,
    module: &'a Module,
    first: &mut Option<SourceFault>,
) -> Result<Table<'a>, Memory>
    ensures table { IfOk result (λ table. found table ≡ names_of (module_tree «module».now)) }
    ensures first { OnOk result (first.new ≡ first_after first.old (doubled_faults no_names (entries (module_tree «module».now)))) }
{
    let mut table = Table::new(alloc);
    declare_ports(alloc, &mut table, module.ports.items(), first)?;
    declare_consts(alloc, &mut table, module.consts.items(), first)?;
    declare_locals(alloc, &mut table, module.locals.items(), first)?;
    Ok(table)
}

/// The names of a module, each with its earliest declaration.
pub fn module_names(alloc: Global, module: &Module) -> Result<Table<'_>, Memory>
    ensures { IfOk result (λ table. found table ≡ names_of (module_tree «module».now)) }
{
    let mut first = None;
    declared(alloc, module, &mut first)
}
