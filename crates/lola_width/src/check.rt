//! The first fault of a source, found in one walk over its modules.
//!
//! The rules have three stages (names, widths, assignments), and a fault of an earlier stage comes first
//! wherever it stands. The plain way is three walks that end at the first fault; but each of them needs the
//! tables of names, which would have to be made three times or kept for all modules. Another is to gather
//! all faults and sort them, which takes memory for each. Here the three stages of a module are checked one
//! behind another while its table is at hand, and of the faults only the least so far is kept, by stage,
//! place and kind (`note`). So the order in which rules are checked doesn't show in the answer, and what a
//! function does to the least fault so far is told by the list of the faults that it looks for
//! (`first_after`).
//!
//! It costs time near linear in the size of the source: each use of a name is one look-up in a hashed
//! table, and the width of each expression is found once, from its parts upwards. Memory is for the names
//! of the module at hand and the ports of the modules before it. A source with a fault in its names pays
//! for the other stages too; it is a text that somebody is about to mend.
ghost use Rattle.std.specs.Prelude.{◌≡◌, ◌≢◌, map, Some, IfOk, OnOk, IfErr};
ghost use Rattle.lola_tree.specs.Tree.{module_tree, source_tree};
ghost use Rattle.lola_width.specs.declared.fault.SourceFault.TheVariants.{Memory as NoMemory};
ghost use Rattle.lola_width.specs.Interface.{pin_of, pins_of};
ghost use Rattle.lola_width.specs.NameFaults.{title_faults, end_faults, used_faults};
ghost use Rattle.lola_width.specs.Order.{first_after};
ghost use Rattle.lola_width.specs.Sized.{faults_in, faults_from, seen_after, IsWellSized, first_fault};
ghost use Rattle.lola_width.specs.Table.{found, seen_in};

use crate::clock::module_clock;
use crate::declarations::declared;
use crate::fault::{SourceFault, note};
use crate::interface::{Modules, Pin};
use crate::names::ModuleClock;
use crate::statements::note_body;
use crate::table::Table;
use crate::targets::note_assignments;
use crate::types::{note_locals, note_ports};
use crate::width_stage::note_module_widths;
use crate::widths::vector_width;
use lola_bits::{Memory, Name};
use lola_tree::{Module, Port, Source};
use std::alloc::Global;

/// Notes a module whose name an earlier one has.
fn note_title(
    alloc: Global,
    modules: &Modules,
    module: &Module,
    first: &mut Option<SourceFault>,
) -> Result<(), Memory>
    ensures { OnOk result (first.new ≡ first_after first.old (title_faults (seen_in modules.now «module».now.name) (module_tree «module».now))) }
{
    if modules.pins(module.name.text()).is_some() {
        let name = Name::new(alloc, module.name.text())?;
        note(
            first,
            SourceFault::Doubled {
                at: module.at,
                name,
            },
        );
    }
    Ok(())
}

/// Notes another name than the module's behind its END.
fn note_end(module: &Module, first: &mut Option<SourceFault>)
    ensures { first.new ≡ first_after first.old (end_faults (module_tree «module».now)) }
{
    if module.ends.name.text() != module.name.text() {
        let at = module.ends.at;
        note(first, SourceFault::Kind { at });
    }
}

/// A port as the modules behind its own see it.
fn pin_of(table: &Table, clock: &ModuleClock, port: &Port) -> Pin
    ensures { result ≡ pin_of (found table.now) clock.now.name port.now }
{
    Pin {
        way: port.way,
        width: vector_width(table, &port.shape),
        clock: clock.is(port.name.text()),
    }
}

fn pins_of(
    alloc: Global,
    table: &Table,
    clock: &ModuleClock,
    ports: &[Port],
) -> Result<Vec<Pin>, Memory>
    ensures { IfOk result (λ pins. pins.items ≡ pins_of (found table.now) clock.now.name ports.now) }
{
    let mut pins = Vec::new(alloc);
    for port in ports {
        pins.push(pin_of(table, clock, port))?;
    }
    Ok(pins)
}

/// Notes what is used as what it isn't in a module.
#[tactic(auto, using(crate::proofs::Faults::first_append))]
fn note_module_names(
    alloc: Global,
    table: &Table,
    modules: &Modules,
    clock: &ModuleClock,
    module: &Module,
    first: &mut Option<SourceFault>,
) -> Result<(), Memory>
    ensures { OnOk result (first.new ≡ first_after first.old (used_faults (found table.now) (seen_in modules.now) clock.now.name (module_tree «module».now))) }
{
    note_ports(alloc, table, module.ports.items(), first)?;
    note_locals(alloc, table, modules, clock, module.locals.items(), first)?;
    note_body(alloc, table, modules, clock, module.body.items(), first)?;
    note_end(module, first);
    Ok(())
}

/// Notes the faults of a module, and adds it to those that were seen.
fn check_module(
    alloc: Global,
    modules: &mut Modules,
    module: &Module,
    first: &mut Option<SourceFault>,
) -> Result<(), Memory>
    ensures seen { OnOk result (seen_in modules.new ≡ seen_after (seen_in modules.old) (module_tree «module».now)) }
    ensures first { OnOk result (first.new ≡ first_after first.old (faults_in (seen_in modules.old) (module_tree «module».now))) }
{
    note_title(alloc, modules, module, first)?;
    let table = declared(alloc, module, first)?;
    let clock = module_clock(alloc, &table, modules, module)?;
    note_module_names(alloc, &table, modules, &clock, module, first)?;
    note_module_widths(&table, modules, module, first);
    note_assignments(alloc, &table, modules, module, first)?;
    let pins = pins_of(alloc, &table, &clock, module.ports.items())?;
    modules.add(alloc, module.name.text(), pins)?;
    Ok(())
}

/// Notes the faults of modules, each behind those before it.
fn check_modules(
    alloc: Global,
    modules: &mut Modules,
    list: &[Module],
    first: &mut Option<SourceFault>,
) -> Result<(), Memory>
    ensures { OnOk result (first.new ≡ first_after first.old (faults_from (seen_in modules.old) (map module_tree list.now))) }
{
    for module in list {
        check_module(alloc, modules, module, first)?;
    }
    Ok(())
}

/// The first fault of a source, if there is one.
fn first_of(alloc: Global, source: &Source) -> Result<Option<SourceFault>, Memory>
    ensures { IfOk result (λ first. first ≡ first_fault (source_tree source.now)) }
{
    let mut first = None;
    let mut modules = Modules::new(alloc);
    check_modules(alloc, &mut modules, source.modules.items(), &mut first)?;
    Ok(first)
}

/// Whether a source is well sized: no rule of names, widths and assignments is broken. Else the first
/// fault by stage (names, widths, assignments), then by place, then by kind in this order: Doubled, Unknown,
/// Kind, ArrayShape, Clock; TooWide, Width, IndexRange, PortCount; NotAssigned, AssignedTwice. Memory where
/// there isn't enough for the tables of names.
pub fn sizes(alloc: Global, source: &Source) -> Result<(), SourceFault>
    ensures ok { OnOk result (IsWellSized (source_tree source.now)) }
    ensures fault { IfErr result (λ fault. fault ≢ NoMemory → first_fault (source_tree source.now) ≡ Some fault) }
{
    match first_of(alloc, source)? {
        None => Ok(()),
        Some(fault) => Err(fault),
    }
}
