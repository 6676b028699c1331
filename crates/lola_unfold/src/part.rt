ghost use Rattle.std.specs.Prelude.{◌≡◌, ℕ, List, OnOk, IfOk};
ghost use Rattle.lola_tree.specs.Tree.{module_tree, ModuleTree};
ghost use Rattle.lola_tree.specs.Signals.{name_of_register, register_names};
ghost use Rattle.lola_unfold.specs.Tables.{clocks_found, clocks_with, no_clock};
ghost use Rattle.lola_unfold.specs.Measured.{Knows};
ghost use Rattle.lola_unfold.specs.Parts.{IsPart};

use crate::calls::{Calls, calls_of};
use crate::clocks::Clocks;
use crate::known::Known;
use crate::measure::clocks_of;
use lola_bits::Memory;
use lola_tree::{Local, LocalKind, Module};
use lola_width::{Table, module_names};
use std::alloc::Global;

/// What is known of a module: what its names stand for, the calls of its instances, its clocks and its
/// registers.
#[derive(Drop)]
pub(crate) struct Part<'a> {
    pub(crate) declared: &'a Module,
    pub(crate) names: Table<'a>,
    pub(crate) calls: Calls<'a>,
    pub(crate) clocks: Clocks,
    pub(crate) registers: Clocks,
}

/// Adds a local name that is a register.
fn add_register(
    alloc: Global,
    registers: &mut Clocks,
    name: &str,
    kind: &LocalKind,
) -> Result<(), Memory>
    ensures { OnOk result (clocks_found registers.new ≡ clocks_with (clocks_found registers.old) (name_of_register kind.now name.now)) }
{
    match kind {
        LocalKind::Reg { clock: _, shape: _ } => registers.add(alloc, name),
        LocalKind::Var { shape: _ } => Ok(()),
        LocalKind::Inst { module: _ } => Ok(()),
    }
}

/// The registers among some local names.
fn registers_of(alloc: Global, locals: &[Local]) -> Result<Clocks, Memory>
    ensures { IfOk result (λ registers. clocks_found registers ≡ clocks_with no_clock (register_names locals.now)) }
{
    let mut registers = Clocks::new(alloc);
    for local in locals {
        add_register(alloc, &mut registers, local.name.text(), &local.kind)?;
    }
    Ok(registers)
}

/// What is known of a module, where the modules before it are known.
pub(crate) fn part_of<'a>(
    alloc: Global,
    known: &Known,
    module: &'a Module,
) -> Result<Part<'a>, Memory>
    ensures { IfOk result (λ part. (earlier : List ModuleTree) → Knows known.now earlier → IsPart part earlier (module_tree «module».now)) }
{
    let names = module_names(alloc, module)?;
    let calls = calls_of(alloc, module)?;
    let clocks = clocks_of(alloc, known, &calls, module.locals.items())?;
    let registers = registers_of(alloc, module.locals.items())?;
    Ok(Part {
        declared: module,
        names,
        calls,
        clocks,
        registers,
    })
}
