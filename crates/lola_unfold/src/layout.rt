ghost use Rattle.std.specs.Prelude.{◌≡◌, ℕ, List, None, Some, ◌∷◌, [], OnOk, IfOk, cond, bytes_eq, flat_map};
ghost use Rattle.lola_tree.specs.Tree.{module_tree};
ghost use Rattle.lola_unfold.specs.Tables.{clocks_found};
ghost use Rattle.lola_unfold.specs.Measured.{is_hidden};
ghost use Rattle.lola_unfold.specs.Offsets.{inner_in, laid_in, no_laid, lay, port_items, kind_items, local_items, laid_of};

use crate::clocks::Clocks;
use crate::slots::{Slot, Slots};
use indexmap::IndexMap;
use lola_bits::Memory;
use lola_tree::{Local, LocalKind, Module, Port, Way};
use std::alloc::Global;

/// The module of an instance: its number, and how many signals it has.
#[derive(Clone, Copy, Debug)]
pub struct Inner {
    pub at: usize,
    pub count: u32,
}

/// The modules before one, by their names. Of two of one name the later counts.
#[derive(Drop)]
pub struct Inners {
    entries: IndexMap<String, Inner>,
}

impl Inners {
    /// No module. Takes no memory.
    pub fn new(alloc: Global) -> Inners
        ensures { (name : List ℕ) → inner_in result name ≡ None }
    {
        Inners {
            entries: IndexMap::new(alloc),
        }
    }

    /// The module of a name.
    pub fn find(&self, name: &str) -> Option<Inner>
        ensures { result ≡ inner_in self.now name.now }
    {
        self.entries.get(name).copied()
    }

    /// Adds a module.
    pub fn add(&mut self, alloc: Global, name: &str, inner: Inner) -> Result<(), Memory>
        ensures { OnOk result ((other : List ℕ) → inner_in self.new other ≡ cond (bytes_eq name.now other) (Some inner) (inner_in self.old other)) }
    {
        let name = String::from_str(alloc, name)?;
        self.entries.insert(name, inner)?;
        Ok(())
    }
}

/// The slots of a module in the making, and how many signals they are for.
#[derive(Drop)]
pub struct Layout {
    pub slots: Slots,
    pub count: u32,
}

/// Adds a name with so many signals.
fn add_item(
    alloc: Global,
    layout: &mut Layout,
    name: &str,
    inside: Option<usize>,
    count: u32,
) -> Result<(), Memory>
    ensures { OnOk result (laid_in layout.new ≡ lay (laid_in layout.old) (record { name = name.now; inside = inside; count = count } ∷ [])) }
{
    let slot = Slot {
        offset: layout.count,
        inside,
    };
    layout.slots.add(alloc, name, slot)?;
    layout.count = layout.count.saturating_add(count);
    Ok(())
}

fn add_port(alloc: Global, layout: &mut Layout, clocks: &Clocks, port: &Port) -> Result<(), Memory>
    ensures { OnOk result (laid_in layout.new ≡ lay (laid_in layout.old) (port_items (clocks_found clocks.now) port.now)) }
{
    if port.way == Way::Inward && clocks.has(port.name.text()) {
        Ok(())
    } else {
        add_item(alloc, layout, port.name.text(), None, 1)
    }
}

fn add_kind(
    alloc: Global,
    layout: &mut Layout,
    inners: &Inners,
    name: &str,
    kind: &LocalKind,
) -> Result<(), Memory>
    ensures { OnOk result (laid_in layout.new ≡ lay (laid_in layout.old) (kind_items (inner_in inners.now) name.now kind.now)) }
{
    match kind {
        LocalKind::Reg { clock: _, shape: _ } => add_item(alloc, layout, name, None, 1),
        LocalKind::Var { shape: _ } => add_item(alloc, layout, name, None, 1),
        LocalKind::Inst { module } => match inners.find(module.name.text()) {
            Some(inner) => add_item(alloc, layout, name, Some(inner.at), inner.count),
            None => Ok(()),
        },
    }
}

fn add_ports(
    alloc: Global,
    layout: &mut Layout,
    clocks: &Clocks,
    ports: &[Port],
) -> Result<(), Memory>
    ensures { OnOk result (laid_in layout.new ≡ lay (laid_in layout.old) (flat_map (port_items (clocks_found clocks.now)) ports.now)) }
{
    for port in ports {
        add_port(alloc, layout, clocks, port)?;
    }
    Ok(())
}

fn add_locals(
    alloc: Global,
    layout: &mut Layout,
    inners: &Inners,
    locals: &[Local],
) -> Result<(), Memory>
    ensures { OnOk result (laid_in layout.new ≡ lay (laid_in layout.old) (flat_map (local_items (inner_in inners.now)) locals.now)) }
{
    for local in locals {
        add_kind(alloc, layout, inners, local.name.text(), &local.kind)?;
    }
    Ok(())
}

/// The slots of a module, where some of its ports are no signals since they are clocks.
pub fn layout_of(
    alloc: Global,
    inners: &Inners,
    clocks: &Clocks,
    module: &Module,
) -> Result<Layout, Memory>
    ensures { IfOk result (λ layout. laid_in layout ≡ laid_of (clocks_found clocks.now) (inner_in inners.now) (module_tree «module».now)) }
{
    let mut layout = Layout {
        slots: Slots::new(alloc),
        count: 0,
    };
    add_ports(alloc, &mut layout, clocks, module.ports.items())?;
    add_locals(alloc, &mut layout, inners, module.locals.items())?;
    Ok(layout)
}
