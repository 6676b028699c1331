ghost use Rattle.std.specs.Prelude.{◌≡◌, ℕ, suc, List, [], ◌∷◌, OnOk, IfOk, map, flat_map, sum, reverse};
ghost use Rattle.lola_tree.specs.declared.module.Local.{Local as LocalTree};
ghost use Rattle.lola_tree.specs.declared.module.Port.{Port as PortTree};
ghost use Rattle.lola_tree.specs.Tree.{module_tree, source_tree, ModuleTree};
ghost use Rattle.lola_tree.specs.design.Signals.{elements, kind_height, locals_height, root_height, height, size};
ghost use Rattle.lola_width.specs.Table.{found};
ghost use Rattle.lola_unfold.specs.Slots.{capped};
ghost use Rattle.lola_unfold.specs.Tables.{calls_in, args_or_none, clocks_found, clocks_with, clocks_by, no_clock};
ghost use Rattle.lola_unfold.specs.Measured.{Knows, IsOutline, outline_of, outline_ports, outline_size, outline_height, port_size, kind_size, root_size};

use crate::calls::{Calls, calls_of};
use crate::clocks::{Clocks, add_passed};
use crate::known::{Known, Outline};
use lola_bits::Memory;
use lola_tree::{Local, LocalKind, Module, Port, Shape, Source, Way};
use lola_width::{Table, count_number, module_names};
use std::alloc::Global;

/// A number, or the greatest of 32 bits in place of a greater one.
fn capped(value: u128) -> u32
    ensures { result ≡ capped value }
{
    if value < 4294967295 {
        value as u32
    } else {
        4294967295
    }
}

/// How many elements a type has.
fn elements(names: &Table, shape: &Shape) -> u32
    ensures { result ≡ capped (elements (found names.now) shape.now) }
{
    match shape {
        Shape::Vector { width: _ } => 1,
        Shape::Array { count, width: _ } => match count_number(names, count) {
            Some(value) => capped(value),
            None => 0,
        },
    }
}

/// How many elements a port adds.
fn port_size(names: &Table, clocks: &Clocks, port: &Port) -> u32
    ensures { result ≡ capped (port_size (found names.now) (clocks_found clocks.now) port.now) }
{
    if port.way == Way::Inward && clocks.has(port.name.text()) {
        0
    } else {
        elements(names, &port.shape)
    }
}

/// How many a local name adds: an instance is one besides its signals.
fn kind_size(names: &Table, known: &Known, kind: &LocalKind) -> u32
    ensures { result ≡ capped (kind_size (λ name. outline_size (outline_of known.now name)) (found names.now) kind.now) }
{
    match kind {
        LocalKind::Reg { clock: _, shape } => elements(names, shape),
        LocalKind::Var { shape } => elements(names, shape),
        LocalKind::Inst { module } => known.size(module.name.text()).saturating_add(1),
    }
}

fn ports_size(names: &Table, clocks: &Clocks, ports: &[Port]) -> u32
    ensures { result ≡ capped (sum (map (port_size (found names.now) (clocks_found clocks.now)) ports.now)) }
{
    let mut size = 0u32;
    for port in ports {
        size = size.saturating_add(port_size(names, clocks, port));
    }
    size
}

fn locals_size(names: &Table, known: &Known, locals: &[Local]) -> u32
    ensures { result ≡ capped (sum (map (λ (l : LocalTree). kind_size (λ name. outline_size (outline_of known.now name)) (found names.now) l.kind) locals.now)) }
{
    let mut size = 0u32;
    for local in locals {
        size = size.saturating_add(kind_size(names, known, &local.kind));
    }
    size
}

/// How deep the module of a local name is.
fn kind_height(known: &Known, kind: &LocalKind) -> u32
    ensures { result ≡ kind_height (λ name. outline_height (outline_of known.now name)) kind.now }
{
    match kind {
        LocalKind::Inst { module } => known.height(module.name.text()),
        _ => 0,
    }
}

/// How deep the deepest is.
fn inner_height(known: &Known, locals: &[Local]) -> u32
    ensures { result ≡ locals_height (λ name. outline_height (outline_of known.now name)) locals.now }
{
    let mut height = 0u32;
    for local in locals {
        height = height.max(kind_height(known, &local.kind));
    }
    height
}

/// Adds the clocks that a local name has.
fn add_kind_clocks(
    alloc: Global,
    clocks: &mut Clocks,
    known: &Known,
    calls: &Calls,
    name: &str,
    kind: &LocalKind,
) -> Result<(), Memory>
    ensures { OnOk result (clocks_found clocks.new ≡ clocks_with (clocks_found clocks.old) (clocks_by (λ other. outline_ports (outline_of known.now other)) (λ other. args_or_none (calls_in calls.now other)) name.now kind.now)) }
{
    match kind {
        LocalKind::Reg { clock, shape: _ } => clocks.add(alloc, clock.name.text()),
        LocalKind::Var { shape: _ } => Ok(()),
        LocalKind::Inst { module } => add_passed(
            alloc,
            clocks,
            known.ports(module.name.text()),
            calls.args(name),
        ),
    }
}

/// The clocks of a module.
pub(crate) fn clocks_of(
    alloc: Global,
    known: &Known,
    calls: &Calls,
    locals: &[Local],
) -> Result<Clocks, Memory>
    ensures { IfOk result (λ clocks. clocks_found clocks ≡ clocks_with no_clock (flat_map (λ (l : LocalTree). clocks_by (λ other. outline_ports (outline_of known.now other)) (λ other. args_or_none (calls_in calls.now other)) l.name l.kind) locals.now)) }
{
    let mut clocks = Clocks::new(alloc);
    for local in locals {
        add_kind_clocks(
            alloc,
            &mut clocks,
            known,
            calls,
            local.name.text(),
            &local.kind,
        )?;
    }
    Ok(clocks)
}

/// For each port whether it is a clock.
fn port_clocks(alloc: Global, clocks: &Clocks, ports: &[Port]) -> Result<Vec<bool>, Memory>
    ensures { IfOk result (λ flags. flags.items ≡ map (λ (p : PortTree). clocks_found clocks.now p.name) ports.now) }
{
    let mut flags = Vec::new(alloc);
    for port in ports {
        flags.push(clocks.has(port.name.text()))?;
    }
    Ok(flags)
}

/// The outline of a module, where the modules before it are known.
pub(crate) fn outline(alloc: Global, known: &Known, module: &Module) -> Result<Outline, Memory>
    ensures { IfOk result (λ o. (earlier : List ModuleTree) → Knows known.now earlier → IsOutline o earlier (module_tree «module».now)) }
{
    let names = module_names(alloc, module)?;
    let calls = calls_of(alloc, module)?;
    let clocks = clocks_of(alloc, known, &calls, module.locals.items())?;
    let ports = ports_size(&names, &clocks, module.ports.items());
    Ok(Outline {
        clocks: port_clocks(alloc, &clocks, module.ports.items())?,
        size: ports.saturating_add(locals_size(&names, known, module.locals.items())),
        height: inner_height(known, module.locals.items()).saturating_add(1),
    })
}

/// What is known of some modules.
fn known_of(alloc: Global, modules: &[Module]) -> Result<Known, Memory>
    ensures { IfOk result (λ known. Knows known (reverse (map module_tree modules.now))) }
{
    let mut known = Known::new(alloc);
    for module in modules {
        let outline = outline(alloc, &known, module)?;
        known.add(alloc, module.name.text(), outline)?;
    }
    Ok(known)
}

/// How deep modules stand in a design, and how many signals, each element of an array counted, and instances
/// it has. The numbers stand still at their greatest.
#[derive(Clone, Copy, Debug)]
pub struct Extent {
    pub height: u32,
    pub size: u32,
}

/// The extent of a root behind other modules.
fn root_extent(alloc: Global, known: &Known, root: &Module) -> Result<Extent, Memory>
    ensures height { IfOk result (λ made. (earlier : List ModuleTree) → Knows known.now earlier → made.height ≡ capped (root_height (module_tree root.now ∷ earlier))) }
    ensures size { IfOk result (λ made. (earlier : List ModuleTree) → Knows known.now earlier → made.size ≡ capped (root_size (module_tree root.now ∷ earlier))) }
{
    let names = module_names(alloc, root)?;
    let none = Clocks::new(alloc);
    let ports = ports_size(&names, &none, root.ports.items());
    Ok(Extent {
        size: ports.saturating_add(locals_size(&names, known, root.locals.items())),
        height: inner_height(known, root.locals.items()).saturating_add(1),
    })
}

/// The extent of a root behind other modules, the last of some.
#[tactic(auto, using(crate::proofs::Sizes::last_turned))]
fn modules_extent(alloc: Global, modules: &[Module]) -> Result<Extent, Memory>
    ensures height { IfOk result (λ made. made.height ≡ capped (root_height (reverse (map module_tree modules.now)))) }
    ensures size { IfOk result (λ made. made.size ≡ capped (root_size (reverse (map module_tree modules.now)))) }
{
    match modules {
        [] => Ok(Extent { height: 0, size: 0 }),
        [earlier @ .., root] => {
            let known = known_of(alloc, earlier)?;
            root_extent(alloc, &known, root)
        }
    }
}

/// The height and the size of a design. Each module is looked at once, however many instances it has. Memory
/// where there isn't enough for the tables of names.
pub fn extent_of(alloc: Global, source: &Source) -> Result<Extent, Memory>
    ensures height { IfOk result (λ made. made.height ≡ capped (height (source_tree source.now))) }
    ensures size { IfOk result (λ made. made.size ≡ capped (size (source_tree source.now))) }
{
    modules_extent(alloc, source.modules.items())
}
