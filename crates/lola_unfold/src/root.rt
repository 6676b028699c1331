ghost use Rattle.std.specs.Prelude.{◌≡◌, ◌≤◌, List, [], ◌∷◌, OnOk, IfOk, map, length, reverse};
ghost use Rattle.lola_tree.specs.Tree.{module_tree, source_tree, ModuleTree};
ghost use Rattle.lola_tree.specs.design.Places.{Place};
ghost use Rattle.lola_design.specs.Once.{AllOnce};
ghost use Rattle.lola_flat.specs.Tree.{flat_tree, signal_tree};
ghost use Rattle.lola_flat.specs.Numbers.{first_numbers};
ghost use Rattle.lola_unfold.specs.Tables.{clocks_found};
ghost use Rattle.lola_unfold.specs.Translated.{Numbers};
ghost use Rattle.lola_unfold.specs.Pieces.{made_tree, grow};
ghost use Rattle.lola_unfold.specs.Flat.{flat_design};
ghost use Rattle.lola_unfold.specs.Parts.{Stands, AreLaid, IsSurvey};
ghost use Rattle.lola_unfold.specs.Root.{IsRoot, root_piece_of, IsReady, all_made, all_signals, first_clock, design_of, IsRootTable, IsRootMade};

use crate::add::add_root_ports;
use crate::clocks::Clocks;
use crate::fill::fill_body;
use crate::finish::finished;
use crate::layout::layout_of;
use crate::made::Made;
use crate::pads::own_pads;
use crate::part::{Part, part_of};
use crate::site::Site;
use crate::slots::{Base, Slots};
use crate::survey::{Survey, survey_of};
use crate::walk::walk_locals;
use lola_bits::{Memory, Name, Seq};
use lola_flat::{Flat, Signal};
use lola_tree::{Module, Port, Source, Way};
use smallvec::SmallVec;
use std::alloc::Global;

/// What the root and all that stands in it add.
fn walk_root<'a, 't>(
    alloc: Global,
    made: &mut Made,
    parts: &[Part<'a>],
    part: &Part<'a>,
    site: &Site<'a, 't>,
) -> Result<(), Memory>
    ensures { OnOk result ((N : Numbers) (E : List ModuleTree) (a : Place) → Stands N parts.now site.now part.now E a → IsRoot a → made_tree made.new ≡ grow (made_tree made.old) (root_piece_of N E a)) }
{
    add_root_ports(alloc, made, part, site, part.declared.ports.items())?;
    fill_body(alloc, made, part, site, part.declared.body.items())?;
    walk_locals(alloc, made, parts, part, site)?;
    Ok(())
}

/// The name of the clock among the ports of the root.
fn clock_of(alloc: Global, clocks: &Clocks, ports: &[Port]) -> Result<Option<Name>, Memory>
    ensures { IfOk result (λ clock. clock ≡ first_clock (clocks_found clocks.now) ports.now) }
{
    for port in ports {
        if port.way == Way::Inward && clocks.has(port.name.text()) {
            return Ok(Some(Name::new(alloc, port.name.text())?));
        }
    }
    Ok(None)
}

/// The numbers from 0 on, so many.
fn first_numbers(alloc: Global, count: usize) -> Result<Seq<u32>, Memory>
    ensures { IfOk result (λ numbers. numbers ≡ first_numbers count) }
{
    let mut numbers = Seq::new(alloc);
    for number in 0..count {
        match u32::try_from(number) {
            Ok(number) => numbers.push(number)?,
            Err(_) => return Err(Memory),
        }
    }
    Ok(numbers)
}

/// All signals of a root that stands behind some modules, with what gives them their values. `count` says how
/// many they are.
fn made_at<'a, 't>(
    alloc: Global,
    tables: &'t [Slots],
    parts: &[Part<'a>],
    part: &Part<'a>,
    at: usize,
    count: u32,
) -> Result<Made, Memory>
    ensures { IfOk result (λ made. (E : List ModuleTree) (m : ModuleTree) → IsReady tables.now parts.now part.now at count E m → count ≤ 65536 → made_tree made ≡ all_made count (m ∷ E)) }
{
    let base = Base {
        tables,
        at,
        first: 0,
        none: count,
    };
    let pads = own_pads(alloc, base, part.declared.ports.items())?;
    let site = Site {
        base,
        path: SmallVec::new(alloc),
        pads,
    };
    let mut made = Made::new(alloc, count)?;
    walk_root(alloc, &mut made, parts, part, &site)?;
    Ok(made)
}

/// The signals of a design, with what gives them their values and next values, where its root stands behind some
/// modules and all of them are known.
pub(crate) fn design_signals<'a, 't>(
    alloc: Global,
    tables: &'t [Slots],
    parts: &[Part<'a>],
    part: &Part<'a>,
    at: usize,
    count: u32,
) -> Result<Vec<Signal>, Memory>
    ensures { IfOk result (λ signals. (E : List ModuleTree) (m : ModuleTree) → IsReady tables.now parts.now part.now at count E m → count ≤ 65536 → map signal_tree signals.items ≡ all_signals (m ∷ E)) }
{
    let made = made_at(alloc, tables, parts, part, at, count)?;
    let signals = finished(alloc, made)?;
    Ok(signals)
}

/// The number of the module behind those that have tables.
fn number(tables: &[Slots]) -> usize
    ensures { result ≡ length tables.now }
{
    tables.len()
}

/// Adds the table of the root, whose clock is a signal, and answers how many signals its design has.
fn add_root(alloc: Global, survey: &mut Survey, root: &Module) -> Result<u32, Memory>
    ensures tables { IfOk result (λ count. (E : List ModuleTree) → AreLaid survey.old E → IsRootTable survey.new.tables.items E (module_tree root.now) count) }
    ensures parts { survey.new.parts ≡ survey.old.parts }
{
    let shown = Clocks::new(alloc);
    let layout = layout_of(alloc, &survey.inners, &shown, root)?;
    let count = layout.count;
    survey.tables.push(layout.slots)?;
    Ok(count)
}

/// The name of the clock of a root, and the signals of its design, where what stands before it is known. No design
/// comes here that has more than 65,536 signals.
fn root_signals<'a>(
    alloc: Global,
    survey: &mut Survey<'a>,
    root: &'a Module,
) -> Result<(Option<Name>, Vec<Signal>), Memory>
    ensures { IfOk result (λ made. (E : List ModuleTree) → IsSurvey survey.old E → AllOnce (module_tree root.now ∷ E) → IsRootMade (module_tree root.now ∷ E) made.0 made.1.items) }
{
    let part = part_of(alloc, &survey.known, root)?;
    let at = number(survey.tables.as_slice());
    let count = add_root(alloc, survey, root)?;
    if count > 65536 {
        return Err(Memory);
    }
    let clock = clock_of(alloc, &part.clocks, root.ports.items())?;
    let tables = survey.tables.as_slice();
    let parts = survey.parts.as_slice();
    let signals = design_signals(alloc, tables, parts, &part, at, count)?;
    Ok((clock, signals))
}

/// The same of a root behind some modules.
fn made_root<'a>(
    alloc: Global,
    earlier: &'a [Module],
    root: &'a Module,
) -> Result<(Option<Name>, Vec<Signal>), Memory>
    ensures { IfOk result (λ made. AllOnce (module_tree root.now ∷ reverse (map module_tree earlier.now)) → IsRootMade (module_tree root.now ∷ reverse (map module_tree earlier.now)) made.0 made.1.items) }
{
    let mut survey = survey_of(alloc, earlier)?;
    let made = root_signals(alloc, &mut survey, root)?;
    Ok(made)
}

/// The flat design of a root behind some modules, but for the order of its equations.
fn root_design<'a>(alloc: Global, earlier: &'a [Module], root: &'a Module) -> Result<Flat, Memory>
    ensures flat { IfOk result (λ flat. AllOnce (module_tree root.now ∷ reverse (map module_tree earlier.now)) → flat_tree flat ≡ design_of (module_tree root.now ∷ reverse (map module_tree earlier.now))) }
    ensures few { IfOk result (λ flat. AllOnce (module_tree root.now ∷ reverse (map module_tree earlier.now)) → length flat.signals ≤ 65536) }
{
    let (clock, signals) = made_root(alloc, earlier, root)?;
    let name = Name::new(alloc, root.name.text())?;
    let ports = first_numbers(alloc, root.ports.items().len())?;
    Ok(Flat {
        root: name,
        clock,
        ports,
        signals: Seq::of(signals),
        order: Seq::new(alloc),
    })
}

/// The flat design of no module.
fn no_design(alloc: Global) -> Result<Flat, Memory>
    ensures flat { IfOk result (λ flat. flat_tree flat ≡ design_of []) }
    ensures few { IfOk result (λ flat. length flat.signals ≤ 65536) }
{
    Ok(Flat {
        root: Name::new(alloc, "")?,
        clock: None,
        ports: Seq::new(alloc),
        signals: Seq::new(alloc),
        order: Seq::new(alloc),
    })
}

/// That of some modules, of which the last is the root.
#[tactic(auto, using(crate::proofs::Sizes::last_turned))]
fn modules_design(alloc: Global, modules: &[Module]) -> Result<Flat, Memory>
    ensures flat { IfOk result (λ flat. AllOnce (reverse (map module_tree modules.now)) → flat_tree flat ≡ design_of (reverse (map module_tree modules.now))) }
    ensures few { IfOk result (λ flat. AllOnce (reverse (map module_tree modules.now)) → length flat.signals ≤ 65536) }
{
    match modules {
        [] => no_design(alloc),
        [earlier @ .., root] => root_design(alloc, earlier, root),
    }
}

/// The flat design of a source, but for the order of its equations.
pub(crate) fn unordered(alloc: Global, source: &Source) -> Result<Flat, Memory>
    ensures flat { IfOk result (λ flat. AllOnce (reverse (source_tree source.now).modules) → flat_tree flat ≡ flat_design (source_tree source.now) []) }
    ensures few { IfOk result (λ flat. AllOnce (reverse (source_tree source.now).modules) → length flat.signals ≤ 65536) }
{
    let flat = modules_design(alloc, source.modules.items())?;
    Ok(flat)
}
