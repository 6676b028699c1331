ghost use Rattle.std.specs.Prelude.{◌≡◌, List, OnOk, IfOk, ◌∷◌, [], map};
ghost use Rattle.lola_tree.specs.Tree.{tree, actual_tree};
ghost use Rattle.lola_unfold.specs.Slots.{number_from};
ghost use Rattle.lola_unfold.specs.Tables.{pads_found, no_pads, pads_with, pads_with_all, pad_number, way_numbers, own_numbers, passed_numbers};

use crate::clocks::bare_name;
use crate::slots::{Base, name_number};
use indexmap::IndexMap;
use lola_bits::Memory;
use lola_tree::{Actual, Port, Way};
use std::alloc::Global;

/// The numbers of the pads of the root that the INOUT ports of a module stand for, by their names. Every
/// other name has the number that stands for no signal.
#[derive(Drop)]
pub(crate) struct Pads {
    entries: IndexMap<String, u32>,
    none: u32,
}

impl Pads {
    fn new(alloc: Global, none: u32) -> Pads
        ensures found { pads_found result ≡ no_pads }
        ensures none { result.none ≡ none }
    {
        Pads {
            entries: IndexMap::new(alloc),
            none,
        }
    }

    /// The number of the pad that a port stands for.
    pub(crate) fn number(&self, name: &str) -> u32
        ensures { result ≡ pad_number self.now name.now }
    {
        match self.entries.get(name).copied() {
            Some(number) => number,
            None => self.none,
        }
    }

    fn add(&mut self, alloc: Global, name: &str, number: u32) -> Result<(), Memory>
        ensures found { OnOk result (pads_found self.new ≡ pads_with (pads_found self.old) name.now number) }
        ensures none { self.new.none ≡ self.old.none }
    {
        if self.entries.get(name).is_none() {
            let name = String::from_str(alloc, name)?;
            self.entries.insert(name, number)?;
        }
        Ok(())
    }
}

/// Adds an INOUT port.
fn add_port(alloc: Global, pads: &mut Pads, port: &Port, number: u32) -> Result<(), Memory>
    ensures found { OnOk result (pads_found pads.new ≡ pads_with_all (pads_found pads.old) (way_numbers port.now.way port.now.name number)) }
    ensures none { pads.new.none ≡ pads.old.none }
{
    match port.way {
        Way::Inward => Ok(()),
        Way::Outward => Ok(()),
        Way::Both => pads.add(alloc, port.name.text(), number),
    }
}

/// The INOUT ports of the root are pads.
pub(crate) fn own_pads(alloc: Global, base: Base, ports: &[Port]) -> Result<Pads, Memory>
    ensures found { IfOk result (λ pads. pads_found pads ≡ pads_with_all no_pads (own_numbers (λ name. number_from base.entry (name ∷ [])) ports.now)) }
    ensures none { IfOk result (λ pads. pads.none ≡ base.entry.none) }
{
    let mut pads = Pads::new(alloc, base.none);
    for port in ports {
        add_port(alloc, &mut pads, port, name_number(base, port.name.text()))?;
    }
    Ok(pads)
}

/// The INOUT ports of an instance stand for what their arguments stand for at its caller.
pub(crate) fn passed_pads(
    alloc: Global,
    outer: &Pads,
    ports: &[Port],
    args: &[Actual],
) -> Result<Pads, Memory>
    ensures found { IfOk result (λ pads. pads_found pads ≡ pads_with_all no_pads (passed_numbers (pad_number outer.now) ports.now (map actual_tree args.now))) }
    ensures none { IfOk result (λ pads. pads.none ≡ outer.now.none) }
{
    let mut pads = Pads::new(alloc, outer.none);
    for at in 0..ports.len().min(args.len()) {
        let number = outer.number(bare_name(&args[at].value));
        add_port(alloc, &mut pads, &ports[at], number)?;
    }
    Ok(pads)
}
