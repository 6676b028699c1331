ghost use Rattle.std.specs.Prelude.{◌≡◌, ℕ, List, [], ◌∷◌, None, Option, OnOk, IfSome, ◌<◌};
ghost use Rattle.lola_unfold.specs.Slots.{slot_in, no_slots, slots_with, offset_of, number_from, inner_offset, entrance, base_inside};

use indexmap::IndexMap;
use lola_bits::{Memory, Name};
use std::alloc::Global;

/// What a name of a module is among the module's signals: how many of them stand before it, and for an
/// instance the number of its module.
#[derive(Clone, Copy, Debug)]
pub struct Slot {
    pub offset: u32,
    pub inside: Option<usize>,
}

/// The slots of a module by their names.
#[derive(Drop)]
pub struct Slots {
    entries: IndexMap<String, Slot>,
}

impl Slots {
    /// No slot. Takes no memory.
    pub fn new(alloc: Global) -> Slots
        ensures { slot_in result ≡ no_slots }
    {
        Slots {
            entries: IndexMap::new(alloc),
        }
    }

    /// The slot of a name.
    pub fn find(&self, name: &str) -> Option<Slot>
        ensures { result ≡ slot_in self.now name.now }
    {
        self.entries.get(name).copied()
    }

    /// Adds a slot, unless its name has one.
    pub fn add(&mut self, alloc: Global, name: &str, slot: Slot) -> Result<(), Memory>
        ensures { OnOk result (slot_in self.new ≡ slots_with (slot_in self.old) name.now slot) }
    {
        if self.entries.get(name).is_none() {
            let name = String::from_str(alloc, name)?;
            self.entries.insert(name, slot)?;
        }
        Ok(())
    }
}

/// How many signals of a module stand before the one of a path, which goes through the module's instances.
#[cycle(offset)]
pub fn offset_of(tables: &[Slots], at: usize, path: &[Name]) -> Option<u32>
    ensures { result ≡ offset_of tables.now at path.now }
{
    match path {
        [] => None,
        [name, rest @ ..] => match tables.get(at) {
            Some(slots) => match slots.find(name.text()) {
                Some(slot) => inner_offset(tables, slot, rest),
                None => None,
            },
            None => None,
        },
    }
}

#[cycle(offset)]
fn inner_offset(tables: &[Slots], slot: Slot, rest: &[Name]) -> Option<u32>
    ensures { result ≡ inner_offset slot rest.now (λ at. offset_of tables.now at rest.now) }
{
    match slot.inside {
        Some(at) => match offset_of(tables, at, rest) {
            Some(more) => Some(slot.offset.saturating_add(more)),
            None => None,
        },
        None => {
            if rest.is_empty() {
                Some(slot.offset)
            } else {
                None
            }
        }
    }
}

/// Where the signals of an instance stand among those of a design: the tables of all modules, the number of
/// its module, the number of its first signal, and the number that stands for no signal.
#[derive(Clone, Copy)]
pub struct Base<'a> {
    pub tables: &'a [Slots],
    pub at: usize,
    pub first: u32,
    pub none: u32,
}

/// The number of the signal of a path.
pub fn number_from(base: Base, path: &[Name]) -> u32
    ensures { result ≡ number_from base.entry path.now }
{
    match offset_of(base.tables, base.at, path) {
        Some(offset) => base.first.saturating_add(offset),
        None => base.none,
    }
}

/// The number of the signal of a name.
pub fn name_number(base: Base, name: &str) -> u32
    ensures { result ≡ number_from base.entry (name.now ∷ []) }
{
    match base.tables.get(base.at) {
        Some(slots) => match slots.find(name) {
            Some(slot) => match slot.inside {
                Some(_) => base.none,
                None => base.first.saturating_add(slot.offset),
            },
            None => base.none,
        },
        None => base.none,
    }
}

/// The slot of an instance with the number of its module, which stands before the module that has it.
pub fn entrance(base: Base, name: &str) -> Option<(Slot, usize)>
    ensures found { result ≡ entrance base.entry name.now }
    ensures below { IfSome result (λ found. found.1 < base.entry.at) }
{
    match base.tables.get(base.at) {
        Some(slots) => match slots.find(name) {
            Some(slot) => match slot.inside {
                Some(at) if at < base.at => Some((slot, at)),
                _ => None,
            },
            None => None,
        },
        None => None,
    }
}

/// Where the signals of an instance stand whose slot is this one, with the number of its module.
pub fn base_inside<'a>(base: Base<'a>, slot: Slot, at: usize) -> Base<'a>
    ensures { result ≡ base_inside base.entry slot at }
{
    Base {
        tables: base.tables,
        at,
        first: base.first.saturating_add(slot.offset),
        none: base.none,
    }
}
