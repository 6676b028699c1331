ghost use Rattle.std.specs.Prelude.{◌≡◌, ℕ, List, Bool, None, OnOk, IfOk};
ghost use Rattle.std.specs.Option.{option_copied};
ghost use Rattle.lola_width.specs.Interface.{no_module, kind_pins, instance_pins, listed, first_pin, later_pins, seen_with};
ghost use Rattle.lola_width.specs.Table.{found, seen_in};

use crate::declared::Declared;
use crate::table::Table;
use indexmap::IndexMap;
use lola_bits::Memory;
use lola_tree::{LocalKind, Way};
use std::alloc::Global;

/// A port as the modules behind its own see it.
#[derive(Clone, Copy, Debug)]
pub struct Pin {
    pub way: Way,
    /// Its width in bits, where that is defined.
    pub width: Option<u32>,
    /// It is the clock of its module.
    pub clock: bool,
}

/// The ports of the modules that stand before one, by the modules' names.
#[derive(Drop)]
pub struct Modules {
    entries: IndexMap<String, Vec<Pin>>,
}

impl Modules {
    /// No module. Takes no memory.
    pub fn new(alloc: Global) -> Modules
        ensures { seen_in result ≡ no_module }
    {
        Modules {
            entries: IndexMap::new(alloc),
        }
    }

    /// The ports of the module of a name.
    pub fn pins(&self, name: &str) -> Option<&[Pin]>
        ensures { option_copied result ≡ seen_in self.now name.now }
    {
        match self.entries.get(name) {
            Some(pins) => Some(pins.as_slice()),
            None => None,
        }
    }

    /// Adds a module, unless there is one of its name.
    pub fn add(&mut self, alloc: Global, name: &str, pins: Vec<Pin>) -> Result<(), Memory>
        ensures { OnOk result (seen_in self.new ≡ seen_with (seen_in self.old) name.now pins.items) }
    {
        if self.entries.get(name).is_none() {
            let name = String::from_str(alloc, name)?;
            self.entries.insert(name, pins)?;
        }
        Ok(())
    }
}

/// The ports of what a name is an instance of.
pub fn instance_pins<'a>(table: &Table, modules: &'a Modules, name: &str) -> Option<&'a [Pin]>
    ensures { option_copied result ≡ instance_pins (seen_in modules.now) (found table.now name.now) }
{
    match table.find(name) {
        Some(Declared::Local(local)) => match &local.kind {
            LocalKind::Inst { module } => modules.pins(module.name.text()),
            _ => None,
        },
        _ => None,
    }
}

/// The ports, where they are known.
pub fn listed(pins: Option<&[Pin]>) -> &[Pin]
    ensures { result.now ≡ listed (option_copied pins.entry) }
{
    match pins {
        Some(pins) => pins,
        None => &[],
    }
}

/// The port of the next argument.
pub fn first_pin(pins: &[Pin]) -> Option<Pin>
    ensures { result ≡ first_pin pins.now }
{
    match pins {
        [pin, ..] => Some(*pin),
        [] => None,
    }
}

/// The ports of the arguments behind it.
pub fn later_pins(pins: &[Pin]) -> &[Pin]
    ensures { result.now ≡ later_pins pins.now }
{
    match pins {
        [_, later @ ..] => later,
        [] => pins,
    }
}
