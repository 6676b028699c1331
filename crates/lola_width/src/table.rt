ghost use Rattle.std.specs.Prelude.{◌≡◌, ℕ, List, Bool, None, IfOk, OnOk};
ghost use Rattle.lola_tree.specs.Names.{entry_name};
ghost use Rattle.lola_tree.specs.Names.{entry_at};
ghost use Rattle.lola_width.specs.NameFaults.{no_names, names_with, comes_first};
ghost use Rattle.lola_width.specs.Table.{entry_of, some_entry, found};

use crate::declared::Declared;
use indexmap::IndexMap;
use lola_bits::Memory;
use std::alloc::Global;

/// The names of a module, each with its earliest declaration.
#[derive(Drop)]
pub struct Table<'a> {
    entries: IndexMap<String, Declared<'a>>,
}

impl<'a> Table<'a> {
    /// The table without a name. Takes no memory.
    pub fn new(alloc: Global) -> Table<'a>
        ensures { found result ≡ no_names }
    {
        Table {
            entries: IndexMap::new(alloc),
        }
    }

    /// What a name is declared as.
    pub fn find(&self, name: &str) -> Option<Declared<'a>>
        ensures { some_entry result ≡ found self.now name.now }
    {
        self.entries.get(name).copied()
    }

    /// Adds a name, unless it is there with an earlier declaration.
    pub fn add(&mut self, alloc: Global, name: &str, declared: Declared<'a>) -> Result<(), Memory>
        ensures { OnOk result (found self.new ≡ names_with (found self.old) name.now (entry_of declared.entry)) }
    {
        if is_earlier(declared, self.find(name)) {
            let name = String::from_str(alloc, name)?;
            self.entries.insert(name, declared)?;
        }
        Ok(())
    }
}

/// The place of a declared name.
pub fn declared_at(declared: Declared) -> u32
    ensures { result ≡ entry_at (entry_of declared.entry) }
{
    match declared {
        Declared::Port(port) => port.at,
        Declared::Const(constant) => constant.at,
        Declared::Local(local) => local.at,
    }
}

/// Whether a declaration stands before another of its name.
fn is_earlier(declared: Declared, other: Option<Declared>) -> bool
    ensures { result ≡ comes_first (entry_of declared.entry) (some_entry other.entry) }
{
    match other {
        Some(other) => declared_at(declared) < declared_at(other),
        None => true,
    }
}
