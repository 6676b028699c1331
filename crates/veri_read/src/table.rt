ghost use Rattle.std.specs.Prelude.{◌≡◌, ◌<◌, [], length, OnOk, Some, slice_get};
ghost use Rattle.veri_read.specs.Tables.{find, has, put};
ghost use Rattle.veri_read.specs.Held.{listed};

use indexmap::IndexMap;
use lola_bits::Memory;
use std::alloc::Global;

/// Names of a text with what is known of each, in the order in which they came.
#[derive(Drop)]
pub struct Table<'a, V> {
    entries: IndexMap<&'a str, V>,
}

impl<'a, V: Copy> Table<'a, V> {
    /// The table without a name. Takes no memory.
    pub(crate) fn new(alloc: Global) -> Table<'a, V>
        ensures { listed result ≡ [] }
    {
        Table {
            entries: IndexMap::new(alloc),
        }
    }

    /// What is known of a name.
    pub(crate) fn find(&self, name: &str) -> Option<V>
        ensures { result ≡ find (listed self.now) name.now }
    {
        self.entries.get(name).copied()
    }

    /// Whether a name is there.
    pub(crate) fn has(&self, name: &str) -> bool
        ensures { result ≡ has (listed self.now) name.now }
    {
        self.find(name).is_some()
    }

    /// Puts a name behind the others; one that is there takes the new value.
    pub(crate) fn put(&mut self, name: &'a str, value: V) -> Result<(), Memory>
        ensures { OnOk result (listed self.new ≡ put (listed self.old) name.now value) }
    {
        self.entries.insert(name, value)?;
        Ok(())
    }

    /// How many names there are.
    pub(crate) fn len(&self) -> usize
        ensures { result ≡ length (listed self.now) }
    {
        self.entries.len()
    }

    /// The name at a place, with what is known of it.
    pub(crate) fn at(&self, place: usize) -> (&'a str, V)
        requires { place < length (listed self.now) }
        ensures { slice_get (listed self.now) place ≡ Some (result.0.now, result.1) }
    {
        match self.entries.get_index(place) {
            Some((name, value)) => (*name, *value),
            None => unreachable!(),
        }
    }
}
