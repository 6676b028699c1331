ghost use Rattle.std.specs.Prelude.{◌≡◌, OnOk};
ghost use Rattle.veri_text.specs.Names.{taken_in, none_taken, taken_with};

use indexmap::IndexSet;
use lola_bits::Memory;
use std::alloc::Global;

/// A set of names.
#[derive(Drop)]
pub(crate) struct Names {
    names: IndexSet<String>,
}

impl Names {
    /// The set without a name.
    pub(crate) fn new(alloc: Global) -> Names
        ensures { taken_in result ≡ none_taken }
    {
        Names {
            names: IndexSet::new(alloc),
        }
    }

    /// Whether a name is in the set.
    pub(crate) fn has(&self, name: &str) -> bool
        ensures { result ≡ taken_in self.now name.now }
    {
        self.names.contains(name)
    }

    /// Puts a name into the set.
    pub(crate) fn add(&mut self, alloc: Global, name: &str) -> Result<(), Memory>
        ensures { OnOk result (taken_in self.new ≡ taken_with (taken_in self.old) name.now) }
    {
        let name = String::from_str(alloc, name)?;
        let _is_new = self.names.insert(name)?;
        Ok(())
    }
}
