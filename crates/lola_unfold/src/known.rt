ghost use Rattle.std.specs.Prelude.{◌≡◌, ℕ, List, Some, None, Option, OnOk, cond, bytes_eq};
ghost use Rattle.lola_unfold.specs.Measured.{Knows, outline_of, outline_ports, outline_size, outline_height};

use indexmap::IndexMap;
use lola_bits::Memory;
use std::alloc::Global;

/// What a module adds to a design where it has an instance. The numbers stand still at their greatest.
#[derive(Debug, Drop)]
pub struct Outline {
    /// For each port whether it is a clock.
    pub clocks: Vec<bool>,
    /// How many elements its signals have, and how many instances stand in it.
    pub size: u32,
    /// How deep modules stand in it; 1 for one without instances.
    pub height: u32,
}

/// The outlines of the modules before one, by their names. Of two of one name the later counts.
#[derive(Drop)]
pub struct Known {
    entries: IndexMap<String, Outline>,
}

impl Known {
    /// No module. Takes no memory.
    pub fn new(alloc: Global) -> Known
        ensures { (name : List ℕ) → outline_of result name ≡ None }
    {
        Known {
            entries: IndexMap::new(alloc),
        }
    }

    /// Which ports of a module are clocks.
    pub fn ports(&self, name: &str) -> &[bool]
        ensures { result.now ≡ outline_ports (outline_of self.now name.now) }
    {
        match self.entries.get(name) {
            Some(outline) => outline.clocks.as_slice(),
            None => &[],
        }
    }

    /// The size of a module.
    pub fn size(&self, name: &str) -> u32
        ensures { result ≡ outline_size (outline_of self.now name.now) }
    {
        match self.entries.get(name) {
            Some(outline) => outline.size,
            None => 0,
        }
    }

    /// The height of a module.
    pub fn height(&self, name: &str) -> u32
        ensures { result ≡ outline_height (outline_of self.now name.now) }
    {
        match self.entries.get(name) {
            Some(outline) => outline.height,
            None => 0,
        }
    }

    /// Adds a module.
    pub fn add(&mut self, alloc: Global, name: &str, outline: Outline) -> Result<(), Memory>
        ensures { OnOk result ((other : List ℕ) → outline_of self.new other ≡ cond (bytes_eq name.now other) (Some outline) (outline_of self.old other)) }
    {
        let name = String::from_str(alloc, name)?;
        self.entries.insert(name, outline)?;
        Ok(())
    }
}
