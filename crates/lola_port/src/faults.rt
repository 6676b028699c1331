ghost use Rattle.std.specs.Prelude.{◌≡◌, ◌≤◌, ◌≢◌, ℕ, List, OnOk};
ghost use Rattle.lola_port.specs.Outside.{next_count, Same, RoseAt};
ghost use Rattle.lola_port.specs.Faults.{counts_of, HasPlace, Fails};

use crate::store::StoreError;
use lola_bits::Memory;
use std::alloc::Global;
use std::collections::BTreeMap;

/// How often calls have failed, by the name that they asked for.
#[derive(Drop)]
pub(crate) struct Faults {
    counts: BTreeMap<String, u64>,
}

impl Faults {
    /// Every count is 0.
    pub(crate) fn new(alloc: Global) -> Faults
        ensures { (name : List ℕ) → counts_of result name ≡ 0 }
    {
        Faults {
            counts: BTreeMap::new(alloc),
        }
    }

    /// Makes the place of a name's count, so that it can rise without memory.
    #[tactic(auto, using(std::proofs::lemmas::Map::Text::text_keys))]
    pub(crate) fn reserve(&mut self, alloc: Global, name: &str) -> Result<(), Memory>
        ensures same { Same (counts_of self.old) (counts_of self.new) }
        ensures place { OnOk result (HasPlace self.new name.now) }
    {
        if self.counts.contains_key(name) {
            return Ok(());
        }
        let text = String::from_str(alloc, name)?;
        self.counts.insert(text, 0)?;
        Ok(())
    }

    /// Raises the count of a name by one, up to the greatest u64, where it stays.
    #[tactic(auto, using(std::proofs::lemmas::Map::Text::text_keys))]
    pub(crate) fn raise(&mut self, name: &str)
        requires { HasPlace self.old name.now }
        ensures rose { counts_of self.new name.now ≡ next_count (counts_of self.old name.now) }
        ensures not_fallen { counts_of self.old name.now ≤ counts_of self.new name.now }
        ensures others { (other : List ℕ) → other ≢ name.now → counts_of self.new other ≡ counts_of self.old other }
    {
        if let Some(count) = self.counts.get_mut(name) {
            *count = count.saturating_add(1);
        }
    }

    /// Records that a call has failed that asked for a name.
    #[tactic(auto, using(crate::proofs::Counts::rises))]
    pub(crate) fn fail(&mut self, alloc: Global, name: &str) -> StoreError
        ensures { Fails name.now (counts_of self.old) (counts_of self.new) result }
    {
        match self.reserve(alloc, name) {
            Ok(()) => {
                self.raise(name);
                StoreError::Failed
            }
            Err(Memory) => StoreError::Memory,
        }
    }
}
