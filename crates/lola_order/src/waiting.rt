ghost use Rattle.std.specs.Prelude.{◌≡◌, ◌≢◌, ◌<◌, ℕ, length, IfOk, OnOk};
ghost use Rattle.lola_bits.specs.Lists.{IsIn};
ghost use Rattle.lola_order.specs.State.{Waits, IsWaiting};

use lola_bits::{Memory, Seq};
use std::alloc::Global;
use std::mem;

/// For each signal the signals that wait for it.
#[derive(Drop)]
pub(crate) struct Waiting {
    lists: Vec<Seq<u32>>,
}

impl Waiting {
    pub(crate) fn new(alloc: Global, signals: usize) -> Result<Waiting, Memory>
        ensures { IfOk result (λ w. length w.lists.items ≡ signals) }
    {
        let mut lists = Vec::new(alloc);
        for _signal in 0..signals {
            match lists.push(Seq::new(alloc)) {
                Ok(()) => {}
                Err(_) => return Err(Memory),
            }
        }
        Ok(Waiting { lists })
    }

    /// One signal waits for another.
    pub(crate) fn add(&mut self, by: u32, signal: u32) -> Result<(), Memory>
        requires { by < length self.old.lists.items }
        ensures { OnOk result (IsWaiting self.old by signal self.new) }
    {
        match self.lists[by as usize].push(signal) {
            Ok(()) => Ok(()),
            Err(fault) => Err(fault),
        }
    }

    /// Takes out the signals that wait for one.
    pub(crate) fn take(&mut self, alloc: Global, by: u32) -> Seq<u32>
        requires { by < length self.old.lists.items }
        ensures long { length self.new.lists.items ≡ length self.old.lists.items }
        ensures taken { (k : ℕ) → Waits self.old by k → IsIn k result }
        ensures kept { (j k : ℕ) → j ≢ by → Waits self.old j k → Waits self.new j k }
    {
        mem::replace(&mut self.lists[by as usize], Seq::new(alloc))
    }
}
