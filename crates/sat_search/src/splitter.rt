//! The engine of a split: it guesses the inputs alone, in their order, false first.
//!
//! Where all inputs have values, so have all gates, and then either a clause is false or all are true. From a false clause
//! it learns which guesses can't stand together, and from that the value of the last of them, so that each conflict
//! leaves one input fewer open at some level. Of n inputs it learns at most 2^n clauses.

use crate::base::Base;
use crate::cells::at;
use crate::engine::{Engine, Event};
use crate::heap::Heap;
use lola_bits::{Memory, Seq};
use lrat_check::Cnf;
use std::alloc::Global;

/// The state of the split.
#[derive(Drop)]
pub(crate) struct Splitter {
    base: Base,
    inputs: Vec<u32>,
    /// The order of variables, which isn't used here.
    heap: Heap,
}

impl Splitter {
    /// A splitter of the clauses of a Cnf by these variables.
    pub(crate) fn new(alloc: Global, cnf: &Cnf, inputs: &[u32]) -> Result<Splitter, Memory> {
        let mut copy: Vec<u32> = Vec::new(alloc);
        copy.extend_from_slice(inputs)?;
        Ok(Splitter {
            base: Base::new(alloc, cnf)?,
            inputs: copy,
            heap: Heap::new(alloc, 0)?,
        })
    }

    /// Learns from a clause all of whose literals are false: the guesses that it rests on can't stand together.
    fn learn(&mut self, conflict: u32) -> Result<Event, Memory> {
        self.base
            .analysis
            .learn_guesses(&self.base.arena, &self.base.trail, conflict)?;
        let nothing = Seq::new(self.base.alloc);
        let event = self.base.tell(conflict, nothing)?;
        if self.base.analysis.learnt.is_empty() {
            self.base.done = true;
            return Ok(event);
        }
        self.base.analysis.latest_first(&self.base.trail);
        let level = self.base.analysis.second(&self.base.trail);
        self.base.trail.back_to(level, &mut self.heap);
        let place = self.base.store(0)?;
        let literal = at(&self.base.analysis.learnt, 0);
        self.base.trail.assign(literal, place);
        Ok(event)
    }

    /// Guesses the first input that has no value. False where all have one.
    fn decide(&mut self) -> Result<bool, Memory> {
        for &input in &self.inputs {
            let literal = input.wrapping_sub(1).wrapping_mul(2).wrapping_add(1);
            if self.base.trail.value(literal) == 0 {
                self.base.trail.guess(literal)?;
                return Ok(true);
            }
        }
        Ok(false)
    }
}

impl Engine for Splitter {
    fn step(&mut self) -> Result<Event, Memory> {
        for _ in 0..u64::MAX {
            if self.base.done {
                return Ok(Event::GaveUp);
            }
            let conflict = self.base.conflict();
            if conflict != 0 {
                return self.learn(conflict);
            }
            if !self.decide()? {
                return self.base.tell_model();
            }
        }
        Ok(Event::GaveUp)
    }
}
