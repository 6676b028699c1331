//! The engine of a search: it learns a clause from each conflict (conflict-driven clause learning).

use crate::base::Base;
use crate::cells::at;
use crate::engine::{Engine, Event};
use crate::heap::Heap;
use crate::pace::Pace;
use crate::reduce::reduce;
use lola_bits::{Memory, Seq};
use lrat_check::Cnf;
use std::alloc::Global;

/// The state of the search.
#[derive(Drop)]
pub(crate) struct Solver {
    base: Base,
    heap: Heap,
    pace: Pace,
    /// The ids of clauses that were let go and not told yet.
    dropped: Vec<u64>,
}

impl Solver {
    /// A solver of the clauses of a Cnf.
    pub(crate) fn new(alloc: Global, cnf: &Cnf) -> Result<Solver, Memory> {
        Ok(Solver {
            base: Base::new(alloc, cnf)?,
            heap: Heap::new(alloc, cnf.vars)?,
            pace: Pace::new(),
            dropped: Vec::new(alloc),
        })
    }

    /// Goes back to where the learnt clause has one open literal, and makes it true.
    fn go_on(&mut self) -> Result<(), Memory> {
        let glue = self.base.analysis.glue(&self.base.trail)?;
        self.pace.note_glue(glue);
        let level = self.base.analysis.second(&self.base.trail);
        self.base.trail.back_to(level, &mut self.heap);
        let place = self.base.store(glue)?;
        let literal = at(&self.base.analysis.learnt, 0);
        self.base.trail.assign(literal, place);
        self.heap.decay();
        Ok(())
    }

    /// Learns from a clause all of whose literals are false.
    fn learn(&mut self, conflict: u32) -> Result<Event, Memory> {
        self.base.analysis.learn(&self.base.arena, &self.base.trail, &mut self.heap, conflict)?;
        let mut dropped: Vec<u64> = Vec::new(self.base.alloc);
        dropped.extend_from_slice(self.dropped.as_slice())?;
        self.dropped.clear();
        let event = self.base.tell(conflict, Seq::of(dropped))?;
        self.pace.note_conflict();
        if self.base.analysis.learnt.is_empty() {
            self.base.done = true;
        } else {
            self.go_on()?;
        }
        Ok(event)
    }

    /// Lets go of learnt clauses.
    fn reduce(&mut self) -> Result<(), Memory> {
        self.base.trail.back_to(0, &mut self.heap);
        reduce(
            self.base.alloc,
            &mut self.base.arena,
            &mut self.base.trail,
            &mut self.dropped,
        )?;
        self.pace.note_reduced();
        Ok(())
    }

    /// Guesses the value of the most active variable that has none: the one that it had last. False where all have one.
    fn decide(&mut self) -> Result<bool, Memory> {
        for _ in 0..u64::MAX {
            match self.heap.take() {
                None => return Ok(false),
                Some(var) => {
                    if self.base.trail.value(var.wrapping_mul(2)) == 0 {
                        let literal = self.base.trail.last_literal(var);
                        self.base.trail.guess(literal)?;
                        return Ok(true);
                    }
                }
            }
        }
        Ok(false)
    }
}

impl Engine for Solver {
    fn step(&mut self) -> Result<Event, Memory> {
        for _ in 0..u64::MAX {
            if self.base.done {
                return Ok(Event::GaveUp);
            }
            let conflict = self.base.conflict();
            if conflict != 0 {
                return self.learn(conflict);
            }
            if self.pace.is_full() {
                self.reduce()?;
            } else if self.pace.is_stuck() {
                self.pace.note_restart();
                self.base.trail.back_to(0, &mut self.heap);
            } else if !self.decide()? {
                return self.base.tell_model();
            }
        }
        Ok(Event::GaveUp)
    }
}
