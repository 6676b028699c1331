//! What every engine stands on: clauses, what is true so far, and what is learnt.

use crate::analysis::Analysis;
use crate::arena::Arena;
use crate::cells::at;
use crate::engine::Event;
use crate::propagate::propagate;
use crate::trail::{FALSE, TRUE, Trail};
use lola_bits::{Memory, Seq};
use lrat_check::{Clause, Cnf};
use std::alloc::Global;

#[derive(Drop)]
pub(crate) struct Base {
    pub(crate) alloc: Global,
    pub(crate) arena: Arena,
    pub(crate) trail: Trail,
    pub(crate) analysis: Analysis,
    vars: u32,
    /// The id of the next clause.
    next: u64,
    /// A clause of one literal that another made false, or 0.
    pending: u32,
    /// Nothing more will come.
    pub(crate) done: bool,
}

impl Base {
    /// The clauses of a Cnf, before any guess.
    pub(crate) fn new(alloc: Global, cnf: &Cnf) -> Result<Base, Memory> {
        let mut base = Base {
            alloc,
            arena: Arena::new(alloc, cnf.vars)?,
            trail: Trail::new(alloc, cnf.vars)?,
            analysis: Analysis::new(alloc, cnf.vars)?,
            vars: cnf.vars,
            next: 1,
            pending: 0,
            done: false,
        };
        for clause in cnf.clauses.items() {
            base.load(clause)?;
        }
        base.arena.begin_learnt();
        Ok(base)
    }

    /// Stores the clause of the analysis under the next id, and answers its place. Where there is none the search ends.
    pub(crate) fn store(&mut self, glue: u32) -> Result<u32, Memory> {
        let id = self.next;
        self.next = self.next.saturating_add(1);
        match self.arena.store(&self.analysis.learnt, id, glue)? {
            Some(place) => Ok(place),
            None => {
                self.done = true;
                Ok(0)
            }
        }
    }

    /// Takes a clause of the Cnf in. One that is always true is passed over.
    fn load(&mut self, clause: &Clause) -> Result<(), Memory> {
        if self.analysis.take_in(clause.literals.items())? {
            self.next = self.next.saturating_add(1);
            return Ok(());
        }
        let place = self.store(0)?;
        if self.analysis.learnt.len() == 1 {
            let only = at(&self.analysis.learnt, 0);
            let value = self.trail.value(only);
            if value == FALSE {
                self.pending = place;
            } else if value != TRUE {
                self.trail.assign(only, place);
            }
        }
        Ok(())
    }

    /// Follows what is true, and answers a clause all of whose literals are false, or 0.
    pub(crate) fn conflict(&mut self) -> u32 {
        if self.pending != 0 {
            self.pending
        } else {
            propagate(&mut self.arena, &mut self.trail)
        }
    }

    /// Tells the clause of the analysis, and what is to go.
    pub(crate) fn tell(&mut self, conflict: u32, dropped: Seq<u64>) -> Result<Event, Memory> {
        let hints = self
            .analysis
            .hints(self.alloc, &self.arena, &self.trail, conflict)?;
        let clause = self.analysis.told(self.alloc)?;
        Ok(Event::Learnt {
            clause,
            hints,
            dropped,
        })
    }

    /// Tells the values of all variables, and ends the search.
    pub(crate) fn tell_model(&mut self) -> Result<Event, Memory> {
        self.done = true;
        let mut values: Vec<bool> = Vec::new(self.alloc);
        for var in 0..self.vars {
            values.push(self.trail.value(var.wrapping_mul(2)) == TRUE)?;
        }
        Ok(Event::Model {
            values: Seq::of(values),
        })
    }
}
