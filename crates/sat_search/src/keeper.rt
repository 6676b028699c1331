//! The keeper: nothing stands among its lines that a checker didn't take.
ghost use Rattle.std.specs.Prelude.{◌≡◌, ◌≢◌, ◌≤◌, ◌<◌, ◌+◌, length, IfOk, OnOk, Ok, false};
ghost use Rattle.std.specs.List.{AllByRecursion};
ghost use Rattle.lrat_check.specs.Clauses.{IsKnown};
ghost use Rattle.sat_search.specs.Ranges.{HasLiterals, IsId};
ghost use Rattle.sat_search.specs.Kept.{Kept, IsKept, KeptTo, KeptOrNot, CanBeKept};

use crate::ranges::{are_hints, are_later, are_literals};
use lola_bits::{Memory, Seq};
use lrat_check::{Checker, Clause, Cnf, Line, LineError};
use std::alloc::Global;

/// A checker, the lines that it took, and how many of them are additions.
#[derive(Drop)]
pub(crate) struct Keeper {
    pub(crate) checker: Checker,
    pub(crate) lines: Vec<Line>,
    pub(crate) count: u64,
}

/// What came of a claim.
#[derive(Drop)]
pub(crate) enum Outcome {
    /// The clause is kept.
    Added,
    /// The values make each clause true.
    Found(Seq<bool>),
    /// It doesn't hold, or there was none.
    Refused,
}

impl Keeper {
    /// A keeper of no lines.
    pub(crate) fn new(alloc: Global, cnf: &Cnf) -> Result<Keeper, Memory>
        requires known { IsKnown cnf.now }
        ensures { IfOk result (λ keeper. KeptTo cnf.now keeper 0) }
    {
        match Checker::new(alloc, cnf) {
            Ok(checker) => Ok(Keeper {
                checker,
                lines: Vec::new(alloc),
                count: 0,
            }),
            Err(fault) => Err(fault),
        }
    }

    /// The id of the next addition. Lines that come to 2^62 have no room in memory.
    fn next_id(&self, cnf: &Cnf) -> Result<u64, Memory>
        ensures { IfOk result (λ id. (id ≡ length cnf.now.clauses + self.now.count + 1) × IsId id) }
    {
        let clauses = cnf.clauses.items().len() as u64;
        if clauses >= 4611686018427387904 || self.count >= 4611686018427387904 {
            return Err(Memory);
        }
        Ok(clauses + self.count + 1)
    }

    /// Keeps an addition under the next id, where it is good and in its ranges.
    pub(crate) fn keep(
        &mut self,
        cnf: &Cnf,
        clause: Seq<i32>,
        hints: Seq<i64>,
    ) -> Result<bool, Memory>
        requires kept { IsKept cnf.now self.old }
        ensures kept { IfOk result (KeptOrNot cnf.now self.new self.old.count) }
        ensures takes { CanBeKept self.old.checker.checked (length cnf.now.clauses + self.old.count + 1) clause hints → result ≢ Ok false }
    {
        let id = match self.next_id(cnf) {
            Ok(id) => id,
            Err(fault) => return Err(fault),
        };
        if !are_literals(clause.items()) {
            return Ok(false);
        }
        if !are_hints(hints.items()) {
            return Ok(false);
        }
        match self.checker.add(id, clause.items(), hints.items()) {
            Ok(()) => {}
            Err(LineError::Memory) => return Err(Memory),
            Err(_) => return Ok(false),
        }
        match self.lines.push(Line::Add {
            id,
            clause: Clause { literals: clause },
            hints,
        }) {
            Ok(()) => {}
            Err(_) => return Err(Memory),
        }
        self.count += 1;
        Ok(true)
    }

    /// Takes ids out of force, where they are above those of the Cnf and below 2^63.
    pub(crate) fn let_go(&mut self, cnf: &Cnf, ids: Seq<u64>) -> Result<(), Memory>
        requires kept { IsKept cnf.now self.old }
        ensures { OnOk result (KeptTo cnf.now self.new self.old.count) }
    {
        if ids.items().is_empty() {
            return Ok(());
        }
        let id = match self.next_id(cnf) {
            Ok(id) => id,
            Err(fault) => return Err(fault),
        };
        if !are_later(cnf.clauses.items().len() as u64, ids.items()) {
            return Ok(());
        }
        self.checker.delete(ids.items());
        match self.lines.push(Line::Delete { id, ids }) {
            Ok(()) => Ok(()),
            Err(_) => Err(Memory),
        }
    }

    /// Keeps the first clause of the Cnf once more, by itself as the hint. It is never refused.
    pub(crate) fn fill(&mut self, alloc: Global, cnf: &Cnf) -> Result<(), Memory>
        requires kept { IsKept cnf.now self.old }
        requires known { IsKnown cnf.now }
        requires literals { HasLiterals cnf.now }
        requires some { 1 ≤ length cnf.now.clauses }
        ensures { OnOk result (KeptTo cnf.now self.new (self.old.count + 1)) }
    {
        let first = &cnf.clauses.items()[0];
        let mut clause: Vec<i32> = Vec::new(alloc);
        match clause.extend_from_slice(first.literals.items()) {
            Ok(()) => {}
            Err(_) => return Err(Memory),
        }
        let mut hints: Vec<i64> = Vec::new(alloc);
        match hints.push(1) {
            Ok(()) => {}
            Err(_) => return Err(Memory),
        }
        match self.keep(cnf, Seq::of(clause), Seq::of(hints)) {
            Ok(_) => Ok(()),
            Err(fault) => Err(fault),
        }
    }
}
