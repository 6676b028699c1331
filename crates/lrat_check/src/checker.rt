ghost use Rattle.std.specs.Prelude.{◌≡◌, ◌≢◌, ℕ, ℤ, List, Bool, true, ◌≤◌, ◌+◌, length, IfOk, OnOk, OnErr, Err, IsOk, [], cond};
ghost use Rattle.lrat_check.specs.Clauses.{IsKnown, AreAllKnown, clauses_of, numbered, has_empty, without_all};
ghost use Rattle.lrat_check.specs.Good.{fault_of, Answers};
ghost use Rattle.lrat_check.specs.Derives.{checked_cnf, with_clause, without_ids};
ghost use Rattle.lrat_check.specs.State.{KeepsSpare};
ghost use Rattle.lrat_check.specs.Truth.{Assignment, Models, clause_true};
ghost use Rattle.lrat_check.specs.Whole.{ForceIsKnown};

use crate::clause::{Clause, Cnf};
use crate::follow::check;
use crate::line_error::LineError;
use crate::table::Table;
use lola_bits::Memory;
use std::alloc::Global;
use std::marker::Model;

/// What the clauses of a Cnf and the lines behind them come to. Contracts see what has been checked (the number
/// of variables, the clauses in force with their ids, the greatest id so far, whether the empty clause came),
/// and how many more clauses and literals need no memory.
#[derive(Drop)]
pub struct Checker {
    vars: u32,
    closed: bool,
    stamp: u32,
    stamps: Vec<u32>,
    table: Table,
}

impl Model for Checker {
    ghost use Rattle.lrat_check.specs.State.{State, state_code};

    ghost Value = { State };

    ghost coded = { state_code };

    ghost use Rattle.lrat_check.specs.Whole.{state, IsWhole};

    ghost view = { state };

    ghost invariant = { IsWhole };
}

impl Checker {
    /// A checker of the clauses of a Cnf, which are in force under the ids 1, 2 and so on. The only refusal is
    /// Memory.
    pub fn new(alloc: Global, cnf: &Cnf) -> Result<Checker, Memory>
        requires known { IsKnown cnf.now }
        ensures { IfOk result (λ checker. checker.checked ≡ checked_cnf cnf.now) }
    {
        let mut stamps = Vec::new(alloc);
        match stamps.resize(2 * cnf.vars as usize + 2, 0) {
            Ok(()) => {}
            Err(_) => return Err(Memory),
        }
        let mut table = Table::new(alloc);
        match put_all(&mut table, cnf.vars, cnf.clauses.items()) {
            Ok(closed) => Ok(Checker {
                vars: cnf.vars,
                closed,
                stamp: 0,
                stamps,
                table,
            }),
            Err(fault) => Err(fault),
        }
    }

    /// Makes room for so many more clauses and literals, so that as many can be added without memory. The only
    /// refusal is Memory; some of the room may have been made then.
    pub fn reserve(&mut self, clauses: usize, literals: usize) -> Result<(), Memory>
        ensures same { self.new.checked ≡ self.old.checked }
        ensures spare { KeepsSpare self.old self.new }
        ensures clauses { OnOk result (clauses ≤ self.new.spare_clauses) }
        ensures literals { OnOk result (literals ≤ self.new.spare_literals) }
        ensures succeeds { clauses ≤ self.old.spare_clauses → literals ≤ self.old.spare_literals → IsOk result }
    {
        match self.table.reserve(clauses, literals) {
            Ok(()) => Ok(()),
            Err(fault) => Err(fault),
        }
    }

    /// Puts a clause in force under an id, where the hints come to a conflict once its literals are set false.
    /// Each refusal comes exactly where its cause is the first in the order of `LineError`, and after each the
    /// checker is as before. Memory comes on good lines alone, and not where one clause and as many literals as
    /// the clause has are spare.
    pub fn add(&mut self, id: u64, clause: &[i32], hints: &[i64]) -> Result<(), LineError>
        ensures answer { Answers (fault_of self.old.checked id clause.now hints.now) result }
        ensures ok { OnOk result (self.new.checked ≡ with_clause self.old.checked id clause.now) }
        ensures err { OnErr result ((self.new.checked ≡ self.old.checked) × KeepsSpare self.old self.new) }
        ensures sound { OnOk result ((v : Assignment) → Models v self.old.checked.force → clause_true v clause.now ≡ true) }
        ensures clauses { self.old.spare_clauses ≤ self.new.spare_clauses + 1 }
        ensures literals { self.old.spare_literals ≤ self.new.spare_literals + length clause.now }
        ensures memory { 1 ≤ self.old.spare_clauses → length clause.now ≤ self.old.spare_literals → result ≢ Err LineError.Memory }
    {
        match check(
            &self.table,
            &mut self.stamps,
            &mut self.stamp,
            self.vars,
            id,
            clause,
            hints,
        ) {
            Ok(()) => {}
            Err(fault) => return Err(fault),
        }
        match self.table.reserve(1, clause.len()) {
            Ok(()) => {}
            Err(_) => return Err(LineError::Memory),
        }
        self.table.put(id, clause);
        self.closed = clause.is_empty() || self.closed;
        Ok(())
    }

    /// Takes clauses out of force. An id that isn't in force is passed over. Takes no memory.
    pub fn delete(&mut self, ids: &[u64])
        ensures checked { self.new.checked ≡ without_ids self.old.checked ids.now }
        ensures spare { KeepsSpare self.old self.new }
    {
        take_out_all(&mut self.table, ids);
    }

    /// Whether the empty clause is among the clauses of the Cnf and those that were added, in force or not.
    /// Takes no memory.
    pub fn closed(&self) -> bool
        ensures { result ≡ self.now.checked.closed }
    {
        self.closed
    }
}

/// Takes ids out of force.
fn take_out_all(table: &mut Table, ids: &[u64])
    ensures force { table.new.force ≡ without_all table.old.force ids.now }
    ensures last { table.new.last ≡ table.old.last }
    ensures clauses { table.old.spare_clauses ≤ table.new.spare_clauses }
    ensures literals { table.old.spare_literals ≤ table.new.spare_literals }
{
    for &id in ids {
        table.take_out(id);
    }
}

/// Puts the clauses of a Cnf in force, and answers whether the empty one is among them.
fn put_all(table: &mut Table, vars: u32, clauses: &[Clause]) -> Result<bool, Memory>
    requires known { AreAllKnown vars clauses.now }
    requires none { table.old.force ≡ [] }
    requires first { table.old.last ≡ 0 }
    ensures force { OnOk result (table.new.force ≡ numbered 1 (clauses_of clauses.now)) }
    ensures known { OnOk result (ForceIsKnown vars table.new.force) }
    ensures last { OnOk result (table.new.last ≡ length clauses.now) }
    ensures closed { IfOk result (λ closed. closed ≡ has_empty (clauses_of clauses.now)) }
{
    let mut id: u64 = 0;
    let mut closed = false;
    for clause in clauses {
        let literals = clause.literals.items();
        match table.reserve(1, literals.len()) {
            Ok(()) => {}
            Err(fault) => return Err(fault),
        }
        id += 1;
        table.put(id, literals);
        closed = closed || literals.is_empty();
    }
    Ok(closed)
}
