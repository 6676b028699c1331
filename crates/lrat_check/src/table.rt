ghost use Rattle.std.specs.Prelude.{◌≡◌, ℕ, ℤ, List, ◌<◌, ◌≤◌, ◌+◌, ◌++◌, ◌∷◌, [], length, true, nat_eq, min, max, OnOk, IfOk, IsOk};
ghost use Rattle.std.specs.Option.{option_map};
ghost use Rattle.std.specs.Map.{lookup};
ghost use Rattle.lrat_check.specs.Arena.{IsSound, contents};
ghost use Rattle.lrat_check.specs.Clauses.{without};

use crate::arena::{Slot, append, clause_in, make_room, take_out};
use crate::keys::{Entry, key_of};
use lola_bits::Memory;
use slab::Slab;
use std::alloc::Global;
use std::marker::Model;

/// The clauses in force: all literals in one arena, a slot for each clause, and the key of its slot by its id.
/// `live` is how many literals are in force: it says when the clauses are to move, and nothing rests on it.
#[derive(Drop)]
pub struct Table {
    arena: Vec<i32>,
    slots: Slab<Slot>,
    entries: Vec<Entry>,
    last: u64,
    live: usize,
    alloc: Global,
}

impl Model for Table {
    ghost use Rattle.lrat_check.specs.Held.{Held, held_code};

    ghost Value = { Held };

    ghost coded = { held_code };

    ghost use Rattle.lrat_check.specs.Arena.{held, IsSound};

    ghost view = { λ t. held t.arena t.slots t.entries t.last };

    ghost invariant = { λ t. IsSound t.arena.items t.slots t.entries.items t.last };
}

impl Table {
    /// No clause is in force.
    pub(crate) fn new(alloc: Global) -> Table
        ensures force { result.force ≡ [] }
        ensures last { result.last ≡ 0 }
    {
        Table {
            arena: Vec::new(alloc),
            slots: Slab::new(alloc),
            entries: Vec::new(alloc),
            last: 0,
            live: 0,
            alloc,
        }
    }

    /// The clause in force of an id.
    #[inline(always)]
    pub(crate) fn find(&self, id: u64) -> Option<&[i32]>
        ensures { option_map (λ c. c.now) result ≡ lookup (nat_eq id) self.now.force }
    {
        match key_of(&self.entries, self.last, id) {
            None => None,
            Some(key) => clause_in(&self.arena, &self.slots, id, key),
        }
    }

    /// The greatest id so far.
    pub(crate) fn last(&self) -> u64
        ensures { result ≡ self.now.last }
    {
        self.last
    }

    /// Makes room for so many more clauses and literals. Where room is missing and less than three quarters of
    /// what stands is in force, the clauses in force move to an arena and a list of ids of their own, so the room
    /// of the others is used again.
    pub(crate) fn reserve(&mut self, clauses: usize, literals: usize) -> Result<(), Memory>
        ensures force { self.new.force ≡ self.old.force }
        ensures last { self.new.last ≡ self.old.last }
        ensures clauses_stay { self.old.spare_clauses ≤ self.new.spare_clauses }
        ensures literals_stay { self.old.spare_literals ≤ self.new.spare_literals }
        ensures clauses { OnOk result (clauses ≤ self.new.spare_clauses) }
        ensures literals { OnOk result (literals ≤ self.new.spare_literals) }
        ensures succeeds { clauses ≤ self.old.spare_clauses → literals ≤ self.old.spare_literals → IsOk result }
    {
        if self.is_worth_moving(clauses, literals) {
            match self.move_live(clauses, literals) {
                Ok(()) => Ok(()),
                Err(fault) => Err(fault),
            }
        } else {
            self.grow(clauses, literals)
        }
    }

    /// How many more clauses need no memory.
    fn spare_clauses(&self) -> usize
        ensures { result ≡ self.now.spare_clauses }
    {
        lesser(
            self.entries.capacity() - self.entries.len(),
            self.slots.capacity() - self.slots.len(),
        )
    }

    /// How many more literals need no memory.
    fn spare_literals(&self) -> usize
        ensures { result ≡ self.now.spare_literals }
    {
        self.arena.capacity() - self.arena.len()
    }

    /// Whether room is missing and less than three quarters of what stands is in force.
    fn is_worth_moving(&self, clauses: usize, literals: usize) -> bool
        ensures { result ≡ true → clauses ≤ self.now.spare_clauses → literals ≤ self.now.spare_literals → ⊥ }
    {
        if self.spare_literals() < literals {
            self.live < three_quarters(self.arena.len())
        } else if self.spare_clauses() < clauses {
            self.slots.len() < three_quarters(self.entries.len())
        } else {
            false
        }
    }

    /// Moves the clauses in force, with no less room than there was, and room for half as much again as they take:
    /// when that is used up, and as much in force as now, it is worth moving again.
    fn move_live(&mut self, clauses: usize, literals: usize) -> Result<(), Memory>
        ensures force { self.new.force ≡ self.old.force }
        ensures last { self.new.last ≡ self.old.last }
        ensures clauses_stay { self.old.spare_clauses ≤ self.new.spare_clauses }
        ensures literals_stay { self.old.spare_literals ≤ self.new.spare_literals }
        ensures clauses { OnOk result (clauses ≤ self.new.spare_clauses) }
        ensures literals { OnOk result (literals ≤ self.new.spare_literals) }
    {
        let clauses = greater(greater(clauses, self.spare_clauses()), self.slots.len() / 2);
        let literals = greater(greater(literals, self.spare_literals()), self.live / 2);
        match moved(
            self.alloc,
            &self.arena,
            &self.slots,
            &self.entries,
            self.last,
            clauses,
            literals,
            self.live,
        ) {
            Ok(table) => {
                *self = table;
                Ok(())
            }
            Err(fault) => Err(fault),
        }
    }

    /// Makes room for so many more clauses and literals where they are.
    fn grow(&mut self, clauses: usize, literals: usize) -> Result<(), Memory>
        ensures force { self.new.force ≡ self.old.force }
        ensures last { self.new.last ≡ self.old.last }
        ensures clauses_stay { self.old.spare_clauses ≤ self.new.spare_clauses }
        ensures literals_stay { self.old.spare_literals ≤ self.new.spare_literals }
        ensures clauses { OnOk result (clauses ≤ self.new.spare_clauses) }
        ensures literals { OnOk result (literals ≤ self.new.spare_literals) }
        ensures succeeds { clauses ≤ self.old.spare_clauses → literals ≤ self.old.spare_literals → IsOk result }
    {
        match make_room(
            &mut self.arena,
            &mut self.slots,
            &mut self.entries,
            clauses,
            literals,
        ) {
            Ok(()) => Ok(()),
            Err(fault) => Err(fault),
        }
    }

    /// Puts a clause in force under an id above all ids so far, where there is room.
    pub(crate) fn put(&mut self, id: u64, clause: &[i32])
        requires rises { self.old.last < id }
        requires one { 1 ≤ self.old.spare_clauses }
        requires literals { length clause.now ≤ self.old.spare_literals }
        ensures force { self.new.force ≡ self.old.force ++ (id, clause.now) ∷ [] }
        ensures last { self.new.last ≡ id }
        ensures clauses_stay { self.old.spare_clauses ≤ self.new.spare_clauses + 1 }
        ensures literals_stay { self.old.spare_literals ≤ self.new.spare_literals + length clause.now }
    {
        self.live = self.live.saturating_add(clause.len());
        self.last = id;
        append(
            &mut self.arena,
            &mut self.slots,
            &mut self.entries,
            id,
            clause,
        );
    }

    /// Counts ids up to this one as used.
    fn pass(&mut self, last: u64)
        requires { self.old.last ≤ last }
        ensures force { self.new.force ≡ self.old.force }
        ensures last { self.new.last ≡ last }
        ensures clauses_stay { self.new.spare_clauses ≡ self.old.spare_clauses }
        ensures literals_stay { self.new.spare_literals ≡ self.old.spare_literals }
    {
        self.last = last;
    }

    /// Takes an id out of force.
    pub(crate) fn take_out(&mut self, id: u64)
        ensures force { self.new.force ≡ without self.old.force id }
        ensures last { self.new.last ≡ self.old.last }
        ensures clauses_stay { self.old.spare_clauses ≤ self.new.spare_clauses }
        ensures literals_stay { self.old.spare_literals ≤ self.new.spare_literals }
    {
        match key_of(&self.entries, self.last, id) {
            None => {}
            Some(key) => {
                let length = take_out(&mut self.slots, id, key);
                self.live = self.live.saturating_sub(length);
            }
        }
    }
}

/// Three quarters of a number, rounded up.
fn three_quarters(a: usize) -> usize
    ensures { result ≤ a }
{
    a - a / 4
}

/// The greater of two numbers.
fn greater(a: usize, b: usize) -> usize
    ensures { result ≡ max a b }
{
    if a < b { b } else { a }
}

/// The smaller of two numbers.
fn lesser(a: usize, b: usize) -> usize
    ensures { result ≡ min a b }
{
    if a < b { a } else { b }
}

/// A table of the clauses in force alone, with room for so many more.
fn moved(
    alloc: Global,
    arena: &[i32],
    slots: &Slab<Slot>,
    entries: &[Entry],
    last: u64,
    clauses: usize,
    literals: usize,
    live: usize,
) -> Result<Table, Memory>
    requires sound { IsSound arena.now slots.now entries.now last }
    ensures force { IfOk result (λ t. t.force ≡ contents arena.now slots.now entries.now) }
    ensures last { IfOk result (λ t. t.last ≡ last) }
    ensures clauses { IfOk result (λ t. clauses ≤ t.spare_clauses) }
    ensures literals { IfOk result (λ t. literals ≤ t.spare_literals) }
{
    let mut table = Table::new(alloc);
    match table.grow(
        slots.len().saturating_add(clauses),
        live.saturating_add(literals),
    ) {
        Ok(()) => {}
        Err(fault) => return Err(fault),
    }
    for entry in entries {
        match clause_in(arena, slots, entry.id, entry.key) {
            None => {}
            Some(clause) => {
                match table.grow(1, clause.len()) {
                    Ok(()) => {}
                    Err(fault) => return Err(fault),
                }
                table.put(entry.id, clause);
            }
        }
    }
    table.pass(last);
    match table.grow(clauses, literals) {
        Ok(()) => Ok(table),
        Err(fault) => Err(fault),
    }
}
