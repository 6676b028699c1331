//! What is guessed and what follows.

use crate::cells::{at, byte_at, filled, filled_bytes, narrow, put, put_byte};
use crate::heap::Heap;
use crate::literal::negated;
use lola_bits::Memory;
use std::alloc::Global;

pub(crate) const TRUE: u8 = 1;

pub(crate) const FALSE: u8 = 2;

/// The literals that are true, in the order in which they came to be.
#[derive(Drop)]
pub(crate) struct Trail {
    /// Of each literal, whether it is true or false, or 0.
    values: Vec<u8>,
    /// Of each variable, how many guesses its value rests on.
    levels: Vec<u32>,
    /// The clause that made it so, or 0.
    reasons: Vec<u32>,
    /// Where it stands in the order.
    positions: Vec<u32>,
    /// The value that it had last: 1 is true.
    phases: Vec<u8>,
    literals: Vec<u32>,
    count: usize,
    /// How many have been followed.
    head: usize,
    /// Where each guess stands.
    starts: Vec<u32>,
    level: usize,
}

impl Trail {
    pub(crate) fn new(alloc: Global, vars: u32) -> Result<Trail, Memory> {
        let vars = vars as usize;
        Ok(Trail {
            values: filled_bytes(alloc, 2 * vars)?,
            levels: filled(alloc, vars, 0)?,
            reasons: filled(alloc, vars, 0)?,
            positions: filled(alloc, vars, 0)?,
            phases: filled_bytes(alloc, vars)?,
            literals: filled(alloc, vars, 0)?,
            count: 0,
            head: 0,
            starts: Vec::new(alloc),
            level: 0,
        })
    }

    #[inline(always)]
    pub(crate) fn value(&self, literal: u32) -> u8 {
        byte_at(&self.values, literal as usize)
    }

    #[inline(always)]
    pub(crate) fn level(&self) -> usize {
        self.level
    }

    #[inline(always)]
    pub(crate) fn count(&self) -> usize {
        self.count
    }

    #[inline(always)]
    pub(crate) fn level_of(&self, var: u32) -> u32 {
        at(&self.levels, var as usize)
    }

    #[inline(always)]
    pub(crate) fn reason_of(&self, var: u32) -> u32 {
        at(&self.reasons, var as usize)
    }

    #[inline(always)]
    pub(crate) fn position_of(&self, var: u32) -> u32 {
        at(&self.positions, var as usize)
    }

    #[inline(always)]
    pub(crate) fn literal_at(&self, position: usize) -> u32 {
        at(&self.literals, position)
    }

    /// The reason moved in the arena.
    pub(crate) fn set_reason(&mut self, var: u32, reason: u32) {
        put(&mut self.reasons, var as usize, reason);
    }

    /// Makes a literal true.
    #[inline(always)]
    pub(crate) fn assign(&mut self, literal: u32, reason: u32) {
        let var = (literal / 2) as usize;
        put_byte(&mut self.values, literal as usize, TRUE);
        put_byte(&mut self.values, negated(literal) as usize, FALSE);
        put(&mut self.levels, var, narrow(self.level));
        put(&mut self.reasons, var, reason);
        put(&mut self.positions, var, narrow(self.count));
        put(&mut self.literals, self.count, literal);
        self.count = self.count.saturating_add(1);
    }

    /// The next literal that hasn't been followed.
    #[inline(always)]
    pub(crate) fn next(&mut self) -> Option<u32> {
        if self.head >= self.count {
            return None;
        }
        let literal = at(&self.literals, self.head);
        self.head = self.head.saturating_add(1);
        Some(literal)
    }

    /// The literal of a variable that was true last. At first it is the negated one.
    pub(crate) fn last_literal(&self, var: u32) -> u32 {
        let literal = var.wrapping_mul(2);
        if byte_at(&self.phases, var as usize) == 1 {
            literal
        } else {
            negated(literal)
        }
    }

    /// Guesses that a literal is true.
    pub(crate) fn guess(&mut self, literal: u32) -> Result<(), Memory> {
        self.starts.push(narrow(self.count))?;
        self.level = self.level.saturating_add(1);
        self.assign(literal, 0);
        Ok(())
    }

    /// Takes the last literal off.
    #[inline(always)]
    fn undo(&mut self, heap: &mut Heap) {
        self.count = self.count.saturating_sub(1);
        let literal = at(&self.literals, self.count);
        let var = literal / 2;
        put_byte(&mut self.values, literal as usize, 0);
        put_byte(&mut self.values, negated(literal) as usize, 0);
        put_byte(&mut self.phases, var as usize, 1 + (literal % 2) as u8);
        heap.insert(var);
    }

    /// Takes all off that rests on more guesses than so many.
    pub(crate) fn back_to(&mut self, level: usize, heap: &mut Heap) {
        if self.level <= level {
            return;
        }
        let start = at(&self.starts, level) as usize;
        for _ in 0..u64::MAX {
            if self.count <= start {
                break;
            }
            self.undo(heap);
        }
        self.starts.truncate(level);
        self.level = level;
        self.head = self.count;
    }
}
