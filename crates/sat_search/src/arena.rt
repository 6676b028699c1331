//! The engine's clauses.

use crate::cells::{at, filled, narrow, put};
use lola_bits::Memory;
use std::alloc::Global;

/// A clause stands in the arena as its size, its id, its glue, two links and its literals. The first two literals are
/// watched: a clause hangs in the list of each, by its links, and place 0 ends a list.
const LITERALS: usize = 5;

const LINKS: usize = 3;

const GLUE: usize = 2;

const NUMBER: usize = 1;

/// Clauses in one list of numbers.
#[derive(Drop)]
pub(crate) struct Arena {
    cells: Vec<u32>,
    /// Of each literal the first clause that watches it.
    first: Vec<u32>,
    /// Where the learnt clauses begin.
    learnt_from: usize,
}

impl Arena {
    pub(crate) fn new(alloc: Global, vars: u32) -> Result<Arena, Memory> {
        Ok(Arena {
            cells: filled(alloc, 1, 0)?,
            first: filled(alloc, 2 * vars as usize, 0)?,
            learnt_from: 0,
        })
    }

    /// From here on clauses are learnt.
    pub(crate) fn begin_learnt(&mut self) {
        self.learnt_from = self.cells.len();
    }

    #[inline(always)]
    pub(crate) fn learnt_from(&self) -> usize {
        self.learnt_from
    }

    #[inline(always)]
    pub(crate) fn end(&self) -> usize {
        self.cells.len()
    }

    #[inline(always)]
    pub(crate) fn size(&self, place: u32) -> u32 {
        at(&self.cells, place as usize)
    }

    #[inline(always)]
    pub(crate) fn id(&self, place: u32) -> u32 {
        at(&self.cells, place as usize + NUMBER)
    }

    #[inline(always)]
    pub(crate) fn glue(&self, place: u32) -> u32 {
        at(&self.cells, place as usize + GLUE)
    }

    /// A literal of a clause, by its number from 0 on.
    #[inline(always)]
    pub(crate) fn literal(&self, place: u32, number: u32) -> u32 {
        at(&self.cells, place as usize + LITERALS + number as usize)
    }

    /// The first clause that watches a literal.
    #[inline(always)]
    pub(crate) fn first(&self, literal: u32) -> u32 {
        at(&self.first, literal as usize)
    }

    /// Which of its two watched literals a clause watches there.
    #[inline(always)]
    pub(crate) fn which(&self, place: u32, literal: u32) -> u32 {
        if self.literal(place, 0) == literal {
            0
        } else {
            1
        }
    }

    /// Where the link of a watched literal stands.
    #[inline(always)]
    pub(crate) fn link(&self, place: u32, which: u32) -> usize {
        place as usize + LINKS + which as usize
    }

    /// The next clause that watches the same literal.
    #[inline(always)]
    pub(crate) fn next(&self, place: u32, which: u32) -> u32 {
        at(&self.cells, self.link(place, which))
    }

    /// Hangs a clause in a literal's list.
    #[inline(always)]
    fn hang(&mut self, place: u32, which: u32, literal: u32) {
        let old = self.first(literal);
        let link = self.link(place, which);
        put(&mut self.cells, link, old);
        put(&mut self.first, literal as usize, place);
    }

    /// Hangs a clause in the lists of its first two literals.
    pub(crate) fn watch(&mut self, place: u32) {
        if self.size(place) < 2 {
            return;
        }
        for which in 0..2 {
            let literal = self.literal(place, which);
            self.hang(place, which, literal);
        }
    }

    /// Watches the literal of this number in place of one that became false, which hung at this link, or first (0).
    #[inline(always)]
    pub(crate) fn watch_other(&mut self, place: u32, which: u32, number: u32, link: usize) {
        let base = place as usize + LITERALS;
        let old = self.literal(place, which);
        let new = self.literal(place, number);
        let next = self.next(place, which);
        put(&mut self.cells, base + which as usize, new);
        put(&mut self.cells, base + number as usize, old);
        if link == 0 {
            put(&mut self.first, old as usize, next);
        } else {
            put(&mut self.cells, link, next);
        }
        self.hang(place, which, new);
    }

    /// Stores a clause and watches it. None where numbers of 32 bits have no place left for it.
    pub(crate) fn store(
        &mut self,
        literals: &Vec<u32>,
        id: u64,
        glue: u32,
    ) -> Result<Option<u32>, Memory> {
        let place = narrow(self.cells.len());
        if id >= 4294967295 || self.cells.len() >= 4000000000 {
            return Ok(None);
        }
        self.cells.push(narrow(literals.len()))?;
        self.cells.push(id as u32)?;
        self.cells.push(glue)?;
        self.cells.push(0)?;
        self.cells.push(0)?;
        self.cells.extend_from_slice(literals.as_slice())?;
        self.watch(place);
        Ok(Some(place))
    }

    /// The place behind a clause.
    #[inline(always)]
    pub(crate) fn behind(&self, place: usize) -> usize {
        place
            .saturating_add(LITERALS)
            .saturating_add(at(&self.cells, place) as usize)
    }

    /// Copies a clause to an earlier place, and answers the place behind it there.
    pub(crate) fn copy_down(&mut self, from: usize, to: usize) -> usize {
        let whole = self.behind(from).saturating_sub(from);
        for step in 0..whole {
            let cell = at(&self.cells, from.saturating_add(step));
            put(&mut self.cells, to.saturating_add(step), cell);
        }
        to.saturating_add(whole)
    }

    /// Drops all from a place on, and watches what is left anew.
    pub(crate) fn end_at(&mut self, end: usize) {
        self.cells.truncate(end);
        self.first.fill(0);
        let mut place: usize = 1;
        for _ in 0..u64::MAX {
            if place >= self.cells.len() {
                break;
            }
            self.watch(narrow(place));
            place = self.behind(place);
        }
    }
}
