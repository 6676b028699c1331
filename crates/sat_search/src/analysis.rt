//! What is learnt from a conflict: the clause of the first literal through which all ways of the last guess go (the first
//! unique implication point), without the literals that follow from its others.

use crate::arena::Arena;
use crate::cells::{at, byte_at, filled_bytes, narrow, put, put_byte};
use crate::heap::Heap;
use crate::literal::{inner, negated, outer};
use crate::trail::Trail;
use lola_bits::{Memory, Seq};
use std::alloc::Global;

/// The marks of variables: in the clause, resolved away, implied by the clause, not implied by it.
const KEPT: u8 = 1;

const RESOLVED: u8 = 2;

const IMPLIED: u8 = 3;

const FREE: u8 = 4;

/// No variable.
const NOTHING: u32 = 4294967295;

/// The clause that is being learnt, and what it rests on.
#[derive(Drop)]
pub(crate) struct Analysis {
    /// Of each variable its mark, or 0.
    seen: Vec<u8>,
    /// The variables with marks.
    touched: Vec<u32>,
    /// The clause.
    pub(crate) learnt: Vec<u32>,
    /// The positions on the trail whose reasons are hints.
    resolved: Vec<u32>,
    /// The way from a literal down its reasons, and how far each reason has been looked at.
    path: Vec<u32>,
    spots: Vec<u32>,
    /// Room to sort levels in.
    sorted: Vec<u32>,
}

impl Analysis {
    pub(crate) fn new(alloc: Global, vars: u32) -> Result<Analysis, Memory> {
        Ok(Analysis {
            seen: filled_bytes(alloc, vars as usize)?,
            touched: Vec::new(alloc),
            learnt: Vec::new(alloc),
            resolved: Vec::new(alloc),
            path: Vec::new(alloc),
            spots: Vec::new(alloc),
            sorted: Vec::new(alloc),
        })
    }

    #[inline(always)]
    fn mark_of(&self, var: u32) -> u8 {
        byte_at(&self.seen, var as usize)
    }

    #[inline(always)]
    fn set_mark(&mut self, var: u32, mark: u8) {
        put_byte(&mut self.seen, var as usize, mark);
    }

    /// Takes all marks away.
    fn unmark(&mut self) {
        for n in 0..self.touched.len() {
            let var = at(&self.touched, n);
            self.set_mark(var, 0);
        }
        self.touched.clear();
    }

    /// Takes the literals of a clause of a Cnf, each once, and answers whether a literal and its negation are among them.
    pub(crate) fn take_in(&mut self, clause: &[i32]) -> Result<bool, Memory> {
        self.learnt.clear();
        let mut always = false;
        for &literal in clause {
            let new = inner(literal);
            let sign = 1 + (new % 2) as u8;
            let mark = self.mark_of(new / 2);
            if mark == 0 {
                self.touched.push(new / 2)?;
                self.set_mark(new / 2, sign);
                self.learnt.push(new)?;
            } else if mark != sign {
                always = true;
            }
        }
        self.unmark();
        Ok(always)
    }

    /// Marks the literals of a clause but that of one variable, and answers how many new ones are of the present level.
    /// Those of lower levels but 0 go into the learnt clause.
    fn mark(
        &mut self,
        arena: &Arena,
        trail: &Trail,
        heap: &mut Heap,
        place: u32,
        but: u32,
    ) -> Result<usize, Memory> {
        let mut open: usize = 0;
        for number in 0..arena.size(place) {
            let literal = arena.literal(place, number);
            let var = literal / 2;
            let level = trail.level_of(var) as usize;
            if var != but && level > 0 && self.mark_of(var) == 0 {
                self.set_mark(var, KEPT);
                self.touched.push(var)?;
                heap.bump(var);
                if level >= trail.level() {
                    open = open.saturating_add(1);
                } else {
                    self.learnt.push(literal)?;
                }
            }
        }
        Ok(open)
    }

    /// Resolves back to the one literal of the present level, which becomes the first.
    fn resolve(
        &mut self,
        arena: &Arena,
        trail: &Trail,
        heap: &mut Heap,
        conflict: u32,
    ) -> Result<(), Memory> {
        self.learnt.push(0)?;
        let mut open = self.mark(arena, trail, heap, conflict, NOTHING)?;
        let mut position = trail.count();
        for _ in 0..u64::MAX {
            if position == 0 {
                break;
            }
            position = position - 1;
            let literal = trail.literal_at(position);
            let var = literal / 2;
            if self.mark_of(var) == KEPT {
                if open <= 1 {
                    put(&mut self.learnt, 0, negated(literal));
                    break;
                }
                self.resolved.push(narrow(position))?;
                let more = self.mark(arena, trail, heap, trail.reason_of(var), var)?;
                open = open.saturating_sub(1).saturating_add(more);
                self.set_mark(var, RESOLVED);
            }
        }
        Ok(())
    }

    /// Leaves the search for what implies a literal: nothing on the way is implied.
    fn give_up(&mut self) {
        for n in 1..self.path.len() {
            let var = at(&self.path, n);
            self.set_mark(var, FREE);
        }
        self.path.clear();
        self.spots.clear();
    }

    /// One step back: all that the reason of the last variable on the way needs is implied.
    fn step_back(&mut self, var: u32, depth: usize) {
        if depth > 1 {
            self.set_mark(var, IMPLIED);
        }
        self.path.truncate(depth.saturating_sub(1));
        self.spots.truncate(depth.saturating_sub(1));
    }

    /// One step on, to a variable that the reason needs. False where nothing implies it.
    fn step_on(&mut self, trail: &Trail, var: u32, other: u32) -> Result<bool, Memory> {
        let mark = self.mark_of(other);
        if other == var || trail.level_of(other) == 0 || mark != 0 && mark != FREE {
            return Ok(true);
        }
        if mark == FREE || trail.reason_of(other) == 0 {
            return Ok(false);
        }
        self.touched.push(other)?;
        self.path.push(other)?;
        self.spots.push(0)?;
        Ok(true)
    }

    /// Whether a literal of the learnt clause follows from its others by reasons.
    fn is_implied(&mut self, arena: &Arena, trail: &Trail, literal: u32) -> Result<bool, Memory> {
        if trail.reason_of(literal / 2) == 0 {
            return Ok(false);
        }
        self.path.push(literal / 2)?;
        self.spots.push(0)?;
        for _ in 0..u64::MAX {
            let depth = self.path.len();
            if depth == 0 {
                return Ok(true);
            }
            let var = at(&self.path, depth - 1);
            let spot = at(&self.spots, depth - 1);
            let reason = trail.reason_of(var);
            if spot >= arena.size(reason) {
                self.step_back(var, depth);
            } else {
                put(&mut self.spots, depth - 1, spot.saturating_add(1));
                let other = arena.literal(reason, spot) / 2;
                if !self.step_on(trail, var, other)? {
                    self.give_up();
                    return Ok(false);
                }
            }
        }
        Ok(false)
    }

    /// Leaves out the literals that follow from the others.
    fn shorten(&mut self, arena: &Arena, trail: &Trail) -> Result<(), Memory> {
        let mut kept: usize = 1;
        for place in 1..self.learnt.len() {
            let literal = at(&self.learnt, place);
            if self.is_implied(arena, trail, literal)? {
                self.resolved.push(trail.position_of(literal / 2))?;
            } else {
                put(&mut self.learnt, kept, literal);
                kept = kept.saturating_add(1);
            }
        }
        self.learnt.truncate(kept);
        Ok(())
    }

    /// Notes what a clause needs besides the learnt one: literals that rest on no guess, and implied ones.
    fn need(&mut self, arena: &Arena, trail: &Trail, place: u32) -> Result<(), Memory> {
        for number in 0..arena.size(place) {
            let var = arena.literal(place, number) / 2;
            let mark = self.mark_of(var);
            if mark == IMPLIED || mark != RESOLVED && trail.level_of(var) == 0 {
                if mark == 0 {
                    self.touched.push(var)?;
                }
                self.set_mark(var, RESOLVED);
                self.resolved.push(trail.position_of(var))?;
            }
        }
        Ok(())
    }

    /// Notes all that the conflict and the reasons so far need.
    fn settle(&mut self, arena: &Arena, trail: &Trail, conflict: u32) -> Result<(), Memory> {
        self.need(arena, trail, conflict)?;
        for n in 0..usize::MAX {
            if n >= self.resolved.len() {
                break;
            }
            let literal = trail.literal_at(at(&self.resolved, n) as usize);
            self.need(arena, trail, trail.reason_of(literal / 2))?;
        }
        Ok(())
    }

    /// Learns a clause from a clause all of whose literals are false. Where no guess was made it is empty.
    pub(crate) fn learn(
        &mut self,
        arena: &Arena,
        trail: &Trail,
        heap: &mut Heap,
        conflict: u32,
    ) -> Result<(), Memory> {
        self.learnt.clear();
        self.resolved.clear();
        if trail.level() > 0 {
            self.resolve(arena, trail, heap, conflict)?;
            self.shorten(arena, trail)?;
        }
        self.settle(arena, trail, conflict)?;
        self.unmark();
        Ok(())
    }

    /// Marks the literals of a clause. Those that were guessed go into the learnt clause, and of the others the reasons
    /// are hints.
    fn trace(&mut self, arena: &Arena, trail: &Trail, place: u32) -> Result<(), Memory> {
        for number in 0..arena.size(place) {
            let literal = arena.literal(place, number);
            let var = literal / 2;
            if self.mark_of(var) == 0 {
                self.set_mark(var, RESOLVED);
                self.touched.push(var)?;
                if trail.reason_of(var) == 0 {
                    self.learnt.push(literal)?;
                } else {
                    self.resolved.push(trail.position_of(var))?;
                }
            }
        }
        Ok(())
    }

    /// Learns, from a clause all of whose literals are false, that the guesses that it rests on can't stand together.
    pub(crate) fn learn_guesses(
        &mut self,
        arena: &Arena,
        trail: &Trail,
        conflict: u32,
    ) -> Result<(), Memory> {
        self.learnt.clear();
        self.resolved.clear();
        self.trace(arena, trail, conflict)?;
        for n in 0..usize::MAX {
            if n >= self.resolved.len() {
                break;
            }
            let literal = trail.literal_at(at(&self.resolved, n) as usize);
            self.trace(arena, trail, trail.reason_of(literal / 2))?;
        }
        self.unmark();
        Ok(())
    }

    /// Puts a literal of the highest level first.
    pub(crate) fn latest_first(&mut self, trail: &Trail) {
        let mut best: usize = 0;
        for place in 1..self.learnt.len() {
            let here = trail.level_of(at(&self.learnt, place) / 2);
            if here > trail.level_of(at(&self.learnt, best) / 2) {
                best = place;
            }
        }
        let literal = at(&self.learnt, best);
        let old = at(&self.learnt, 0);
        put(&mut self.learnt, best, old);
        put(&mut self.learnt, 0, literal);
    }

    /// The ids of the reasons of what was resolved, in the order of the trail, and of the conflict.
    pub(crate) fn hints(
        &mut self,
        alloc: Global,
        arena: &Arena,
        trail: &Trail,
        conflict: u32,
    ) -> Result<Seq<i64>, Memory> {
        self.resolved.sort_unstable();
        let mut hints: Vec<i64> = Vec::new(alloc);
        for &position in &self.resolved {
            let literal = trail.literal_at(position as usize);
            hints.push(i64::from(arena.id(trail.reason_of(literal / 2))))?;
        }
        hints.push(i64::from(arena.id(conflict)))?;
        Ok(Seq::of(hints))
    }

    /// The learnt clause in the literals of the Cnf.
    pub(crate) fn told(&self, alloc: Global) -> Result<Seq<i32>, Memory> {
        let mut clause: Vec<i32> = Vec::new(alloc);
        for &literal in &self.learnt {
            clause.push(outer(literal))?;
        }
        Ok(Seq::of(clause))
    }

    /// How many levels the literals of the learnt clause have.
    pub(crate) fn glue(&mut self, trail: &Trail) -> Result<u32, Memory> {
        self.sorted.clear();
        for &literal in &self.learnt {
            self.sorted.push(trail.level_of(literal / 2))?;
        }
        self.sorted.sort_unstable();
        let mut glue: u32 = 0;
        let mut last = NOTHING;
        for &level in &self.sorted {
            if level != last {
                glue = glue.saturating_add(1);
            }
            last = level;
        }
        Ok(glue)
    }

    /// Puts a literal of the highest level but the first one's second, and answers that level.
    pub(crate) fn second(&mut self, trail: &Trail) -> usize {
        if self.learnt.len() < 2 {
            return 0;
        }
        let mut best: usize = 1;
        for place in 2..self.learnt.len() {
            let here = trail.level_of(at(&self.learnt, place) / 2);
            if here > trail.level_of(at(&self.learnt, best) / 2) {
                best = place;
            }
        }
        let literal = at(&self.learnt, best);
        let old = at(&self.learnt, 1);
        put(&mut self.learnt, best, old);
        put(&mut self.learnt, 1, literal);
        trail.level_of(literal / 2) as usize
    }
}
