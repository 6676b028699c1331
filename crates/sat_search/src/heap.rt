//! A heap of variables by activity. Nothing is promised but safety.

use crate::cells::{at, long_at, narrow, put, put_long};
use lola_bits::Memory;
use std::alloc::Global;

/// The place of a variable that isn't in the heap.
const NOWHERE: u32 = 4294967295;

/// The variables in the order of their activity, the most active first.
#[derive(Drop)]
pub(crate) struct Heap {
    activity: Vec<u64>,
    increment: u64,
    items: Vec<u32>,
    places: Vec<u32>,
    length: usize,
}

impl Heap {
    /// All variables, each as active as the others.
    pub(crate) fn new(alloc: Global, vars: u32) -> Result<Heap, Memory> {
        let mut activity: Vec<u64> = Vec::new(alloc);
        let mut items: Vec<u32> = Vec::new(alloc);
        let mut places: Vec<u32> = Vec::new(alloc);
        for var in 0..vars {
            activity.push(0)?;
            items.push(var)?;
            places.push(var)?;
        }
        Ok(Heap {
            activity,
            increment: 1024,
            items,
            places,
            length: vars as usize,
        })
    }

    #[inline(always)]
    fn activity_of(&self, place: usize) -> u64 {
        long_at(&self.activity, at(&self.items, place) as usize)
    }

    #[inline(always)]
    fn set(&mut self, place: usize, var: u32) {
        put(&mut self.items, place, var);
        put(&mut self.places, var as usize, narrow(place));
    }

    fn up(&mut self, from: usize) {
        let var = at(&self.items, from);
        let active = long_at(&self.activity, var as usize);
        let mut place = from;
        for _ in 0..64 {
            if place == 0 {
                break;
            }
            let parent = (place - 1) / 2;
            if self.activity_of(parent) >= active {
                break;
            }
            let moved = at(&self.items, parent);
            self.set(place, moved);
            place = parent;
        }
        self.set(place, var);
    }

    fn down(&mut self, from: usize) {
        let var = at(&self.items, from);
        let active = long_at(&self.activity, var as usize);
        let mut place = from;
        for _ in 0..64 {
            let left = place.saturating_mul(2).saturating_add(1);
            let right = left.saturating_add(1);
            if left >= self.length {
                break;
            }
            let child = if right < self.length && self.activity_of(right) > self.activity_of(left) {
                right
            } else {
                left
            };
            if self.activity_of(child) <= active {
                break;
            }
            let moved = at(&self.items, child);
            self.set(place, moved);
            place = child;
        }
        self.set(place, var);
    }

    /// Puts a variable in, where it isn't.
    pub(crate) fn insert(&mut self, var: u32) {
        if at(&self.places, var as usize) != NOWHERE {
            return;
        }
        let place = self.length;
        self.length = self.length.saturating_add(1);
        self.set(place, var);
        self.up(place);
    }

    /// Takes the most active variable out.
    pub(crate) fn take(&mut self) -> Option<u32> {
        if self.length == 0 {
            return None;
        }
        let var = at(&self.items, 0);
        self.length = self.length.saturating_sub(1);
        let last = at(&self.items, self.length);
        put(&mut self.places, var as usize, NOWHERE);
        if self.length > 0 {
            self.set(0, last);
            self.down(0);
        }
        Some(var)
    }

    /// Makes a variable more active.
    pub(crate) fn bump(&mut self, var: u32) {
        let active = long_at(&self.activity, var as usize).saturating_add(self.increment);
        put_long(&mut self.activity, var as usize, active);
        if active > 1152921504606846976 {
            self.rescale();
        }
        let place = at(&self.places, var as usize);
        if place != NOWHERE {
            self.up(place as usize);
        }
    }

    /// Makes later bumps count more.
    pub(crate) fn decay(&mut self) {
        self.increment = self.increment.saturating_add(self.increment / 16);
    }

    fn rescale(&mut self) {
        for active in self.activity.iter_mut() {
            *active = *active / 1099511627776;
        }
        self.increment = self.increment / 1099511627776 + 1024;
    }
}
