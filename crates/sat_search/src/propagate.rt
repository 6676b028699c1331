//! What follows from what is true: a clause whose literals are all false but one makes that one true.

use crate::arena::Arena;
use crate::literal::negated;
use crate::trail::{FALSE, TRUE, Trail};

/// The number of a literal behind the watched ones that isn't false, or 0.
#[inline(always)]
fn spare(arena: &Arena, trail: &Trail, place: u32) -> u32 {
    for number in 2..arena.size(place) {
        if trail.value(arena.literal(place, number)) != FALSE {
            return number;
        }
    }
    0
}

/// Visits the clauses that watch a literal that became false, and answers a clause all of whose literals are false, or 0.
fn visit(arena: &mut Arena, trail: &mut Trail, falsed: u32) -> u32 {
    let mut place = arena.first(falsed);
    let mut link: usize = 0;
    for _ in 0..u64::MAX {
        if place == 0 {
            return 0;
        }
        let which = arena.which(place, falsed);
        let other = arena.literal(place, which ^ 1);
        let next = arena.next(place, which);
        let value = trail.value(other);
        let number = if value == TRUE {
            0
        } else {
            spare(arena, trail, place)
        };
        if number > 0 {
            arena.watch_other(place, which, number, link);
        } else {
            if value == FALSE {
                return place;
            }
            if value != TRUE {
                trail.assign(other, place);
            }
            link = arena.link(place, which);
        }
        place = next;
    }
    0
}

/// Follows what is true, and answers a clause all of whose literals are false, or 0.
pub(crate) fn propagate(arena: &mut Arena, trail: &mut Trail) -> u32 {
    for _ in 0..u64::MAX {
        match trail.next() {
            None => return 0,
            Some(literal) => {
                let conflict = visit(arena, trail, negated(literal));
                if conflict != 0 {
                    return conflict;
                }
            }
        }
    }
    0
}
