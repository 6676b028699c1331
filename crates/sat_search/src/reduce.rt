//! Learnt clauses of much glue are let go, so that the others are found fast.

use crate::arena::Arena;
use crate::cells::{at, narrow};
use crate::trail::{TRUE, Trail};
use lola_bits::Memory;
use std::alloc::Global;

/// The glue that half of the learnt clauses have at most.
fn usual_glue(alloc: Global, arena: &Arena) -> Result<u32, Memory> {
    let mut glues: Vec<u32> = Vec::new(alloc);
    let mut place = arena.learnt_from();
    for _ in 0..u64::MAX {
        if place >= arena.end() {
            break;
        }
        glues.push(arena.glue(narrow(place)))?;
        place = arena.behind(place);
    }
    glues.sort_unstable();
    Ok(at(&glues, glues.len() / 2))
}

/// The variable that a clause is the reason of, if any. It is that of one of its first two literals.
fn reason_for(arena: &Arena, trail: &Trail, place: u32) -> Option<u32> {
    for number in 0..2 {
        let literal = arena.literal(place, number);
        if trail.value(literal) == TRUE && trail.reason_of(literal / 2) == place {
            return Some(literal / 2);
        }
    }
    None
}

/// Lets go of the learnt clauses of much glue, where no guess is made, and notes their ids.
pub(crate) fn reduce(
    alloc: Global,
    arena: &mut Arena,
    trail: &mut Trail,
    dropped: &mut Vec<u64>,
) -> Result<(), Memory> {
    let usual = usual_glue(alloc, arena)?;
    let mut from = arena.learnt_from();
    let mut to = from;
    let end = arena.end();
    for _ in 0..u64::MAX {
        if from >= end {
            break;
        }
        let place = narrow(from);
        let behind = arena.behind(from);
        let glue = arena.glue(place);
        let reason = reason_for(arena, trail, place);
        if arena.size(place) > 2 && glue > 2 && glue >= usual && reason.is_none() {
            dropped.push(u64::from(arena.id(place)))?;
        } else {
            match reason {
                Some(var) => trail.set_reason(var, narrow(to)),
                None => {}
            }
            to = arena.copy_down(from, to);
        }
        from = behind;
    }
    arena.end_at(to);
    Ok(())
}
