ghost use Rattle.std.specs.Prelude.{◌≡◌, ℕ, ℤ, List, ◌<◌, ◌≤◌, ◌+◌, ◌*◌, length, neg_ℤ, unsigned_abs};
ghost use Rattle.std.specs.List.{All};
ghost use Rattle.lrat_check.specs.Hints.{hint_of, no_falses, falsify, falsify_all, make_true};
ghost use Rattle.lrat_check.specs.Marks.{place, marked, IsLatest, ForcesWithin};

use crate::hint::Hint;

/// The place of a literal's mark.
#[inline(always)]
fn place(literal: i32) -> usize
    ensures value { result ≡ place literal }
    ensures within { result ≤ 2 * unsigned_abs literal + 1 }
{
    let var = literal.unsigned_abs() as usize;
    if literal < 0 { 2 * var + 1 } else { 2 * var }
}

/// The place of the mark of a literal's negation.
#[inline(always)]
fn opposite_place(literal: i32) -> usize
    ensures value { result ≡ place (neg_ℤ literal) }
    ensures within { result ≤ 2 * unsigned_abs literal + 1 }
{
    let var = literal.unsigned_abs() as usize;
    if literal > 0 { 2 * var + 1 } else { 2 * var }
}

/// What a clause is, where the literals with this stamp are set false.
pub(crate) fn look(stamps: &[u32], stamp: u32, clause: &[i32]) -> Hint
    requires within { All (λ l. 2 * unsigned_abs l + 1 < length stamps.now) clause.now }
    ensures hint { result ≡ hint_of (marked stamps.now stamp) clause.now }
    ensures forced { ForcesWithin (length stamps.now) result }
{
    let mut first: Option<i32> = None;
    for &literal in clause {
        if stamps[place(literal)] != stamp {
            match first {
                None => first = Some(literal),
                Some(other) => {
                    if literal != other {
                        return Hint::Idle;
                    }
                }
            }
        }
    }
    match first {
        None => Hint::Conflict,
        Some(literal) => {
            if stamps[opposite_place(literal)] == stamp {
                Hint::Idle
            } else {
                Hint::Forces(literal)
            }
        }
    }
}

/// A stamp for the next line: no literal is set false under it.
pub(crate) fn fresh(stamps: &mut [u32], stamp: u32) -> u32
    requires latest { IsLatest stamps.old stamp }
    ensures positive { 1 ≤ result }
    ensures latest { IsLatest stamps.new result }
    ensures none { marked stamps.new result ≡ no_falses }
    ensures stays { length stamps.new ≡ length stamps.old }
{
    if stamp < u32::MAX {
        return stamp + 1;
    }
    stamps.fill(0);
    1
}

/// Sets a literal true.
#[inline(always)]
pub(crate) fn set_true(stamps: &mut [u32], stamp: u32, literal: i32)
    requires within { 2 * unsigned_abs literal + 1 < length stamps.now }
    requires latest { IsLatest stamps.old stamp }
    ensures falses { marked stamps.new stamp ≡ make_true (marked stamps.old stamp) literal }
    ensures latest { IsLatest stamps.new stamp }
    ensures stays { length stamps.new ≡ length stamps.old }
{
    stamps[opposite_place(literal)] = stamp;
}

/// Sets all literals of a clause false.
pub(crate) fn set_all_false(stamps: &mut [u32], stamp: u32, clause: &[i32])
    requires within { All (λ l. 2 * unsigned_abs l + 1 < length stamps.now) clause.now }
    requires latest { IsLatest stamps.old stamp }
    ensures falses { marked stamps.new stamp ≡ falsify_all (marked stamps.old stamp) clause.now }
    ensures latest { IsLatest stamps.new stamp }
    ensures stays { length stamps.new ≡ length stamps.old }
{
    for &literal in clause {
        stamps[place(literal)] = stamp;
    }
}
