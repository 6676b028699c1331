ghost use Rattle.std.specs.Prelude.{◌≡◌, ◌≤◌, ◌<◌, ◌^◌, ◌++◌, length, [], ◌∷◌, drop, map, IfOk, OnOk, MatchOption, slice_index_or};
ghost use Rattle.std.specs.List.{AllByRecursion};
ghost use Rattle.std.specs.Option.{option_copied};
ghost use Rattle.lola_bits.specs.BitLists.{number_of};
ghost use Rattle.lola_elab.specs.Elaborated.{vector_widths};
ghost use Rattle.lola_elab.specs.Logic.{logic_value};
ghost use Rattle.lola_app.specs.Deciding.{IsFew, IsFirstWide, IsDecidedBy};
ghost use Rattle.lola_app.specs.Obligations.{total};
ghost use Rattle.lola_app.specs.Trial.{but_one, seen, leaves_after, place_fits, start_passes, state_passes, reset_passes, end_passes, premises, passes, tried_widths, IsTriable};
ghost use Rattle.lola_app.specs.Valuations.{AreWithin, numbers_of, Always, IsLeast};

use crate::claim::{Claim, Start, State};
use crate::cycle::{leaf_after, leaves_after, leaves_before, vectors_with};
use crate::obligation::{Goal, Obligation, Which};
use crate::subject::{Subject, add_widths};
use lola_bits::{Memory, Seq};
use lola_elab::{Logic, Vector, eval};
use std::alloc::{AllocError, Global};

// Obligations are decided by trying all cases: each valuation of what an obligation leaves free, as the
// numbers from 0 upward whose bits are those of its vectors, one behind the other. So the first case that
// fails is the least, no case is left out, and a proof needs no more than that counting meets every number.
// Diagrams of decisions mostly take less time, and so does a search that learns clauses, which can bring a
// proof that there is no violation; both are for designs that leave more bits free.
//
// It costs a cycle of the design for each of 2 to the number of free bits, at most 16, and the memory of one
// case. The most that a table of the small form can ask took 11 to 14 seconds (docs/PERFORMANCE.md).

/// Whether all obligations hold at every valuation, or the number of the first that fails with its
/// least valuation: the numbers of what it leaves free, in order.
#[derive(Debug, Drop)]
pub enum Decided {
    All,
    Fails { number: usize, numbers: Vec<u32> },
}

/// The number of the first obligation that leaves more than 16 bits free.
pub fn first_wide(
    alloc: Global,
    subject: &Subject,
    list: &[Obligation],
) -> Result<Option<usize>, AllocError>
    requires { IsTriable subject.now }
    ensures { IfOk result (λ found. MatchOption found (AllByRecursion (IsFew subject.now) list.now) (λ number. IsFirstWide subject.now list.now number)) }
{
    for (number, obligation) in list.iter().enumerate() {
        if free_bits(alloc, subject, obligation.which)? > 16 {
            return Ok(Some(number));
        }
    }
    Ok(None)
}

/// How many bits an obligation leaves free.
pub fn free_bits(alloc: Global, subject: &Subject, which: Which) -> Result<usize, AllocError>
    requires { IsTriable subject.now }
    ensures { IfOk result (λ count. count ≡ total (tried_widths subject.now which)) }
{
    let widths = free_widths(alloc, subject, which)?;
    Ok(total(widths.as_slice()))
}

/// Tries all valuations of each obligation in turn, each of which leaves at most 16 bits free.
pub fn decide(alloc: Global, subject: &Subject, list: &[Obligation]) -> Result<Decided, Memory>
    requires triable { IsTriable subject.now }
    requires few { AllByRecursion (IsFew subject.now) list.now }
    ensures { IfOk result (λ decided. IsDecidedBy subject.now list.now decided) }
{
    for (number, obligation) in list.iter().enumerate() {
        match first_failing(alloc, subject, obligation.which)? {
            Some(numbers) => return Ok(Decided::Fails { number, numbers }),
            None => {}
        }
    }
    Ok(Decided::All)
}

/// The least valuation at which an obligation fails.
fn first_failing(alloc: Global, subject: &Subject, which: Which) -> Result<Option<Vec<u32>>, Memory>
    requires triable { IsTriable subject.now }
    requires few { total (tried_widths subject.now which) ≤ 16 }
    ensures { IfOk result (λ found. MatchOption found (Always (passes subject.now which) (tried_widths subject.now which)) (λ numbers. IsLeast (passes subject.now which) (tried_widths subject.now which) numbers.items)) }
{
    let widths = free_widths(alloc, subject, which)?;
    let count = total(widths.as_slice());
    for number in 0..1u32 << count {
        let numbers = numbers_of(alloc, widths.as_slice(), number)?;
        if !holds_at(alloc, subject, which, numbers.as_slice())? {
            return Ok(Some(numbers));
        }
    }
    Ok(None)
}

/// The widths in bits of what an obligation leaves free.
pub fn free_widths(alloc: Global, subject: &Subject, which: Which) -> Result<Vec<usize>, AllocError>
    ensures { IfOk result (λ widths. widths.items ≡ tried_widths subject.now which) }
{
    match which {
        Which::Cover => word_widths(alloc),
        _ => cycle_widths(alloc, subject),
    }
}

fn word_widths(alloc: Global) -> Result<Vec<usize>, AllocError>
    ensures { IfOk result (λ widths. widths.items ≡ 1 ∷ []) }
{
    let mut widths = Vec::new(alloc);
    widths.push(1usize)?;
    Ok(widths)
}

/// The widths of the inputs but RESET, and of the registers.
fn cycle_widths(alloc: Global, subject: &Subject) -> Result<Vec<usize>, AllocError>
    ensures { IfOk result (λ widths. widths.items ≡ but_one subject.now.reset (vector_widths subject.now.design.inputs.items) (vector_widths subject.now.design.registers.items)) }
{
    let mut widths = Vec::new(alloc);
    let inputs = subject.design.inputs.as_slice();
    let (before, behind) = inputs.split_at(subject.reset.min(inputs.len()));
    add_widths(&mut widths, before)?;
    add_widths(&mut widths, behind_first(behind))?;
    add_widths(&mut widths, subject.design.registers.as_slice())?;
    Ok(widths)
}

/// The vectors behind the first.
pub fn behind_first(vectors: &[Vector]) -> &[Vector]
    ensures { result.now ≡ drop 1 vectors.now }
{
    match vectors {
        [] => vectors,
        [_, rest @ ..] => rest,
    }
}

/// How many bits vectors of these widths have.
fn total(widths: &[usize]) -> usize
    requires { total widths.now ≤ 16777216 }
    ensures { result ≡ total widths.now }
{
    let mut bits = 0;
    for width in widths {
        bits += *width;
    }
    bits
}

/// The numbers of vectors whose bits, one behind the other, are those of one number.
fn numbers_of(alloc: Global, widths: &[usize], number: u32) -> Result<Vec<u32>, AllocError>
    requires { total widths.now ≤ 16 }
    ensures { IfOk result (λ numbers. numbers.items ≡ numbers_of widths.now number) }
{
    let mut left = total(widths);
    let mut rest = number;
    let mut numbers = Vec::new(alloc);
    for width in widths {
        left -= *width;
        let unit = 1u32 << left;
        numbers.push(rest / unit)?;
        rest %= unit;
    }
    Ok(numbers)
}

/// Whether an obligation holds at a valuation: a premise fails, or the goal holds.
fn holds_at(alloc: Global, subject: &Subject, which: Which, numbers: &[u32]) -> Result<bool, Memory>
    requires triable { IsTriable subject.now }
    requires within { AreWithin (tried_widths subject.now which) numbers.now }
    ensures { IfOk result (λ holds. holds ≡ passes subject.now which numbers.now) }
{
    match which {
        Which::Cover => Ok(fits(subject.claim.pattern, first_number(numbers) == 1)),
        Which::Reset { goal } => {
            let vectors = vectors_with(alloc, subject, subject.claim.active, numbers)?;
            let before = leaves_before(alloc, vectors.as_slice())?;
            reset_holds(alloc, subject, goal, vectors.as_slice(), before.as_slice())
        }
        Which::End { goal } => {
            let vectors = vectors_with(alloc, subject, !subject.claim.active, numbers)?;
            let before = leaves_before(alloc, vectors.as_slice())?;
            if !premises_hold(&subject.claim, before.as_slice()) {
                return Ok(true);
            }
            end_holds(alloc, subject, goal, vectors.as_slice(), before.as_slice())
        }
    }
}

fn first_number(numbers: &[u32]) -> u32
    ensures { result ≡ slice_index_or numbers.now 0 0 }
{
    if numbers.is_empty() { 0 } else { numbers[0] }
}

/// Whether a pattern of one place fits a word.
fn fits(pattern: u8, word: bool) -> bool
    ensures { result ≡ place_fits pattern word }
{
    if pattern == b'-' {
        true
    } else if word {
        pattern == b'1'
    } else {
        pattern == b'0'
    }
}

/// Whether the state shows the invariant and a boundary, and the word, which is 0, is in the class.
fn premises_hold(claim: &Claim, before: &[bool]) -> bool
    ensures { result ≡ premises claim.now before.now }
{
    eval(&claim.invariant, before) && eval(&claim.boundary, before) && fits(claim.pattern, false)
}

/// Whether a goal holds after a reset cycle.
fn reset_holds(
    alloc: Global,
    subject: &Subject,
    goal: Goal,
    vectors: &[Seq<bool>],
    before: &[bool],
) -> Result<bool, Memory>
    requires triable { IsTriable subject.now }
    requires sized { map length vectors.now ≡ subject.now.widths.items }
    requires before { before.now ≡ seen (map length vectors.now) (map number_of vectors.now) }
    ensures { IfOk result (λ holds. holds ≡ reset_passes subject.now.claim goal before.now (leaves_after subject.now (map number_of vectors.now))) }
{
    match goal {
        Goal::Invariant => holds_after(alloc, subject, &subject.claim.invariant, vectors, before),
        Goal::Boundary => holds_after(alloc, subject, &subject.claim.boundary, vectors, before),
        Goal::State { number } => {
            let start = subject.claim.starts.get(number);
            start_holds(alloc, subject, start, vectors, before)
        }
    }
}

fn start_holds(
    alloc: Global,
    subject: &Subject,
    start: Option<&Start>,
    vectors: &[Seq<bool>],
    before: &[bool],
) -> Result<bool, Memory>
    requires triable { IsTriable subject.now }
    requires sized { map length vectors.now ≡ subject.now.widths.items }
    requires before { before.now ≡ seen (map length vectors.now) (map number_of vectors.now) }
    ensures { IfOk result (λ holds. holds ≡ start_passes (option_copied start.entry) before.now (leaves_after subject.now (map number_of vectors.now))) }
{
    match start {
        Some(start) => {
            let after = leaf_after(alloc, subject, vectors, before, start.leaf)?;
            Ok(after == eval(&start.value, before))
        }
        None => Ok(true),
    }
}

/// Whether a goal holds at the end of the instruction.
fn end_holds(
    alloc: Global,
    subject: &Subject,
    goal: Goal,
    vectors: &[Seq<bool>],
    before: &[bool],
) -> Result<bool, Memory>
    requires triable { IsTriable subject.now }
    requires sized { map length vectors.now ≡ subject.now.widths.items }
    requires before { before.now ≡ seen (map length vectors.now) (map number_of vectors.now) }
    ensures { IfOk result (λ holds. holds ≡ end_passes subject.now.claim goal before.now (leaves_after subject.now (map number_of vectors.now))) }
{
    match goal {
        Goal::Invariant => holds_after(alloc, subject, &subject.claim.invariant, vectors, before),
        Goal::Boundary => holds_after(alloc, subject, &subject.claim.boundary, vectors, before),
        Goal::State { number } => {
            let state = subject.claim.states.get(number);
            state_holds(alloc, subject, state, vectors, before)
        }
    }
}

fn state_holds(
    alloc: Global,
    subject: &Subject,
    state: Option<&State>,
    vectors: &[Seq<bool>],
    before: &[bool],
) -> Result<bool, Memory>
    requires triable { IsTriable subject.now }
    requires sized { map length vectors.now ≡ subject.now.widths.items }
    requires before { before.now ≡ seen (map length vectors.now) (map number_of vectors.now) }
    ensures { IfOk result (λ holds. holds ≡ state_passes (option_copied state.entry) before.now (leaves_after subject.now (map number_of vectors.now))) }
{
    match state {
        Some(state) => {
            let after = leaf_after(alloc, subject, vectors, before, state.leaf)?;
            Ok(after == eval(&state.set, before))
        }
        None => Ok(true),
    }
}

/// Whether an expression holds behind the clock edge.
fn holds_after(
    alloc: Global,
    subject: &Subject,
    logic: &Logic,
    vectors: &[Seq<bool>],
    before: &[bool],
) -> Result<bool, Memory>
    requires triable { IsTriable subject.now }
    requires sized { map length vectors.now ≡ subject.now.widths.items }
    requires before { before.now ≡ seen (map length vectors.now) (map number_of vectors.now) }
    ensures { IfOk result (λ holds. holds ≡ logic_value logic.now (leaves_after subject.now (map number_of vectors.now))) }
{
    let after = leaves_after(alloc, subject, vectors, before)?;
    Ok(eval(logic, after.as_slice()))
}
