//! An engine is asked for claims until the clauses are refuted or satisfied, or the limit is spent.
ghost use Rattle.std.specs.Prelude.{◌≡◌, ◌≤◌, length, IfOk, false};
ghost use Rattle.lrat_check.specs.Clauses.{IsKnown};
ghost use Rattle.sat_search.specs.Found.{Answers, Splits};
ghost use Rattle.sat_search.specs.Ranges.{HasLiterals};
ghost use Rattle.sat_search.specs.Kept.{IsKept, KeptTo, Asked, Advanced};

use crate::engine::{Engine, Event};
use crate::found::{Found, SplitFound};
use crate::keeper::{Keeper, Outcome};
use crate::solver::Solver;
use crate::splitter::Splitter;
use crate::values::is_model;
use lola_bits::{Memory, Seq};
use lrat_check::{Cnf, closes};
use std::alloc::Global;

/// Tries a claim.
fn weigh(cnf: &Cnf, keeper: &mut Keeper, event: Event) -> Result<Outcome, Memory>
    requires kept { IsKept cnf.now keeper.old }
    ensures { IfOk result (Asked cnf.now keeper.new keeper.old.count) }
{
    match event {
        Event::Learnt {
            clause,
            hints,
            dropped,
        } => match keeper.keep(cnf, clause, hints) {
            Ok(true) => match keeper.let_go(cnf, dropped) {
                Ok(()) => Ok(Outcome::Added),
                Err(fault) => Err(fault),
            },
            Ok(false) => Ok(Outcome::Refused),
            Err(fault) => Err(fault),
        },
        Event::Model { values } => {
            if is_model(cnf, values.items()) {
                Ok(Outcome::Found(values))
            } else {
                Ok(Outcome::Refused)
            }
        }
        Event::GaveUp => Ok(Outcome::Refused),
    }
}

/// One more addition, or an assignment.
fn advance<E: Engine>(
    alloc: Global,
    cnf: &Cnf,
    keeper: &mut Keeper,
    running: &mut bool,
    engine: &mut E,
) -> Result<Option<Seq<bool>>, Memory>
    requires kept { IsKept cnf.now keeper.old }
    requires known { IsKnown cnf.now }
    requires literals { HasLiterals cnf.now }
    requires some { 1 ≤ length cnf.now.clauses }
    ensures { IfOk result (Advanced cnf.now keeper.new keeper.old.count) }
{
    if *running {
        let event = match engine.step() {
            Ok(event) => event,
            Err(fault) => return Err(fault),
        };
        match weigh(cnf, keeper, event) {
            Ok(Outcome::Added) => return Ok(None),
            Ok(Outcome::Found(values)) => return Ok(Some(values)),
            Ok(Outcome::Refused) => *running = false,
            Err(fault) => return Err(fault),
        }
    }
    match keeper.fill(alloc, cnf) {
        Ok(()) => Ok(None),
        Err(fault) => Err(fault),
    }
}

/// False for each variable, which makes no clauses true at all.
fn all_false(alloc: Global, vars: u32) -> Result<Seq<bool>, Memory>
    ensures { IfOk result (λ values. length values ≡ vars) }
{
    let mut values: Vec<bool> = Vec::new(alloc);
    match values.resize(vars as usize, false) {
        Ok(()) => Ok(Seq::of(values)),
        Err(_) => Err(Memory),
    }
}

/// The answer of a keeper that is closed, or has spent the limit.
fn finished(cnf: &Cnf, limit: u64, keeper: Keeper) -> Found
    requires kept { IsKept cnf.now keeper }
    requires within { keeper.count ≤ limit }
    requires spent { keeper.checker.checked.closed ≡ false → keeper.count ≡ limit }
    ensures { Answers cnf.now limit result }
{
    closes();
    if keeper.checker.closed() {
        Found::Refutation {
            lines: Seq::of(keeper.lines),
        }
    } else {
        Found::Spent {
            lines: Seq::of(keeper.lines),
        }
    }
}

/// What a search by this engine answers. Nothing is supposed of the engine: its claims are tried, and where one doesn't
/// hold or none comes any more, additions that are always good spend what is left of the limit.
pub fn conduct<E: Engine>(
    alloc: Global,
    cnf: &Cnf,
    limit: u64,
    engine: &mut E,
) -> Result<Found, Memory>
    requires known { IsKnown cnf.now }
    requires literals { HasLiterals cnf.now }
    requires positive { 1 ≤ limit }
    ensures { IfOk result (Answers cnf.now limit) }
{
    if cnf.clauses.items().is_empty() {
        return match all_false(alloc, cnf.vars) {
            Ok(values) => Ok(Found::Assignment { values }),
            Err(fault) => Err(fault),
        };
    }
    let mut keeper = match Keeper::new(alloc, cnf) {
        Ok(keeper) => keeper,
        Err(fault) => return Err(fault),
    };
    let mut running = true;
    while keeper.count < limit && !keeper.checker.closed() {
        match advance(alloc, cnf, &mut keeper, &mut running, engine) {
            Ok(None) => {}
            Ok(Some(values)) => return Ok(Found::Assignment { values }),
            Err(fault) => return Err(fault),
        }
    }
    Ok(finished(cnf, limit, keeper))
}

/// Looks for a refutation of the clauses by at most `limit` additions, or for values that make each of them true. Where
/// neither is found, the answer is `limit` good additions. The only refusal is Memory.
pub fn search(alloc: Global, cnf: &Cnf, limit: u64) -> Result<Found, Memory>
    requires known { IsKnown cnf.now }
    requires literals { HasLiterals cnf.now }
    requires positive { 1 ≤ limit }
    ensures { IfOk result (Answers cnf.now limit) }
{
    let mut solver = match Solver::new(alloc, cnf) {
        Ok(solver) => solver,
        Err(fault) => return Err(fault),
    };
    conduct(alloc, cnf, limit, &mut solver)
}

/// The most clauses that a split learns: one for each assignment of 16 inputs.
const SPLIT_LIMIT: u64 = 65536;

/// Tries all values of the inputs, and answers lines that refute the clauses, or the least assignment that makes them
/// true: that of the first input counts most, and false comes before true. Each variable that occurs and isn't an input
/// has to be a gate, of which the clauses say that it is the conjunction of two literals of smaller variables. The only
/// refusal is Memory.
pub fn split(alloc: Global, cnf: &Cnf, inputs: &[u32]) -> Result<SplitFound, Memory>
    requires known { IsKnown cnf.now }
    requires literals { HasLiterals cnf.now }
    requires few { length inputs.now ≤ 16 }
    ensures { IfOk result (Splits cnf.now) }
{
    let mut splitter = match Splitter::new(alloc, cnf, inputs) {
        Ok(splitter) => splitter,
        Err(fault) => return Err(fault),
    };
    match conduct(alloc, cnf, SPLIT_LIMIT, &mut splitter) {
        Ok(Found::Refutation { lines }) => Ok(SplitFound::Refutation { lines }),
        Ok(Found::Assignment { values }) => Ok(SplitFound::Assignment { values }),
        Ok(Found::Spent { lines: _ }) => Err(Memory),
        Err(fault) => Err(fault),
    }
}
