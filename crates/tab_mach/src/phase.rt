ghost use Rattle.std.specs.Prelude.{◌≡◌, ◌<◌, ◌≤◌, ◌+◌, ◌-◌, ◌++◌, length, map, replicate, Some, nat_eq, IfOk, OnOk};
ghost use Rattle.lola_bits.specs.Vector.{FitsWidth};
ghost use Rattle.lola_tree.specs.Tree.{tree};
ghost use Rattle.tab_tree.specs.Table.{access_tree, phase_tree, turns_tree};
ghost use Rattle.tab_tree.specs.Names.{table_number, table_value};
ghost use Rattle.tab_tree.specs.Step.{access_value, answer_at, cycles_of, end_words, entered, phase_row, phase_words, rows, stepped, times_of, turn_words};
ghost use Rattle.tab_mach.specs.Known.{names_of};
ghost use Rattle.tab_mach.specs.Begun.{words_of, table_of, steps_of, HasRoom, IsBegun, SameRoom};
ghost use Rattle.tab_mach.specs.Sound.{AreSound, AreWords};
ghost use Rattle.tab_mach.specs.Outcome.{AreLoaded, TurnsAreSmall};

use crate::known::Known;
use crate::scope::{Begun, scope, value_in, vector_begun};
use crate::words::{Kept, answer_at, put_turned, take_answer};
use lola_bits::Memory;
use lola_tree::Expr;
use std::alloc::Global;
use tab_tree::{Access, AccessRow, Answer, Phase, Turns};

/// Whether an expression is 1.
fn is_one(known: &Known, expr: &Expr) -> bool
    requires { AreSound (names_of known.now) }
    ensures { result ≡ nat_eq (table_number (names_of known.now) (tree expr.now)) 1 }
{
    value_in(known, expr).value == 1
}

/// What a row does to memory.
fn access(known: &Known, row: &AccessRow) -> Access
    requires { AreSound (names_of known.now) }
    ensures { result ≡ access_value (access_tree row.now) (names_of known.now) }
{
    match row {
        AccessRow::Idle | AccessRow::Take => Access::Idle,
        AccessRow::Load { adr, byte } => Access::Load {
            adr: value_in(known, adr),
            byte: is_one(known, byte),
        },
        AccessRow::Store { adr, byte, word } => Access::Store {
            adr: value_in(known, adr),
            byte: is_one(known, byte),
            word: value_in(known, word),
        },
        AccessRow::Fetch { adr } => Access::Fetch {
            adr: value_in(known, adr),
        },
    }
}

/// What each cycle of a phase does to memory: a turn does nothing.
fn phase_access(alloc: Global, begun: &Begun, kept: &Kept, phase: &Phase) -> Result<Access, Memory>
    requires begun { IsBegun begun.now }
    requires words { AreWords kept.now }
    ensures { IfOk result (λ a. a ≡ phase_row (table_of begun.now) (steps_of begun.now) begun.now.arch.now begun.now.word (turns_tree phase.now.turns) (access_tree phase.now.access) (words_of kept.now)) }
{
    match &phase.turns {
        Some(_) => Ok(Access::Idle),
        None => {
            let known = scope(alloc, begun, kept, None)?;
            Ok(access(&known, &phase.access))
        }
    }
}

/// Lets the accumulator of a phase begin.
fn enter(
    alloc: Global,
    begun: &Begun,
    kept: &mut Kept,
    number: usize,
    turns: &Turns,
) -> Result<(), Memory>
    requires begun { IsBegun begun.now }
    requires room { HasRoom kept.old number }
    requires sound { AreWords kept.old }
    ensures words { OnOk result (words_of kept.new ≡ entered (table_of begun.now) (steps_of begun.now) begun.now.arch.now begun.now.word number (turns_tree (Some turns.now)) (words_of kept.old)) }
    ensures room { OnOk result (SameRoom kept.old kept.new) }
    ensures sound { OnOk result (AreWords kept.new) }
{
    let first = match vector_begun(alloc, begun, kept, None, &turns.first) {
        Ok(first) => first,
        Err(fault) => return Err(fault),
    };
    put_turned(kept, number, first);
    Ok(())
}

/// Makes the turn of a count.
fn turn_once(
    alloc: Global,
    begun: &Begun,
    kept: &mut Kept,
    number: usize,
    turns: &Turns,
    count: u32,
) -> Result<(), Memory>
    requires begun { IsBegun begun.now }
    requires room { HasRoom kept.old number }
    requires sound { AreWords kept.old }
    requires few { count < 255 }
    ensures words { OnOk result (words_of kept.new ≡ stepped (table_of begun.now) (steps_of begun.now) begun.now.arch.now begun.now.word number (turns_tree (Some turns.now)) (words_of kept.old) count) }
    ensures room { OnOk result (SameRoom kept.old kept.new) }
    ensures sound { OnOk result (AreWords kept.new) }
{
    let next = match vector_begun(alloc, begun, kept, Some(count), &turns.step) {
        Ok(next) => next,
        Err(fault) => return Err(fault),
    };
    put_turned(kept, number, next);
    Ok(())
}

/// Makes all turns of a phase.
fn turn(
    alloc: Global,
    begun: &Begun,
    kept: &mut Kept,
    number: usize,
    turns: &Turns,
) -> Result<(), Memory>
    requires begun { IsBegun begun.now }
    requires room { HasRoom kept.old number }
    requires sound { AreWords kept.old }
    requires few { turns.now.times ≤ 255 }
    ensures words { OnOk result (words_of kept.new ≡ turn_words (table_of begun.now) (steps_of begun.now) begun.now.arch.now begun.now.word number (turns_tree (Some turns.now)) (words_of kept.old) turns.now.times) }
    ensures room { OnOk result (SameRoom kept.old kept.new) }
    ensures sound { OnOk result (AreWords kept.new) }
{
    match enter(alloc, begun, kept, number, turns) {
        Ok(()) => {}
        Err(fault) => return Err(fault),
    }
    for count in 0..turns.times {
        match turn_once(alloc, begun, kept, number, turns, count) {
            Ok(()) => {}
            Err(fault) => return Err(fault),
        }
    }
    Ok(())
}

/// Makes the turns of a phase that has some.
fn turn_phase(
    alloc: Global,
    begun: &Begun,
    kept: &mut Kept,
    number: usize,
    phase: &Phase,
) -> Result<(), Memory>
    requires begun { IsBegun begun.now }
    requires room { HasRoom kept.old number }
    requires sound { AreWords kept.old }
    requires few { times_of (turns_tree phase.now.turns) ≤ 255 }
    ensures words { OnOk result (words_of kept.new ≡ turn_words (table_of begun.now) (steps_of begun.now) begun.now.arch.now begun.now.word number (turns_tree phase.now.turns) (words_of kept.old) (times_of (turns_tree phase.now.turns))) }
    ensures room { OnOk result (SameRoom kept.old kept.new) }
    ensures sound { OnOk result (AreWords kept.new) }
{
    match &phase.turns {
        Some(turns) => turn(alloc, begun, kept, number, turns),
        None => Ok(()),
    }
}

/// Keeps the words of a phase whose last cycle has this answer.
fn keep_phase(
    alloc: Global,
    begun: &Begun,
    kept: &mut Kept,
    number: usize,
    phase: &Phase,
    answer: Answer,
) -> Result<(), Memory>
    requires begun { IsBegun begun.now }
    requires room { HasRoom kept.old number }
    requires sound { AreWords kept.old }
    requires few { times_of (turns_tree phase.now.turns) ≤ 255 }
    requires fits { FitsWidth answer.loaded.width answer.loaded.value }
    ensures words { OnOk result (words_of kept.new ≡ phase_words (table_of begun.now) (steps_of begun.now) begun.now.arch.now begun.now.word number (phase_tree phase.now) (words_of kept.old) answer) }
    ensures room { OnOk result (SameRoom kept.old kept.new) }
    ensures sound { OnOk result (AreWords kept.new) }
{
    match turn_phase(alloc, begun, kept, number, phase) {
        Ok(()) => {}
        Err(fault) => return Err(fault),
    }
    take_answer(kept, number, &phase.access, answer);
    Ok(())
}

/// How many unstalled cycles a phase takes.
pub fn phase_cycles(phase: &Phase) -> u32
    ensures { result ≡ times_of (turns_tree phase.now.turns) }
{
    match &phase.turns {
        Some(turns) => turns.times,
        None => 1,
    }
}

/// How many unstalled cycles phases take.
pub fn cycles_of(phases: &[Phase]) -> u32
    requires few { length phases.now ≤ 16 }
    requires small { TurnsAreSmall (map phase_tree phases.now) }
    ensures { result ≡ cycles_of (map phase_tree phases.now) }
{
    let mut cycles = 0;
    for phase in phases {
        cycles += phase_cycles(phase);
    }
    cycles
}

/// Puts an access so many times at the end.
fn push_times(accesses: &mut Vec<Access>, access: Access, times: u32) -> Result<(), Memory>
    ensures { OnOk result (accesses.new.items ≡ accesses.old.items ++ replicate times access) }
{
    for _time in 0..times {
        accesses.push(access)?;
    }
    Ok(())
}

/// Goes through one phase: what each of its cycles does to memory, then the words behind it.
fn run_phase(
    alloc: Global,
    begun: &Begun,
    kept: &mut Kept,
    accesses: &mut Vec<Access>,
    number: usize,
    phase: &Phase,
    answer: Answer,
) -> Result<(), Memory>
    requires begun { IsBegun begun.now }
    requires room { HasRoom kept.old number }
    requires sound { AreWords kept.old }
    requires few { times_of (turns_tree phase.now.turns) ≤ 255 }
    requires fits { FitsWidth answer.loaded.width answer.loaded.value }
    ensures words { OnOk result (words_of kept.new ≡ phase_words (table_of begun.now) (steps_of begun.now) begun.now.arch.now begun.now.word number (phase_tree phase.now) (words_of kept.old) answer) }
    ensures accesses { OnOk result (accesses.new.items ≡ accesses.old.items ++ replicate (times_of (turns_tree phase.now.turns)) (phase_row (table_of begun.now) (steps_of begun.now) begun.now.arch.now begun.now.word (turns_tree phase.now.turns) (access_tree phase.now.access) (words_of kept.old))) }
    ensures room { OnOk result (SameRoom kept.old kept.new) }
    ensures sound { OnOk result (AreWords kept.new) }
{
    let access = match phase_access(alloc, begun, kept, phase) {
        Ok(access) => access,
        Err(fault) => return Err(fault),
    };
    match push_times(accesses, access, phase_cycles(phase)) {
        Ok(()) => {}
        Err(fault) => return Err(fault),
    }
    keep_phase(alloc, begun, kept, number, phase, answer)
}

/// The answer of the last cycle of a phase whose first answer has this number.
fn phase_answer(answers: &[Answer], at: usize, cycles: usize) -> Answer
    requires { at + cycles ≤ length answers.now }
    ensures { result ≡ answer_at answers.now (at + (cycles - 1)) }
{
    answer_at(answers, at + cycles.saturating_sub(1))
}

/// Goes through all phases, the first answer being the first one's.
pub fn run_phases(
    alloc: Global,
    begun: &Begun,
    phases: &[Phase],
    answers: &[Answer],
    kept: &mut Kept,
    accesses: &mut Vec<Access>,
) -> Result<(), Memory>
    requires begun { IsBegun begun.now }
    requires loaded_room { length kept.old.loaded.items ≡ length phases.now }
    requires turned_room { length kept.old.turned.items ≡ length phases.now }
    requires sound { AreWords kept.old }
    requires small { TurnsAreSmall (map phase_tree phases.now) }
    requires enough { cycles_of (map phase_tree phases.now) ≤ length answers.now }
    requires loaded { AreLoaded answers.now }
    ensures words { OnOk result (words_of kept.new ≡ end_words (table_of begun.now) (steps_of begun.now) begun.now.arch.now begun.now.word answers.now 0 (map phase_tree phases.now) (words_of kept.old) 0) }
    ensures accesses { OnOk result (accesses.new.items ≡ accesses.old.items ++ rows (table_of begun.now) (steps_of begun.now) begun.now.arch.now begun.now.word answers.now 0 (map phase_tree phases.now) (words_of kept.old) 0) }
    ensures sound { OnOk result (AreWords kept.new) }
{
    let mut at = 0usize;
    for (number, phase) in phases.iter().enumerate() {
        let cycles = phase_cycles(phase) as usize;
        let answer = phase_answer(answers, at, cycles);
        match run_phase(alloc, begun, kept, accesses, number, phase, answer) {
            Ok(()) => {}
            Err(fault) => return Err(fault),
        }
        at += cycles;
    }
    Ok(())
}
