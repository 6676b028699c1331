ghost use Rattle.std.specs.Prelude.{◌≡◌, ◌<◌, ◌≤◌, ◌-◌, length, map, IfOk};
ghost use Rattle.tab_tree.specs.Table.{table_tree, phase_tree, steps_tree};
ghost use Rattle.tab_tree.specs.Step.{answer_at, cycles_of, next_arch, next_word, instruction_rows};
ghost use Rattle.tab_mach.specs.Outcome.{AreLoaded, CanStep, HasSteps, IsFirstNumber, Outcome, TurnsAreSmall};
ghost use Rattle.tab_mach.specs.Begun.{table_of, steps_of, IsBegun};

use crate::pattern::class_number;
use crate::phase::{cycles_of, run_phases};
use crate::scope::{Begun, field_rows};
use crate::states::next_states;
use crate::words::{answer_at, no_words};
use lola_bits::{Bits, Memory, Seq};
use std::alloc::Global;
use tab_tree::{Access, Answer, Inside, Phase, StateValue, Table};
use thiserror::Error;

/// What a programmer sees: the values of a table's states, in the order of their rows.
#[derive(Debug, Drop)]
pub struct Arch {
    pub values: Seq<StateValue>,
}

/// What comes of an instruction: the states behind it, the next word, and what each of its cycles does to
/// memory.
#[derive(Debug, Drop)]
pub struct Stepped {
    pub arch: Arch,
    pub word: Bits,
    pub accesses: Seq<Access>,
}

/// Why a step gives no instruction.
#[derive(Clone, Copy, Debug, PartialEq, Eq, Error)]
pub enum StepError {
    /// No pattern fits the word.
    #[error("no class")]
    NoClass,
    /// The class of the word, of this number in text order from 0, is OUTSIDE.
    #[error("outside in class {class}")]
    Outside { class: u32 },
    /// The class of the word takes so many unstalled cycles, which is more than there are answers.
    #[error("{needed} answers are needed")]
    Short { needed: u32 },
    /// Want of memory.
    #[error("want of memory")]
    Memory,
}

/// One instruction of a table: `word` is the instruction word, and `answers` are those of the unstalled
/// cycles from its first one on, of which no more are looked at than it takes. Answers the states behind
/// it, the next word, and for each of its unstalled cycles what it does to memory. `NoClass` comes exactly
/// where no pattern fits the word; `Outside` exactly where its class is OUTSIDE; `Short` exactly where its
/// class takes more cycles than there are answers; `Memory` for want of memory.
pub fn step(
    alloc: Global,
    table: &Table,
    arch: &Arch,
    word: Bits,
    answers: &[Answer],
) -> Result<Stepped, StepError>
    requires { CanStep (table_tree table.now) arch.now.values word answers.now }
    ensures { Outcome (table_tree table.now) arch.now.values word answers.now result }
{
    match class_number(table.classes.items(), word.value) {
        Some(number) => step_class(alloc, table, number, arch.values.items(), word, answers),
        None => Err(StepError::NoClass),
    }
}

/// The instruction of a class by its number, which is that of the first that the word fits.
fn step_class(
    alloc: Global,
    table: &Table,
    number: usize,
    arch: &[StateValue],
    word: Bits,
    answers: &[Answer],
) -> Result<Stepped, StepError>
    requires can { CanStep (table_tree table.now) arch.now word answers.now }
    requires first { IsFirstNumber (table_tree table.now) word number }
    requires within { number < length table.now.classes }
    ensures { Outcome (table_tree table.now) arch.now word answers.now result }
{
    match &table.classes.items()[number].inside {
        Some(inside) => step_inside(alloc, table, inside, arch, word, answers),
        None => Err(StepError::Outside {
            class: number as u32,
        }),
    }
}

/// The instruction of these steps, which are those of the word's class.
fn step_inside(
    alloc: Global,
    table: &Table,
    inside: &Inside,
    arch: &[StateValue],
    word: Bits,
    answers: &[Answer],
) -> Result<Stepped, StepError>
    requires can { CanStep (table_tree table.now) arch.now word answers.now }
    requires class { HasSteps (table_tree table.now) word (steps_tree inside.now) }
    ensures { Outcome (table_tree table.now) arch.now word answers.now result }
{
    let needed = cycles_of(inside.phases.items());
    if answers.len() < needed as usize {
        Err(StepError::Short { needed })
    } else {
        match instruction(alloc, table, inside, arch, word, answers) {
            Ok(stepped) => Ok(stepped),
            Err(_) => Err(StepError::Memory),
        }
    }
}

/// The instruction of these steps, for each cycle of which there is an answer.
fn instruction(
    alloc: Global,
    table: &Table,
    inside: &Inside,
    arch: &[StateValue],
    word: Bits,
    answers: &[Answer],
) -> Result<Stepped, Memory>
    requires can { CanStep (table_tree table.now) arch.now word answers.now }
    requires class { HasSteps (table_tree table.now) word (steps_tree inside.now) }
    requires enough { cycles_of (steps_tree inside.now).phases ≤ length answers.now }
    ensures arch { IfOk result (λ s. s.arch.values ≡ next_arch (table_tree table.now) (steps_tree inside.now) arch.now word answers.now 0) }
    ensures word { IfOk result (λ s. s.word ≡ next_word (steps_tree inside.now) answers.now 0) }
    ensures accesses { IfOk result (λ s. s.accesses ≡ instruction_rows (table_tree table.now) (steps_tree inside.now) arch.now word answers.now 0) }
{
    let fields = field_rows(alloc, table, word)?;
    let begun = Begun {
        table,
        inside,
        arch,
        word,
        fields: fields.as_slice(),
    };
    run(alloc, &begun, inside.phases.items(), answers)
}

/// The word of the last answer of these phases.
fn next_word(phases: &[Phase], answers: &[Answer]) -> Bits
    requires few { length phases.now ≤ 16 }
    requires turns { TurnsAreSmall (map phase_tree phases.now) }
    ensures { result ≡ (answer_at answers.now (cycles_of (map phase_tree phases.now) - 1)).code }
{
    answer_at(answers, (cycles_of(phases) as usize).saturating_sub(1)).code
}

/// An instruction that has begun, through its phases.
fn run(
    alloc: Global,
    begun: &Begun,
    phases: &[Phase],
    answers: &[Answer],
) -> Result<Stepped, Memory>
    requires begun { IsBegun begun.now }
    requires phases { map phase_tree phases.now ≡ (steps_of begun.now).phases }
    requires few { length phases.now ≤ 16 }
    requires turns { TurnsAreSmall (map phase_tree phases.now) }
    requires loaded { AreLoaded answers.now }
    requires enough { cycles_of (map phase_tree phases.now) ≤ length answers.now }
    ensures arch { IfOk result (λ s. s.arch.values ≡ next_arch (table_of begun.now) (steps_of begun.now) begun.now.arch.now begun.now.word answers.now 0) }
    ensures word { IfOk result (λ s. s.word ≡ next_word (steps_of begun.now) answers.now 0) }
    ensures accesses { IfOk result (λ s. s.accesses ≡ instruction_rows (table_of begun.now) (steps_of begun.now) begun.now.arch.now begun.now.word answers.now 0) }
{
    let mut kept = no_words(alloc, phases.len())?;
    let mut accesses = Vec::new(alloc);
    match run_phases(alloc, begun, phases, answers, &mut kept, &mut accesses) {
        Ok(()) => {}
        Err(fault) => return Err(fault),
    }
    let values = next_states(alloc, begun, &kept)?;
    Ok(Stepped {
        arch: Arch { values },
        word: next_word(phases, answers),
        accesses: Seq::of(accesses),
    })
}
