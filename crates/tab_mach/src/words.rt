ghost use Rattle.std.specs.Prelude.{◌≡◌, ◌<◌, length, replicate, set, slice_get, IfOk};
ghost use Rattle.tab_tree.specs.Table.{access_tree};
ghost use Rattle.tab_tree.specs.Step.{answer_at, no_words, with_turned, with_loaded, with_answer};
ghost use Rattle.lola_bits.specs.Vector.{FitsWidth};
ghost use Rattle.tab_mach.specs.Vectors.{AreVectors};
ghost use Rattle.tab_mach.specs.Begun.{words_of, HasRoom, SameRoom};
ghost use Rattle.tab_mach.specs.Sound.{AreWords};

use lola_bits::{Bits, Memory};
use std::alloc::Global;
use tab_tree::{AccessRow, Answer};

/// What an instruction keeps from cycle to cycle: the loaded words and the accumulators, by the number of
/// their phase.
#[derive(Drop)]
pub struct Kept {
    pub loaded: Vec<Option<Bits>>,
    pub turned: Vec<Option<Bits>>,
}

/// So many places, with nothing in them.
fn empty_slots(alloc: Global, count: usize) -> Result<Vec<Option<Bits>>, Memory>
    ensures { IfOk result (λ v. v.items ≡ replicate count None) }
{
    let mut slots = Vec::new(alloc);
    for _place in 0..count {
        slots.push(None)?;
    }
    Ok(slots)
}

/// No words yet, with room for those of so many phases.
pub fn no_words(alloc: Global, phases: usize) -> Result<Kept, Memory>
    ensures words { IfOk result (λ kept. words_of kept ≡ no_words) }
    ensures loaded { IfOk result (λ kept. length kept.loaded.items ≡ phases) }
    ensures turned { IfOk result (λ kept. length kept.turned.items ≡ phases) }
    ensures sound { IfOk result (λ kept. AreWords kept) }
{
    Ok(Kept {
        loaded: empty_slots(alloc, phases)?,
        turned: empty_slots(alloc, phases)?,
    })
}

/// Puts a value into a place.
fn put(slots: &mut Vec<Option<Bits>>, place: usize, value: Option<Bits>)
    requires { place < length slots.old.items }
    ensures { slots.new.items ≡ set slots.old.items place value }
{
    slots[place] = value;
}

/// Puts the accumulator of a phase.
pub fn put_turned(kept: &mut Kept, phase: usize, value: Option<Bits>)
    requires room { HasRoom kept.old phase }
    requires sound { AreWords kept.old }
    requires fits { AreVectors value }
    ensures words { words_of kept.new ≡ with_turned (words_of kept.old) phase value }
    ensures room { SameRoom kept.old kept.new }
    ensures sound { AreWords kept.new }
{
    put(&mut kept.turned, phase, value);
}

/// Puts the loaded word of a phase.
fn put_loaded(kept: &mut Kept, phase: usize, value: Bits)
    requires room { HasRoom kept.old phase }
    requires sound { AreWords kept.old }
    requires fits { FitsWidth value.width value.value }
    ensures words { words_of kept.new ≡ with_loaded (words_of kept.old) phase value }
    ensures room { SameRoom kept.old kept.new }
    ensures sound { AreWords kept.new }
{
    put(&mut kept.loaded, phase, Some(value));
}

/// Keeps the loaded word of an answer where the phase takes one.
pub fn take_answer(kept: &mut Kept, phase: usize, row: &AccessRow, answer: Answer)
    requires room { HasRoom kept.old phase }
    requires sound { AreWords kept.old }
    requires fits { FitsWidth answer.loaded.width answer.loaded.value }
    ensures words { words_of kept.new ≡ with_answer (access_tree row.now) phase answer (words_of kept.old) }
    ensures room { SameRoom kept.old kept.new }
    ensures sound { AreWords kept.new }
{
    match row {
        AccessRow::Take | AccessRow::Load { adr: _, byte: _ } => {
            put_loaded(kept, phase, answer.loaded);
        }
        AccessRow::Idle => {}
        AccessRow::Store {
            adr: _,
            byte: _,
            word: _,
        } => {}
        AccessRow::Fetch { adr: _ } => {}
    }
}

/// The answer of a number, if there is one.
fn answer_in(answers: &[Answer], number: usize) -> Option<Answer>
    ensures { result ≡ slice_get answers.now number }
{
    answers.get(number).copied()
}

/// The answer of a number. Past the last one each part is 0 of one bit.
pub fn answer_at(answers: &[Answer], number: usize) -> Answer
    ensures { result ≡ answer_at answers.now number }
{
    match answer_in(answers, number) {
        Some(answer) => answer,
        None => Answer {
            code: Bits { width: 1, value: 0 },
            loaded: Bits { width: 1, value: 0 },
        },
    }
}
