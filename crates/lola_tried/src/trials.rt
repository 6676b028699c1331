// The least numbers at which a rule doesn't hold.
ghost use Rattle.std.specs.Prelude.{◌≡◌, [], get_or};

use crate::sample::sample;
use lola_bits::{Memory, Seq};
use lola_cases::{Trial, behind, each_has_one_cycle, first_failing, numbers_of, total};
use lola_flat::{Flat, sample_is_formed};
use std::alloc::Global;
use std::test::Fail;

/// The rule that the first and the last of three numbers are below a bound together.
#[derive(Drop)]
struct Ends {
    bound: u128,
}

impl Trial for Ends {
    ghost use Rattle.std.specs.Prelude.{[], ◌∷◌};
    ghost use Rattle.lola_tried.specs.Tried.{EndIsBelow};

    ghost widths = { λ ends. 2 ∷ 1 ∷ 3 ∷ [] };

    ghost holds = { λ ends numbers. EndIsBelow ends.bound numbers };

    ghost ready = { λ ends. Unit {0} };

    fn test(&self, alloc: Global, numbers: &[u128]) -> Result<bool, Memory> {
        Ok(numbers[0] + numbers[2] < self.bound)
    }
}

/// The rule that behind each cycle of the sample an element of a signal is below a bound.
#[derive(Drop)]
struct Stays {
    flat: Flat,
    signal: usize,
    element: usize,
    bound: u128,
}

impl Trial for Stays {
    ghost use Rattle.std.specs.Prelude.{◌≡◌, [], ◌∷◌};
    ghost use Rattle.lola_flat.specs.Tree.{flat_tree};
    ghost use Rattle.lola_flat.specs.Sample.{sample};
    ghost use Rattle.lola_tried.specs.Tried.{StaysBelow};

    ghost widths = { λ stays. 1 ∷ 1 ∷ 1 ∷ 1 ∷ 1 ∷ [] };

    ghost holds = { λ stays numbers. StaysBelow (flat_tree stays.flat) stays.signal stays.element stays.bound numbers };

    ghost ready = { λ stays. flat_tree stays.flat ≡ sample };

    fn test(&self, alloc: Global, numbers: &[u128]) -> Result<bool, Memory> {
        sample_is_formed();
        each_has_one_cycle();
        let made = behind(alloc, &self.flat, numbers)?;
        Ok(number_at(made.state.as_slice(), self.signal, self.element) < self.bound)
    }
}

/// The number of an element of a signal, and 0 where there is none.
fn number_at(rows: &[Seq<u128>], signal: usize, element: usize) -> u128
    ensures { result ≡ get_or (get_or rows.now signal []) element 0 }
{
    if signal >= rows.len() {
        return 0;
    }
    let row = rows[signal].items();
    if element < row.len() { row[element] } else { 0 }
}

/// The least numbers at which the sum of the ends reaches a bound.
fn ends_reach(alloc: Global, bound: u128) -> Result<Option<Vec<u128>>, Memory> {
    let widths = [2, 1, 3];
    first_failing(alloc, &Ends { bound }, widths.as_slice())
}

/// The least case of the sample behind whose cycle an element of a signal reaches a bound.
fn element_reaches(
    alloc: Global,
    signal: usize,
    element: usize,
    bound: u128,
) -> Result<Option<Vec<u128>>, Memory> {
    let flat = sample(alloc)?;
    let widths = [1, 1, 1, 1, 1];
    let stays = Stays {
        flat,
        signal,
        element,
        bound,
    };
    first_failing(alloc, &stays, widths.as_slice())
}

// The bits of 43 are 10, 1 and 011.
#[test]
fn a_number_is_cut_into_numbers(rt: HostRuntime) -> Result<(), Fail> {
    let widths = [2, 1, 3];
    let numbers = numbers_of(rt.alloc(), widths.as_slice(), 43)?;
    assert!(&rt; numbers.as_slice() == [2, 1, 3].as_slice());
    assert!(&rt; total(widths.as_slice()) == 6);
    Ok(())
}

// 1 and 7 are below 9, and 2 and 6; 2 and 7 aren't.
#[test]
fn the_least_numbers_are_found(rt: HostRuntime) -> Result<(), Fail> {
    match ends_reach(rt.alloc(), 9)? {
        Some(numbers) => assert!(&rt; numbers.as_slice() == [2, 0, 7].as_slice()),
        None => return Err(Fail::from("none")),
    }
    assert!(&rt; ends_reach(rt.alloc(), 11)?.is_none());
    Ok(())
}

// r becomes 1 first where R[0] is 1 and p carries 0; no bit reaches 2.
#[test]
fn the_least_case_is_found(rt: HostRuntime) -> Result<(), Fail> {
    match element_reaches(rt.alloc(), 4, 0, 1)? {
        Some(numbers) => assert!(&rt; numbers.as_slice() == [0, 0, 0, 1, 0].as_slice()),
        None => return Err(Fail::from("none")),
    }
    assert!(&rt; element_reaches(rt.alloc(), 4, 0, 2)?.is_none());
    Ok(())
}
