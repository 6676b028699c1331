ghost use Rattle.std.specs.Prelude.{◌≡◌, ◌≤◌, ◌<◌, ◌^◌, IfOk, MatchOption};
ghost use Rattle.std.specs.Bool.{Decides};
ghost use Rattle.lola_flat.specs.Value.{sum_of};
ghost use Rattle.lola_cases.specs.Cases.{AreWithin};
ghost use Rattle.lola_cases.specs.Counting.{numbers_of};
ghost use Rattle.lola_cases.specs.Trial.{HoldsAlways, IsLeastFailing};

use lola_bits::Memory;
use std::alloc::Global;

// A rule is tried at all numbers of its widths by counting: each number from 0 upward whose bits are those of the
// numbers, one behind the other. So the first at which it fails is the least, none is left out, and a proof needs no
// more than that counting meets every case. It costs one call of the test for each of 2 to the number of bits, and the
// memory of one case. Diagrams of decisions mostly take less time, and so does a search that learns clauses; both are
// for more bits.

/// A rule on numbers of given widths that can be tested.
pub trait Trial {
    ghost use Rattle.std.specs.Prelude.{ℕ, List};

    /// The widths of the numbers.
    ghost widths: { Self → List ℕ };

    /// What the rule says of numbers of these widths.
    ghost holds: { Self → List ℕ → Type 0 };

    /// What the test asks of itself.
    ghost ready: { Self → Type 0 };

    /// Whether the rule holds at these numbers. Only want of memory is an error.
    fn test(&self, alloc: Global, numbers: &[u128]) -> Result<bool, Memory>
        requires ready { ready self.now }
        requires within { AreWithin (widths self.now) numbers.now }
        ensures { IfOk result (λ passed. Decides passed (holds self.now numbers.now)) };
}

/// How many bits numbers of these widths have. Takes no memory.
pub fn total(widths: &[u32]) -> u32
    requires { sum_of widths.now < 2 ^ 32 }
    ensures { result ≡ sum_of widths.now }
{
    let mut bits = 0;
    for width in widths {
        bits += *width;
    }
    bits
}

/// The numbers of these widths whose bits, one behind the other, are those of a number that counts.
pub fn numbers_of(alloc: Global, widths: &[u32], number: u32) -> Result<Vec<u128>, Memory>
    requires { sum_of widths.now ≤ 31 }
    ensures { IfOk result (λ numbers. numbers.items ≡ numbers_of widths.now number) }
{
    let mut left = total(widths);
    let mut rest = number;
    let mut numbers = Vec::new(alloc);
    for width in widths {
        left -= *width;
        let unit = 1u32 << left;
        numbers.push(u128::from(rest / unit))?;
        rest %= unit;
    }
    Ok(numbers)
}

/// The least numbers at which a rule doesn't hold, or None where it always holds, by trying all. `widths` has the
/// rule's widths, which are at most 31 bits together.
pub fn first_failing<T: Trial>(
    alloc: Global,
    trial: &T,
    widths: &[u32],
) -> Result<Option<Vec<u128>>, Memory>
    requires ready { T.ready trial.now }
    requires widths { widths.now ≡ T.widths trial.now }
    requires few { sum_of widths.now ≤ 31 }
    ensures { IfOk result (λ found. MatchOption found (HoldsAlways (T.holds trial.now) widths.now) (λ numbers. IsLeastFailing (T.holds trial.now) widths.now numbers.items)) }
{
    let count = total(widths);
    for number in 0..1u32 << count {
        let numbers = numbers_of(alloc, widths, number)?;
        if !trial.test(alloc, numbers.as_slice())? {
            return Ok(Some(numbers));
        }
    }
    Ok(None)
}
