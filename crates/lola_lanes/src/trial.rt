ghost use Rattle.std.specs.Prelude.{◌≡◌, ◌≤◌, ◌<◌, ◌*◌, ◌^◌, IfOk, Err};
ghost use Rattle.lola_lanes.specs.Lanes.{IsWordOf, IsFirst};

use lola_alg::AlgError;

/// A question with cases that can be asked of 64 at a time.
pub trait WordTrial {
    ghost use Rattle.std.specs.Prelude.{ℕ, Bool};

    /// Whether it fails in a case, by the case's number from 0.
    ghost fails: { Self → ℕ → Bool };

    /// What it asks of itself.
    ghost ready: { Self → Type 0 };

    /// What has to be so where it answers that there is no place for another gate.
    ghost full: { Self → Type 0 };

    /// In which of the 64 cases of a block it fails: bit n of the word is 1 where it does in case n of the block.
    /// Blocks are numbered from 0.
    fn failing(&self, block: u64) -> Result<u64, AlgError>
        requires ready { ready self.now }
        requires block { block < 2 ^ 57 }
        ensures word { IfOk result (λ w. IsWordOf (fails self.now) block w) }
        ensures full { result ≡ Err AlgError.Full → full self.now };
}

/// How many blocks hold all cases of so many bits.
fn blocks(bits: u32) -> u64
    requires { bits < 64 }
    ensures enough { 2 ^ bits ≤ 64 * result }
    ensures few { result ≤ 2 ^ 57 }
{
    if bits < 6 { 1 } else { 1u64 << (bits - 6) }
}

/// The least of 2 to `bits` cases, numbered from 0, in which a question fails, or None where it fails in none. It
/// takes no memory of its own, and asks block after block until one fails. An error is that of the question.
pub fn first_failing_case<T: WordTrial>(trial: &T, bits: u32) -> Result<Option<u64>, AlgError>
    requires few { bits < 64 }
    requires ready { T.ready trial.now }
    ensures first { IfOk result (λ found. IsFirst (T.fails trial.now) (2 ^ bits) found) }
    ensures full { result ≡ Err AlgError.Full → T.full trial.now }
{
    let total = 1u64 << bits;
    for block in 0..blocks(bits) {
        let word = match trial.failing(block) {
            Ok(word) => word,
            Err(error) => return Err(error),
        };
        if word != 0 {
            let case = 64 * block + u64::from(word.trailing_zeros());
            return Ok(if case < total { Some(case) } else { None });
        }
    }
    Ok(None)
}
