ghost use Rattle.std.specs.Prelude.{◌≡◌, true};

use thiserror::Error;

/// Why a lowering stops.
#[derive(Clone, Copy, Debug, PartialEq, Eq, Error)]
pub enum AlgError {
    /// There is no place for another gate.
    #[error("no place for another gate")]
    Full,
    /// Want of memory.
    #[error("want of memory")]
    Memory,
}

/// An algebra of bits: constants, `not` and `and`.
pub trait Algebra {
    type Bit: Copy;

    /// What contracts see of the algebra's data: what its calls answer depends on this alone.
    type State;

    ghost use Rattle.lola_alg.specs.Algebra.{Calls, Meaning, IsAlgebra, Fits, Keeps, Kept};

    ghost state: { Self → Self.State };

    ghost calls: { Calls Self.State Self.Bit };

    ghost meaning: { Meaning Self.State Self.Bit };

    /// A bit that is always so.
    fn constant(&mut self, value: bool) -> Self::Bit
        ensures made { (state self.new, result) ≡ calls.constant (state self.old) value }
        ensures kept { Keeps meaning (state self.old) (state self.new) result };

    /// The other value of a known bit.
    fn not(&mut self, a: Self::Bit) -> Self::Bit
        requires { meaning.knows (state self.old) a ≡ true }
        ensures made { (state self.new, result) ≡ calls.negated (state self.old) a }
        ensures kept { Keeps meaning (state self.old) (state self.new) result };

    /// Whether both of two known bits are 1. `Full` comes exactly where there is no place for the gate, and
    /// changes nothing; so does `Memory`, which is want of memory.
    fn and(&mut self, a: Self::Bit, b: Self::Bit) -> Result<Self::Bit, AlgError>
        requires a { meaning.knows (state self.old) a ≡ true }
        requires b { meaning.knows (state self.old) b ≡ true }
        ensures made { Fits (calls.both (state self.old) a b) (state self.old) (state self.new) result }
        ensures kept { Kept meaning (state self.old) (state self.new) result };

    ghost law: { IsAlgebra calls meaning };
}
