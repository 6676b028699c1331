ghost use Rattle.std.specs.Prelude.{◌≡◌, ◌&&◌, Ok};
ghost use Rattle.lola_alg.specs.Plain.{plain_calls, plain_meaning, plain_law};

use crate::algebra::{AlgError, Algebra};

/// The algebra over bool: each bit is its own value.
#[derive(Clone, Copy, Debug)]
pub struct Plain;

impl Algebra for Plain {
    type Bit = bool;

    type State = ();

    ghost state = { λ _. tt };

    ghost calls = { plain_calls };

    ghost meaning = { plain_meaning };

    fn constant(&mut self, value: bool) -> bool {
        value
    }

    fn not(&mut self, a: bool) -> bool {
        !a
    }

    /// As the trait says. It is never full and takes no memory.
    fn and(&mut self, a: bool, b: bool) -> Result<bool, AlgError>
        ensures { result ≡ Ok (a && b) }
    {
        Ok(a && b)
    }

    ghost law = { plain_law };
}
