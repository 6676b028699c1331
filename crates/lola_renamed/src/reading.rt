ghost use Rattle.std.specs.Prelude.{◌≡◌, IfOk};
ghost use Rattle.lola_flat.specs.Tree.{expr_tree};
ghost use Rattle.lola_renamed.specs.Renamed.{Meant};

use lola_bits::Memory;
use lola_flat::FExpr;
use lola_tree::{Count, Ref};
use std::alloc::Global;

/// What names stand for where an expression stands.
pub trait Reading {
    // what they stand for
    ghost meant: { Self → Meant };

    /// The expression over signals that a name stands for. The only refusal is want of memory.
    fn vector(&self, alloc: Global, of: &Ref) -> Result<FExpr, Memory>
        ensures { IfOk result (λ e. expr_tree e ≡ (meant self.now).vector of.now) };

    /// The number of the signal that a name stands for where an element of it is read. Takes no memory.
    fn array(&self, of: &Ref) -> u32
        ensures { result ≡ (meant self.now).array of.now };

    /// The number of a count. Takes no memory.
    fn count(&self, count: &Count) -> u32
        ensures { result ≡ (meant self.now).count count.now };
}
