ghost use Rattle.std.specs.Prelude.{◌≡◌, ℕ, Bool, List, IfOk};
ghost use Rattle.lola_tree.specs.Tree.{tree};
ghost use Rattle.lola_tree.specs.declared.named.Ref.{Ref as Reference};
ghost use Rattle.lola_elab.specs.Logic.{logic_value, bit_number};
ghost use Rattle.lola_elab.specs.Scope.{HasReading, Reads};
ghost use Rattle.lola_elab.specs.Small.{IsSmallExpr};
ghost use Rattle.lola_app.specs.Small.{IsNoName};
ghost use Rattle.small_tree.specs.Step.{no_names, table_value};

use crate::fault::ReadError;
use lola_elab::{Logic, Scope, resolve};
use lola_tree::Expr;
use std::alloc::Global;

/// What an expression of a table means over leaves in a scope. NotBuilt where it is no one-bit
/// expression over the names of the scope.
#[tactic(auto, using(crate::proofs::TableBits::table_bits))]
pub fn meaning(alloc: Global, expr: &Expr, scope: &Scope) -> Result<Logic, ReadError>
    ensures small { IfOk result (λ logic. IsSmallExpr (HasReading scope.now) (tree expr.now)) }
    ensures means { IfOk result (λ logic. (names : Reference → ℕ) (leaves : List Bool) → Reads scope.now names leaves → table_value (tree expr.now) names ≡ bit_number (logic_value logic leaves)) }
    ensures none { result ≡ Err ReadError.NotBuilt → IsSmallExpr (HasReading scope.now) (tree expr.now) → ⊥ }
{
    match resolve(alloc, expr, scope) {
        Ok(logic) => Ok(logic),
        Err(fault) => Err(ReadError::from(fault)),
    }
}

/// What an expression without names means. NotBuilt where it is no one-bit expression of that kind.
pub fn constant(alloc: Global, expr: &Expr) -> Result<Logic, ReadError>
    ensures small { IfOk result (λ logic. IsSmallExpr IsNoName (tree expr.now)) }
    ensures means { IfOk result (λ logic. (leaves : List Bool) → table_value (tree expr.now) no_names ≡ bit_number (logic_value logic leaves)) }
    ensures none { result ≡ Err ReadError.NotBuilt → IsSmallExpr IsNoName (tree expr.now) → ⊥ }
{
    let empty = Scope {
        bare: Vec::new(alloc),
        source: Vec::new(alloc),
    };
    meaning(alloc, expr, &empty)
}
