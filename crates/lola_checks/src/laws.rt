ghost use Rattle.std.specs.Prelude.{List};
ghost use Rattle.lola_alg.specs.Steps.{HasPlaces};
ghost use Rattle.lola_flat.specs.Value.{Env};
ghost use Rattle.lola_checks.specs.Tree.{CheckTree};
ghost use Rattle.lola_checks.specs.Steps.{check_step};

use lola_alg::Algebra;

/// Where an algebra has a place for the gate of any two bits, each step of a check has one, so that no lowering of
/// a check over it is Full.
pub fn checks_find_places<A: Algebra>()
    ensures { ((d : A.State) (a b : A.Bit) → HasPlaces (A.calls.both d a b)) → (E : Env (List A.Bit)) (k : CheckTree) (d : A.State) → HasPlaces (check_step A.calls E k d) }
{}
