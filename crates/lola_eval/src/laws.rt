ghost use Rattle.std.specs.Prelude.{ℕ, Bool, List, Option};
ghost use Rattle.lola_alg.specs.Steps.{HasPlaces};
ghost use Rattle.lola_alg.specs.Plain.{plain_calls};
ghost use Rattle.lola_flat.specs.Tree.{ExprTree, SignalTree, FlatTree};
ghost use Rattle.lola_flat.specs.Value.{Env};
ghost use Rattle.lola_flat.specs.Formed.{IsFormed};
ghost use Rattle.lola_flat.specs.Cycle.{AreGiven, AreOutside};
ghost use Rattle.lola_eval.specs.Steps.{lower_step, signals_step, next_step, state_step};
ghost use Rattle.lola_eval.specs.Means.{AreGivenBits};
ghost use Rattle.lola_eval.specs.OneCycle.{HasOneCycle, HasPlainCycle};

use lola_alg::plain_is_never_full;

/// Over `Plain` each step of an expression, of the signals in order and of next values has a place, so that no
/// evaluation over it is ever Full.
pub fn plain_finds_places()
    ensures expr { (E : Env (List Bool)) (e : ExprTree) → HasPlaces (lower_step plain_calls E e tt) }
    ensures signals { (F : FlatTree) (E : Env (List Bool)) (order : List ℕ) → HasPlaces (signals_step plain_calls F E order tt) }
    ensures next { (E : Env (List Bool)) (place equation : Option ExprTree) (old : List (List Bool)) → HasPlaces (next_step plain_calls E place equation old tt) }
    ensures state { (E : Env (List Bool)) (signals : List SignalTree) → HasPlaces (state_step plain_calls E signals 0 tt) }
{
    plain_is_never_full();
}

/// Over `Plain` the signals of a well formed design in order are its cycle for what is given, and the next values
/// of its registers the state behind it.
pub fn plain_makes_the_cycle()
    ensures { (F : FlatTree) (E : Env (List Bool)) → IsFormed F → AreGivenBits F E → HasPlainCycle F E }
{
    plain_is_never_full();
}

/// A well formed flat design has exactly one cycle for what it is given, with numbers below 2 to their widths, and
/// so has the one state behind it.
pub fn one_cycle()
    ensures { (F : FlatTree) (given : List (List ℕ)) (outside : List ℕ) → IsFormed F → AreGiven F given → AreOutside F outside → HasOneCycle F given outside }
{
    plain_makes_the_cycle();
}
