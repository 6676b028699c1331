ghost use Rattle.std.specs.Prelude.{◌≡◌, [], get_or, IfOk};
ghost use Rattle.lola_alg.specs.Steps.{Went};
ghost use Rattle.lola_gate.specs.Gates.{gates_calls, gates_meaning};
ghost use Rattle.lola_flat.specs.Tree.{SignalTree, flat_tree};
ghost use Rattle.lola_flat.specs.Value.{env};
ghost use Rattle.lola_flat.specs.Signals.{IsSignal};
ghost use Rattle.lola_flat.specs.Formed.{IsKind, IsFormed};
ghost use Rattle.lola_eval.specs.Steps.{signals_step, next_step};
ghost use Rattle.lola_eval.specs.Means.{AreGivenBits, AreSignalBits, EnvKnown, MeansCycle, MeansNext};

use lola_alg::AlgError;
use lola_bits::Seq;
use lola_flat::{Flat, SigKind};
use lola_gate::Gates;
use std::alloc::Global;

/// The literals of all signals of a well formed design, by their numbers: made in the order of its equations, so that
/// under every assignment they mean the values of the design's cycle. `given` has the literals of the elements of each
/// input but the clock and of each register, and `outside` those of each pad from outside, by the numbers of signals.
/// A pad is the choice of its release, outside value and value. `Full` comes exactly where one of the steps has no
/// place for its gate, and `Memory` for want of memory.
pub fn lower_signals(
    alloc: Global,
    gates: &mut Gates,
    flat: &Flat,
    given: Vec<Seq<Seq<u32>>>,
    outside: &[Seq<u32>],
) -> Result<Vec<Seq<Seq<u32>>>, AlgError>
    requires formed { IsFormed (flat_tree flat.now) }
    requires given { AreGivenBits (flat_tree flat.now) (env given.items outside.now) }
    requires known { EnvKnown gates_meaning gates.old (env given.items outside.now) }
    ensures steps { Went (λ v. v.items) (signals_step gates_calls (flat_tree flat.now) (env given.items outside.now) flat.now.order gates.old) gates.new result }
    ensures means { IfOk result (λ made. MeansCycle gates_meaning (flat_tree flat.now) (env given.items outside.now) gates.old gates.new made.items) }
{
    lola_eval::lower_signals(alloc, gates, flat, given, outside)
}

/// The literals of a register of a well formed design behind a cycle: by its steps, so that under every assignment
/// they mean its next value. `signals` has the literals of all signals, as `lower_signals` answers them. `Full` comes
/// exactly where one of the steps has no place for its gate, and `Memory` for want of memory.
pub fn lower_next(
    alloc: Global,
    gates: &mut Gates,
    flat: &Flat,
    register: u32,
    signals: &[Seq<Seq<u32>>],
) -> Result<Seq<Seq<u32>>, AlgError>
    requires formed { IsFormed (flat_tree flat.now) }
    requires register { IsKind (flat_tree flat.now) register SigKind.Register }
    requires signals { AreSignalBits (flat_tree flat.now) signals.now }
    requires known { EnvKnown gates_meaning gates.old (env signals.now []) }
    ensures steps { (s : SignalTree) → IsSignal (flat_tree flat.now) register s → Went (λ v. v) (next_step gates_calls (env signals.now []) s.place s.equation (get_or signals.now register []) gates.old) gates.new result }
    ensures means { (s : SignalTree) → IsSignal (flat_tree flat.now) register s → IfOk result (λ made. MeansNext gates_meaning (flat_tree flat.now) (env signals.now []) register s gates.old gates.new made) }
{
    lola_eval::lower_next(alloc, gates, flat, register, signals)
}
