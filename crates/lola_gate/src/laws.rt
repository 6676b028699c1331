ghost use Rattle.std.specs.Prelude.{ℕ, List};
ghost use Rattle.lola_bits.specs.declared.op.Op.{Op as Operator};
ghost use Rattle.lola_alg.specs.Steps.{op_step, read_step, write_from};
ghost use Rattle.lola_net.specs.declared.node.Node.{Node as NetNode};
ghost use Rattle.lola_net.specs.Run.{Sources};
ghost use Rattle.lola_gate.specs.Cycles.{HaveCycle};
ghost use Rattle.lola_gate.specs.Gates.{gates_calls};
ghost use Rattle.lola_gate.specs.Repeated.{Repeats, Repeated};

/// A call that was made answers the same in later data, and makes nothing.
pub fn calls_repeat()
    ensures { Repeats gates_calls }
{}

/// So do the steps of each operator, of reading an element and of writing one: what was lowered once costs
/// nothing when it is lowered again, and is the same literals.
pub fn steps_repeat()
    ensures op { (o : Operator) (args : List (List ℕ)) → Repeated (op_step gates_calls o args) }
    ensures read { (elements : List (List ℕ)) (place : List ℕ) → Repeated (read_step gates_calls elements place) }
    ensures write { (place value : List ℕ) (elements : List (List ℕ)) → Repeated (write_from gates_calls place value 0 elements) }
{}

/// In each cycle of the net that is made of nodes, the value of a node is what the algebra means by it.
pub fn nodes_have_cycles()
    ensures { (nodes : List NetNode) (s : Sources) → HaveCycle nodes s }
{}
