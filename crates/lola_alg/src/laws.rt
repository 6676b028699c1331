ghost use Rattle.std.specs.Prelude.{ℕ, Bool, List};
ghost use Rattle.lola_bits.specs.declared.op.Op.{Op as Operator};
ghost use Rattle.lola_alg.specs.Plain.{plain_calls};
ghost use Rattle.lola_alg.specs.Steps.{HasPlaces, op_step, read_step, write_from};

/// Over `Plain` each step of an operator, of reading an element and of writing one has a place, so that no
/// lowering over it is ever Full.
pub fn plain_is_never_full()
    ensures op { (o : Operator) (args : List (List Bool)) → HasPlaces (op_step plain_calls o args tt) }
    ensures read { (elements : List (List Bool)) (place : List Bool) → HasPlaces (read_step plain_calls elements place tt) }
    ensures write { (place value : List Bool) (elements : List (List Bool)) → HasPlaces (write_from plain_calls place value 0 elements tt) }
{}
