ghost use Rattle.std.specs.Prelude.{◌≡◌, ◌<◌, ℕ, List};
ghost use Rattle.lola_bits.specs.declared.op.Op.{Op as Operator};
ghost use Rattle.lola_alg.specs.Steps.{HasPlaces, op_step, read_step, write_from};
ghost use Rattle.lola_lanes.specs.Lanes.{lane_calls, case_of, assigned};

/// Over `Lanes` each step of an operator, of reading an element and of writing one has a place, so that no
/// lowering over it is ever Full.
pub fn lanes_are_never_full()
    ensures op { (o : Operator) (args : List (List ℕ)) → HasPlaces (op_step lane_calls o args tt) }
    ensures read { (elements : List (List ℕ)) (place : List ℕ) → HasPlaces (read_step lane_calls elements place tt) }
    ensures write { (place value : List ℕ) (elements : List (List ℕ)) → HasPlaces (write_from lane_calls place value 0 elements tt) }
{}

/// Each of the 64 cases is that of an assignment: the one that gives each place its bit of the case's number. So
/// what bits mean under every assignment they mean in every case.
pub fn cases_are_assigned()
    ensures { (n : ℕ) → n < 64 → case_of (assigned n) ≡ n }
{}
