ghost use Rattle.std.specs.Prelude.{◌≡◌, ◌≢◌, ℕ, ℤ, List, ◌<◌, ◌≤◌, ◌+◌, ◌*◌, length, OnOk, Err, true};
ghost use Rattle.std.specs.Option.{option_map};
ghost use Rattle.lrat_check.specs.Clauses.{clause_at, AreKnown};
ghost use Rattle.lrat_check.specs.Good.{Checked, fault_of, hints_fault, negative_hint, Checks};
ghost use Rattle.lrat_check.specs.Marks.{marked, IsLatest};
ghost use Rattle.lrat_check.specs.Whole.{ForceIsKnown};

use crate::clause::unknown_var;
use crate::hint::Hint;
use crate::line_error::LineError;
use crate::marks::{fresh, look, set_all_false, set_true};
use crate::table::Table;

/// The first negative hint.
fn negative_hint(hints: &[i64]) -> Option<i64>
    ensures { result ≡ negative_hint hints.now }
{
    for &hint in hints {
        if hint < 0 {
            return Some(hint);
        }
    }
    None
}

/// The clause in force that a hint names.
#[inline(always)]
fn clause_at(table: &Table, hint: i64) -> Option<&[i32]>
    ensures { option_map (λ c. c.now) result ≡ clause_at table.now.force hint }
{
    if hint < 0 {
        return None;
    }
    table.find(hint as u64)
}

/// Takes the hints in turn.
fn follow(
    table: &Table,
    stamps: &mut [u32],
    stamp: u32,
    vars: u32,
    hints: &[i64],
) -> Result<(), LineError>
    requires known { ForceIsKnown vars table.now.force }
    requires room { 2 * vars + 1 < length stamps.old }
    requires latest { IsLatest stamps.old stamp }
    ensures answer { Checks (hints_fault table.now.force (marked stamps.old stamp) hints.now) result }
    ensures memory { result ≢ Err LineError.Memory }
    ensures latest { IsLatest stamps.new stamp }
    ensures stays { length stamps.new ≡ length stamps.old }
{
    for &hint in hints {
        match clause_at(table, hint) {
            None => return Err(LineError::HintUnknown { hint }),
            Some(clause) => match look(stamps, stamp, clause) {
                Hint::Conflict => return Ok(()),
                Hint::Forces(literal) => set_true(stamps, stamp, literal),
                Hint::Idle => return Err(LineError::HintIdle { hint }),
            },
        }
    }
    Err(LineError::NoConflict)
}

/// Whether an addition is good, and else its fault.
pub(crate) fn check(
    table: &Table,
    stamps: &mut [u32],
    stamp: &mut u32,
    vars: u32,
    id: u64,
    clause: &[i32],
    hints: &[i64],
) -> Result<(), LineError>
    requires known { ForceIsKnown vars table.now.force }
    requires room { 2 * vars + 1 < length stamps.old }
    requires latest { IsLatest stamps.old stamp.old }
    ensures answer { Checks (fault_of (record { vars = vars; force = table.now.force; last = table.now.last; closed = true }) id clause.now hints.now) result }
    ensures memory { result ≢ Err LineError.Memory }
    ensures latest { IsLatest stamps.new stamp.new }
    ensures stays { length stamps.new ≡ length stamps.old }
    ensures known { OnOk result (AreKnown vars clause.now) }
    ensures rises { OnOk result (table.now.last < id) }
{
    if id <= table.last() {
        return Err(LineError::IdNotRising);
    }
    match unknown_var(vars, clause) {
        None => {}
        Some(var) => return Err(LineError::VarUnknown { var }),
    }
    match negative_hint(hints) {
        None => {}
        Some(hint) => return Err(LineError::Rat { hint }),
    }
    *stamp = fresh(stamps, *stamp);
    set_all_false(stamps, *stamp, clause);
    follow(table, stamps, *stamp, vars, hints)
}
