ghost use Rattle.std.specs.Prelude.{◌≡◌, ◌↔◌, ◌+◌, ◌≤◌, length, IfOk, IsTrue};
ghost use Rattle.small_tree.specs.Table.{table_tree};
ghost use Rattle.lola_app.specs.Claiming.{IsClaimOf};
ghost use Rattle.lola_app.specs.Small.{IsSmallTable};
ghost use Rattle.lola_app.specs.Vectors.{interface_in};

use crate::classes::{only_class, only_place, taken_leaf};
use crate::face::Face;
use crate::fault::ReadError;
use crate::meaning::meaning;
use crate::roles::roles_of;
use crate::rows::{check_sets, claimed_states, starts_of};
use crate::scopes::{class_scope, register_scope};
use crate::states::shown_states;
use lola_elab::Logic;
use small_tree::Table;
use std::alloc::Global;

/// A state: the leaf of its register, and its value after the instruction over the leaves before it.
#[derive(Debug, Drop)]
pub struct State {
    pub name: String,
    pub leaf: usize,
    pub set: Logic,
}

/// The value of a state after a reset cycle.
#[derive(Debug, Drop)]
pub struct Start {
    pub name: String,
    pub leaf: usize,
    pub value: Logic,
}

/// What a table says of a design, over the leaves that it sees.
#[derive(Drop)]
pub struct Claim {
    pub face: Face,
    /// The leaf of RESET, and the value at which it is active.
    pub reset: usize,
    pub active: bool,
    pub invariant: Logic,
    pub boundary: Logic,
    /// The name of the class, and the one place of its pattern.
    pub class: String,
    pub pattern: u8,
    pub states: Vec<State>,
    pub starts: Vec<Start>,
}

/// The claim of a table about what it sees of a design. NotBuilt where the table doesn't fit that in the
/// small form.
pub fn fit(alloc: Global, table: &Table, face: Face) -> Result<Claim, ReadError>
    requires few { length face.inputs.items + length face.registers.items ≤ 65536 }
    ensures ok { IfOk result (λ claim. IsClaimOf (table_tree table.now) claim) }
    ensures face { IfOk result (λ claim. claim.face ≡ face) }
    ensures none { result ≡ Err ReadError.NotBuilt → IsSmallTable (interface_in face) (table_tree table.now) → ⊥ }
{
    if !is_for(table, face.root.as_str()) {
        return Err(ReadError::NotBuilt);
    }
    let roles = match roles_of(table, face.inputs.as_slice()) {
        Ok(roles) => roles,
        Err(fault) => return Err(fault),
    };
    let shown = match shown_states(alloc, table.states.items(), &face) {
        Ok(shown) => shown,
        Err(fault) => return Err(fault),
    };
    let Some(class) = only_class(table.classes.items()) else {
        return Err(ReadError::NotBuilt);
    };
    let Some(pattern) = only_place(class.pattern.items()) else {
        return Err(ReadError::NotBuilt);
    };
    let Some(taken) = taken_leaf(class.phases.items(), roles.loaded) else {
        return Err(ReadError::NotBuilt);
    };
    let registers = register_scope(alloc, &face)?;
    let invariant = match meaning(alloc, &table.invariant, &registers) {
        Ok(invariant) => invariant,
        Err(fault) => return Err(fault),
    };
    let boundary = match meaning(alloc, &table.boundary, &registers) {
        Ok(boundary) => boundary,
        Err(fault) => return Err(fault),
    };
    let names = class_scope(alloc, shown.as_slice(), taken)?;
    match check_sets(alloc, class.sets.items(), shown.as_slice(), &names) {
        Ok(()) => {}
        Err(fault) => return Err(fault),
    }
    let states = match claimed_states(alloc, shown.as_slice(), class.sets.items(), &names) {
        Ok(states) => states,
        Err(fault) => return Err(fault),
    };
    let starts = match starts_of(alloc, table.starts.items(), shown.as_slice()) {
        Ok(starts) => starts,
        Err(fault) => return Err(fault),
    };
    Ok(Claim {
        reset: roles.reset,
        active: table.reset.value,
        invariant,
        boundary,
        class: String::from_str(alloc, class.name.text())?,
        pattern,
        states,
        starts,
        face,
    })
}

/// Whether a table is for the design with this root, and its END names it.
fn is_for(table: &Table, root: &str) -> bool
    ensures { IsTrue result ↔ (table.now.ends ≡ table.now.name) × (table.now.root ≡ root.now) }
{
    table.ends.text() == table.name.text() && table.root.text() == root
}
