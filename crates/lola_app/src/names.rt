ghost use Rattle.std.specs.Prelude.{◌≡◌, ◌↔◌, map, string_bytes, IfOk, IsTrue, MatchOption};
ghost use Rattle.lola_bits.specs.Lists.{IsIn, AreDistinct, IsAt};
ghost use Rattle.small_tree.specs.Table.{state_tree, set_tree, StateTree, SetTree};

use lola_elab::add_name;
use small_tree::{SetRow, StateRow};
use std::alloc::{AllocError, Global};
use std::collections::BTreeSet;

/// The place of a name in a list, from 0.
pub fn place_of(names: &[String], name: &str) -> Option<usize>
    ensures { MatchOption result (IsIn name.now (map string_bytes names.now) → ⊥) (λ place. IsAt (map string_bytes names.now) place name.now) }
{
    for (place, other) in names.iter().enumerate() {
        if other.as_str() == name {
            return Some(place);
        }
    }
    None
}

/// Whether no two states have one name.
pub fn are_distinct_states(alloc: Global, rows: &[StateRow]) -> Result<bool, AllocError>
    ensures { IfOk result (λ distinct. IsTrue distinct ↔ AreDistinct (map (λ (row : StateTree). row.name) (map state_tree rows.now))) }
{
    let mut names = BTreeSet::new(alloc);
    for row in rows {
        if !add_name(alloc, &mut names, row.name.text())? {
            return Ok(false);
        }
    }
    Ok(true)
}

/// Whether no two rows set one state.
pub fn are_distinct_rows(alloc: Global, rows: &[SetRow]) -> Result<bool, AllocError>
    ensures { IfOk result (λ distinct. IsTrue distinct ↔ AreDistinct (map (λ (row : SetTree). row.name) (map set_tree rows.now))) }
{
    let mut names = BTreeSet::new(alloc);
    for row in rows {
        if !add_name(alloc, &mut names, row.name.text())? {
            return Ok(false);
        }
    }
    Ok(true)
}
