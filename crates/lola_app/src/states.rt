ghost use Rattle.std.specs.Prelude.{◌≡◌, ◌↔◌, ◌+◌, ◌≤◌, length, map, List, ℕ, [], ◌∷◌, string_bytes, IfOk, IsTrue, MatchOption};
ghost use Rattle.std.specs.List.{AllByRecursion};
ghost use Rattle.lola_bits.specs.Lists.{AreEach};
ghost use Rattle.lola_tree.specs.Tree.{tree};
ghost use Rattle.lola_elab.specs.Small.{IsBit};
ghost use Rattle.small_tree.specs.Table.{state_tree};
ghost use Rattle.lola_app.specs.Shown.{IsShown, IsSourceName};
ghost use Rattle.lola_app.specs.Small.{are_digits, is_taken, ShowsRegister, IsSmallState, AreSmallStates};
ghost use Rattle.lola_app.specs.Vectors.{interface_in};

use crate::face::Face;
use crate::fault::ReadError;
use crate::names::{are_distinct_states, place_of};
use lola_bits::Name;
use lola_tree::{Count, Expr, Shape};
use small_tree::StateRow;
use std::alloc::Global;

/// The most states of a table in the small form.
const STATE_LIMIT: usize = 64;

/// A state's name, and the leaf of the register that shows it.
#[derive(Debug, Drop)]
pub struct Shown {
    pub name: String,
    pub leaf: usize,
}

/// The states of a table in order. NotBuilt where there are more than 64, two have one name, or one
/// isn't a one-bit state under a name that a table may declare, which shows one register.
pub fn shown_states(alloc: Global, rows: &[StateRow], face: &Face) -> Result<Vec<Shown>, ReadError>
    requires few { length face.now.inputs.items + length face.now.registers.items ≤ 65536 }
    ensures small { IfOk result (λ all. AreSmallStates (interface_in face.now).registers (map state_tree rows.now)) }
    ensures ok { IfOk result (λ all. AreEach (IsShown (interface_in face.now)) (map state_tree rows.now) all.items) }
    ensures none { result ≡ Err ReadError.NotBuilt → AreSmallStates (interface_in face.now).registers (map state_tree rows.now) → ⊥ }
{
    if rows.len() > STATE_LIMIT || !are_distinct_states(alloc, rows)? {
        return Err(ReadError::NotBuilt);
    }
    each_shown(alloc, rows, face)
}

fn each_shown(alloc: Global, rows: &[StateRow], face: &Face) -> Result<Vec<Shown>, ReadError>
    requires few { length face.now.inputs.items + length face.now.registers.items ≤ 65536 }
    ensures ok { IfOk result (λ all. AreEach (IsShown (interface_in face.now)) (map state_tree rows.now) all.items) }
    ensures none { result ≡ Err ReadError.NotBuilt → AllByRecursion (IsSmallState (interface_in face.now).registers) (map state_tree rows.now) → ⊥ }
{
    let mut all = Vec::new(alloc);
    for row in rows {
        match shown_state(alloc, row, face) {
            Ok(shown) => all.push(shown)?,
            Err(fault) => return Err(fault),
        }
    }
    Ok(all)
}

fn shown_state(alloc: Global, row: &StateRow, face: &Face) -> Result<Shown, ReadError>
    requires few { length face.now.inputs.items + length face.now.registers.items ≤ 65536 }
    ensures ok { IfOk result (λ shown. IsShown (interface_in face.now) (state_tree row.now) shown) }
    ensures none { result ≡ Err ReadError.NotBuilt → IsSmallState (interface_in face.now).registers (state_tree row.now) → ⊥ }
{
    if is_taken(row.name.text()) || !is_bit(&row.shape) {
        return Err(ReadError::NotBuilt);
    }
    let Some(register) = source_name(&row.shown) else {
        return Err(ReadError::NotBuilt);
    };
    let Some(place) = place_of(face.registers.as_slice(), register.text()) else {
        return Err(ReadError::NotBuilt);
    };
    Ok(Shown {
        name: String::from_str(alloc, row.name.text())?,
        leaf: face.inputs.as_slice().len() + place,
    })
}

/// Whether a name means something in every table: `i`, `k`, and `d` or `t` with digits.
fn is_taken(name: &str) -> bool
    ensures { result ≡ is_taken name.now }
{
    match name.as_bytes() {
        [only] => *only == b'i' || *only == b'k',
        [first, second, rest @ ..] => {
            (*first == b'd' || *first == b't') && second.is_ascii_digit() && are_digits(rest)
        }
        _ => false,
    }
}

fn are_digits(bytes: &[u8]) -> bool
    ensures { result ≡ are_digits bytes.now }
{
    for byte in bytes {
        if !byte.is_ascii_digit() {
            return false;
        }
    }
    true
}

/// Whether a type is a vector of one bit.
fn is_bit(shape: &Shape) -> bool
    ensures { IsTrue result ↔ IsBit shape.now }
{
    match shape {
        Shape::Vector { width } => match width {
            Count::Fixed { value, at: _ } => *value == 1,
            Count::Const { name: _ } => false,
        },
        Shape::Array { .. } => false,
    }
}

/// The one name behind an `@`, where the expression is that.
fn source_name(expr: &Expr) -> Option<&Name>
    ensures { MatchOption result ((registers : List (List ℕ)) → ShowsRegister registers (tree expr.now) → ⊥) (λ name. IsSourceName (tree expr.now) name.now) }
{
    match expr {
        Expr::Whole { of } => {
            if of.source {
                only_name(of.path.items())
            } else {
                None
            }
        }
        _ => None,
    }
}

fn only_name(path: &[Name]) -> Option<&Name>
    ensures { MatchOption result ((name : List ℕ) → path.now ≡ name ∷ [] → ⊥) (λ name. path.now ≡ name.now ∷ []) }
{
    match path {
        [name] => Some(name),
        _ => None,
    }
}
