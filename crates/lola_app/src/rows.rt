ghost use Rattle.std.specs.Prelude.{◌≡◌, ℕ, List, map, string_bytes, IfOk, OnOk};
ghost use Rattle.std.specs.List.{AllByRecursion};
ghost use Rattle.lola_bits.specs.Lists.{AreEach};
ghost use Rattle.lola_elab.specs.Scope.{HasReading};
ghost use Rattle.small_tree.specs.Table.{set_tree};
ghost use Rattle.lola_app.specs.declared.states.Shown.{Shown as Showing};
ghost use Rattle.lola_app.specs.Fitting.{IsSetBy, IsSetState};
ghost use Rattle.lola_app.specs.Small.{IsSmallRow, AreSmallRows, IsNoName};
ghost use Rattle.lola_app.specs.Starts.{leaf_under, IsStartRow};

use crate::claim::{Start, State};
use crate::fault::ReadError;
use crate::meaning::{constant, meaning};
use crate::names::are_distinct_rows;
use crate::states::Shown;
use lola_elab::{Logic, Scope};
use small_tree::SetRow;
use std::alloc::Global;

/// The states of a claim, each with its value after the instruction.
pub fn claimed_states(
    alloc: Global,
    states: &[Shown],
    rows: &[SetRow],
    scope: &Scope,
) -> Result<Vec<State>, ReadError>
    ensures ok { IfOk result (λ claimed. AreEach (IsSetState (map set_tree rows.now) scope.now) states.now claimed.items) }
    ensures none { result ≡ Err ReadError.NotBuilt → (names : List (List ℕ)) → AllByRecursion (IsSmallRow names (HasReading scope.now)) (map set_tree rows.now) → ⊥ }
{
    let mut claimed = Vec::new(alloc);
    for state in states {
        match claimed_state(alloc, state, rows, scope) {
            Ok(one) => claimed.push(one)?,
            Err(fault) => return Err(fault),
        }
    }
    Ok(claimed)
}

fn claimed_state(
    alloc: Global,
    state: &Shown,
    rows: &[SetRow],
    scope: &Scope,
) -> Result<State, ReadError>
    ensures ok { IfOk result (λ claimed. IsSetState (map set_tree rows.now) scope.now state.now claimed) }
    ensures none { result ≡ Err ReadError.NotBuilt → (names : List (List ℕ)) → AllByRecursion (IsSmallRow names (HasReading scope.now)) (map set_tree rows.now) → ⊥ }
{
    let set = match set_of(alloc, state, rows, scope) {
        Ok(set) => set,
        Err(fault) => return Err(fault),
    };
    Ok(State {
        name: String::from_str(alloc, state.name.as_str())?,
        leaf: state.leaf,
        set,
    })
}

/// The value of a state after the instruction: that of its SET row, or its own leaf where it has
/// none.
fn set_of(alloc: Global, state: &Shown, rows: &[SetRow], scope: &Scope) -> Result<Logic, ReadError>
    ensures means { IfOk result (λ logic. IsSetBy (map set_tree rows.now) scope.now state.now logic) }
    ensures none { result ≡ Err ReadError.NotBuilt → (states : List (List ℕ)) → AllByRecursion (IsSmallRow states (HasReading scope.now)) (map set_tree rows.now) → ⊥ }
{
    for row in rows {
        if row.name.text() == state.name.as_str() {
            return meaning(alloc, &row.value, scope);
        }
    }
    Ok(Logic::Leaf { number: state.leaf })
}

/// That SET rows set states, each at most once, to expressions over the names of a scope.
pub fn check_sets(
    alloc: Global,
    rows: &[SetRow],
    states: &[Shown],
    scope: &Scope,
) -> Result<(), ReadError>
    ensures ok { OnOk result (AreSmallRows (map (λ (s : Showing). string_bytes s.name) states.now) (HasReading scope.now) (map set_tree rows.now)) }
    ensures none { result ≡ Err ReadError.NotBuilt → AreSmallRows (map (λ (s : Showing). string_bytes s.name) states.now) (HasReading scope.now) (map set_tree rows.now) → ⊥ }
{
    if !are_distinct_rows(alloc, rows)? {
        return Err(ReadError::NotBuilt);
    }
    check_each(alloc, rows, states, scope)
}

fn check_each(
    alloc: Global,
    rows: &[SetRow],
    states: &[Shown],
    scope: &Scope,
) -> Result<(), ReadError>
    ensures ok { OnOk result (AllByRecursion (IsSmallRow (map (λ (s : Showing). string_bytes s.name) states.now) (HasReading scope.now)) (map set_tree rows.now)) }
    ensures none { result ≡ Err ReadError.NotBuilt → AllByRecursion (IsSmallRow (map (λ (s : Showing). string_bytes s.name) states.now) (HasReading scope.now)) (map set_tree rows.now) → ⊥ }
{
    for row in rows {
        match check_row(alloc, row, states, scope) {
            Ok(()) => {}
            Err(fault) => return Err(fault),
        }
    }
    Ok(())
}

fn check_row(alloc: Global, row: &SetRow, states: &[Shown], scope: &Scope) -> Result<(), ReadError>
    ensures ok { OnOk result (IsSmallRow (map (λ (s : Showing). string_bytes s.name) states.now) (HasReading scope.now) (set_tree row.now)) }
    ensures none { result ≡ Err ReadError.NotBuilt → IsSmallRow (map (λ (s : Showing). string_bytes s.name) states.now) (HasReading scope.now) (set_tree row.now) → ⊥ }
{
    match leaf_under(states, row.name.text()) {
        Some(_) => {}
        None => return Err(ReadError::NotBuilt),
    }
    let _value = match meaning(alloc, &row.value, scope) {
        Ok(value) => value,
        Err(fault) => return Err(fault),
    };
    Ok(())
}

/// The leaf of the first state under a name.
fn leaf_under(states: &[Shown], name: &str) -> Option<usize>
    ensures { result ≡ leaf_under states.now name.now }
{
    for state in states {
        if state.name.as_str() == name {
            return Some(state.leaf);
        }
    }
    None
}

/// The START rows in order. NotBuilt where a row sets no state, two set one, or one has another value
/// than a one-bit expression without names.
pub fn starts_of(alloc: Global, rows: &[SetRow], states: &[Shown]) -> Result<Vec<Start>, ReadError>
    ensures small { IfOk result (λ starts. AreSmallRows (map (λ (s : Showing). string_bytes s.name) states.now) IsNoName (map set_tree rows.now)) }
    ensures ok { IfOk result (λ starts. AreEach (IsStartRow states.now) (map set_tree rows.now) starts.items) }
    ensures none { result ≡ Err ReadError.NotBuilt → AreSmallRows (map (λ (s : Showing). string_bytes s.name) states.now) IsNoName (map set_tree rows.now) → ⊥ }
{
    if !are_distinct_rows(alloc, rows)? {
        return Err(ReadError::NotBuilt);
    }
    each_start(alloc, rows, states)
}

fn each_start(alloc: Global, rows: &[SetRow], states: &[Shown]) -> Result<Vec<Start>, ReadError>
    ensures ok { IfOk result (λ starts. AreEach (IsStartRow states.now) (map set_tree rows.now) starts.items) }
    ensures none { result ≡ Err ReadError.NotBuilt → AllByRecursion (IsSmallRow (map (λ (s : Showing). string_bytes s.name) states.now) IsNoName) (map set_tree rows.now) → ⊥ }
{
    let mut starts = Vec::new(alloc);
    for row in rows {
        match start_of(alloc, row, states) {
            Ok(start) => starts.push(start)?,
            Err(fault) => return Err(fault),
        }
    }
    Ok(starts)
}

fn start_of(alloc: Global, row: &SetRow, states: &[Shown]) -> Result<Start, ReadError>
    ensures ok { IfOk result (λ start. IsStartRow states.now (set_tree row.now) start) }
    ensures none { result ≡ Err ReadError.NotBuilt → IsSmallRow (map (λ (s : Showing). string_bytes s.name) states.now) IsNoName (set_tree row.now) → ⊥ }
{
    let Some(leaf) = leaf_under(states, row.name.text()) else {
        return Err(ReadError::NotBuilt);
    };
    let value = match constant(alloc, &row.value) {
        Ok(value) => value,
        Err(fault) => return Err(fault),
    };
    Ok(Start {
        name: String::from_str(alloc, row.name.text())?,
        leaf,
        value,
    })
}
