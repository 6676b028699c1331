ghost use Rattle.std.specs.Prelude.{◌≡◌, ◌↔◌, ℕ, Bool, List, map, cond, false, true, bytes_eq, string_bytes, IfOk, OnOk, IsTrue, MatchOption, Option, Err};
ghost use Rattle.std.specs.List.{AllByRecursion};
ghost use Rattle.std.specs.BTreeSet.{contains_text};
ghost use Rattle.std.specs.BTreeMap.{get_by_text};
ghost use Rattle.lola_bits.specs.Lists.{IsIn};
ghost use Rattle.lola_bits.specs.Names.{is_among};
ghost use Rattle.lola_tree.specs.Width.{Scope as Widths};
ghost use Rattle.lola_tree.specs.Tree.{tree, StmtTree, stmt_tree, module_tree};
ghost use Rattle.lola_elab.specs.Small.{target_of};
ghost use Rattle.lola_elab.specs.Assigned.{target_names, Assigns, IsWhole, AssignsOnce, IsSizedStmt, AreSized, AreValuesOf, trees_of, IsNextOf, AreNexts, IsWellAssigned, HasNexts};
ghost use Rattle.lola_elab.specs.Meanings.{AreVectors, AreOf};

use crate::fault::ElabError;
use crate::flat::Flat;
use crate::flatten::flat_of;
use crate::meaning::Meaning;
use crate::sets::{take, wanted_targets};
use crate::table::enter;
use crate::vector::Vector;
use lola_bits::Name;
use lola_tree::{Expr, Local, Module, Port, Stmt};
use std::alloc::{AllocError, Global};
use std::collections::{BTreeMap, BTreeSet};

/// The target and the value of a whole assignment.
fn assigned(stmt: &Stmt) -> Option<(&Name, &Expr)>
    ensures { MatchOption result (IsWhole (stmt_tree stmt.now) → ⊥) (λ parts. Assigns (stmt_tree stmt.now) parts.0.now (tree parts.1.now)) }
{
    match stmt {
        Stmt::Assign {
            name,
            place: None,
            value,
            ..
        } => Some((name, value)),
        _ => None,
    }
}

/// Takes the target of a whole assignment from those that are left, and says whether it was there.
fn take_target(left: &mut BTreeSet<String>, stmt: &Stmt) -> bool
    ensures there { IsTrue result ↔ (IsWhole (stmt_tree stmt.now) × (contains_text left.old (target_of (stmt_tree stmt.now)) ≡ true)) }
    ensures taken { IsTrue result → (q : List ℕ) → contains_text left.new q ≡ cond (bytes_eq (target_of (stmt_tree stmt.now)) q) false (contains_text left.old q) }
{
    match assigned(stmt) {
        Some((name, _)) => take(left, name.text()),
        None => false,
    }
}

/// Whether the statements are whole assignments, of which each OUT port and register has one, and
/// nothing else.
fn assigns_once(
    alloc: Global,
    body: &[Stmt],
    ports: &[Port],
    locals: &[Local],
) -> Result<bool, AllocError>
    ensures { IfOk result (λ once. IsTrue once ↔ AssignsOnce (is_among (target_names ports.now locals.now)) (map stmt_tree body.now)) }
{
    let mut left = wanted_targets(alloc, ports, locals)?;
    for stmt in body {
        if !take_target(&mut left, stmt) {
            return Ok(false);
        }
    }
    Ok(left.is_empty())
}

/// That a statement is a whole assignment of an expression whose width is the target's.
fn check_value(
    alloc: Global,
    stmt: &Stmt,
    names: &BTreeMap<String, Meaning>,
    targets: &BTreeMap<String, usize>,
) -> Result<(), ElabError>
    requires { AreVectors (get_by_text names.now) }
    ensures ok { OnOk result ((scope : Widths) (widths : List ℕ) → AreOf (get_by_text names.now) scope widths → IsSizedStmt (get_by_text names.now) (get_by_text targets.now) scope (stmt_tree stmt.now)) }
    ensures none { result ≡ Err ElabError.NotBuilt → (scope : Widths) (widths : List ℕ) → AreOf (get_by_text names.now) scope widths → IsSizedStmt (get_by_text names.now) (get_by_text targets.now) scope (stmt_tree stmt.now) → ⊥ }
{
    match assigned(stmt) {
        Some((name, value)) => match flat_of(alloc, value, names) {
            Ok(typed) => {
                if targets.get(name.text()).copied() == Some(typed.width) {
                    Ok(())
                } else {
                    Err(ElabError::NotBuilt)
                }
            }
            Err(fault) => Err(fault),
        },
        None => Err(ElabError::NotBuilt),
    }
}

/// That all statements are such assignments.
fn check_values(
    alloc: Global,
    body: &[Stmt],
    names: &BTreeMap<String, Meaning>,
    targets: &BTreeMap<String, usize>,
) -> Result<(), ElabError>
    requires { AreVectors (get_by_text names.now) }
    ensures ok { OnOk result ((scope : Widths) (widths : List ℕ) → AreOf (get_by_text names.now) scope widths → AreSized (get_by_text names.now) (get_by_text targets.now) scope (map stmt_tree body.now)) }
    ensures none { result ≡ Err ElabError.NotBuilt → (scope : Widths) (widths : List ℕ) → AreOf (get_by_text names.now) scope widths → AreSized (get_by_text names.now) (get_by_text targets.now) scope (map stmt_tree body.now) → ⊥ }
{
    for stmt in body {
        match check_value(alloc, stmt, names, targets) {
            Ok(()) => {}
            Err(fault) => return Err(fault),
        }
    }
    Ok(())
}

/// What the statements assign, by the names of their targets.
fn values_of(alloc: Global, body: &[Stmt]) -> Result<BTreeMap<String, &Expr>, AllocError>
    ensures { IfOk result (λ values. AreValuesOf (map stmt_tree body.now) (trees_of (get_by_text values))) }
{
    let mut values = BTreeMap::new(alloc);
    for stmt in body {
        match assigned(stmt) {
            Some((name, value)) => enter(alloc, &mut values, name.text(), value)?,
            None => {}
        }
    }
    Ok(values)
}

/// What a name is assigned, over the leaves. NotBuilt where it is assigned nothing.
fn next_of(
    alloc: Global,
    name: &str,
    values: &BTreeMap<String, &Expr>,
    names: &BTreeMap<String, Meaning>,
) -> Result<Flat, ElabError>
    requires { AreVectors (get_by_text names.now) }
    ensures ok { IfOk result (λ flat. (ts : List StmtTree) → AreValuesOf ts (trees_of (get_by_text values.now)) → IsNextOf (get_by_text names.now) ts name.now flat) }
    ensures none { result ≡ Err ElabError.NotBuilt → (ts : List StmtTree) → AreValuesOf ts (trees_of (get_by_text values.now)) → (targets : List ℕ → Option ℕ) (scope : Widths) (widths : List ℕ) → AreOf (get_by_text names.now) scope widths → AreSized (get_by_text names.now) targets scope ts → IsIn name.now (map target_of ts) → ⊥ }
{
    match values.get(name).copied() {
        Some(value) => match flat_of(alloc, value, names) {
            Ok(typed) => Ok(typed.flat),
            Err(fault) => Err(fault),
        },
        None => Err(ElabError::NotBuilt),
    }
}

/// What several names are assigned, in the order of the names.
fn nexts_in(
    alloc: Global,
    registers: &[Vector],
    body: &[Stmt],
    names: &BTreeMap<String, Meaning>,
) -> Result<Vec<Flat>, ElabError>
    requires { AreVectors (get_by_text names.now) }
    ensures ok { IfOk result (λ nexts. AreNexts (get_by_text names.now) (map stmt_tree body.now) (map (λ (v : Vector). string_bytes v.name) registers.now) nexts.items) }
    ensures none { result ≡ Err ElabError.NotBuilt → (targets : List ℕ → Option ℕ) (scope : Widths) (widths : List ℕ) → AreOf (get_by_text names.now) scope widths → AreSized (get_by_text names.now) targets scope (map stmt_tree body.now) → AllByRecursion (λ name. IsIn name (map target_of (map stmt_tree body.now))) (map (λ (v : Vector). string_bytes v.name) registers.now) → ⊥ }
{
    let values = values_of(alloc, body)?;
    let mut nexts = Vec::new(alloc);
    for register in registers {
        match next_of(alloc, register.name.as_str(), &values, names) {
            Ok(next) => nexts.push(next)?,
            Err(fault) => return Err(fault),
        }
    }
    Ok(nexts)
}

/// The value of each register after the clock edge. NotBuilt where a statement is no whole assignment
/// of an expression that has its target's width, or the OUT ports and registers aren't assigned once
/// each, or something else is.
pub fn nexts_of(
    alloc: Global,
    root: &Module,
    registers: &[Vector],
    names: &BTreeMap<String, Meaning>,
    targets: &BTreeMap<String, usize>,
) -> Result<Vec<Flat>, ElabError>
    requires { AreVectors (get_by_text names.now) }
    ensures ok { IfOk result (λ nexts. HasNexts (module_tree root.now) (get_by_text names.now) (get_by_text targets.now) (map (λ (v : Vector). string_bytes v.name) registers.now) nexts.items) }
    ensures none { result ≡ Err ElabError.NotBuilt → (scope : Widths) (widths : List ℕ) → AreOf (get_by_text names.now) scope widths → IsWellAssigned (module_tree root.now) (get_by_text names.now) (get_by_text targets.now) scope (map (λ (v : Vector). string_bytes v.name) registers.now) → ⊥ }
{
    let body = root.body.items();
    match check_values(alloc, body, names, targets) {
        Ok(()) => {}
        Err(fault) => return Err(fault),
    }
    if !assigns_once(alloc, body, root.ports.items(), root.locals.items())? {
        return Err(ElabError::NotBuilt);
    }
    nexts_in(alloc, registers, body, names)
}
