ghost use Rattle.std.specs.Prelude.{◌≡◌, ◌≤◌, ℕ, Bool, List, [], None, IfOk, MatchOption};
ghost use Rattle.lola_tree.specs.Tree.{tree};
ghost use Rattle.lola_tree.specs.Width.{Scope as Widths};
ghost use Rattle.lola_tree.specs.Value.{value};
ghost use Rattle.lola_tree.specs.declared.named.Ref.{Ref as Reference};
ghost use Rattle.lola_elab.specs.Logic.{logic_value, bit_number};
ghost use Rattle.lola_elab.specs.Scope.{find, find_path, reading_of, reading_number, HasReading, Reads, AreBitNames};
ghost use Rattle.lola_elab.specs.Small.{IsLogic, IsSmallExpr};
ghost use Rattle.lola_elab.specs.Resolved.{IsGateOf};

use crate::fault::ElabError;
use crate::logic::{Gate, Logic, both, negation};
use lola_bits::{Name, Op};
use lola_tree::{Expr, Ref};
use std::alloc::Global;

/// What a name in an expression stands for.
#[derive(Clone, Copy, Debug, PartialEq, Eq)]
pub enum Reading {
    Leaf { number: usize },
    Constant { value: bool },
}

/// A name and what it stands for.
#[derive(Debug, Drop)]
pub struct Entry {
    pub name: String,
    pub reading: Reading,
}

/// The names that an expression may hold: those that stand bare, and those behind an `@`. Of two
/// entries under one name the first counts.
#[derive(Debug, Drop)]
pub struct Scope {
    pub bare: Vec<Entry>,
    pub source: Vec<Entry>,
}

impl Scope {
    /// The scope without a name. Takes no memory.
    pub fn new(alloc: Global) -> Scope
        ensures bare { result.bare.items ≡ [] }
        ensures source { result.source.items ≡ [] }
    {
        Scope {
            bare: Vec::new(alloc),
            source: Vec::new(alloc),
        }
    }
}

/// The one-bit expression over leaves that an expression means in a scope. NotBuilt where it holds
/// another operator than `~ & | ^`, another number than 0 or 1 without a width, or a name that the
/// scope hasn't.
pub fn resolve(alloc: Global, expr: &Expr, scope: &Scope) -> Result<Logic, ElabError>
    ensures small { IfOk result (λ logic. IsSmallExpr (HasReading scope.now) (tree expr.now)) }
    ensures means { IfOk result (λ logic. (widths : Widths) → AreBitNames (HasReading scope.now) widths → (names : Reference → ℕ) (leaves : List Bool) → Reads scope.now names leaves → value widths (tree expr.now) (λ r n. names r) ≡ bit_number (logic_value logic leaves)) }
    ensures none { result ≡ Err ElabError.NotBuilt → IsSmallExpr (HasReading scope.now) (tree expr.now) → ⊥ }
{
    match expr {
        Expr::Number {
            value,
            width,
            at: _,
        } => number_logic(*value, *width),
        Expr::Whole { of } => match reading_of(of, scope) {
            Some(reading) => Ok(reading_logic(reading)),
            None => Err(ElabError::NotBuilt),
        },
        Expr::Not { arg, at: _ } => match resolve(alloc, arg, scope) {
            Ok(arg) => Ok(negation(alloc, arg)?),
            Err(fault) => Err(fault),
        },
        Expr::Binary {
            op,
            left,
            right,
            at: _,
        } => {
            let Some(gate) = gate_of(*op) else {
                return Err(ElabError::NotBuilt);
            };
            let left = match resolve(alloc, left, scope) {
                Ok(left) => left,
                Err(fault) => return Err(fault),
            };
            let right = match resolve(alloc, right, scope) {
                Ok(right) => right,
                Err(fault) => return Err(fault),
            };
            Ok(both(alloc, gate, left, right)?)
        }
        _ => Err(ElabError::NotBuilt),
    }
}

/// A bit that is written as a number without a width.
fn number_logic(value: u128, width: Option<u128>) -> Result<Logic, ElabError>
    ensures small { IfOk result (λ logic. (value ≤ 1) × (width ≡ None)) }
    ensures means { IfOk result (λ logic. (leaves : List Bool) → value ≡ bit_number (logic_value logic leaves)) }
    ensures none { result ≡ Err ElabError.NotBuilt → (value ≤ 1) × (width ≡ None) → ⊥ }
{
    match width {
        None if value == 0 => Ok(Logic::Constant { value: false }),
        None if value == 1 => Ok(Logic::Constant { value: true }),
        _ => Err(ElabError::NotBuilt),
    }
}

/// What a name stands for, as an expression.
fn reading_logic(reading: Reading) -> Logic
    ensures { (leaves : List Bool) → bit_number (logic_value result leaves) ≡ reading_number reading leaves }
{
    match reading {
        Reading::Leaf { number } => Logic::Leaf { number },
        Reading::Constant { value } => Logic::Constant { value },
    }
}

/// The gate of an operator.
fn gate_of(op: Op) -> Option<Gate>
    ensures { MatchOption result (IsLogic op → ⊥) (λ gate. IsGateOf op gate) }
{
    match op {
        Op::And => Some(Gate::And),
        Op::Or => Some(Gate::Or),
        Op::Xor => Some(Gate::Xor),
        _ => None,
    }
}

/// What a reference stands for.
fn reading_of(of: &Ref, scope: &Scope) -> Option<Reading>
    ensures { result ≡ reading_of scope.now of.now }
{
    if of.source {
        find_path(scope.source.as_slice(), of.path.items())
    } else {
        find_path(scope.bare.as_slice(), of.path.items())
    }
}

/// What a path stands for. One of several names leads into an instance, and stands for nothing here.
fn find_path(entries: &[Entry], path: &[Name]) -> Option<Reading>
    ensures { result ≡ find_path entries.now path.now }
{
    match path {
        [name] => find(entries, name.text()),
        _ => None,
    }
}

/// What a name stands for.
fn find(entries: &[Entry], name: &str) -> Option<Reading>
    ensures { result ≡ find entries.now name.now }
{
    for entry in entries {
        if entry.name.as_str() == name {
            return Some(entry.reading);
        }
    }
    None
}
