ghost use Rattle.std.specs.Prelude.{◌≡◌, ℕ, List, map, IfOk};
ghost use Rattle.lola_bits.specs.Vector.{FitsWidth};
ghost use Rattle.lola_tree.specs.Tree.{tree};
ghost use Rattle.tab_tree.specs.declared.value.StateValue.TheVariants.{One};
ghost use Rattle.tab_tree.specs.Table.{let_tree, table_tree};
ghost use Rattle.tab_tree.specs.Names.{mapped, table_vector, table_value, with_rows};
ghost use Rattle.tab_tree.specs.Step.{counted};
ghost use Rattle.tab_mach.specs.Known.{base_value, names_of};
ghost use Rattle.tab_mach.specs.Vectors.{AreVectors};
ghost use Rattle.tab_mach.specs.Begun.{words_of, names_in, AreFields, AreGiven, IsBegun, IsCount};
ghost use Rattle.tab_mach.specs.Sound.{AreSound, AreWords};

use crate::evaluate::evaluate;
use crate::known::{Given, Known};
use crate::words::Kept;
use lola_bits::{Bits, Memory};
use lola_tree::Expr;
use std::alloc::Global;
use tab_tree::{Inside, LetRow, StateValue, Table};

/// An instruction under way: its table and steps, the states and the word that it began with, and the
/// values of the fields.
#[derive(Clone, Copy, Drop)]
pub struct Begun<'a> {
    pub table: &'a Table,
    pub inside: &'a Inside,
    pub arch: &'a [StateValue],
    pub word: Bits,
    pub fields: &'a [Given<'a>],
}

/// The vector that an expression stands for: none where it has no width. Takes no memory.
#[tactic(auto, using(crate::proofs::Sound::sound_known))]
pub fn vector_in(known: &Known, expr: &Expr) -> Option<Bits>
    requires { AreSound (names_of known.now) }
    ensures value { result ≡ table_vector (names_of known.now) (tree expr.now) }
    ensures fits { AreVectors result }
{
    evaluate(known, expr)
}

/// The value of an expression: the vector of no bits where it has no width.
pub fn value_in(known: &Known, expr: &Expr) -> Bits
    requires { AreSound (names_of known.now) }
    ensures { result ≡ table_value (names_of known.now) (tree expr.now) }
{
    match vector_in(known, expr) {
        Some(value) => value,
        None => Bits { width: 0, value: 0 },
    }
}

/// The names with those of some rows, each of which stands for the value of its expression over the names
/// before it.
fn with_rows<'a>(known: Known<'a>, rows: &'a [LetRow]) -> Result<Known<'a>, Memory>
    requires { AreSound (names_of known) }
    ensures value { IfOk result (λ k. names_of k ≡ with_rows (map let_tree rows.now) (names_of known.entry)) }
    ensures sound { IfOk result (λ k. AreSound (names_of k)) }
    ensures base { IfOk result (λ k. (name : List ℕ) → base_value k name ≡ base_value known.entry name) }
    ensures given { AreGiven known.entry.lets.items → IfOk result (λ k. AreGiven k.lets.items) }
{
    let mut known = known;
    for row in rows {
        let value = vector_in(&known, &row.value);
        known.lets.push(Given {
            name: &row.name,
            value,
        })?;
    }
    Ok(known)
}

/// The names with the fields of a table.
fn with_fields<'a>(bare: Known<'a>, table: &'a Table) -> Result<Known<'a>, Memory>
    requires { AreSound (names_of bare) }
    ensures value { IfOk result (λ k. names_of k ≡ with_rows (map let_tree table.now.fields) (names_of bare.entry)) }
    ensures base { IfOk result (λ k. (name : List ℕ) → base_value k name ≡ base_value bare.entry name) }
    ensures given { AreGiven bare.entry.lets.items → IfOk result (λ k. AreGiven k.lets.items) }
{
    with_rows(bare, table.fields.items())
}

/// The fields, each with its value over the word and the fields before it.
pub fn field_rows<'a>(alloc: Global, table: &'a Table, word: Bits) -> Result<Vec<Given<'a>>, Memory>
    requires { FitsWidth word.width word.value }
    ensures value { IfOk result (λ v. AreFields (table_tree table.now) word v.items) }
    ensures given { IfOk result (λ v. AreGiven v.items) }
{
    let bare = Known {
        states: &[],
        arch: &[],
        fields: &[],
        lets: Vec::new(alloc),
        word,
        count: None,
        loaded: &[],
        turned: &[],
    };
    let known = with_fields(bare, table)?;
    Ok(known.lets)
}

/// The count of a turn as a vector.
fn count_vector(count: Option<u32>) -> Option<Bits>
    requires { IsCount count }
    ensures value { mapped One result ≡ counted count }
    ensures fits { AreVectors result }
{
    match count {
        Some(count) => Some(Bits::new(8, count as u128)),
        None => None,
    }
}

/// What the expressions of an instruction name, with the words so far, and in a turn its count.
pub fn scope<'a>(
    alloc: Global,
    begun: &'a Begun<'a>,
    kept: &'a Kept,
    count: Option<u32>,
) -> Result<Known<'a>, Memory>
    requires begun { IsBegun begun.now }
    requires words { AreWords kept.now }
    requires count { IsCount count }
    ensures value { IfOk result (λ k. names_of k ≡ names_in begun.now (words_of kept.now) count) }
    ensures sound { IfOk result (λ k. AreSound (names_of k)) }
{
    let bare = Known {
        states: begun.table.states.items(),
        arch: begun.arch,
        fields: begun.fields,
        lets: Vec::new(alloc),
        word: begun.word,
        count: count_vector(count),
        loaded: kept.loaded.as_slice(),
        turned: kept.turned.as_slice(),
    };
    with_rows(bare, begun.inside.lets.items())
}

/// The vector that an expression of an instruction stands for, with the words so far.
pub fn vector_begun(
    alloc: Global,
    begun: &Begun,
    kept: &Kept,
    count: Option<u32>,
    expr: &Expr,
) -> Result<Option<Bits>, Memory>
    requires begun { IsBegun begun.now }
    requires words { AreWords kept.now }
    requires count { IsCount count }
    ensures value { IfOk result (λ x. x ≡ table_vector (names_in begun.now (words_of kept.now) count) (tree expr.now)) }
    ensures fits { IfOk result (λ x. AreVectors x) }
{
    let known = scope(alloc, begun, kept, count)?;
    Ok(vector_in(&known, expr))
}
