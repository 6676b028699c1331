ghost use Rattle.std.specs.Prelude.{◌≡◌, ◌<◌, ◌≤◌, ℕ, List, [], ◌++◌, map, length, Bool, true, false, IfOk, IfErr, IfSome, MatchOption};
ghost use Rattle.lola_tree.specs.declared.named.Shape.{Shape as Shaping};
ghost use Rattle.lola_tree.specs.Tree.{Tree, tree};
ghost use Rattle.lola_parse.specs.Symbols.{Item};
ghost use Rattle.lola_parse.specs.Grammar.{Words};
ghost use Rattle.lola_parse.specs.Design.{Shaped};
ghost use Rattle.small_tree.specs.Table.{StateTree, state_tree, SetTree, set_tree};
ghost use Rattle.small_read.specs.Grammar.{Keyword, Named, Ended, SetRow as Assigned, StateRow as Shown, MoreStates, MoreStarts};
ghost use Rattle.small_read.specs.Read.{IsRead, IsBehind, Lacks, LacksName};

use crate::fault::TableFault;
use lola_bits::Name;
use lola_parse::{Cursor, Language, Symbol, outermost, shape};
use lola_tree::{Expr, Shape};
use small_tree::{SetRow, StateRow};
use std::alloc::Global;

/// What was read, and what stands behind it.
pub type Read<'a, T> = Result<(T, Cursor<'a>), TableFault>;

/// Behind a word that tables reserve, where it is at the front.
pub fn past_word<'a>(here: &Cursor<'a>, word: &str) -> Option<Cursor<'a>>
    ensures shorter { IfSome result (λ rest. length rest < length here.now) }
    ensures ok { MatchOption result (Lacks word.now here.now) (λ rest. Keyword word.now here.now rest) }
{
    let next = here.next();
    match next.symbol {
        Symbol::TableWord => {
            if next.spelled == word {
                Some(next.rest)
            } else {
                None
            }
        }
        _ => None,
    }
}

/// Whether a word that tables reserve is at the front.
pub fn is_at(here: &Cursor, word: &str) -> bool
    ensures yes { result ≡ true → Lacks word.now here.now → ⊥ }
    ensures no { result ≡ false → Lacks word.now here.now }
{
    match past_word(here, word) {
        Some(_) => true,
        None => false,
    }
}

/// Whether a name is at the front.
fn is_at_name(here: &Cursor) -> bool
    ensures yes { result ≡ true → LacksName here.now → ⊥ }
    ensures no { result ≡ false → LacksName here.now }
{
    match here.next().symbol {
        Symbol::Name => true,
        _ => false,
    }
}

/// Behind a word that tables reserve and that must be at the front.
pub fn behind_word<'a>(here: Cursor<'a>, word: &str) -> Result<Cursor<'a>, TableFault>
    ensures shorter { IfOk result (λ rest. length rest < length here.entry) }
    ensures ok { IfOk result (λ rest. Keyword word.now here.entry rest) }
    ensures whole { (rest : List Item) → Keyword word.now here.entry rest → IsBehind rest result }
    ensures none { IfErr result (λ fault. fault ≡ TableFault.NotBuilt) }
{
    match past_word(&here, word) {
        Some(rest) => Ok(rest),
        None => Err(TableFault::NotBuilt),
    }
}

/// A name: a word that isn't reserved in tables.
pub fn take_name<'a>(alloc: Global, here: Cursor<'a>) -> Read<'a, Name>
    ensures shorter { IfOk result (λ read. length read.1 < length here.entry) }
    ensures ok { IfOk result (λ read. Named read.0 here.entry read.1) }
    ensures whole { (name : List ℕ) (rest : List Item) → Named name here.entry rest → IsRead (λ n. n) name rest result }
{
    let next = here.next();
    match next.symbol {
        Symbol::Name => match Name::new(alloc, next.spelled) {
            Ok(name) => Ok((name, next.rest)),
            Err(_) => Err(TableFault::Memory),
        },
        _ => Err(TableFault::NotBuilt),
    }
}

/// Any word, as the name of a port.
pub fn take_word<'a>(alloc: Global, here: Cursor<'a>) -> Read<'a, Name>
    ensures shorter { IfOk result (λ read. length read.1 < length here.entry) }
    ensures ok { IfOk result (λ read. Words read.0 here.entry read.1) }
    ensures whole { (word : List ℕ) (rest : List Item) → Words word here.entry rest → IsRead (λ n. n) word rest result }
{
    let next = here.next();
    if !next.is_word {
        return Err(TableFault::NotBuilt);
    }
    match Name::new(alloc, next.spelled) {
        Ok(name) => Ok((name, next.rest)),
        Err(_) => Err(TableFault::Memory),
    }
}

/// `expr ";"`.
pub fn take_ended<'a>(alloc: Global, here: Cursor<'a>) -> Read<'a, Expr>
    ensures shorter { IfOk result (λ read. length read.1 < length here.entry) }
    ensures ok { IfOk result (λ read. Ended here.entry (tree read.0) read.1) }
    ensures whole { (e : Tree) (rest : List Item) → Ended here.entry e rest → IsRead tree e rest result }
{
    let (expr, behind) = outermost(alloc, Language::Table, here)?;
    Ok((expr, behind.behind_semicolon()?))
}

/// The type of a state.
fn take_shape<'a>(alloc: Global, here: Cursor<'a>) -> Read<'a, Shape>
    ensures shorter { IfOk result (λ read. length read.1 < length here.entry) }
    ensures ok { IfOk result (λ read. Shaped here.entry read.0 read.1) }
    ensures whole { (shape : Shaping) (rest : List Item) → Shaped here.entry shape rest → IsRead (λ s. s) shape rest result }
{
    Ok(shape(alloc, here)?)
}

/// `name ":=" expr ";"`.
pub fn take_set<'a>(alloc: Global, here: Cursor<'a>) -> Read<'a, SetRow>
    ensures shorter { IfOk result (λ read. length read.1 < length here.entry) }
    ensures ok { IfOk result (λ read. Assigned here.entry (set_tree read.0) read.1) }
    ensures whole { (row : SetTree) (rest : List Item) → Assigned here.entry row rest → IsRead set_tree row rest result }
{
    let (name, behind) = take_name(alloc, here)?;
    let (value, behind) = take_ended(alloc, behind.behind_assign()?)?;
    Ok((SetRow { name, value }, behind))
}

/// `name ":" type "IS" expr ";"`.
fn take_state<'a>(alloc: Global, here: Cursor<'a>) -> Read<'a, StateRow>
    ensures shorter { IfOk result (λ read. length read.1 < length here.entry) }
    ensures ok { IfOk result (λ read. Shown here.entry (state_tree read.0) read.1) }
    ensures whole { (row : StateTree) (rest : List Item) → Shown here.entry row rest → IsRead state_tree row rest result }
{
    let (name, behind) = take_name(alloc, here)?;
    let (shape, behind) = take_shape(alloc, behind.behind_colon()?)?;
    let (shown, behind) = take_ended(alloc, behind_word(behind, "IS")?)?;
    Ok((StateRow { name, shape, shown }, behind))
}

/// `{state}`.
pub fn take_states<'a>(alloc: Global, here: Cursor<'a>) -> Read<'a, Vec<StateRow>>
    ensures shorter { IfOk result (λ read. length read.1 ≤ length here.entry) }
    ensures ok { IfOk result (λ read. MoreStates [] here.entry (map state_tree read.0.items) read.1) }
    ensures whole { (rows : List StateTree) (rest : List Item) → MoreStates [] here.entry rows rest → LacksName rest → IsRead (λ v. map state_tree v.items) rows rest result }
{
    let mut states = Vec::new(alloc);
    let mut behind = here;
    'states: while is_at_name(&behind) {
        let (state, rest) = take_state(alloc, behind)?;
        states.push(state)?;
        behind = rest;
    }
    Ok((states, behind))
}

/// `{name ":=" expr ";"}`.
pub fn take_starts<'a>(alloc: Global, here: Cursor<'a>) -> Read<'a, Vec<SetRow>>
    ensures shorter { IfOk result (λ read. length read.1 ≤ length here.entry) }
    ensures ok { IfOk result (λ read. MoreStarts [] here.entry (map set_tree read.0.items) read.1) }
    ensures whole { (rows : List SetTree) (rest : List Item) → MoreStarts [] here.entry rows rest → LacksName rest → IsRead (λ v. map set_tree v.items) rows rest result }
{
    let mut rows = Vec::new(alloc);
    let mut behind = here;
    'rows: while is_at_name(&behind) {
        let (row, rest) = take_set(alloc, behind)?;
        rows.push(row)?;
        behind = rest;
    }
    Ok((rows, behind))
}
