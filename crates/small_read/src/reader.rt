ghost use Rattle.std.specs.Prelude.{◌≡◌, ℕ, List, IfOk, Err};
ghost use Rattle.lola_parse.specs.Symbols.{Item, AreIn, items_of};
ghost use Rattle.small_tree.specs.Table.{TableTree, table_tree};
ghost use Rattle.small_read.specs.declared.reader.Heading.{Heading as TableHeading};
ghost use Rattle.small_read.specs.Grammar.{SpellsTable};
ghost use Rattle.small_read.specs.Kept.{ViewsTree, views_tree, EffectsTree, effects_tree};
ghost use Rattle.small_read.specs.Read.{IsRead, IsNameRead, LacksRole, LacksClass, Headed, Viewed, Effected, Ending};

use crate::classes::take_classes;
use crate::fault::TableFault;
use crate::roles::{Roles, take_roles};
use crate::rows::{Read, behind_word, take_ended, take_name, take_starts, take_states};
use lola_bits::{Name, Seq};
use lola_parse::{Cursor, Language};
use lola_scan::Token;
use lola_tree::Expr;
use small_tree::{Active, Class, SetRow, StateRow, Table};
use std::alloc::Global;

/// The table that all tokens of a text spell by the grammar of tables; they are those that `scan`
/// gave for it. NotBuilt comes exactly where they spell no table in the forms that are built; Memory
/// is want of memory. Time and memory are linear in the text.
pub fn read_table(alloc: Global, text: &[u8], tokens: &[Token]) -> Result<Table, TableFault>
    requires { AreIn text.now tokens.now }
    ensures ok { IfOk result (λ table. SpellsTable (items_of Language.Table text.now tokens.now) (table_tree table)) }
    ensures none { result ≡ Err TableFault.NotBuilt → (T : TableTree) → SpellsTable (items_of Language.Table text.now tokens.now) T → ⊥ }
{
    whole_table(alloc, Cursor::new(Language::Table, text, tokens))
}

/// The table that all tokens of a cursor spell.
fn whole_table(alloc: Global, here: Cursor) -> Result<Table, TableFault>
    ensures ok { IfOk result (λ table. SpellsTable here.entry (table_tree table)) }
    ensures none { result ≡ Err TableFault.NotBuilt → (T : TableTree) → SpellsTable here.entry T → ⊥ }
{
    let (heading, behind) = take_heading(alloc, here)?;
    let (views, behind) = take_views(alloc, behind)?;
    let (effects, behind) = take_effects(alloc, behind)?;
    let ends = take_ending(alloc, behind)?;
    Ok(Table {
        name: heading.name,
        root: heading.root,
        reset: heading.reset,
        loaded: heading.loaded,
        states: Seq::of(views.states),
        invariant: views.invariant,
        boundary: views.boundary,
        starts: Seq::of(effects.starts),
        classes: Seq::of(effects.classes),
        ends,
    })
}

/// What the heading of a table says.
#[derive(Drop)]
struct Heading {
    name: Name,
    root: Name,
    reset: Active,
    loaded: Option<Name>,
}

/// `"TABLE" name "FOR" name ";" "ROLES" {role}`, where RESET is among the roles.
fn take_heading<'a>(alloc: Global, here: Cursor<'a>) -> Read<'a, Heading>
    ensures ok { IfOk result (λ read. Headed here.entry read.0 read.1) }
    ensures whole { (heading : TableHeading) (rest : List Item) → Headed here.entry heading rest → LacksRole rest → IsRead (λ h. h) heading rest result }
{
    let (name, behind) = take_name(alloc, behind_word(here, "TABLE")?)?;
    let (root, behind) = take_name(alloc, behind_word(behind, "FOR")?)?;
    let behind = behind_word(behind.behind_semicolon()?, "ROLES")?;
    let (roles, behind) = take_roles(alloc, behind)?;
    let Roles { reset, loaded } = roles;
    match reset {
        Some(reset) => Ok((
            Heading {
                name,
                root,
                reset,
                loaded,
            },
            behind,
        )),
        None => Err(TableFault::NotBuilt),
    }
}

/// What of a table speaks of the design's registers.
#[derive(Drop)]
struct Views {
    states: Vec<StateRow>,
    invariant: Expr,
    boundary: Expr,
}

/// `"STATE" {state} "INVARIANT" expr ";" "BOUNDARY" expr ";"`.
fn take_views<'a>(alloc: Global, here: Cursor<'a>) -> Read<'a, Views>
    ensures ok { IfOk result (λ read. Viewed here.entry (views_tree read.0) read.1) }
    ensures whole { (views : ViewsTree) (rest : List Item) → Viewed here.entry views rest → IsRead views_tree views rest result }
{
    let (states, behind) = take_states(alloc, behind_word(here, "STATE")?)?;
    let (invariant, behind) = take_ended(alloc, behind_word(behind, "INVARIANT")?)?;
    let (boundary, behind) = take_ended(alloc, behind_word(behind, "BOUNDARY")?)?;
    let views = Views {
        states,
        invariant,
        boundary,
    };
    Ok((views, behind))
}

/// What a table says of instructions.
#[derive(Drop)]
struct Effects {
    starts: Vec<SetRow>,
    classes: Vec<Class>,
}

/// `"START" {name ":=" expr ";"} {class}`.
fn take_effects<'a>(alloc: Global, here: Cursor<'a>) -> Read<'a, Effects>
    ensures ok { IfOk result (λ read. Effected here.entry (effects_tree read.0) read.1) }
    ensures whole { (effects : EffectsTree) (rest : List Item) → Effected here.entry effects rest → LacksClass rest → IsRead effects_tree effects rest result }
{
    let (starts, behind) = take_starts(alloc, behind_word(here, "START")?)?;
    let (classes, behind) = take_classes(alloc, behind)?;
    Ok((Effects { starts, classes }, behind))
}

/// `"END" name "."` up to the end of the text, and its name.
fn take_ending(alloc: Global, here: Cursor) -> Result<Name, TableFault>
    ensures ok { IfOk result (λ name. Ending here.entry name) }
    ensures whole { (name : List ℕ) → Ending here.entry name → IsNameRead name result }
{
    let (name, behind) = take_name(alloc, here.behind_end()?)?;
    let behind = behind.behind_dot()?;
    if behind.left() > 0 {
        return Err(TableFault::NotBuilt);
    }
    Ok(name)
}
