ghost use Rattle.std.specs.Prelude.{◌≡◌, ◌<◌, ◌≤◌, ℕ, Bool, true, false, if◌then◌else◌, List, codes, Option, Some, None, length, IfOk, IfErr, MatchOption};
ghost use Rattle.lola_parse.specs.Symbols.{Item};
ghost use Rattle.lola_parse.specs.Grammar.{Passes};
ghost use Rattle.small_tree.specs.declared.table.Active.{Active as RoleActive};
ghost use Rattle.small_read.specs.Grammar.{Roles as RolesRead, Role, MoreRoles};
ghost use Rattle.small_read.specs.Kept.{roles_tree};
ghost use Rattle.small_read.specs.Read.{IsRead, IsBehind, LacksRole, no_roles, Digit, ResetRow, LoadedRow};

use crate::fault::TableFault;
use crate::rows::{Read, behind_word, is_at, take_word};
use lola_bits::Name;
use lola_parse::{Cursor, Symbol};
use small_tree::Active;
use std::alloc::Global;

/// The roles that were read.
#[derive(Drop)]
pub struct Roles {
    pub reset: Option<Active>,
    pub loaded: Option<Name>,
}

/// `{role}`.
pub fn take_roles<'a>(alloc: Global, here: Cursor<'a>) -> Read<'a, Roles>
    ensures shorter { IfOk result (λ read. length read.1 ≤ length here.entry) }
    ensures ok { IfOk result (λ read. MoreRoles no_roles here.entry (roles_tree read.0) read.1) }
    ensures whole { (roles : RolesRead) (rest : List Item) → MoreRoles no_roles here.entry roles rest → LacksRole rest → IsRead roles_tree roles rest result }
{
    let mut roles = Roles {
        reset: None,
        loaded: None,
    };
    let mut behind = here;
    'roles: while is_at_role(&behind) {
        let (more, rest) = take_role(alloc, roles, behind)?;
        roles = more;
        behind = rest;
    }
    Ok((roles, behind))
}

/// Whether a role is at the front.
fn is_at_role(here: &Cursor) -> bool
    ensures yes { result ≡ true → LacksRole here.now → ⊥ }
    ensures no { result ≡ false → LacksRole here.now }
{
    is_at(here, "RESET") || is_at(here, "LOADED")
}

/// One more role, which isn't there yet.
fn take_role<'a>(alloc: Global, roles: Roles, here: Cursor<'a>) -> Read<'a, Roles>
    ensures shorter { IfOk result (λ read. length read.1 < length here.entry) }
    ensures ok { IfOk result (λ read. Role (roles_tree roles) here.entry (roles_tree read.0) read.1) }
    ensures whole { (after : RolesRead) (rest : List Item) → Role (roles_tree roles) here.entry after rest → IsRead roles_tree after rest result }
{
    if is_at(&here, "RESET") {
        let (active, behind) = take_reset(alloc, here)?;
        Ok((with_reset(roles, active)?, behind))
    } else {
        let (port, behind) = take_loaded(alloc, here)?;
        Ok((with_loaded(roles, port)?, behind))
    }
}

/// The roles with RESET, which isn't there yet.
fn with_reset(roles: Roles, active: Active) -> Result<Roles, TableFault>
    ensures first { IfOk result (λ more. roles.reset ≡ None) }
    ensures ok { IfOk result (λ more. roles_tree more ≡ record { reset = Some active; loaded = roles.loaded }) }
    ensures whole { roles.reset ≡ None → IfErr result (λ _. ⊥) }
    ensures none { IfErr result (λ fault. fault ≡ TableFault.NotBuilt) }
{
    match roles.reset {
        None => Ok(Roles {
            reset: Some(active),
            loaded: roles.loaded,
        }),
        Some(_) => Err(TableFault::NotBuilt),
    }
}

/// The roles with LOADED, which isn't there yet.
fn with_loaded(roles: Roles, port: Name) -> Result<Roles, TableFault>
    ensures first { IfOk result (λ more. roles.loaded ≡ None) }
    ensures ok { IfOk result (λ more. roles_tree more ≡ record { reset = roles.reset; loaded = Some port }) }
    ensures whole { roles.loaded ≡ None → IfErr result (λ _. ⊥) }
    ensures none { IfErr result (λ fault. fault ≡ TableFault.NotBuilt) }
{
    match roles.loaded {
        None => Ok(Roles {
            reset: roles.reset,
            loaded: Some(port),
        }),
        Some(_) => Err(TableFault::NotBuilt),
    }
}

/// `"RESET" word "=" number ";"`.
fn take_reset<'a>(alloc: Global, here: Cursor<'a>) -> Read<'a, Active>
    ensures shorter { IfOk result (λ read. length read.1 < length here.entry) }
    ensures ok { IfOk result (λ read. ResetRow here.entry read.0 read.1) }
    ensures whole { (active : RoleActive) (rest : List Item) → ResetRow here.entry active rest → IsRead (λ a. a) active rest result }
{
    let (port, behind) = take_word(alloc, behind_word(here, "RESET")?)?;
    let (value, behind) = take_digit(behind_equal(behind)?)?;
    let behind = behind.behind_semicolon()?;
    Ok((Active { port, value }, behind))
}

/// `"LOADED" word ";"`.
fn take_loaded<'a>(alloc: Global, here: Cursor<'a>) -> Read<'a, Name>
    ensures shorter { IfOk result (λ read. length read.1 < length here.entry) }
    ensures ok { IfOk result (λ read. LoadedRow here.entry read.0 read.1) }
    ensures whole { (word : List ℕ) (rest : List Item) → LoadedRow here.entry word rest → IsRead (λ w. w) word rest result }
{
    let (port, behind) = take_word(alloc, behind_word(here, "LOADED")?)?;
    Ok((port, behind.behind_semicolon()?))
}

/// Behind `=`.
fn behind_equal<'a>(here: Cursor<'a>) -> Result<Cursor<'a>, TableFault>
    ensures shorter { IfOk result (λ rest. length rest < length here.entry) }
    ensures ok { IfOk result (λ rest. Passes Symbol.Equal here.entry rest) }
    ensures whole { (rest : List Item) → Passes Symbol.Equal here.entry rest → IsBehind rest result }
    ensures none { IfErr result (λ fault. fault ≡ TableFault.NotBuilt) }
{
    let next = here.next();
    match next.symbol {
        Symbol::Equal => Ok(next.rest),
        _ => Err(TableFault::NotBuilt),
    }
}

/// The number 0 or 1, and whether it is 1. Its width doesn't count.
fn take_digit<'a>(here: Cursor<'a>) -> Read<'a, bool>
    ensures shorter { IfOk result (λ read. length read.1 < length here.entry) }
    ensures ok { IfOk result (λ read. Digit here.entry read.0 read.1) }
    ensures whole { (one : Bool) (rest : List Item) → Digit here.entry one rest → IsRead (λ o. o) one rest result }
    ensures none { IfErr result (λ fault. fault ≡ TableFault.NotBuilt) }
{
    let next = here.next();
    match next.symbol {
        Symbol::Number { value, width: _ } => match digit(value) {
            Some(one) => Ok((one, next.rest)),
            None => Err(TableFault::NotBuilt),
        },
        _ => Err(TableFault::NotBuilt),
    }
}

/// Whether a number that is 0 or 1 is 1.
fn digit(value: u128) -> Option<bool>
    ensures { MatchOption result ((one : Bool) → value ≡ (if one then 1 else 0) → ⊥) (λ one. value ≡ (if one then 1 else 0)) }
{
    match value {
        0 => Some(false),
        1 => Some(true),
        _ => None,
    }
}
