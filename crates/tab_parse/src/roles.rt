ghost use Rattle.std.specs.Prelude.{◌≡◌, ◌<◌, ◌≤◌, List, [], map, length, IfOk, codes};
ghost use Rattle.lola_parse.specs.Read.{IsWhole, Anywhere};
ghost use Rattle.tab_parse.specs.Placed.{role_at};
ghost use Rattle.tab_parse.specs.Grammar.{More, word_says, role_says, ActiveBehind, CodeBehind, PortBehind, RoleRow};
ghost use Rattle.tab_parse.specs.Fronts.{at_role, NotAt};

use crate::front::{Read, behind_equal, take_ended, take_number, take_word};
use crate::placed::{ActiveRole, PlacedRole, PortRole, RoleWord};
use lola_parse::{Cursor, Symbol};
use std::alloc::Global;

/// The rows of roles at the front: `{role}`. The rows end at the first token that is no role's word.
/// A fault other than Memory comes only where no such rows stand there.
pub fn take_roles<'a>(alloc: Global, here: Cursor<'a>) -> Read<'a, Vec<PlacedRole>>
    ensures shorter { IfOk result (λ read. length read.1 ≤ length here.entry) }
    ensures ok { IfOk result (λ read. More RoleRow [] here.entry (map role_at read.0.items) read.1) }
    ensures whole { IsWhole (λ v. map role_at v.items) (More RoleRow [] here.entry) (NotAt at_role) result }
{
    let mut rows = Vec::new(alloc);
    let mut behind = here;
    'rows: while is_at_role(&behind) {
        let (row, rest) = take_role(alloc, behind)?;
        rows.push(row)?;
        behind = rest;
    }
    Ok((rows, behind))
}

/// Whether the word of a role is at the front.
fn is_at_role(here: &Cursor) -> bool
    ensures { result ≡ at_role here.now }
{
    let next = here.next();
    role_says(next.symbol, next.spelled).is_some()
}

/// The role that a token says.
fn role_says(symbol: Symbol, spelled: &str) -> Option<RoleWord>
    ensures { result ≡ role_says symbol spelled.now }
{
    match symbol {
        Symbol::TableWord => word_says(spelled.as_bytes()),
        Symbol::Byte => Some(RoleWord::Port {
            role: PortRole::Byte,
        }),
        _ => None,
    }
}

/// The role that a word says, but for BYTE.
fn word_says(word: &[u8]) -> Option<RoleWord>
    ensures { result ≡ word_says word.now }
{
    if word == b"RESET".as_slice() {
        Some(RoleWord::Active {
            role: ActiveRole::Reset,
        })
    } else if word == b"STALL".as_slice() {
        Some(RoleWord::Active {
            role: ActiveRole::Stall,
        })
    } else if word == b"CODE".as_slice() {
        Some(RoleWord::Code)
    } else if word == b"FETCHED".as_slice() {
        Some(RoleWord::Port {
            role: PortRole::Fetched,
        })
    } else if word == b"LOADED".as_slice() {
        Some(RoleWord::Port {
            role: PortRole::Loaded,
        })
    } else if word == b"READ".as_slice() {
        Some(RoleWord::Port {
            role: PortRole::Read,
        })
    } else if word == b"WRITE".as_slice() {
        Some(RoleWord::Port {
            role: PortRole::Write,
        })
    } else if word == b"ADDRESS".as_slice() {
        Some(RoleWord::Port {
            role: PortRole::Address,
        })
    } else if word == b"DATA".as_slice() {
        Some(RoleWord::Port {
            role: PortRole::Data,
        })
    } else {
        None
    }
}

/// A row of the roles.
fn take_role<'a>(alloc: Global, here: Cursor<'a>) -> Read<'a, PlacedRole>
    ensures shorter { IfOk result (λ read. length read.1 < length here.entry) }
    ensures ok { IfOk result (λ read. RoleRow here.entry (role_at read.0) read.1) }
    ensures whole { IsWhole role_at (RoleRow here.entry) Anywhere result }
{
    let next = here.next();
    match role_says(next.symbol, next.spelled) {
        Some(RoleWord::Active { role }) => take_active(alloc, role, next.at, next.rest),
        Some(RoleWord::Code) => take_code(alloc, next.at, next.rest),
        Some(RoleWord::Port { role }) => take_port(alloc, role, next.at, next.rest),
        None => Err(here.fault()),
    }
}

/// `word "=" number ";"`, behind the word of an active role.
fn take_active<'a>(
    alloc: Global,
    role: ActiveRole,
    at: u32,
    here: Cursor<'a>,
) -> Read<'a, PlacedRole>
    ensures shorter { IfOk result (λ read. length read.1 < length here.entry) }
    ensures ok { IfOk result (λ read. ActiveBehind role at here.entry (role_at read.0) read.1) }
    ensures whole { IsWhole role_at (ActiveBehind role at here.entry) Anywhere result }
{
    let (port, behind) = take_word(alloc, here)?;
    let (value, behind) = take_number(behind_equal(behind)?)?;
    let behind = behind.behind_semicolon()?;
    Ok((
        PlacedRole::Active {
            role,
            at,
            port,
            value,
        },
        behind,
    ))
}

/// `expr ";"`, behind CODE.
fn take_code<'a>(alloc: Global, at: u32, here: Cursor<'a>) -> Read<'a, PlacedRole>
    ensures shorter { IfOk result (λ read. length read.1 < length here.entry) }
    ensures ok { IfOk result (λ read. CodeBehind at here.entry (role_at read.0) read.1) }
    ensures whole { IsWhole role_at (CodeBehind at here.entry) Anywhere result }
{
    let (shown, behind) = take_ended(alloc, here)?;
    Ok((PlacedRole::Code { at, shown }, behind))
}

/// `word ";"`, behind the word of another role.
fn take_port<'a>(alloc: Global, role: PortRole, at: u32, here: Cursor<'a>) -> Read<'a, PlacedRole>
    ensures shorter { IfOk result (λ read. length read.1 < length here.entry) }
    ensures ok { IfOk result (λ read. PortBehind role at here.entry (role_at read.0) read.1) }
    ensures whole { IsWhole role_at (PortBehind role at here.entry) Anywhere result }
{
    let (port, behind) = take_word(alloc, here)?;
    let behind = behind.behind_semicolon()?;
    Ok((PlacedRole::Port { role, at, port }, behind))
}
