// What the readers of rows make of a text.
use lola_parse::{Cursor, Fault, Language, tokens_lie_within};
use lola_scan::scan;
use std::alloc::Global;
use tab_parse::{
    take_fields, take_lets, take_phases, take_roles, take_sets, take_shows, take_starts,
    take_states,
};

/// How many rows were read and how many tokens are left behind them, or before which of the last
/// tokens the reading stops.
#[derive(Clone, Copy, Debug, PartialEq, Eq)]
pub(crate) enum Answer {
    Rows { rows: usize, left: usize },
    Syntax { left: usize },
    Long { left: usize },
    Memory,
    NoTokens,
}

/// The kinds of rows.
#[derive(Clone, Copy, Debug, PartialEq, Eq)]
pub(crate) enum Kind {
    Roles,
    States,
    Fields,
    Starts,
    Lets,
    Sets,
    Shows,
    Phases,
}

/// What becomes of a text, read as rows of a kind.
pub(crate) fn read_rows(alloc: Global, kind: Kind, text: &[u8]) -> Answer {
    if text.len() > 1_048_576 {
        return Answer::NoTokens;
    }
    tokens_lie_within();
    let tokens = match scan(alloc, text) {
        Ok(tokens) => tokens,
        Err(_) => return Answer::NoTokens,
    };
    let here = Cursor::new(Language::Table, text, tokens.as_slice());
    match kind {
        Kind::Roles => counted(take_roles(alloc, here)),
        Kind::States => counted(take_states(alloc, here)),
        Kind::Fields => counted(take_fields(alloc, here)),
        Kind::Starts => counted(take_starts(alloc, here)),
        Kind::Lets => counted(take_lets(alloc, here)),
        Kind::Sets => counted(take_sets(alloc, here)),
        Kind::Shows => counted(take_shows(alloc, here)),
        Kind::Phases => counted(take_phases(alloc, here)),
    }
}

fn counted<T: Drop>(read: Result<(Vec<T>, Cursor), Fault>) -> Answer {
    match read {
        Ok((rows, behind)) => Answer::Rows {
            rows: rows.len(),
            left: behind.left(),
        },
        Err(Fault::Syntax { left }) => Answer::Syntax { left },
        Err(Fault::Long { left }) => Answer::Long { left },
        Err(Fault::Memory) => Answer::Memory,
    }
}
