use lola_bits::Seq;
use lola_tree::{Actual, Named, Shape};

/// The roles of IN ports that are active at a value.
#[derive(Clone, Copy, Debug, PartialEq, Eq)]
pub enum ActiveRole {
    Reset,
    Stall,
}

/// The other roles of ports.
#[derive(Clone, Copy, Debug, PartialEq, Eq)]
pub enum PortRole {
    Fetched,
    Loaded,
    Read,
    Write,
    Address,
    Byte,
    Data,
}

/// The word of a role.
#[derive(Clone, Copy, Debug, PartialEq, Eq)]
pub enum RoleWord {
    Active { role: ActiveRole },
    Code,
    Port { role: PortRole },
}

/// A row of the roles. `at` is the place of the role's word; the number of an active role is any.
#[derive(Debug, Drop)]
pub enum PlacedRole {
    Active {
        role: ActiveRole,
        at: u32,
        port: Named,
        value: u128,
    },
    Code {
        at: u32,
        shown: Actual,
    },
    Port {
        role: PortRole,
        at: u32,
        port: Named,
    },
}

/// A STATE row. An expression stands with the place of its first token, here and below.
#[derive(Debug, Drop)]
pub struct PlacedState {
    pub name: Named,
    pub shape: Shape,
    pub shown: Actual,
}

/// A name for the value of an expression: a FIELDS row or a LET.
#[derive(Debug, Drop)]
pub struct PlacedLet {
    pub name: Named,
    pub value: Actual,
}

/// A START, SHOWS or SET row. The place of an element stands with that of its `[`, and `equals` is
/// that of the `:=`.
#[derive(Debug, Drop)]
pub struct PlacedSet {
    pub name: Named,
    pub place: Option<Actual>,
    pub equals: u32,
    pub value: Actual,
}

/// The turns of a phase. `shape_at` is the place of the type's first token; the number is any.
#[derive(Debug, Drop)]
pub struct PlacedTurns {
    pub times: u128,
    pub shape: Shape,
    pub shape_at: u32,
    pub first: Actual,
    pub step: Actual,
}

/// What a phase does to memory. `Take` is LOAD without an address.
#[derive(Debug, Drop)]
pub enum PlacedAccess {
    Idle,
    Take,
    Load {
        adr: Actual,
        byte: Option<Actual>,
    },
    Store {
        adr: Actual,
        byte: Option<Actual>,
        word: Actual,
    },
    Fetch {
        adr: Actual,
    },
}

/// A phase of an instruction.
#[derive(Debug, Drop)]
pub struct PlacedPhase {
    pub turns: Option<PlacedTurns>,
    pub access: PlacedAccess,
    pub shows: Seq<PlacedSet>,
    pub link: Option<Actual>,
}

/// The steps of an instruction.
#[derive(Debug, Drop)]
pub struct PlacedInside {
    pub lets: Seq<PlacedLet>,
    pub phases: Seq<PlacedPhase>,
    pub sets: Seq<PlacedSet>,
}

/// A class of words, with the place of its pattern; one without steps is OUTSIDE.
#[derive(Debug, Drop)]
pub struct PlacedClass {
    pub name: Named,
    pub pattern: Seq<u8>,
    pub pattern_at: u32,
    pub inside: Option<PlacedInside>,
}

/// A table as its text says it, with the places that its faults need.
#[derive(Debug, Drop)]
pub struct PlacedTable {
    pub name: Named,
    pub root: Named,
    pub roles: Seq<PlacedRole>,
    pub states: Seq<PlacedState>,
    pub fields: Seq<PlacedLet>,
    pub invariant: Actual,
    pub boundary: Actual,
    pub starts: Seq<PlacedSet>,
    pub start_fetch: Option<Actual>,
    pub classes: Seq<PlacedClass>,
    pub ends: Named,
}
