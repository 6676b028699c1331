use lola_bits::{Name, Seq};
use lola_tree::{Expr, Shape};

/// A role of an IN port with the value at which it is active.
#[derive(Debug, Drop)]
pub struct Active {
    pub port: Name,
    pub value: bool,
}

/// The OUT ports that show an access: whether it reads or writes, its address in bytes, whether it is
/// of one byte, and the word that is stored.
#[derive(Debug, Drop)]
pub struct BusRoles {
    pub read: Name,
    pub write: Name,
    pub address: Name,
    pub byte: Name,
    pub word: Name,
}

/// The ports of the root that play a role. `code` is the expression over registers that shows the
/// current instruction word.
#[derive(Debug, Drop)]
pub struct Roles {
    pub reset: Active,
    pub stall: Option<Active>,
    pub code: Option<Expr>,
    pub fetched: Option<Name>,
    pub loaded: Option<Name>,
    pub bus: Option<BusRoles>,
}

/// A state that a programmer sees, its type, and the expression over registers that shows it; an
/// array's is a whole register array.
#[derive(Debug, Drop)]
pub struct StateRow {
    pub name: Name,
    pub shape: Shape,
    pub shown: Expr,
}

/// A name for the value of an expression: a FIELDS row or a LET.
#[derive(Debug, Drop)]
pub struct LetRow {
    pub name: Name,
    pub value: Expr,
}

/// A START, SHOWS or SET row: a state, or the element of it at a place, and its value.
#[derive(Debug, Drop)]
pub struct SetRow {
    pub name: Name,
    pub place: Option<Expr>,
    pub value: Expr,
}

/// The turns of a phase: how many, the type of the accumulator, its first value, and what each turn
/// makes of it.
#[derive(Debug, Drop)]
pub struct Turns {
    pub times: u32,
    pub shape: Shape,
    pub first: Expr,
    pub step: Expr,
}

/// What a phase does to memory. `Take` is LOAD without an address: the loaded word is taken, and no
/// access is made. A BYTE part that isn't written is the number 0.
#[derive(Debug, Drop)]
pub enum AccessRow {
    Idle,
    Take,
    Load { adr: Expr, byte: Expr },
    Store { adr: Expr, byte: Expr, word: Expr },
    Fetch { adr: Expr },
}

/// A phase of an instruction: what the registers hold when it, or a turn of it, begins is said by
/// `shows` and `link`. A LINK that isn't written is the number 1.
#[derive(Debug, Drop)]
pub struct Phase {
    pub turns: Option<Turns>,
    pub access: AccessRow,
    pub shows: Seq<SetRow>,
    pub link: Expr,
}

/// The steps of an instruction: names for values, the phases in order, and the new states.
#[derive(Debug, Drop)]
pub struct Inside {
    pub lets: Seq<LetRow>,
    pub phases: Seq<Phase>,
    pub sets: Seq<SetRow>,
}

/// A class of words. Its pattern is bytes `0`, `1` and `-`, the highest bit first; without steps it is
/// outside the claim.
#[derive(Debug, Drop)]
pub struct Class {
    pub name: Name,
    pub pattern: Seq<u8>,
    pub inside: Option<Inside>,
}

/// An instruction table: the roles of the root's ports, the states, and the classes in text order.
#[derive(Debug, Drop)]
pub struct Table {
    pub name: Name,
    pub root: Name,
    pub roles: Roles,
    pub states: Seq<StateRow>,
    pub fields: Seq<LetRow>,
    pub invariant: Expr,
    pub boundary: Expr,
    pub starts: Seq<SetRow>,
    pub start_fetch: Option<Expr>,
    pub classes: Seq<Class>,
}
