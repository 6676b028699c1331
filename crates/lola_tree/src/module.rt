use crate::expr::{Actual, Expr};
use crate::named::{Named, Shape};
use lola_bits::{Name, Seq};

/// The direction of a port: IN, OUT or INOUT.
#[derive(Clone, Copy, Debug, PartialEq, Eq)]
pub enum Way {
    Inward,
    Outward,
    Both,
}

/// A port of a module. `at` is the first byte of its name.
#[derive(Debug, Drop)]
pub struct Port {
    pub way: Way,
    pub name: Name,
    pub shape: Shape,
    pub at: u32,
}

/// A constant, with the places of its name and of its number.
#[derive(Debug, Drop)]
pub struct Const {
    pub name: Name,
    pub value: u128,
    pub width: Option<u128>,
    pub at: u32,
    pub number_at: u32,
}

/// What a local name stands for: a register under a clock, a variable, or an instance of an earlier
/// module.
#[derive(Debug, Drop)]
pub enum LocalKind {
    Reg { clock: Named, shape: Shape },
    Var { shape: Shape },
    Inst { module: Named },
}

/// A local name of a module, with the place of its first byte.
#[derive(Debug, Drop)]
pub struct Local {
    pub kind: LocalKind,
    pub name: Name,
    pub at: u32,
}

/// A statement: an assignment, where `equals` is the place of its `:=`; the call of an instance; or
/// the drive of a pad. `at` is the first byte of the name, or of `TS`.
#[derive(Debug, Drop)]
pub enum Stmt {
    Assign {
        name: Name,
        place: Option<Actual>,
        value: Expr,
        at: u32,
        equals: u32,
    },
    Call {
        name: Name,
        args: Seq<Actual>,
        at: u32,
    },
    Pad {
        io: Named,
        inner: Named,
        value: Actual,
        release: Actual,
        at: u32,
    },
}

/// A module; `ends` is the name behind its END, and `at` the first byte of its name.
#[derive(Debug, Drop)]
pub struct Module {
    pub name: Name,
    pub ports: Seq<Port>,
    pub consts: Seq<Const>,
    pub locals: Seq<Local>,
    pub body: Seq<Stmt>,
    pub ends: Named,
    pub at: u32,
}

/// A design: its modules in text order, the root last.
#[derive(Debug, Drop)]
pub struct Source {
    pub modules: Seq<Module>,
}
