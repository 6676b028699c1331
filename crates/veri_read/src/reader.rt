ghost use Rattle.std.specs.Prelude.{◌≡◌, map, OnOk, Ok};
ghost use Rattle.std.specs.List.{list_all, list_any};
ghost use Rattle.veri_read.specs.Said.{Of, is_wire, goes_on, nothing_said, with_declared, with_term, with_assign, with_next};
ghost use Rattle.veri_read.specs.Faults.{kind_of, fits_run, is_port, may_assign, is_register, is_declared_port, is_clock_bit, is_clock, names_term, uses_name, port_fault, declared_fault, run_fault, target_fault, use_fault, next_use_fault, clock_fault, register_fault, end_fault, has_value, is_assigned, acted, placed, is_stray, step};
ghost use Rattle.veri_read.specs.Tables.{find, has};
ghost use Rattle.std.specs.Option.{option_map};
ghost use Rattle.veri_read.specs.Held.{listed, run_of, clock_of, term_of, assigned_of, item_of, said_of, refusal_of, Does};

use crate::bits::{ends_run, follows, is_bit_name};
use crate::error::VeriError;
use crate::literal::{Assign, Declared, Kind, Literal};
use crate::rules::{Act, Place, rule};
use crate::symbol::Symbol;
use crate::table::Table;
use crate::token::Token;
use lola_bits::Memory;
use std::alloc::Global;

/// What the front of a text has said.
#[derive(Drop)]
pub struct Reader<'a> {
    pub place: Place,
    pub kind: Kind,
    pub module_name: &'a str,
    pub ports: Table<'a, ()>,
    pub declared: Table<'a, Declared>,
    pub run: Option<(Kind, &'a str)>,
    pub target: &'a str,
    pub negated: bool,
    pub first: Literal<'a>,
    pub second: Literal<'a>,
    pub assigns: Vec<Assign<'a>>,
    pub assigned: Table<'a, ()>,
    pub clock: Option<&'a str>,
    pub nexts: Table<'a, Literal<'a>>,
}

/// Whether a kind is that of a wire.
fn is_wire(kind: Kind) -> bool
    ensures { result ≡ is_wire kind }
{
    match kind {
        Kind::Wire => true,
        _ => false,
    }
}

/// Whether a run of bits goes on behind a declared name.
fn goes_on(kind: Kind, name: &str) -> bool
    ensures { result ≡ goes_on kind name.now }
{
    !is_wire(kind) && !ends_run(name.as_bytes())
}

/// Whether names of a kind are ports.
fn is_port(kind: Kind) -> bool
    ensures { result ≡ is_port kind }
{
    match kind {
        Kind::Input | Kind::Output | Kind::Inout => true,
        Kind::Wire | Kind::Reg => false,
    }
}

/// Whether a declared name suits the run of bits before it.
fn fits_run(run: Option<(Kind, &str)>, kind: Kind, name: &str) -> bool
    ensures { result ≡ fits_run (run_of run.entry) kind name.now }
{
    match run {
        None => is_wire(kind) || is_bit_name(name.as_bytes()),
        Some((above_kind, above)) => above_kind == kind
            && is_bit_name(name.as_bytes())
            && follows(above.as_bytes(), name.as_bytes()),
    }
}

/// Whether a name of a kind may be assigned.
fn may_assign(kind: Option<Kind>) -> bool
    ensures { result ≡ may_assign kind }
{
    match kind {
        Some(Kind::Wire) | Some(Kind::Inout) | Some(Kind::Output) => true,
        _ => false,
    }
}

/// Whether a kind is that of a register.
fn is_register(kind: Option<Kind>) -> bool
    ensures { result ≡ is_register kind }
{
    match kind {
        Some(Kind::Reg) => true,
        _ => false,
    }
}

/// Whether a kind is that of a port.
fn is_declared_port(kind: Option<Kind>) -> bool
    ensures { result ≡ is_declared_port kind }
{
    match kind {
        Some(kind) => is_port(kind),
        None => false,
    }
}

/// Whether a declared name may be the clock.
fn is_clock_bit(declared: Option<Declared>) -> bool
    ensures { result ≡ is_clock_bit declared }
{
    match declared {
        Some(declared) => declared.kind == Kind::Input && declared.alone,
        None => false,
    }
}

/// Whether a name is the clock.
pub(crate) fn is_clock(clock: Option<&str>, name: &str) -> bool
    ensures { result ≡ is_clock (clock_of clock.entry) name.now }
{
    match clock {
        Some(clock) => clock == name,
        None => false,
    }
}

/// Whether a name stands in a literal.
fn names_literal(name: &str, literal: Literal) -> bool
    ensures { result ≡ names_term name.now (term_of literal.entry) }
{
    match literal {
        Literal::Constant(_) => false,
        Literal::Of { name: other, .. } => other == name,
    }
}

/// Whether an assign uses a name.
fn uses_name(name: &str, assign: &Assign) -> bool
    ensures { result ≡ uses_name name.now (assigned_of assign.now) }
{
    names_literal(name, assign.second)
        || (assign.kind != Kind::Output && names_literal(name, assign.first))
}

/// Whether an assign among these uses a name.
fn is_used(name: &str, assigns: &[Assign]) -> bool
    ensures { result ≡ list_any (uses_name name.now) (map assigned_of assigns.now) }
{
    for assign in assigns {
        if uses_name(name, assign) {
            return true;
        }
    }
    false
}

/// Whether a byte begins no token.
fn is_stray(symbol: Symbol) -> bool
    ensures { result ≡ is_stray symbol }
{
    match symbol {
        Symbol::Stray => true,
        _ => false,
    }
}

/// Nothing, or a fault.
fn refused(fault: Option<VeriError>) -> Result<(), VeriError>
    ensures { result ≡ refusal_of fault }
{
    match fault {
        Some(fault) => Err(fault),
        None => Ok(()),
    }
}

impl<'a> Reader<'a> {
    /// Nothing was said.
    pub fn new(alloc: Global) -> Reader<'a>
        ensures { said_of result ≡ nothing_said }
    {
        Reader {
            place: Place::Start,
            kind: Kind::Wire,
            module_name: "",
            ports: Table::new(alloc),
            declared: Table::new(alloc),
            run: None,
            target: "",
            negated: false,
            first: Literal::Constant(false),
            second: Literal::Constant(false),
            assigns: Vec::new(alloc),
            assigned: Table::new(alloc),
            clock: None,
            nexts: Table::new(alloc),
        }
    }

    /// What a name is declared as.
    pub(crate) fn kind_of(&self, name: &str) -> Option<Kind>
        ensures { result ≡ kind_of (said_of self.now) name.now }
    {
        match self.declared.find(name) {
            Some(declared) => Some(declared.kind),
            None => None,
        }
    }

    fn port_fault(&self, token: Token) -> Option<VeriError>
        ensures { result ≡ port_fault (said_of self.now) (item_of token.entry) }
    {
        if self.ports.has(token.spelled) {
            Some(VeriError::Twice { at: token.at })
        } else {
            None
        }
    }

    fn declared_fault(&self, token: Token) -> Option<VeriError>
        ensures { result ≡ declared_fault (said_of self.now) (item_of token.entry) }
    {
        if !fits_run(self.run, self.kind, token.spelled) {
            Some(VeriError::Syntax { at: token.at })
        } else if is_port(self.kind) && !self.ports.has(token.spelled) {
            Some(VeriError::UnknownName { at: token.at })
        } else if self.declared.has(token.spelled) {
            Some(VeriError::Twice { at: token.at })
        } else {
            None
        }
    }

    fn run_fault(&self, token: Token) -> Option<VeriError>
        ensures { result ≡ run_fault (said_of self.now) (item_of token.entry) }
    {
        if self.run.is_none() {
            None
        } else {
            Some(VeriError::Syntax { at: token.at })
        }
    }

    fn target_fault(&self, token: Token) -> Option<VeriError>
        ensures { result ≡ target_fault (said_of self.now) (item_of token.entry) }
    {
        if !may_assign(self.kind_of(token.spelled)) {
            Some(VeriError::UnknownName { at: token.at })
        } else if self.assigned.has(token.spelled) {
            Some(VeriError::Twice { at: token.at })
        } else {
            None
        }
    }

    fn use_fault(&self, token: Token) -> Option<VeriError>
        ensures { result ≡ use_fault (said_of self.now) (item_of token.entry) }
    {
        match self.kind_of(token.spelled) {
            None | Some(Kind::Output) => Some(VeriError::UnknownName { at: token.at }),
            Some(Kind::Wire) | Some(Kind::Inout) => {
                if self.assigned.has(token.spelled) {
                    None
                } else {
                    Some(VeriError::Unordered { at: token.at })
                }
            }
            Some(Kind::Input) | Some(Kind::Reg) => None,
        }
    }

    fn next_use_fault(&self, token: Token) -> Option<VeriError>
        ensures { result ≡ next_use_fault (said_of self.now) (item_of token.entry) }
    {
        if is_clock(self.clock, token.spelled) {
            Some(VeriError::UnknownName { at: token.at })
        } else {
            self.use_fault(token)
        }
    }

    fn clock_fault(&self, token: Token) -> Option<VeriError>
        ensures { result ≡ clock_fault (said_of self.now) (item_of token.entry) }
    {
        if is_clock_bit(self.declared.find(token.spelled))
            && !is_used(token.spelled, self.assigns.as_slice())
        {
            None
        } else {
            Some(VeriError::UnknownName { at: token.at })
        }
    }

    /// Whether a register's next literal was read.
    fn has_next(&self, name: &str) -> bool
        ensures { result ≡ has (said_of self.now).nexts name.now }
    {
        self.nexts.has(name)
    }

    /// A register's next literal, where it was read.
    pub(crate) fn next_of(&self, name: &str) -> Option<Literal<'a>>
        ensures { option_map term_of result ≡ find (said_of self.now).nexts name.now }
    {
        self.nexts.find(name)
    }

    fn register_fault(&self, token: Token) -> Option<VeriError>
        ensures { result ≡ register_fault (said_of self.now) (item_of token.entry) }
    {
        if !is_register(self.kind_of(token.spelled)) {
            Some(VeriError::UnknownName { at: token.at })
        } else if self.has_next(token.spelled) {
            Some(VeriError::Twice { at: token.at })
        } else {
            None
        }
    }

    /// Whether each port is declared as one.
    fn are_ports_declared(&self) -> bool
        ensures { result ≡ list_all (λ p. is_declared_port (kind_of (said_of self.now) p.0)) (listed self.now.ports) }
    {
        for place in 0..self.ports.len() {
            let (name, _) = self.ports.at(place);
            if !is_declared_port(self.kind_of(name)) {
                return false;
            }
        }
        true
    }

    /// Whether a declared name is assigned, where it has to be.
    fn is_assigned(&self, name: &str, kind: Kind) -> bool
        ensures { result ≡ has_value (said_of self.now) name.now kind }
    {
        match kind {
            Kind::Input => true,
            Kind::Reg => self.has_next(name),
            _ => self.assigned.has(name),
        }
    }

    /// Whether each declared name is assigned, where it has to be.
    fn are_assigned(&self) -> bool
        ensures { result ≡ list_all (is_assigned (said_of self.now)) (listed self.now.declared) }
    {
        for place in 0..self.declared.len() {
            let (name, declared) = self.declared.at(place);
            if !self.is_assigned(name, declared.kind) {
                return false;
            }
        }
        true
    }

    fn end_fault(&self, token: Token) -> Option<VeriError>
        ensures { result ≡ end_fault (said_of self.now) (item_of token.entry) }
    {
        if self.run.is_none() && self.are_ports_declared() && self.are_assigned() {
            None
        } else {
            Some(VeriError::Syntax { at: token.at })
        }
    }

    /// Declares a name as the kind at hand.
    fn declare(&mut self, name: &'a str) -> Result<(), Memory>
        ensures { OnOk result (said_of self.new ≡ with_declared (said_of self.old) name.now) }
    {
        let goes_on = goes_on(self.kind, name);
        let declared = Declared {
            kind: self.kind,
            alone: self.run.is_none() && !goes_on,
        };
        self.declared.put(name, declared)?;
        self.run = if goes_on {
            Some((self.kind, name))
        } else {
            None
        };
        Ok(())
    }

    /// A literal is read.
    fn read_literal(&mut self, literal: Literal<'a>)
        ensures { said_of self.new ≡ with_term (said_of self.old) (term_of literal.entry) }
    {
        self.negated = false;
        self.first = self.second;
        self.second = literal;
    }

    /// A literal's name is read.
    fn read_name(&mut self, name: &'a str)
        ensures { said_of self.new ≡ with_term (said_of self.old) (Of (said_of self.old).negated name.now) }
    {
        self.read_literal(Literal::Of {
            negated: self.negated,
            name,
        });
    }

    /// An assign is complete.
    fn end_assign(&mut self) -> Result<(), VeriError>
        ensures { Does (said_of self.old) (Ok (with_assign (said_of self.old))) (said_of self.new) result }
    {
        let assign = Assign {
            kind: self.kind,
            target: self.target,
            first: self.first,
            second: self.second,
        };
        if self.assigns.push(assign).is_err() {
            return Err(VeriError::Memory);
        }
        match self.assigned.put(self.target, ()) {
            Ok(()) => Ok(()),
            Err(_) => Err(VeriError::Memory),
        }
    }

    /// A register's line is complete.
    fn end_next(&mut self) -> Result<(), VeriError>
        ensures { Does (said_of self.old) (Ok (with_next (said_of self.old))) (said_of self.new) result }
    {
        match self.nexts.put(self.target, self.second) {
            Ok(()) => Ok(()),
            Err(_) => Err(VeriError::Memory),
        }
    }

    /// Does what a token does.
    fn act(&mut self, act: Act, token: Token<'a>) -> Result<(), VeriError>
        ensures { Does (said_of self.old) (acted act (said_of self.old) (item_of token.entry)) (said_of self.new) result }
    {
        match act {
            Act::Pass => Ok(()),
            Act::NameModule => {
                self.module_name = token.spelled;
                Ok(())
            }
            Act::ListPort => {
                refused(self.port_fault(token))?;
                match self.ports.put(token.spelled, ()) {
                    Ok(()) => Ok(()),
                    Err(_) => Err(VeriError::Memory),
                }
            }
            Act::OfKind(kind) => {
                self.kind = kind;
                Ok(())
            }
            Act::Declare => {
                refused(self.declared_fault(token))?;
                match self.declare(token.spelled) {
                    Ok(()) => Ok(()),
                    Err(_) => Err(VeriError::Memory),
                }
            }
            Act::EndDeclarations => refused(self.run_fault(token)),
            Act::BeginAssign => {
                refused(self.target_fault(token))?;
                if let Some(kind) = self.kind_of(token.spelled) {
                    self.kind = kind;
                }
                self.target = token.spelled;
                Ok(())
            }
            Act::Constant(value) => {
                self.read_literal(Literal::Constant(value));
                Ok(())
            }
            Act::Negate => {
                self.negated = true;
                Ok(())
            }
            Act::Use => {
                refused(self.use_fault(token))?;
                self.read_name(token.spelled);
                Ok(())
            }
            Act::EndAssign => self.end_assign(),
            Act::NameClock => {
                refused(self.clock_fault(token))?;
                self.clock = Some(token.spelled);
                Ok(())
            }
            Act::BeginNext => {
                refused(self.register_fault(token))?;
                self.target = token.spelled;
                Ok(())
            }
            Act::UseNext => {
                refused(self.next_use_fault(token))?;
                self.read_name(token.spelled);
                Ok(())
            }
            Act::EndNext => self.end_next(),
            Act::EndModule => refused(self.end_fault(token)),
        }
    }

    /// Does what a token does, and stands behind it then.
    fn move_on(&mut self, place: Place, act: Act, token: Token<'a>) -> Result<(), VeriError>
        ensures { Does (said_of self.old) (placed place (acted act (said_of self.old) (item_of token.entry))) (said_of self.new) result }
    {
        match self.act(act, token) {
            Ok(()) => {
                self.place = place;
                Ok(())
            }
            Err(fault) => Err(fault),
        }
    }

    /// Takes the next token in, or refuses it and stays as it was. `BadToken` comes where it begins none, `Syntax` where
    /// the grammar has none such here, `UnknownName`, `Twice` and `Unordered` where what was said of its name doesn't
    /// allow it, each at the offset in bytes of the token at fault; `Memory` for want of memory. After a refusal no
    /// token should follow.
    pub fn step(&mut self, token: Token<'a>) -> Result<(), VeriError>
        ensures { Does (said_of self.old) (step (said_of self.old) (item_of token.entry)) (said_of self.new) result }
    {
        if is_stray(token.symbol) {
            return Err(VeriError::BadToken { at: token.at });
        }
        match rule(self.kind, self.place, token.symbol) {
            None => Err(VeriError::Syntax { at: token.at }),
            Some((place, act)) => self.move_on(place, act, token),
        }
    }
}
