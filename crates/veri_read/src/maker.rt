ghost use Rattle.std.specs.Prelude.{◌≡◌, ◌≤◌, ◌/◌, length, map, Some, OnOk};
ghost use Rattle.lola_gate.specs.Gates.{flipped};
ghost use Rattle.veri_read.specs.Held.{listed, clock_of, term_of, assigned_of, said_of};
ghost use Rattle.veri_read.specs.Made.{literal_or, literal_of, nothing_made, with_literal, with_input, with_inputs, with_register, with_registers, with_assigned, with_assigns, made};
ghost use Rattle.veri_read.specs.Tables.{find};
ghost use Rattle.veri_read.specs.Making.{made_of, IsSound, Makes, Gives};

use crate::literal::{Assign, Declared, Kind, Literal};
use crate::reader::{Reader, is_clock};
use crate::table::Table;
use lola_alg::{AlgError, Algebra};
use lola_bits::{Memory, Name};
use lola_gate::Gates;
use std::alloc::Global;

/// The nodes that are made of what a text says, and the literals that its names stand for.
#[derive(Drop)]
pub(crate) struct Maker<'a> {
    pub(crate) gates: Gates,
    literals: Table<'a, u32>,
}

/// The other literal of the same node.
fn flipped(literal: u32) -> u32
    ensures value { result ≡ flipped literal }
    ensures node { result / 2 ≡ literal / 2 }
{
    if literal % 2 == 0 {
        literal + 1
    } else {
        literal - 1
    }
}

impl<'a> Maker<'a> {
    /// Nothing is made. Takes no memory.
    fn new(alloc: Global) -> Maker<'a>
        ensures made { made_of result ≡ nothing_made }
        ensures sound { IsSound (made_of result) }
    {
        Maker {
            gates: Gates::new(alloc),
            literals: Table::new(alloc),
        }
    }

    /// Lets a name stand for a literal of these nodes.
    fn put(&mut self, name: &'a str, literal: u32) -> Result<(), Memory>
        requires sound { IsSound (made_of self.old) }
        requires known { literal / 2 ≤ length (made_of self.old).nodes }
        ensures made { OnOk result (made_of self.new ≡ with_literal (made_of self.old) name.now literal) }
        ensures sound { OnOk result (IsSound (made_of self.new)) }
    {
        self.literals.put(name, literal)?;
        Ok(())
    }

    /// The literal that a name stands for; 0 where it stands for none.
    pub(crate) fn named(&self, name: &str) -> u32
        requires { IsSound (made_of self.now) }
        ensures value { result ≡ literal_or (find (made_of self.now).literals name.now) }
        ensures known { result / 2 ≤ length (made_of self.now).nodes }
    {
        match self.literals.find(name) {
            Some(literal) => literal,
            None => 0,
        }
    }

    /// The literal that is written so.
    pub(crate) fn literal(&self, literal: Literal) -> u32
        requires { IsSound (made_of self.now) }
        ensures value { result ≡ literal_of (made_of self.now).literals (term_of literal.entry) }
        ensures known { result / 2 ≤ length (made_of self.now).nodes }
    {
        match literal {
            Literal::Constant(false) => 0,
            Literal::Constant(true) => 1,
            Literal::Of {
                negated: false,
                name,
            } => self.named(name),
            Literal::Of {
                negated: true,
                name,
            } => flipped(self.named(name)),
        }
    }

    /// Makes the node of an input but the clock; other declared names have none here.
    fn add_input(
        &mut self,
        alloc: Global,
        clock: Option<&str>,
        name: &'a str,
        declared: Declared,
    ) -> Result<(), Memory>
        requires { IsSound (made_of self.old) }
        ensures made { OnOk result (made_of self.new ≡ with_input (clock_of clock.entry) (made_of self.old) (name.now, declared)) }
        ensures sound { OnOk result (IsSound (made_of self.new)) }
    {
        if declared.kind != Kind::Input || is_clock(clock, name) {
            return Ok(());
        }
        let owned = Name::new(alloc, name)?;
        match self.gates.free(alloc, &owned) {
            Ok(literal) => self.put(name, literal),
            Err(_) => Err(Memory),
        }
    }

    /// Makes the node of a register; other declared names have none here.
    fn add_register(
        &mut self,
        alloc: Global,
        name: &'a str,
        declared: Declared,
    ) -> Result<(), Memory>
        requires { IsSound (made_of self.old) }
        ensures made { OnOk result (made_of self.new ≡ with_register (made_of self.old) (name.now, declared)) }
        ensures sound { OnOk result (IsSound (made_of self.new)) }
    {
        if declared.kind != Kind::Reg {
            return Ok(());
        }
        let owned = Name::new(alloc, name)?;
        match self.gates.latch(alloc, &owned) {
            Ok(literal) => self.put(name, literal),
            Err(_) => Err(Memory),
        }
    }

    /// Makes the nodes of all inputs but the clock.
    fn add_inputs(&mut self, alloc: Global, reader: &Reader<'a>) -> Result<(), Memory>
        requires { IsSound (made_of self.old) }
        ensures made { OnOk result (made_of self.new ≡ with_inputs (said_of reader.now).clock (made_of self.old) (said_of reader.now).declared) }
        ensures sound { OnOk result (IsSound (made_of self.new)) }
    {
        for place in 0..reader.declared.len() {
            let (name, declared) = reader.declared.at(place);
            self.add_input(alloc, reader.clock, name, declared)?;
        }
        Ok(())
    }

    /// Makes the nodes of all registers.
    fn add_registers(&mut self, alloc: Global, reader: &Reader<'a>) -> Result<(), Memory>
        requires { IsSound (made_of self.old) }
        ensures made { OnOk result (made_of self.new ≡ with_registers (made_of self.old) (said_of reader.now).declared) }
        ensures sound { OnOk result (IsSound (made_of self.new)) }
    {
        for place in 0..reader.declared.len() {
            let (name, declared) = reader.declared.at(place);
            self.add_register(alloc, name, declared)?;
        }
        Ok(())
    }

    /// Lets a wire stand for the `and` of its literals.
    fn add_wire(&mut self, assign: &Assign<'a>) -> Result<(), AlgError>
        requires { IsSound (made_of self.old) }
        ensures { Makes (with_assigned Kind.Wire (made_of self.old) (assigned_of assign.now)) (made_of self.new) result }
    {
        let first = self.literal(assign.first);
        let second = self.literal(assign.second);
        let literal = match self.gates.and(first, second) {
            Ok(literal) => literal,
            Err(error) => return Err(error),
        };
        match self.put(assign.target, literal) {
            Ok(()) => Ok(()),
            Err(_) => Err(AlgError::Memory),
        }
    }

    /// Makes the node of a pad.
    fn add_pad(&mut self, alloc: Global, assign: &Assign<'a>) -> Result<(), Memory>
        requires { IsSound (made_of self.old) }
        ensures made { OnOk result (with_assigned Kind.Inout (made_of self.old) (assigned_of assign.now) ≡ Some (made_of self.new)) }
        ensures sound { OnOk result (IsSound (made_of self.new)) }
    {
        let release = self.literal(assign.first);
        let value = self.literal(assign.second);
        let owned = Name::new(alloc, assign.target)?;
        match self.gates.pad(alloc, &owned, value, release) {
            Ok(literal) => self.put(assign.target, literal),
            Err(_) => Err(Memory),
        }
    }

    /// Makes what an assign says.
    fn add_assign(&mut self, alloc: Global, assign: &Assign<'a>) -> Result<(), AlgError>
        requires { IsSound (made_of self.old) }
        ensures { Makes (with_assigned (assigned_of assign.now).kind (made_of self.old) (assigned_of assign.now)) (made_of self.new) result }
    {
        let added = match assign.kind {
            Kind::Wire => return self.add_wire(assign),
            Kind::Inout => self.add_pad(alloc, assign),
            _ => self.put(assign.target, self.literal(assign.second)),
        };
        match added {
            Ok(()) => Ok(()),
            Err(_) => Err(AlgError::Memory),
        }
    }

    /// Makes what all assigns say, in order.
    fn add_assigns(&mut self, alloc: Global, assigns: &[Assign<'a>]) -> Result<(), AlgError>
        requires { IsSound (made_of self.old) }
        ensures { Makes (with_assigns (map assigned_of assigns.now) (made_of self.old)) (made_of self.new) result }
    {
        for assign in assigns {
            match self.add_assign(alloc, assign) {
                Ok(()) => {}
                Err(error) => return Err(error),
            }
        }
        Ok(())
    }

    /// Makes the nodes of what was said: the inputs but the clock, the registers, and gates and pads. `Full` comes
    /// where there is no place for a gate, and `Memory` for want of memory.
    pub(crate) fn of(alloc: Global, reader: &Reader<'a>) -> Result<Maker<'a>, AlgError>
        ensures { Gives (made (said_of reader.now)) result }
    {
        let mut maker = Maker::new(alloc);
        if maker.add_inputs(alloc, reader).is_err() {
            return Err(AlgError::Memory);
        }
        if maker.add_registers(alloc, reader).is_err() {
            return Err(AlgError::Memory);
        }
        match maker.add_assigns(alloc, reader.assigns.as_slice()) {
            Ok(()) => Ok(maker),
            Err(error) => Err(error),
        }
    }
}
