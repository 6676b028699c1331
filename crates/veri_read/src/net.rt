ghost use Rattle.std.specs.Prelude.{◌≡◌, ◌≤◌, ◌<◌, ◌/◌, ◌^◌, ◌++◌, length, map, IfOk, OnOk};
ghost use Rattle.std.specs.List.{AllByRecursion};
ghost use Rattle.lola_net.specs.Equations.{IsFormed};
ghost use Rattle.veri_read.specs.Held.{listed, clock_of, said_of};
ghost use Rattle.veri_read.specs.Made.{made, next_here, next_literals, output_here, outputs_of, has_capital_letter, without_mark, module_named, net_of};
ghost use Rattle.veri_read.specs.Making.{made_of, IsSound};

use crate::literal::{Declared, Kind, Literal};
use crate::maker::Maker;
use crate::reader::Reader;
use crate::table::Table;
use lola_bits::{Memory, Name, Seq};
use lola_net::Net;
use std::alloc::Global;

/// Whether a name has a capital letter.
fn has_capital(name: &[u8]) -> bool
    ensures { result ≡ has_capital_letter name.now }
{
    name.iter().any(|b| b.is_ascii_uppercase())
}

/// A name without the `_` at its end, if one stands there.
fn without_mark(name: &str) -> &str
    ensures { result.now ≡ without_mark name.now }
{
    match name.strip_suffix('_') {
        Some(front) => front,
        None => name,
    }
}

/// The name of a net whose module has this name.
fn net_name(name: &str) -> &str
    ensures { result.now ≡ module_named name.now }
{
    if has_capital(name.as_bytes()) {
        name
    } else {
        without_mark(name)
    }
}

/// The names of the ports.
fn port_names(alloc: Global, ports: &Table<()>) -> Result<Seq<Name>, Memory>
    ensures { IfOk result (λ names. names ≡ map (λ p. p.0) (listed ports.now)) }
{
    let mut names = Seq::new(alloc);
    for place in 0..ports.len() {
        let (name, _) = ports.at(place);
        names.push(Name::new(alloc, name)?)?;
    }
    Ok(names)
}

/// The name of the clock, if there is one.
fn clock_name(alloc: Global, clock: Option<&str>) -> Result<Option<Name>, Memory>
    ensures { IfOk result (λ name. name ≡ clock_of clock.entry) }
{
    match clock {
        Some(clock) => Ok(Some(Name::new(alloc, clock)?)),
        None => Ok(None),
    }
}

/// Puts the next literal of a register behind others; other declared names have none.
fn push_next(
    next: &mut Seq<u32>,
    reader: &Reader,
    maker: &Maker,
    name: &str,
    declared: Declared,
) -> Result<(), Memory>
    requires sound { IsSound (made_of maker.now) }
    requires known { AllByRecursion (λ l. l / 2 ≤ length (made_of maker.now).nodes) next.old }
    ensures more { OnOk result (next.new ≡ next.old ++ next_here (said_of reader.now) (made_of maker.now).literals (name.now, declared)) }
    ensures known { OnOk result (AllByRecursion (λ l. l / 2 ≤ length (made_of maker.now).nodes) next.new) }
{
    if declared.kind != Kind::Reg {
        return Ok(());
    }
    let literal = match reader.next_of(name) {
        Some(literal) => literal,
        None => Literal::Constant(false),
    };
    next.push(maker.literal(literal))
}

/// The next literals of the registers, in the order of their declarations.
fn next_literals(alloc: Global, reader: &Reader, maker: &Maker) -> Result<Seq<u32>, Memory>
    requires { IsSound (made_of maker.now) }
    ensures value { IfOk result (λ next. next ≡ next_literals (said_of reader.now) (made_of maker.now).literals (said_of reader.now).declared) }
    ensures known { IfOk result (λ next. AllByRecursion (λ l. l / 2 ≤ length (made_of maker.now).nodes) next) }
{
    let mut next = Seq::new(alloc);
    for place in 0..reader.declared.len() {
        let (name, declared) = reader.declared.at(place);
        push_next(&mut next, reader, maker, name, declared)?;
    }
    Ok(next)
}

/// Puts an output with its literal behind others; other declared names are none.
fn push_output(
    alloc: Global,
    outputs: &mut Seq<(Name, u32)>,
    maker: &Maker,
    name: &str,
    declared: Declared,
) -> Result<(), Memory>
    requires sound { IsSound (made_of maker.now) }
    requires known { AllByRecursion (λ o. o.1 / 2 ≤ length (made_of maker.now).nodes) outputs.old }
    ensures more { OnOk result (outputs.new ≡ outputs.old ++ output_here (made_of maker.now).literals (name.now, declared)) }
    ensures known { OnOk result (AllByRecursion (λ o. o.1 / 2 ≤ length (made_of maker.now).nodes) outputs.new) }
{
    if declared.kind != Kind::Output {
        return Ok(());
    }
    outputs.push((Name::new(alloc, name)?, maker.named(name)))
}

/// The outputs with their literals, in the order of their declarations.
fn outputs(alloc: Global, reader: &Reader, maker: &Maker) -> Result<Seq<(Name, u32)>, Memory>
    requires { IsSound (made_of maker.now) }
    ensures value { IfOk result (λ outputs. outputs ≡ outputs_of (made_of maker.now).literals (said_of reader.now).declared) }
    ensures known { IfOk result (λ outputs. AllByRecursion (λ o. o.1 / 2 ≤ length (made_of maker.now).nodes) outputs) }
{
    let mut outputs = Seq::new(alloc);
    for place in 0..reader.declared.len() {
        let (name, declared) = reader.declared.at(place);
        push_output(alloc, &mut outputs, maker, name, declared)?;
    }
    Ok(outputs)
}

/// The net of what was said, of the nodes that were made of it.
pub(crate) fn finish(alloc: Global, reader: &Reader, maker: Maker) -> Result<Net, Memory>
    requires { IsSound (made_of maker) }
    ensures net { IfOk result (λ net. net ≡ net_of (said_of reader.now) (made_of maker.entry)) }
    ensures formed { IfOk result (λ net. IsFormed net) }
{
    let name = Name::new(alloc, net_name(reader.module_name))?;
    let clock = clock_name(alloc, reader.clock)?;
    let ports = port_names(alloc, &reader.ports)?;
    let next = next_literals(alloc, reader, &maker)?;
    let outputs = outputs(alloc, reader, &maker)?;
    maker
        .gates
        .into_net(alloc, name, clock, ports, next, outputs)
}
