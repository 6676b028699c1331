ghost use Rattle.std.specs.Prelude.{◌≡◌, ◌++◌, OnOk};
ghost use Rattle.tab_tree.specs.Table.{roles_tree};
ghost use Rattle.tab_tree.specs.Print.{active_text, stall_text, role_text, bus_text, roles_text};

use crate::pieces::{push_maybe, push_port};
use crate::table::{Active, BusRoles, Roles};
use lola_bits::Name;
use lola_tree::{push_name, push_number};
use std::alloc::AllocError;

/// Appends the roles of a table.
pub fn push_roles(out: &mut Vec<u8>, roles: &Roles) -> Result<(), AllocError>
    ensures { OnOk result (out.new.items ≡ out.old.items ++ roles_text (roles_tree roles.now)) }
{
    push_active(out, b"RESET ", &roles.reset)?;
    push_stall(out, &roles.stall)?;
    push_maybe(out, b"CODE ", &roles.code)?;
    push_role(out, b"FETCHED ", &roles.fetched)?;
    push_role(out, b"LOADED ", &roles.loaded)?;
    push_bus(out, &roles.bus)
}

fn push_active(out: &mut Vec<u8>, word: &[u8], active: &Active) -> Result<(), AllocError>
    ensures { OnOk result (out.new.items ≡ out.old.items ++ active_text word.now active.now) }
{
    out.extend_from_slice(word)?;
    push_name(out, &active.port)?;
    out.extend_from_slice(b"= ")?;
    push_number(out, if active.value { 1 } else { 0 }, None)?;
    out.extend_from_slice(b";\n")?;
    Ok(())
}

fn push_stall(out: &mut Vec<u8>, stall: &Option<Active>) -> Result<(), AllocError>
    ensures { OnOk result (out.new.items ≡ out.old.items ++ stall_text stall.now) }
{
    match stall {
        Some(active) => push_active(out, b"STALL ", active),
        None => Ok(()),
    }
}

fn push_role(out: &mut Vec<u8>, word: &[u8], port: &Option<Name>) -> Result<(), AllocError>
    ensures { OnOk result (out.new.items ≡ out.old.items ++ role_text word.now port.now) }
{
    match port {
        Some(port) => push_port(out, word, port),
        None => Ok(()),
    }
}

fn push_bus(out: &mut Vec<u8>, bus: &Option<BusRoles>) -> Result<(), AllocError>
    ensures { OnOk result (out.new.items ≡ out.old.items ++ bus_text bus.now) }
{
    match bus {
        Some(bus) => {
            push_port(out, b"READ ", &bus.read)?;
            push_port(out, b"WRITE ", &bus.write)?;
            push_port(out, b"ADDRESS ", &bus.address)?;
            push_port(out, b"BYTE ", &bus.byte)?;
            push_port(out, b"DATA ", &bus.word)
        }
        None => Ok(()),
    }
}
