ghost use Rattle.std.specs.Prelude.{◌≡◌, List, OnOk};
ghost use Rattle.lola_bits.specs.Lists.{IsIn};
ghost use Rattle.lola_tree.specs.declared.named.Named.{Named};
ghost use Rattle.lola_tree.specs.Tree.{ModuleTree};
ghost use Rattle.lola_tree.specs.design.Places.{Place};
ghost use Rattle.lola_unfold.specs.Translated.{Numbers};
ghost use Rattle.lola_unfold.specs.Pieces.{made_tree, grow, piece};
ghost use Rattle.lola_unfold.specs.Parts.{Stands, IsCalled, entered_signals, entered_places, local_piece, locals_piece};

use crate::add::{add_ports, add_signal};
use crate::fill::{fill_args, fill_body};
use crate::made::Made;
use crate::part::Part;
use crate::site::{Site, site_inside};
use crate::slots::entrance;
use lola_bits::Memory;
use lola_flat::SigKind;
use lola_tree::{Local, LocalKind};
use std::alloc::Global;

/// A module that an instance enters: its ports, its arguments, its statements, and what its local names are.
#[cycle(walk)]
fn walk_inside<'a, 't>(
    alloc: Global,
    made: &mut Made,
    parts: &[Part<'a>],
    outer: &Part<'a>,
    outer_site: &Site<'a, 't>,
    part: &Part<'a>,
    site: &Site<'a, 't>,
    name: &'a str,
) -> Result<(), Memory>
    ensures { OnOk result ((N : Numbers) (E F : List ModuleTree) (a b : Place) → Stands N parts.now outer_site.now outer.now E a → Stands N parts.now site.now part.now F b → IsCalled a name.now b → made_tree made.new ≡ grow (made_tree made.old) (piece N (entered_signals F b) (entered_places F b))) }
{
    add_ports(alloc, made, part, site, part.declared.ports.items())?;
    let args = outer.calls.args(name);
    fill_args(alloc, made, part, site, outer, outer_site, args)?;
    fill_body(alloc, made, part, site, part.declared.body.items())?;
    walk_locals(alloc, made, parts, part, site)?;
    Ok(())
}

/// An instance.
#[cycle(walk)]
fn walk_instance<'a, 't>(
    alloc: Global,
    made: &mut Made,
    parts: &[Part<'a>],
    part: &Part<'a>,
    site: &Site<'a, 't>,
    local: &'a Local,
) -> Result<(), Memory>
    ensures { OnOk result ((N : Numbers) (E : List ModuleTree) (a : Place) (of : Named) → Stands N parts.now site.now part.now E a → IsIn local.now a.module_.locals → local.now.kind ≡ LocalKind.Inst of → made_tree made.new ≡ grow (made_tree made.old) (local_piece N E a local.now)) }
{
    let name = local.name.text();
    match entrance(site.base, name) {
        Some((slot, at)) => match parts.get(at) {
            Some(inner) => {
                let args = part.calls.args(name);
                let inner_site = site_inside(alloc, site, name, slot, at, inner, args)?;
                walk_inside(alloc, made, parts, part, site, inner, &inner_site, name)?;
                Ok(())
            }
            None => Ok(()),
        },
        None => Ok(()),
    }
}

#[cycle(walk)]
fn walk_local<'a, 't>(
    alloc: Global,
    made: &mut Made,
    parts: &[Part<'a>],
    part: &Part<'a>,
    site: &Site<'a, 't>,
    local: &'a Local,
) -> Result<(), Memory>
    ensures { OnOk result ((N : Numbers) (E : List ModuleTree) (a : Place) → Stands N parts.now site.now part.now E a → IsIn local.now a.module_.locals → made_tree made.new ≡ grow (made_tree made.old) (local_piece N E a local.now)) }
{
    match &local.kind {
        LocalKind::Reg { clock: _, shape } => {
            let kind = SigKind::Register;
            add_signal(alloc, made, part, site, &local.name, kind, shape)?;
            Ok(())
        }
        LocalKind::Var { shape } => {
            add_signal(alloc, made, part, site, &local.name, SigKind::Wire, shape)?;
            Ok(())
        }
        LocalKind::Inst { module: _ } => {
            walk_instance(alloc, made, parts, part, site, local)?;
            Ok(())
        }
    }
}

/// What the local names of a module are.
#[cycle(walk)]
pub(crate) fn walk_locals<'a, 't>(
    alloc: Global,
    made: &mut Made,
    parts: &[Part<'a>],
    part: &Part<'a>,
    site: &Site<'a, 't>,
) -> Result<(), Memory>
    ensures { OnOk result ((N : Numbers) (E : List ModuleTree) (a : Place) → Stands N parts.now site.now part.now E a → made_tree made.new ≡ grow (made_tree made.old) (locals_piece N E a a.module_.locals)) }
{
    for local in part.declared.locals.items() {
        walk_local(alloc, made, parts, part, site, local)?;
    }
    Ok(())
}
