ghost use Rattle.std.specs.Prelude.{◌≡◌, OnOk, IfOk, map};
ghost use Rattle.lola_tree.specs.Tree.{tree, place_tree, actual_tree, stmt_tree};
ghost use Rattle.lola_flat.specs.Tree.{some_tree};
ghost use Rattle.lola_width.specs.Table.{found};
ghost use Rattle.lola_unfold.specs.Slots.{number_from};
ghost use Rattle.lola_unfold.specs.Flat.{actual_place};
ghost use Rattle.lola_unfold.specs.Pieces.{made_tree, grow, assigned_piece, pad_piece, stmt_piece, body_piece, way_piece, args_piece};
ghost use Rattle.lola_unfold.specs.Parts.{view_in};

use crate::clocks::bare_path;
use crate::expression::{apply, three, translate};
use crate::made::{Made, Next};
use crate::part::Part;
use crate::site::Site;
use crate::slots::{Base, name_number, number_from};
use lola_bits::{Memory, Name, Op};
use lola_flat::FExpr;
use lola_tree::{Actual, Expr, Port, Stmt, Way};
use lola_width::Table;
use std::alloc::Global;

/// The place that an assignment writes.
fn place_of(
    alloc: Global,
    place: &Option<Actual>,
    names: &Table,
    base: Base,
) -> Result<Option<FExpr>, Memory>
    ensures { IfOk result (λ made. some_tree made ≡ actual_place (found names.now) (number_from base.entry) (place_tree place.now)) }
{
    match place {
        Some(actual) => Ok(Some(translate(alloc, &actual.value, names, base)?)),
        None => Ok(None),
    }
}

/// An assignment gives a register its next value, and anything else its value.
fn fill_assignment(
    alloc: Global,
    made: &mut Made,
    part: &Part,
    site: &Site,
    name: &Name,
    place: &Option<Actual>,
    value: &Expr,
) -> Result<(), Memory>
    ensures { OnOk result (made_tree made.new ≡ grow (made_tree made.old) (assigned_piece (view_in part.now site.now) name.now (place_tree place.now) (tree value.now))) }
{
    let number = name_number(site.base, name.text());
    let value = translate(alloc, value, &part.names, site.base)?;
    if part.registers.has(name.text()) {
        let place = place_of(alloc, place, &part.names, site.base)?;
        made.put_next(number, Next { place, value });
    } else {
        made.put_equation(number, value);
    }
    Ok(())
}

/// A pad carries what drives it where it isn't released, and else the outside value; the inner name is what it
/// carries.
fn fill_pad(
    alloc: Global,
    made: &mut Made,
    part: &Part,
    site: &Site,
    io: &Name,
    inner: &Name,
    drive: &Expr,
    release: &Expr,
) -> Result<(), Memory>
    ensures { OnOk result (made_tree made.new ≡ grow (made_tree made.old) (pad_piece (view_in part.now site.now) io.now inner.now (tree drive.now) (tree release.now))) }
{
    let pad = site.pads.number(io.text());
    let release = translate(alloc, release, &part.names, site.base)?;
    let drive = translate(alloc, drive, &part.names, site.base)?;
    let args = three(alloc, release, FExpr::Outside { number: pad }, drive)?;
    made.put_equation(pad, apply(Op::Mux, args));
    let carried = FExpr::Signal {
        number: name_number(site.base, io.text()),
    };
    made.put_equation(name_number(site.base, inner.text()), carried);
    Ok(())
}

/// What a statement gives values to.
fn fill_stmt(
    alloc: Global,
    made: &mut Made,
    part: &Part,
    site: &Site,
    stmt: &Stmt,
) -> Result<(), Memory>
    ensures { OnOk result (made_tree made.new ≡ grow (made_tree made.old) (stmt_piece (view_in part.now site.now) (stmt_tree stmt.now))) }
{
    match stmt {
        Stmt::Assign {
            name,
            place,
            value,
            at: _,
            equals: _,
        } => fill_assignment(alloc, made, part, site, name, place, value),
        Stmt::Call {
            name: _,
            args: _,
            at: _,
        } => Ok(()),
        Stmt::Pad {
            io,
            inner,
            value,
            release,
            at: _,
        } => fill_pad(
            alloc,
            made,
            part,
            site,
            &io.name,
            &inner.name,
            &value.value,
            &release.value,
        ),
    }
}

/// What the statements of a module give values to.
pub(crate) fn fill_body(
    alloc: Global,
    made: &mut Made,
    part: &Part,
    site: &Site,
    body: &[Stmt],
) -> Result<(), Memory>
    ensures { OnOk result (made_tree made.new ≡ grow (made_tree made.old) (body_piece (view_in part.now site.now) (map stmt_tree body.now))) }
{
    for stmt in body {
        fill_stmt(alloc, made, part, site, stmt)?;
    }
    Ok(())
}

/// The equation of an argument: an IN port but the clock has its value, it has that of an OUT port, and an
/// INOUT port has its.
fn fill_way(
    alloc: Global,
    made: &mut Made,
    part: &Part,
    site: &Site,
    outer: &Part,
    outer_site: &Site,
    port: &Port,
    arg: &Expr,
) -> Result<(), Memory>
    ensures { OnOk result (made_tree made.new ≡ grow (made_tree made.old) (way_piece (view_in part.now site.now) (view_in outer.now outer_site.now) port.now (tree arg.now))) }
{
    let number = name_number(site.base, port.name.text());
    match port.way {
        Way::Inward => {
            if !part.clocks.has(port.name.text()) {
                let value = translate(alloc, arg, &outer.names, outer_site.base)?;
                made.put_equation(number, value);
            }
        }
        Way::Outward => {
            let target = number_from(outer_site.base, bare_path(arg));
            made.put_equation(target, FExpr::Signal { number });
        }
        Way::Both => {
            let from = number_from(outer_site.base, bare_path(arg));
            made.put_equation(number, FExpr::Signal { number: from });
        }
    }
    Ok(())
}

/// The equations of the arguments of an instance.
pub(crate) fn fill_args(
    alloc: Global,
    made: &mut Made,
    part: &Part,
    site: &Site,
    outer: &Part,
    outer_site: &Site,
    args: &[Actual],
) -> Result<(), Memory>
    ensures { OnOk result (made_tree made.new ≡ grow (made_tree made.old) (args_piece (view_in part.now site.now) (view_in outer.now outer_site.now) part.now.declared.now.ports (map actual_tree args.now))) }
{
    let ports = part.declared.ports.items();
    for at in 0..ports.len().min(args.len()) {
        fill_way(
            alloc,
            made,
            part,
            site,
            outer,
            outer_site,
            &ports[at],
            &args[at].value,
        )?;
    }
    Ok(())
}
