ghost use Rattle.std.specs.Prelude.{◌≡◌, ◌∷◌, [], OnOk, map};
ghost use Rattle.lola_width.specs.Table.{found};
ghost use Rattle.lola_unfold.specs.Flat.{flat_width, flat_count};
ghost use Rattle.lola_unfold.specs.Pieces.{made_tree, grow, head_of, head_piece, ports_piece, root_piece, root_kind_of};
ghost use Rattle.lola_unfold.specs.Parts.{view_in};

use crate::expression::counted;
use crate::made::{Head, Made};
use crate::part::Part;
use crate::site::{Site, path_of};
use lola_bits::{Memory, Name};
use lola_flat::SigKind;
use lola_tree::{Port, Shape, Way};
use lola_width::Table;
use std::alloc::Global;

/// The width of a type.
fn width_of(names: &Table, shape: &Shape) -> u32
    ensures { result ≡ flat_width (found names.now) shape.now }
{
    match shape {
        Shape::Vector { width } => counted(names, width),
        Shape::Array { count: _, width } => counted(names, width),
    }
}

/// How many elements a type has.
fn count_of(names: &Table, shape: &Shape) -> u32
    ensures { result ≡ flat_count (found names.now) shape.now }
{
    match shape {
        Shape::Vector { width: _ } => 1,
        Shape::Array { count, width: _ } => counted(names, count),
    }
}

/// Adds the signal of a name.
pub(crate) fn add_signal(
    alloc: Global,
    made: &mut Made,
    part: &Part,
    site: &Site,
    name: &Name,
    kind: SigKind,
    shape: &Shape,
) -> Result<(), Memory>
    ensures { OnOk result (made_tree made.new ≡ grow (made_tree made.old) (head_piece (head_of (view_in part.now site.now) name.now kind shape.now))) }
{
    let path = path_of(alloc, site.path.as_slice(), name)?;
    made.add(Head {
        path,
        kind,
        width: width_of(&part.names, shape),
        count: count_of(&part.names, shape),
    })
}

/// Adds a port of an instance, unless it is its clock.
fn add_port(
    alloc: Global,
    made: &mut Made,
    part: &Part,
    site: &Site,
    port: &Port,
) -> Result<(), Memory>
    ensures { OnOk result (made_tree made.new ≡ grow (made_tree made.old) (ports_piece (view_in part.now site.now) (port.now ∷ []))) }
{
    if port.way == Way::Inward && part.clocks.has(port.name.text()) {
        Ok(())
    } else {
        add_signal(
            alloc,
            made,
            part,
            site,
            &port.name,
            SigKind::Wire,
            &port.shape,
        )
    }
}

/// Adds the ports of an instance.
pub(crate) fn add_ports(
    alloc: Global,
    made: &mut Made,
    part: &Part,
    site: &Site,
    ports: &[Port],
) -> Result<(), Memory>
    ensures { OnOk result (made_tree made.new ≡ grow (made_tree made.old) (ports_piece (view_in part.now site.now) ports.now)) }
{
    for port in ports {
        add_port(alloc, made, part, site, port)?;
    }
    Ok(())
}

/// What a port of the root is.
fn root_kind(way: Way) -> SigKind
    ensures { result ≡ root_kind_of way }
{
    match way {
        Way::Inward => SigKind::Input,
        Way::Outward => SigKind::Wire,
        Way::Both => SigKind::Pad,
    }
}

/// Adds the ports of the root.
pub(crate) fn add_root_ports(
    alloc: Global,
    made: &mut Made,
    part: &Part,
    site: &Site,
    ports: &[Port],
) -> Result<(), Memory>
    ensures { OnOk result (made_tree made.new ≡ grow (made_tree made.old) (root_piece (view_in part.now site.now) ports.now)) }
{
    for port in ports {
        let kind = root_kind(port.way);
        add_signal(alloc, made, part, site, &port.name, kind, &port.shape)?;
    }
    Ok(())
}
