// Orders and loops of 65,536 signals.
use crate::answer::add;
use lola_bits::{Memory, Seq};
use lola_order::{Ordered, order};
use std::alloc::Global;
use std::test::Fail;

const SIGNALS: u32 = 65_536;

/// Each signal uses the next one; the last uses none, or the first where they are a ring.
fn line(alloc: Global, ring: bool) -> Result<Vec<Option<Seq<u32>>>, Memory> {
    let mut graph = Vec::new(alloc);
    for number in 1..SIGNALS {
        let mut uses = Seq::new(alloc);
        uses.push(number)?;
        add(&mut graph, Some(uses))?;
    }
    let mut uses = Seq::new(alloc);
    if ring {
        uses.push(0)?;
    }
    add(&mut graph, Some(uses))?;
    Ok(graph)
}

/// Each signal uses those of the first eight that stand before it.
fn wide(alloc: Global) -> Result<Vec<Option<Seq<u32>>>, Memory> {
    let mut graph = Vec::new(alloc);
    for number in 0..SIGNALS {
        let mut uses = Seq::new(alloc);
        for first in 0..number.min(8) {
            uses.push(first)?;
        }
        add(&mut graph, Some(uses))?;
    }
    Ok(graph)
}

/// The first and the last of an answer, and how many it has, where it is an order or a loop.
fn ends(answer: &Ordered, is_order: bool) -> Option<(u32, u32, usize)> {
    let numbers = match answer {
        Ordered::Order { order } if is_order => order.items(),
        Ordered::Loop { names } if !is_order => names.items(),
        _ => return None,
    };
    match (numbers.first(), numbers.last()) {
        (Some(first), Some(last)) => Some((*first, *last, numbers.len())),
        _ => None,
    }
}

/// The same of the answer of a graph.
fn ends_of(
    alloc: Global,
    graph: &[Option<Seq<u32>>],
    is_order: bool,
) -> Result<Option<(u32, u32, usize)>, Fail> {
    if graph.len() > 1_000_000 {
        return Err(Fail::from("too many"));
    }
    let answer = order(alloc, graph)?;
    Ok(ends(&answer, is_order))
}

#[test]
fn a_line(rt: HostRuntime) -> Result<(), Fail> {
    let graph = line(rt.alloc(), false)?;
    let ends = ends_of(rt.alloc(), graph.as_slice(), true)?;
    assert_eq!(&rt; ends, Some((65_535, 0, 65_536)));
    Ok(())
}

#[test]
fn a_ring(rt: HostRuntime) -> Result<(), Fail> {
    let graph = line(rt.alloc(), true)?;
    let ends = ends_of(rt.alloc(), graph.as_slice(), false)?;
    assert_eq!(&rt; ends, Some((0, 1, 65_536)));
    Ok(())
}

#[test]
fn many_use_the_same(rt: HostRuntime) -> Result<(), Fail> {
    let graph = wide(rt.alloc())?;
    let ends = ends_of(rt.alloc(), graph.as_slice(), true)?;
    assert_eq!(&rt; ends, Some((0, 65_535, 65_536)));
    Ok(())
}
