// What `order` answers of a graph, as a text.
use lola_bits::{Memory, Seq};
use lola_order::{Ordered, order};
use std::alloc::Global;
use std::test::Fail;

/// One more signal of a graph.
pub(crate) fn add(graph: &mut Vec<Option<Seq<u32>>>, uses: Option<Seq<u32>>) -> Result<(), Memory> {
    match graph.push(uses) {
        Ok(()) => Ok(()),
        Err(_) => Err(Memory),
    }
}

/// The numbers of a row.
fn uses(alloc: Global, row: &[u32]) -> Result<Seq<u32>, Memory> {
    let mut uses = Seq::new(alloc);
    for number in row {
        uses.push(*number)?;
    }
    Ok(uses)
}

/// The graph of some rows.
fn graph(alloc: Global, rows: &[Option<&[u32]>]) -> Result<Vec<Option<Seq<u32>>>, Memory> {
    let mut graph = Vec::new(alloc);
    for row in rows {
        match row {
            Some(row) => add(&mut graph, Some(uses(alloc, row)?))?,
            None => add(&mut graph, None)?,
        }
    }
    Ok(graph)
}

/// Whether the rows have this order.
pub(crate) fn has_order(
    alloc: Global,
    rows: &[Option<&[u32]>],
    expected: &[u32],
) -> Result<bool, Fail> {
    let graph = graph(alloc, rows)?;
    if graph.len() > 1000 {
        return Err(Fail::from("too many"));
    }
    match order(alloc, graph.as_slice())? {
        Ordered::Order { order } => Ok(order.items() == expected),
        Ordered::Loop { .. } => Ok(false),
    }
}

/// Whether the rows have this loop.
pub(crate) fn has_loop(
    alloc: Global,
    rows: &[Option<&[u32]>],
    expected: &[u32],
) -> Result<bool, Fail> {
    let graph = graph(alloc, rows)?;
    if graph.len() > 1000 {
        return Err(Fail::from("too many"));
    }
    match order(alloc, graph.as_slice())? {
        Ordered::Order { .. } => Ok(false),
        Ordered::Loop { names } => Ok(names.items() == expected),
    }
}
