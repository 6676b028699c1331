// Steps of making nets, each where its literals are known.
use lola_alg::Algebra;
use lola_bits::{Name, Seq};
use lola_gate::Gates;
use std::alloc::Global;
use std::test::Fail;

/// An input with a name.
pub(crate) fn input(alloc: Global, gates: &mut Gates, name: &str) -> Result<u32, Fail> {
    let name = Name::new(alloc, name)?;
    Ok(gates.free(alloc, &name).map_err(|_| "memory")?)
}

/// A register with a name.
pub(crate) fn register(alloc: Global, gates: &mut Gates, name: &str) -> Result<u32, Fail> {
    let name = Name::new(alloc, name)?;
    Ok(gates.latch(alloc, &name).map_err(|_| "memory")?)
}

/// A pad with a name.
pub(crate) fn pad(
    alloc: Global,
    gates: &mut Gates,
    name: &str,
    value: u32,
    release: u32,
) -> Result<u32, Fail> {
    let name = Name::new(alloc, name)?;
    if value / 2 <= gates.node_count() && release / 2 <= gates.node_count() {
        Ok(
            gates
                .pad(alloc, &name, value, release)
                .map_err(|_| "memory")?,
        )
    } else {
        Err(Fail::from("no such literal"))
    }
}

/// Both of two literals.
pub(crate) fn both(gates: &mut Gates, a: u32, b: u32) -> Result<u32, Fail> {
    if gates.has(a) && gates.has(b) {
        Ok(gates.and(a, b).map_err(|_| "no gate")?)
    } else {
        Err(Fail::from("no such literal"))
    }
}

/// The values of the nodes.
pub(crate) fn values(alloc: Global, gates: &Gates, free: &[bool]) -> Result<Vec<bool>, Fail> {
    if free.len() == gates.free_count() as usize {
        Ok(gates.eval(alloc, free).map_err(|_| "memory")?)
    } else {
        Err(Fail::from("not so many bits"))
    }
}

/// A list of names.
pub(crate) fn names(alloc: Global, texts: &[&str]) -> Result<Seq<Name>, Fail> {
    let mut names = Seq::new(alloc);
    for text in texts {
        names.push(Name::new(alloc, text)?)?;
    }
    Ok(names)
}

/// A list of outputs.
pub(crate) fn outputs(alloc: Global, named: &[(&str, u32)]) -> Result<Seq<(Name, u32)>, Fail> {
    let mut outputs = Seq::new(alloc);
    for (text, literal) in named {
        outputs.push((Name::new(alloc, text)?, *literal))?;
    }
    Ok(outputs)
}

/// A list of literals.
pub(crate) fn literals(alloc: Global, items: &[u32]) -> Result<Seq<u32>, Fail> {
    Ok(Seq::of(Vec::from_slice(alloc, items)?))
}
