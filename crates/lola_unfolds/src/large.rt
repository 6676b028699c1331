// Designs of 65,000 signals and instances, all in one chain from the input to the output, and those of half of it.
// `bench/unfolding` runs these tests one by one.
use crate::answer::{elaborated, is_sized};
use lola_unfold::ElabError;
use std::alloc::Global;
use std::process::Abort;
use std::test::Fail;

/// A module M0 that negates, and more, each with an instance of the one before it.
fn push_modules(alloc: Global, text: &mut String, modules: u32) -> Result<(), Fail> {
    text.push_str("MODULE M0(IN a: BIT; OUT o: BIT); BEGIN o := ~a END M0. ")?;
    for number in 1..modules {
        let below = number.saturating_sub(1);
        let module = format!(in alloc;
            "MODULE M{number}(IN a: BIT; OUT o: BIT); VAR u: M{below}; BEGIN u(a, o) END M{number}. "
        )?;
        text.push_str(module.as_str())?;
    }
    Ok(())
}

/// Names u0, u1, .. with commas between.
fn push_names(alloc: Global, text: &mut String, letter: &str, count: u32) -> Result<(), Fail> {
    for number in 0..count {
        if number > 0 {
            text.push_str(", ")?;
        }
        let name = format!(in alloc; "{letter}{number}")?;
        text.push_str(name.as_str())?;
    }
    Ok(())
}

/// A root with so many instances of the last of some modules, and behind them so many variables, in one chain from `a`
/// to `o`; or, as a ring, from its end to its beginning.
fn chain(
    alloc: Global,
    modules: u32,
    instances: u32,
    more: u32,
    ring: bool,
) -> Result<String, Fail> {
    let all = instances.saturating_add(more);
    let last = all.saturating_sub(1);
    let top = modules.saturating_sub(1);
    let mut text = String::new(alloc);
    push_modules(alloc, &mut text, modules)?;
    text.push_str("MODULE M(IN a: BIT; OUT o: BIT); VAR ")?;
    push_names(alloc, &mut text, "u", instances)?;
    let row = format!(in alloc; ": M{top}; ")?;
    text.push_str(row.as_str())?;
    push_names(alloc, &mut text, "v", all)?;
    let row = format!(in alloc; ": BIT; BEGIN o := v{last}")?;
    text.push_str(row.as_str())?;
    let mut before = if ring {
        format!(in alloc; "v{last}")?
    } else {
        String::from_str(alloc, "a")?
    };
    for number in 0..all {
        let row = if number < instances {
            format!(in alloc; "; u{number}({before}, v{number})")?
        } else {
            format!(in alloc; "; v{number} := {before}")?
        };
        text.push_str(row.as_str())?;
        before = format!(in alloc; "v{number}")?;
    }
    text.push_str(" END M.")?;
    Ok(text)
}

/// A chain of so many signals is elaborated: all but the input are in the order, the first port of the first instance
/// first, and the output last.
fn is_ordered(rt: &impl Abort, alloc: Global, text: &str, signals: usize) -> Result<(), Fail> {
    let flat = elaborated(alloc, text.as_bytes())?.map_err(|_| "no design")?;
    assert_eq!(rt; flat.signals.items().len(), signals);
    let order = flat.order.items();
    assert_eq!(rt; order.len() + 1, signals);
    assert_eq!(rt;
        (order.first().copied(), order.last().copied()),
        (Some(2), Some(1))
    );
    Ok(())
}

// 400 instances, each 50 deep: 20,000 instances; their 40,000 ports, the 2 of the root and 4,998 variables are 45,000
// signals.
#[test]
fn a_deep_chain(rt: HostRuntime) -> Result<(), Fail> {
    let text = chain(rt.alloc(), 50, 400, 4_598, false)?;
    is_ordered(&rt, rt.alloc(), text.as_str(), 45_000)
}

#[test]
fn half_of_a_deep_chain(rt: HostRuntime) -> Result<(), Fail> {
    let text = chain(rt.alloc(), 50, 200, 2_298, false)?;
    is_ordered(&rt, rt.alloc(), text.as_str(), 22_500)
}

// 16,000 instances in the root; their 32,000 ports, the 2 of the root and 16,998 variables are 49,000 signals.
#[test]
fn a_wide_chain(rt: HostRuntime) -> Result<(), Fail> {
    let text = chain(rt.alloc(), 1, 16_000, 998, false)?;
    is_ordered(&rt, rt.alloc(), text.as_str(), 49_000)
}

#[test]
fn half_of_a_wide_chain(rt: HostRuntime) -> Result<(), Fail> {
    let text = chain(rt.alloc(), 1, 8_000, 498, false)?;
    is_ordered(&rt, rt.alloc(), text.as_str(), 24_500)
}

/// A loop of so many names begins with this one.
fn is_ring(rt: &impl Abort, fault: &ElabError, names: usize, first: &str) {
    match fault {
        ElabError::Loop { names: found } => {
            assert_eq!(rt; found.items().len(), names);
            match found.items().first() {
                Some(name) => assert_eq!(rt; name.text(), first),
                None => assert!(rt; false),
            }
        }
        _ => assert!(rt; false),
    }
}

// All but the ports of the root stand in the ring.
#[test]
fn a_deep_ring(rt: HostRuntime) -> Result<(), Fail> {
    let text = chain(rt.alloc(), 50, 400, 4_598, true)?;
    match elaborated(rt.alloc(), text.as_bytes())? {
        Ok(_flat) => assert!(&rt; false),
        Err(fault) => is_ring(&rt, &fault, 44_998, "u0.a"),
    }
    Ok(())
}

// What reading and sizing the same texts takes.
#[test]
fn the_text_of_a_deep_chain(rt: HostRuntime) -> Result<(), Fail> {
    let text = chain(rt.alloc(), 50, 400, 4_598, false)?;
    assert!(&rt; is_sized(rt.alloc(), text.as_bytes())?);
    Ok(())
}

#[test]
fn the_text_of_a_wide_chain(rt: HostRuntime) -> Result<(), Fail> {
    let text = chain(rt.alloc(), 1, 16_000, 998, false)?;
    assert!(&rt; is_sized(rt.alloc(), text.as_bytes())?);
    Ok(())
}
