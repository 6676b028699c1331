// Expressions over what names stand for, and the bits of numbers and of leaves.
ghost use Rattle.std.specs.Prelude.{IfOk, OnOk};
ghost use Rattle.std.specs.BTreeMap.{get_by_text};
ghost use Rattle.lola_elab.specs.Meanings.{IsVector, AreVectors};

use crate::answer::{expression, has_bits, leaves, table_expression};
use lola_elab::{
    ElabError, Entry, Meaning, Reading, Scope, add_name, eval, flat_of, number_bits, resolve,
};
use std::alloc::{AllocError, Global};
use std::collections::{BTreeMap, BTreeSet};
use std::process::Abort;
use std::test::Fail;

const T: bool = true;

const F: bool = false;

#[test]
fn the_lowest_bit_of_a_number_comes_first(rt: HostRuntime) -> Result<(), Fail> {
    let alloc = rt.alloc();
    let five = number_bits(alloc, 4, 5).map_err(|_| "memory")?;
    assert_eq!(rt; five.items(), [T, F, T, F].as_slice());
    let two = number_bits(alloc, 2, 2).map_err(|_| "memory")?;
    assert_eq!(rt; two.items(), [F, T].as_slice());
    let none = number_bits(alloc, 0, 0).map_err(|_| "memory")?;
    assert_eq!(rt; none.items().len(), 0);
    Ok(())
}

/// Lets a name stand for a vector.
fn enter(
    alloc: Global,
    names: &mut BTreeMap<String, Meaning>,
    name: &str,
    meaning: Meaning,
) -> Result<(), AllocError>
    requires is { IsVector meaning }
    requires are { AreVectors (get_by_text names.old) }
    ensures { OnOk result (AreVectors (get_by_text names.new)) }
{
    let text = String::from_str(alloc, name)?;
    names.insert(text, meaning)?;
    Ok(())
}

/// The names a and b of leaves of 4 bits, and n of the number 2 in 3 bits.
fn names(alloc: Global) -> Result<BTreeMap<String, Meaning>, AllocError>
    ensures { IfOk result (λ names. AreVectors (get_by_text names)) }
{
    let mut names = BTreeMap::new(alloc);
    enter(
        alloc,
        &mut names,
        "a",
        Meaning::Leaf {
            number: 0,
            width: 4,
        },
    )?;
    enter(
        alloc,
        &mut names,
        "b",
        Meaning::Leaf {
            number: 1,
            width: 4,
        },
    )?;
    enter(
        alloc,
        &mut names,
        "n",
        Meaning::Constant { width: 3, value: 2 },
    )?;
    Ok(names)
}

/// An expression has as many bits as its width says, and these where a is 11 and b is 6.
fn is_made(rt: &impl Abort, alloc: Global, text: &[u8], bits: &[bool]) -> Result<(), Fail> {
    let expr = expression(alloc, text)?;
    let names = names(alloc)?;
    let typed = flat_of(alloc, &expr, &names).map_err(|_| "no flat")?;
    assert_eq!(rt; typed.width, bits.len());
    let leaves = leaves(alloc, &[(4, 11), (4, 6)])?;
    has_bits(rt, alloc, &typed.flat, leaves.as_slice(), bits)
}

#[test]
fn expressions_have_widths_and_bits(rt: HostRuntime) -> Result<(), Fail> {
    let alloc = rt.alloc();
    // 2, in the width of the constant
    is_made(&rt, alloc, b"n", &[F, T, F])?;
    // 17 less 16
    is_made(&rt, alloc, b"a + b", &[T, F, F, F])?;
    // 6 less 11, and 16
    is_made(&rt, alloc, b"b - a", &[T, T, F, T])?;
    // bit 2 of 1011
    is_made(&rt, alloc, b"a.n", &[F])?;
    // 01, 010 and twice 0
    is_made(
        &rt,
        alloc,
        b"{a[2 : 1], n, b.0 ! 2}",
        &[F, F, F, T, F, T, F],
    )?;
    is_made(&rt, alloc, b"b < a", &[T])?;
    // 0110 turned right by 1
    is_made(&rt, alloc, b"a = b -> a : ROR(b, 1'4)", &[T, T, F, F])?;
    // 0100 and 0010
    is_made(&rt, alloc, b"~a | {1'3, 0}", &[F, T, T, F])
}

/// An expression has no form over leaves.
fn is_not_made(rt: &impl Abort, alloc: Global, text: &[u8]) -> Result<(), Fail> {
    let expr = expression(alloc, text)?;
    let names = names(alloc)?;
    assert!(rt; matches!(flat_of(alloc, &expr, &names), Err(ElabError::NotBuilt)));
    Ok(())
}

#[test]
fn expressions_without_a_width_are_refused(rt: HostRuntime) -> Result<(), Fail> {
    let alloc = rt.alloc();
    is_not_made(&rt, alloc, b"c")?;
    is_not_made(&rt, alloc, b"2")?;
    is_not_made(&rt, alloc, b"a + n")?;
    is_not_made(&rt, alloc, b"a.4")?;
    is_not_made(&rt, alloc, b"a[1 : 2]")?;
    is_not_made(&rt, alloc, b"a[b]")?;
    is_not_made(&rt, alloc, b"{a ! 0}")?;
    is_not_made(&rt, alloc, b"{a ! 33}")?;
    is_not_made(&rt, alloc, b"a -> a : b")
}

/// An entry of a scope.
fn entry(alloc: Global, name: &str, reading: Reading) -> Result<Entry, AllocError> {
    let name = String::from_str(alloc, name)?;
    Ok(Entry { name, reading })
}

/// The bare names x of leaf 0 and k of the constant 1, and the name q of leaf 1 behind an `@`.
fn scope(alloc: Global) -> Result<Scope, Fail> {
    let mut scope = Scope::new(alloc);
    scope
        .bare
        .push(entry(alloc, "x", Reading::Leaf { number: 0 })?)?;
    scope
        .bare
        .push(entry(alloc, "k", Reading::Constant { value: true })?)?;
    scope
        .source
        .push(entry(alloc, "q", Reading::Leaf { number: 1 })?)?;
    Ok(scope)
}

/// A table's expression has these values where x and q are 0 and 0, 0 and 1, 1 and 0, 1 and 1.
fn is_resolved(rt: &impl Abort, alloc: Global, text: &[u8], values: [bool; 4]) -> Result<(), Fail> {
    let expr = table_expression(alloc, text)?;
    let scope = scope(alloc)?;
    let logic = resolve(alloc, &expr, &scope).map_err(|_| "no logic")?;
    assert_eq!(rt; eval(&logic, &[F, F]), values[0]);
    assert_eq!(rt; eval(&logic, &[F, T]), values[1]);
    assert_eq!(rt; eval(&logic, &[T, F]), values[2]);
    assert_eq!(rt; eval(&logic, &[T, T]), values[3]);
    Ok(())
}

#[test]
fn a_table_reads_bits_of_the_design_and_of_its_own(rt: HostRuntime) -> Result<(), Fail> {
    let alloc = rt.alloc();
    is_resolved(&rt, alloc, b"x", [F, F, T, T])?;
    is_resolved(&rt, alloc, b"@q & ~x", [F, T, F, F])?;
    is_resolved(&rt, alloc, b"x ^ 1 | @q", [T, T, F, T])?;
    is_resolved(&rt, alloc, b"k ^ (x | 0) & @q", [T, T, T, F])
}

/// A table's expression means no bit.
fn is_not_resolved(rt: &impl Abort, alloc: Global, text: &[u8]) -> Result<(), Fail> {
    let expr = table_expression(alloc, text)?;
    let scope = scope(alloc)?;
    assert!(rt; matches!(resolve(alloc, &expr, &scope), Err(ElabError::NotBuilt)));
    Ok(())
}

#[test]
fn a_table_reads_no_more_than_bits_in_its_scope(rt: HostRuntime) -> Result<(), Fail> {
    let alloc = rt.alloc();
    is_not_resolved(&rt, alloc, b"q")?;
    is_not_resolved(&rt, alloc, b"@x")?;
    is_not_resolved(&rt, alloc, b"@q.x")?;
    is_not_resolved(&rt, alloc, b"x + @q")?;
    is_not_resolved(&rt, alloc, b"x & 2")?;
    is_not_resolved(&rt, alloc, b"1'1")?;
    is_not_resolved(&rt, alloc, b"x.0")
}

#[test]
fn a_name_is_new_once(rt: HostRuntime) -> Result<(), Fail> {
    let alloc = rt.alloc();
    let mut names = BTreeSet::new(alloc);
    assert!(rt; add_name(alloc, &mut names, "q")?);
    assert!(rt; add_name(alloc, &mut names, "q0")?);
    assert!(rt; !add_name(alloc, &mut names, "q")?);
    assert!(rt; names.contains("q") && names.contains("q0") && !names.contains("r"));
    assert_eq!(rt; names.len(), 2);
    Ok(())
}
