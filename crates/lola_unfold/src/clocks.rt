ghost use Rattle.std.specs.Prelude.{◌≡◌, false, if◌then◌else◌, ◌∷◌, [], OnOk, map, drop, get_or};
ghost use Rattle.lola_tree.specs.Tree.{tree, actual_tree};
ghost use Rattle.lola_tree.specs.design.Calls.{bare_name, bare_path};
ghost use Rattle.lola_tree.specs.design.Clocks.{passed_clocks};
ghost use Rattle.lola_unfold.specs.Tables.{clocks_found, no_clock, clocks_with};

use indexmap::IndexSet;
use lola_bits::{Memory, Name};
use lola_tree::{Actual, Expr};
use lola_width::ref_name;
use std::alloc::Global;

/// The names of clocks of a module.
#[derive(Drop)]
pub struct Clocks {
    names: IndexSet<String>,
}

impl Clocks {
    /// No clock. Takes no memory.
    pub fn new(alloc: Global) -> Clocks
        ensures { clocks_found result ≡ no_clock }
    {
        Clocks {
            names: IndexSet::new(alloc),
        }
    }

    /// Whether a name is a clock.
    pub fn has(&self, name: &str) -> bool
        ensures { result ≡ clocks_found self.now name.now }
    {
        self.names.contains(name)
    }

    /// Adds a clock.
    pub fn add(&mut self, alloc: Global, name: &str) -> Result<(), Memory>
        ensures { OnOk result (clocks_found self.new ≡ clocks_with (clocks_found self.old) (name.now ∷ [])) }
    {
        let name = String::from_str(alloc, name)?;
        let _is_new = self.names.insert(name)?;
        Ok(())
    }
}

/// The name that an expression is, or no letter where it is no bare name.
pub fn bare_name(expr: &Expr) -> &str
    ensures { result.now ≡ bare_name (tree expr.now) }
{
    match expr {
        Expr::Whole { of } => ref_name(of),
        _ => "",
    }
}

/// The path that an expression is, or none where it is no bare name.
pub fn bare_path(expr: &Expr) -> &[Name]
    ensures { result.now ≡ bare_path (tree expr.now) }
{
    match expr {
        Expr::Whole { of } => of.path.items(),
        _ => &[],
    }
}

/// Whether the first of some ports is a clock.
fn first_is_clock(ports: &[bool]) -> bool
    ensures { result ≡ get_or ports.now 0 false }
{
    match ports {
        [first, ..] => *first,
        [] => false,
    }
}

/// The ports behind the first.
fn later_ports(ports: &[bool]) -> &[bool]
    ensures { result.now ≡ drop 1 ports.now }
{
    match ports {
        [_, later @ ..] => later,
        [] => &[],
    }
}

/// Adds an argument, where its port is a clock.
fn add_where(alloc: Global, clocks: &mut Clocks, is_clock: bool, arg: &Expr) -> Result<(), Memory>
    ensures { OnOk result (clocks_found clocks.new ≡ clocks_with (clocks_found clocks.old) (if is_clock then bare_name (tree arg.now) ∷ [] else [])) }
{
    if is_clock {
        clocks.add(alloc, bare_name(arg))?;
    }
    Ok(())
}

/// Adds the names that stand as arguments of clock ports.
pub fn add_passed(
    alloc: Global,
    clocks: &mut Clocks,
    ports: &[bool],
    args: &[Actual],
) -> Result<(), Memory>
    ensures { OnOk result (clocks_found clocks.new ≡ clocks_with (clocks_found clocks.old) (passed_clocks ports.now (map actual_tree args.now))) }
{
    let mut rest = ports;
    for arg in args {
        add_where(alloc, clocks, first_is_clock(rest), &arg.value)?;
        rest = later_ports(rest);
    }
    Ok(())
}
