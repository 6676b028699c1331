ghost use Rattle.std.specs.Prelude.{◌≡◌, OnOk, IfOk, map};
ghost use Rattle.lola_tree.specs.Tree.{actual_tree, stmt_tree};
ghost use Rattle.lola_unfold.specs.Tables.{calls_in, no_calls, calls_with, calls_with_stmt, calls_with_all, args_or_none};

use indexmap::IndexMap;
use lola_bits::Memory;
use lola_tree::{Actual, Module, Stmt};
use std::alloc::Global;

/// The arguments of the instances of a module, by their names: those of the first call of a name.
#[derive(Drop)]
pub struct Calls<'a> {
    entries: IndexMap<String, &'a [Actual]>,
}

impl<'a> Calls<'a> {
    /// No call. Takes no memory.
    fn new(alloc: Global) -> Calls<'a>
        ensures { calls_in result ≡ no_calls }
    {
        Calls {
            entries: IndexMap::new(alloc),
        }
    }

    fn add(&mut self, alloc: Global, name: &str, args: &'a [Actual]) -> Result<(), Memory>
        ensures { OnOk result (calls_in self.new ≡ calls_with (calls_in self.old) name.now (map actual_tree args.now)) }
    {
        if self.entries.get(name).is_none() {
            let name = String::from_str(alloc, name)?;
            self.entries.insert(name, args)?;
        }
        Ok(())
    }

    fn add_stmt(&mut self, alloc: Global, stmt: &'a Stmt) -> Result<(), Memory>
        ensures { OnOk result (calls_in self.new ≡ calls_with_stmt (calls_in self.old) (stmt_tree stmt.now)) }
    {
        match stmt {
            Stmt::Call { name, args, at: _ } => self.add(alloc, name.text(), args.items()),
            _ => Ok(()),
        }
    }

    /// The arguments of an instance; none where it isn't called.
    pub fn args(&self, name: &str) -> &'a [Actual]
        ensures { map actual_tree result.now ≡ args_or_none (calls_in self.now name.now) }
    {
        match self.entries.get(name).copied() {
            Some(args) => args,
            None => &[],
        }
    }
}

/// The calls of a module.
pub fn calls_of<'a>(alloc: Global, module: &'a Module) -> Result<Calls<'a>, Memory>
    ensures { IfOk result (λ calls. calls_in calls ≡ calls_with_all no_calls (map stmt_tree «module».now.body)) }
{
    let mut calls = Calls::new(alloc);
    for stmt in module.body.items() {
        calls.add_stmt(alloc, stmt)?;
    }
    Ok(calls)
}
