ghost use Rattle.std.specs.Prelude.{◌≡◌, ℕ, List};
ghost use Rattle.std.specs.List.{AllByRecursion};
ghost use Rattle.lola_bits.specs.declared.op.Op.{Op as Operator};
ghost use Rattle.lola_flat.specs.declared.expr.FExpr.{FExpr as Expr};
ghost use Rattle.lola_flat.specs.Tree.{expr_tree, expr_trees, ExprTree, FlatTree, join, apply};
ghost use Rattle.lola_flat.specs.Value.{Env, width, value, Fits, reads};
ghost use Rattle.lola_flat.specs.Signals.{HaveSame};
ghost use Rattle.lola_flat.specs.Formed.{IsFormed};
ghost use Rattle.lola_flat.specs.Cycle.{IsCycle};
ghost use Rattle.lola_flat.specs.Sample.{sample};

use crate::expr::FExpr;

/// The parts of a join and the arguments of an operator are those of the list that holds them.
pub fn lists_are_trees()
    ensures join { (parts : List Expr) → expr_tree (FExpr.Join parts) ≡ join (expr_trees parts) }
    ensures apply { (o : Operator) (args : List Expr) → expr_tree (FExpr.Apply o args) ≡ apply o (expr_trees args) }
{}

/// The width, the number and the fit of an expression hang on what it reads alone.
pub fn hangs_on_reads()
    ensures width { (W V : Env ℕ) (e : ExprTree) → AllByRecursion (HaveSame W V) (reads e) → width W e ≡ width V e }
    ensures value { (W V N M : Env ℕ) (e : ExprTree) → AllByRecursion (HaveSame W V) (reads e) → AllByRecursion (HaveSame N M) (reads e) → value W N e ≡ value V M e }
    ensures fits { (W V : Env ℕ) (e : ExprTree) → AllByRecursion (HaveSame W V) (reads e) → Fits W e → Fits V e }
{}

/// A well formed flat design has at most one cycle for what it is given.
pub fn at_most_one_cycle()
    ensures { (F : FlatTree) (given : List (List ℕ)) (outside : List ℕ) (N M : List (List ℕ)) → IsFormed F → IsCycle F given outside N → IsCycle F given outside M → N ≡ M }
{}

/// A design with a clock, an input, a pad, a wire, a register and an array is well formed.
pub fn sample_is_formed()
    ensures { IsFormed sample }
{}
