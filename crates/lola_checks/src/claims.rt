ghost use Rattle.std.specs.Prelude.{◌≡◌, true, map, length, IfOk};
ghost use Rattle.std.specs.List.{AllByRecursion};
ghost use Rattle.lola_alg.specs.Algebra.{Answers, Kept};
ghost use Rattle.lola_alg.specs.Steps.{Went};
ghost use Rattle.lola_flat.specs.Value.{env, mapped};
ghost use Rattle.lola_eval.specs.Means.{EnvKnown, numbers};
ghost use Rattle.lola_checks.specs.Tree.{atom_tree, claim_tree, check_tree};
ghost use Rattle.lola_checks.specs.Holds.{atom_holds, claim_holds, violated};
ghost use Rattle.lola_checks.specs.Steps.{atom_step, join_step, atoms_from, claim_step, premises_from, check_step};
ghost use Rattle.lola_checks.specs.Suits.{AtomSuits, ClaimSuits, CheckSuits};

use crate::arrays::lower_same;
use crate::check::{Atom, Check, Claim};
use crate::compare::{lower_alike, lower_bit};
use crate::patterns::lower_fits;
use lola_alg::{AlgError, Algebra};
use lola_bits::Seq;
use std::alloc::Global;

/// How claims are folded: all of them, or any.
#[derive(Clone, Copy, Debug)]
pub(crate) enum Join {
    And,
    Or,
}

/// The bit of a claim that isn't made of others, case by case.
fn atom_bit<A: Algebra>(
    alloc: Global,
    alg: &mut A,
    atom: &Atom,
    signals: &[Seq<Seq<A::Bit>>],
    outside: &[Seq<A::Bit>],
) -> Result<A::Bit, AlgError>
    requires suits { AtomSuits (mapped length (env signals.now outside.now)) (atom_tree atom.now) }
    requires known { EnvKnown A.meaning (A.state alg.old) (env signals.now outside.now) }
    ensures steps { Went (λ b. b) (atom_step A.calls (env signals.now outside.now) (atom_tree atom.now) (A.state alg.old)) (A.state alg.new) result }
{
    match atom {
        Atom::One { expr } => lower_bit(alloc, alg, expr, signals, outside),
        Atom::Equal { left, right } => lower_alike(alloc, alg, left, right, signals, outside),
        Atom::SameElements { left, right } => {
            lower_same(alloc, alg, left, right, signals, outside)
        }
        Atom::Fits { word, pattern } => {
            lower_fits(alloc, alg, word, pattern.items(), signals, outside)
        }
    }
}

/// The bit of a claim that isn't made of others.
fn lower_atom<A: Algebra>(
    alloc: Global,
    alg: &mut A,
    atom: &Atom,
    signals: &[Seq<Seq<A::Bit>>],
    outside: &[Seq<A::Bit>],
) -> Result<A::Bit, AlgError>
    requires suits { AtomSuits (mapped length (env signals.now outside.now)) (atom_tree atom.now) }
    requires known { EnvKnown A.meaning (A.state alg.old) (env signals.now outside.now) }
    ensures steps { Went (λ b. b) (atom_step A.calls (env signals.now outside.now) (atom_tree atom.now) (A.state alg.old)) (A.state alg.new) result }
    ensures means { IfOk result (λ b. Answers A.meaning (A.state alg.old) (A.state alg.new, b) (λ v. atom_holds (mapped length (env signals.now outside.now)) (numbers A.meaning (A.state alg.old) v (env signals.now outside.now)) (atom_tree atom.now))) }
{
    match atom_bit(alloc, alg, atom, signals, outside) {
        Ok(bit) => Ok(bit),
        Err(error) => Err(error),
    }
}

/// A bit so far and another.
fn joined<A: Algebra>(alg: &mut A, join: Join, so: A::Bit, bit: A::Bit) -> Result<A::Bit, AlgError>
    requires so { A.meaning.knows (A.state alg.old) so ≡ true }
    requires bit { A.meaning.knows (A.state alg.old) bit ≡ true }
    ensures steps { Went (λ b. b) (join_step A.calls join so bit (A.state alg.old)) (A.state alg.new) result }
    ensures kept { Kept A.meaning (A.state alg.old) (A.state alg.new) result }
{
    match join {
        Join::And => alg.and(so, bit),
        Join::Or => {
            let first = alg.not(so);
            let second = alg.not(bit);
            match alg.and(first, second) {
                Ok(neither) => Ok(alg.not(neither)),
                Err(error) => Err(error),
            }
        }
    }
}

/// A bit so far and each of some claims, one after another.
fn lower_atoms<A: Algebra>(
    alloc: Global,
    alg: &mut A,
    join: Join,
    atoms: &[Atom],
    first: A::Bit,
    signals: &[Seq<Seq<A::Bit>>],
    outside: &[Seq<A::Bit>],
) -> Result<A::Bit, AlgError>
    requires suits { AllByRecursion (AtomSuits (mapped length (env signals.now outside.now))) (map atom_tree atoms.now) }
    requires known { EnvKnown A.meaning (A.state alg.old) (env signals.now outside.now) }
    requires first { A.meaning.knows (A.state alg.old) first ≡ true }
    ensures steps { Went (λ b. b) (atoms_from A.calls join (env signals.now outside.now) (map atom_tree atoms.now) first (A.state alg.old)) (A.state alg.new) result }
{
    let mut so = first;
    for at in 0..atoms.len() {
        let bit = match lower_atom(alloc, alg, &atoms[at], signals, outside) {
            Ok(bit) => bit,
            Err(error) => return Err(error),
        };
        so = match joined(alg, join, so, bit) {
            Ok(so) => so,
            Err(error) => return Err(error),
        };
    }
    Ok(so)
}

/// The bit of a claim, case by case.
fn claim_bit<A: Algebra>(
    alloc: Global,
    alg: &mut A,
    claim: &Claim,
    signals: &[Seq<Seq<A::Bit>>],
    outside: &[Seq<A::Bit>],
) -> Result<A::Bit, AlgError>
    requires suits { ClaimSuits (mapped length (env signals.now outside.now)) (claim_tree claim.now) }
    requires known { EnvKnown A.meaning (A.state alg.old) (env signals.now outside.now) }
    ensures steps { Went (λ b. b) (claim_step A.calls (env signals.now outside.now) (claim_tree claim.now) (A.state alg.old)) (A.state alg.new) result }
{
    match claim {
        Claim::Alone { atom } => lower_atom(alloc, alg, atom, signals, outside),
        Claim::All { atoms } => {
            let one = alg.constant(true);
            lower_atoms(alloc, alg, Join::And, atoms.items(), one, signals, outside)
        }
        Claim::Any { atoms } => {
            let zero = alg.constant(false);
            lower_atoms(alloc, alg, Join::Or, atoms.items(), zero, signals, outside)
        }
    }
}

/// The bit of a claim: by its steps, so that it is 1 under every assignment exactly where the claim holds. `signals`
/// has the vectors of each signal that the claim reads, by its number, and `outside` those from outside; a caller may
/// put any values behind one another in these tables. `Full` comes exactly where one of the steps has no place for
/// its gate, and `Memory` for want of memory.
pub fn lower_claim<A: Algebra>(
    alloc: Global,
    alg: &mut A,
    claim: &Claim,
    signals: &[Seq<Seq<A::Bit>>],
    outside: &[Seq<A::Bit>],
) -> Result<A::Bit, AlgError>
    requires suits { ClaimSuits (mapped length (env signals.now outside.now)) (claim_tree claim.now) }
    requires known { EnvKnown A.meaning (A.state alg.old) (env signals.now outside.now) }
    ensures steps { Went (λ b. b) (claim_step A.calls (env signals.now outside.now) (claim_tree claim.now) (A.state alg.old)) (A.state alg.new) result }
    ensures means { IfOk result (λ b. Answers A.meaning (A.state alg.old) (A.state alg.new, b) (λ v. claim_holds (mapped length (env signals.now outside.now)) (numbers A.meaning (A.state alg.old) v (env signals.now outside.now)) (claim_tree claim.now))) }
{
    match claim_bit(alloc, alg, claim, signals, outside) {
        Ok(bit) => Ok(bit),
        Err(error) => Err(error),
    }
}

/// A bit so far and each of some premises, one after another.
fn lower_premises<A: Algebra>(
    alloc: Global,
    alg: &mut A,
    claims: &[Claim],
    first: A::Bit,
    signals: &[Seq<Seq<A::Bit>>],
    outside: &[Seq<A::Bit>],
) -> Result<A::Bit, AlgError>
    requires suits { AllByRecursion (ClaimSuits (mapped length (env signals.now outside.now))) (map claim_tree claims.now) }
    requires known { EnvKnown A.meaning (A.state alg.old) (env signals.now outside.now) }
    requires first { A.meaning.knows (A.state alg.old) first ≡ true }
    ensures steps { Went (λ b. b) (premises_from A.calls (env signals.now outside.now) (map claim_tree claims.now) first (A.state alg.old)) (A.state alg.new) result }
    ensures kept { Kept A.meaning (A.state alg.old) (A.state alg.new) result }
{
    let mut so = first;
    for at in 0..claims.len() {
        let bit = match lower_claim(alloc, alg, &claims[at], signals, outside) {
            Ok(bit) => bit,
            Err(error) => return Err(error),
        };
        so = match alg.and(so, bit) {
            Ok(so) => so,
            Err(error) => return Err(error),
        };
    }
    Ok(so)
}

/// The bit of a check, by its steps.
fn check_bit<A: Algebra>(
    alloc: Global,
    alg: &mut A,
    check: &Check,
    signals: &[Seq<Seq<A::Bit>>],
    outside: &[Seq<A::Bit>],
) -> Result<A::Bit, AlgError>
    requires suits { CheckSuits (mapped length (env signals.now outside.now)) (check_tree check.now) }
    requires known { EnvKnown A.meaning (A.state alg.old) (env signals.now outside.now) }
    ensures steps { Went (λ b. b) (check_step A.calls (env signals.now outside.now) (check_tree check.now) (A.state alg.old)) (A.state alg.new) result }
{
    let one = alg.constant(true);
    let prem = match lower_premises(alloc, alg, check.premises.items(), one, signals, outside) {
        Ok(prem) => prem,
        Err(error) => return Err(error),
    };
    let goal = match lower_claim(alloc, alg, &check.goal, signals, outside) {
        Ok(goal) => goal,
        Err(error) => return Err(error),
    };
    let other = alg.not(goal);
    alg.and(prem, other)
}

/// The bit that says where a check is violated: by its steps, so that it is 1 under every assignment exactly where all
/// premises hold and the goal doesn't. The premises are made and folded in one after another, and then the goal is
/// made. `signals` has the vectors of each signal that the check reads, by its number, and `outside` those from
/// outside; a caller may put any values behind one another in these tables. `Full` comes exactly where one of the
/// steps has no place for its gate, and `Memory` for want of memory.
pub fn lower_check<A: Algebra>(
    alloc: Global,
    alg: &mut A,
    check: &Check,
    signals: &[Seq<Seq<A::Bit>>],
    outside: &[Seq<A::Bit>],
) -> Result<A::Bit, AlgError>
    requires suits { CheckSuits (mapped length (env signals.now outside.now)) (check_tree check.now) }
    requires known { EnvKnown A.meaning (A.state alg.old) (env signals.now outside.now) }
    ensures steps { Went (λ b. b) (check_step A.calls (env signals.now outside.now) (check_tree check.now) (A.state alg.old)) (A.state alg.new) result }
    ensures means { IfOk result (λ b. Answers A.meaning (A.state alg.old) (A.state alg.new, b) (λ v. violated (mapped length (env signals.now outside.now)) (numbers A.meaning (A.state alg.old) v (env signals.now outside.now)) (check_tree check.now))) }
{
    match check_bit(alloc, alg, check, signals, outside) {
        Ok(bit) => Ok(bit),
        Err(error) => Err(error),
    }
}
