ghost use Rattle.std.specs.Prelude.{◌≡◌, ◌↔◌, ℕ, [], ◌∷◌, List, map, IsTrue, MatchOption};
ghost use Rattle.lola_tree.specs.Tree.{tree};
ghost use Rattle.small_tree.specs.Table.{class_tree, phase_tree, ClassTree};
ghost use Rattle.lola_app.specs.Classes.{IsPlainPhase, IsTaken};
ghost use Rattle.lola_app.specs.Small.{IsOne};

use lola_tree::Expr;
use small_tree::{Class, Phase};

/// The class of a table that has one.
pub fn only_class(classes: &[Class]) -> Option<&Class>
    ensures { MatchOption result ((class : ClassTree) → map class_tree classes.now ≡ class ∷ [] → ⊥) (λ class. map class_tree classes.now ≡ class_tree class.now ∷ []) }
{
    match classes {
        [class] => Some(class),
        _ => None,
    }
}

/// The place of a pattern that has one.
pub fn only_place(pattern: &[u8]) -> Option<u8>
    ensures { MatchOption result ((place : ℕ) → pattern.now ≡ place ∷ [] → ⊥) (λ place. pattern.now ≡ place ∷ []) }
{
    match pattern {
        [place] => Some(*place),
        _ => None,
    }
}

/// The leaf that the one phase of a class takes, where it takes one. None where the class has
/// several phases or a LINK, or takes a word without the role for it.
pub fn taken_leaf(phases: &[Phase], loaded: Option<usize>) -> Option<Option<usize>>
    ensures { MatchOption result (IsPlainPhase (map phase_tree phases.now) loaded → ⊥) (λ taken. IsTaken (map phase_tree phases.now) loaded taken) }
{
    match phases {
        [phase] => taken_by(phase, loaded),
        _ => None,
    }
}

fn taken_by(phase: &Phase, loaded: Option<usize>) -> Option<Option<usize>>
    ensures { MatchOption result (IsPlainPhase (phase_tree phase.now ∷ []) loaded → ⊥) (λ taken. IsTaken (phase_tree phase.now ∷ []) loaded taken) }
{
    if !is_one(&phase.link) {
        return None;
    }
    if phase.loads {
        match loaded {
            Some(leaf) => Some(Some(leaf)),
            None => None,
        }
    } else {
        Some(None)
    }
}

/// Whether an expression is the number 1 without a width.
fn is_one(expr: &Expr) -> bool
    ensures { IsTrue result ↔ IsOne (tree expr.now) }
{
    match expr {
        Expr::Number {
            value,
            width,
            at: _,
        } => match width {
            None => *value == 1,
            Some(_) => false,
        },
        _ => false,
    }
}
