ghost use Rattle.lola_width.specs.Sized.{IsWellSized};
ghost use Rattle.lola_elab.specs.Built.{IsBuiltSource};
ghost use Rattle.lola_tree.specs.Tree.{SourceTree};
ghost use Rattle.lola_tree.specs.Value.{Values};
ghost use Rattle.lola_tree.specs.Cycle.{IsState, IsGiven, Cycle, Next};
ghost use Rattle.lola_elab.specs.Small.{IsSmallSource};
ghost use Rattle.lola_elab.specs.Elaborated.{HasOneCycle};

/// In a design of the small form each state and input have exactly one cycle, and a state stands behind it.
pub fn one_cycle()
    ensures { (S : SourceTree) → IsSmallSource S → (s inp : Values) → IsState S s → IsGiven S inp → HasOneCycle S s inp }
{}

/// What stands behind a cycle of a design in the small form is a state again.
pub fn next_is_a_state()
    ensures { (S : SourceTree) (s inp v s' : Values) → IsSmallSource S → IsState S s → IsGiven S inp → Cycle S s inp v → Next S v s' → IsState S s' }
{}

/// A well sized design of the forms that are built is in the small form, and a design in the small form
/// is of the forms that are built.
pub fn built_is_small()
    ensures small { (S : SourceTree) → IsWellSized S → IsBuiltSource S → IsSmallSource S }
    ensures built { (S : SourceTree) → IsSmallSource S → IsBuiltSource S }
{}
