ghost use Rattle.std.specs.Prelude.{ℕ, ◌≡◌, List};
ghost use Rattle.lola_tree.specs.declared.named.Shape.{Shape};
ghost use Rattle.lola_tree.specs.Tree.{Tree, SourceTree};
ghost use Rattle.lola_parse.specs.declared.symbol.Language.{Language as TheLanguage};
ghost use Rattle.lola_parse.specs.Symbols.{Item};
ghost use Rattle.lola_parse.specs.Design.{Outermost, Shaped, SpellsSource};
ghost use Rattle.lola_parse.specs.Read.{Stops};

/// One expression: where two expressions stand at the front of the same tokens, and each ends where no
/// token goes on, they have one tree, and the same tokens stand behind them.
pub fn one_expression()
    ensures { (language : TheLanguage) (all : List Item) (e f : Tree) (rest more : List Item) → Outermost language all e rest → Stops rest → Outermost language all f more → Stops more → (e ≡ f) × (rest ≡ more) }
{}

/// One type: where two types stand at the front of the same tokens they are the same, and the same
/// tokens stand behind them.
pub fn one_shape()
    ensures { (all : List Item) (t u : Shape) (rest more : List Item) → Shaped all t rest → Shaped all u more → (t ≡ u) × (rest ≡ more) }
{}

/// One tree: tokens spell at most one tree of a design.
pub fn one_tree()
    ensures { (all : List Item) (t u : SourceTree) → SpellsSource all t → SpellsSource all u → t ≡ u }
{}
