ghost use Rattle.std.specs.Prelude.{List};
ghost use Rattle.lola_tree.specs.Tree.{SourceTree};
ghost use Rattle.lola_parse.specs.Symbols.{Item};
ghost use Rattle.lola_parse.specs.Design.{SpellsSource};
ghost use Rattle.lola_regular.specs.Written.{IsWritten};

/// Each design that tokens spell is written so: each reference is one name, each concatenation has a part,
/// and no operator between two is `~` or a choice.
pub fn texts_are_written()
    ensures { (items : List Item) (S : SourceTree) → SpellsSource items S → IsWritten S }
{}
