ghost use Rattle.std.specs.Prelude.{ℕ, ◌-◌, List};
ghost use Rattle.lola_scan.specs.declared.token.Token.{Token};
ghost use Rattle.lola_scan.specs.Tokens.{Spells};
ghost use Rattle.lola_parse.specs.declared.symbol.Language.TheVariants.{Design};
ghost use Rattle.lola_parse.specs.Symbols.{items_of};
ghost use Rattle.lola_parse.specs.Design.{SpellsSource, Reads};
ghost use Rattle.lola_tree.specs.Print.{expr_text, source_text};
ghost use Rattle.lola_tree.specs.Tree.{Tree, SourceTree};
ghost use Rattle.lola_reread.specs.Again.{IsDesignAgain, IsExpressionAgain};

use lola_scan::spaced_tokens;

/// A design that some text spells is spelled again by the text that it is printed as, up to places. So
/// `scan` and `parse`, on that text, answer this design up to places, where it has at most
/// 1,048,576 bytes.
pub fn printed_designs()
    ensures { (text : List ℕ) (tokens : List Token) (S : SourceTree) → Spells 0 text tokens → SpellsSource (items_of Design text tokens) S → IsDesignAgain (source_text S) S }
{
    spaced_tokens();
}

/// An expression that stands in some text is spelled again by the text that it is printed as, up to
/// places, and with no more tokens: so parentheses stand only where the grammar needs them.
pub fn printed_expressions()
    ensures { (text : List ℕ) (tokens : List Token) (from : ℕ) (e : Tree) (n : ℕ) → Spells 0 text tokens → Reads Design text tokens from e n → IsExpressionAgain (expr_text e) e (n - from) }
{
    spaced_tokens();
}
