ghost use Rattle.std.specs.Prelude.{◌≡◌, List};
ghost use Rattle.lola_parse.specs.Symbols.{Item};
ghost use Rattle.small_tree.specs.Table.{TableTree};
ghost use Rattle.small_read.specs.Grammar.{SpellsTable};

use lola_parse::{one_expression, one_shape};

/// Tokens spell at most one table.
pub fn one_table()
    ensures { (all : List Item) (T U : TableTree) → SpellsTable all T → SpellsTable all U → T ≡ U }
{
    one_expression();
    one_shape();
}
