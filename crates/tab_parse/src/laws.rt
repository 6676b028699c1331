ghost use Rattle.std.specs.Prelude.{◌≡◌, List};
ghost use Rattle.lola_parse.specs.Symbols.{Item};
ghost use Rattle.tab_parse.specs.Placed.{TableAt};
ghost use Rattle.tab_parse.specs.Grammar.{SpellsTable};

use lola_parse::{one_expression, one_shape};

/// One table: tokens spell at most one table, places included.
pub fn one_table()
    ensures { (all : List Item) (T U : TableAt) → SpellsTable all T → SpellsTable all U → T ≡ U }
{
    one_expression();
    one_shape();
}
