use lola_tree::{Const, Local, Port};

/// What a name is declared as.
#[derive(Clone, Copy, Debug)]
pub enum Declared<'a> {
    Port(&'a Port),
    Const(&'a Const),
    Local(&'a Local),
}
