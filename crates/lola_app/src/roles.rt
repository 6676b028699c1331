ghost use Rattle.std.specs.Prelude.{◌≡◌, map, string_bytes, IfOk};
ghost use Rattle.small_tree.specs.Table.{table_tree};
ghost use Rattle.lola_app.specs.Shown.{AreRoles};
ghost use Rattle.lola_app.specs.Small.{AreSmallRoles};

use crate::fault::ReadError;
use crate::names::place_of;
use small_tree::Table;

/// The leaves of RESET's port, and of LOADED's where there is that role.
#[derive(Clone, Copy, Debug, PartialEq, Eq)]
pub struct Roles {
    pub reset: usize,
    pub loaded: Option<usize>,
}

/// The leaves of the roles of a table. NotBuilt where a role's port is no input but the clock, or
/// both roles have one port.
pub fn roles_of(table: &Table, inputs: &[String]) -> Result<Roles, ReadError>
    ensures ok { IfOk result (λ roles. AreRoles (map string_bytes inputs.now) (table_tree table.now) roles) }
    ensures none { result ≡ Err ReadError.NotBuilt → AreSmallRoles (map string_bytes inputs.now) (table_tree table.now) → ⊥ }
{
    let Some(reset) = place_of(inputs, table.reset.port.text()) else {
        return Err(ReadError::NotBuilt);
    };
    match &table.loaded {
        Some(port) => {
            if port.text() == table.reset.port.text() {
                return Err(ReadError::NotBuilt);
            }
            match place_of(inputs, port.text()) {
                Some(leaf) => Ok(Roles {
                    reset,
                    loaded: Some(leaf),
                }),
                None => Err(ReadError::NotBuilt),
            }
        }
        None => Ok(Roles {
            reset,
            loaded: None,
        }),
    }
}
