//! The row of an import, by its number and by its name.

ghost use Rattle.std.specs.Prelude.{◌≡◌, ◌≤◌, map};
ghost use Rattle.std.specs.Option.{option_map};
ghost use Rattle.import_table.specs.Table.{rows, row_of, seen, number_of};

use crate::laws::table_laws;
use crate::rows::{IMPORTS, ImportRow};
use log_fields::names::find_import;

/// The row of a number in the table.
fn row_in(table: &[ImportRow; 64], n: u8) -> &ImportRow
    requires table { map seen table.now ≡ rows }
    requires number { (1 ≤ n) × (n ≤ 64) }
    ensures { seen result.now ≡ row_of n }
{
    &table[n as usize - 1]
}

/// The row of import n, 1 to 64.
pub fn import_row(n: u8) -> &'static ImportRow
    requires { (1 ≤ n) × (n ≤ 64) }
    ensures { seen result.now ≡ row_of n }
{
    row_in(&IMPORTS, n)
}

/// The row of the import of a name: none where no import has it.
#[tactic(auto, unfolding(crate::specs::Table::number_of))]
pub fn import_named(name: &[u8]) -> Option<&'static ImportRow>
    ensures { option_map (λ r. seen r.now) result ≡ option_map row_of (number_of name.now) }
{
    table_laws();
    let n = find_import(name)?;
    Some(import_row(n))
}
