// Rows that tokens name.
ghost use Rattle.std.specs.Prelude.{◌≡◌, IfSome};
ghost use Rattle.px_meta.specs.Rows.{IsRow};
ghost use Rattle.px_link_tokens.specs.Named.{row_at};

use px_meta::some_row;
use px_tables::Tables;

/// The row that a token names, where it names one of the table.
pub fn row_at(tables: &Tables, table: u8, token: u32) -> Option<u32>
    ensures row { result ≡ row_at tables.now table token }
    ensures there { IfSome result (IsRow tables.now table) }
{
    if token / 0x100_0000 == u32::from(table) {
        some_row(tables, table, token % 0x100_0000)
    } else {
        None
    }
}
