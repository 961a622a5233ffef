// Sequences of bytes for the screen as a whole.
ghost use Rattle.std.specs.Prelude.{◌≡◌, ◌≤◌, ◌<◌};
ghost use Rattle.b2_print.specs.Screen as spec;

use b2_base::lexical::ESCAPE;

/// How many rows a screen has.
pub const SCREEN_ROWS: u8 = 24;

/// How many columns a screen has.
pub const SCREEN_COLUMNS: u8 = 80;

/// The cursor at a row and a column of the screen.
pub(crate) fn placing_bytes(row: u8, column: u8) -> [u8; 4]
    requires row { row < spec.screen_rows }
    requires column { column < spec.screen_columns }
    ensures { result ≡ spec.placing_bytes row column }
{
    [ESCAPE, b'A', b' ' + row, b' ' + column]
}

/// A box of rows and columns, with its first cell at the cursor.
pub(crate) fn outline_bytes(rows: u8, columns: u8) -> [u8; 4]
    requires rows { rows ≤ spec.screen_rows }
    requires columns { columns ≤ spec.screen_columns }
    ensures { result ≡ spec.outline_bytes rows columns }
{
    [ESCAPE, b'B', b' ' + rows, b' ' + columns]
}
