// Where the next byte goes.
ghost use Rattle.std.specs.Prelude.{◌≡◌};
ghost use Rattle.b2_print.specs.Columns as spec;

/// The column after a byte. It stops at 65,535.
fn next_column(column: u16, byte: u8) -> u16
    ensures { result ≡ spec.next_column column byte }
{
    match byte {
        b'\n' | b'\r' => 0,
        0..=31 => column,
        _ => column.saturating_add(1),
    }
}

/// The column after a text that begins at a column; columns stop at 65,535.
pub fn column_after(column: u16, text: &[u8]) -> u16
    ensures { result ≡ spec.column_after column text.now }
{
    let mut at = column;
    for byte in text {
        at = next_column(at, *byte);
    }
    at
}

/// Whether the column after one of the bytes is above the width.
pub(crate) fn passes(width: u16, column: u16, text: &[u8]) -> bool
    ensures { result ≡ spec.passes width column text.now }
{
    let mut at = column;
    for byte in text {
        at = next_column(at, *byte);
        if at > width {
            return true;
        }
    }
    false
}
