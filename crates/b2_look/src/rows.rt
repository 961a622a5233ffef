// The rows of a screen as lines.
ghost use Rattle.std.specs.Prelude.{◌≡◌, ◌++◌, IfOk, OnOk};
ghost use Rattle.b2_look.specs.Rows.{lines_shown, row_line, without_last_blanks};

use b2_base::NoMemory;
use b2_screen::Screen;
use std::alloc::Global;

/// How many rows a screen has.
const ROWS: u8 = 24;

/// How many bytes its lines have at most: 80 cells and a newline each.
const MOST_BYTES: usize = 1_944;

/// A row without the blanks at its end.
fn without_last_blanks(row: &[u8]) -> &[u8]
    ensures { result.now ≡ without_last_blanks row.now }
{
    let mut length = row.len();
    while length > 0 && row[length - 1] == b' ' {
        length -= 1;
    }
    &row[..length]
}

/// Appends a row without the blanks at its end, and a newline.
fn push_row(row: &[u8], into: &mut Vec<u8>) -> Result<(), NoMemory>
    ensures { OnOk result (into.new.items ≡ into.old.items ++ row_line row.now) }
{
    into.extend_from_slice(without_last_blanks(row))?;
    into.push(b'\n')?;
    Ok(())
}

/// The lines of a screen.
pub fn screen_lines(alloc: Global, screen: &Screen) -> Result<Vec<u8>, NoMemory>
    ensures { IfOk result (λ lines. lines.items ≡ lines_shown screen.now) }
{
    let mut lines = Vec::with_capacity(alloc, MOST_BYTES)?;
    for row in 0..ROWS {
        push_row(screen.row(row), &mut lines)?;
    }
    Ok(lines)
}
