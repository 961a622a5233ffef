// A row, and what is said of one that gives something else.
use crate::cells::{Cells, trimmed};
use std::alloc::{AllocError, Global};
use std::io;

/// A row of a table.
#[derive(Clone, Copy)]
struct Row<'a> {
    /// The name of the call.
    call: &'a [u8],
    /// What it is called with.
    cells: Cells<'a>,
    /// What it is to give.
    wanted: &'a [u8],
}

impl<'a> Row<'a> {
    /// The row that a line is, or None for an empty line and for one that begins with `#`.
    fn of(line: &'a [u8]) -> Option<Row<'a>> {
        let text = trimmed(line);
        if text.is_empty() || text[0] == b'#' {
            return None;
        }
        let (before, wanted) = last_cell(text);
        let mut cells = Cells::of(before);
        let call = cells.next();
        Some(Row {
            call,
            cells,
            wanted,
        })
    }

    /// What is said of the row in the line of this number where it gives something else than it says, and else None.
    fn verdict(
        &self,
        alloc: Global,
        number: u32,
        given: &str,
    ) -> Result<Option<String>, AllocError> {
        if trimmed(given.as_bytes()) == self.wanted {
            return Ok(None);
        }
        let mut said = format!(in alloc; "line {number}, ")?;
        push_bytes(&mut said, self.call)?;
        said.push_str(", gives ")?;
        said.push_str(given)?;
        Ok(Some(said))
    }
}

/// The cells of a row before its last, and the last without the blanks around it.
fn last_cell(text: &[u8]) -> (&[u8], &[u8]) {
    for before in 0..text.len() {
        let at = text.len() - 1 - before;
        if text[at] == b'|' {
            return (&text[..at], trimmed(&text[at + 1..]));
        }
    }
    (text, &[])
}

fn push_bytes(into: &mut String, bytes: &[u8]) -> Result<(), AllocError> {
    for byte in bytes {
        into.push(*byte as char)?;
    }
    Ok(())
}

/// The calls that a table's rows name.
pub trait Calls {
    /// What the call of that name gives with these cells, as a row shows it.
    fn given(alloc: Global, call: &[u8], cells: Cells<'_>) -> Result<String, AllocError>;
}

/// Tries each row of the standard input, says of each that gives something else what it gives, and at the end how many
/// rows there were.
pub fn try_rows<C: Calls>(rt: &(impl Input + Print + AllocGlobal)) -> io::Result<()> {
    let mut lines = 0u32;
    let mut rows = 0u32;
    for line in rt.lines(rt.alloc()) {
        let line = line?;
        lines = lines.saturating_add(1);
        if let Some(row) = Row::of(line.as_str().as_bytes()) {
            rows = rows.saturating_add(1);
            let given = C::given(rt.alloc(), row.call, row.cells)?;
            if let Some(said) = row.verdict(rt.alloc(), lines, given.as_str())? {
                println!(rt; "{said}")?;
            }
        }
    }
    println!(rt; "{rows} rows")
}
