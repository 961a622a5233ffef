// The items of PRINT, on lines of a width.
ghost use Rattle.std.specs.Prelude.{◌≡◌, ◌<◌, ◌==◌, ◌&&◌, ◌++◌, ◌∷◌, ℕ, true, not, nat_lt, if◌then◌else◌, OnOk, OnErr, IfOk, replicate};
ghost use Rattle.std.specs.List.{flat_map};
ghost use Rattle.b2_base.specs.Byte as byte;
ghost use Rattle.b2_base.specs.Lexical.{hex_pair};
ghost use Rattle.b2_print.specs.Screen as screen;
ghost use Rattle.b2_print.specs.Columns as spec_column;
ghost use Rattle.b2_print.specs.Columns.{placed};
ghost use Rattle.b2_print.specs.Layout as spec;
ghost use Rattle.b2_print.specs.declared.layout.Item.TheVariants as item;

use crate::columns::{column_after, passes};
use crate::screen::{SCREEN_COLUMNS, SCREEN_ROWS, outline_bytes, placing_bytes};
use b2_base::NoMemory;
use b2_base::lexical::hex_pair;
use b2_dec::Dec;
use b2_dectext::write;
use std::alloc::Global;

/// What PRINT shows, in order.
#[derive(Clone, Copy)]
pub enum Item<'a> {
    /// A number in its printed form.
    Number(Dec),
    /// The bytes of an alpha value.
    Alpha(&'a [u8]),
    /// Blanks up to a column, nothing where that is passed.
    Tab(u8),
    /// Each byte as two upper hexadecimal digits.
    Hex(&'a [u8]),
    /// To the next column that 16 divides, or to a new line where the line has none.
    Zone,
    /// A newline.
    Line,
    /// The cursor at a row of 0 to 23 and a column of 0 to 79, where a number of cells is erased first, at most those up
    /// to the end of the row. The column after it is its own.
    At { row: u8, column: u8, erase: u8 },
    /// A box of 2 to 24 rows and 2 to 80 columns, with its first cell at the cursor, which stays.
    Outline { rows: u8, columns: u8 },
}

/// Whether the numbers of an item lie on the screen; items on the line have none for it.
fn is_on_screen(item: &Item<'_>) -> bool
    ensures { result ≡ spec.is_on_screen item.now }
{
    match item {
        Item::At { row, column, erase } => {
            *row < SCREEN_ROWS
                && *column < SCREEN_COLUMNS
                && *column as u16 + *erase as u16 <= SCREEN_COLUMNS as u16
        }
        Item::Outline { rows, columns } => {
            *rows >= 2 && *rows <= SCREEN_ROWS && *columns >= 2 && *columns <= SCREEN_COLUMNS
        }
        _ => true,
    }
}

/// Whether `lay` takes the items: the numbers of those for the screen lie on it.
pub fn are_on_screen(items: &[Item<'_>]) -> bool
    ensures { result ≡ spec.are_on_screen items.now }
{
    items.iter().all(|item| is_on_screen(item))
}

/// Each byte as two hexadecimal digits.
fn hex(alloc: Global, bytes: &[u8]) -> Result<Vec<u8>, NoMemory>
    ensures { IfOk result (λ text. text.items ≡ flat_map hex_pair bytes.now) }
{
    let mut text = Vec::new(alloc);
    for byte in bytes {
        text.extend_from_slice(&hex_pair(*byte))?;
    }
    Ok(text)
}

/// Appends bytes, on a new line where that is wanted. Where memory fails, `into` is as before.
fn append(line: bool, bytes: &[u8], into: &mut Vec<u8>) -> Result<(), NoMemory>
    ensures text { OnOk result (into.new.items ≡ into.old.items ++ (if line then byte.newline ∷ bytes.now else bytes.now)) }
    ensures err { OnErr result (into.new.items ≡ into.old.items) }
{
    let before = into.len();
    if line {
        into.push(b'\n')?;
    }
    match into.extend_from_slice(bytes) {
        Ok(()) => Ok(()),
        Err(_) => {
            into.truncate(before);
            Err(NoMemory)
        }
    }
}

/// Appends a number of blanks, on a new line where that is wanted. Where memory fails, `into` is as before.
fn append_blanks(line: bool, count: u16, into: &mut Vec<u8>) -> Result<(), NoMemory>
    ensures text { OnOk result (into.new.items ≡ into.old.items ++ (if line then byte.newline ∷ replicate count byte.blank else replicate count byte.blank)) }
    ensures err { OnErr result (into.new.items ≡ into.old.items) }
{
    let before = into.len();
    if line {
        into.push(b'\n')?;
    }
    match into.resize(into.len() + count as usize, b' ') {
        Ok(()) => Ok(()),
        Err(_) => {
            into.truncate(before);
            Err(NoMemory)
        }
    }
}

/// Whether a text without control codes has to go on a new line, by the column after it: where that is above the width,
/// and the text doesn't stand at the beginning of its line.
#[inline(always)]
fn goes_on_new_line(width: u16, column: u16, after: u16) -> bool
    ensures { result ≡ (not (column == 0) && nat_lt width after) }
{
    column != 0 && after > width
}

/// Appends a number in its printed form, placed at a column of lines of a width, and gives the column after it.
///
/// Where memory fails, `into` is as before. So it is after the other calls that append one item.
pub fn lay_number(x: Dec, width: u16, column: u16, into: &mut Vec<u8>) -> Result<u16, NoMemory>
    ensures text { OnOk result (into.new.items ≡ into.old.items ++ spec.item_placed width column (item.Number x)) }
    ensures column { IfOk result (λ after. after ≡ spec.item_column width column (item.Number x)) }
    ensures err { OnErr result (into.new.items ≡ into.old.items) }
{
    let mut digits = [0; 24];
    let count = write(x, &mut digits);
    let after = column.saturating_add(count as u16);
    let line = goes_on_new_line(width, column, after);
    append(line, &digits[..count], into)?;
    Ok(if line { count as u16 } else { after })
}

/// Appends bytes, such as those of an alpha value, placed at a column, and gives the column after them.
pub fn lay_bytes(bytes: &[u8], width: u16, column: u16, into: &mut Vec<u8>) -> Result<u16, NoMemory>
    ensures text { OnOk result (into.new.items ≡ into.old.items ++ placed width column (λ c. bytes.now)) }
    ensures column { IfOk result (λ after. after ≡ spec_column.column_after column (placed width column (λ c. bytes.now))) }
    ensures err { OnErr result (into.new.items ≡ into.old.items) }
{
    if column != 0 && passes(width, column, bytes) {
        append(true, bytes, into)?;
        return Ok(column_after(0, bytes));
    }
    append(false, bytes, into)?;
    Ok(column_after(column, bytes))
}

/// Appends each byte as two upper hexadecimal digits, placed at a column, and gives the column after them.
pub fn lay_hex(
    alloc: Global,
    bytes: &[u8],
    width: u16,
    column: u16,
    into: &mut Vec<u8>,
) -> Result<u16, NoMemory>
    ensures text { OnOk result (into.new.items ≡ into.old.items ++ placed width column (λ c. flat_map hex_pair bytes.now)) }
    ensures column { IfOk result (λ after. after ≡ spec_column.column_after column (placed width column (λ c. flat_map hex_pair bytes.now))) }
    ensures err { OnErr result (into.new.items ≡ into.old.items) }
{
    let text = hex(alloc, bytes)?;
    lay_bytes(&text, width, column, into)
}

/// Appends blanks up to a column, and gives the column after them.
pub fn lay_tab(to: u8, width: u16, column: u16, into: &mut Vec<u8>) -> Result<u16, NoMemory>
    ensures text { OnOk result (into.new.items ≡ into.old.items ++ spec.item_placed width column (item.Tab to)) }
    ensures column { IfOk result (λ after. after ≡ spec.item_column width column (item.Tab to)) }
    ensures err { OnErr result (into.new.items ≡ into.old.items) }
{
    let to = to as u16;
    if to <= column {
        return Ok(column);
    }
    let line = goes_on_new_line(width, column, to);
    if line {
        append_blanks(true, to, into)?;
        return Ok(to);
    }
    append_blanks(false, to - column, into)?;
    Ok(to)
}

/// Appends a newline, and gives the column after it.
pub fn lay_line(width: u16, column: u16, into: &mut Vec<u8>) -> Result<u16, NoMemory>
    ensures text { OnOk result (into.new.items ≡ into.old.items ++ spec.item_placed width column item.Line) }
    ensures column { IfOk result (λ after. after ≡ spec.item_column width column item.Line) }
    ensures err { OnErr result (into.new.items ≡ into.old.items) }
{
    into.push(b'\n')?;
    Ok(0)
}

/// Appends what leads to the next zone from a column on, and gives the column after it.
pub fn lay_zone(width: u16, column: u16, into: &mut Vec<u8>) -> Result<u16, NoMemory>
    ensures text { OnOk result (into.new.items ≡ into.old.items ++ spec.item_placed width column item.Zone) }
    ensures column { IfOk result (λ after. after ≡ spec.item_column width column item.Zone) }
    ensures err { OnErr result (into.new.items ≡ into.old.items) }
{
    let next = (column as u32 / 16 + 1) * 16;
    if next < width as u32 {
        append_blanks(false, next as u16 - column, into)?;
        Ok(next as u16)
    } else {
        append(true, &[], into)?;
        Ok(0)
    }
}

/// Appends the cursor at a place of the screen, where a number of cells is erased and the cursor goes back, and gives the
/// column after it, which is that of the place. The place lies on the screen, and so do the cells that are erased.
pub fn lay_place(
    alloc: Global,
    row: u8,
    column: u8,
    erase: u8,
    into: &mut Vec<u8>,
) -> Result<u16, NoMemory>
    requires on_screen { spec.is_on_screen (item.At row column erase) ≡ true }
    ensures text { OnOk result (into.new.items ≡ into.old.items ++ screen.place_text row column erase) }
    ensures column { IfOk result (λ after. after ≡ column) }
    ensures err { OnErr result (into.new.items ≡ into.old.items) }
{
    let place = placing_bytes(row, column);
    if erase == 0 {
        into.extend_from_slice(&place)?;
        return Ok(u16::from(column));
    }
    let mut text = Vec::from_slice(alloc, &place)?;
    append_blanks(false, u16::from(erase), &mut text)?;
    text.extend_from_slice(&place)?;
    into.extend_from_slice(&text)?;
    Ok(u16::from(column))
}

/// Appends a box of rows and columns with its first cell at the cursor, which stays, and gives the column after it, which is
/// the one before. A box has 2 to 24 rows and 2 to 80 columns.
pub fn lay_outline(rows: u8, columns: u8, column: u16, into: &mut Vec<u8>) -> Result<u16, NoMemory>
    requires on_screen { spec.is_on_screen (item.Outline rows columns) ≡ true }
    ensures text { OnOk result (into.new.items ≡ into.old.items ++ screen.outline_bytes rows columns) }
    ensures column { IfOk result (λ after. after ≡ column) }
    ensures err { OnErr result (into.new.items ≡ into.old.items) }
{
    into.extend_from_slice(&outline_bytes(rows, columns))?;
    Ok(column)
}

/// Appends an item, placed at a column, and gives the column after it.
fn lay_item(
    alloc: Global,
    item: &Item<'_>,
    width: u16,
    column: u16,
    into: &mut Vec<u8>,
) -> Result<u16, NoMemory>
    requires on_screen { spec.is_on_screen item.now ≡ true }
    ensures text { OnOk result (into.new.items ≡ into.old.items ++ spec.item_placed width column item.now) }
    ensures column { IfOk result (λ after. after ≡ spec.item_column width column item.now) }
    ensures err { OnErr result (into.new.items ≡ into.old.items) }
{
    match item {
        Item::Number(x) => lay_number(*x, width, column, into),
        Item::Alpha(bytes) => lay_bytes(bytes, width, column, into),
        Item::Tab(to) => lay_tab(*to, width, column, into),
        Item::Hex(bytes) => lay_hex(alloc, bytes, width, column, into),
        Item::Zone => lay_zone(width, column, into),
        Item::Line => lay_line(width, column, into),
        Item::At {
            row,
            column: own,
            erase,
        } => lay_place(alloc, *row, *own, *erase, into),
        Item::Outline { rows, columns } => lay_outline(*rows, *columns, column, into),
    }
}

/// Appends the items as they are laid out from a column on, in lines of a width, and gives the column after them.
///
/// The numbers of items for the screen must lie on it: a row of 0 to 23, a column of 0 to 79, at most as many erased
/// cells as the row has from there on, and an outline of 2 to 24 rows and 2 to 80 columns. `are_on_screen` says whether
/// they do. The width doesn't act on these items.
///
/// Where memory fails, `into` is as before.
pub fn lay(
    alloc: Global,
    items: &[Item<'_>],
    column: u16,
    width: u16,
    into: &mut Vec<u8>,
) -> Result<u16, NoMemory>
    requires on_screen { spec.are_on_screen items.now ≡ true }
    ensures text { OnOk result (into.new.items ≡ into.old.items ++ spec.layout width column items.now) }
    ensures column { IfOk result (λ after. after ≡ spec.items_column width column items.now) }
    ensures err { OnErr result (into.new.items ≡ into.old.items) }
{
    let before = into.len();
    let mut at = column;
    for item in items {
        match lay_item(alloc, item, width, at, into) {
            Ok(after) => at = after,
            Err(no_memory) => {
                into.truncate(before);
                return Err(no_memory);
            }
        }
    }
    Ok(at)
}
