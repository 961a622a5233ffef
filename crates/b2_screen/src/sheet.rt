// 24 rows of 80 cells with a cursor, and what changes them.
ghost use Rattle.std.specs.Prelude.{◌≡◌, ◌-◌, false, ◌≤◌, ◌<◌, [], get_or, length, set, if◌then◌else◌};
ghost use Rattle.b2_base.specs.Lexical as lexical;
ghost use Rattle.b2_screen.specs.Sheet as spec;
ghost use Rattle.b2_screen.specs.Sheet.{blank_sheet, scrolled, glyph_written, on_next_row, cursor_placed, outlined, outlined_row, each_from, IsDrawable};
ghost use Rattle.b2_screen.specs.Shown.{effect, byte_item};

use b2_base::lexical::is_printable;
use std::marker::Model;

/// How many rows a sheet has.
const ROWS: u8 = 24;

/// How many cells a row has.
const COLUMNS: u8 = 80;

/// What moves the cursor to the first cell.
const HOME: u8 = 1;

/// What wipes all cells and moves the cursor to the first.
const CLEAR: u8 = 3;

/// What moves the cursor left by a column.
const LEFT: u8 = 8;

/// What moves the cursor right by a column.
const RIGHT: u8 = 9;

/// What moves the cursor up by a row.
const UP: u8 = 12;

/// Numbers in sequences are counted from the blank.
const ZERO: u8 = b' ';

/// A row of blanks.
const BLANK_ROW: [u8; 80] = [b' '; 80];

/// All cells of a sheet.
type Rows = [[u8; 80]; 24];

/// Where the first cell of an outline stands, and how many rows and columns it has.
#[derive(Clone, Copy)]
pub struct Rectangle {
    row: u8,
    column: u8,
    rows: u8,
    columns: u8,
}

/// 24 rows of 80 cells with a cursor.
#[derive(Drop)]
pub struct Sheet {
    rows: Rows,
    row: u8,
    column: u8,
}

impl Model for Sheet {
    ghost use Rattle.std.specs.Prelude.{◌≤◌, ◌<◌};
    ghost use Rattle.b2_screen.specs.Sheet.{SheetState};

    ghost Value = { SheetState };

    ghost view = { λ s. record { rows = s.rows; row = s.row; column = s.column } };

    ghost invariant = { λ s. (s.row < 24) × (s.column ≤ 80) };
}

/// Moves all rows up by one, with a blank one last.
fn scroll(rows: &mut Rows)
    ensures { rows.new ≡ scrolled rows.old }
{
    rows.rotate_left(1);
    rows[23] = BLANK_ROW;
}

/// Fills a cell.
fn fill_cell(rows: &mut Rows, row: u8, column: u8, byte: u8)
    requires row { row < 24 }
    requires column { column < 80 }
    ensures { rows.new ≡ set rows.old row (set (get_or rows.old row []) column byte) }
{
    rows[usize::from(row)][usize::from(column)] = byte;
}

/// Whether a byte of a sequence gives a number from low to high.
fn gives(low: u8, high: u8, byte: u8) -> bool
    requires low { low ≤ 80 }
    requires high { high ≤ 80 }
    ensures { result ≡ spec.gives low high byte }
{
    byte >= ZERO + low && byte <= ZERO + high
}

/// Whether a place is one of the `count` from the first on.
fn lies_among(first: u8, count: u8, place: u8) -> bool
    requires first { first ≤ 80 }
    requires count { count ≤ 80 }
    ensures { result ≡ spec.lies_among first count place }
{
    place >= first && place < first + count
}

/// Whether a place is the first or the last of them.
fn is_end(first: u8, count: u8, place: u8) -> bool
    requires first { first ≤ 80 }
    requires some { 0 < count }
    requires count { count ≤ 80 }
    ensures { result ≡ spec.is_end first count place }
{
    place == first || place == first + count - 1
}

/// The cell of row `i` and column `j` under an outline.
fn outlined_cell(rectangle: Rectangle, i: u8, j: u8, cell: u8) -> u8
    requires { IsDrawable rectangle }
    ensures { result ≡ spec.outlined_cell rectangle i j cell }
{
    if !lies_among(rectangle.row, rectangle.rows, i)
        || !lies_among(rectangle.column, rectangle.columns, j)
    {
        return cell;
    }
    match (
        is_end(rectangle.row, rectangle.rows, i),
        is_end(rectangle.column, rectangle.columns, j),
    ) {
        (true, true) => b'+',
        (true, false) => b'-',
        (false, true) => b'|',
        (false, false) => cell,
    }
}

/// How many columns after a cell of an outline the next one of its row stands: one in its first and its last row, and in
/// the others as many as lead from side to side.
fn step_along(rectangle: Rectangle, i: u8) -> u8
    requires { IsDrawable rectangle }
    ensures value { result ≡ (if spec.is_end rectangle.row rectangle.rows i then 1 else rectangle.columns - 1) }
    ensures some { 1 ≤ result }
    ensures few { result ≤ 80 }
{
    if is_end(rectangle.row, rectangle.rows, i) {
        1
    } else {
        rectangle.columns - 1
    }
}

/// Draws on a row what an outline has in it.
fn outline_row(row: &mut [u8; 80], rectangle: Rectangle, i: u8)
    requires { IsDrawable rectangle }
    ensures { row.new ≡ outlined_row rectangle i row.old }
{
    let step = step_along(rectangle, i);
    let end = (rectangle.column + rectangle.columns).min(COLUMNS);
    let mut j = rectangle.column;
    while j < end {
        let cell = row[usize::from(j)];
        row[usize::from(j)] = outlined_cell(rectangle, i, j, cell);
        j += step;
    }
}

/// Draws an outline.
fn outline_rows(rows: &mut Rows, rectangle: Rectangle)
    requires { IsDrawable rectangle }
    ensures { rows.new ≡ each_from (outlined_row rectangle) 0 rows.old }
{
    let end = (rectangle.row + rectangle.rows).min(ROWS);
    for i in rectangle.row..end {
        let mut row = rows[usize::from(i)];
        outline_row(&mut row, rectangle, i);
        rows[usize::from(i)] = row;
    }
}

impl Sheet {
    /// Blank cells, and the cursor at the first of them.
    pub fn new() -> Sheet
        ensures { result ≡ blank_sheet }
    {
        Sheet {
            rows: [BLANK_ROW; 24],
            row: 0,
            column: 0,
        }
    }

    /// The cells of a row.
    pub fn row(&self, r: u8) -> &[u8]
        requires { r < 24 }
        ensures cells { result.now ≡ get_or self.now.rows r [] }
        ensures width { length result.now ≡ 80 }
    {
        &self.rows[usize::from(r)]
    }

    /// The row and the column of the cursor.
    pub fn cursor(&self) -> (u8, u8)
        ensures row { result.0 ≡ self.now.row }
        ensures column { result.1 ≡ self.now.column }
        ensures row_on_screen { result.0 < 24 }
        ensures column_on_screen { result.1 ≤ 80 }
    {
        (self.row, self.column)
    }

    /// Moves the cursor to the first column of the next row.
    fn next_row(&mut self)
        ensures { self.new ≡ on_next_row self.old }
    {
        if self.row == ROWS - 1 {
            scroll(&mut self.rows);
        } else {
            self.row += 1;
        }
        self.column = 0;
    }

    /// Writes a glyph.
    fn write(&mut self, byte: u8)
        ensures { self.new ≡ glyph_written byte self.old }
    {
        if self.column == COLUMNS {
            self.next_row();
        }
        fill_cell(&mut self.rows, self.row, self.column, byte);
        self.column += 1;
    }

    /// Does what a byte that moves the cursor does.
    fn control(&mut self, byte: u8)
        requires { lexical.is_printable byte ≡ false }
        ensures { self.new ≡ effect (byte_item byte) self.old }
    {
        match byte {
            HOME => {
                self.row = 0;
                self.column = 0;
            }
            CLEAR => *self = Sheet::new(),
            LEFT => self.column = self.column.saturating_sub(1),
            RIGHT if self.column < COLUMNS - 1 => self.column += 1,
            b'\n' => self.next_row(),
            UP => self.row = self.row.saturating_sub(1),
            b'\r' => self.column = 0,
            _ => {}
        }
    }

    /// Shows a byte by itself.
    pub fn show(&mut self, byte: u8)
        ensures { self.new ≡ effect (byte_item byte) self.old }
    {
        if is_printable(byte) {
            self.write(byte);
        } else {
            self.control(byte);
        }
    }

    /// Places the cursor where the two bytes of a placing give a place on the screen.
    pub fn place_cursor(&mut self, row: u8, column: u8)
        ensures { self.new ≡ cursor_placed row column self.old }
    {
        if gives(0, ROWS - 1, row) && gives(0, COLUMNS - 1, column) {
            self.row = row - ZERO;
            self.column = column - ZERO;
        }
    }

    /// Draws an outline from the cursor on where its two bytes give a size that it may have.
    pub fn outline(&mut self, rows: u8, columns: u8)
        ensures { self.new ≡ outlined rows columns self.old }
    {
        if gives(2, ROWS, rows) && gives(2, COLUMNS, columns) {
            let rectangle = Rectangle {
                row: self.row,
                column: self.column,
                rows: rows - ZERO,
                columns: columns - ZERO,
            };
            outline_rows(&mut self.rows, rectangle);
        }
    }
}
