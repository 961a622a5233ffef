// Arrays as they are lent.
ghost use Rattle.std.specs.Prelude.{◌≡◌, ◌<◌, ◌*◌, ◌^◌};
ghost use Rattle.b2_matrix.specs.Arrays.{columns_of, column_count, array_rows, entry, IsWhole};

use b2_dec::Dec;

/// An array of numbers along its rows. `cols` is 0 for an array of one dimension, which counts as one column.
#[derive(Clone, Copy)]
pub struct Mat<'a> {
    pub rows: u16,
    pub cols: u16,
    pub cells: &'a [Dec],
}

/// What an array is filled with.
#[derive(Clone, Copy)]
pub enum Fill {
    /// Ones.
    Con,
    /// Zeros.
    Zer,
    /// The unit matrix: ones where the row is the column, and else zeros.
    Idn,
}

/// How many columns an array has, at least 1.
pub(crate) fn columns_of(cols: u16) -> usize
    ensures value { result ≡ columns_of cols }
    ensures some { 0 < result }
    ensures small { result < 2 ^ 16 }
{
    usize::from(cols.max(1))
}

impl Mat<'_> {
    /// How many numbers a row has, at least 1.
    pub(crate) fn column_count(&self) -> usize
        ensures value { result ≡ column_count self.now }
        ensures some { 0 < result }
        ensures small { result < 2 ^ 16 }
    {
        columns_of(self.cols)
    }

    /// The number in a row and a column, both counted from 0.
    pub(crate) fn entry(&self, row: usize, column: usize) -> Dec
        requires whole { IsWhole self.now }
        requires row { row < self.now.rows }
        requires column { column < column_count self.now }
        ensures { result ≡ entry (array_rows self.now) row column }
    {
        self.cells[row * self.column_count() + column]
    }
}
