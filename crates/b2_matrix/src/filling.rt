// The transposed array, and arrays of ones and zeros.
ghost use Rattle.std.specs.Prelude.{◌≡◌, ◌*◌, Ok, Err, OnOk, OnErr, length, if◌then◌else◌};
ghost use Rattle.b2_base.specs.declared.codes.TheConstants.{P44_NOT_SQUARE};
ghost use Rattle.b2_dec.specs.Arithmetic.{one_number};
ghost use Rattle.b2_matrix.specs.Arrays.{columns_of, column_count, array_rows, transposed, filling, along_rows, IsWhole};
ghost use Rattle.b2_matrix.specs.Answers.{may_fill};

use crate::array::{Fill, Mat, columns_of};
use b2_base::Code;
use b2_base::codes::P44_NOT_SQUARE;
use b2_dec::Dec;

/// The array transposed, its rows as columns, into `into`, which has exactly as many numbers.
pub fn transpose(a: Mat<'_>, into: &mut [Dec])
    requires whole { IsWhole a }
    requires count { length into.old ≡ a.rows * column_count a }
    ensures { into.new ≡ transposed a.entry.rows (column_count a.entry) (array_rows a.entry) }
{
    let count = usize::from(a.rows);
    for (place, cell) in into.iter_mut().enumerate() {
        *cell = a.entry(place % count, place / count);
    }
}

/// The number one.
fn number_one() -> Dec
    ensures { result ≡ one_number }
{
    Dec::ending_at(false, 1_000_000_000_000, 99)
}

/// The number in a row and a column of a filled array.
fn filling(k: Fill, i: usize, j: usize) -> Dec
    ensures { result ≡ filling k i j }
{
    match k {
        Fill::Con => number_one(),
        Fill::Zer => Dec::zero(),
        Fill::Idn => { if i == j { number_one() } else { Dec::zero() } }
    }
}

/// Whether an array of this shape can be filled so.
fn may_fill(k: Fill, count: usize, width: usize) -> bool
    ensures { result ≡ may_fill k count width }
{
    match k {
        Fill::Con | Fill::Zer => true,
        Fill::Idn => count == width,
    }
}

/// Fills an array of this shape along rows; `into` has exactly as many numbers. `cols` is 0 for an array of one dimension,
/// which counts as one column. P44 comes exactly for a unit matrix that isn't square, and then `into` is as before.
pub fn fill(k: Fill, rows: u16, cols: u16, into: &mut [Dec]) -> Result<(), Code>
    requires { length into.old ≡ rows * columns_of cols }
    ensures answer { result ≡ (if may_fill k rows (columns_of cols) then Ok tt else Err P44_NOT_SQUARE) }
    ensures elements { OnOk result (into.new ≡ along_rows rows (columns_of cols) (filling k)) }
    ensures err { OnErr result (into.new ≡ into.old) }
{
    let width = columns_of(cols);
    if !may_fill(k, usize::from(rows), width) {
        return Err(Code::known(P44_NOT_SQUARE));
    }
    for (place, cell) in into.iter_mut().enumerate() {
        *cell = filling(k, place / width, place % width);
    }
    Ok(())
}
