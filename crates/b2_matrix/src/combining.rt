// Sums, differences, products and multiples.
ghost use Rattle.std.specs.Prelude.{◌≡◌, ◌<◌, ◌*◌, true, false, length, map, Ok, OnOk};
ghost use Rattle.b2_dec.specs.Number.{zero_number};
ghost use Rattle.b2_matrix.specs.Arrays.{column_count, array_rows, matrix_row, array_column, combined_element, elements, multiples, sum_of_products, IsWhole};
ghost use Rattle.b2_matrix.specs.Answers.{suit, shape_of, combined, unless_one_refused};

use crate::array::Mat;
use b2_base::Code;
use b2_base::codes::P43_SHAPES;
use b2_dec::{Dec, Mode, add, mul, sub};

/// What two arrays are combined by.
#[derive(Clone, Copy)]
pub enum MatOp {
    /// Each number and the other's at its place.
    Add,
    /// Each number less the other's at its place.
    Sub,
    /// Rows by columns.
    Mul,
}

/// Whether arrays of these shapes can be combined.
fn suit(op: MatOp, a: &Mat<'_>, b: &Mat<'_>) -> bool
    ensures { result ≡ suit op a.now b.now }
{
    match op {
        MatOp::Add | MatOp::Sub => a.rows == b.rows && a.column_count() == b.column_count(),
        MatOp::Mul => a.column_count() == usize::from(b.rows),
    }
}

/// The shape of the result: that of the first array, and two dimensions for a product.
fn shape_of(op: MatOp, a: &Mat<'_>, b: &Mat<'_>) -> (u16, u16)
    ensures { result ≡ shape_of op a.now b.now }
{
    match op {
        MatOp::Add | MatOp::Sub => (a.rows, a.cols),
        MatOp::Mul => (a.rows, b.cols.max(1)),
    }
}

/// A row by a column: the sum of their products from the left, each product and each sum rounded. C60 and C61 where one
/// of them is too small or too large.
fn row_by_column(a: &Mat<'_>, b: &Mat<'_>, m: Mode, i: usize, j: usize) -> Result<Dec, Code>
    requires first { IsWhole a.now }
    requires second { IsWhole b.now }
    requires suit { column_count a.now ≡ b.now.rows }
    requires row { i < a.now.rows }
    requires column { j < column_count b.now }
    ensures { result ≡ sum_of_products m zero_number (matrix_row (array_rows a.now) i) (array_column (array_rows b.now) j) }
{
    let mut sum = Dec::zero();
    for k in 0..a.column_count() {
        let product = mul(a.entry(i, k), b.entry(k, j), m)?;
        sum = add(sum, product, m)?;
    }
    Ok(sum)
}

/// The element of the result in a row and a column.
fn combined_element(
    op: MatOp,
    a: &Mat<'_>,
    b: &Mat<'_>,
    m: Mode,
    i: usize,
    j: usize,
) -> Result<Dec, Code>
    requires first { IsWhole a.now }
    requires second { IsWhole b.now }
    requires suit { suit op a.now b.now ≡ true }
    requires row { i < a.now.rows }
    requires column { j < column_count b.now }
    ensures { result ≡ combined_element op m (array_rows a.now) (array_rows b.now) i j }
{
    match op {
        MatOp::Add => add(a.entry(i, j), b.entry(i, j), m),
        MatOp::Sub => sub(a.entry(i, j), b.entry(i, j), m),
        MatOp::Mul => row_by_column(a, b, m, i, j),
    }
}

/// The sum, the difference or the product of two arrays: its elements along rows into `into`, which has exactly their
/// count, and its rows and columns. A sum and a difference have the shape of `a`, a product has two dimensions. An array of
/// one dimension counts as one column, and each sum of products is made from the left and rounded at each operation.
///
/// P43 comes exactly where the shapes don't suit, and then `into` is as before: sums and differences want equal shapes, a
/// product as many columns of `a` as `b` has rows. Otherwise C60 or C61 is the first that comes as the elements are made
/// along rows, and then `into` is open.
pub fn combine(
    op: MatOp,
    a: Mat<'_>,
    b: Mat<'_>,
    m: Mode,
    into: &mut [Dec],
) -> Result<(u16, u16), Code>
    requires first { IsWhole a }
    requires second { IsWhole b }
    requires count { suit op a b ≡ true → length into.old ≡ a.rows * column_count b }
    ensures answer { result ≡ combined op m a.entry b.entry }
    ensures elements { OnOk result (map Ok into.new ≡ elements op m a.entry b.entry) }
    ensures shapes { suit op a.entry b.entry ≡ false → into.new ≡ into.old }
{
    if !suit(op, &a, &b) {
        return Err(Code::known(P43_SHAPES));
    }
    let width = b.column_count();
    for (place, cell) in into.iter_mut().enumerate() {
        *cell = combined_element(op, &a, &b, m, place / width, place % width)?;
    }
    Ok(shape_of(op, &a, &b))
}

/// Each number of an array multiplied by `k`, into `into`, which has exactly their count. C60 or C61 is the first that comes
/// along rows, and then `into` is open.
pub fn scale(k: Dec, a: Mat<'_>, m: Mode, into: &mut [Dec]) -> Result<(), Code>
    requires whole { IsWhole a }
    requires count { length into.old ≡ a.rows * column_count a }
    ensures answer { result ≡ unless_one_refused (multiples m k a.entry) tt }
    ensures elements { OnOk result (map Ok into.new ≡ multiples m k a.entry) }
{
    for (place, cell) in into.iter_mut().enumerate() {
        *cell = mul(k, a.cells[place], m)?;
    }
    Ok(())
}
