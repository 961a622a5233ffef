// The shapes of variables.
ghost use Rattle.std.specs.Prelude.{◌≡◌, ◌≤◌, ◌<◌, ◌^◌, true};
ghost use Rattle.b2_vars.specs.Shapes.{has_dimensions, has_length, is_same_shape, scalar_shape, cells, size_of, overhead, cost, is_subscript, has_cell, cell_at, is_up_to, alpha_bytes, number_cells};

use crate::name::Var;

/// The longest array of one dimension.
pub const LONGEST_ARRAY: u16 = 4000;
/// The most rows, and the most columns, of an array of two dimensions.
pub const WIDEST_ARRAY: u16 = 255;
/// The longest alpha value.
pub const LONGEST_VALUE: u8 = 124;
/// The length of an alpha value where none is given.
pub const USUAL_LENGTH: u8 = 16;

/// The dimensions of a variable, 0 for each that it doesn't have, and the length of its alpha values, 0 for numbers.
#[derive(Clone, Copy)]
pub struct Shape {
    pub rows: u16,
    pub cols: u16,
    pub len: u8,
}

/// Whether a variable of this name may have these dimensions.
pub fn has_dimensions(v: Var, shape: Shape) -> bool
    ensures { result ≡ has_dimensions v shape }
{
    match (v.array, shape.cols) {
        (false, cols) => shape.rows == 0 && cols == 0,
        (true, 0) => is_up_to(LONGEST_ARRAY, shape.rows),
        (true, cols) => is_up_to(WIDEST_ARRAY, shape.rows) && is_up_to(WIDEST_ARRAY, cols),
    }
}

/// Whether a number is from 1 to the most.
fn is_up_to(most: u16, n: u16) -> bool
    ensures { result ≡ is_up_to most n }
{
    1 <= n && n <= most
}

/// Whether the values of this name may have this length.
pub fn has_length(v: Var, shape: Shape) -> bool
    ensures { result ≡ has_length v shape }
{
    if v.alpha {
        shape.len >= 1 && shape.len <= LONGEST_VALUE
    } else {
        shape.len == 0
    }
}

/// Whether two shapes agree in everything.
pub fn is_same_shape(one: Shape, other: Shape) -> bool
    ensures { result ≡ is_same_shape one other }
{
    one.rows == other.rows && one.cols == other.cols && one.len == other.len
}

/// The shape of a scalar that is made by its first use.
pub fn scalar_shape(v: Var) -> Shape
    ensures { result ≡ scalar_shape v }
{
    Shape {
        rows: 0,
        cols: 0,
        len: if v.alpha { USUAL_LENGTH } else { 0 },
    }
}

/// How many values a shape has.
pub fn cells(shape: Shape) -> usize
    ensures count { result ≡ cells shape }
    ensures small { result < 2 ^ 33 }
{
    usize::from(shape.rows.max(1)) * usize::from(shape.cols.max(1))
}

/// How many numbers the variable of a shape has.
pub fn number_cells(v: Var, shape: Shape) -> usize
    ensures count { result ≡ number_cells v shape }
    ensures small { result < 2 ^ 33 }
{
    if v.alpha { 0 } else { cells(shape) }
}

/// How many bytes the alpha values of a shape have.
pub fn alpha_bytes(shape: Shape) -> usize
    ensures count { result ≡ alpha_bytes shape }
    ensures small { result < 2 ^ 42 }
{
    cells(shape) * usize::from(shape.len)
}

/// What the values of a variable take.
pub fn size_of(v: Var, shape: Shape) -> usize
    ensures size { result ≡ size_of v shape }
    ensures small { result < 2 ^ 42 }
{
    if v.alpha {
        alpha_bytes(shape)
    } else {
        cells(shape) * 8
    }
}

/// What a variable takes beside its values.
pub fn overhead(v: Var) -> usize
    ensures overhead { result ≡ overhead v }
    ensures some { 4 ≤ result }
    ensures small { result ≤ 9 }
{
    match (v.alpha, v.array) {
        (true, true) => 9,
        (true, false) => 5,
        (false, true) => 8,
        (false, false) => 4,
    }
}

/// What a variable takes.
pub fn cost(v: Var, shape: Shape) -> usize
    ensures cost { result ≡ cost v shape }
    ensures small { result < 2 ^ 43 }
{
    overhead(v) + size_of(v, shape)
}

/// Whether a dimension of this size has this subscript.
fn is_subscript(size: u16, subscript: u16) -> bool
    ensures { result ≡ is_subscript size subscript }
{
    if size == 0 {
        subscript == 0
    } else {
        is_up_to(size, subscript)
    }
}

/// Whether a shape has a value at these subscripts.
pub fn has_cell(shape: Shape, r: u16, c: u16) -> bool
    ensures { result ≡ has_cell shape r c }
{
    is_subscript(shape.rows, r) && is_subscript(shape.cols, c)
}

/// The place of a value along rows.
pub fn cell_at(shape: Shape, r: u16, c: u16) -> usize
    ensures place { result ≡ cell_at shape r c }
    ensures small { result < 2 ^ 33 }
{
    usize::from(r.saturating_sub(1)) * usize::from(shape.cols.max(1))
        + usize::from(c.saturating_sub(1))
}
