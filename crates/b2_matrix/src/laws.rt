//! Laws of the definitions that this crate's contracts cite. Each call does nothing: its contract is the law.
ghost use Rattle.std.specs.Prelude.{◌≡◌, ◌*◌, ℕ, List, Ok, length, map};
ghost use Rattle.std.specs.List.{All};
ghost use Rattle.b2_dec.specs.Number.{Number, IsNumber, zero_number};
ghost use Rattle.b2_dec.specs.Arithmetic.{sum_of};
ghost use Rattle.b2_dec.specs.declared.number.Mode.{Mode};
ghost use Rattle.b2_matrix.specs.Arrays.{cut_into_rows, transposed, combined_element, filling, along_rows};
ghost use Rattle.b2_matrix.specs.declared.array.Fill.TheVariants as filled_with;
ghost use Rattle.b2_matrix.specs.declared.combining.MatOp.TheVariants as op;

use b2_dec::law_sums_commute;

/// An array transposed twice is as it was.
pub fn transposing_is_undone()
    ensures { (count width : ℕ) (cells : List Number) → length cells ≡ count * width → transposed width count (cut_into_rows width count (transposed count width (cut_into_rows count width cells))) ≡ cells }
{}

/// The sum of two arrays doesn't depend on their order.
pub fn sums_commute()
    ensures { (mode : Mode) (xss yss : List (List Number)) (i j : ℕ) → combined_element op.Add mode xss yss i j ≡ combined_element op.Add mode yss xss i j }
{
    law_sums_commute();
}

/// A sum of products begins with its first product: nothing changes when that is added to zero.
pub fn first_product_stands()
    ensures { (mode : Mode) (x : Number) → IsNumber x → sum_of mode zero_number x ≡ Ok x }
{}
/// The unit matrix times an array is that array, by either mode.
pub fn unit_matrix_is_neutral()
    ensures { (mode : Mode) (count width : ℕ) (cells : List Number) → length cells ≡ count * width → All IsNumber cells → along_rows count width (combined_element op.Mul mode (cut_into_rows count count (along_rows count count (filling filled_with.Idn))) (cut_into_rows count width cells)) ≡ map Ok cells }
{}
