// Dimensions and lengths after a name.
ghost use Rattle.std.specs.Prelude.{◌≡◌, true};
ghost use Rattle.b2_base.specs.Byte as byte;
ghost use Rattle.b2_atom.specs.declared.forms.Start.TheVariants as start;
ghost use Rattle.b2_atom.specs.declared.rows.TheConstants as row;
ghost use Rattle.b2_rows.specs.Optional.{after_maybe, maybe_phrase, maybe_tree};
ghost use Rattle.b2_rows.specs.Rows.{after_phrase, is_phrase, tree_at};
ghost use Rattle.b2_expr.specs.Reads.{Gives};
ghost use Rattle.b2_expr.specs.Scope.{surroundings};
ghost use Rattle.b2_expr.specs.Value.{in_statement, value};
ghost use Rattle.b2_expr.specs.declared.operators.Level.TheVariants as level;
ghost use Rattle.b2_dims.specs.Dimensions as spec;

use b2_atom::Cursor;
use b2_base::Code;
use b2_base::codes::{P50_DIMENSION, P53_LENGTH};
use b2_base::lexical::rest_after;
use b2_dec::{Dec, fix, whole};
use b2_expr::{Env, number};
use b2_rows::{is_at, is_numeric_at};
use b2_vars::{LONGEST_ARRAY, LONGEST_VALUE, Shape, WIDEST_ARRAY};

/// The dimensions of an array: its rows, and its columns or 0.
#[derive(Clone, Copy)]
pub struct Dimensions {
    pub rows: u16,
    pub cols: u16,
}

/// The number at a text, and what stands after it.
pub fn number_at<'t>(e: &Env<'_>, text: &'t [u8]) -> Result<(Dec, &'t [u8]), Code>
    requires phrase { is_phrase row.SUM text.now ≡ true }
    ensures { Gives (value (in_statement (surroundings e.now)) level.Sum (tree_at row.SUM text.now)) (after_phrase row.SUM text.now) result }
{
    let mut c = Cursor::over(text);
    match number(&mut c, e) {
        Ok(x) => Ok((x, c.rest())),
        Err(code) => Err(code),
    }
}

/// A dimension up to the most, P50 where it is none.
fn dimension(most: u16, n: Option<i64>) -> Result<u16, Code>
    ensures { result ≡ spec.dimension most n }
{
    match n {
        Some(n) if 1 <= n && n <= i64::from(most) => Ok(n as u16),
        _ => Err(Code::known(P50_DIMENSION)),
    }
}

/// The second dimension, 0 where none is written, and what stands after it.
#[tactic(auto, using(crate::proofs::DimensionRows::columns_part, crate::proofs::DimensionRows::columns_is, crate::proofs::DimensionRows::columns_rest, crate::proofs::DimensionRows::no_columns, crate::proofs::DimensionRows::no_columns_rest))]
fn columns_at<'t>(e: &Env<'_>, text: &'t [u8]) -> Result<(u16, &'t [u8]), Code>
    requires phrase { maybe_phrase (start.Code byte.comma) row.COMMA_NUMBER text.now ≡ true }
    ensures { Gives (spec.columns_in (in_statement (surroundings e.now)) (maybe_tree (start.Code byte.comma) row.COMMA_NUMBER text.now)) (after_maybe (start.Code byte.comma) row.COMMA_NUMBER text.now) result }
{
    if !is_at(b',', text) {
        return Ok((0, text));
    }
    let (x, rest) = match number_at(e, rest_after(text, 1)) {
        Ok(found) => found,
        Err(code) => return Err(code),
    };
    match dimension(WIDEST_ARRAY, whole(fix(x))) {
        Ok(cols) => Ok((cols, rest)),
        Err(code) => Err(code),
    }
}

/// The most rows, where columns follow or none.
fn most_rows(two: bool) -> u16
    ensures { result ≡ spec.most_rows two }
{
    if two { WIDEST_ARRAY } else { LONGEST_ARRAY }
}

/// The dimensions at a text, and what stands after them: each is taken and tested before the next. P50 comes where one is not
/// from 1 to 255, or to 4,000 where it is the only one.
#[tactic(auto, using(crate::proofs::DimensionRows::rows_part, crate::proofs::DimensionRows::columns_here, crate::proofs::DimensionRows::dimensions_is, crate::proofs::DimensionRows::dimensions_rest))]
pub fn dimensions_at<'t>(e: &Env<'_>, text: &'t [u8]) -> Result<(Dimensions, &'t [u8]), Code>
    requires phrase { is_phrase row.SUBSCRIPTS text.now ≡ true }
    ensures { Gives (spec.dimensions_in (in_statement (surroundings e.now)) (tree_at row.SUBSCRIPTS text.now)) (after_phrase row.SUBSCRIPTS text.now) result }
{
    let (x, after) = match number_at(e, rest_after(text, 1)) {
        Ok(found) => found,
        Err(code) => return Err(code),
    };
    let rows = match dimension(most_rows(is_at(b',', after)), whole(fix(x))) {
        Ok(rows) => rows,
        Err(code) => return Err(code),
    };
    match columns_at(e, after) {
        Ok((cols, rest)) => Ok((Dimensions { rows, cols }, rest_after(rest, 1))),
        Err(code) => Err(code),
    }
}

/// The length of an alpha value, P53 where it is none; a number has none.
pub fn tested_length(alpha: bool, n: Option<i64>) -> Result<u8, Code>
    ensures { result ≡ spec.tested_length alpha n }
{
    if !alpha {
        return Err(Code::known(P53_LENGTH));
    }
    match n {
        Some(n) if 1 <= n && n <= LONGEST_VALUE as i64 => Ok(n as u8),
        _ => Err(Code::known(P53_LENGTH)),
    }
}

/// The length after dimensions, or what stands for it where none is written, and what stands after it.
#[tactic(auto, using(crate::proofs::DimensionRows::length_part, crate::proofs::DimensionRows::length_is, crate::proofs::DimensionRows::length_rest, crate::proofs::DimensionRows::no_length, crate::proofs::DimensionRows::no_length_rest))]
fn length_after<'t>(
    e: &Env<'_>,
    otherwise: u8,
    alpha: bool,
    text: &'t [u8],
) -> Result<(u8, &'t [u8]), Code>
    requires phrase { maybe_phrase start.Numeric row.SUM text.now ≡ true }
    ensures { Gives (spec.length_after (in_statement (surroundings e.now)) otherwise alpha (maybe_tree start.Numeric row.SUM text.now)) (after_maybe start.Numeric row.SUM text.now) result }
{
    if !is_numeric_at(text) {
        return Ok((otherwise, text));
    }
    let (x, rest) = match number_at(e, text) {
        Ok(found) => found,
        Err(code) => return Err(code),
    };
    match tested_length(alpha, whole(fix(x))) {
        Ok(len) => Ok((len, rest)),
        Err(code) => Err(code),
    }
}

/// The shape of an array, and what stands after it: its dimensions, and then its length, or what stands for it where none is
/// written. P50 and P53 come as each number is taken.
#[tactic(auto, using(crate::proofs::DimensionRows::shape_dimensions, crate::proofs::DimensionRows::shape_length, crate::proofs::DimensionRows::shape_is, crate::proofs::DimensionRows::shape_rest))]
pub fn array_shape_at<'t>(
    e: &Env<'_>,
    otherwise: u8,
    alpha: bool,
    text: &'t [u8],
) -> Result<(Shape, &'t [u8]), Code>
    requires phrase { is_phrase row.SUBSCRIPTS_AND_LENGTH text.now ≡ true }
    ensures { Gives (spec.array_shape (in_statement (surroundings e.now)) otherwise alpha (tree_at row.SUBSCRIPTS_AND_LENGTH text.now)) (after_phrase row.SUBSCRIPTS_AND_LENGTH text.now) result }
{
    let (size, after) = match dimensions_at(e, text) {
        Ok(found) => found,
        Err(code) => return Err(code),
    };
    match length_after(e, otherwise, alpha, after) {
        Ok((len, rest)) => {
            let (rows, cols) = (size.rows, size.cols);
            Ok((Shape { rows, cols, len }, rest))
        }
        Err(code) => Err(code),
    }
}
