// Values into a buffer.
ghost use Rattle.std.specs.Prelude.{◌≡◌, ◌+◌, ◌≤◌, ◌<◌, None, Some, length, true, OnOk, OnErr, MatchOption};
ghost use Rattle.std.specs.Result.{result_err};
ghost use Rattle.b2_pack.specs.Images.{image_row};
ghost use Rattle.b2_pack.specs.Rows.{row_length};
ghost use Rattle.b2_pack.specs.Specification.{specified_pairs, field_length};
ghost use Rattle.b2_pack.specs.Packing as packing;
ghost use Rattle.b2_pack.specs.Laws.{Packs};

use crate::field_values::{check_value, put_value};
use crate::image::image_row;
use crate::rows::{Row, row_fits, row_length, write_row};
use crate::specification::{Field, Pair, field_length, is_specification, split_pair};
use b2_base::Code;
use b2_base::codes::{P58_SPECIFICATION, X70_TOO_LITTLE, X71_DOES_NOT_FIT};
use b2_dec::{Dec, Value};

/// The field of the next value: where it begins, and what of the specification follows it.
#[derive(Clone, Copy)]
pub(crate) struct NextField<'a> {
    pub(crate) field: Field,
    pub(crate) start: usize,
    pub(crate) rest: &'a [u8],
}

/// The next field of a specification from a place of a buffer on, where it lies in the buffer.
pub(crate) fn next_field(text: &[u8], at: usize, room: usize) -> Option<NextField<'_>>
    requires { at ≤ room }
    ensures { MatchOption result
        (packing.lacks_room (packing.placed_from at (specified_pairs text.now)) room ≡ true)
        (λ next. packing.IsNextField text.now at room next.field next.start next.rest.now) }
{
    let mut start = at;
    let mut rest = text;
    while let Some((pair, after)) = split_pair(rest) {
        match pair {
            Pair::Skip(width) => {
                if width as usize > room - start {
                    return None;
                }
                start += width as usize;
            }
            Pair::Holding(field) => {
                if field_length(field) > room - start {
                    return None;
                }
                return Some(NextField {
                    field,
                    start,
                    rest: after,
                });
            }
        }
        rest = after;
    }
    None
}

/// The first code of values from the left: X70 where a value has no field in the buffer, X74 where it is of another kind,
/// X71 where it doesn't fit.
fn check_values(text: &[u8], values: &[Value], room: usize) -> Result<(), Code>
    ensures { result_err result ≡ packing.values_code (packing.placed_fields text.now) values.now room }
{
    let mut rest = text;
    let mut at = 0;
    for i in 0..values.len() {
        let Some(next) = next_field(rest, at, room) else {
            return Err(Code::known(X70_TOO_LITTLE));
        };
        check_value(next.field, &values[i])?;
        at = next.start + field_length(next.field);
        rest = next.rest;
    }
    Ok(())
}

/// Writes values into their fields, which they fit.
fn put_values(text: &[u8], values: &[Value], to: &mut [u8])
    requires { packing.values_code (packing.placed_fields text.now) values.now (length to.old) ≡ None }
    ensures { to.new ≡ packing.with_values (packing.placed_fields text.now) values.now to.old }
{
    let mut rest = text;
    let mut at = 0;
    for i in 0..values.len() {
        let Some(next) = next_field(rest, at, to.len()) else {
            return;
        };
        let end = next.start + field_length(next.field);
        put_value(next.field, &values[i], &mut to[next.start..end]);
        at = end;
        rest = next.rest;
    }
}

/// The code with which `fields` packs values into a buffer of so many bytes, if it has one.
pub fn check_fields(spec: &[u8], values: &[Value], room: usize) -> Result<(), Code>
    ensures { result_err result ≡ packing.fields_code spec.now values.now room }
{
    if !is_specification(spec) {
        return Err(Code::known(P58_SPECIFICATION));
    }
    check_values(spec, values, room)
}

/// Packs values into the fields of a specification, one in each, from the left.
///
/// P58 where the bytes are no specification. Then, for each value from the left, X70 where it has no field or its field
/// passes the end of the buffer, X74 where it is of another kind than its field, X71 where a number doesn't fit. After a
/// code the buffer is as before. Fields past the last value do nothing, and bytes outside of fields stay.
pub fn fields(spec: &[u8], values: &[Value], to: &mut [u8]) -> Result<(), Code>
    ensures code { result_err result ≡ packing.fields_code spec.now values.now (length to.old) }
    ensures packed { OnOk result (to.new ≡ packing.with_values (packing.placed_fields spec.now) values.now to.old) }
    ensures stands { OnOk result (Packs (packing.placed_fields spec.now) values.now to.old to.new) }
    ensures refused { OnErr result (to.new ≡ to.old) }
{
    check_fields(spec, values, to.len())?;
    put_values(spec, values, to);
    Ok(())
}

/// The first code of numbers from the left: X70 where the buffer ends, X71 where a number doesn't fit.
fn check_numbers(row: Row, xs: &[Dec], room: usize) -> Result<(), Code>
    ensures { result_err result ≡ packing.numbers_code row 0 xs.now room }
{
    let width = row_length(row);
    let mut at = 0;
    for x in xs {
        if width > room - at {
            return Err(Code::known(X70_TOO_LITTLE));
        }
        if !row_fits(row, *x) {
            return Err(Code::known(X71_DOES_NOT_FIT));
        }
        at += width;
    }
    Ok(())
}

/// Writes numbers into rows side by side, which they fit.
fn put_numbers(row: Row, xs: &[Dec], to: &mut [u8])
    requires { packing.numbers_code row 0 xs.now (length to.old) ≡ None }
    ensures { to.new ≡ packing.with_front_bytes (packing.numbers_bytes row xs.now) to.old }
{
    let width = row_length(row);
    let mut at = 0;
    for x in xs {
        write_row(row, *x, &mut to[at..at + width]);
        at += width;
    }
}

/// The code with which `pack` packs numbers into a buffer of so many bytes, if it has one.
pub fn check_pack(image: &[u8], xs: &[Dec], room: usize) -> Result<(), Code>
    ensures { result_err result ≡ packing.image_code (image_row image.now) xs.now room }
{
    match image_row(image) {
        Some(row) => check_numbers(row, xs, room),
        None => Err(Code::known(P58_SPECIFICATION)),
    }
}

/// Packs numbers side by side by an image.
///
/// P58 where the bytes are no image. Then, for each number from the left, X70 where the buffer ends and X71 where the
/// number doesn't fit. After a code the buffer is as before; the bytes past the last number stay.
pub fn pack(image: &[u8], xs: &[Dec], to: &mut [u8]) -> Result<(), Code>
    ensures code { result_err result ≡ packing.image_code (image_row image.now) xs.now (length to.old) }
    ensures packed { OnOk result (to.new ≡ packing.with_image (image_row image.now) xs.now to.old) }
    ensures refused { OnErr result (to.new ≡ to.old) }
{
    let Some(row) = image_row(image) else {
        return Err(Code::known(P58_SPECIFICATION));
    };
    check_numbers(row, xs, to.len())?;
    put_numbers(row, xs, to);
    Ok(())
}
