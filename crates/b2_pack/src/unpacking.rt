// Values out of a buffer.
ghost use Rattle.std.specs.Prelude.{◌≡◌, ◌+◌, ◌≤◌, ◌<◌, ◌++◌, ◌∷◌, [], Ok, OnOk, IfOk, IfErr};
ghost use Rattle.b2_base.specs.Refusals.{IsRefused};
ghost use Rattle.b2_pack.specs.Images.{image_row};
ghost use Rattle.b2_pack.specs.Packing.{placed_fields};
ghost use Rattle.b2_pack.specs.Unpacking as unpacking;

use crate::field_values::field_value;
use crate::image::image_row;
use crate::packing::next_field;
use crate::rows::{Row, number_of_row, row_length};
use crate::specification::{field_length, is_specification};
use b2_base::codes::{P58_SPECIFICATION, X70_TOO_LITTLE};
use b2_base::{Code, Fault, NoMemory};
use b2_dec::{Dec, Kind, Value};
use std::alloc::Global;

/// Adds an item at the end of a list.
fn add<T: Drop>(list: &mut Vec<T>, item: T) -> Result<(), NoMemory>
    ensures { OnOk result (list.new.items ≡ list.old.items ++ item ∷ []) }
{
    list.push(item)?;
    Ok(())
}

/// The values of given kinds in the fields of a specification.
fn values_in(alloc: Global, text: &[u8], kinds: &[Kind], from: &[u8]) -> Result<Vec<Value>, Fault>
    ensures ok { IfOk result (λ values. unpacking.values_in (placed_fields text.now) kinds.now from.now ≡ Ok values.items) }
    ensures code { IfErr result (IsRefused (unpacking.values_in (placed_fields text.now) kinds.now from.now)) }
{
    let mut values = Vec::new(alloc);
    let mut rest = text;
    let mut at = 0;
    for kind in kinds {
        let Some(next) = next_field(rest, at, from.len()) else {
            return Err(Fault::Code(Code::known(X70_TOO_LITTLE)));
        };
        let end = next.start + field_length(next.field);
        match field_value(next.field, *kind, &from[next.start..end]) {
            Ok(value) => add(&mut values, value)?,
            Err(code) => return Err(Fault::Code(code)),
        }
        at = end;
        rest = next.rest;
    }
    Ok(values)
}

/// The values of given kinds that the fields of a specification hold, one in each, from the left.
///
/// P58 where the bytes are no specification. Then, for each value from the left, X70 where it has no field or its field
/// passes the end of the buffer, X74 where the field is of another kind, X75 where a nibble isn't a digit, X76 where the
/// sign of a packed decimal isn't C or D, where it is too large, and where no number is packed in eight bytes, X73 where a
/// text isn't one number with blanks before it.
pub fn unfields(
    alloc: Global,
    spec: &[u8],
    kinds: &[Kind],
    from: &[u8],
) -> Result<Vec<Value>, Fault>
    ensures ok { IfOk result (λ values. unpacking.fields_in spec.now kinds.now from.now ≡ Ok values.items) }
    ensures code { IfErr result (IsRefused (unpacking.fields_in spec.now kinds.now from.now)) }
{
    if !is_specification(spec) {
        return Err(Fault::Code(Code::known(P58_SPECIFICATION)));
    }
    values_in(alloc, spec, kinds, from)
}

/// Numbers in rows side by side.
fn numbers_in(alloc: Global, row: Row, n: usize, from: &[u8]) -> Result<Vec<Dec>, Fault>
    requires digits { row.digits < 600 }
    requires decimals { row.decimals ≤ 13 }
    ensures ok { IfOk result (λ xs. unpacking.numbers_in row 0 n from.now ≡ Ok xs.items) }
    ensures code { IfErr result (IsRefused (unpacking.numbers_in row 0 n from.now)) }
{
    let width = row_length(row);
    let mut xs = Vec::new(alloc);
    let mut at = 0;
    for _ in 0..n {
        if width > from.len() - at {
            return Err(Fault::Code(Code::known(X70_TOO_LITTLE)));
        }
        match number_of_row(row, &from[at..at + width]) {
            Ok(x) => add(&mut xs, x)?,
            Err(code) => return Err(Fault::Code(code)),
        }
        at += width;
    }
    Ok(xs)
}

/// `n` numbers that an image packs side by side.
///
/// P58 where the bytes are no image. Then, for each number from the left, X70 where the buffer ends and X75 where a nibble
/// isn't a digit or a sign isn't 0 or 1.
pub fn unpack(alloc: Global, image: &[u8], n: usize, from: &[u8]) -> Result<Vec<Dec>, Fault>
    ensures ok { IfOk result (λ xs. unpacking.numbers_by_rows (image_row image.now) n from.now ≡ Ok xs.items) }
    ensures code { IfErr result (IsRefused (unpacking.numbers_by_rows (image_row image.now) n from.now)) }
{
    let Some(row) = image_row(image) else {
        return Err(Fault::Code(Code::known(P58_SPECIFICATION)));
    };
    numbers_in(alloc, row, n, from)
}
