// One value in one field.
ghost use Rattle.std.specs.Prelude.{◌≡◌, ◌≤◌, None, Some, length, if◌then◌else◌};
ghost use Rattle.std.specs.Result.{result_err};
ghost use Rattle.b2_dec.specs.Number.{Number};
ghost use Rattle.b2_dectext.specs.Printed.{printed, without_spaces};
ghost use Rattle.b2_dectext.specs.FieldParts.{right_aligned};
ghost use Rattle.b2_pack.specs.Specification as specification;
ghost use Rattle.b2_pack.specs.PackedNumbers as packed;
ghost use Rattle.b2_pack.specs.FieldValues as spec;

use crate::rows::{number_of_row, row_fits, write_row};
use crate::specification::{Field, digits_row};
use b2_alpha::assign;
use b2_base::Code;
use b2_base::codes::{X71_DOES_NOT_FIT, X73_NOT_A_NUMBER, X74_OTHER_KIND, X76_LOCATOR_OR_FIELD};
use b2_base::lexical::{first_bytes, rest_after, skip_blanks};
use b2_dec::{Bytes, Dec, Kind, Value};

/// A printed form without the blank after it, and without the one before it unless the number is below zero.
fn without_outer_blanks(neg: bool, shown: &[u8]) -> &[u8]
    ensures text { (x : Number) → neg ≡ x.neg → shown.now ≡ printed x → result.now ≡ without_spaces x }
    ensures within { length result.now ≤ length shown.now }
{
    let text = first_bytes(shown, shown.len().saturating_sub(1));
    if neg { text } else { rest_after(text, 1) }
}

/// The text of a number: its printed form without the outer spaces.
fn number_text(x: Dec) -> Bytes
    ensures { result ≡ without_spaces x }
{
    let mut shown = [0; 24];
    let len = b2_dectext::write(x, &mut shown);
    alpha_of(without_outer_blanks(x.is_negative(), first_bytes(&shown, len)))
}

/// Nothing, or the code.
fn unless(fits: bool, code: u8) -> Result<(), Code>
    requires least { 1 ≤ code }
    requires most { code ≤ 99 }
    ensures { result_err result ≡ (if fits then None else Some code) }
{
    if fits { Ok(()) } else { Err(Code::known(code)) }
}

/// X74 for a value that isn't of the field's kind, X71 for a number that doesn't fit.
pub(crate) fn check_value(field: Field, value: &Value) -> Result<(), Code>
    requires { specification.IsField field }
    ensures { result_err result ≡ spec.value_code field value.now }
{
    match value {
        Value::Number(x) => match field {
            Field::Text(width) => {
                unless(number_text(*x).len() <= width as usize, X71_DOES_NOT_FIT)
            }
            Field::Digits { decimals, width } => {
                unless(row_fits(digits_row(decimals, width), *x), X71_DOES_NOT_FIT)
            }
            Field::Packed => Ok(()),
            Field::Alpha(_) => Err(Code::known(X74_OTHER_KIND)),
        },
        Value::Alpha(_) => match field {
            Field::Alpha(_) => Ok(()),
            _ => Err(Code::known(X74_OTHER_KIND)),
        },
    }
}

/// Writes bytes at the right end, with blanks before them.
fn put_right(bytes: &[u8], to: &mut [u8])
    requires { length bytes.now ≤ length to.old }
    ensures { to.new ≡ right_aligned (length to.old) bytes.now }
{
    let front = to.len() - bytes.len();
    to[..front].fill(b' ');
    to[front..].copy_from_slice(bytes);
}

/// Writes a value into the bytes of a field that it fits.
pub(crate) fn put_value(field: Field, value: &Value, to: &mut [u8])
    requires legal { specification.IsField field }
    requires fits { spec.value_code field value.now ≡ None }
    requires width { length to.old ≡ specification.field_length field }
    ensures { to.new ≡ spec.bytes_in_field field value.now }
{
    match value {
        Value::Number(x) => put_number_in(field, *x, to),
        Value::Alpha(bytes) => assign(to, bytes.bytes()),
    }
}

/// Writes a number into the bytes of a field that it fits.
fn put_number_in(field: Field, x: Dec, to: &mut [u8])
    requires legal { specification.IsField field }
    requires fits { spec.value_code field (Value.Number x) ≡ None }
    requires width { length to.old ≡ specification.field_length field }
    ensures { to.new ≡ spec.bytes_in_field field (Value.Number x) }
{
    match field {
        Field::Text(_) => put_right(number_text(x).bytes(), to),
        Field::Digits { decimals, width } => write_row(digits_row(decimals, width), x, to),
        Field::Packed => to.copy_from_slice(&b2_dec::pack(x)),
        Field::Alpha(_) => {}
    }
}

/// One number with blanks before it and nothing else; else X73.
fn text_number(bytes: &[u8]) -> Result<Dec, Code>
    ensures { result ≡ spec.text_number bytes.now }
{
    let text = skip_blanks(bytes);
    let (len, number) = b2_dectext::read(text);
    if len != text.len() {
        return Err(Code::known(X73_NOT_A_NUMBER));
    }
    match number {
        Some(x) => Ok(x),
        None => Err(Code::known(X73_NOT_A_NUMBER)),
    }
}

/// Eight bytes.
fn eight(bytes: &[u8]) -> &[u8; 8]
    requires { length bytes.now ≡ 8 }
    ensures { result.now ≡ bytes.now }
{
    bytes.first_chunk().unwrap()
}

/// The number that is packed in eight bytes, if one is.
fn unpacked(bytes: &[u8]) -> Option<Dec>
    requires { length bytes.now ≡ 8 }
    ensures { result ≡ packed.unpacked bytes.now }
{
    match b2_dec::unpack(eight(bytes)) {
        Some(x) => {
            // That the number has one spelling.
            let _zero = x.is_zero();
            Some(x)
        }
        None => None,
    }
}

/// The number that is packed in eight bytes; X76 where none is.
fn packed_number(bytes: &[u8]) -> Result<Dec, Code>
    requires { length bytes.now ≡ 8 }
    ensures { result ≡ spec.packed_number bytes.now }
{
    match unpacked(bytes) {
        Some(x) => Ok(x),
        None => Err(Code::known(X76_LOCATOR_OR_FIELD)),
    }
}

/// The number in the bytes of a field, or the first code of the field.
fn number_of_field(field: Field, bytes: &[u8]) -> Result<Dec, Code>
    requires legal { specification.IsField field }
    requires width { length bytes.now ≡ specification.field_length field }
    ensures { spec.as_value result ≡ spec.field_value field Kind.Number bytes.now }
{
    match field {
        Field::Text(_) => text_number(bytes),
        Field::Digits { decimals, width } => number_of_row(digits_row(decimals, width), bytes),
        Field::Packed => packed_number(bytes),
        Field::Alpha(_) => Err(Code::known(X74_OTHER_KIND)),
    }
}

/// The bytes of a field as an alpha value.
fn alpha_of(bytes: &[u8]) -> Bytes
    requires { length bytes.now ≤ 255 }
    ensures { result ≡ bytes.now }
{
    let mut value = Bytes::new();
    value.extend(bytes);
    value
}

/// The value of a kind in the bytes of a field: X74 where the field is of the other kind, and then X75, X76 or X73 where
/// the bytes hold no number.
pub(crate) fn field_value(field: Field, kind: Kind, bytes: &[u8]) -> Result<Value, Code>
    requires legal { specification.IsField field }
    requires width { length bytes.now ≡ specification.field_length field }
    ensures { result ≡ spec.field_value field kind bytes.now }
{
    match kind {
        Kind::Number => match number_of_field(field, bytes) {
            Ok(x) => Ok(Value::Number(x)),
            Err(code) => Err(code),
        },
        Kind::Alpha => match field {
            Field::Alpha(_) => Ok(Value::Alpha(alpha_of(bytes))),
            _ => Err(Code::known(X74_OTHER_KIND)),
        },
    }
}
