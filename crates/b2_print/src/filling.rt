// A value in a field.
ghost use Rattle.std.specs.Prelude.{◌≡◌, ◌+◌, ◌*◌, ◌/◌, ◌%◌, ◌^◌, ◌<◌, ◌≤◌, ◌++◌, length, drop};
ghost use Rattle.b2_base.specs.Byte as byte;
ghost use Rattle.b2_dectext.specs.FieldParts.{sign_bytes};
ghost use Rattle.b2_print.specs.Images.{point_width, field_width, dollar_bytes};
ghost use Rattle.b2_print.specs.Filling as spec;

use crate::image::Field;
use b2_alpha::assign;
use b2_dec::{Dec, Value};
use b2_dectext::Sign;

/// The digit of `coef · 10^up / 10^down` that counts one, as a byte.
fn shifted_digit(coef: u64, up: usize, down: usize) -> u8
    requires { coef < 10 ^ 13 }
    ensures { result ≡ byte.digit_0 + coef * 10 ^ up / 10 ^ down % 10 }
{
    if down < up {
        return b'0';
    }
    let left = down - up;
    if left > 12 {
        return b'0';
    }
    let unit = 10u64.pow(left as u32);
    b'0' + (coef / unit % 10) as u8
}

/// The digit of a number that counts 10^k.
fn whole_digit(x: Dec, k: usize) -> u8
    requires { k < 2 ^ 63 }
    ensures { result ≡ spec.whole_digit x k }
{
    shifted_digit(x.coefficient(), x.place() as usize, 111 + k)
}

/// The k-th digit of a number after the point, counted from 1.
fn decimal_digit(x: Dec, k: usize) -> u8
    requires { k < 2 ^ 63 }
    ensures { result ≡ spec.decimal_digit x k }
{
    shifted_digit(x.coefficient(), x.place() as usize + k, 111)
}

/// Whether the size of a number is 10^k or more.
fn reaches(x: Dec, k: usize) -> bool
    requires { k < 2 ^ 63 }
    ensures { result ≡ spec.reaches x k }
{
    !x.is_zero() && x.place() as usize >= 99 + k
}

/// Whether a number has a digit at 10^k.
fn has_digit(x: Dec, k: usize) -> bool
    requires { k < 2 ^ 63 }
    ensures { result ≡ spec.has_digit x k }
{
    k == 0 || reaches(x, k)
}

/// What a place shows that counts 10^k.
fn place_byte(x: Dec, k: usize, place: u8) -> u8
    requires { k < 2 ^ 63 }
    ensures { result ≡ spec.place_byte x k place }
{
    if place == b'#' {
        whole_digit(x, k)
    } else {
        place
    }
}

/// How many `#` the places of a field have.
fn hash_count(places: &[u8]) -> usize
    ensures { result ≡ spec.hash_count places.now }
{
    places.iter().filter(|place| **place == b'#').count()
}

/// Writes the point and the digits after it to the end of a text, and gives the place of the point.
fn fill_point(x: Dec, decimals: usize, into: &mut [u8]) -> usize
    requires { point_width decimals ≤ length into.old }
    ensures start { result + point_width decimals ≡ length into.old }
    ensures text { drop result into.new ≡ spec.point_filled x decimals }
{
    let mut start = into.len();
    if decimals == 0 {
        return start;
    }
    for done in 0..decimals {
        start -= 1;
        into[start] = decimal_digit(x, decimals - done);
    }
    start -= 1;
    into[start] = b'.';
    start
}

/// Writes the digits before the point in front of a place, and gives the place of the first.
fn fill_whole(x: Dec, places: &[u8], end: usize, into: &mut [u8]) -> usize
    requires room { length places.now ≤ end }
    requires within { end ≤ length into.old }
    ensures start { result + length (spec.whole_text x places.now) ≡ end }
    ensures text { drop result into.new ≡ spec.whole_text x places.now ++ drop end into.old }
    ensures few { end ≤ result + length places.now }
{
    let mut start = end;
    let mut k = 0;
    for done in 0..places.len() {
        let place = places[places.len() - 1 - done];
        if has_digit(x, k) {
            start -= 1;
            into[start] = place_byte(x, k, place);
        }
        if place == b'#' {
            k += 1;
        }
    }
    start
}

/// Writes the sign and the `$` of a field in front of a place, and gives the place of the first byte.
fn fill_signs(field: &Field<'_>, neg: bool, end: usize, into: &mut [u8]) -> usize
    requires room { length (sign_bytes field.now.sign) + length (dollar_bytes field.now.dollar) ≤ end }
    requires within { end ≤ length into.old }
    ensures start { result + (length (sign_bytes field.now.sign) + length (dollar_bytes field.now.dollar)) ≡ end }
    ensures text { drop result into.new
        ≡ spec.sign_filled field.now.sign neg ++ dollar_bytes field.now.dollar ++ drop end into.old }
{
    let mut start = end;
    if field.has_dollar() {
        start -= 1;
        into[start] = b'$';
    }
    match field.sign() {
        Sign::Unsigned => start,
        Sign::Always => {
            into[start - 1] = if neg { b'-' } else { b'+' };
            start - 1
        }
        Sign::Negative => {
            into[start - 1] = if neg { b'-' } else { b' ' };
            start - 1
        }
    }
}

/// Fills a field with a number; false where it doesn't fit, and `#` then fill the field.
pub(crate) fn fill_number(field: &Field<'_>, x: Dec, into: &mut [u8]) -> bool
    requires { length into.old ≡ field_width field.now }
    ensures fits { result ≡ spec.fits field.now x }
    ensures text { into.new ≡ spec.number_filled field.now x }
{
    if reaches(x, hash_count(field.whole())) {
        into.fill(b'#');
        return false;
    }
    let point = fill_point(x, field.decimals(), into);
    let whole = fill_whole(x, field.whole(), point, into);
    let start = fill_signs(field, x.is_negative(), whole, into);
    into[..start].fill(b' ');
    true
}

/// Fills a field with a value.
pub(crate) fn fill_field(field: &Field<'_>, value: &Value, into: &mut [u8])
    requires { length into.old ≡ field_width field.now }
    ensures { into.new ≡ spec.filled field.now value.now }
{
    match value {
        Value::Number(x) => {
            fill_number(field, *x, into);
        }
        Value::Alpha(bytes) => assign(into, bytes.bytes()),
    }
}
