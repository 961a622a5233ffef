// A number in a row of nibbles.
ghost use Rattle.std.specs.Prelude.{◌≡◌, ◌+◌, ◌*◌, ◌/◌, ◌%◌, ◌^◌, ◌<◌, ◌≤◌, length, get_or};
ghost use Rattle.b2_pack.specs.Nibbles.{nibbles, last_digits};
ghost use Rattle.b2_pack.specs.Rows as spec;

use crate::nibbles::{begins_decimal, digits_number, nibble_at};
use b2_base::Code;
use b2_base::codes::{X75_NOT_DECIMAL, X76_LOCATOR_OR_FIELD};
use b2_dec::Dec;

/// The nibble of a sign after the digits of a number that isn't below zero.
const PLUS_NIBBLE: u8 = 0xC;
/// The nibble of a sign after the digits of a number below zero.
const MINUS_NIBBLE: u8 = 0xD;

/// Where the nibble of a sign stands.
#[derive(Clone, Copy)]
pub(crate) enum SignNibble {
    /// Nowhere.
    Absent,
    /// Before the digits: 0, or 1 for a number below zero.
    Before,
    /// After the digits: C, or D for a number below zero.
    After,
}

/// Decimal digits in nibbles.
#[derive(Clone, Copy)]
pub(crate) struct Row {
    pub(crate) sign: SignNibble,
    /// How many digits there are.
    pub(crate) digits: u16,
    /// How many of them stand after the point.
    pub(crate) decimals: u8,
}

/// How many bytes a row has.
pub(crate) fn row_length(row: Row) -> usize
    ensures width { result ≡ spec.row_length row }
    ensures bound { result ≤ 32768 }
{
    let sign = if row.sign == SignNibble::Absent { 0 } else { 1 };
    (row.digits as usize + sign + 1) / 2
}

/// The digit that counts 10^k, of a number in units of its last decimal that is kept.
fn cut_digit(x: Dec, decimals: u8, k: u16) -> u8
    ensures digit { result ≡ spec.cut_size decimals x / 10 ^ k % 10 }
    ensures small { result < 10 }
{
    let coef = x.coefficient();
    let up = x.place() + decimals as u32;
    let down = 111 + k as u32;
    if down < up {
        return 0;
    }
    let left = down - up;
    if left > 12 {
        return 0;
    }
    (coef / 10u64.pow(left) % 10) as u8
}

/// Whether a row has a digit for each one of a number that is left.
pub(crate) fn row_fits(row: Row, x: Dec) -> bool
    ensures { result ≡ spec.row_fits row x }
{
    if x.is_zero() {
        return true;
    }
    x.place() + (row.decimals as u32) < 99 + row.digits as u32
}

/// The digit of a row at a place, counted from the left, and 0 past the last one.
fn digit_at(row: Row, x: Dec, place: usize) -> u8
    ensures digit { result ≡ get_or (last_digits row.digits (spec.cut_size row.decimals x)) place 0 }
    ensures small { result < 16 }
{
    if place < row.digits as usize {
        cut_digit(x, row.decimals, row.digits - 1 - place as u16)
    } else {
        0
    }
}

/// The nibble of a row at a place, and 0 past the last one.
fn row_nibble(row: Row, x: Dec, place: usize) -> u8
    ensures nibble { result ≡ get_or (spec.row_nibbles row x) place 0 }
    ensures small { result < 16 }
{
    match row.sign {
        SignNibble::Absent => digit_at(row, x, place),
        SignNibble::Before => {
            if place == 0 {
                u8::from(x.is_negative())
            } else {
                digit_at(row, x, place - 1)
            }
        }
        SignNibble::After => {
            if place == row.digits as usize {
                if x.is_negative() {
                    MINUS_NIBBLE
                } else {
                    PLUS_NIBBLE
                }
            } else {
                digit_at(row, x, place)
            }
        }
    }
}

/// Writes a number into the bytes of a row.
pub(crate) fn write_row(row: Row, x: Dec, to: &mut [u8])
    requires { length to.old ≡ spec.row_length row }
    ensures { to.new ≡ spec.row_bytes row x }
{
    for i in 0..to.len() {
        to[i] = 16 * row_nibble(row, x, 2 * i) + row_nibble(row, x, 2 * i + 1);
    }
}

/// How many nibbles stand before the digits of a row.
fn digits_start(sign: SignNibble) -> usize
    ensures start { result ≡ spec.digits_start sign }
    ensures bound { result ≤ 1 }
{
    match sign {
        SignNibble::Absent => 0,
        SignNibble::Before => 1,
        SignNibble::After => 0,
    }
}

/// Whether all nibbles of a row are digits, but for a sign after them; a sign before them is 0 or 1.
fn are_digits(row: Row, bytes: &[u8]) -> bool
    requires { length bytes.now ≡ spec.row_length row }
    ensures { result ≡ spec.are_digits row.sign row.digits (nibbles bytes.now) }
{
    match row.sign {
        SignNibble::Absent => begins_decimal(bytes, 2 * bytes.len()),
        SignNibble::Before => nibble_at(bytes, 0) <= 1 && begins_decimal(bytes, 2 * bytes.len()),
        SignNibble::After => begins_decimal(bytes, row.digits as usize),
    }
}

/// Whether the sign after the digits of a row is C or D.
fn ends_in_sign(row: Row, bytes: &[u8]) -> bool
    requires { length bytes.now ≡ spec.row_length row }
    ensures { result ≡ spec.ends_in_sign row.sign row.digits (nibbles bytes.now) }
{
    if row.sign != SignNibble::After {
        return true;
    }
    let sign = nibble_at(bytes, row.digits as usize);
    sign == PLUS_NIBBLE || sign == MINUS_NIBBLE
}

/// Whether the sign of a row is that of a number below zero.
fn is_below_zero(row: Row, bytes: &[u8]) -> bool
    requires { length bytes.now ≡ spec.row_length row }
    ensures { result ≡ spec.is_below_zero row.sign row.digits (nibbles bytes.now) }
{
    match row.sign {
        SignNibble::Absent => false,
        SignNibble::Before => nibble_at(bytes, 0) == 1,
        SignNibble::After => nibble_at(bytes, row.digits as usize) == MINUS_NIBBLE,
    }
}

/// The number in the bytes of a row: X75 where a nibble isn't a digit or a sign before them isn't 0 or 1, then X76 where
/// a sign after them isn't C or D, and where the number is too large.
pub(crate) fn number_of_row(row: Row, bytes: &[u8]) -> Result<Dec, Code>
    requires width { length bytes.now ≡ spec.row_length row }
    requires digits { row.digits < 600 }
    requires decimals { row.decimals ≤ 13 }
    ensures { result ≡ spec.number_of_row row bytes.now }
{
    if !are_digits(row, bytes) {
        return Err(Code::known(X75_NOT_DECIMAL));
    }
    if !ends_in_sign(row, bytes) {
        return Err(Code::known(X76_LOCATOR_OR_FIELD));
    }
    let neg = is_below_zero(row, bytes);
    let start = digits_start(row.sign);
    match digits_number(neg, bytes, start, row.digits, row.decimals) {
        Ok(x) => Ok(x),
        Err(_) => Err(Code::known(X76_LOCATOR_OR_FIELD)),
    }
}
