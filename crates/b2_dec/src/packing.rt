// Numbers in eight bytes.
ghost use Rattle.std.specs.Prelude.{◌≡◌, ◌+◌, ◌*◌, ◌≤◌, ◌↔◌, IfSome, Some, IsTrue};
ghost use Rattle.std.specs.Int.{w64, to_be_bytes, from_be_bytes};
ghost use Rattle.b2_dec.specs.Number.{Number, IsNumber};
ghost use Rattle.b2_dec.specs.Packing as spec;
ghost use Rattle.b2_dec.specs.Packing.{packed, IsPacked};

use crate::lanes::{nibbles_of, nibbles_value};
use crate::number::Dec;
use crate::rounding::COEFFICIENT_LIMIT;

/// What the three nibbles of the signs and the exponent count in the word of a packed number.
const HEAD: u64 = 1 << 52;

/// The limit of eight digits.
const EIGHT: u64 = 100_000_000;

/// The number in eight bytes: a nibble for the two signs, two digits of the exponent's size, and the thirteen digits.
pub fn pack(a: Dec) -> [u8; 8]
    ensures { result ≡ packed a }
{
    packed_word(a).to_be_bytes()
}

/// The number in eight bytes, None where no number is packed in this way.
pub fn unpack(b: &[u8; 8]) -> Option<Dec>
    ensures back { (x : Number) → IsNumber x → b.now ≡ packed x → result ≡ Some x }
    ensures only { IfSome result (λ x. b.now ≡ packed x) }
{
    let number = decoded(b)?;
    if is_packed(number, b) {
        Some(number)
    } else {
        None
    }
}

/// The number that was packed in these eight bytes.
pub fn unpacked(b: &[u8; 8]) -> Dec
    requires { IsPacked b.now }
    ensures { (x : Number) → IsNumber x → b.now ≡ packed x → result ≡ x }
{
    let word = u64::from_be_bytes(*b);
    let head = word / HEAD;
    Dec::of_parts(
        is_below_zero(head),
        coefficient(word),
        place(head, exponent_digits(head)),
    )
}

/// The eight bytes of a packed number as one word, the first of them highest.
fn packed_word(a: Dec) -> u64
    ensures { to_be_bytes w64 result ≡ packed a }
{
    let coef = a.coefficient();
    let high = three_digits(a) * 100_000 + (coef / EIGHT) as u32;
    nibbles_of(high, (coef % EIGHT) as u32)
}

/// The first three digits of a packed number: one for the two signs, and two of the exponent's size.
fn three_digits(a: Dec) -> u32
    ensures value { result ≡ spec.signs a * 100 + spec.exponent_size a }
    ensures bound { result ≤ 999 }
{
    signs(a) * 100 + exponent_size(a)
}

/// The size of the exponent.
fn exponent_size(a: Dec) -> u32
    ensures value { result ≡ spec.exponent_size a }
    ensures bound { result ≤ 99 }
{
    let place = a.place();
    if place < 99 { 99 - place } else { place - 99 }
}

/// The nibble of the two signs.
fn signs(a: Dec) -> u32
    ensures value { result ≡ spec.signs a }
    ensures bound { result ≤ 9 }
{
    let number = if a.is_negative() { 1 } else { 0 };
    if a.place() < 99 { number + 8 } else { number }
}

/// The place of a number's last digit, from the nibbles of its signs and of its exponent and the size that these have.
fn place(head: u64, size: u8) -> u8
    requires { size ≤ 99 }
    ensures value { (x : Number) → IsNumber x → head ≡ spec.head x → size ≡ spec.exponent_size x → result ≡ x.place }
    ensures bound { result ≤ 198 }
{
    if head / 256 >= 8 {
        99 - size
    } else {
        99 + size
    }
}

/// What the two nibbles of an exponent's size spell as digits.
fn exponent_digits(head: u64) -> u8
    ensures { (x : Number) → IsNumber x → head ≡ spec.head x → result ≡ spec.exponent_size x }
{
    (head % 256 - 6 * (head % 256 / 16)) as u8
}

/// Whether a number is below zero, from the nibbles of its signs and of its exponent.
fn is_below_zero(head: u64) -> bool
    ensures { (x : Number) → IsNumber x → head ≡ spec.head x → result ≡ x.neg }
{
    head / 256 % 2 == 1
}

/// What the last thirteen nibbles of a word spell as digits.
fn coefficient(word: u64) -> u64
    ensures { (x : Number) → IsNumber x → word ≡ from_be_bytes w64 (packed x) → result ≡ x.coef }
{
    nibbles_value(word % HEAD)
}

/// The number that is packed in these bytes, if one is. Other bytes are let through.
fn decoded(b: &[u8; 8]) -> Option<Dec>
    ensures { (x : Number) → IsNumber x → b.now ≡ packed x → result ≡ Some x }
{
    let word = u64::from_be_bytes(*b);
    let head = word / HEAD;
    let coef = coefficient(word);
    let size = exponent_digits(head);
    if coef == 0 {
        return Some(Dec::zero());
    }
    if coef < 1_000_000_000_000 {
        return None;
    }
    if coef >= COEFFICIENT_LIMIT {
        return None;
    }
    if size > 99 {
        return None;
    }
    Some(Dec::ending_at(is_below_zero(head), coef, place(head, size)))
}

/// Whether these bytes are a packed number.
fn is_packed(a: Dec, b: &[u8; 8]) -> bool
    ensures { IsTrue result ↔ (b.now ≡ packed a) }
{
    packed_word(a) == u64::from_be_bytes(*b)
}
