// How a value is spelled in a sector.
ghost use Rattle.std.specs.Prelude.{◌≡◌, ◌+◌, ◌≤◌, ◌++◌, true, List, ℕ, IfSome, IfNone, length, drop};
ghost use Rattle.std.specs.List.{list_all};
ghost use Rattle.b2_dec.specs.Number.{Number, IsNumber};
ghost use Rattle.b2_dec.specs.Packing.{packed};
ghost use Rattle.b2_dec.specs.declared.values.Value.{Value as AnyValue};
ghost use Rattle.b2_record.specs.Items.{value_spelled, group_bytes, is_short, IsStorable, AllStorable};

use b2_dec::{Bytes, Dec, Value, unpack};

/// The first byte of a number.
pub const NUMBER: u8 = 0x08;
/// The first byte of an alpha value, less its length.
pub const ALPHA: u8 = 0x80;
/// The byte after the last value of a sector.
pub const END_OF_VALUES: u8 = 0xFD;

/// How many bytes an alpha value has at most.
const MOST_ALPHA: u8 = 124;

/// Whether a value may stand in a record: a number, or an alpha value of 1 to 124 bytes.
pub fn is_short(value: &Value) -> bool
    ensures { result ≡ is_short value.now }
{
    match value {
        Value::Number(_) => true,
        Value::Alpha(bytes) => 1 <= bytes.len() && bytes.len() <= MOST_ALPHA as usize,
    }
}

/// Whether all values may stand in a record.
pub fn all_short(values: &[Value]) -> bool
    ensures { result ≡ list_all is_short values.now }
{
    for value in values {
        if !is_short(value) {
            return false;
        }
    }
    true
}

/// How many bytes a value takes in a sector.
pub(crate) fn value_width(value: &Value) -> usize
    requires { is_short value.now ≡ true }
    ensures count { result ≡ length (value_spelled value.now) }
    ensures some { 1 ≤ result }
    ensures few { result ≤ 125 }
    ensures storable { IsStorable value.now }
{
    match value {
        Value::Number(x) => 1 + packed_len(*x),
        Value::Alpha(bytes) => 1 + bytes.len(),
    }
}

/// How many bytes a number is packed into.
fn packed_len(x: Dec) -> usize
    ensures count { result ≡ 8 }
    ensures legal { IsNumber x }
{
    let _number = x.is_zero();
    8
}

/// How many bytes values take in a sector.
pub(crate) fn bytes_len(values: &[Value]) -> usize
    requires storable { AllStorable values.now }
    requires few { length (group_bytes values.now) ≤ 253 }
    ensures { result ≡ length (group_bytes values.now) }
{
    let mut len = 0;
    for value in values {
        len += value_width(value);
    }
    len
}

/// The number that is packed at the front, None where none is.
fn packed_number_at(bytes: &[u8]) -> Option<Dec>
    ensures some { IfSome result (λ x. IsNumber x × (bytes.now ≡ packed x ++ drop 8 bytes.now)) }
    ensures none { IfNone result ((x : Number) (rest : List ℕ) → IsNumber x → ¬ (bytes.now ≡ packed x ++ rest)) }
{
    let packed = bytes.first_chunk::<8>()?;
    let number = unpack(packed)?;
    let _number = number.is_zero();
    Some(number)
}

/// The length that the first byte of an alpha value has, None where the byte begins none.
fn alpha_len(lead: u8) -> Option<usize>
    ensures some { IfSome result (λ len. (lead ≡ ALPHA + len) × (1 ≤ len) × (len ≤ 124)) }
    ensures none { IfNone result ((len : ℕ) → 1 ≤ len → len ≤ 124 → ¬ (lead ≡ ALPHA + len)) }
{
    if lead > ALPHA && lead <= ALPHA + MOST_ALPHA {
        Some((lead - ALPHA) as usize)
    } else {
        None
    }
}

/// The alpha value after its first byte, None where none is spelled there.
fn alpha_at(lead: u8, bytes: &[u8]) -> Option<Bytes>
    ensures some { IfSome result (λ alpha. (lead ≡ ALPHA + length alpha) × (1 ≤ length alpha) × (length alpha ≤ 124) × (bytes.now ≡ alpha ++ drop (length alpha) bytes.now)) }
    ensures none { IfNone result ((alpha rest : List ℕ) → 1 ≤ length alpha → length alpha ≤ 124 → lead ≡ ALPHA + length alpha → ¬ (bytes.now ≡ alpha ++ rest)) }
{
    let len = alpha_len(lead)?;
    if bytes.len() < len {
        return None;
    }
    Bytes::of(&bytes[..len])
}

/// The value at the front and how many bytes it takes, None where no value is spelled there.
pub(crate) fn value_at(bytes: &[u8]) -> Option<(Value, usize)>
    ensures some { IfSome result (λ found. IsStorable found.0 × (bytes.now ≡ value_spelled found.0 ++ drop found.1 bytes.now) × (found.1 ≡ length (value_spelled found.0))) }
    ensures none { IfNone result ((v : AnyValue) (rest : List ℕ) → IsStorable v → ¬ (bytes.now ≡ value_spelled v ++ rest)) }
{
    let (lead, rest) = bytes.split_first()?;
    if *lead == NUMBER {
        let number = packed_number_at(rest)?;
        return Some((Value::Number(number), 9));
    }
    let alpha = alpha_at(*lead, rest)?;
    let len = 1 + alpha.len();
    Some((Value::Alpha(alpha), len))
}
