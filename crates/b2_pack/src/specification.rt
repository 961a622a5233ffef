// The pairs of a specification.
ghost use Rattle.std.specs.Prelude.{◌≡◌, ◌≤◌, ◌<◌, ◌∷◌, [], length, MatchOption, IfSome};
ghost use Rattle.b2_pack.specs.Specification as spec;

use crate::rows::{Row, SignNibble};

/// The kind of a pair that skips bytes.
pub(crate) const SKIP: u8 = 0x00;
/// The kind of number text.
pub(crate) const TEXT: u8 = 0x10;
/// The kind of packed decimals without digits after the point; those with 1 to 9 follow.
pub(crate) const DIGITS: u8 = 0x50;
/// The kind of a packed number.
pub(crate) const PACKED: u8 = 0x60;
/// The kind of an alpha value.
pub(crate) const ALPHA: u8 = 0xA0;

/// What a field holds, and in how many bytes.
#[derive(Clone, Copy)]
pub(crate) enum Field {
    /// The text of a number, at the right end of its width in bytes.
    Text(u8),
    /// A number's decimal digits, some of them after the point, with the sign in the last nibble.
    Digits { decimals: u8, width: u8 },
    /// A packed number of eight bytes.
    Packed,
    /// An alpha value, padded or cut to its width in bytes.
    Alpha(u8),
}

/// A pair of a specification.
#[derive(Clone, Copy)]
pub(crate) enum Pair {
    /// A number of bytes that are left as they are.
    Skip(u8),
    /// A field that holds one value.
    Holding(Field),
}

/// How many bytes a field has.
pub(crate) fn field_length(field: Field) -> usize
    ensures width { result ≡ spec.field_length field }
    ensures bound { result ≤ 255 }
{
    match field {
        Field::Text(width) => width as usize,
        Field::Digits { width, .. } => width as usize,
        Field::Packed => 8,
        Field::Alpha(width) => width as usize,
    }
}

/// The row of a packed decimal.
pub(crate) fn digits_row(decimals: u8, width: u8) -> Row
    requires { 1 ≤ width }
    ensures { result ≡ spec.digits_row decimals width }
{
    Row {
        sign: SignNibble::After,
        digits: 2 * u16::from(width) - 1,
        decimals,
    }
}

/// What a pair of a kind and a width means; None where there is no such pair.
fn pair_meant(kind: u8, width: u8) -> Option<Pair>
    ensures { result ≡ spec.pair_meant kind width }
{
    if width == 0 {
        return None;
    }
    if kind == SKIP {
        return Some(Pair::Skip(width));
    }
    if kind == TEXT {
        return Some(Pair::Holding(Field::Text(width)));
    }
    if kind >= DIGITS && kind <= DIGITS + 9 {
        return Some(Pair::Holding(Field::Digits {
            decimals: kind - DIGITS,
            width,
        }));
    }
    if kind == PACKED && width == 8 {
        return Some(Pair::Holding(Field::Packed));
    }
    if kind == ALPHA {
        return Some(Pair::Holding(Field::Alpha(width)));
    }
    None
}

/// Whether two bytes end a specification.
fn ends_pairs(kind: u8, width: u8) -> bool
    ensures { result ≡ spec.ends_pairs kind width }
{
    kind == b' ' && width == b' '
}

/// The first pair of a specification, and what follows it; None where it ends before one.
pub(crate) fn split_pair(text: &[u8]) -> Option<(Pair, &[u8])>
    ensures pairs { MatchOption result (spec.specified_pairs text.now ≡ []) (λ r. spec.specified_pairs text.now ≡ r.0 ∷ spec.specified_pairs r.1.now) }
    ensures shorter { IfSome result (λ r. length r.1.now < length text.now) }
    ensures legal { IfSome result (λ r. spec.IsPair r.0) }
{
    match text {
        [kind, width, rest @ ..] => {
            if ends_pairs(*kind, *width) {
                return None;
            }
            match pair_meant(*kind, *width) {
                Some(pair) => Some((pair, rest)),
                None => None,
            }
        }
        _ => None,
    }
}

/// Whether bytes are a specification of $PACK.
pub fn is_specification(text: &[u8]) -> bool
    ensures { result ≡ spec.is_specification text.now }
{
    let mut rest = text;
    while let [kind, width, after @ ..] = rest {
        if ends_pairs(*kind, *width) {
            return true;
        }
        if pair_meant(*kind, *width).is_none() {
            return false;
        }
        rest = after;
    }
    match rest {
        [byte] => *byte == b' ',
        _ => true,
    }
}
