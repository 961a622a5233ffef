// Nibbles and the digits that they are.
ghost use Rattle.std.specs.Prelude.{◌≡◌, ◌+◌, ◌*◌, ◌^◌, ◌<◌, ◌≤◌, length, get_or, take, drop, true};
ghost use Rattle.std.specs.List.{list_all};
ghost use Rattle.b2_dec.specs.Rounding.{rnd};
ghost use Rattle.b2_dec.specs.declared.number.Mode.TheVariants.{Round};
ghost use Rattle.b2_dectext.specs.Digits.{IsLeading};
ghost use Rattle.b2_pack.specs.Nibbles as spec;

use b2_base::Code;
use b2_dec::Dec;
use b2_dectext::{Leading, rounded, with_digit};

/// The nibble at a place, counted from 0; the high half of a byte comes first.
pub(crate) fn nibble_at(bytes: &[u8], place: usize) -> u8
    requires { place < 2 * length bytes.now }
    ensures nibble { result ≡ get_or (spec.nibbles bytes.now) place 0 }
    ensures small { result < 16 }
{
    let byte = bytes[place / 2];
    if place % 2 == 0 { byte / 16 } else { byte % 16 }
}

/// Whether the first nibbles are decimal digits.
pub(crate) fn begins_decimal(bytes: &[u8], count: usize) -> bool
    requires { count ≤ 2 * length bytes.now }
    ensures { result ≡ list_all spec.is_decimal_nibble (take count (spec.nibbles bytes.now)) }
{
    for place in 0..count {
        if nibble_at(bytes, place) > 9 {
            return false;
        }
    }
    true
}

/// The leading digits of the number that the nibbles from a place on spell.
fn leading_digits(bytes: &[u8], start: usize, count: u16) -> Leading
    requires within { start + count ≤ 2 * length bytes.now }
    requires decimal { list_all spec.is_decimal_nibble (take count (drop start (spec.nibbles bytes.now))) ≡ true }
    ensures value { IsLeading (spec.decimal_after 0 (take count (drop start (spec.nibbles bytes.now)))) result.digits result.more }
    ensures bound { result.more ≤ count }
{
    let mut leading = Leading { digits: 0, more: 0 };
    for done in 0..count {
        leading = with_digit(leading, nibble_at(bytes, start + done as usize));
    }
    leading
}

/// The number of a sign and `count` digits from a place on, with `decimals` of them after the point. It is rounded to
/// thirteen digits, a half going away from zero. A code comes where it is too large.
pub(crate) fn digits_number(
    neg: bool,
    bytes: &[u8],
    start: usize,
    count: u16,
    decimals: u8,
) -> Result<Dec, Code>
    requires within { start + count ≤ 2 * length bytes.now }
    requires decimal { list_all spec.is_decimal_nibble (take count (drop start (spec.nibbles bytes.now))) ≡ true }
    requires short { count < 600 }
    requires decimals { decimals ≤ 13 }
    ensures { result ≡ rnd Round neg (spec.decimal_after 0 (take count (drop start (spec.nibbles bytes.now)))) (10 ^ decimals) }
{
    let leading = leading_digits(bytes, start, count);
    rounded(
        neg,
        leading.digits,
        222 + leading.more as u128,
        decimals as u128,
    )
}
