// Products and quotients.
ghost use Rattle.std.specs.Prelude.{◌≡◌, ◌*◌, ◌/◌, ◌<◌, ◌==◌};
ghost use Rattle.b2_dec.specs.Arithmetic.{product_of, quotient_of};

use crate::number::{Dec, Mode, NumberOrCode};
use crate::rounding::round_part;
use b2_base::Code;
use b2_base::codes::{C62_ZERO_DIVISOR, C63_ZERO_BY_ZERO};

/// 5^11.
const FIVES: u64 = 48_828_125;

/// The rounded product; C60 and C61 where it is too small or too large.
pub fn mul(a: Dec, b: Dec, m: Mode) -> Result<Dec, Code>
    ensures { result ≡ product_of m a b }
{
    product_or_code(a, b, m).result()
}

/// The rounded product, or C60 or C61, in one word.
pub fn product_or_code(a: Dec, b: Dec, m: Mode) -> NumberOrCode
    ensures { result ≡ product_of m a b }
{
    let (x, y) = (a.coefficient(), b.coefficient());
    if x == 0 || y == 0 {
        return NumberOrCode::number(Dec::zero());
    }
    let neg = a.is_negative() != b.is_negative();
    round_part(neg, product_part(x, y), a.place() + b.place() + 11, m)
}

/// The whole part of a product in units of 10^11.
fn product_part(x: u64, y: u64) -> u64
    requires first { x < 10000000000000 }
    requires second { y < 10000000000000 }
    ensures { result ≡ x * y / 100000000000 }
{
    // A shift divides by 2^11, and what is left to divide by is 5^11: first the upper bits, then what they leave with the lower ones.
    let product = x as u128 * y as u128 >> 11;
    let (high, low) = ((product >> 38) as u64, (product % (1 << 38)) as u64);
    (high / FIVES << 38) + ((high % FIVES << 38) + low) / FIVES
}

/// The rounded quotient. C63 for zero by zero, and then C62 for any other zero divisor; C60 and C61 where the quotient is
/// too small or too large.
pub fn div(a: Dec, b: Dec, m: Mode) -> Result<Dec, Code>
    ensures { result ≡ quotient_of m a b }
{
    quotient_or_code(a, b, m).result()
}

/// The rounded quotient, or the code that `div` gives, in one word.
pub fn quotient_or_code(a: Dec, b: Dec, m: Mode) -> NumberOrCode
    ensures { result ≡ quotient_of m a b }
{
    let (x, y) = (a.coefficient(), b.coefficient());
    if y == 0 {
        let code = if x == 0 {
            C63_ZERO_BY_ZERO
        } else {
            C62_ZERO_DIVISOR
        };
        return NumberOrCode::code(Code::known(code));
    }
    if x == 0 {
        return NumberOrCode::number(Dec::zero());
    }
    let neg = a.is_negative() != b.is_negative();
    let whole = x as u128 * 100_000_000_000_000 / y as u128;
    round_part(neg, whole as u64, a.place() + 208 - b.place(), m)
}
