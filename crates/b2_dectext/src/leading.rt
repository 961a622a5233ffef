// The leading digits of a number that is read digit by digit: as many as its rounding needs.
ghost use Rattle.std.specs.Prelude.{◌≡◌, ℕ, ◌+◌, ◌*◌, ◌^◌, ◌<◌, ◌≤◌};
ghost use Rattle.b2_dec.specs.Rounding.{rnd};
ghost use Rattle.b2_dec.specs.declared.number.Mode.TheVariants.{Round};
ghost use Rattle.b2_dectext.specs.Digits.{IsLeading};

use b2_base::Code;
use b2_base::codes::{C60_UNDERFLOW, C61_OVERFLOW};
use b2_dec::{COEFFICIENT_LIMIT, Dec, Mode, round_exact, round_whole_part};

/// The leading digits of a number, at most fourteen, and how many follow them.
#[derive(Clone, Copy)]
pub struct Leading {
    /// The leading digits.
    pub digits: u64,
    /// How many digits follow them.
    pub more: usize,
}

/// The leading digits where one more digit follows.
pub fn with_digit(leading: Leading, digit: u8) -> Leading
    requires decimal { digit < 10 }
    requires fits { leading.more + 1 < 2 ^ 64 }
    ensures value { (n : ℕ) → IsLeading n leading.digits leading.more → IsLeading (10 * n + digit) result.digits result.more }
    ensures bound { result.more ≤ leading.more + 1 }
{
    if leading.digits < COEFFICIENT_LIMIT {
        Leading {
            digits: leading.digits * 10 + digit as u64,
            more: leading.more,
        }
    } else {
        Leading {
            digits: leading.digits,
            more: leading.more + 1,
        }
    }
}

/// The number that leading digits become, a half going away from zero. After them `high - 222` digits stand before the
/// point; the whole is divided by ten `low` times. C60 and C61 where it is too small or too large.
pub fn rounded(neg: bool, digits: u64, high: u128, low: u128) -> Result<Dec, Code>
    requires few { digits < 10 ^ 14 }
    requires high { high < 2 ^ 100 }
    requires low { low < 2 ^ 100 }
    ensures { (n more tens : ℕ) → IsLeading n digits more → high ≡ 222 + (more + tens)
        → result ≡ rnd Round neg (n * 10 ^ tens) (10 ^ low) }
{
    if digits == 0 {
        return Ok(Dec::zero());
    }
    if high < low + 25 {
        return Err(Code::known(C60_UNDERFLOW));
    }
    if high > low + 321 {
        return Err(Code::known(C61_OVERFLOW));
    }
    let place = (high - low) as u32;
    if digits < COEFFICIENT_LIMIT {
        round_exact(neg, digits as u128, place, Mode::Round)
    } else {
        round_whole_part(neg, digits as u128, place, Mode::Round)
    }
}
