// Sums and differences.
ghost use Rattle.std.specs.Prelude.{◌≡◌, ◌+◌, ◌*◌, ◌/◌, ◌^◌, ◌<◌, ◌≤◌};
ghost use Rattle.b2_dec.specs.Arithmetic.{sum_of, difference_of};

use crate::number::{Dec, Mode, NumberOrCode};
use crate::rounding::{round_part, round_short, ten_to};
use b2_base::Code;

/// The rounded sum; C60 and C61 where it is too small or too large.
pub fn add(a: Dec, b: Dec, m: Mode) -> Result<Dec, Code>
    ensures { result ≡ sum_of m a b }
{
    sum_or_code(a, b, m).result()
}

/// The rounded difference; C60 and C61 where it is too small or too large.
pub fn sub(a: Dec, b: Dec, m: Mode) -> Result<Dec, Code>
    ensures { result ≡ difference_of m a b }
{
    difference_or_code(a, b, m).result()
}

/// The rounded sum, or C60 or C61, in one word.
pub fn sum_or_code(a: Dec, b: Dec, m: Mode) -> NumberOrCode
    ensures { result ≡ sum_of m a b }
{
    let (nothing, no_change) = (a.is_zero(), b.is_zero());
    if nothing {
        return NumberOrCode::number(b);
    }
    if no_change {
        return NumberOrCode::number(a);
    }
    if a.place() >= b.place() {
        sum(a, b, m)
    } else {
        sum(b, a, m)
    }
}

/// The rounded difference, or C60 or C61, in one word.
pub fn difference_or_code(a: Dec, b: Dec, m: Mode) -> NumberOrCode
    ensures { result ≡ difference_of m a b }
{
    sum_or_code(a, b.opposite(), m)
}

/// The sum of two numbers, the first of which has no lower place.
fn sum(high: Dec, low: Dec, mode: Mode) -> NumberOrCode
    requires some { 1000000000000 ≤ high.coef }
    requires other { 1000000000000 ≤ low.coef }
    requires digits { low.coef < 10000000000000 }
    requires order { low.place ≤ high.place }
    ensures { result ≡ sum_of mode high low }
{
    let apart = high.place() - low.place();
    if apart > 1 {
        far_sum(high, low, apart, mode)
    } else {
        near_sum(high, low, apart, mode)
    }
}

/// The sum of two numbers that are at most one place apart, in units of the lower place.
#[inline(always)]
fn near_sum(high: Dec, low: Dec, apart: u32, mode: Mode) -> NumberOrCode
    requires apart { high.place ≡ low.place + apart }
    requires near { apart ≤ 1 }
    ensures { result ≡ sum_of mode high low }
{
    let x = lowered(high.coefficient(), apart);
    let y = low.coefficient();
    let at = low.place() + 111;
    if high.is_negative() == low.is_negative() {
        round_short(high.is_negative(), x + y, at, mode)
    } else if x >= y {
        round_short(high.is_negative(), x - y, at, mode)
    } else {
        round_short(low.is_negative(), y - x, at, mode)
    }
}

/// Digits in units of the same place or of the next lower one.
#[inline(always)]
fn lowered(coef: u64, places: u32) -> u64
    requires digits { coef < 10000000000000 }
    requires few { places ≤ 1 }
    ensures value { result ≡ coef * 10 ^ places }
    ensures bound { result < 100000000000000 }
{
    if places == 0 { coef } else { coef * 10 }
}

/// The sum of two numbers that are further apart: what the second one has in two more places than the first settles it.
#[inline(always)]
fn far_sum(high: Dec, low: Dec, apart: u32, mode: Mode) -> NumberOrCode
    requires some { 1000000000000 ≤ high.coef }
    requires other { 1000000000000 ≤ low.coef }
    requires apart { high.place ≡ low.place + apart }
    requires far { 2 ≤ apart }
    ensures { result ≡ sum_of mode high low }
{
    let x = high.coefficient() * 100;
    let y = low.coefficient();
    let at = high.place() + 109;
    if high.is_negative() == low.is_negative() {
        round_part(high.is_negative(), x + units_above(y, apart - 2), at, mode)
    } else {
        round_part(
            high.is_negative(),
            x - (units_above(y - 1, apart - 2) + 1),
            at,
            mode,
        )
    }
}

/// The whole units of a higher place that digits have.
#[inline(always)]
fn units_above(coef: u64, places: u32) -> u64
    requires { coef < 10000000000000 }
    ensures value { result ≡ coef / 10 ^ places }
    ensures bound { result ≤ coef }
{
    coef / ten_to(places.min(13))
}
