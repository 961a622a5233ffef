// What a division leaves, and multiples of powers of ten.
ghost use Rattle.std.specs.Prelude.{◌≡◌, ◌*◌, ◌%◌, ◌^◌, ◌<◌, ◌≤◌};
ghost use Rattle.b2_dec.specs.declared.number.Mode.TheVariants.{Round, Cut};
ghost use Rattle.b2_dec.specs.Number.{size};
ghost use Rattle.b2_dec.specs.Rounding.{whole_by, rnd};
ghost use Rattle.b2_dec.specs.Arithmetic.{modulo_of, multiple_of};

use crate::number::{Dec, Mode};
use crate::rounding::{round_short, ten_to};
use crate::sums::add;
use b2_base::Code;
use b2_base::codes::{C62_ZERO_DIVISOR, P34_RANGE};

/// What is left of `a` by `b`: `a - b * floor(a / b)`, rounded. C62 for a zero divisor; C60 and C61 where it is too small
/// or too large.
pub fn modulo(a: Dec, b: Dec, m: Mode) -> Result<Dec, Code>
    ensures { result ≡ modulo_of m a b }
{
    let (x, y) = (a.coefficient(), b.coefficient());
    if y == 0 {
        return Err(Code::known(C62_ZERO_DIVISOR));
    }
    if x == 0 {
        return Ok(Dec::zero());
    }
    let same = a.is_negative() == b.is_negative();
    if a.place() < b.place() {
        return if same { Ok(a) } else { add(a, b, m) };
    }
    let rest = rest_of_raised(x, a.place() - b.place(), y);
    if same || rest == 0 {
        return round_short(b.is_negative(), rest, b.place() + 111, m).result();
    }
    round_short(b.is_negative(), y - rest, b.place() + 111, m).result()
}

/// What `y` leaves of `x · 10 ^ places`.
fn rest_of_raised(x: u64, places: u32, y: u64) -> u64
    requires some { 0 < y }
    requires digits { y < 10000000000000 }
    ensures value { result ≡ x * 10 ^ places % y }
    ensures bound { result < y }
{
    let mut rest = x % y;
    let mut left = places;
    while left > 0 {
        let step = left.min(6);
        rest = rest * ten_to(step) % y;
        left -= step;
    }
    rest
}

/// The multiple of `10 ^ -n` nearest to `a`, a half away from zero. P34 where `n` isn't from -99 to 99; C61 where the
/// multiple is too large.
pub fn round_to(a: Dec, n: i8) -> Result<Dec, Code>
    ensures { result ≡ multiple_of a n }
{
    if n < -99 || n > 99 {
        return Err(Code::known(P34_RANGE));
    }
    nearest_multiple(a, (111 - n as i32) as u32)
}

/// The multiple of one unit of a place that is nearest to `a`, a half away from zero.
fn nearest_multiple(a: Dec, last: u32) -> Result<Dec, Code>
    requires low { 12 ≤ last }
    requires high { last ≤ 210 }
    ensures { result ≡ rnd Cut a.neg (whole_by Round (size a) (10 ^ last) * 10 ^ last) (10 ^ 111) }
{
    let (coef, place) = (a.coefficient(), a.place());
    if coef == 0 {
        return Ok(Dec::zero());
    }
    if place >= last {
        return Ok(a);
    }
    let dropped = last - place;
    if dropped > 13 {
        return Ok(Dec::zero());
    }
    let unit = ten_to(dropped);
    round_short(
        a.is_negative(),
        (coef + unit / 2) / unit,
        last + 111,
        Mode::Cut,
    )
    .result()
}
