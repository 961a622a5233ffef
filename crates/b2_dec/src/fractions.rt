// Numbers without their fractions.
ghost use Rattle.std.specs.Prelude.{◌≡◌, ◌*◌, ◌/◌, ◌^◌, ◌*ℤ◌, Ok, pos, true};
ghost use Rattle.b2_dec.specs.Number.{size, value, signed};
ghost use Rattle.b2_dec.specs.Arithmetic.{int_of, fix_of, floored, whole_above};

use crate::number::Dec;
use crate::rounding::ten_to;

/// The number with its fraction dropped.
pub fn fix(a: Dec) -> Dec
    ensures number { Ok result ≡ fix_of a }
    ensures exact { value result ≡ signed a.neg (size a / 10 ^ 111 * 10 ^ 111) }
{
    let whole = towards_zero(a);
    let _ = whole.is_zero();
    whole
}

/// The greatest whole number not above this one.
pub fn int(a: Dec) -> Dec
    ensures number { Ok result ≡ int_of a }
    ensures exact { value result ≡ floored (value a) (10 ^ 111) *ℤ pos (10 ^ 111) }
{
    let whole = downwards(a);
    let _ = whole.is_zero();
    whole
}

/// The greatest whole number not above this one, by its value.
fn downwards(a: Dec) -> Dec
    ensures { value result ≡ floored (value a) (10 ^ 111) *ℤ pos (10 ^ 111) }
{
    if a.is_negative() {
        from_zero(a)
    } else {
        towards_zero(a)
    }
}

/// The number with its fraction dropped, by its size.
fn towards_zero(a: Dec) -> Dec
    ensures { value result ≡ signed a.neg (size a / 10 ^ 111 * 10 ^ 111) }
{
    let (coef, place) = (a.coefficient(), a.place());
    if coef == 0 {
        return Dec::zero();
    }
    if place >= 111 {
        return a;
    }
    if place < 99 {
        return Dec::zero();
    }
    let unit = ten_to(111 - place);
    Dec::ending_at(a.is_negative(), coef / unit * unit, place as u8)
}

/// The number of the least whole size that is not below this one's.
fn from_zero(a: Dec) -> Dec
    requires { a.neg ≡ true }
    ensures { value result ≡ signed true (whole_above (size a) (10 ^ 111) * 10 ^ 111) }
{
    let (coef, place) = (a.coefficient(), a.place());
    if place >= 111 {
        return a;
    }
    if place < 99 {
        return Dec::ending_at(true, 1_000_000_000_000, 99);
    }
    let unit = ten_to(111 - place);
    if coef % unit == 0 {
        return a;
    }
    let up = (coef / unit + 1) * unit;
    if up == 10_000_000_000_000 {
        Dec::ending_at(true, 1_000_000_000_000, place as u8 + 1)
    } else {
        Dec::ending_at(true, up, place as u8)
    }
}
