// The order of numbers, their signs and their whole parts.
ghost use Rattle.std.specs.Prelude.{◌≡◌, ◌<◌, ◌^◌, false, Some, None, if◌then◌else◌};
ghost use Rattle.std.specs.Ordering.{nat_cmp, int_cmp};
ghost use Rattle.b2_dec.specs.declared.number.Mode.{Mode};
ghost use Rattle.b2_dec.specs.Number.{size, value, signed};
ghost use Rattle.b2_dec.specs.Arithmetic.{fits_64, whole_of, sign_of};

use crate::number::{Dec, Mode};
use crate::rounding::ten_to;
use std::cmp::Ordering;

/// How two numbers stand in order.
pub fn cmp(a: Dec, b: Dec) -> Ordering
    ensures { result ≡ int_cmp (value a) (value b) }
{
    let (p, q) = (a.is_negative(), b.is_negative());
    if p != q {
        if p { Ordering::Less } else { Ordering::Greater }
    } else if p {
        cmp_sizes(b, a)
    } else {
        cmp_sizes(a, b)
    }
}

/// How the sizes of two numbers stand in order.
fn cmp_sizes(a: Dec, b: Dec) -> Ordering
    ensures { result ≡ nat_cmp (size a) (size b) }
{
    let (x, y) = (a.coefficient(), b.coefficient());
    if x == 0 || y == 0 {
        return x.cmp(&y);
    }
    a.place().cmp(&b.place()).then(x.cmp(&y))
}

/// The number without its sign.
pub fn abs(a: Dec) -> Dec
    ensures { result ≡ record a { neg = false } }
{
    if a.is_negative() { a.opposite() } else { a }
}

/// -1, 0 or 1.
pub fn sgn(a: Dec) -> Dec
    ensures { result ≡ sign_of a }
{
    if a.is_zero() {
        Dec::zero()
    } else {
        Dec::ending_at(a.is_negative(), 1_000_000_000_000, 99)
    }
}

/// The whole number that this is, where it is one from -2^63 to 2^63 - 1.
pub fn whole(a: Dec) -> Option<i64>
    ensures { result ≡ whole_of a }
{
    let (coef, place) = (a.coefficient(), a.place());
    if place > 117 {
        return None;
    }
    if place >= 111 {
        return with_sign(a.is_negative(), coef * ten_to(place - 111));
    }
    let below = 111 - place;
    if below > 12 {
        return None;
    }
    let unit = ten_to(below);
    if coef % unit == 0 {
        with_sign(a.is_negative(), coef / unit)
    } else {
        None
    }
}

/// A size with its sign, where it fits.
fn with_sign(neg: bool, size: u64) -> Option<i64>
    ensures { result ≡ (if fits_64 (signed neg size) then Some (signed neg size) else None) }
{
    if neg {
        (-i128::from(size)).try_into().ok()
    } else {
        i64::try_from(size).ok()
    }
}
