// The rounding of an exact result to thirteen digits.
ghost use Rattle.std.specs.Prelude.{◌≡◌, ℕ, ◌+◌, ◌*◌, ◌^◌, ◌<◌, ◌≤◌, Ok};
ghost use Rattle.b2_dec.specs.Rounding as spec;
ghost use Rattle.b2_dec.specs.Rounding.{rnd, IsWholePart};

use crate::number::{Dec, Mode, NumberOrCode};
use b2_base::Code;
use b2_base::codes::{C60_UNDERFLOW, C61_OVERFLOW};

/// The number above the largest thirteen digits.
pub const COEFFICIENT_LIMIT: u64 = 10_000_000_000_000;

/// The number above the largest sixteen digits.
const SHORT_LIMIT: u128 = 10_000_000_000_000_000;

/// The powers of ten that a `u64` can be.
const TENS: [u64; 20] = [
    1,
    10,
    100,
    1_000,
    10_000,
    100_000,
    1_000_000,
    10_000_000,
    100_000_000,
    1_000_000_000,
    10_000_000_000,
    100_000_000_000,
    1_000_000_000_000,
    10_000_000_000_000,
    100_000_000_000_000,
    1_000_000_000_000_000,
    10_000_000_000_000_000,
    100_000_000_000_000_000,
    1_000_000_000_000_000_000,
    10_000_000_000_000_000_000,
];

/// The powers of ten that a `u128` can be.
const WIDE_TENS: [u128; 39] = [
    1,
    10,
    100,
    1_000,
    10_000,
    100_000,
    1_000_000,
    10_000_000,
    100_000_000,
    1_000_000_000,
    10_000_000_000,
    100_000_000_000,
    1_000_000_000_000,
    10_000_000_000_000,
    100_000_000_000_000,
    1_000_000_000_000_000,
    10_000_000_000_000_000,
    100_000_000_000_000_000,
    1_000_000_000_000_000_000,
    10_000_000_000_000_000_000,
    100_000_000_000_000_000_000,
    1_000_000_000_000_000_000_000,
    10_000_000_000_000_000_000_000,
    100_000_000_000_000_000_000_000,
    1_000_000_000_000_000_000_000_000,
    10_000_000_000_000_000_000_000_000,
    100_000_000_000_000_000_000_000_000,
    1_000_000_000_000_000_000_000_000_000,
    10_000_000_000_000_000_000_000_000_000,
    100_000_000_000_000_000_000_000_000_000,
    1_000_000_000_000_000_000_000_000_000_000,
    10_000_000_000_000_000_000_000_000_000_000,
    100_000_000_000_000_000_000_000_000_000_000,
    1_000_000_000_000_000_000_000_000_000_000_000,
    10_000_000_000_000_000_000_000_000_000_000_000,
    100_000_000_000_000_000_000_000_000_000_000_000,
    1_000_000_000_000_000_000_000_000_000_000_000_000,
    10_000_000_000_000_000_000_000_000_000_000_000_000,
    100_000_000_000_000_000_000_000_000_000_000_000_000,
];

/// A power of ten below 2^64.
pub(crate) fn ten_to(k: u32) -> u64
    requires { k < 20 }
    ensures { result ≡ 10 ^ k }
{
    TENS[k as usize]
}

/// A power of ten below 2^128.
fn wide_ten_to(k: u32) -> u128
    requires { k < 39 }
    ensures { result ≡ 10 ^ k }
{
    WIDE_TENS[k as usize]
}

/// The number with these thirteen digits, whose last one stands at a place counted from 10^-222; C60 and C61 where the
/// exponent is too small or too large.
fn in_range(neg: bool, coef: u64, place: u32) -> NumberOrCode
    requires least { 1000000000000 ≤ coef }
    requires digits { coef < 10000000000000 }
    ensures { result ≡ spec.in_range neg coef place }
{
    if place < 111 {
        return NumberOrCode::code(Code::known(C60_UNDERFLOW));
    }
    if place > 309 {
        return NumberOrCode::code(Code::known(C61_OVERFLOW));
    }
    NumberOrCode::number(Dec::ending_at(neg, coef, (place - 111) as u8))
}

/// The same where rounding may have led to 10^13.
fn after_carry(neg: bool, coef: u64, place: u32) -> NumberOrCode
    requires least { 1000000000000 ≤ coef }
    requires digits { coef ≤ 10000000000000 }
    requires highest { place < 2 ^ 31 }
    ensures { result ≡ spec.after_carry neg coef place }
{
    if coef == COEFFICIENT_LIMIT {
        in_range(neg, 1_000_000_000_000, place + 1)
    } else {
        in_range(neg, coef, place)
    }
}

/// The whole number that `m / 10 ^ dropped` becomes.
#[inline(always)]
fn whole_by(mode: Mode, m: u64, dropped: u32) -> u64
    requires some { 1 ≤ dropped }
    requires few { dropped ≤ 3 }
    requires fits { m < 10 ^ 16 }
    ensures { result ≡ spec.whole_by mode m (10 ^ dropped) }
{
    let unit = ten_to(dropped);
    match mode {
        Mode::Round => (m + unit / 2) / unit,
        Mode::Cut => m / unit,
    }
}

/// The same of a number that may not fit a `u64`.
fn wide_whole_by(mode: Mode, m: u128, dropped: u32) -> u128
    requires some { 1 ≤ dropped }
    requires few { dropped ≤ 26 }
    requires fits { m < 10 ^ 38 }
    ensures { result ≡ spec.whole_by mode m (10 ^ dropped) }
{
    let unit = wide_ten_to(dropped);
    match mode {
        Mode::Round => (m + unit / 2) / unit,
        Mode::Cut => m / unit,
    }
}

/// What every fraction becomes whose whole part is `m` in units of `10 ^ at`, counted from 10^-222, and has this many digits
/// more than thirteen.
#[inline(always)]
fn round_by(neg: bool, m: u64, dropped: u32, at: u32, mode: Mode) -> NumberOrCode
    requires some { 1 ≤ dropped }
    requires few { dropped ≤ 3 }
    requires least { 10 ^ (12 + dropped) ≤ m }
    requires most { m < 10 ^ (13 + dropped) }
    requires near { at < 1000 }
    ensures { (n d : ℕ) → 0 < d → IsWholePart m at n d → result ≡ rnd mode neg n d }
{
    after_carry(neg, whole_by(mode, m, dropped), at + dropped)
}

/// What every fraction becomes whose whole part is `m` in units of `10 ^ at`, counted from 10^-222, for fourteen to sixteen
/// digits.
pub(crate) fn round_part(neg: bool, m: u64, at: u32, mode: Mode) -> NumberOrCode
    requires digits { 10000000000000 ≤ m }
    requires fits { m < 10 ^ 16 }
    requires near { at < 1000 }
    ensures { (n d : ℕ) → 0 < d → IsWholePart m at n d → result ≡ rnd mode neg n d }
{
    // Each of these divides by a number that is known here.
    if m < 100_000_000_000_000 {
        round_by(neg, m, 1, at, mode)
    } else if m < 1_000_000_000_000_000 {
        round_by(neg, m, 2, at, mode)
    } else {
        round_by(neg, m, 3, at, mode)
    }
}

/// What the exact number `m · 10 ^ at`, counted from 10^-222, becomes, for at most sixteen digits.
pub fn round_short(neg: bool, m: u64, at: u32, mode: Mode) -> NumberOrCode
    requires fits { m < 10 ^ 16 }
    requires low { 25 ≤ at }
    requires near { at < 1000 }
    ensures { (n d : ℕ) → 0 < d → m * (10 ^ at * d) ≡ n * 10 ^ 222 → result ≡ rnd mode neg n d }
{
    if m >= COEFFICIENT_LIMIT {
        return round_part(neg, m, at, mode);
    }
    if m >= 1_000_000_000_000 {
        return in_range(neg, m, at);
    }
    filled(neg, m, at)
}

/// The same for fewer than thirteen digits.
fn filled(neg: bool, m: u64, at: u32) -> NumberOrCode
    requires fits { m < 1000000000000 }
    requires low { 25 ≤ at }
    requires near { at < 1000 }
    ensures { (mode : Mode) (n d : ℕ) → 0 < d → m * (10 ^ at * d) ≡ n * 10 ^ 222 → result ≡ rnd mode neg n d }
{
    if m == 0 {
        return NumberOrCode::number(Dec::zero());
    }
    let missing = 12 - m.ilog10();
    in_range(neg, m * ten_to(missing), at - missing)
}

/// What every fraction becomes whose whole part is `m` in units of `10 ^ at`, counted from 10^-222.
pub fn round_whole_part(neg: bool, m: u128, at: u32, mode: Mode) -> Result<Dec, Code>
    requires digits { 10000000000000 ≤ m }
    requires fits { m < 10 ^ 38 }
    requires near { at < 1000 }
    ensures { (n d : ℕ) → 0 < d → IsWholePart m at n d → result ≡ rnd mode neg n d }
{
    if m < SHORT_LIMIT {
        return round_part(neg, m as u64, at, mode).result();
    }
    let dropped = m.ilog10() - 12;
    let coef = wide_whole_by(mode, m, dropped);
    after_carry(neg, coef as u64, at + dropped).result()
}

/// What the exact number `m · 10 ^ at`, counted from 10^-222, becomes.
pub fn round_exact(neg: bool, m: u128, at: u32, mode: Mode) -> Result<Dec, Code>
    requires fits { m < 10 ^ 38 }
    requires low { 25 ≤ at }
    requires near { at < 1000 }
    ensures { (n d : ℕ) → 0 < d → m * (10 ^ at * d) ≡ n * 10 ^ 222 → result ≡ rnd mode neg n d }
{
    if m < SHORT_LIMIT {
        round_short(neg, m as u64, at, mode).result()
    } else {
        round_whole_part(neg, m, at, mode)
    }
}
