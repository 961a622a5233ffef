// The printed form of a number.
ghost use Rattle.std.specs.Prelude.{◌≡◌, ◌+◌, ◌-◌, ◌/◌, ◌%◌, ◌<◌, ◌≤◌, ◌++◌, length, take, drop};
ghost use Rattle.b2_base.specs.Byte as byte;
ghost use Rattle.b2_dectext.specs.Digits.{digit_bytes, without_last_zeros};
ghost use Rattle.b2_dectext.specs.Printed.{with_point, nine_digits, exponent_shown, sign_shown, shown_size, printed, IsPut};

use b2_dec::Dec;

/// The digit of a number that counts a power of ten, as a byte.
fn digit_byte(n: u64, unit: u64) -> u8
    requires { 0 < unit }
    ensures { result ≡ byte.digit_0 + n / unit % 10 }
{
    b'0' + (n / unit % 10) as u8
}

/// The same of a number of 32 bits.
#[inline(always)]
fn short_digit(n: u32, unit: u32) -> u8
    requires { 0 < unit }
    ensures { result ≡ byte.digit_0 + n / unit % 10 }
{
    b'0' + (n / unit % 10) as u8
}

/// The thirteen digits of a number: seven from a million on, and the six below it.
fn thirteen(coef: u64) -> [u8; 13]
    ensures { result ≡ digit_bytes 13 coef }
{
    let front = (coef / 1_000_000 % 10_000_000) as u32;
    let back = (coef % 1_000_000) as u32;
    [
        short_digit(front, 1_000_000),
        short_digit(front, 100_000),
        short_digit(front, 10_000),
        short_digit(front, 1_000),
        short_digit(front, 100),
        short_digit(front, 10),
        short_digit(front, 1),
        short_digit(back, 100_000),
        short_digit(back, 10_000),
        short_digit(back, 1_000),
        short_digit(back, 100),
        short_digit(back, 10),
        short_digit(back, 1),
    ]
}

/// The seven digits of a number.
fn seven(n: u32) -> [u8; 7]
    ensures { result ≡ digit_bytes 7 n }
{
    [
        short_digit(n, 1_000_000),
        short_digit(n, 100_000),
        short_digit(n, 10_000),
        short_digit(n, 1_000),
        short_digit(n, 100),
        short_digit(n, 10),
        short_digit(n, 1),
    ]
}

/// Digits without the zeros at their end.
fn without_last_zeros(digits: &[u8]) -> &[u8]
    ensures { result.now ≡ without_last_zeros digits.now }
{
    let mut kept = digits.len();
    while kept > 0 && digits[kept - 1] == b'0' {
        kept -= 1;
    }
    &digits[..kept]
}

/// Puts bytes after the first `at` ones, and gives where they end.
#[inline(always)]
fn put(into: &mut [u8; 24], at: usize, bytes: &[u8]) -> usize
    requires { at + length bytes.now ≤ 24 }
    ensures { IsPut bytes.now at into.old into.new result }
{
    let end = at + bytes.len();
    into[at..end].copy_from_slice(bytes);
    end
}

/// The exponent of a number whose last digit stands at a place: E, its sign, its two digits.
fn exponent_at(place: usize) -> [u8; 4]
    ensures { result ≡ exponent_shown place }
{
    if place < 99 {
        let size = (99 - place) as u64;
        [b'E', b'-', digit_byte(size, 10), digit_byte(size, 1)]
    } else {
        let size = (place - 99) as u64;
        [b'E', b'+', digit_byte(size, 10), digit_byte(size, 1)]
    }
}

/// What `whole_of` gives for a number that is not whole, or is not below a thousand million.
const NOT_WHOLE: u32 = u32::MAX;

/// How many units of this size a number of thirteen digits is, where that is whole.
#[inline(always)]
fn whole_in(coef: u64, unit: u64) -> u32
    requires some { 0 < unit }
    requires small { coef / unit < 1000000000 }
    ensures exact { result < 1000000000 → coef % unit ≡ 0 }
    ensures value { result < 1000000000 → result ≡ coef / unit }
    ensures other { 1000000000 ≤ result → result ≡ 4294967295 }
{
    if coef % unit != 0 {
        return NOT_WHOLE;
    }
    (coef / unit) as u32
}

/// The number that thirteen digits write, the last of them at a place, where it is whole and below a thousand million.
#[inline(always)]
fn whole_of(coef: u64, place: usize) -> u32
    requires { coef < 10000000000000 }
    ensures place { result < 1000000000 → 98 < place }
    ensures few { result < 1000000000 → place ≤ 107 }
    ensures digits { result < 1000000000 → digit_bytes (place - 98) result ≡ with_point (place - 98) (digit_bytes 13 coef) }
    ensures other { 1000000000 ≤ result → result ≡ 4294967295 }
{
    match place {
        99 => whole_in(coef, 1_000_000_000_000),
        100 => whole_in(coef, 100_000_000_000),
        101 => whole_in(coef, 10_000_000_000),
        102 => whole_in(coef, 1_000_000_000),
        103 => whole_in(coef, 100_000_000),
        104 => whole_in(coef, 10_000_000),
        105 => whole_in(coef, 1_000_000),
        106 => whole_in(coef, 100_000),
        107 => whole_in(coef, 10_000),
        _ => NOT_WHOLE,
    }
}

/// Puts the last `count` digits of a number after the first `at` bytes, and gives where they end.
fn put_digits(into: &mut [u8; 24], at: usize, n: u32, count: usize) -> usize
    requires { at + count ≤ 24 }
    ensures few { result ≡ at + count }
    ensures text { IsPut (digit_bytes count n) at into.old into.new result }
{
    let end = at + count;
    let mut left = n;
    let mut place = end;
    while place > at {
        place -= 1;
        into[place] = short_digit(left, 1);
        left /= 10;
    }
    end
}

/// The byte of a number's sign.
fn sign_of(a: Dec) -> u8
    ensures { result ≡ sign_shown a.neg }
{
    if a.is_negative() { b'-' } else { b' ' }
}

/// Adds digits with a point after the first `whole` ones, and without the last zeros after it.
fn put_fixed(into: &mut [u8; 24], at: usize, digits: &[u8], whole: usize) -> usize
    requires room { at + length digits.now < 24 }
    requires within { whole ≤ length digits.now }
    ensures few { result ≤ at + length digits.now + 1 }
    ensures text { IsPut (with_point whole digits.now) at into.old into.new result }
{
    let (front, back) = digits.split_at(whole);
    let fraction = without_last_zeros(back);
    let pointed = put(into, at, front);
    if fraction.is_empty() {
        return pointed;
    }
    let after = put(into, pointed, b".");
    put(into, after, fraction)
}

/// Adds nine of thirteen digits with a point after the first one, and the exponent.
fn put_with_exponent(into: &mut [u8; 24], at: usize, digits: &[u8; 13], place: usize) -> usize
    requires room { at + 14 ≤ 24 }
    ensures few { result ≡ at + 14 }
    ensures text { IsPut (nine_digits digits.now ++ exponent_shown place) at into.old into.new result }
{
    let pointed = put(into, at, &digits[..1]);
    let after = put(into, pointed, b".");
    let end = put(into, after, &digits[1..9]);
    put(into, end, &exponent_at(place))
}

/// Adds thirteen digits with a point after the first `whole` ones, and without the last zeros after it. Where the last six
/// are zeros after the point, they are left out at once.
fn put_plain(into: &mut [u8; 24], at: usize, coef: u64, whole: usize) -> usize
    requires room { at + 14 ≤ 24 }
    requires within { whole ≤ 13 }
    requires digits { coef < 10000000000000 }
    ensures few { result ≤ at + 14 }
    ensures text { IsPut (with_point whole (digit_bytes 13 coef)) at into.old into.new result }
{
    if whole <= 7 && coef % 1_000_000 == 0 {
        return put_fixed(into, at, &seven((coef / 1_000_000) as u32), whole);
    }
    put_fixed(into, at, &thirteen(coef), whole)
}

/// Adds a number without its sign.
fn put_size(into: &mut [u8; 24], at: usize, a: Dec) -> usize
    requires room { at + 14 ≤ 24 }
    ensures few { result ≤ at + 14 }
    ensures text { IsPut (shown_size a) at into.old into.new result }
{
    if a.is_zero() {
        return put(into, at, b"0");
    }
    let place = a.place() as usize;
    let coef = a.coefficient();
    let whole = whole_of(coef, place);
    if whole != NOT_WHOLE {
        return put_digits(into, at, whole, place - 98);
    }
    if place >= 98 && place <= 111 {
        put_plain(into, at, coef, place - 98)
    } else {
        put_with_exponent(into, at, &thirteen(coef), place)
    }
}

/// The printed form of a number at the front of `into`, and its length. The bytes after it stay.
pub fn write(a: Dec, into: &mut [u8; 24]) -> usize
    ensures form { take result into.new ≡ printed a }
    ensures len { result ≡ length (printed a) }
    ensures bound { result ≤ 16 }
    ensures rest { drop result into.new ≡ drop result into.old }
{
    let signed = put(into, 0, &[sign_of(a)]);
    let shown = put_size(into, signed, a);
    put(into, shown, b" ")
}
