// What kinds of bytes there are, digits and the numbers that they spell, and the fronts of texts.
ghost use Rattle.std.specs.Prelude.{◌≡◌, ◌≤◌, ◌<◌, length, drop, take, get_or, true};
ghost use Rattle.b2_base.specs.Lexical as spec;

/// The byte that begins a sequence for the screen as a whole.
pub const ESCAPE: u8 = 2;

/// Whether a byte is one of `0` to `9`.
pub fn is_digit(byte: u8) -> bool
    ensures { result ≡ spec.is_digit byte }
{
    byte >= b'0' && byte <= b'9'
}

/// Whether a byte is one of `A` to `Z`.
pub fn is_letter(byte: u8) -> bool
    ensures { result ≡ spec.is_letter byte }
{
    byte >= b'A' && byte <= b'Z'
}

/// Whether a byte is one of `a` to `z`.
pub fn is_small_letter(byte: u8) -> bool
    ensures { result ≡ spec.is_small_letter byte }
{
    byte >= b'a' && byte <= b'z'
}

/// Whether a byte is one of `0` to `9` and `A` to `F`.
pub fn is_hex_digit(byte: u8) -> bool
    ensures { result ≡ spec.is_hex_digit byte }
{
    is_digit(byte) || byte >= b'A' && byte <= b'F'
}

/// Whether a byte can be shown: one from 20 to 7E.
pub fn is_printable(byte: u8) -> bool
    ensures { result ≡ spec.is_printable byte }
{
    byte >= b' ' && byte <= b'~'
}

/// Whether all bytes can be shown.
pub fn all_printable(text: &[u8]) -> bool
    ensures { result ≡ spec.all_printable text.now }
{
    text.iter().all(|byte| *byte >= b' ' && *byte <= b'~')
}

/// A small letter as the large one, and every other byte as it is.
pub fn upper(byte: u8) -> u8
    ensures { result ≡ spec.upper byte }
{
    if is_small_letter(byte) {
        byte - 32
    } else {
        byte
    }
}

/// The number that a hexadecimal digit spells.
pub fn hex_value(digit: u8) -> u8
    requires { spec.is_hex_digit digit ≡ true }
    ensures value { result ≡ spec.hex_value digit }
    ensures small { result < 16 }
{
    if is_digit(digit) {
        digit - b'0'
    } else {
        digit - b'A' + 10
    }
}

/// The hexadecimal digit of a number below 16.
pub fn hex_digit(n: u8) -> u8
    requires { n < 16 }
    ensures digit { result ≡ spec.hex_digit n }
    ensures legal { spec.is_hex_digit result ≡ true }
    ensures read_back { spec.hex_value result ≡ n }
{
    if n < 10 { b'0' + n } else { b'A' + (n - 10) }
}

/// The two hexadecimal digits of a byte.
pub fn hex_pair(byte: u8) -> [u8; 2]
    ensures { result ≡ spec.hex_pair byte }
{
    [hex_digit(byte / 16), hex_digit(byte % 16)]
}

/// Whether a byte is of two decimal digits, one in each half.
pub fn is_decimal(byte: u8) -> bool
    ensures { result ≡ spec.is_decimal byte }
{
    byte / 16 <= 9 && byte % 16 <= 9
}

/// The number that the two decimal digits of a byte spell.
pub fn decimal_of(byte: u8) -> u8
    ensures { result ≡ spec.decimal_of byte }
{
    byte / 16 * 10 + byte % 16
}

/// The byte of the two decimal digits of a number below 100.
pub fn decimal_byte(n: u8) -> u8
    requires { n < 100 }
    ensures value { result ≡ spec.decimal_byte n }
    ensures legal { spec.is_decimal result ≡ true }
    ensures read_back { spec.decimal_of result ≡ n }
{
    n / 10 * 16 + n % 10
}

/// The first byte, or 0 where there is none.
pub fn first(text: &[u8]) -> u8
    ensures { result ≡ spec.first text.now }
{
    match text {
        [byte, ..] => *byte,
        _ => 0,
    }
}

/// The byte at a place, or 0 where the text ends before it.
pub fn at(text: &[u8], place: usize) -> u8
    ensures { result ≡ get_or text.now place 0 }
{
    match text.get(place) {
        Some(byte) => *byte,
        None => 0,
    }
}

/// What follows the first `count` bytes; nothing where there are no more.
pub fn rest_after(text: &[u8], count: usize) -> &[u8]
    ensures { result.now ≡ drop count text.now }
{
    if count <= text.len() {
        &text[count..]
    } else {
        &[]
    }
}

/// The first `count` bytes; all where there are no more.
pub fn first_bytes(text: &[u8], count: usize) -> &[u8]
    ensures { result.now ≡ take count text.now }
{
    if count <= text.len() {
        &text[..count]
    } else {
        text
    }
}

/// A text without the blanks at its front.
pub fn skip_blanks(text: &[u8]) -> &[u8]
    ensures { result.now ≡ spec.skip_blanks text.now }
{
    let mut rest = text;
    while let [b' ', after @ ..] = rest {
        rest = after;
    }
    rest
}

/// How many digits a text begins with.
pub fn digits_width(text: &[u8]) -> usize
    ensures count { result ≡ spec.digits_width text.now }
    ensures within { result ≤ length text.now }
{
    let mut rest = text;
    let mut count = 0usize;
    while let [byte, after @ ..] = rest {
        if !is_digit(*byte) {
            return count;
        }
        rest = after;
        count += 1;
    }
    count
}

/// The number that the digits at the front of a text spell, counted up to a cap: 0 where there are none.
pub fn capped_value(text: &[u8], cap: u32) -> u32
    requires { cap ≤ 100000000 }
    ensures value { result ≡ spec.capped_value cap 0 text.now }
    ensures small { result ≤ cap }
{
    let mut rest = text;
    let mut value = 0u32;
    while let [byte, after @ ..] = rest {
        if !is_digit(*byte) {
            return value;
        }
        value = (value * 10 + u32::from(*byte - b'0')).min(cap);
        rest = after;
    }
    value
}

/// Digits without the zeros at their front, but the last digit.
pub fn without_zeros(digits: &[u8]) -> &[u8]
    ensures { result.now ≡ spec.without_zeros digits.now }
{
    let mut left = digits;
    while let [b'0', others @ ..] = left {
        if others.is_empty() {
            return left;
        }
        left = others;
    }
    left
}
