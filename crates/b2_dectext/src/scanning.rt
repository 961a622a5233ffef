// How many bytes of a text are a number.
ghost use Rattle.std.specs.Prelude.{◌≡◌, ◌+◌, ◌^◌, ◌<◌, ◌≤◌, ◌==◌, length, drop, if◌then◌else◌};
ghost use Rattle.b2_base.specs.Byte as byte;
ghost use Rattle.b2_base.specs.Lexical.{first, digits_width};
ghost use Rattle.b2_dectext.specs.Digits.{AreDigits};
ghost use Rattle.b2_dectext.specs.NumberText as grammar;
ghost use Rattle.b2_dectext.specs.NumberText.{parts_of};

use b2_base::lexical::{digits_width, first, rest_after};

/// How many spaces a text begins with.
pub(crate) fn spaces_len(text: &[u8]) -> usize
    ensures value { result ≡ grammar.spaces_len text.now }
    ensures bound { result ≤ length text.now }
{
    text.iter().take_while(|b| **b == b' ').count()
}

/// How many bytes of sign a text begins with.
#[tactic(auto, unfolding(crate::specs::NumberText::sign_len))]
fn sign_len(text: &[u8]) -> usize
    ensures value { result ≡ grammar.sign_len text.now }
    ensures bound { result ≤ length text.now }
{
    if first(text) == b'+' || first(text) == b'-' {
        1
    } else {
        0
    }
}

/// A text without the sign that it begins with.
pub(crate) fn unsigned(text: &[u8]) -> &[u8]
    ensures { result.now ≡ grammar.unsigned text.now }
{
    &text[sign_len(text)..]
}

/// The digits at the front of a text.
#[tactic(auto, unfolding(crate::specs::NumberText::whole_part))]
pub(crate) fn whole_part(text: &[u8]) -> &[u8]
    ensures value { result.now ≡ grammar.whole_part text.now }
    ensures len { length result.now ≡ digits_width text.now }
    ensures bound { length result.now ≤ length text.now }
    ensures digits { AreDigits result.now }
{
    &text[..digits_width(text)]
}

/// The digits after the point, where a text begins with one.
#[tactic(auto, unfolding(crate::specs::NumberText::fraction_part, crate::specs::NumberText::whole_part))]
pub(crate) fn fraction_part(text: &[u8]) -> &[u8]
    ensures value { result.now ≡ grammar.fraction_part text.now }
    ensures bound { length result.now + (if first text.now == byte.point then 1 else 0) ≤ length text.now }
    ensures digits { AreDigits result.now }
{
    if first(text) == b'.' {
        whole_part(rest_after(text, 1))
    } else {
        &text[..0]
    }
}

/// How many bytes digits take with a point or without one: those before it, and after them a point with digits or without,
/// which alone is none.
fn mantissa_len(whole: usize, after: &[u8], fraction: usize) -> usize
    requires digits { fraction ≡ length (grammar.fraction_part after.now) }
    requires within { fraction + (if first after.now == byte.point then 1 else 0) ≤ length after.now }
    requires fits { whole + length after.now < 2 ^ 64 }
    ensures value { result ≡ (if whole + fraction == 0 then 0 else whole + grammar.point_len after.now) }
    ensures bound { result ≤ whole + length after.now }
{
    if whole + fraction == 0 {
        return 0;
    }
    if first(after) == b'.' {
        whole + 1 + fraction
    } else {
        whole
    }
}

/// The digits of the exponent that a text begins with, at most two.
#[tactic(auto, unfolding(crate::specs::NumberText::exponent_digits))]
pub(crate) fn exponent_digits(text: &[u8]) -> &[u8]
    ensures value { result.now ≡ grammar.exponent_digits text.now }
    ensures few { length result.now ≤ 2 }
    ensures bound { 0 < length result.now → 1 + grammar.sign_len (drop 1 text.now) + length result.now ≤ length text.now }
    ensures digits { AreDigits result.now }
{
    if first(text) == b'E' {
        let digits = unsigned(rest_after(text, 1));
        &digits[..digits_width(digits).min(2)]
    } else {
        &text[..0]
    }
}

/// How many bytes of a text are an exponent with these digits.
#[tactic(auto, unfolding(crate::specs::NumberText::exponent_len))]
fn exponent_len(text: &[u8], digits: &[u8]) -> usize
    requires digits { digits.now ≡ grammar.exponent_digits text.now }
    requires fits { 0 < length digits.now → 1 + grammar.sign_len (drop 1 text.now) + length digits.now ≤ length text.now }
    ensures value { result ≡ grammar.exponent_len text.now }
    ensures bound { result ≤ length text.now }
{
    if digits.len() == 0 {
        return 0;
    }
    1 + sign_len(rest_after(text, 1)) + digits.len()
}

/// The number at the front of a text: its parts and its length, 0 where there is none.
#[derive(Drop)]
pub(crate) struct Parsed<'a> {
    /// Whether `-` stands first.
    pub neg: bool,
    /// The digits before the point.
    pub whole: &'a [u8],
    /// The digits after the point.
    pub fraction: &'a [u8],
    /// Whether `-` stands in the exponent.
    pub exponent_neg: bool,
    /// The digits of the exponent.
    pub exponent: &'a [u8],
    /// The length of the number.
    pub len: usize,
}

/// The longest number at the front of a text. The digits are looked for once.
#[tactic(auto, unfolding(crate::specs::NumberText::number_len, crate::specs::NumberText::mantissa_len, crate::specs::NumberText::parts_of))]
pub(crate) fn spelling(text: &[u8]) -> Parsed<'_>
    ensures len { result.len ≡ grammar.number_len text.now }
    ensures bound { result.len ≤ length text.now }
    ensures parts { parts_of text.now ≡ record { neg = result.neg; whole = result.whole.now; fraction = result.fraction.now; exponent_neg = result.exponent_neg; exponent = result.exponent.now } }
    ensures whole { AreDigits result.whole.now }
    ensures fraction { AreDigits result.fraction.now }
    ensures fits { length result.whole.now + length result.fraction.now ≤ length text.now }
    ensures exponent { AreDigits result.exponent.now }
    ensures few { length result.exponent.now ≤ 2 }
{
    let body = unsigned(text);
    let whole = whole_part(body);
    let after = &body[whole.len()..];
    let fraction = fraction_part(after);
    let mantissa = mantissa_len(whole.len(), after, fraction.len());
    let rest = &body[mantissa..];
    let exponent = exponent_digits(rest);
    let len = if mantissa == 0 {
        0
    } else {
        text.len() - rest.len() + exponent_len(rest, exponent)
    };
    Parsed {
        neg: first(text) == b'-',
        whole,
        fraction,
        exponent_neg: first(rest_after(rest, 1)) == b'-',
        exponent,
        len,
    }
}
