// Which number a text begins with.
ghost use Rattle.std.specs.Prelude.{◌≡◌, ℕ, ◌+◌, ◌-◌, ◌*◌, ◌^◌, ◌<◌, ◌≤◌, ◌==◌, length, IfSome, Some, None, if◌then◌else◌};
ghost use Rattle.b2_dectext.specs.Digits.{AreDigits, IsLeading, value_after, digits_value};
ghost use Rattle.b2_dectext.specs.Grammar.{IsLongest, IsLongestSpaced};
ghost use Rattle.b2_dectext.specs.NumberText as grammar;
ghost use Rattle.b2_dectext.specs.NumberText.{Parts, parts_value, number_value, number_read, spaced_number_len};

use crate::leading::{Leading, rounded, with_digit};
use crate::scanning::{Parsed, spaces_len, spelling};
use b2_base::Code;
use b2_dec::Dec;

/// The leading digits where more digits follow.
fn with_digits(start: Leading, text: &[u8]) -> Leading
    requires digits { AreDigits text.now }
    requires fits { start.more + length text.now < 2 ^ 64 }
    ensures value { (n : ℕ) → IsLeading n start.digits start.more → IsLeading (value_after n text.now) result.digits result.more }
    ensures bound { result.more ≤ start.more + length text.now }
{
    let mut leading = start;
    for byte in text {
        leading = with_digit(leading, *byte - b'0');
    }
    leading
}

/// The number that the digits of an exponent write, at most two.
fn exponent_value(digits: &[u8]) -> usize
    requires digits { AreDigits digits.now }
    requires few { length digits.now ≤ 2 }
    ensures value { result ≡ digits_value digits.now }
    ensures bound { result ≤ 99 }
{
    match digits {
        [tens, units] => 10 * (*tens - b'0') as usize + (*units - b'0') as usize,
        [units] => (*units - b'0') as usize,
        _ => 0,
    }
}

/// The number of a spelling; C60 and C61 where it is too small or too large.
fn value(s: &Parsed<'_>) -> Result<Dec, Code>
    requires whole { AreDigits s.now.whole.now }
    requires fraction { AreDigits s.now.fraction.now }
    requires fits { length s.now.whole.now + length s.now.fraction.now < 2 ^ 64 }
    requires exponent { AreDigits s.now.exponent.now }
    requires few { length s.now.exponent.now ≤ 2 }
    ensures { let parts : Parts = record { neg = s.now.neg; whole = s.now.whole.now; fraction = s.now.fraction.now; exponent_neg = s.now.exponent_neg; exponent = s.now.exponent.now } in
        result ≡ parts_value parts }
{
    let none = Leading { digits: 0, more: 0 };
    let leading = with_digits(with_digits(none, s.whole), s.fraction);
    let tens = exponent_value(s.exponent) as u128;
    let high = 222 + leading.more as u128;
    let low = s.fraction.len() as u128;
    if s.exponent_neg {
        rounded(s.neg, leading.digits, high, low + tens)
    } else {
        rounded(s.neg, leading.digits, high + tens, low)
    }
}

/// The length of the longest number at the front of a text, 0 where there is none, and the number, where there is one
/// in range. More than thirteen digits are rounded, a half away from zero.
#[tactic(auto, unfolding(crate::specs::NumberText::number_read))]
pub fn read(text: &[u8]) -> (usize, Option<Dec>)
    ensures len { result.0 ≡ grammar.number_len text.now }
    ensures value { result.1 ≡ number_read text.now }

    // In words of the grammar: the text of that length is a number, no longer one stands at the front, and what is
    // given is that number.
    ensures longest { IsLongest text.now result.0 (number_value text.now) }
{
    let number = spelling(text);
    if number.len == 0 {
        return (0, None);
    }
    (number.len, value(&number).ok())
}

/// The length of the longest number at the front of a text, None where there is none, and the number; C60 and C61 where
/// it is too small or too large.
pub fn literal(text: &[u8]) -> Option<(usize, Result<Dec, Code>)>
    ensures value { result ≡ (if grammar.number_len text.now == 0 then None else Some (grammar.number_len text.now, number_value text.now)) }
    ensures within { IfSome result (λ r. r.0 ≤ length text.now) }
{
    let number = spelling(text);
    if number.len == 0 {
        return None;
    }
    Some((number.len, value(&number)))
}

/// The length of the spaces, the number and the spaces at the front of a text, 0 where there is no number.
#[tactic(auto, unfolding(crate::specs::NumberText::spaced_number_len))]
pub fn num(text: &[u8]) -> usize
    ensures value { result ≡ spaced_number_len text.now }
    ensures within { result ≤ length text.now }
    ensures longest { IsLongestSpaced text.now result }
{
    let front = spaces_len(text);
    let number = spelling(&text[front..]).len;
    if number == 0 {
        return 0;
    }
    front + number + spaces_len(&text[front + number..])
}
