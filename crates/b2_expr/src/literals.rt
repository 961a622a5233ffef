// The values of numbers that are written out.
ghost use Rattle.std.specs.Prelude.{◌≡◌, ◌≤◌, ◌<◌, ◌-◌, ◌^◌, ◌==◌, true, false, Ok, length, take, drop};
ghost use Rattle.b2_base.specs.Byte as byte;
ghost use Rattle.b2_base.specs.Lexical.{digits_width, is_digit};
ghost use Rattle.b2_base.specs.Lexical as lexical;
ghost use Rattle.b2_atom.specs.declared.rows.TheConstants as row;
ghost use Rattle.b2_dec.specs.declared.number.Mode.TheVariants as mode;
ghost use Rattle.b2_dec.specs.Rounding.{rnd};
ghost use Rattle.b2_dectext.specs.Digits.{value_after};
ghost use Rattle.b2_rows.specs.Rows.{is_phrase, tree_at, after_phrase};
ghost use Rattle.b2_expr.specs.Plain.{is_one_digit};
ghost use Rattle.b2_expr.specs.Reads.{Finds};
ghost use Rattle.b2_expr.specs.Value.{literal_number, literal_value};

use crate::evaluated::Evaluated;
use b2_atom::{Origin, number_width};
use b2_base::Code;
use b2_base::codes::S17_NUMERIC;
use b2_base::lexical::{at, first, first_bytes, is_digit, rest_after};
use b2_dec::{Dec, Mode, NumberOrCode, round_short};
use b2_dectext::literal;

/// The least number of thirteen digits.
const THIRTEEN_DIGITS: u64 = 1_000_000_000_000;

/// How many digits after a point are taken in one pass at most: with as many the number is in range.
const PLACES: usize = 99;

/// A number to which the digits at the front of a text are added, while it has less than thirteen, and what stands after
/// them.
#[inline(always)]
fn take_digits(start: u64, text: &[u8]) -> (u64, &[u8])
    requires { start < 10000000000000 }
    ensures small { result.0 < 10000000000000 }
    ensures value { is_digit (lexical.first result.1.now) ≡ false → result.0 ≡ value_after start (take (digits_width text.now) text.now) }
    ensures rest { is_digit (lexical.first result.1.now) ≡ false → result.1.now ≡ drop (digits_width text.now) text.now }
    ensures within { length result.1.now ≤ length text.now }
{
    let mut number = start;
    let mut rest = text;
    while let [byte, after @ ..] = rest {
        if !is_digit(*byte) || number >= THIRTEEN_DIGITS {
            return (number, rest);
        }
        number = 10 * number + u64::from(*byte - b'0');
        rest = after;
    }
    (number, rest)
}

/// The number that a text spells: C60 or C61 where it is out of range.
fn literal_value(text: &[u8]) -> Result<Dec, Code>
    ensures { result ≡ literal_value text.now }
{
    match literal(text) {
        Some((_, number)) => number,
        None => Err(Code::known(S17_NUMERIC)),
    }
}

/// A number that is written out, of any length and with an exponent or without.
#[tactic(auto, using(crate::proofs::Operands::literal_is, crate::proofs::Operands::literal_rest, crate::proofs::Operands::literal_here))]
fn long_literal(text: &[u8]) -> Evaluated
    requires phrase { is_phrase row.NUMBER text.now ≡ true }
    ensures { Finds (literal_number (tree_at row.NUMBER text.now)) (after_phrase row.NUMBER text.now) result }
{
    let width = number_width(Origin::Atoms, text);
    Evaluated {
        number: NumberOrCode::of(literal_value(first_bytes(text, width))),
        left: rest_after(text, width).len(),
    }
}

/// A number of at most thirteen digits divided by ten `places` times.
fn divided_by_tens(digits: u64, places: usize) -> NumberOrCode
    requires small { digits < 10000000000000 }
    requires few { places ≤ 99 }
    ensures { result ≡ rnd mode.Round false digits (10 ^ places) }
{
    round_short(false, digits, 222 - places as u32, Mode::Round)
}

/// A number that is written out, of which `digits` were taken, the last `places` of them after the point, and `rest` is
/// left: it ends there, or goes on with a digit or an exponent.
#[inline(always)]
fn ended(text: &[u8], digits: u64, places: usize, rest: &[u8]) -> Evaluated
    requires phrase { is_phrase row.NUMBER text.now ≡ true }
    requires small { digits < 10000000000000 }
    requires value { is_digit (lexical.first rest.now) ≡ false → (lexical.first rest.now == byte.upper_e) ≡ false → literal_number (tree_at row.NUMBER text.now) ≡ rnd mode.Round false digits (10 ^ places) }
    requires rest { is_digit (lexical.first rest.now) ≡ false → (lexical.first rest.now == byte.upper_e) ≡ false → rest.now ≡ after_phrase row.NUMBER text.now }
    ensures { Finds (literal_number (tree_at row.NUMBER text.now)) (after_phrase row.NUMBER text.now) result }
{
    let end = first(rest);
    if is_digit(end) || end == b'E' || places > PLACES {
        return long_literal(text);
    }
    Evaluated {
        number: divided_by_tens(digits, places),
        left: rest.len(),
    }
}

/// Whether a text begins with a single digit, after which neither a digit nor a point nor an exponent stands.
#[inline(always)]
fn is_one_digit(text: &[u8]) -> bool
    ensures { result ≡ is_one_digit text.now }
{
    let next = at(text, 1);
    is_digit(first(text)) && !is_digit(next) && next != b'.' && next != b'E'
}

/// The number of a digit.
#[tactic(auto, using(crate::proofs::WrittenNumbers::zero_digit, crate::proofs::WrittenNumbers::some_digit_is))]
#[inline(always)]
fn number_of_digit(digit: u8) -> Dec
    requires { is_digit digit ≡ true }
    ensures { rnd mode.Round false (digit - 48) 1 ≡ Ok result }
{
    let value = u64::from(digit - b'0');
    if value == 0 {
        return Dec::zero();
    }
    Dec::ending_at(false, value * 1_000_000_000_000, 99)
}

/// A number that is written out: at once where it is a single digit.
#[inline(always)]
#[tactic(auto, using(crate::proofs::WrittenNumbers::digit_finds, crate::proofs::WrittenNumbers::begins_digit))]
pub fn written_number_at(text: &[u8]) -> Evaluated
    requires phrase { is_phrase row.NUMBER text.now ≡ true }
    ensures { Finds (literal_number (tree_at row.NUMBER text.now)) (after_phrase row.NUMBER text.now) result }
{
    if !is_one_digit(text) {
        return longer_number_at(text);
    }
    Evaluated::with(number_of_digit(first(text)), text.len() - 1)
}

/// A number that is written out: in one pass where it has no exponent and thirteen digits at most, not counting zeros at
/// its front.
fn longer_number_at(text: &[u8]) -> Evaluated
    requires phrase { is_phrase row.NUMBER text.now ≡ true }
    ensures { Finds (literal_number (tree_at row.NUMBER text.now)) (after_phrase row.NUMBER text.now) result }
{
    let (whole, after) = take_digits(0, text);
    if first(after) != b'.' {
        return ended(text, whole, 0, after);
    }
    let fraction = rest_after(after, 1);
    let (digits, rest) = take_digits(whole, fraction);
    ended(text, digits, fraction.len() - rest.len(), rest)
}
