// What is typed by hand: how far it goes at a text, and what is there where it is missing.
ghost use Rattle.std.specs.Prelude.{◌≡◌, ◌≢◌, ◌≤◌, ◌<◌, ◌+◌, ◌&&◌, ◌==◌, nat_lt, get_or, length};
ghost use Rattle.b2_base.specs.Byte as byte;
ghost use Rattle.b2_atom.specs.Leaves as spec;

use crate::forms::Leaf;
use crate::output::Stop;
use crate::words::{LEFT_OUT, Origin, class_at, kept_byte};
use b2_base::codes;
use b2_base::lexical::{
    at, capped_value, digits_width, first, is_digit, is_hex_digit, is_letter, is_printable,
    rest_after, upper,
};

/// How many bytes of a literal stand before its closing quote.
fn until_quote(text: &[u8]) -> usize
    ensures count { result ≡ spec.until_quote text.now }
    ensures within { result ≤ length text.now }
{
    let mut rest = text;
    let mut count = 0usize;
    while let [byte, after @ ..] = rest {
        if *byte == b'"' || !is_printable(*byte) {
            return count;
        }
        rest = after;
        count += 1;
    }
    count
}

/// How many bytes of an image stand before its closing parenthesis.
fn until_parenthesis(origin: Origin, text: &[u8]) -> usize
    ensures count { result ≡ spec.until_parenthesis origin text.now }
    ensures within { result ≤ length text.now }
{
    let mut rest = text;
    let mut count = 0usize;
    while let [byte, after @ ..] = rest {
        let shown = kept_byte(origin, *byte);
        if shown == b')' || !is_printable(shown) || upper(shown) != shown {
            return count;
        }
        rest = after;
        count += 1;
    }
    count
}

/// How many bytes spell the digits and the point of a number, or 0.
fn mantissa_width(text: &[u8]) -> usize
    ensures count { result ≡ spec.mantissa_width text.now }
    ensures bound { result ≤ length text.now + 1 }
{
    let whole = digits_width(text);
    if at(text, whole) != b'.' {
        return whole;
    }
    let part = digits_width(rest_after(text, whole.saturating_add(1)));
    if whole == 0 && part == 0 {
        0
    } else {
        whole.saturating_add(1).saturating_add(part)
    }
}

/// How many bytes at a text spell an exponent, or 0.
fn exponent_width(origin: Origin, text: &[u8]) -> usize
    ensures count { result ≡ spec.exponent_width origin text.now }
    ensures short { result ≤ 4 }
{
    if kept_byte(origin, first(text)) != b'E' {
        return 0;
    }
    let sign = if at(text, 1) == b'+' || at(text, 1) == b'-' {
        1
    } else {
        0
    };
    if !is_digit(at(text, 1 + sign)) {
        return 0;
    }
    if is_digit(at(text, 2 + sign)) {
        3 + sign
    } else {
        2 + sign
    }
}

/// How many bytes at a text spell a number without a sign, or 0.
pub fn number_width(origin: Origin, text: &[u8]) -> usize
    ensures count { result ≡ spec.number_width origin text.now }
    ensures bound { result ≤ length text.now + 5 }
{
    let mantissa = mantissa_width(text);
    if mantissa == 0 {
        0
    } else {
        mantissa.saturating_add(exponent_width(origin, rest_after(text, mantissa)))
    }
}

/// How many bytes spell a number with a sign before it or none, or 0.
pub fn signed_number_width(origin: Origin, text: &[u8]) -> usize
    ensures { result ≡ spec.signed_number_width origin text.now }
{
    if first(text) != b'+' && first(text) != b'-' {
        return number_width(origin, text);
    }
    let number = number_width(origin, rest_after(text, 1));
    if number == 0 {
        0
    } else {
        number.saturating_add(1)
    }
}

/// How many bytes spell a name without its `$`, or 0.
fn name_width(origin: Origin, text: &[u8]) -> usize
    ensures count { result ≡ spec.name_width origin text.now }
    ensures short { result ≤ 3 }
{
    let class = class_at(origin, text);
    if is_letter(class) {
        if is_digit(at(text, 1)) { 2 } else { 1 }
    } else if class == b'@' && is_letter(kept_byte(origin, at(text, 1))) {
        if is_digit(at(text, 2)) { 3 } else { 2 }
    } else {
        0
    }
}

/// Whether a `$` stands after a name that takes so many bytes of a text, 0 for none.
fn has_dollar(text: &[u8], width: usize) -> bool
    ensures { result ≡ (nat_lt 0 width && get_or text.now width 0 == byte.dollar) }
{
    width > 0 && at(text, width) == b'$'
}

/// Whether an alpha name stands there.
pub fn is_alpha_name(origin: Origin, text: &[u8]) -> bool
    ensures { result ≡ spec.is_alpha_name origin text.now }
{
    has_dollar(text, name_width(origin, text))
}

/// How many bytes spell the name of a number, or 0.
pub fn numeric_name_width(origin: Origin, text: &[u8]) -> usize
    ensures count { result ≡ spec.numeric_name_width origin text.now }
    ensures short { result ≤ 3 }
{
    let width = name_width(origin, text);
    if has_dollar(text, width) { 0 } else { width }
}

/// How many bytes spell the name of an alpha variable with its `$`, or 0.
pub fn alpha_name_width(origin: Origin, text: &[u8]) -> usize
    ensures count { result ≡ spec.alpha_name_width origin text.now }
    ensures short { result ≤ 4 }
{
    let width = name_width(origin, text);
    if has_dollar(text, width) {
        width + 1
    } else {
        0
    }
}

/// How many bytes spell the name of a number without `@`, or 0.
pub fn local_name_width(origin: Origin, text: &[u8]) -> usize
    ensures { result ≡ spec.local_name_width origin text.now }
{
    if first(text) == b'@' {
        0
    } else {
        numeric_name_width(origin, text)
    }
}

/// How many bytes spell a name of either kind, or 0.
pub fn any_name_width(origin: Origin, text: &[u8]) -> usize
    ensures count { result ≡ spec.any_name_width origin text.now }
    ensures short { result ≤ 4 }
{
    let width = name_width(origin, text);
    if has_dollar(text, width) {
        width + 1
    } else {
        width
    }
}

/// How many bytes spell a function's name, a letter or a digit, or 0.
pub fn function_name_width(origin: Origin, text: &[u8]) -> usize
    ensures { result ≡ spec.function_name_width origin text.now }
{
    let class = class_at(origin, text);
    if is_letter(class) || is_digit(class) {
        1
    } else {
        0
    }
}

/// How many bytes spell a literal with both its quotes, or 0.
pub fn literal_width(text: &[u8]) -> usize
    ensures { result ≡ spec.literal_width text.now }
{
    let count = until_quote(rest_after(text, 1));
    if first(text) == b'"' && count > 0 && at(text, count.saturating_add(1)) == b'"' {
        count.saturating_add(2)
    } else {
        0
    }
}

/// Whether a hexadecimal digit stands at a place of a text.
fn is_hex_at(origin: Origin, text: &[u8], index: usize) -> bool
    ensures { result ≡ spec.is_hex_at origin text.now index }
{
    is_hex_digit(kept_byte(origin, at(text, index)))
}

/// How many bytes spell two hexadecimal digits, or 0.
pub fn hex_pair_width(origin: Origin, text: &[u8]) -> usize
    ensures { result ≡ spec.hex_pair_width origin text.now }
{
    if is_hex_at(origin, text, 0) && is_hex_at(origin, text, 1) {
        2
    } else {
        0
    }
}

/// How many bytes spell a hexadecimal digit, or 0.
pub fn hex_digit_width(origin: Origin, text: &[u8]) -> usize
    ensures { result ≡ spec.hex_digit_width origin text.now }
{
    if is_hex_at(origin, text, 0) { 1 } else { 0 }
}

/// How many bytes spell the three hexadecimal digits of a device, or 0.
pub fn address_width(origin: Origin, text: &[u8]) -> usize
    ensures { result ≡ spec.address_width origin text.now }
{
    if is_hex_at(origin, text, 0) && is_hex_at(origin, text, 1) && is_hex_at(origin, text, 2) {
        3
    } else {
        0
    }
}

/// How many bytes spell a number from 0 to 255, or 0.
pub fn small_width(text: &[u8]) -> usize
    ensures { result ≡ spec.small_width text.now }
{
    if capped_value(text, 999) <= 255 {
        digits_width(text)
    } else {
        0
    }
}

/// How many bytes spell `#` and a number from 0 to 15, or 0.
pub fn slot_width(text: &[u8]) -> usize
    ensures { result ≡ spec.slot_width text.now }
{
    let number = rest_after(text, 1);
    let count = digits_width(number);
    if first(text) == b'#' && count > 0 && capped_value(number, 999) <= 15 {
        count.saturating_add(1)
    } else {
        0
    }
}

/// How many bytes spell an image with its closing parenthesis, or 0.
pub fn image_width(origin: Origin, text: &[u8]) -> usize
    ensures { result ≡ spec.image_width origin text.now }
{
    let count = until_parenthesis(origin, text);
    if first(text) != b' ' && at(text, count) == b')' {
        count.saturating_add(1)
    } else {
        0
    }
}

/// How many bytes spell a comparison sign, or 0.
pub fn relation_width(text: &[u8]) -> usize
    ensures { result ≡ spec.relation_width text.now }
{
    match text {
        [b'<', b'=' | b'>', ..] | [b'>', b'=', ..] => 2,
        [b'<' | b'>' | b'=', ..] => 1,
        _ => 0,
    }
}

/// How many bytes spell a leaf at a text, or 0 where it isn't there. Of line numbers and free text it says nothing.
pub fn leaf_width(origin: Origin, leaf: Leaf, text: &[u8]) -> usize
    ensures { result ≡ spec.leaf_width origin leaf text.now }
{
    match leaf {
        Leaf::Number => number_width(origin, text),
        Leaf::SignedNumber => signed_number_width(origin, text),
        Leaf::Name => numeric_name_width(origin, text),
        Leaf::AlphaName => alpha_name_width(origin, text),
        Leaf::LocalName => local_name_width(origin, text),
        Leaf::FunctionName => function_name_width(origin, text),
        Leaf::Literal => literal_width(text),
        Leaf::HexPair => hex_pair_width(origin, text),
        Leaf::HexDigit => hex_digit_width(origin, text),
        Leaf::Address => address_width(origin, text),
        Leaf::Slot => slot_width(text),
        Leaf::Small => small_width(text),
        Leaf::Image => image_width(origin, text),
        Leaf::Relation => relation_width(text),
        Leaf::LineNumber | Leaf::Text => 0,
    }
}

/// The refusal where an item is missing: its code, or S27 where a word stands that this machine leaves out.
pub fn refused(origin: Origin, code: u8, text: &[u8]) -> Stop
    ensures code { result ≡ spec.refused origin code text.now }
    ensures known { result ≢ Stop.NoMemory }
{
    if class_at(origin, text) == LEFT_OUT {
        Stop::At(codes::S27_LEFT_OUT, text.len())
    } else {
        Stop::At(code, text.len())
    }
}

/// The refusal where a leaf is missing at a text.
pub fn missing(origin: Origin, leaf: Leaf, code: u8, text: &[u8]) -> Stop
    ensures { result ≡ spec.missing origin leaf code text.now }
{
    match leaf {
        Leaf::Literal => missing_literal(origin, code, text),
        Leaf::HexPair => {
            if is_hex_digit(kept_byte(origin, first(text))) {
                Stop::At(code, text.len().saturating_sub(1))
            } else {
                Stop::At(code, text.len())
            }
        }
        Leaf::HexDigit | Leaf::Address => Stop::At(code, text.len()),
        Leaf::Slot => Stop::At(code, text.len().saturating_sub(1)),
        Leaf::Image => Stop::At(code, 0),
        Leaf::Number
        | Leaf::SignedNumber
        | Leaf::Name
        | Leaf::AlphaName
        | Leaf::LocalName
        | Leaf::FunctionName
        | Leaf::LineNumber
        | Leaf::Small
        | Leaf::Text
        | Leaf::Relation => refused(origin, code, text),
    }
}

/// Where a quote opens, its literal is empty or isn't closed.
fn missing_literal(origin: Origin, code: u8, text: &[u8]) -> Stop
    ensures { result ≡ spec.missing_literal origin code text.now }
{
    if first(text) != b'"' {
        return refused(origin, code, text);
    }
    if at(text, 1) == b'"' {
        return Stop::At(codes::S18_ALPHA, text.len());
    }
    let count = until_quote(rest_after(text, 1));
    Stop::At(
        codes::S19_HEX_OR_QUOTE,
        text.len().saturating_sub(count.saturating_add(1)),
    )
}
