// Readers of what is typed by hand, at a text of a unit at which it stands.
ghost use Rattle.std.specs.Prelude.{◌≡◌, ◌≤◌, ◌<◌, ◌++◌, [], ◌∷◌, true, false, get_or};
ghost use Rattle.b2_base.specs.Byte as byte;
ghost use Rattle.b2_base.specs.Lexical as lexical;
ghost use Rattle.b2_atom.specs.Leaves.{leaf_width};
ghost use Rattle.b2_atom.specs.declared.words.Origin.TheVariants.{Atoms};
ghost use Rattle.b2_atom.specs.declared.forms.Leaf.TheVariants as leaf;
ghost use Rattle.b2_rows.specs.Leaves.{is_leaf, leaf_bytes};
ghost use Rattle.b2_rows.specs.Values as spec;

use b2_alpha::Rel;
use b2_atom::words::Origin;
use b2_atom::{
    address_width, alpha_name_width, image_width, literal_width, local_name_width,
    numeric_name_width,
};
use b2_base::Addr;
use b2_base::lexical::{
    at, capped_value, decimal_of, first, first_bytes, hex_value, is_digit, rest_after,
};

/// The name of a variable as it is typed, without subscripts.
#[derive(Clone, Copy)]
pub struct Name {
    /// One of `A` to `Z`.
    pub letter: u8,
    /// The digit after it, one of `0` to `9`, where there is one.
    pub digit: Option<u8>,
    /// Whether a `$` ends it.
    pub alpha: bool,
    /// Whether an `@` begins it.
    pub global: bool,
}

/// The digit that bytes begin with, if they do.
fn digit_in(bytes: &[u8]) -> Option<u8>
    ensures { result ≡ spec.digit_in bytes.now }
{
    let byte = first(bytes);
    if is_digit(byte) { Some(byte) } else { None }
}

/// The name that bytes spell, of which it is known whether it is alpha.
fn variable_name(alpha: bool, bytes: &[u8]) -> Name
    ensures { result ≡ spec.variable_name alpha bytes.now }
{
    let global = first(bytes) == b'@';
    let lettered = if global { rest_after(bytes, 1) } else { bytes };
    Name {
        letter: first(lettered),
        digit: digit_in(rest_after(lettered, 1)),
        alpha,
        global,
    }
}

/// The name of a number, and how many bytes it takes.
pub fn numeric_name(text: &[u8]) -> (Name, usize)
    requires { is_leaf leaf.Name text.now ≡ true }
    ensures value { result.0 ≡ spec.variable_name false (leaf_bytes leaf.Name text.now) }
    ensures letter { lexical.is_letter result.0.letter ≡ true }
    ensures width { result.1 ≡ leaf_width Atoms leaf.Name text.now }
{
    let width = numeric_name_width(Origin::Atoms, text);
    (variable_name(false, first_bytes(text, width)), width)
}

/// The name of an alpha variable, and how many bytes it takes.
pub fn alpha_name(text: &[u8]) -> (Name, usize)
    requires { is_leaf leaf.AlphaName text.now ≡ true }
    ensures value { result.0 ≡ spec.variable_name true (leaf_bytes leaf.AlphaName text.now) }
    ensures letter { lexical.is_letter result.0.letter ≡ true }
    ensures width { result.1 ≡ leaf_width Atoms leaf.AlphaName text.now }
{
    let width = alpha_name_width(Origin::Atoms, text);
    (variable_name(true, first_bytes(text, width)), width)
}

/// The name of a number without `@`, and how many bytes it takes.
pub fn local_name(text: &[u8]) -> (Name, usize)
    requires { is_leaf leaf.LocalName text.now ≡ true }
    ensures value { result.0 ≡ spec.variable_name false (leaf_bytes leaf.LocalName text.now) }
    ensures letter { lexical.is_letter result.0.letter ≡ true }
    ensures local { result.0.global ≡ false }
    ensures width { result.1 ≡ leaf_width Atoms leaf.LocalName text.now }
{
    let width = local_name_width(Origin::Atoms, text);
    (variable_name(false, first_bytes(text, width)), width)
}

/// The letter or digit that names a function.
pub fn function_name(text: &[u8]) -> u8
    requires { is_leaf leaf.FunctionName text.now ≡ true }
    ensures value { leaf_bytes leaf.FunctionName text.now ≡ result ∷ [] }
{
    first(text)
}

/// The number of the line that is named.
pub fn line_at(text: &[u8]) -> u16
    requires { is_leaf leaf.LineNumber text.now ≡ true }
    ensures value { result ≡ spec.line_of (get_or text.now 1 0) (get_or text.now 2 0) }
    ensures small { result ≤ 9999 }
{
    u16::from(decimal_of(at(text, 1))) * 100 + u16::from(decimal_of(at(text, 2)))
}

/// A number from 0 to 255.
pub fn small_at(text: &[u8]) -> u8
    requires { is_leaf leaf.Small text.now ≡ true }
    ensures value { result ≡ spec.small_of (leaf_bytes leaf.Small text.now) }
{
    capped_value(text, 999) as u8
}

/// The number of a slot, from 0 to 15.
pub fn slot_at(text: &[u8]) -> u8
    requires { is_leaf leaf.Slot text.now ≡ true }
    ensures value { result ≡ spec.slot_number (leaf_bytes leaf.Slot text.now) }
    ensures small { result ≤ 15 }
{
    capped_value(rest_after(text, 1), 999) as u8
}

/// The address of a device.
pub fn address_at(text: &[u8]) -> Addr
    requires { is_leaf leaf.Address text.now ≡ true }
    ensures value { result ≡ leaf_bytes leaf.Address text.now }
{
    match Addr::of(first_bytes(text, address_width(Origin::Atoms, text))) {
        Some(address) => address,
        None => unreachable!(),
    }
}

/// The bytes of a literal, between its quotes.
pub fn quoted_at(text: &[u8]) -> &[u8]
    requires { is_leaf leaf.Literal text.now ≡ true }
    ensures value { result.now ≡ spec.literal_of (leaf_bytes leaf.Literal text.now) }
    ensures quoted { leaf_bytes leaf.Literal text.now ≡ byte.quote ∷ (result.now ++ (byte.quote ∷ [])) }
{
    first_bytes(rest_after(text, 1), literal_width(text).saturating_sub(2))
}

/// The bytes of an image, before its closing parenthesis.
pub fn image_at(text: &[u8]) -> &[u8]
    requires { is_leaf leaf.Image text.now ≡ true }
    ensures value { result.now ≡ spec.image_of (leaf_bytes leaf.Image text.now) }
    ensures closed { leaf_bytes leaf.Image text.now ≡ result.now ++ (byte.closing ∷ []) }
{
    first_bytes(text, image_width(Origin::Atoms, text).saturating_sub(1))
}

/// The byte that two hexadecimal digits spell.
pub fn hex_byte_at(text: &[u8]) -> u8
    requires { is_leaf leaf.HexPair text.now ≡ true }
    ensures value { result ≡ spec.hex_byte_of (leaf_bytes leaf.HexPair text.now) }
{
    hex_value(at(text, 0)) * 16 + hex_value(at(text, 1))
}

/// The number that a hexadecimal digit spells, from 0 to 15.
pub fn hex_digit_at(text: &[u8]) -> u8
    requires { is_leaf leaf.HexDigit text.now ≡ true }
    ensures value { result ≡ lexical.hex_value (lexical.first (leaf_bytes leaf.HexDigit text.now)) }
    ensures small { result < 16 }
{
    hex_value(first(text))
}

/// The relation that a comparison sign states.
pub fn relation_at(text: &[u8]) -> Rel
    requires { is_leaf leaf.Relation text.now ≡ true }
    ensures value { result ≡ spec.relation_of (leaf_bytes leaf.Relation text.now) }
{
    match text {
        [b'<', b'=', ..] => Rel::Le,
        [b'<', b'>', ..] => Rel::Ne,
        [b'<', ..] => Rel::Lt,
        [b'>', b'=', ..] => Rel::Ge,
        [b'>', ..] => Rel::Gt,
        _ => Rel::Eq,
    }
}
