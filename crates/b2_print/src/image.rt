// The fields of an image.
ghost use Rattle.std.specs.Prelude.{◌≡◌, ◌==◌, ◌≤◌, ◌<◌, ◌^◌, length, IfSome};
ghost use Rattle.std.specs.List.{prefix_len};
ghost use Rattle.b2_base.specs.Byte as byte;
ghost use Rattle.b2_base.specs.Lexical.{first};
ghost use Rattle.b2_print.specs.Images as spec;

use b2_dectext::{Sign, marks_len, split_sign};
use std::marker::Model;

/// A field. Contracts see its parts.
#[derive(Drop)]
pub(crate) struct Field<'a> {
    sign: Sign,
    dollar: bool,
    /// The `#` and `,` before the point.
    whole: &'a [u8],
    /// The number of `#` after the point.
    decimals: usize,
}

impl<'a> Model for Field<'a> {
    ghost use Rattle.b2_print.specs.Images.{Field};

    ghost Value = { Field };

    ghost view = { λ f. record { sign = f.sign; dollar = f.dollar; whole = f.whole.now; decimals = f.decimals } };
}

impl Field<'_> {
    pub(crate) fn sign(&self) -> Sign
        ensures { result ≡ self.now.sign }
    {
        self.sign
    }

    pub(crate) fn has_dollar(&self) -> bool
        ensures { result ≡ self.now.dollar }
    {
        self.dollar
    }

    /// The `#` and `,` before the point.
    pub(crate) fn whole(&self) -> &[u8]
        ensures { result.now ≡ self.now.whole }
    {
        self.whole
    }

    /// The number of `#` after the point.
    pub(crate) fn decimals(&self) -> usize
        ensures { result ≡ self.now.decimals }
    {
        self.decimals
    }

    /// How many bytes of the image it is.
    pub(crate) fn width(&self) -> usize
        requires { spec.field_width self.now < 2 ^ 64 }
        ensures { result ≡ spec.field_width self.now }
    {
        let sign = if self.sign == Sign::Unsigned { 0 } else { 1 };
        let dollar = if self.dollar { 1 } else { 0 };
        let point = if self.decimals == 0 {
            0
        } else {
            self.decimals + 1
        };
        sign + dollar + self.whole.len() + point
    }
}

/// Whether a text begins with a `$`, and what follows it.
fn split_dollar(text: &[u8]) -> (bool, &[u8])
    ensures dollar { result.0 ≡ (first text.now == byte.dollar) }
    ensures rest { result.1.now ≡ spec.after_dollar text.now }
{
    match text {
        [b'$', rest @ ..] => (true, rest),
        _ => (false, text),
    }
}

/// How many `#` and `,` a text begins with.
fn places_len(text: &[u8]) -> usize
    ensures len { result ≡ prefix_len spec.is_place text.now }
    ensures within { result ≤ length text.now }
{
    text.iter()
        .take_while(|b| **b == b'#' || **b == b',')
        .count()
}

/// How many `#` stand after a point that a text begins with.
fn decimals_of(text: &[u8]) -> usize
    ensures { result ≡ spec.decimals_of text.now }
{
    match text {
        [b'.', rest @ ..] => marks_len(rest),
        _ => 0,
    }
}

/// The field of a sign and a `$` where its places follow.
fn with_places(sign: Sign, dollar: bool, text: &[u8]) -> Option<Field<'_>>
    ensures { result ≡ spec.with_places sign dollar text.now }
{
    if text.first() != Some(&b'#') {
        return None;
    }
    let (whole, rest) = text.split_at(places_len(text));
    Some(Field {
        sign,
        dollar,
        whole,
        decimals: decimals_of(rest),
    })
}

/// The longest field that a text begins with, if there is one.
pub(crate) fn field_at(text: &[u8]) -> Option<Field<'_>>
    ensures field { result ≡ spec.field_at text.now }
    ensures within { IfSome result (λ f. spec.field_width f ≤ length text.now) }
{
    let (sign, rest) = split_sign(text);
    let (dollar, rest) = split_dollar(rest);
    with_places(sign, dollar, rest)
}
