// A variable as bytes: names by their numbers, and what an entry begins with.
ghost use Rattle.std.specs.Prelude.{◌≡◌, ◌≤◌, ◌<◌, ◌+◌, ◌*◌, ◌^◌, ℕ, true, length, take, drop, get_or};
ghost use Rattle.std.specs.Option.{option_map_or};
ghost use Rattle.b2_base.specs.Lexical.{is_digit, is_letter};
ghost use Rattle.b2_dec.specs.Number.{Number, IsNumber};
ghost use Rattle.b2_dec.specs.Packing.{IsPacked, packed};
ghost use Rattle.b2_vars.specs.Names.{is_legal_name, scalar_named};
ghost use Rattle.b2_vars.specs.Shapes.{overhead};
ghost use Rattle.b2_vars.specs.Block.{names, number_of, digit_number, kind_of, name_bytes, two_bytes, read_name, read_digit, read_common, read_shape, read_two, read_dimension};

use crate::name::Var;
use crate::shape::Shape;
use b2_dec::{Dec, unpacked};

/// How many names there are.
pub const NAMES: usize = 1144;

/// The number of a name.
#[inline(always)]
pub fn number_of(v: Var) -> usize
    requires { is_legal_name v ≡ true }
    ensures number { result ≡ number_of v }
    ensures below { result < names }
{
    (usize::from(v.letter - b'A') * 11 + digit_number(v.digit)) * 4 + usize::from(kind_of(v))
}

/// The number of the name of a numeric scalar, by its letter and its digit counted from 1, 0 where there is none.
pub fn number_of_scalar(letter: u8, digit: u8) -> usize
    requires letter { is_letter letter ≡ true }
    requires digit { digit ≤ 10 }
    ensures number { result ≡ number_of (scalar_named letter digit) }
    ensures below { result < names }
{
    (usize::from(letter - b'A') * 11 + usize::from(digit)) * 4
}

/// A digit counted from 1, and 0 where there is none.
fn digit_number(digit: Option<u8>) -> usize
    requires { option_map_or is_digit digit true ≡ true }
    ensures number { result ≡ digit_number digit }
    ensures small { result ≤ 10 }
{
    match digit {
        Some(digit) => usize::from(digit - 47),
        None => 0,
    }
}

/// 1 for an array and 2 for alpha.
fn kind_of(v: Var) -> u8
    ensures kind { result ≡ kind_of v }
    ensures small { result ≤ 3 }
{
    match (v.array, v.alpha) {
        (false, false) => 0,
        (true, false) => 1,
        (false, true) => 2,
        (true, true) => 3,
    }
}

/// The bytes with which an entry begins.
pub fn name_bytes(v: Var, common: bool) -> [u8; 4]
    ensures { result ≡ name_bytes v common }
{
    let digit = v.digit.unwrap_or(0);
    let flags = kind_of(v) + if common { 4 } else { 0 };
    [v.letter, digit, flags, 0]
}

/// A number in two bytes.
pub fn two_bytes(n: u16) -> [u8; 2]
    ensures { result ≡ two_bytes n }
{
    [(n / 256) as u8, (n % 256) as u8]
}

/// The name with which an entry begins.
fn read_name(bytes: &[u8]) -> Var
    requires { 4 ≤ length bytes.now }
    ensures { result ≡ read_name bytes.now }
{
    Var {
        letter: bytes[0],
        digit: read_digit(bytes[1]),
        alpha: bytes[2] / 2 % 2 == 1,
        array: bytes[2] % 2 == 1,
    }
}

fn read_digit(byte: u8) -> Option<u8>
    ensures { result ≡ read_digit byte }
{
    if byte == 0 { None } else { Some(byte) }
}

/// Whether an entry is that of a common variable.
fn read_common(bytes: &[u8]) -> bool
    requires { 4 ≤ length bytes.now }
    ensures { result ≡ read_common bytes.now }
{
    bytes[2] >= 4
}

/// The shape in an entry.
#[inline(always)]
fn read_shape(v: Var, bytes: &[u8]) -> Shape
    requires { overhead v ≤ length bytes.now }
    ensures { result ≡ read_shape v bytes.now }
{
    let len = if v.alpha { bytes[4] } else { 0 };
    if !v.array {
        return Shape {
            rows: 0,
            cols: 0,
            len,
        };
    }
    Shape {
        rows: read_dimension(v, bytes, 4),
        cols: read_dimension(v, bytes, 6),
        len,
    }
}

fn read_dimension(v: Var, bytes: &[u8], at: usize) -> u16
    requires room { overhead v ≤ length bytes.now }
    requires place { at ≤ 6 }
    ensures { result ≡ read_dimension v bytes.now at }
{
    if !v.array {
        return 0;
    }
    read_two(bytes, if v.alpha { at + 1 } else { at })
}

fn read_two(bytes: &[u8], at: usize) -> u16
    requires room { at + 1 < length bytes.now }
    requires small { at ≤ 7 }
    ensures { result ≡ read_two bytes.now at }
{
    u16::from(bytes[at]) * 256 + u16::from(bytes[at + 1])
}

/// The name with which the entry at a place begins.
pub fn name_at(bytes: &[u8], at: usize) -> Var
    requires { at + 4 ≤ length bytes.now }
    ensures { result ≡ read_name (drop at bytes.now) }
{
    read_name(&bytes[at..])
}

/// Whether the entry at a place is that of a common variable.
pub fn common_at(bytes: &[u8], at: usize) -> bool
    requires { at + 4 ≤ length bytes.now }
    ensures { result ≡ read_common (drop at bytes.now) }
{
    read_common(&bytes[at..])
}

/// The shape in the entry at a place.
#[inline(always)]
pub fn shape_at(v: Var, bytes: &[u8], at: usize) -> Shape
    requires { at + overhead v ≤ length bytes.now }
    ensures { result ≡ read_shape v (drop at bytes.now) }
{
    read_shape(v, &bytes[at..])
}

/// The bytes from a place on.
pub fn part_at(bytes: &[u8], at: usize, n: usize) -> &[u8]
    requires room { at + n ≤ length bytes.now }
    requires fits { at + n < 2 ^ 64 }
    ensures { result.now ≡ take n (drop at bytes.now) }
{
    let end = at + n;
    &bytes[at..end]
}

/// The number in the eight bytes from a place on, which hold one.
pub fn read_number(bytes: &[u8], at: usize) -> Dec
    requires room { at + 8 ≤ length bytes.now }
    requires packed { IsPacked (take 8 (drop at bytes.now)) }
    ensures { (x : Number) → IsNumber x → take 8 (drop at bytes.now) ≡ packed x → result ≡ x }
{
    unpacked(eight(bytes, at))
}

/// The eight bytes from a place on.
fn eight(bytes: &[u8], at: usize) -> &[u8; 8]
    requires { at + 8 ≤ length bytes.now }
    ensures { result.now ≡ take 8 (drop at bytes.now) }
{
    bytes[at..].first_chunk().unwrap()
}

/// What a table has at a place.
pub fn item_at(places: &Vec<u32>, n: usize) -> usize
    requires { n < length places.now.items }
    ensures { result ≡ get_or places.now.items n 0 }
{
    places[n] as usize
}
