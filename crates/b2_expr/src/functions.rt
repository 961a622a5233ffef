// The functions of the language on values, and the numbers that they and subscripts want.
ghost use Rattle.std.specs.Prelude.{◌≡◌, ◌≤◌, ◌<◌, MatchResult, Ok, Err, length};
ghost use Rattle.b2_expr.specs.Functions.{binary_bytes, column_written, count_or, whole_between, extreme, fixed, number_of, of_one, of_text, of_two, position_of, rounded_to, subscript, whole_number};

use b2_alpha::{Rel, bin, pos, val};
use b2_atom::words::{ABS_OPEN, FIX_OPEN, INT_OPEN, LEN_OPEN, MAX_OPEN, ROUND_OPEN, SGN_OPEN};
use b2_base::Code;
use b2_base::codes::P34_RANGE;
use b2_base::lexical::first;
use b2_dec::{Dec, Mode, abs, cmp, fix, int, modulo, round_to, sgn, sqr, whole};
use b2_dectext::num;
use std::cmp::Ordering;

/// A number without its fraction, None where that isn't a whole number of 64 bits.
pub fn fixed(x: Dec) -> Option<i64>
    ensures { result ≡ fixed x }
{
    whole(fix(x))
}

/// A number without its fraction, which must be from one number to another, else P34.
pub fn whole_between(least: u8, most: u8, x: Dec) -> Result<u8, Code>
    ensures { result ≡ whole_between least most x }
{
    match fixed(x) {
        Some(n) if n >= i64::from(least) && n <= i64::from(most) => Ok(n as u8),
        _ => Err(Code::known(P34_RANGE)),
    }
}

/// A count where one is written, which must be from 1 to 4, and else 1.
pub fn count_written(count: Option<Dec>) -> Result<u8, Code>
    ensures { result ≡ count_or 1 1 4 count }
{
    match count {
        Some(x) => whole_between(1, 4, x),
        None => Ok(1),
    }
}

/// A subscript without its fraction; 65,535, which no array has, stands for what is not from 0 to 65,535.
pub fn subscript(x: Dec) -> u16
    ensures { result ≡ subscript x }
{
    match fixed(x) {
        Some(n) if n >= 0 && n < 65_535 => n as u16,
        _ => 65_535,
    }
}

/// The column that is written, or 0.
pub fn column_written(column: Option<Dec>) -> u16
    ensures { result ≡ column_written column }
{
    match column {
        Some(x) => subscript(x),
        None => 0,
    }
}

/// ABS, INT, FIX, SGN or SQR.
pub fn of_one(word: u8, x: Dec) -> Result<Dec, Code>
    ensures { result ≡ of_one word x }
{
    match word {
        ABS_OPEN => Ok(abs(x)),
        INT_OPEN => Ok(int(x)),
        FIX_OPEN => Ok(fix(x)),
        SGN_OPEN => Ok(sgn(x)),
        _ => sqr(x),
    }
}

/// A number rounded to a multiple of 10^-n.
fn rounded_to(x: Dec, n: Option<i64>) -> Result<Dec, Code>
    ensures { result ≡ rounded_to x n }
{
    match n {
        Some(n) if n >= -99 && n <= 99 => round_to(x, n as i8),
        _ => Err(Code::known(P34_RANGE)),
    }
}

/// ROUND or MOD.
pub fn of_two(mode: Mode, word: u8, x: Dec, y: Dec) -> Result<Dec, Code>
    ensures { result ≡ of_two mode word x y }
{
    if word == ROUND_OPEN {
        rounded_to(x, fixed(y))
    } else {
        modulo(x, y, mode)
    }
}

/// The greater of two numbers by MAX, the lesser by MIN.
pub fn extreme(word: u8, x: Dec, y: Dec) -> Dec
    ensures { result ≡ extreme word x y }
{
    let rises = cmp(x, y) != Ordering::Greater;
    if rises == (word == MAX_OPEN) { y } else { x }
}

/// A whole number as a number.
pub fn whole_number(n: u64) -> Dec
    requires { n < 10000000000000 }
    ensures { Ok result ≡ whole_number n }
{
    Dec::of_whole(n)
}

/// LEN or NUM.
pub fn of_text(word: u8, bytes: &[u8]) -> Dec
    requires { length bytes.now ≤ 255 }
    ensures { Ok result ≡ of_text word bytes.now }
{
    let count = if word == LEN_OPEN {
        bytes.len()
    } else {
        num(bytes)
    };
    whole_number(count as u64)
}

/// POS: the place of the first byte of `a` that stands in the relation to the first byte of `b`.
pub fn position_of(rel: Rel, a: &[u8], b: &[u8]) -> Dec
    requires { length a.now ≤ 255 }
    ensures { Ok result ≡ position_of rel a.now b.now }
{
    whole_number(pos(a, rel, first(b)) as u64)
}

/// VAL: the number of the first `n` bytes, P34 where there are fewer.
pub fn number_of(bytes: &[u8], n: u8) -> Result<Dec, Code>
    requires least { 1 ≤ n }
    requires most { n ≤ 4 }
    ensures { result ≡ number_of bytes.now n }
{
    let count = usize::from(n);
    if count > bytes.len() {
        return Err(Code::known(P34_RANGE));
    }
    Ok(whole_number(u64::from(val(bytes, count))))
}

/// BIN: a number without its fraction in the `n` bytes that are lent, P34 where it isn't a whole number that fits.
pub fn binary_bytes(x: Dec, to: &mut [u8]) -> Result<(), Code>
    ensures { MatchResult result (λ done. binary_bytes (length to.old) (fixed x) ≡ Ok to.new) (λ code. binary_bytes (length to.old) (fixed x) ≡ Err code) }
{
    match fixed(x) {
        Some(n) if n >= 0 => bin(n as u64, to),
        _ => Err(Code::known(P34_RANGE)),
    }
}
