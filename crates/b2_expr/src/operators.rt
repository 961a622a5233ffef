// The levels of operators: sums of products of powers; what joins two numbers, and two conditions.
ghost use Rattle.std.specs.Prelude.{◌≡◌, Some};
ghost use Rattle.b2_expr.specs.Operators.{joined, joined_condition, raised, raised_by, under_sign};

use b2_atom::words::{AND, OR};
use b2_base::Code;
use b2_base::codes::C65_EXPONENT;
use b2_dec::{
    Dec, Mode, NumberOrCode, difference_or_code, power_or_code, product_or_code, quotient_or_code,
    sum_or_code, whole,
};

/// The levels of operators, from what binds least to what binds most.
#[derive(Clone, Copy, Default)]
pub enum Level {
    #[default]
    Sum,
    Product,
    Factor,
    Power,
    Operand,
}

/// A number to the power of a whole one, which must be from 0 to 255.
fn raised_to(a: Dec, exponent: i64, mode: Mode) -> NumberOrCode
    ensures { result ≡ raised_by mode a (Some exponent) }
{
    if exponent < 0 || exponent > 255 {
        return NumberOrCode::code(Code::known(C65_EXPONENT));
    }
    power_or_code(a, exponent as u8, mode)
}

/// A number to the power of another, which must be a whole one from 0 to 255.
fn raised(a: Dec, b: Dec, mode: Mode) -> NumberOrCode
    ensures { result ≡ raised mode a b }
{
    match whole(b) {
        Some(exponent) => raised_to(a, exponent, mode),
        None => NumberOrCode::code(Code::known(C65_EXPONENT)),
    }
}

/// What two numbers come to by the operator that a byte is.
fn joined_by(mode: Mode, operator: u8, a: Dec, b: Dec) -> NumberOrCode
    ensures { result ≡ joined mode operator a b }
{
    match operator {
        b'+' => sum_or_code(a, b, mode),
        b'-' => difference_or_code(a, b, mode),
        b'*' => product_or_code(a, b, mode),
        b'/' => quotient_or_code(a, b, mode),
        _ => raised(a, b, mode),
    }
}

/// What two numbers come to by the operator that a byte is. `+`, the commonest, is told by the caller itself.
#[inline(always)]
pub fn joined(mode: Mode, operator: u8, a: Dec, b: Dec) -> NumberOrCode
    ensures { result ≡ joined mode operator a b }
{
    if operator == b'+' {
        return sum_or_code(a, b, mode);
    }
    joined_by(mode, operator, a, b)
}

/// A number with `+` or `-` before it.
pub fn under_sign(mode: Mode, sign: u8, number: Dec) -> NumberOrCode
    ensures { result ≡ under_sign mode sign number }
{
    if sign == b'-' {
        difference_or_code(Dec::zero(), number, mode)
    } else {
        NumberOrCode::number(number)
    }
}

/// What AND, OR or XOR make of two conditions.
pub fn joined_condition(word: u8, a: bool, b: bool) -> bool
    ensures { result ≡ joined_condition word a b }
{
    match word {
        AND => a && b,
        OR => a || b,
        _ => a != b,
    }
}
