// Powers and square roots.
ghost use Rattle.std.specs.Prelude.{◌≡◌, ◌*◌, IfOk, IsOk, false};
ghost use Rattle.b2_dec.specs.Laws.{IsRoot};
ghost use Rattle.b2_dec.specs.Arithmetic.{one_number, times, power_of, root_of};

use crate::number::{Dec, Mode, NumberOrCode};
use crate::products::product_or_code;
use crate::rounding::{round_whole_part, ten_to};
use b2_base::Code;
use b2_base::codes::{C63_ZERO_BY_ZERO, C66_ROOT};

/// 1 multiplied `n` times by a number, and rounded each time. C63 for zero to the power of 0; C60 and C61 where a product
/// is too small or too large.
pub fn power(a: Dec, n: u8, m: Mode) -> Result<Dec, Code>
    ensures { result ≡ power_of m a n }
{
    power_or_code(a, n, m).result()
}

/// The power, or the code that `power` gives, in one word.
pub fn power_or_code(a: Dec, n: u8, m: Mode) -> NumberOrCode
    ensures { result ≡ power_of m a n }
{
    if a.is_zero() && n == 0 {
        return NumberOrCode::code(Code::known(C63_ZERO_BY_ZERO));
    }
    multiplied(a, n, m)
}

/// 1 multiplied `n` times by a number.
fn multiplied(a: Dec, n: u8, mode: Mode) -> NumberOrCode
    ensures { result ≡ times mode n a one_number }
{
    let mut product = Dec::ending_at(false, 1_000_000_000_000, 99);
    for _ in 0..n {
        let next = product_or_code(product, a, mode);
        if next.is_code() {
            return next;
        }
        product = next.get();
    }
    NumberOrCode::number(product)
}

/// The greatest number whose square isn't above this one; C66 for a number below zero.
pub fn sqr(a: Dec) -> Result<Dec, Code>
    ensures number { result ≡ root_of a }
    ensures greatest { IfOk result (λ root. IsRoot a root) }
    ensures some { a.neg ≡ false → IsOk result }
{
    if a.is_negative() {
        return Err(Code::known(C66_ROOT));
    }
    let (coef, place) = (a.coefficient(), a.place());
    if coef == 0 {
        return Ok(Dec::zero());
    }
    // An even number of places is left for the root to halve.
    let more = 14 + (place + 1) % 2;
    let root = (coef as u128 * ten_to(more) as u128).isqrt();
    round_whole_part(false, root, (place + 333 - more) / 2, Mode::Cut)
}
