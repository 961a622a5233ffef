// Kinds of values: bytes and numbers.
ghost use Rattle.std.specs.Prelude.{◌≡◌};
ghost use Rattle.b2_expr.specs.Kinds as spec;

use b2_dec::Value;

/// Whether a value is for a receiver that takes bytes, or for one that takes a number.
pub fn suits(takes_bytes: bool, value: &Value) -> bool
    ensures { result ≡ spec.suits takes_bytes value.now }
{
    match value {
        Value::Number(_) => !takes_bytes,
        Value::Alpha(_) => takes_bytes,
    }
}
