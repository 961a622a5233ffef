// The first values of a record, as they are asked.
ghost use Rattle.std.specs.Prelude.{◌≡◌};
ghost use Rattle.b2_record.specs.Asking.{agree, is_of};

use b2_dec::{Kind, Value};

/// Whether a value is of a kind.
fn is_of(kind: Kind, value: &Value) -> bool
    ensures { result ≡ is_of kind value.now }
{
    match value {
        Value::Number(_) => kind == Kind::Number,
        Value::Alpha(_) => kind == Kind::Alpha,
    }
}

/// Whether each value is of the kind that is asked at its place, as far as there are both.
pub fn agree(kinds: &[Kind], values: &[Value]) -> bool
    ensures { result ≡ agree kinds.now values.now }
{
    let mut rest = values;
    for kind in kinds {
        let Some((value, after)) = rest.split_first() else {
            return true;
        };
        if !is_of(*kind, value) {
            return false;
        }
        rest = after;
    }
    true
}
