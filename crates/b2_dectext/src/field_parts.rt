// What the field of a number is made of, as images and fields write it: perhaps a sign, and marks for digits.
ghost use Rattle.std.specs.Prelude.{◌≡◌, ◌≤◌, length};
ghost use Rattle.std.specs.List.{prefix_len};
ghost use Rattle.b2_dectext.specs.FieldParts as spec;

/// Which sign a field shows.
#[derive(Clone, Copy)]
pub enum Sign {
    /// None.
    Unsigned,
    /// `+` or `-`.
    Always,
    /// `-`, or a blank.
    Negative,
}

/// The sign that a text begins with, and what follows it.
pub fn split_sign(text: &[u8]) -> (Sign, &[u8])
    ensures sign { result.0 ≡ spec.leading_sign text.now }
    ensures rest { result.1.now ≡ spec.after_sign text.now }
{
    match text {
        [b'+', rest @ ..] => (Sign::Always, rest),
        [b'-', rest @ ..] => (Sign::Negative, rest),
        _ => (Sign::Unsigned, text),
    }
}

/// How many `#` a text begins with.
pub fn marks_len(text: &[u8]) -> usize
    ensures count { result ≡ prefix_len spec.is_hash text.now }
    ensures within { result ≤ length text.now }
{
    text.iter().take_while(|b| **b == b'#').count()
}
