// Chains of the table, and the operators in them.
ghost use Rattle.std.specs.Prelude.{◌≡◌};
ghost use Rattle.b2_base.specs.Lexical as lexical;
ghost use Rattle.b2_rows.specs.Chains as spec;

use b2_atom::words::{AND, XOR};
use b2_base::lexical::first;

/// A chain of the table: an item, and further items, each after an operator.
#[derive(Clone, Copy)]
pub enum Chain {
    /// Products, joined by `+` and `-`.
    Sum,
    /// Factors, joined by `*` and `/`.
    Product,
    /// Operands, joined by `^`.
    Power,
    /// Alpha operands, joined by `&`.
    Alpha,
    /// Comparisons, joined by AND, OR and XOR.
    Condition,
    /// The sum that gives the length in DIM and COM, which begins with no parenthesis.
    Length,
    /// The product that such a sum begins with.
    LengthProduct,
    /// The power that such a product begins with.
    LengthPower,
}

/// Whether a byte is `+` or `-`.
fn is_sign(byte: u8) -> bool
    ensures { result ≡ spec.is_sign byte }
{
    byte == b'+' || byte == b'-'
}

/// Whether a sign stands at a text.
pub fn has_sign(text: &[u8]) -> bool
    ensures { result ≡ spec.is_sign (lexical.first text.now) }
{
    is_sign(first(text))
}

/// Whether an operator of a chain stands at a text.
pub fn goes_on(chain: Chain, text: &[u8]) -> bool
    ensures { result ≡ spec.is_operator_of chain (lexical.first text.now) }
{
    let byte = first(text);
    match chain {
        Chain::Sum | Chain::Length => is_sign(byte),
        Chain::Product | Chain::LengthProduct => byte == b'*' || byte == b'/',
        Chain::Power | Chain::LengthPower => byte == b'^',
        Chain::Alpha => byte == b'&',
        Chain::Condition => byte >= AND && byte <= XOR,
    }
}
