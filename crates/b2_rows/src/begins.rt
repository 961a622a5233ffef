// What begins at a text of a unit.
ghost use Rattle.std.specs.Prelude.{◌≡◌, ◌==◌};
ghost use Rattle.b2_base.specs.Lexical as lexical;
ghost use Rattle.b2_atom.specs.Grammar.{starts};
ghost use Rattle.b2_atom.specs.declared.words.Origin.TheVariants.{Atoms};
ghost use Rattle.b2_atom.specs.declared.forms.Start.TheVariants as start;

use b2_atom::words::{ABS_OPEN, BIN_OPEN, FN, HASH_TERM, HEX_OPEN, LINE_MARK, Origin};
use b2_atom::{any_name_width, is_alpha_name};
use b2_base::lexical::{first, is_digit, is_hex_digit, is_letter, rest_after};

/// Whether a word or a sign stands at a text.
pub fn is_at(code: u8, text: &[u8]) -> bool
    ensures { result ≡ (lexical.first text.now == code) }
{
    first(text) == code
}

/// Whether a line number begins at a text.
#[tactic(auto, unfolding(b2_atom::specs::Grammar::starts))]
pub fn is_line_at(text: &[u8]) -> bool
    ensures { result ≡ starts Atoms start.Line text.now }
{
    first(text) == LINE_MARK
}

/// Whether an alpha operand begins at a text.
#[tactic(auto, unfolding(b2_atom::specs::Grammar::starts))]
pub fn is_alpha_at(text: &[u8]) -> bool
    ensures { result ≡ starts Atoms start.Alpha text.now }
{
    let byte = first(text);
    byte == b'"' || byte >= HEX_OPEN && byte <= BIN_OPEN || is_alpha_name(Origin::Atoms, text)
}

/// Whether a numeric expression begins at a text.
#[tactic(auto, unfolding(b2_atom::specs::Grammar::starts))]
pub fn is_numeric_at(text: &[u8]) -> bool
    ensures { result ≡ starts Atoms start.Numeric text.now }
{
    let byte = first(text);
    byte == b'+'
        || byte == b'-'
        || byte == b'.'
        || byte == b'('
        || is_digit(byte)
        || byte == FN
        || byte >= ABS_OPEN && byte <= HASH_TERM
        || (is_letter(byte) || byte == b'@') && !is_alpha_name(Origin::Atoms, text)
}

/// Whether a name with an empty pair of parentheses stands at a text.
#[tactic(auto, unfolding(b2_atom::specs::Grammar::starts))]
pub fn is_array_at(text: &[u8]) -> bool
    ensures { result ≡ starts Atoms start.Array text.now }
{
    let width = any_name_width(Origin::Atoms, text);
    let after = rest_after(text, width);
    width > 0 && first(after) == b'(' && first(rest_after(after, 1)) == b')'
}

/// Whether a hexadecimal digit stands at a text.
#[tactic(auto, unfolding(b2_atom::specs::Grammar::starts))]
pub fn is_hex_at(text: &[u8]) -> bool
    ensures { result ≡ starts Atoms start.Hex text.now }
{
    is_hex_digit(first(text))
}
