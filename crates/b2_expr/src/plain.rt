// Plain expressions, which are read at once: a scalar or a number that is written out, alone or joined to another.
ghost use Rattle.std.specs.Prelude.{◌≡◌, true, false, is_err, IfSome, Ok};
ghost use Rattle.b2_base.specs.Lexical.{is_letter};
ghost use Rattle.b2_base.specs.Lexical as lexical;
ghost use Rattle.b2_atom.specs.declared.rows.TheConstants as row;
ghost use Rattle.b2_rows.specs.Rows.{is_phrase, tree_at, after_phrase};
ghost use Rattle.b2_rows.specs.Chains.{is_sign};
ghost use Rattle.b2_expr.specs.Plain as spec;
ghost use Rattle.b2_expr.specs.Value as meaning;
ghost use Rattle.b2_expr.specs.Value.{literal_bytes, text_operand, text_row};
ghost use Rattle.b2_rows.specs.declared.operands.AlphaOperand.TheVariants as alpha_kind;
ghost use Rattle.b2_expr.specs.declared.operators.Level.TheVariants as level_of;

use crate::evaluated::{Evaluated, last_bytes};
use crate::literals::written_number_at;
use crate::named::{counted_digit, plain_width, variable_of};
use crate::operators::joined;
use b2_alpha::value_len;
use b2_atom::literal_width;
use b2_base::Code;
use b2_base::codes::S17_NUMERIC;
use b2_base::lexical::{at, first, first_bytes, is_digit, is_letter, rest_after};
use b2_dec::{Dec, Mode, NumberOrCode};
use b2_rows::{AlphaOperand, alpha_name, alpha_operand_at, is_at, quoted_at};
use b2_vars::Vars;

/// The most bytes of a text at which a plain expression is looked for: what is longer mostly goes on.
const FEW_BYTES: usize = 24;

/// Whether a byte joins two numbers.
#[inline(always)]
fn is_operator(byte: u8) -> bool
    ensures { result ≡ spec.is_operator byte }
{
    byte == b'+' || byte == b'-' || byte == b'*' || byte == b'/' || byte == b'^'
}

/// What stands for an expression that isn't plain.
#[inline(always)]
fn not_plain() -> Evaluated
    ensures { is_err result.number ≡ true }
{
    Evaluated::at_end(NumberOrCode::code(Code::known(S17_NUMERIC)))
}

/// A scalar, where it stands without subscripts.
#[tactic(auto, using(crate::proofs::PlainSums::none_plain, crate::proofs::PlainSums::scalar_plain))]
#[inline(always)]
fn plain_scalar(own: &Vars, text: &[u8]) -> Evaluated
    requires phrase { is_phrase row.OPERAND text.now ≡ true }
    requires letter { is_letter (lexical.first text.now) ≡ true }
    ensures { spec.IsPlain own.now level_of.Operand text.now result }
{
    let width = plain_width(text);
    if at(text, width) == b'(' {
        return not_plain();
    }
    let number = own.scalar(first(text), counted_digit(at(text, 1)));
    Evaluated::with(number, text.len().saturating_sub(width))
}

/// A plain operand: a scalar without subscripts, or a number that begins with a digit.
#[tactic(auto, using(crate::proofs::PlainSums::none_plain, crate::proofs::PlainSums::letter_part, crate::proofs::PlainSums::letter_unsigned, crate::proofs::PlainSums::digit_part, crate::proofs::PlainSums::digit_plain, crate::proofs::PlainSums::digit_unsigned))]
#[inline(always)]
fn plain_operand(own: &Vars, text: &[u8]) -> Evaluated
    requires phrase { is_phrase row.FACTOR text.now ≡ true }
    ensures value { spec.IsPlain own.now level_of.Operand text.now result }
    ensures unsigned { is_err result.number ≡ false → is_sign (lexical.first text.now) ≡ false }
{
    let byte = first(text);
    if is_letter(byte) {
        return plain_scalar(own, text);
    }
    if is_digit(byte) {
        return written_number_at(text);
    }
    not_plain()
}

/// The value of an expression of one plain operand, or of two that an operator other than `^` joins. A code says that it
/// is another, or comes to a code.
#[tactic(auto, using(crate::proofs::PlainSums::none_summed, crate::proofs::PlainSums::factor_of, crate::proofs::PlainSums::item_part, crate::proofs::PlainSums::sum_alone, crate::proofs::PlainSums::sum_joined))]
pub fn plain_sum(own: &Vars, mode: Mode, text: &[u8]) -> Evaluated
    requires phrase { is_phrase row.SUM text.now ≡ true }
    ensures { spec.IsPlainSum own.now mode text.now result }
{
    if text.len() > FEW_BYTES {
        return not_plain();
    }
    let start = plain_operand(own, text);
    if start.number.is_code() {
        return start;
    }
    let rest = last_bytes(text, start.left);
    let operator = first(rest);
    if !is_operator(operator) {
        return start;
    }
    if operator == b'^' {
        return not_plain();
    }
    let item = rest_after(rest, 1);
    let other = plain_operand(own, item);
    if other.number.is_code() {
        return other;
    }
    if is_operator(first(last_bytes(item, other.left))) {
        return not_plain();
    }
    Evaluated {
        number: joined(mode, operator, start.number.get(), other.number.get()),
        left: other.left,
    }
}

/// The bytes of a literal, and what stands after it.
#[tactic(auto, using(crate::proofs::Texts::quoted_here, crate::proofs::Texts::quoted_is, crate::proofs::Texts::quoted_rest))]
#[inline(always)]
fn plain_literal(text: &[u8]) -> Option<(&[u8], &[u8])>
    requires phrase { is_phrase row.LITERAL text.now ≡ true }
    ensures { IfSome result (λ p. (literal_bytes (tree_at row.LITERAL text.now) ≡ Ok p.0.now) × (p.1.now ≡ after_phrase row.LITERAL text.now)) }
{
    Some((quoted_at(text), rest_after(text, literal_width(text))))
}

/// The value of an alpha scalar that stands without subscripts, and what stands after it.
#[tactic(auto, using(crate::proofs::PlainTexts::alpha_leaf, crate::proofs::PlainTexts::alpha_legal, crate::proofs::PlainTexts::is_alpha_name, crate::proofs::PlainTexts::scalar_plain_text))]
#[inline(always)]
fn plain_alpha<'a>(own: &'a Vars, text: &'a [u8]) -> Option<(&'a [u8], &'a [u8])>
    requires phrase { is_phrase row.ALPHA_VARIABLE text.now ≡ true }
    ensures { IfSome result (λ p. spec.IsPlainText (λ e. text_operand e alpha_kind.Variable (tree_at row.ALPHA_VARIABLE text.now)) (after_phrase row.ALPHA_VARIABLE text.now) own.now p.0.now p.1.now) }
{
    let (name, width) = alpha_name(text);
    let rest = rest_after(text, width);
    if name.global {
        return None;
    }
    if is_at(b'(', rest) {
        return None;
    }
    match own.alpha(variable_of(name, false), 0, 0) {
        Ok(bytes) => Some((first_bytes(bytes, value_len(bytes)), rest)),
        Err(_) => None,
    }
}

/// The bytes of a plain alpha operand, and what stands after it: a literal, or a scalar without subscripts.
#[tactic(auto, using(b2_rows::proofs::EachOperand::literal_here, b2_rows::proofs::EachOperand::alpha_variable_here, crate::proofs::PlainTexts::literal_plain, crate::proofs::PlainTexts::variable_plain_text))]
#[inline(always)]
fn plain_alpha_operand<'a>(own: &'a Vars, text: &'a [u8]) -> Option<(&'a [u8], &'a [u8])>
    requires phrase { is_phrase row.ALPHA_OPERAND text.now ≡ true }
    ensures { IfSome result (λ p. spec.IsPlainText (λ e. text_row e (tree_at row.ALPHA_OPERAND text.now)) (after_phrase row.ALPHA_OPERAND text.now) own.now p.0.now p.1.now) }
{
    match alpha_operand_at(text) {
        AlphaOperand::Literal => plain_literal(text),
        AlphaOperand::Variable => plain_alpha(own, text),
        _ => None,
    }
}

/// The bytes of an alpha expression of one plain operand, and what stands after it; None where it is another.
#[tactic(auto, using(crate::proofs::Texts::text_first, crate::proofs::PlainTexts::text_alone))]
#[inline(always)]
pub fn plain_text<'a>(own: &'a Vars, text: &'a [u8]) -> Option<(&'a [u8], &'a [u8])>
    requires phrase { is_phrase row.ALPHA text.now ≡ true }
    ensures { IfSome result (λ p. spec.IsPlainText (λ e. meaning.text e (tree_at row.ALPHA text.now)) (after_phrase row.ALPHA text.now) own.now p.0.now p.1.now) }
{
    let Some((bytes, rest)) = plain_alpha_operand(own, text) else {
        return None;
    };
    if is_at(b'&', rest) {
        return None;
    }
    if bytes.len() > 255 {
        return None;
    }
    Some((bytes, rest))
}
