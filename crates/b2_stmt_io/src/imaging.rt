// PRINTUSING: values in an image.
ghost use Rattle.std.specs.Prelude.{◌≡◌, ◌==◌, ◌++◌, ◌∷◌, [], true, OnOk, MatchResult, Ok, Err};
ghost use Rattle.b2_base.specs.Byte as byte;
ghost use Rattle.b2_base.specs.Lexical.{first};
ghost use Rattle.b2_base.specs.Refusals.{IsRefused};
ghost use Rattle.b2_atom.specs.declared.rows.TheConstants as row;
ghost use Rattle.b2_receiver.specs.Assigning.{LendsOr};
ghost use Rattle.b2_expr.specs.Scope.{surroundings};
ghost use Rattle.b2_expr.specs.Value.{in_statement};
ghost use Rattle.b2_rows.specs.Rows.{is_phrase, tree_at};
ghost use Rattle.b2_text.specs.Program.{line_at as line_of};
ghost use Rattle.b2_stmt_io.specs.Imaging as spec;
ghost use Rattle.b2_stmt_io.specs.Imaging.{is_joined};
ghost use Rattle.b2_rows.specs.CommaLists.{after_all_listed};
ghost use Rattle.b2_stmt_io.specs.Operands.{are_operands, items_text, operands_at, operands_tree, past_operand};

use b2_atom::{Cursor, literal_width};
use b2_base::codes::{P36_NO_LINE, P42_IMAGE};
use b2_base::lexical::rest_after;
use b2_base::{ByteList, Code, Fault, NoMemory};
use b2_dec::{Bytes, Value};
use b2_expr::{Env, alpha, number};
use b2_print::using;
use b2_rows::{is_alpha_at, is_at, is_line_at, line_at, quoted_at};
use b2_text::Text;
use std::alloc::Global;

/// The image on a line: P36 where the line isn't there, and P42 where it doesn't begin with `%`.
fn line_image(home: &Text, n: u16) -> Result<&[u8], Code>
    ensures { LendsOr (spec.line_image (line_of n home.now.lines)) result }
{
    let Some(line) = home.line(n) else {
        return Err(Code::known(P36_NO_LINE));
    };
    match line.atoms {
        [b'%', image @ ..] => Ok(image),
        _ => Err(Code::known(P42_IMAGE)),
    }
}

/// The image that is written or named.
#[tactic(auto, using(crate::proofs::UsingRows::line_here, crate::proofs::UsingRows::line_is, crate::proofs::UsingRows::written_here, crate::proofs::UsingRows::written_is))]
fn image_of<'a>(home: &'a Text, unit: &'a [u8]) -> Result<&'a [u8], Code>
    requires phrase { is_phrase row.PRINTUSING unit.now ≡ true }
    ensures { LendsOr (spec.image_named home.now.lines (tree_at row.PRINTUSING unit.now)) result }
{
    let text = rest_after(unit, 1);
    if is_line_at(text) {
        line_image(home, line_at(text))
    } else {
        Ok(quoted_at(text))
    }
}

/// The text of the items after the image.
#[tactic(auto, using(crate::proofs::UsingRows::after_line, crate::proofs::UsingRows::after_written))]
fn items_of(unit: &[u8]) -> &[u8]
    requires phrase { is_phrase row.PRINTUSING unit.now ≡ true }
    ensures { result.now ≡ items_text unit.now }
{
    let text = rest_after(unit, 1);
    if is_line_at(text) {
        rest_after(rest_after(text, 3), 1)
    } else {
        rest_after(rest_after(text, literal_width(text)), 1)
    }
}

/// The value of the operand of either kind at a text, and what stands after it.
#[tactic(auto, using(crate::proofs::UsingRows::alpha_part, crate::proofs::UsingRows::alpha_value, crate::proofs::UsingRows::alpha_code, crate::proofs::UsingRows::alpha_rest, crate::proofs::UsingRows::number_part, crate::proofs::UsingRows::number_value, crate::proofs::UsingRows::number_code, crate::proofs::UsingRows::number_rest))]
fn any_value<'a>(e: &Env<'_>, text: &'a [u8]) -> Result<(Value, &'a [u8]), Code>
    requires phrase { is_phrase row.OPERAND_OF_ANY_KIND text.now ≡ true }
    ensures { MatchResult result (λ p. (spec.any_value (in_statement (surroundings e.now)) (tree_at row.OPERAND_OF_ANY_KIND text.now) ≡ Ok p.0) × (p.1.now ≡ past_operand text.now)) (λ code. spec.any_value (in_statement (surroundings e.now)) (tree_at row.OPERAND_OF_ANY_KIND text.now) ≡ Err code) }
{
    let mut c = Cursor::over(text);
    if is_alpha_at(text) {
        let mut bytes = Bytes::new();
        match alpha(&mut c, e, &mut bytes) {
            Ok(()) => Ok((Value::Alpha(bytes), c.rest())),
            Err(code) => Err(code),
        }
    } else {
        match number(&mut c, e) {
            Ok(x) => Ok((Value::Number(x), c.rest())),
            Err(code) => Err(code),
        }
    }
}

/// Adds a value to others.
fn add(values: &mut Vec<Value>, x: Value) -> Result<(), NoMemory>
    ensures { OnOk result (values.new.items ≡ values.old.items ++ (x ∷ [])) }
{
    match values.push(x) {
        Ok(()) => Ok(()),
        Err(_) => Err(NoMemory),
    }
}

/// Adds the values of the operands at a text, and gives what stands after them.
#[tactic(auto, using(crate::proofs::Valued::one_then, crate::proofs::Valued::one_refused, crate::proofs::Valued::next_part, crate::proofs::Valued::next_list, crate::proofs::Valued::next_rest, crate::proofs::Valued::next_end, crate::proofs::Valued::next_shorter, crate::proofs::Valued::next_one, crate::proofs::Valued::next_refused, crate::proofs::Valued::all_valued, crate::proofs::Valued::all_joined))]
fn imaged_values_at<'a>(
    e: &Env<'_>,
    text: &'a [u8],
    values: &mut Vec<Value>,
) -> Result<&'a [u8], Fault>
    requires phrase { is_phrase row.OPERAND_OF_ANY_KIND text.now ≡ true }
    requires list { are_operands (past_operand text.now) ≡ true }
    ensures { MatchResult result (λ rest. (spec.values_joined values.old.items (spec.values_of (in_statement (surroundings e.now)) (operands_at text.now)) ≡ Ok values.new.items) × (is_joined (after_all_listed (operands_tree text.now)) ≡ (first rest.now == byte.semicolon))) (λ f. IsRefused (spec.values_of (in_statement (surroundings e.now)) (operands_at text.now)) f) }
{
    let (x, mut left) = match any_value(e, text) {
        Ok(found) => found,
        Err(code) => return Err(Fault::Code(code)),
    };
    add(values, x)?;
    while is_at(b',', left) {
        let (x, rest) = match any_value(e, rest_after(left, 1)) {
            Ok(found) => found,
            Err(code) => return Err(Fault::Code(code)),
        };
        add(values, x)?;
        left = rest;
    }
    Ok(left)
}

/// What PRINTUSING shows, or its first code.
#[tactic(auto, using(crate::proofs::UsingRows::items_part, crate::proofs::UsingRows::items_list, crate::proofs::UsingRows::image_refused, crate::proofs::UsingRows::values_refused, crate::proofs::UsingRows::using_refused, crate::proofs::UsingRows::using_shown))]
pub fn shown_using(alloc: Global, e: &Env<'_>, unit: &[u8]) -> Result<ByteList, Fault>
    requires phrase { is_phrase row.PRINTUSING unit.now ≡ true }
    ensures { MatchResult result (λ bytes. spec.prints_using (in_statement (surroundings e.now)) (tree_at row.PRINTUSING unit.now) ≡ Ok bytes) (λ f. IsRefused (spec.prints_using (in_statement (surroundings e.now)) (tree_at row.PRINTUSING unit.now)) f) }
{
    let image = match image_of(e.home, unit) {
        Ok(image) => image,
        Err(code) => return Err(Fault::Code(code)),
    };
    let mut values = Vec::new(alloc);
    let rest = match imaged_values_at(e, items_of(unit), &mut values) {
        Ok(rest) => rest,
        Err(fault) => return Err(fault),
    };
    let mut out = Vec::new(alloc);
    match using(alloc, image, &values, is_at(b';', rest), &mut out) {
        Ok(()) => Ok(ByteList::new(out)),
        Err(fault) => Err(fault),
    }
}
