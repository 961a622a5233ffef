// The values of the expressions at a cursor.
ghost use Rattle.std.specs.Prelude.{◌≡◌, true, false, is_err, MatchResult, [], None, Ok, Err};
ghost use Rattle.b2_atom.specs.declared.rows.TheConstants as row;
ghost use Rattle.b2_rows.specs.Rows.{is_phrase, tree_at, after_phrase};
ghost use Rattle.b2_expr.specs.Condition.{truth};
ghost use Rattle.b2_expr.specs.Value.{context, in_statement, text, value};
ghost use Rattle.b2_expr.specs.Value as meaning;
ghost use Rattle.b2_expr.specs.Reads.{Finds, Judges};
ghost use Rattle.b2_expr.specs.Scope.{Surroundings, surroundings};
ghost use Rattle.b2_expr.specs.declared.operators.Level.TheVariants as level_of;

use crate::conditions::truth;
use crate::evaluate::{alpha as text_at, sum};
use crate::evaluated::{Evaluated, Judged, after_condition, after_sum};
use crate::plain::plain_sum;
use crate::scope::{Env, Scope};
use b2_atom::Cursor;
use b2_base::Code;
use b2_dec::{Bytes, Dec, Mode, NumberOrCode};
use b2_vars::Vars;

/// How many calls of functions may be open.
const CALLS: u8 = 16;

/// Where an expression of a statement stands.
pub fn in_statement<'a>(env: &'a Env<'a>) -> Scope<'a>
    ensures { context result ≡ in_statement (surroundings env.now) }
{
    Scope {
        env,
        parameter: None,
        room: CALLS,
    }
}

/// The value of the numeric expression at a text: at once where it is plain.
#[inline(always)]
pub fn sum_here(e: &Env<'_>, text: &[u8]) -> Evaluated
    requires phrase { is_phrase row.SUM text.now ≡ true }
    ensures { Finds (value (in_statement (surroundings e.now)) level_of.Sum (tree_at row.SUM text.now)) (after_phrase row.SUM text.now) result }
{
    let found = plain_sum(e.own, e.mode, text);
    if found.number.is_code() {
        return sum(&in_statement(e), text);
    }
    found
}

/// The value of the numeric expression at a cursor, which then stands after it, or the first code from the left, and then
/// the cursor is as before.
#[inline(always)]
pub fn number(c: &mut Cursor<'_>, e: &Env<'_>) -> Result<Dec, Code>
    requires phrase { is_phrase row.SUM c.old ≡ true }
    ensures { MatchResult result (λ x. (value (in_statement (surroundings e.now)) level_of.Sum (tree_at row.SUM c.old) ≡ Ok x) × (c.new ≡ after_phrase row.SUM c.old)) (λ code. (value (in_statement (surroundings e.now)) level_of.Sum (tree_at row.SUM c.old) ≡ Err code) × (c.new ≡ c.old)) }
{
    let found = sum_here(e, c.rest());
    if found.number.is_code() {
        return Err(found.number.get_code());
    }
    *c = Cursor::over(after_sum(c.rest(), found.left));
    Ok(found.number.get())
}

/// The value of the numeric expression at a text, or the first code from the left, in one word.
#[inline(always)]
pub fn number_or_code(text: &[u8], e: &Env<'_>) -> NumberOrCode
    requires phrase { is_phrase row.SUM text.now ≡ true }
    ensures { result ≡ value (in_statement (surroundings e.now)) level_of.Sum (tree_at row.SUM text.now) }
{
    let found = sum(&in_statement(e), text);
    found.number
}

/// The value of a plain numeric expression at a text: of one scalar or number that is written out, or of two that an
/// operator joins. A code says that the expression is another, or comes to a code.
#[inline(always)]
pub fn plain_number(text: &[u8], own: &Vars, mode: Mode) -> NumberOrCode
    requires phrase { is_phrase row.SUM text.now ≡ true }
    ensures { is_err result ≡ false → (e : Surroundings) → e.own ≡ own.now → e.mode ≡ mode → value (in_statement e) level_of.Sum (tree_at row.SUM text.now) ≡ result }
{
    let found = plain_sum(own, mode, text);
    found.number
}

/// Puts the bytes of the alpha expression at a text where there are none, and gives what stands after it; or the first code from the
/// left, and then there are none, as before.
pub fn alpha_at<'a>(s: &Scope<'_>, text: &'a [u8], into: &mut Bytes) -> Result<&'a [u8], Code>
    requires phrase { is_phrase row.ALPHA text.now ≡ true }
    requires empty { into.old ≡ [] }
    ensures { MatchResult result (λ left. (meaning.text (context s.now) (tree_at row.ALPHA text.now) ≡ Ok into.new) × (left.now ≡ after_phrase row.ALPHA text.now)) (λ code. (meaning.text (context s.now) (tree_at row.ALPHA text.now) ≡ Err code) × (into.new ≡ into.old)) }
{
    match text_at(s, text, into) {
        Ok(rest) => Ok(rest),
        Err(code) => {
            into.clear();
            Err(code)
        }
    }
}

/// Puts the bytes of the alpha expression at a cursor in the place of what was there, and the cursor then stands after it;
/// or the first code from the left, and then all is as before.
pub fn alpha(c: &mut Cursor<'_>, e: &Env<'_>, into: &mut Bytes) -> Result<(), Code>
    requires phrase { is_phrase row.ALPHA c.old ≡ true }
    ensures { MatchResult result (λ done. (text (in_statement (surroundings e.now)) (tree_at row.ALPHA c.old) ≡ Ok into.new) × (c.new ≡ after_phrase row.ALPHA c.old)) (λ code. (text (in_statement (surroundings e.now)) (tree_at row.ALPHA c.old) ≡ Err code) × (into.new ≡ into.old) × (c.new ≡ c.old)) }
{
    let mut value = Bytes::new();
    let rest = match alpha_at(&in_statement(e), c.rest(), &mut value) {
        Ok(rest) => rest,
        Err(code) => return Err(code),
    };
    *c = Cursor::over(rest);
    *into = value;
    Ok(())
}

/// Whether the condition at a text holds, or the first code from the left, and how many bytes are left after it.
#[inline(always)]
pub fn condition_at(text: &[u8], e: &Env<'_>) -> Judged
    requires phrase { is_phrase row.CONDITION text.now ≡ true }
    ensures { Judges (truth (in_statement (surroundings e.now)) (tree_at row.CONDITION text.now)) (after_phrase row.CONDITION text.now) result }
{
    truth(e, text)
}

/// Whether the condition at a cursor holds; the cursor then stands after it. Or the first code from the left, and then the
/// cursor is as before.
#[inline(always)]
pub fn condition(c: &mut Cursor<'_>, e: &Env<'_>) -> Result<bool, Code>
    requires phrase { is_phrase row.CONDITION c.old ≡ true }
    ensures { MatchResult result (λ holds. (truth (in_statement (surroundings e.now)) (tree_at row.CONDITION c.old) ≡ Ok holds) × (c.new ≡ after_phrase row.CONDITION c.old)) (λ code. (truth (in_statement (surroundings e.now)) (tree_at row.CONDITION c.old) ≡ Err code) × (c.new ≡ c.old)) }
{
    let found = truth(e, c.rest());
    if found.is_code() {
        return Err(found.get_code());
    }
    *c = Cursor::over(after_condition(c.rest(), found.left));
    Ok(found.holds())
}
