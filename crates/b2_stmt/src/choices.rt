// ON: a line of a list, by a number.
ghost use Rattle.std.specs.Prelude.{◌≡◌, true, drop, slice_get};
ghost use Rattle.b2_atom.specs.declared.forms.Leaf.TheVariants as leaf;
ghost use Rattle.b2_atom.specs.declared.rows.TheConstants as row;
ghost use Rattle.b2_rows.specs.Leaves.{is_leaf};
ghost use Rattle.b2_rows.specs.Rows.{is_phrase, tree_at, is_list};
ghost use Rattle.b2_expr.specs.Functions.{fixed};
ghost use Rattle.b2_expr.specs.Scope.{surroundings};
ghost use Rattle.b2_expr.specs.Value.{in_statement};
ghost use Rattle.b2_stmt.specs.Choices as spec;
ghost use Rattle.b2_stmt.specs.Lines.{lines_at};
ghost use Rattle.b2_rows.specs.CommaLists.{commas};

use b2_atom::Cursor;
use b2_atom::words::GOTO;
use b2_base::Code;
use b2_base::lexical::rest_after;
use b2_dec::{Dec, fix, whole};
use b2_expr::{Env, number, past_sum};
use b2_rows::{is_at, line_at};

/// The k-th line of a list, counted from 0, None where it has no such line.
#[tactic(auto, using(crate::proofs::ChoiceRows::other_here, crate::proofs::ChoiceRows::other_list, crate::proofs::ChoiceRows::on_line, crate::proofs::ChoiceRows::none_line, crate::proofs::ChoiceRows::here_line))]
fn nth_line(text: &[u8], k: usize) -> Option<u16>
    requires first { is_leaf leaf.LineNumber text.now ≡ true }
    requires list { is_list commas row.COMMA_LINE (drop 3 text.now) ≡ true }
    ensures { result ≡ slice_get (lines_at text.now) k }
{
    let mut left = text;
    for _ in 0..k {
        let after = rest_after(left, 3);
        if !is_at(b',', after) {
            return None;
        }
        left = rest_after(after, 1);
    }
    Some(line_at(left))
}

/// The line that a number without its fraction counts, from 1 on.
fn counted_line(text: &[u8], n: Option<i64>) -> Option<u16>
    requires first { is_leaf leaf.LineNumber text.now ≡ true }
    requires list { is_list commas row.COMMA_LINE (drop 3 text.now) ≡ true }
    ensures { result ≡ spec.counted_line n (lines_at text.now) }
{
    match n {
        Some(n) if n >= 1 => nth_line(text, (n - 1) as usize),
        _ => None,
    }
}

/// The line that a number counts of those after a word.
fn line_after_word(listed: &[u8], x: Dec) -> Option<u16>
    requires first { is_leaf leaf.LineNumber (drop 1 listed.now) ≡ true }
    requires list { is_list commas row.COMMA_LINE (drop 3 (drop 1 listed.now)) ≡ true }
    ensures { result ≡ spec.counted_line (fixed x) (lines_at (drop 1 listed.now)) }
{
    counted_line(rest_after(listed, 1), whole(fix(x)))
}

/// Whether ON calls the line that it chooses.
#[tactic(auto, using(crate::proofs::ChoiceRows::on_sum, crate::proofs::ChoiceRows::on_calls))]
pub fn calls_a_line(unit: &[u8]) -> bool
    requires phrase { is_phrase row.ON unit.now ≡ true }
    ensures { result ≡ spec.calls_a_line (tree_at row.ON unit.now) }
{
    !is_at(GOTO, past_sum(rest_after(unit, 1)))
}

/// Whether ON goes there or calls, and the line that is chosen; or the code of its number.
#[tactic(auto, using(crate::proofs::ChoiceRows::on_sum, crate::proofs::ChoiceRows::on_first, crate::proofs::ChoiceRows::on_list, crate::proofs::ChoiceRows::on_is))]
pub fn choice_at(e: &Env<'_>, unit: &[u8]) -> Result<(bool, Option<u16>), Code>
    requires phrase { is_phrase row.ON unit.now ≡ true }
    ensures { result ≡ spec.choice_in (in_statement (surroundings e.now)) (tree_at row.ON unit.now) }
{
    let mut c = Cursor::over(rest_after(unit, 1));
    match number(&mut c, e) {
        Ok(x) => {
            let listed = c.rest();
            Ok((is_at(GOTO, listed), line_after_word(listed, x)))
        }
        Err(code) => Err(code),
    }
}
