// The truth of conditions, along their bytes.
ghost use Rattle.std.specs.Prelude.{◌≡◌, nat_le, true, false};
ghost use Rattle.b2_atom.specs.declared.rows.TheConstants as row;
ghost use Rattle.b2_rows.specs.Rows.{is_phrase, tree_at, after_phrase};
ghost use Rattle.b2_expr.specs.Condition.{compared_text, compared_numbers, compared, truth};
ghost use Rattle.b2_expr.specs.Reads.{Judges};
ghost use Rattle.b2_expr.specs.Scope.{surroundings};
ghost use Rattle.b2_expr.specs.Value.{in_statement};

use crate::evaluate::alpha;
use crate::evaluated::{Judged, after_sum, last_bytes};
use crate::operators::joined_condition;
use crate::plain::plain_text;
use crate::scope::Env;
use crate::value::{in_statement, sum_here};
use b2_alpha::compare;
use b2_atom::relation_width;
use b2_base::lexical::{first, rest_after};
use b2_dec::{Bytes, cmp};
use b2_rows::{Chain, goes_on, is_alpha_at, relation_at};

/// A condition: comparisons joined from the left, all of which are evaluated.
#[tactic(auto, using(crate::proofs::Comparisons::truth_first))]
pub fn truth(e: &Env<'_>, text: &[u8]) -> Judged
    requires phrase { is_phrase row.CONDITION text.now ≡ true }
    ensures { Judges (truth (in_statement (surroundings e.now)) (tree_at row.CONDITION text.now)) (after_phrase row.CONDITION text.now) result }
{
    let start = comparison(e, text);
    if start.is_code() {
        return start;
    }
    let mut holds = start.holds();
    let mut left = last_bytes(text, start.left);
    while goes_on(Chain::Condition, left) {
        let word = first(left);
        let item = rest_after(left, 1);
        let other = comparison(e, item);
        if other.is_code() {
            return other;
        }
        holds = joined_condition(word, holds, other.holds());
        left = last_bytes(item, other.left);
    }
    Judged::with(holds, left.len())
}

/// A comparison of two alpha expressions or of two numeric ones.
#[tactic(auto, using(crate::proofs::Comparisons::alpha_here, crate::proofs::Comparisons::alpha_gives, crate::proofs::Comparisons::alpha_left, crate::proofs::Comparisons::numeric_here, crate::proofs::Comparisons::numeric_gives, crate::proofs::Comparisons::numeric_left, crate::proofs::Judging::judges_same))]
fn comparison(e: &Env<'_>, text: &[u8]) -> Judged
    requires phrase { is_phrase row.COMPARISON text.now ≡ true }
    ensures { Judges (compared (in_statement (surroundings e.now)) (tree_at row.COMPARISON text.now)) (after_phrase row.COMPARISON text.now) result }
{
    if is_alpha_at(text) {
        alpha_comparison(e, text)
    } else {
        numeric_comparison(e, text)
    }
}

/// A comparison of two alpha expressions by their bytes: where they lie, if both are plain.
#[inline(always)]
fn alpha_comparison(e: &Env<'_>, text: &[u8]) -> Judged
    requires phrase { is_phrase row.ALPHA_COMPARISON text.now ≡ true }
    ensures { Judges (compared_text (in_statement (surroundings e.now)) (tree_at row.ALPHA_COMPARISON text.now)) (after_phrase row.ALPHA_COMPARISON text.now) result }
{
    let found = plain_comparison(e, text);
    if found.is_code() {
        return copied_comparison(e, text);
    }
    found
}

/// A comparison of two plain alpha expressions. A code says that one of them isn't plain.
#[tactic(auto, using(crate::proofs::Comparisons::texts_first, crate::proofs::Comparisons::texts_sign, crate::proofs::Comparisons::texts_second))]
#[inline(always)]
fn plain_comparison(e: &Env<'_>, text: &[u8]) -> Judged
    requires phrase { is_phrase row.ALPHA_COMPARISON text.now ≡ true }
    ensures { nat_le 2 result.word ≡ false → Judges (compared_text (in_statement (surroundings e.now)) (tree_at row.ALPHA_COMPARISON text.now)) (after_phrase row.ALPHA_COMPARISON text.now) result }
{
    let Some((left, sign)) = plain_text(e.own, text) else {
        return Judged::not_plain();
    };
    let Some((right, rest)) = plain_text(e.own, rest_after(sign, relation_width(sign))) else {
        return Judged::not_plain();
    };
    let order = compare(left, right);
    Judged::with(relation_at(sign).holds(order), rest.len())
}

/// A comparison of two alpha expressions by copies of their bytes.
#[tactic(auto, using(crate::proofs::Comparisons::texts_first, crate::proofs::Comparisons::texts_sign, crate::proofs::Comparisons::texts_second, crate::proofs::Comparisons::texts_is, crate::proofs::Comparisons::texts_rest))]
fn copied_comparison(e: &Env<'_>, text: &[u8]) -> Judged
    requires phrase { is_phrase row.ALPHA_COMPARISON text.now ≡ true }
    ensures { Judges (compared_text (in_statement (surroundings e.now)) (tree_at row.ALPHA_COMPARISON text.now)) (after_phrase row.ALPHA_COMPARISON text.now) result }
{
    let s = in_statement(e);
    let mut left = Bytes::new();
    let sign = match alpha(&s, text, &mut left) {
        Ok(rest) => rest,
        Err(code) => return Judged::coded(code),
    };
    let width = relation_width(sign);
    let mut right = Bytes::new();
    match alpha(&s, rest_after(sign, width), &mut right) {
        Ok(rest) => {
            let order = compare(left.bytes(), right.bytes());
            Judged::with(relation_at(sign).holds(order), rest.len())
        }
        Err(code) => Judged::coded(code),
    }
}

/// A comparison of two numeric expressions.
#[tactic(auto, using(crate::proofs::Comparisons::numbers_first, crate::proofs::Comparisons::numbers_sign, crate::proofs::Comparisons::numbers_second, crate::proofs::Judging::first_coded, crate::proofs::Judging::second_coded, crate::proofs::Judging::numbers_judged))]
#[inline(always)]
fn numeric_comparison(e: &Env<'_>, text: &[u8]) -> Judged
    requires phrase { is_phrase row.NUMERIC_COMPARISON text.now ≡ true }
    ensures { Judges (compared_numbers (in_statement (surroundings e.now)) (tree_at row.NUMERIC_COMPARISON text.now)) (after_phrase row.NUMERIC_COMPARISON text.now) result }
{
    let left = sum_here(e, text);
    if left.number.is_code() {
        return Judged::coded(left.number.get_code());
    }
    let sign = after_sum(text, left.left);
    let other = rest_after(sign, relation_width(sign));
    let right = sum_here(e, other);
    if right.number.is_code() {
        return Judged::coded(right.number.get_code());
    }
    let order = cmp(left.number.get(), right.number.get());
    Judged::with(relation_at(sign).holds(order), right.left)
}
