// DATA: its literals, and the literals of a text one after another.
ghost use Rattle.std.specs.Prelude.{◌≡◌, true, IfSome, option_map, slice_get};
ghost use Rattle.b2_atom.specs.declared.rows.TheConstants as row;
ghost use Rattle.b2_rows.specs.Laws.{IsRow};
ghost use Rattle.b2_rows.specs.Rows.{after_phrase, is_list, is_phrase, tree_at};
ghost use Rattle.b2_stmt_var.specs.Data as spec;
ghost use Rattle.b2_stmt_var.specs.Data.{data_at};
ghost use Rattle.b2_rows.specs.CommaLists.{commas};
ghost use Rattle.b2_expr.specs.Value.{literal_value};

use b2_access::statement_on;
use b2_atom::{Origin, literal_width, rows, signed_number_width};
use b2_base::Code;
use b2_base::codes::S17_NUMERIC;
use b2_base::lexical::{first_bytes, rest_after};
use b2_dec::{Bytes, Dec, Value};
use b2_dectext::literal;
use b2_rows::{RowUnit, is_at, quoted_at};
use b2_text::{Spot, Text};

/// A literal of DATA.
#[derive(Drop)]
pub struct Literal {
    /// Its value, or C60 or C61 where its number is out of range.
    pub value: Result<Value, Code>,
    /// Where READ goes on after it: its unit, and how many literals of that were read.
    pub after: (Spot, u8),
}

/// The number that bytes spell: C60 or C61 where it is out of range.
#[inline(always)]
fn number_spelled(bytes: &[u8]) -> Result<Dec, Code>
    ensures { result ≡ literal_value bytes.now }
{
    match literal(bytes) {
        Some((_, number)) => number,
        None => Err(Code::known(S17_NUMERIC)),
    }
}

/// The bytes of the literal at a text.
#[tactic(auto, using(crate::proofs::DataRows::literal_here, crate::proofs::DataRows::literal_short))]
#[inline(always)]
fn quoted_bytes(text: &[u8]) -> Bytes
    requires phrase { is_phrase row.LITERAL text.now ≡ true }
    ensures { result ≡ spec.literal_bytes_at text.now }
{
    match Bytes::of(quoted_at(text)) {
        Some(bytes) => bytes,
        None => unreachable!(),
    }
}

/// The value of the literal at a text.
#[tactic(auto, using(crate::proofs::DataRows::quoted_here, crate::proofs::DataRows::quoted_is, crate::proofs::DataRows::number_is))]
#[inline(always)]
fn datum(text: &[u8]) -> Result<Value, Code>
    requires phrase { is_phrase row.DATUM text.now ≡ true }
    ensures { result ≡ spec.datum_value (tree_at row.DATUM text.now) }
{
    if is_at(b'"', text) {
        return Ok(Value::Alpha(quoted_bytes(text)));
    }
    match number_spelled(first_bytes(text, signed_number_width(Origin::Atoms, text))) {
        Ok(number) => Ok(Value::Number(number)),
        Err(code) => Err(code),
    }
}

/// What stands after the literal at a text.
#[tactic(auto, using(crate::proofs::DataRows::quoted_rest, crate::proofs::DataRows::number_rest))]
fn past_datum(text: &[u8]) -> &[u8]
    requires phrase { is_phrase row.DATUM text.now ≡ true }
    ensures { result.now ≡ after_phrase row.DATUM text.now }
{
    if is_at(b'"', text) {
        rest_after(text, literal_width(text))
    } else {
        rest_after(text, signed_number_width(Origin::Atoms, text))
    }
}

/// The text of the k-th literal of those at a text, counted from 0, None where there are at most k.
#[tactic(auto, using(crate::proofs::DataRows::other_part, crate::proofs::DataRows::other_list, crate::proofs::DataRows::on_datum, crate::proofs::DataRows::no_datum, crate::proofs::DataRows::here_datum))]
#[inline(always)]
fn nth_datum(text: &[u8], k: usize) -> Option<&[u8]>
    requires first { is_phrase row.DATUM text.now ≡ true }
    requires list { is_list commas row.COMMA_DATUM (after_phrase row.DATUM text.now) ≡ true }
    ensures tree { option_map (λ t. tree_at row.DATUM t.now) result ≡ slice_get (data_at text.now) k }
    ensures part { IfSome result (λ t. is_phrase row.DATUM t.now ≡ true) }
{
    let mut left = text;
    for _ in 0..k {
        let after = past_datum(left);
        if !is_at(b',', after) {
            return None;
        }
        left = rest_after(after, 1);
    }
    Some(left)
}

/// The value of the k-th literal of a DATA.
#[tactic(auto, using(crate::proofs::DataRows::data_first, crate::proofs::DataRows::data_list, crate::proofs::DataRows::data_is))]
#[inline(always)]
fn nth_value(unit: &[u8], k: usize) -> Option<Result<Value, Code>>
    requires phrase { is_phrase row.DATA unit.now ≡ true }
    ensures { result ≡ option_map spec.datum_value (slice_get (spec.literals_listed (tree_at row.DATA unit.now)) k) }
{
    match nth_datum(rest_after(unit, 1), k) {
        Some(text) => Some(datum(text)),
        None => None,
    }
}

/// The value of the k-th literal of a unit, where it is a DATA.
#[inline(always)]
fn data_value_in(unit: &RowUnit<'_>, k: usize) -> Option<Result<Value, Code>>
    requires read { IsRow unit.now.row unit.now.bytes.now (tree_at unit.now.row unit.now.bytes.now) }
    ensures { result ≡ option_map spec.datum_value (slice_get (spec.literals_of unit.now.row (tree_at unit.now.row unit.now.bytes.now)) k) }
{
    match unit.row {
        rows::DATA => nth_value(unit.bytes, k),
        _ => None,
    }
}

/// The k-th literal of the unit at a spot of a text, counted from 0, where that is a DATA.
#[inline(always)]
fn literal_of(own: &Text, spot: Spot, k: u8) -> Option<Literal>
    ensures { result ≡ spec.literal_at own.now.lines spot k }
{
    let Some(line) = own.line(spot.line) else {
        return None;
    };
    let Some(unit) = statement_on(&line.lend(), usize::from(spot.unit)) else {
        return None;
    };
    match data_value_in(&unit, usize::from(k)) {
        Some(value) => Some(Literal {
            value,
            after: (spot, k.saturating_add(1)),
        }),
        None => None,
    }
}

/// The first literal of the first DATA at or after a spot.
#[inline(always)]
fn first_literal(own: &Text, from: Spot) -> Option<Literal>
    ensures { result ≡ spec.first_literal own.now.lines from }
{
    match own.data_at(from) {
        Some(spot) => literal_of(own, spot, 0),
        None => None,
    }
}

/// The spot after a unit, whether such a unit is there or not.
fn unit_after(spot: Spot) -> Spot
    ensures { result ≡ spec.unit_after spot }
{
    Spot {
        line: spot.line,
        unit: spot.unit.saturating_add(1),
    }
}

/// The literal at which READ goes on, None where the text has no further one.
pub fn next_literal(own: &Text, next: Option<(Spot, u8)>) -> Option<Literal>
    ensures { result ≡ spec.next_literal own.now.lines next }
{
    let Some((spot, count)) = next else {
        return first_literal(own, Spot { line: 0, unit: 0 });
    };
    match literal_of(own, spot, count) {
        Some(literal) => Some(literal),
        None => first_literal(own, unit_after(spot)),
    }
}
