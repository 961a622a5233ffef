// Lists with commas between their items: values, and receivers that take them.
ghost use Rattle.std.specs.Prelude.{◌≡◌, true, length, map, IfOk, IfErr, Ok};
ghost use Rattle.b2_atom.specs.declared.rows.TheConstants as row;
ghost use Rattle.b2_base.specs.Refusals.{IsRefused};
ghost use Rattle.b2_rows.specs.CommaLists.{commas};
ghost use Rattle.b2_rows.specs.Rows.{after_phrase, is_list, is_phrase, tree_at};
ghost use Rattle.b2_expr.specs.Scope.{surroundings};
ghost use Rattle.b2_expr.specs.Value.{in_statement};
ghost use Rattle.b2_expr.specs.Workspace.{SameReferences, workspace};
ghost use Rattle.b2_receiver.specs.Receivers.{IsNamed};
ghost use Rattle.b2_stmt_pack.specs.Lists as spec;
ghost use Rattle.b2_stmt_pack.specs.Lists.{PutsOne, each_of, each_takes, items_at, takes_number, takes_value};

use b2_atom::Cursor;
use b2_base::lexical::rest_after;
use b2_base::{Code, Fault, NoMemory};
use b2_dec::{Bytes, Dec, Kind, Value};
use b2_expr::{Env, Workspace, alpha, number, suits, surroundings_of};
use b2_receiver::{
    Receiver, any_receiver, assign_number_at, give_value, past_any_receiver, past_number_receiver,
};
use b2_rows::{is_alpha_at, is_at};
use std::alloc::Global;

/// Puts the number of the expression at a text after others, and gives what stands after it.
fn put_packed_number<'a>(
    e: &Env<'_>,
    text: &'a [u8],
    into: &mut Vec<Dec>,
) -> Result<&'a [u8], Fault>
    requires phrase { is_phrase row.SUM text.now ≡ true }
    ensures { PutsOne (spec.number_of (in_statement (surroundings e.now)) (tree_at row.SUM text.now)) (after_phrase row.SUM text.now) into.old.items into.new.items result }
{
    let mut c = Cursor::over(text);
    match number(&mut c, e) {
        Ok(x) => match into.push(x) {
            Ok(()) => Ok(c.rest()),
            Err(_) => Err(Fault::NoMemory),
        },
        Err(code) => Err(Fault::Code(code)),
    }
}

/// The numbers of the expressions at a text, from left to right, or the first code.
#[tactic(auto, using(crate::proofs::ListRows::number_part, crate::proofs::ListRows::number_list, crate::proofs::ListRows::number_shorter, crate::proofs::ListRows::number_put, crate::proofs::ListRows::number_last, crate::proofs::ListRows::number_refused))]
pub fn numbers_at(alloc: Global, e: &Env<'_>, text: &[u8]) -> Result<Vec<Dec>, Fault>
    requires phrase { is_phrase row.SUM text.now ≡ true }
    requires list { is_list commas row.COMMA_NUMBER (after_phrase row.SUM text.now) ≡ true }
    ensures numbers { IfOk result (λ xs. each_of (spec.number_of (in_statement (surroundings e.now))) (items_at row.COMMA_NUMBER row.SUM text.now) ≡ Ok xs.items) }
    ensures refused { IfErr result (IsRefused (each_of (spec.number_of (in_statement (surroundings e.now))) (items_at row.COMMA_NUMBER row.SUM text.now))) }
{
    let mut numbers = Vec::new(alloc);
    let mut left = text;
    loop {
        let rest = match put_packed_number(e, left, &mut numbers) {
            Ok(rest) => rest,
            Err(fault) => return Err(fault),
        };
        if !is_at(b',', rest) {
            return Ok(numbers);
        }
        left = rest_after(rest, 1);
    }
}

/// Puts the bytes of the expression at a text after other values, and gives what stands after it.
fn put_packed_bytes<'a>(
    e: &Env<'_>,
    text: &'a [u8],
    into: &mut Vec<Value>,
) -> Result<&'a [u8], Fault>
    requires phrase { is_phrase row.ALPHA text.now ≡ true }
    ensures { PutsOne (spec.bytes_value (in_statement (surroundings e.now)) (tree_at row.ALPHA text.now)) (after_phrase row.ALPHA text.now) into.old.items into.new.items result }
{
    let mut c = Cursor::over(text);
    let mut bytes = Bytes::new();
    match alpha(&mut c, e, &mut bytes) {
        Ok(()) => match into.push(Value::Alpha(bytes)) {
            Ok(()) => Ok(c.rest()),
            Err(_) => Err(Fault::NoMemory),
        },
        Err(code) => Err(Fault::Code(code)),
    }
}

/// Puts the number of the expression at a text after other values, and gives what stands after it.
fn put_sum<'a>(e: &Env<'_>, text: &'a [u8], into: &mut Vec<Value>) -> Result<&'a [u8], Fault>
    requires phrase { is_phrase row.SUM text.now ≡ true }
    ensures { PutsOne (spec.number_value (in_statement (surroundings e.now)) (tree_at row.SUM text.now)) (after_phrase row.SUM text.now) into.old.items into.new.items result }
{
    let mut c = Cursor::over(text);
    match number(&mut c, e) {
        Ok(x) => match into.push(Value::Number(x)) {
            Ok(()) => Ok(c.rest()),
            Err(_) => Err(Fault::NoMemory),
        },
        Err(code) => Err(Fault::Code(code)),
    }
}

/// Puts the value of the expression at a text after others, and gives what stands after it.
#[tactic(auto, using(crate::proofs::ValueRows::alpha_here, crate::proofs::ValueRows::alpha_is, crate::proofs::ValueRows::alpha_rest, crate::proofs::ValueRows::number_here, crate::proofs::ValueRows::number_is, crate::proofs::ValueRows::number_rest))]
fn put_packed_value<'a>(
    e: &Env<'_>,
    text: &'a [u8],
    into: &mut Vec<Value>,
) -> Result<&'a [u8], Fault>
    requires phrase { is_phrase row.OPERAND_OF_ANY_KIND text.now ≡ true }
    ensures { PutsOne (spec.value_of (in_statement (surroundings e.now)) (tree_at row.OPERAND_OF_ANY_KIND text.now)) (after_phrase row.OPERAND_OF_ANY_KIND text.now) into.old.items into.new.items result }
{
    if is_alpha_at(text) {
        put_packed_bytes(e, text, into)
    } else {
        put_sum(e, text, into)
    }
}

/// The values of the expressions at a text, from left to right, or the first code.
#[tactic(auto, using(crate::proofs::ListRows::value_part, crate::proofs::ListRows::value_list, crate::proofs::ListRows::value_shorter, crate::proofs::ListRows::value_put, crate::proofs::ListRows::value_last, crate::proofs::ListRows::value_refused))]
pub fn values_at(alloc: Global, e: &Env<'_>, text: &[u8]) -> Result<Vec<Value>, Fault>
    requires phrase { is_phrase row.OPERAND_OF_ANY_KIND text.now ≡ true }
    requires list { is_list commas row.COMMA_OPERAND (after_phrase row.OPERAND_OF_ANY_KIND text.now) ≡ true }
    ensures values { IfOk result (λ xs. each_of (spec.value_of (in_statement (surroundings e.now))) (items_at row.COMMA_OPERAND row.OPERAND_OF_ANY_KIND text.now) ≡ Ok xs.items) }
    ensures refused { IfErr result (IsRefused (each_of (spec.value_of (in_statement (surroundings e.now))) (items_at row.COMMA_OPERAND row.OPERAND_OF_ANY_KIND text.now))) }
{
    let mut values = Vec::new(alloc);
    let mut left = text;
    loop {
        let rest = match put_packed_value(e, left, &mut values) {
            Ok(rest) => rest,
            Err(fault) => return Err(fault),
        };
        if !is_at(b',', rest) {
            return Ok(values);
        }
        left = rest_after(rest, 1);
    }
}

/// How many numeric receivers stand at a text.
#[tactic(auto, using(crate::proofs::ListRows::receiver_part, crate::proofs::ListRows::receiver_list, crate::proofs::ListRows::receiver_items, crate::proofs::ListRows::no_receivers, crate::proofs::ListRows::receiver_shorter, b2_rows::proofs::RowsRead::part_short))]
pub fn count_at(text: &[u8]) -> usize
    requires phrase { is_phrase row.NUMERIC_RECEIVER text.now ≡ true }
    requires list { is_list commas row.COMMA_NUMERIC_RECEIVER (after_phrase row.NUMERIC_RECEIVER text.now) ≡ true }
    ensures { result ≡ length (items_at row.COMMA_NUMERIC_RECEIVER row.NUMERIC_RECEIVER text.now) }
{
    let mut left = text;
    let mut count = 0;
    loop {
        let rest = past_number_receiver(left);
        count += 1;
        if !is_at(b',', rest) {
            return count;
        }
        left = rest_after(rest, 1);
    }
}

/// The kind of the receiver at a text, as it is written.
#[tactic(auto, using(crate::proofs::ValueRows::alpha_kind, crate::proofs::ValueRows::number_kind))]
fn written_kind_at(text: &[u8]) -> Kind
    requires phrase { is_phrase row.RECEIVER text.now ≡ true }
    ensures { result ≡ spec.kind_of (tree_at row.RECEIVER text.now) }
{
    if is_alpha_at(text) {
        Kind::Alpha
    } else {
        Kind::Number
    }
}

/// The kinds of the receivers at a text, from left to right.
#[tactic(auto, using(crate::proofs::ListRows::any_part, crate::proofs::ListRows::any_list, crate::proofs::ListRows::any_shorter, crate::proofs::ListRows::kind_put, crate::proofs::ListRows::kind_last))]
pub fn kinds_at(alloc: Global, text: &[u8]) -> Result<Vec<Kind>, NoMemory>
    requires phrase { is_phrase row.RECEIVER text.now ≡ true }
    requires list { is_list commas row.COMMA_RECEIVER (after_phrase row.RECEIVER text.now) ≡ true }
    ensures { IfOk result (λ kinds. kinds.items ≡ map spec.kind_of (items_at row.COMMA_RECEIVER row.RECEIVER text.now)) }
{
    let mut kinds = Vec::new(alloc);
    let mut left = text;
    loop {
        let kind = written_kind_at(left);
        kinds.push(kind)?;
        let rest = past_any_receiver(left);
        if !is_at(b',', rest) {
            return Ok(kinds);
        }
        left = rest_after(rest, 1);
    }
}

/// Gives numbers to the receivers at a text, one to each, from left to right, up to one with a code.
#[tactic(auto, using(crate::proofs::ListRows::receiver_part, crate::proofs::ListRows::receiver_list, crate::proofs::ListRows::receiver_items, crate::proofs::ListRows::no_receivers, crate::proofs::Taking::one_more, crate::proofs::Taking::one_coded))]
pub fn give_numbers(
    work: &mut Workspace<'_>,
    text: &[u8],
    xs: &[Dec],
) -> Result<Option<Code>, NoMemory>
    requires phrase { is_phrase row.NUMERIC_RECEIVER text.now ≡ true }
    requires list { is_list commas row.COMMA_NUMERIC_RECEIVER (after_phrase row.NUMERIC_RECEIVER text.now) ≡ true }
    ensures worked { IfOk result (λ code. record { work = workspace work.new; code = code } ≡ each_takes takes_number (items_at row.COMMA_NUMERIC_RECEIVER row.NUMERIC_RECEIVER text.now) xs.now (workspace work.old)) }
    ensures same_references { SameReferences work.old work.new }
{
    let mut left = text;
    for x in xs {
        let code = assign_number_at(work, Ok(*x), left)?;
        if code.is_some() {
            return Ok(code);
        }
        let rest = past_number_receiver(left);
        if !is_at(b',', rest) {
            return Ok(None);
        }
        left = rest_after(rest, 1);
    }
    Ok(None)
}

/// Gives a value to a receiver. Nothing changes where they are of two kinds.
#[tactic(auto, using(b2_receiver::proofs::OneKind::one_kind))]
fn give_to(work: &mut Workspace<'_>, to: &Receiver, value: &Value) -> Result<Option<Code>, NoMemory>
    requires named { IsNamed to.now }
    ensures worked { IfOk result (λ code. record { work = workspace work.new; code = code } ≡ spec.value_to (Ok to.now) value.now (workspace work.old)) }
    ensures same_references { SameReferences work.old work.new }
{
    if suits(to.is_alpha(), value) {
        give_value(work, to, value)
    } else {
        Ok(None)
    }
}

/// Gives a value to the receiver at a text, located among the variables as they are.
fn give_value_at(
    work: &mut Workspace<'_>,
    text: &[u8],
    value: &Value,
) -> Result<Option<Code>, NoMemory>
    requires phrase { is_phrase row.RECEIVER text.now ≡ true }
    ensures worked { IfOk result (λ code. record { work = workspace work.new; code = code } ≡ takes_value value.now (tree_at row.RECEIVER text.now) (workspace work.old)) }
    ensures same_references { SameReferences work.old work.new }
{
    match any_receiver(&mut Cursor::over(text), &surroundings_of(work)) {
        Ok(to) => give_to(work, &to, value),
        Err(code) => Ok(Some(code)),
    }
}

/// Gives values to the receivers at a text, one to each, from left to right, up to one with a code.
#[tactic(auto, using(crate::proofs::ListRows::any_part, crate::proofs::ListRows::any_list, crate::proofs::ListRows::any_items, crate::proofs::ListRows::no_any, crate::proofs::Taking::one_more, crate::proofs::Taking::one_coded))]
pub fn give_values(
    work: &mut Workspace<'_>,
    text: &[u8],
    values: &[Value],
) -> Result<Option<Code>, NoMemory>
    requires phrase { is_phrase row.RECEIVER text.now ≡ true }
    requires list { is_list commas row.COMMA_RECEIVER (after_phrase row.RECEIVER text.now) ≡ true }
    ensures worked { IfOk result (λ code. record { work = workspace work.new; code = code } ≡ each_takes takes_value (items_at row.COMMA_RECEIVER row.RECEIVER text.now) values.now (workspace work.old)) }
    ensures same_references { SameReferences work.old work.new }
{
    let mut left = text;
    for value in values {
        let code = give_value_at(work, left, value)?;
        if code.is_some() {
            return Ok(code);
        }
        let rest = past_any_receiver(left);
        if !is_at(b',', rest) {
            return Ok(None);
        }
        left = rest_after(rest, 1);
    }
    Ok(None)
}
