// The arguments of GOSUB'.
ghost use Rattle.std.specs.Prelude.{◌≡◌, true, MatchResult, Ok, Err};
ghost use Rattle.b2_atom.specs.declared.rows.TheConstants as row;
ghost use Rattle.b2_rows.specs.Rows.{after_phrase, is_list, is_phrase, tree_at};
ghost use Rattle.b2_expr.specs.Scope.{surroundings};
ghost use Rattle.b2_expr.specs.Value.{in_statement};
ghost use Rattle.b2_stmt.specs.Arguments as spec;
ghost use Rattle.b2_stmt.specs.Arguments.{GivesValues, PutsArgument, arguments_at};
ghost use Rattle.b2_rows.specs.CommaLists.{commas};

use b2_atom::Cursor;
use b2_base::lexical::{digits_width, rest_after};
use b2_base::{Code, Fault};
use b2_dec::{Bytes, Value, ValueList};
use b2_expr::{Env, alpha, number};
use b2_rows::{is_alpha_at, is_at};
use std::alloc::Global;

/// How many values there is room for before more memory is taken.
const FEW: usize = 3;

/// Puts the bytes of the argument at a text after other values, and gives what stands after it.
fn put_argument_bytes<'a>(
    e: &Env<'_>,
    text: &'a [u8],
    into: &mut Vec<Value>,
) -> Result<&'a [u8], Fault>
    requires phrase { is_phrase row.ALPHA text.now ≡ true }
    ensures { PutsArgument (spec.alpha_argument (in_statement (surroundings e.now)) (tree_at row.ALPHA text.now)) (after_phrase row.ALPHA text.now) into.old.items into.new.items result }
{
    let mut c = Cursor::over(text);
    let mut bytes = Bytes::new();
    match alpha(&mut c, e, &mut bytes) {
        Ok(()) => match into.push(Value::Alpha(bytes)) {
            Ok(()) => Ok(c.rest()),
            Err(_) => Err(Fault::NoMemory),
        },
        Err(code) => Err(Fault::Code(code)),
    }
}

/// Puts the number of the argument at a text after other values, and gives what stands after it.
fn put_argument_number<'a>(
    e: &Env<'_>,
    text: &'a [u8],
    into: &mut Vec<Value>,
) -> Result<&'a [u8], Fault>
    requires phrase { is_phrase row.SUM text.now ≡ true }
    ensures { PutsArgument (spec.number_argument (in_statement (surroundings e.now)) (tree_at row.SUM text.now)) (after_phrase row.SUM text.now) into.old.items into.new.items result }
{
    let mut c = Cursor::over(text);
    match number(&mut c, e) {
        Ok(x) => {
            if into.len() < into.capacity() {
                into.push_reserved(Value::Number(x));
                return Ok(c.rest());
            }
            match into.push(Value::Number(x)) {
                Ok(()) => Ok(c.rest()),
                Err(_) => Err(Fault::NoMemory),
            }
        }
        Err(code) => Err(Fault::Code(code)),
    }
}

/// Puts the value of the argument at a text after others, and gives what stands after it.
#[tactic(auto, using(crate::proofs::ArgumentRows::alpha_here, crate::proofs::ArgumentRows::alpha_is, crate::proofs::ArgumentRows::alpha_rest, crate::proofs::ArgumentRows::number_here, crate::proofs::ArgumentRows::number_is, crate::proofs::ArgumentRows::number_rest))]
fn put_argument<'a>(e: &Env<'_>, text: &'a [u8], into: &mut Vec<Value>) -> Result<&'a [u8], Fault>
    requires phrase { is_phrase row.OPERAND_OF_ANY_KIND text.now ≡ true }
    ensures { PutsArgument (spec.argument (in_statement (surroundings e.now)) (tree_at row.OPERAND_OF_ANY_KIND text.now)) (after_phrase row.OPERAND_OF_ANY_KIND text.now) into.old.items into.new.items result }
{
    if is_alpha_at(text) {
        put_argument_bytes(e, text, into)
    } else {
        put_argument_number(e, text, into)
    }
}

/// The values of the arguments at a text, from left to right, or the first code.
#[tactic(auto, using(crate::proofs::ArgumentRows::other_part, crate::proofs::ArgumentRows::other_list, crate::proofs::ArgumentRows::operand_shorter, crate::proofs::ArgumentRows::one_put, crate::proofs::ArgumentRows::last_put, crate::proofs::ArgumentRows::refused))]
fn arguments(alloc: Global, e: &Env<'_>, text: &[u8]) -> Result<ValueList, Fault>
    requires phrase { is_phrase row.OPERAND_OF_ANY_KIND text.now ≡ true }
    requires list { is_list commas row.COMMA_OPERAND (after_phrase row.OPERAND_OF_ANY_KIND text.now) ≡ true }
    ensures { GivesValues (spec.arguments (in_statement (surroundings e.now)) (arguments_at text.now)) result }
{
    let mut values = match Vec::with_capacity(alloc, FEW) {
        Ok(values) => values,
        Err(_) => return Err(Fault::NoMemory),
    };
    let mut left = text;
    loop {
        let rest = match put_argument(e, left, &mut values) {
            Ok(rest) => rest,
            Err(fault) => return Err(fault),
        };
        if !is_at(b',', rest) {
            return Ok(ValueList::new(values));
        }
        left = rest_after(rest, 1);
    }
}

/// What stands after the number of a GOSUB' or a DEFFN'.
pub fn past_number(unit: &[u8]) -> &[u8]
    ensures { result.now ≡ spec.past_number unit.now }
{
    let number = rest_after(unit, 1);
    rest_after(number, digits_width(number))
}

/// The values of the arguments of GOSUB', of which there may be none.
#[tactic(auto, using(crate::proofs::ArgumentRows::call_first, crate::proofs::ArgumentRows::call_list, crate::proofs::ArgumentRows::call_is, crate::proofs::ArgumentRows::call_without))]
pub fn arguments_of(alloc: Global, e: &Env<'_>, unit: &[u8]) -> Result<ValueList, Fault>
    requires phrase { is_phrase row.GOSUB_MARKED unit.now ≡ true }
    ensures { GivesValues (spec.arguments (in_statement (surroundings e.now)) (spec.operands_of (tree_at row.GOSUB_MARKED unit.now))) result }
{
    let text = past_number(unit);
    if is_at(b'(', text) {
        arguments(alloc, e, rest_after(text, 1))
    } else {
        Ok(ValueList::new(Vec::new(alloc)))
    }
}
