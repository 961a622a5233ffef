// The values of a record that is saved, from left to right.
ghost use Rattle.std.specs.Prelude.{◌≡◌, true};
ghost use Rattle.b2_atom.specs.declared.rows.TheConstants as row;
ghost use Rattle.b2_rows.specs.CommaLists.{all_listed, commas};
ghost use Rattle.b2_rows.specs.Rows.{after_phrase, is_list, is_phrase, tree_at};
ghost use Rattle.b2_expr.specs.Scope.{surroundings};
ghost use Rattle.b2_expr.specs.Value.{in_statement};
ghost use Rattle.b2_stmt_file.specs.SavedValues as spec;
ghost use Rattle.b2_stmt_file.specs.SavedValues.{GivesValues, PutsItem};

use crate::elements::{array_variables, put_elements, put_value};
use b2_atom::Cursor;
use b2_base::Fault;
use b2_base::lexical::rest_after;
use b2_dec::{Bytes, Value, ValueList};
use b2_expr::{Env, alpha, number};
use b2_receiver::whole_array;
use b2_rows::{is_alpha_at, is_array_at, is_at};
use std::alloc::Global;

/// Puts the bytes of the expression at a text after other values, and gives what stands after it.
fn put_saved_bytes<'a>(
    e: &Env<'_>,
    text: &'a [u8],
    into: &mut Vec<Value>,
) -> Result<&'a [u8], Fault>
    requires phrase { is_phrase row.ALPHA text.now ≡ true }
    ensures { PutsItem (spec.alpha_saved (in_statement (surroundings e.now)) (tree_at row.ALPHA text.now)) (after_phrase row.ALPHA text.now) into.old.items into.new.items result }
{
    let mut c = Cursor::over(text);
    let mut bytes = Bytes::new();
    match alpha(&mut c, e, &mut bytes) {
        Ok(()) => match put_value(Value::Alpha(bytes), into) {
            Ok(()) => Ok(c.rest()),
            Err(fault) => Err(fault),
        },
        Err(code) => Err(Fault::Code(code)),
    }
}

/// Puts the number of the expression at a text after other values, and gives what stands after it.
fn put_saved_number<'a>(
    e: &Env<'_>,
    text: &'a [u8],
    into: &mut Vec<Value>,
) -> Result<&'a [u8], Fault>
    requires phrase { is_phrase row.SUM text.now ≡ true }
    ensures { PutsItem (spec.number_saved (in_statement (surroundings e.now)) (tree_at row.SUM text.now)) (after_phrase row.SUM text.now) into.old.items into.new.items result }
{
    let mut c = Cursor::over(text);
    match number(&mut c, e) {
        Ok(x) => match put_value(Value::Number(x), into) {
            Ok(()) => Ok(c.rest()),
            Err(fault) => Err(fault),
        },
        Err(code) => Err(Fault::Code(code)),
    }
}

/// Puts the value of the expression at a text after other values, and gives what stands after it.
#[tactic(auto, using(crate::proofs::SavedItems::alpha_here, crate::proofs::SavedItems::alpha_is, crate::proofs::SavedItems::alpha_rest, crate::proofs::SavedItems::number_here, crate::proofs::SavedItems::number_is, crate::proofs::SavedItems::number_rest))]
fn put_operand<'a>(e: &Env<'_>, text: &'a [u8], into: &mut Vec<Value>) -> Result<&'a [u8], Fault>
    requires phrase { is_phrase row.OPERAND_OF_ANY_KIND text.now ≡ true }
    ensures { PutsItem (spec.operand_saved (in_statement (surroundings e.now)) (tree_at row.OPERAND_OF_ANY_KIND text.now)) (after_phrase row.OPERAND_OF_ANY_KIND text.now) into.old.items into.new.items result }
{
    if is_alpha_at(text) {
        put_saved_bytes(e, text, into)
    } else {
        put_saved_number(e, text, into)
    }
}

/// Puts the elements of the whole array at a text after other values, and gives what stands after it.
fn put_array<'a>(e: &Env<'_>, text: &'a [u8], into: &mut Vec<Value>) -> Result<&'a [u8], Fault>
    requires phrase { is_phrase row.WHOLE_ARRAY text.now ≡ true }
    ensures { PutsItem (spec.array_saved (in_statement (surroundings e.now)) (tree_at row.WHOLE_ARRAY text.now)) (after_phrase row.WHOLE_ARRAY text.now) into.old.items into.new.items result }
{
    let mut c = Cursor::over(text);
    let array = match whole_array(&mut c, e) {
        Ok(array) => array,
        Err(code) => return Err(Fault::Code(code)),
    };
    let vars = match array_variables(e, &array) {
        Ok(vars) => vars,
        Err(code) => return Err(Fault::Code(code)),
    };
    match put_elements(vars, &array, into) {
        Ok(()) => Ok(c.rest()),
        Err(fault) => Err(fault),
    }
}

/// Puts the values of the item at a text after other values, and gives what stands after it.
#[tactic(auto, using(crate::proofs::SavedItems::array_here, crate::proofs::SavedItems::array_is, crate::proofs::SavedItems::array_rest, crate::proofs::SavedItems::operand_here, crate::proofs::SavedItems::operand_is, crate::proofs::SavedItems::operand_rest))]
fn put_item<'a>(e: &Env<'_>, text: &'a [u8], into: &mut Vec<Value>) -> Result<&'a [u8], Fault>
    requires phrase { is_phrase row.SAVED text.now ≡ true }
    ensures { PutsItem (spec.item_saved (in_statement (surroundings e.now)) (tree_at row.SAVED text.now)) (after_phrase row.SAVED text.now) into.old.items into.new.items result }
{
    if is_array_at(text) {
        put_array(e, text, into)
    } else {
        put_operand(e, text, into)
    }
}

/// The values of the items at a text, from left to right, or the first code.
#[tactic(auto, using(crate::proofs::SavedItems::other_part, crate::proofs::SavedItems::other_list, crate::proofs::SavedItems::saved_shorter, crate::proofs::SavedItems::one_put, crate::proofs::SavedItems::last_put, crate::proofs::SavedItems::refused))]
fn all_values(alloc: Global, e: &Env<'_>, text: &[u8]) -> Result<ValueList, Fault>
    requires phrase { is_phrase row.SAVED text.now ≡ true }
    requires list { is_list commas row.COMMA_SAVED (after_phrase row.SAVED text.now) ≡ true }
    ensures { GivesValues (spec.all_saved (in_statement (surroundings e.now)) (spec.items_at text.now)) result }
{
    let mut values = Vec::new(alloc);
    let mut left = text;
    loop {
        let rest = match put_item(e, left, &mut values) {
            Ok(rest) => rest,
            Err(fault) => return Err(fault),
        };
        if !is_at(b',', rest) {
            return Ok(ValueList::new(values));
        }
        left = rest_after(rest, 1);
    }
}

/// The values of a record that is saved.
#[tactic(auto, using(crate::proofs::SavedItems::first_item, crate::proofs::SavedItems::item_list, crate::proofs::SavedItems::list_is))]
pub fn saved_values(alloc: Global, e: &Env<'_>, text: &[u8]) -> Result<ValueList, Fault>
    requires phrase { is_phrase row.SAVED_LIST text.now ≡ true }
    ensures { GivesValues (spec.all_saved (in_statement (surroundings e.now)) (all_listed (tree_at row.SAVED_LIST text.now))) result }
{
    all_values(alloc, e, text)
}
