// The receivers of values that are loaded: their kinds, and how they take the values.
ghost use Rattle.std.specs.Prelude.{◌≡◌, ◌<◌, true, replicate, IfOk, MatchResult, Ok, Err};
ghost use Rattle.b2_atom.specs.declared.rows.TheConstants as row;
ghost use Rattle.b2_rows.specs.CommaLists.{commas};
ghost use Rattle.b2_rows.specs.Rows.{after_phrase, is_list, is_phrase, tree_at};
ghost use Rattle.b2_vars.specs.Shapes.{cells};
ghost use Rattle.b2_expr.specs.Scope.{surroundings};
ghost use Rattle.b2_expr.specs.Value.{in_statement};
ghost use Rattle.b2_expr.specs.Workspace.{SameReferences, workspace};
ghost use Rattle.b2_receiver.specs.Receivers.{IsArray, IsNamed};
ghost use Rattle.b2_stmt_file.specs.LoadedValues as spec;
ghost use Rattle.b2_stmt_file.specs.LoadedValues.{IsItem};
ghost use Rattle.b2_stmt_file.specs.SavedValues.{GivesValues, PutsItem, PutsValues};

use crate::elements::{array_variables, count_of, receiver_of, shape_of};
use b2_atom::Cursor;
use b2_base::codes::{X70_TOO_LITTLE, X74_OTHER_KIND};
use b2_base::lexical::rest_after;
use b2_base::{Code, Fault, NoMemory};
use b2_dec::{Kind, KindList, Value};
use b2_expr::{Env, Workspace, suits, surroundings_of};
use b2_receiver::{Array, Receiver, any_receiver, give_value, past_any_receiver, whole_array};
use b2_rows::{is_alpha_at, is_array_at, is_at};
use b2_vars::{Shape, Var};
use std::alloc::Global;

/// What takes values: a whole array, or a receiver.
#[derive(Clone, Copy)]
pub enum Item {
    Whole(Array),
    One(Receiver),
}

/// The kind of a variable's values.
fn kind_of(v: Var) -> Kind
    ensures { result ≡ spec.kind_of v }
{
    if v.alpha { Kind::Alpha } else { Kind::Number }
}

/// Puts a kind after others, as often as said.
#[tactic(auto, using(crate::proofs::LoadedRows::kind_put, crate::proofs::LoadedRows::no_kind))]
fn put_kinds(kind: Kind, n: usize, into: &mut Vec<Kind>) -> Result<(), Fault>
    ensures { PutsValues (Ok (replicate n kind)) into.old.items into.new.items result }
{
    let mut left = n;
    while left > 0 {
        if into.push(kind).is_err() {
            return Err(Fault::NoMemory);
        }
        left -= 1;
    }
    Ok(())
}

/// Puts the kinds of the elements of the whole array at a text after others, and gives what stands after it.
fn put_array<'a>(e: &Env<'_>, text: &'a [u8], into: &mut Vec<Kind>) -> Result<&'a [u8], Fault>
    requires phrase { is_phrase row.WHOLE_ARRAY text.now ≡ true }
    ensures { PutsItem (spec.array_kinds (surroundings e.now) (tree_at row.WHOLE_ARRAY text.now)) (after_phrase row.WHOLE_ARRAY text.now) into.old.items into.new.items result }
{
    let mut c = Cursor::over(text);
    let array = match whole_array(&mut c, e) {
        Ok(array) => array,
        Err(code) => return Err(Fault::Code(code)),
    };
    let vars = match array_variables(e, &array) {
        Ok(vars) => vars,
        Err(code) => return Err(Fault::Code(code)),
    };
    match put_kinds(
        kind_of(array.var),
        count_of(shape_of(vars, array.var)),
        into,
    ) {
        Ok(()) => Ok(c.rest()),
        Err(fault) => Err(fault),
    }
}

/// The kind of the receiver at a text.
#[tactic(auto, using(crate::proofs::LoadedRows::alpha_kind, crate::proofs::LoadedRows::number_kind))]
fn kind_at(text: &[u8]) -> Kind
    requires phrase { is_phrase row.RECEIVER text.now ≡ true }
    ensures { result ≡ spec.receiver_kind (tree_at row.RECEIVER text.now) }
{
    if is_alpha_at(text) {
        Kind::Alpha
    } else {
        Kind::Number
    }
}

/// Puts the kind of the receiver at a text after others, and gives what stands after it.
fn put_receiver<'a>(text: &'a [u8], into: &mut Vec<Kind>) -> Result<&'a [u8], Fault>
    requires phrase { is_phrase row.RECEIVER text.now ≡ true }
    ensures { PutsItem (spec.one_kind (tree_at row.RECEIVER text.now)) (after_phrase row.RECEIVER text.now) into.old.items into.new.items result }
{
    match into.push(kind_at(text)) {
        Ok(()) => Ok(past_any_receiver(text)),
        Err(_) => Err(Fault::NoMemory),
    }
}

/// Puts the kinds of the item at a text after others, and gives what stands after it.
#[tactic(auto, using(crate::proofs::LoadedRows::array_here, crate::proofs::LoadedRows::array_kinds_are, crate::proofs::LoadedRows::array_rest, crate::proofs::LoadedRows::receiver_here, crate::proofs::LoadedRows::receiver_kind_is, crate::proofs::LoadedRows::receiver_rest))]
fn put_item<'a>(e: &Env<'_>, text: &'a [u8], into: &mut Vec<Kind>) -> Result<&'a [u8], Fault>
    requires phrase { is_phrase row.LOADED text.now ≡ true }
    ensures { PutsItem (spec.item_kinds (surroundings e.now) (tree_at row.LOADED text.now)) (after_phrase row.LOADED text.now) into.old.items into.new.items result }
{
    if is_array_at(text) {
        put_array(e, text, into)
    } else {
        put_receiver(text, into)
    }
}

/// The kinds of the receivers at a text, from left to right, or the first code.
#[tactic(auto, using(crate::proofs::LoadedRows::other_part, crate::proofs::LoadedRows::other_list, crate::proofs::LoadedRows::loaded_shorter, crate::proofs::LoadedRows::one_put, crate::proofs::LoadedRows::last_put, crate::proofs::LoadedRows::refused))]
pub fn kinds_at(alloc: Global, e: &Env<'_>, text: &[u8]) -> Result<KindList, Fault>
    requires phrase { is_phrase row.LOADED text.now ≡ true }
    requires list { is_list commas row.COMMA_LOADED (after_phrase row.LOADED text.now) ≡ true }
    ensures { GivesValues (spec.all_kinds (surroundings e.now) (spec.items_at text.now)) result }
{
    let mut kinds = Vec::new(alloc);
    let mut left = text;
    loop {
        let rest = match put_item(e, left, &mut kinds) {
            Ok(rest) => rest,
            Err(fault) => return Err(fault),
        };
        if !is_at(b',', rest) {
            return Ok(KindList::new(kinds));
        }
        left = rest_after(rest, 1);
    }
}

/// Gives the next value to a receiver. The code with which that ended, or none.
#[tactic(auto, using(b2_receiver::proofs::OneKind::one_kind))]
fn take_next(
    work: &mut Workspace<'_>,
    to: &Receiver,
    values: &[Value],
    next: &mut usize,
) -> Result<Option<Code>, NoMemory>
    requires named { IsNamed to.now }
    ensures worked { IfOk result (λ code. record { work = workspace work.new; next = next.new; code = code } ≡ spec.takes_next to.now values.now (workspace work.old) next.old) }
    ensures same_references { SameReferences work.old work.new }
{
    let Some(value) = values.get(*next) else {
        return Ok(Some(Code::known(X70_TOO_LITTLE)));
    };
    if !suits(to.is_alpha(), value) {
        return Ok(Some(Code::known(X74_OTHER_KIND)));
    }
    let code = give_value(work, to, value)?;
    *next += 1;
    Ok(code)
}

/// Gives the next value to the k-th element of an array. The code with which that ended, or none.
fn take_element(
    work: &mut Workspace<'_>,
    array: &Array,
    shape: Shape,
    k: usize,
    values: &[Value],
    next: &mut usize,
) -> Result<Option<Code>, NoMemory>
    requires named { IsArray array.now.var }
    requires within { k < cells shape }
    ensures worked { IfOk result (λ code. record { work = workspace work.new; next = next.new; code = code } ≡ spec.element_takes array.now shape k values.now (workspace work.old) next.old) }
    ensures same_references { SameReferences work.old work.new }
{
    let to = receiver_of(array, shape, k);
    take_next(work, &to, values, next)
}

/// Gives the next values to the elements of an array, along rows. The code with which that ended, or none.
#[tactic(auto, using(crate::proofs::LoadedRows::elements_found, crate::proofs::LoadedRows::elements_missing, crate::proofs::LoadedRows::element_took, crate::proofs::LoadedRows::element_coded, crate::proofs::LoadedRows::no_element))]
fn take_elements(
    work: &mut Workspace<'_>,
    array: &Array,
    values: &[Value],
    next: &mut usize,
) -> Result<Option<Code>, NoMemory>
    requires named { IsArray array.now.var }
    ensures worked { IfOk result (λ code. record { work = workspace work.new; next = next.new; code = code } ≡ spec.array_takes array.now values.now (workspace work.old) next.old) }
    ensures same_references { SameReferences work.old work.new }
{
    let shape = match array_variables(&surroundings_of(work), array) {
        Ok(vars) => shape_of(vars, array.var),
        Err(code) => return Ok(Some(code)),
    };
    let mut left = count_of(shape);
    let mut k = 0usize;
    while left > 0 {
        let code = take_element(work, array, shape, k, values, next)?;
        if code.is_some() {
            return Ok(code);
        }
        k += 1;
        left -= 1;
    }
    Ok(None)
}

/// What takes values at a text, among the variables as they are, and what stands after it.
#[tactic(auto, using(crate::proofs::LoadedRows::array_here, crate::proofs::LoadedRows::array_located, crate::proofs::LoadedRows::array_rest, crate::proofs::LoadedRows::receiver_here, crate::proofs::LoadedRows::receiver_located, crate::proofs::LoadedRows::receiver_rest))]
fn load_item_at<'a>(e: &Env<'_>, text: &'a [u8]) -> Result<(Item, &'a [u8]), Code>
    requires phrase { is_phrase row.LOADED text.now ≡ true }
    ensures place { MatchResult result (λ p. (spec.item_located (in_statement (surroundings e.now)) (tree_at row.LOADED text.now) ≡ Ok p.0) × (p.1.now ≡ after_phrase row.LOADED text.now)) (λ code. spec.item_located (in_statement (surroundings e.now)) (tree_at row.LOADED text.now) ≡ Err code) }
    ensures name { IfOk result (λ p. IsItem p.0) }
{
    let mut c = Cursor::over(text);
    if is_array_at(text) {
        return match whole_array(&mut c, e) {
            Ok(array) => Ok((Item::Whole(array), c.rest())),
            Err(code) => Err(code),
        };
    }
    match any_receiver(&mut c, e) {
        Ok(to) => Ok((Item::One(to), c.rest())),
        Err(code) => Err(code),
    }
}

/// Gives the next values to an item. The code with which that ended, or none.
fn take_at(
    work: &mut Workspace<'_>,
    item: &Item,
    values: &[Value],
    next: &mut usize,
) -> Result<Option<Code>, NoMemory>
    requires named { IsItem item.now }
    ensures worked { IfOk result (λ code. record { work = workspace work.new; next = next.new; code = code } ≡ spec.takes_at item.now values.now (workspace work.old) next.old) }
    ensures same_references { SameReferences work.old work.new }
{
    match item {
        Item::Whole(array) => take_elements(work, array, values, next),
        Item::One(to) => take_next(work, to, values, next),
    }
}

/// Gives values to the receivers at a text, from left to right. The code with which that ended, or none.
#[tactic(auto, using(crate::proofs::LoadedRows::other_part, crate::proofs::LoadedRows::other_list, crate::proofs::LoadedRows::loaded_shorter, crate::proofs::LoadedRows::item_took, crate::proofs::LoadedRows::item_last, crate::proofs::LoadedRows::item_coded, crate::proofs::LoadedRows::item_refused))]
pub fn take_values(
    work: &mut Workspace<'_>,
    values: &[Value],
    text: &[u8],
) -> Result<Option<Code>, NoMemory>
    requires phrase { is_phrase row.LOADED text.now ≡ true }
    requires list { is_list commas row.COMMA_LOADED (after_phrase row.LOADED text.now) ≡ true }
    ensures worked { IfOk result (λ code. record { work = workspace work.new; code = code } ≡ spec.all_take values.now (spec.items_at text.now) (workspace work.old)) }
    ensures same_references { SameReferences work.old work.new }
{
    let mut next = 0usize;
    let mut left = text;
    loop {
        let (item, rest) = match load_item_at(&surroundings_of(work), left) {
            Ok(found) => found,
            Err(code) => return Ok(Some(code)),
        };
        let code = take_at(work, &item, values, &mut next)?;
        if code.is_some() {
            return Ok(code);
        }
        if !is_at(b',', rest) {
            return Ok(None);
        }
        left = rest_after(rest, 1);
    }
}
