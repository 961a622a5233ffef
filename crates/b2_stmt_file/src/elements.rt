// The elements of whole arrays, along rows.
ghost use Rattle.std.specs.Prelude.{◌≡◌, ◌<◌, ◌^◌, max, true, false, MatchResult, Ok, Err};
ghost use Rattle.b2_vars.specs.Names.{is_legal_name};
ghost use Rattle.b2_vars.specs.Shapes.{cells, scalar_shape};
ghost use Rattle.b2_vars.specs.Tables.{shape_at};
ghost use Rattle.b2_expr.specs.Named.{cell_seen};
ghost use Rattle.b2_expr.specs.Scope.{surroundings};
ghost use Rattle.b2_access.specs.Touching as touching;
ghost use Rattle.b2_receiver.specs.Receivers.{IsArray, IsNamed};
ghost use Rattle.b2_stmt_file.specs.Elements as spec;
ghost use Rattle.b2_stmt_file.specs.SavedValues.{PutsValues};

use b2_alpha::value_len;
use b2_base::codes::X72_TOO_LONG;
use b2_base::lexical::first_bytes;
use b2_base::{Code, Fault};
use b2_dec::{Bytes, Value};
use b2_expr::{Element, Env, Located, variables_of};
use b2_receiver::{AlphaReceiver, Array, Portion, Receiver};
use b2_rows::Name;
use b2_vars::{Shape, Var, Vars};

/// The longest alpha value of a record.
const LONGEST: usize = 124;

/// How many elements a shape has.
pub fn count_of(shape: Shape) -> usize
    ensures count { result ≡ cells shape }
    ensures small { result < 2 ^ 33 }
{
    usize::from(shape.rows.max(1)) * usize::from(shape.cols.max(1))
}

/// The shape of a scalar that isn't there.
fn scalar_shape(v: Var) -> Shape
    ensures { result ≡ scalar_shape v }
{
    Shape {
        rows: 0,
        cols: 0,
        len: if v.alpha { 16 } else { 0 },
    }
}

/// How many elements a row of a shape has.
fn width_of(shape: Shape) -> usize
    ensures width { result ≡ max 1 shape.cols }
    ensures some { 0 < result }
    ensures small { result < 2 ^ 16 }
{
    usize::from(shape.cols.max(1))
}

/// The row of the k-th element of a shape.
#[tactic(auto, using(crate::proofs::ElementPlaces::row_within))]
pub fn row_of(shape: Shape, k: usize) -> u16
    requires within { k < cells shape }
    ensures { result ≡ spec.row_of shape k }
{
    let width = width_of(shape);
    let rows = usize::from(shape.rows.max(1));
    prove!(rows < 65_536);
    (k / width + 1) as u16
}

/// The column of the k-th element of a shape, 0 where it has no columns.
#[tactic(auto, using(crate::proofs::ElementPlaces::column_within))]
pub fn column_of(shape: Shape, k: usize) -> u16
    ensures { result ≡ spec.column_of shape k }
{
    let width = width_of(shape);
    if shape.cols == 0 {
        0
    } else {
        (k % width + 1) as u16
    }
}

/// The shape of a variable, that of a new scalar where nothing stands under its name.
#[tactic(auto, using(crate::proofs::ElementPlaces::shape_there, crate::proofs::ElementPlaces::shape_missing))]
pub fn shape_of(vars: &Vars, v: Var) -> Shape
    requires named { is_legal_name v ≡ true }
    ensures { result ≡ shape_at v vars.now.table }
{
    match vars.shape(v) {
        Some(shape) => shape,
        None => scalar_shape(v),
    }
}

/// Whether a record may have a value.
fn is_short(value: &Value) -> bool
    ensures { result ≡ touching.is_short value.now }
{
    match value {
        Value::Number(_) => true,
        Value::Alpha(bytes) => !bytes.is_empty() && bytes.len() <= LONGEST,
    }
}

/// Puts a value after others, X72 where it is too long for a record.
#[tactic(auto, using(crate::proofs::SavedRows::recorded_short, crate::proofs::SavedRows::recorded_long))]
pub fn put_value(value: Value, into: &mut Vec<Value>) -> Result<(), Fault>
    ensures { PutsValues (spec.recorded value) into.old.items into.new.items result }
{
    if !is_short(&value) {
        return Err(Fault::Code(Code::known(X72_TOO_LONG)));
    }
    match into.push(value) {
        Ok(()) => Ok(()),
        Err(_) => Err(Fault::NoMemory),
    }
}

/// The k-th element of an array.
fn element_of(array: &Array, shape: Shape, k: usize) -> Element
    requires within { k < cells shape }
    ensures { result ≡ spec.element_of array.now shape k }
{
    Element {
        global: array.global,
        var: array.var,
        row: row_of(shape, k),
        column: column_of(shape, k),
    }
}

/// The value of an alpha element: its bytes but the blanks at their end.
#[tactic(auto, using(b2_expr::proofs::Texts::value_taken))]
fn alpha_value(located: &Located<'_>) -> Result<Value, Code>
    requires named { is_legal_name located.now.element.var ≡ true }
    requires alpha { located.now.element.var.alpha ≡ true }
    ensures { MatchResult result (λ x. spec.alpha_value (cell_seen located.now) ≡ Ok x) (λ code. spec.alpha_value (cell_seen located.now) ≡ Err code) }
{
    let bytes = match located.bytes() {
        Ok(bytes) => bytes,
        Err(code) => return Err(code),
    };
    let mut value = Bytes::new();
    value.extend(first_bytes(bytes, value_len(bytes)));
    Ok(Value::Alpha(value))
}

/// The value of a numeric element.
fn number_value(located: &Located<'_>) -> Result<Value, Code>
    requires named { is_legal_name located.now.element.var ≡ true }
    requires number { located.now.element.var.alpha ≡ false }
    ensures { MatchResult result (λ x. spec.number_value (cell_seen located.now) ≡ Ok x) (λ code. spec.number_value (cell_seen located.now) ≡ Err code) }
{
    match located.number() {
        Ok(x) => Ok(Value::Number(x)),
        Err(code) => Err(code),
    }
}

/// The value of an element, as an expression that names it has it.
fn value_in(located: &Located<'_>) -> Result<Value, Code>
    requires named { is_legal_name located.now.element.var ≡ true }
    ensures { MatchResult result (λ x. spec.value_in (cell_seen located.now) ≡ Ok x) (λ code. spec.value_in (cell_seen located.now) ≡ Err code) }
{
    if located.element.var.alpha {
        alpha_value(located)
    } else {
        number_value(located)
    }
}

/// Puts the k-th element of an array after other values.
fn put_element(
    vars: &Vars,
    array: &Array,
    shape: Shape,
    k: usize,
    into: &mut Vec<Value>,
) -> Result<(), Fault>
    requires named { is_legal_name array.now.var ≡ true }
    requires shape { shape ≡ shape_at array.now.var vars.now.table }
    requires within { k < cells shape }
    ensures { PutsValues (spec.element_recorded vars.now array.now k) into.old.items into.new.items result }
{
    let located = Located {
        vars,
        element: element_of(array, shape, k),
    };
    match value_in(&located) {
        Ok(value) => put_value(value, into),
        Err(code) => Err(Fault::Code(code)),
    }
}

/// Puts all elements of an array after other values, along rows.
#[tactic(auto, using(crate::proofs::SavedRows::element_put, crate::proofs::SavedRows::element_failed, crate::proofs::SavedRows::none_put))]
pub fn put_elements(vars: &Vars, array: &Array, into: &mut Vec<Value>) -> Result<(), Fault>
    requires named { is_legal_name array.now.var ≡ true }
    ensures { PutsValues (spec.array_values vars.now array.now) into.old.items into.new.items result }
{
    let shape = shape_of(vars, array.var);
    let mut left = count_of(shape);
    let mut k = 0usize;
    while left > 0 {
        if let Err(fault) = put_element(vars, array, shape, k, into) {
            return Err(fault);
        }
        k += 1;
        left -= 1;
    }
    Ok(())
}

/// The k-th element of an array as a receiver.
#[tactic(auto, using(crate::proofs::ElementPlaces::alpha_receiver, crate::proofs::ElementPlaces::number_receiver))]
pub fn receiver_of(array: &Array, shape: Shape, k: usize) -> Receiver
    requires named { IsArray array.now.var }
    requires within { k < cells shape }
    ensures value { result ≡ spec.receiver_of array.now shape k }
    ensures named { IsNamed result }
{
    let element = element_of(array, shape, k);
    if array.var.alpha {
        Receiver::Alpha(AlphaReceiver {
            element,
            portion: Portion {
                from: 0,
                count: shape.len,
            },
        })
    } else {
        Receiver::Number(element)
    }
}

/// The variables among which an array is: X77 where there are no `@` variables.
pub fn array_variables<'a>(e: &Env<'a>, array: &Array) -> Result<&'a Vars, Code>
    ensures { MatchResult result (λ vars. spec.array_variables (surroundings e.now) array.now ≡ Ok vars.now) (λ code. spec.array_variables (surroundings e.now) array.now ≡ Err code) }
{
    variables_of(
        e,
        Name {
            letter: array.var.letter,
            digit: array.var.digit,
            alpha: array.var.alpha,
            global: array.global,
        },
    )
}
