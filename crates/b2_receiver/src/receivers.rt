// Receivers at a cursor, of statements.
ghost use Rattle.std.specs.Prelude.{◌≡◌, true, drop, IfOk};
ghost use Rattle.b2_atom.specs.Leaves.{leaf_width};
ghost use Rattle.b2_atom.specs.declared.rows.TheConstants as row;
ghost use Rattle.b2_atom.specs.declared.words.Origin.TheVariants.{Atoms};
ghost use Rattle.b2_rows.specs.Leaves.{is_leaf, leaf_bytes};
ghost use Rattle.b2_rows.specs.Rows.{is_phrase, tree_at, after_phrase};
ghost use Rattle.b2_rows.specs.Values.{variable_name};
ghost use Rattle.b2_receiver.specs.Receivers as spec;
ghost use Rattle.b2_receiver.specs.Receivers.{IsAlpha, IsArray, IsBuffer, IsNamed, IsNumeric, GivesAt, array_leaf, is_alpha_array};
ghost use Rattle.b2_receiver.specs.RightSide.{GivesSideAt, after_right_side, is_right_side, right_side_tree};
ghost use Rattle.b2_receiver.specs.RightSide as side;
ghost use Rattle.b2_expr.specs.Scope.{surroundings};
ghost use Rattle.b2_expr.specs.Value.{in_statement};

use crate::locate::{
    alpha_receiver_at, any_receiver_at, array_named_at, buffer_at, number_receiver_at,
    whole_array_at,
};
use crate::operations::{RightSide, right_side_at};
use crate::receiver::{AlphaReceiver, Array, Buffer, Receiver};
use b2_atom::Cursor;
use b2_base::{Code, Fault};
use b2_dec::Kind;
use b2_expr::{Element, Env, in_statement};
use std::alloc::Global;

/// The numeric receiver at a cursor, which then stands after it; or the first code from the left, and then the cursor is as
/// before. X77 comes at the name, then the codes of its subscripts, P59 and P57.
pub fn number_receiver(c: &mut Cursor<'_>, e: &Env<'_>) -> Result<Element, Code>
    requires phrase { is_phrase row.NUMERIC_RECEIVER c.old ≡ true }
    ensures place { GivesAt (spec.number_receiver (in_statement (surroundings e.now)) (tree_at row.NUMERIC_RECEIVER c.old)) (after_phrase row.NUMERIC_RECEIVER c.old) c.old c.new result }
    ensures name { IfOk result (λ to. IsNumeric to.var) }
{
    let (to, rest) = match number_receiver_at(&in_statement(e), c.rest()) {
        Ok(found) => found,
        Err(code) => return Err(code),
    };
    *c = Cursor::over(rest);
    Ok(to)
}

/// The alpha receiver at a cursor, as `number_receiver`. Of STR the codes of its numbers come after those of its variable,
/// and P34 last, where the value has no such bytes.
pub fn alpha_receiver(c: &mut Cursor<'_>, e: &Env<'_>) -> Result<AlphaReceiver, Code>
    requires phrase { is_phrase row.ALPHA_RECEIVER c.old ≡ true }
    ensures place { GivesAt (spec.alpha_receiver (in_statement (surroundings e.now)) (tree_at row.ALPHA_RECEIVER c.old)) (after_phrase row.ALPHA_RECEIVER c.old) c.old c.new result }
    ensures name { IfOk result (λ to. IsAlpha to.element.var) }
{
    let (to, rest) = match alpha_receiver_at(&in_statement(e), c.rest()) {
        Ok(found) => found,
        Err(code) => return Err(code),
    };
    *c = Cursor::over(rest);
    Ok(to)
}

/// The receiver of either kind at a cursor, as `number_receiver` and `alpha_receiver`.
pub fn any_receiver(c: &mut Cursor<'_>, e: &Env<'_>) -> Result<Receiver, Code>
    requires phrase { is_phrase row.RECEIVER c.old ≡ true }
    ensures place { GivesAt (spec.any_receiver (in_statement (surroundings e.now)) (tree_at row.RECEIVER c.old)) (after_phrase row.RECEIVER c.old) c.old c.new result }
    ensures name { IfOk result IsNamed }
{
    let (to, rest) = match any_receiver_at(&in_statement(e), c.rest()) {
        Ok(found) => found,
        Err(code) => return Err(code),
    };
    *c = Cursor::over(rest);
    Ok(to)
}

/// The buffer at a cursor: an alpha receiver, or an alpha array with empty parentheses after its name. Codes come as for
/// these.
pub fn buffer(c: &mut Cursor<'_>, e: &Env<'_>) -> Result<Buffer, Code>
    requires phrase { is_phrase row.BUFFER c.old ≡ true }
    ensures place { GivesAt (spec.buffer (in_statement (surroundings e.now)) (tree_at row.BUFFER c.old)) (after_phrase row.BUFFER c.old) c.old c.new result }
    ensures name { IfOk result IsBuffer }
{
    let (to, rest) = match buffer_at(&in_statement(e), c.rest()) {
        Ok(found) => found,
        Err(code) => return Err(code),
    };
    *c = Cursor::over(rest);
    Ok(to)
}

/// The whole array at a cursor, with empty parentheses after its name: X77 where there are no `@` variables, and P59 where
/// the array isn't there.
pub fn whole_array(c: &mut Cursor<'_>, e: &Env<'_>) -> Result<Array, Code>
    requires phrase { is_phrase row.WHOLE_ARRAY c.old ≡ true }
    ensures place { GivesAt (spec.whole_array (surroundings e.now) (tree_at row.WHOLE_ARRAY c.old)) (after_phrase row.WHOLE_ARRAY c.old) c.old c.new result }
    ensures name { IfOk result (λ array. IsArray array.var) }
{
    let (array, rest) = match whole_array_at(e, c.rest()) {
        Ok(found) => found,
        Err(code) => return Err(code),
    };
    *c = Cursor::over(rest);
    Ok(array)
}

/// The array of the name at a cursor, which then stands after the name. Codes come as for `whole_array`.
pub fn array_named(c: &mut Cursor<'_>, kind: Kind, e: &Env<'_>) -> Result<Array, Code>
    requires named { is_leaf (array_leaf kind) c.old ≡ true }
    ensures place { GivesAt (spec.array_there (surroundings e.now) (variable_name (is_alpha_array kind) (leaf_bytes (array_leaf kind) c.old))) (drop (leaf_width Atoms (array_leaf kind) c.old) c.old) c.old c.new result }
    ensures name { IfOk result (λ array. IsArray array.var × (array.var.alpha ≡ is_alpha_array kind)) }
{
    let (array, rest) = match array_named_at(e, kind, c.rest()) {
        Ok(found) => found,
        Err(code) => return Err(code),
    };
    *c = Cursor::over(rest);
    Ok(array)
}

/// The right side of the alpha assignment at a cursor, which then stands after it: all its operands are evaluated. Or the
/// first code from the left, and then the cursor is as before. Memory is taken where there are operations.
pub fn right_side(alloc: Global, c: &mut Cursor<'_>, e: &Env<'_>) -> Result<RightSide, Fault>
    requires phrase { is_right_side c.old ≡ true }
    ensures { GivesSideAt (side.right_side (in_statement (surroundings e.now)) (right_side_tree c.old)) (after_right_side c.old) c.old c.new result }
{
    let (side, rest) = match right_side_at(alloc, &in_statement(e), c.rest()) {
        Ok(found) => found,
        Err(fault) => return Err(fault),
    };
    *c = Cursor::over(rest);
    Ok(side)
}
