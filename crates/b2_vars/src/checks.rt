// What a call asks of the variables first: the codes, and where a value stands.
ghost use Rattle.std.specs.Prelude.{◌≡◌, ◌≤◌, ◌<◌, IfSome, IfOk, OnOk, true, nat_lt, [], ◌∷◌};
ghost use Rattle.std.specs.FinMap as map;
ghost use Rattle.b2_vars.specs.Answers.{Answers, first_of};
ghost use Rattle.b2_vars.specs.Block.{StandsAt, place_of};
ghost use Rattle.b2_vars.specs.Calls.{missing_code, no_array, no_cell, bad_dimensions, bad_length, not_common, other_shape, too_large, no_part, get_code};
ghost use Rattle.b2_vars.specs.Names.{is_legal_name};
ghost use Rattle.b2_vars.specs.Shapes.{cell_at, has_cell};
ghost use Rattle.b2_vars.specs.Tables.{table_of, shape_at, IsVariable};

use crate::block::Block;
use crate::name::Var;
use crate::shape::{
    Shape, cell_at, has_cell, has_dimensions, has_length, is_same_shape, scalar_shape, size_of,
};
use b2_base::Code;
use b2_base::codes::{
    P34_RANGE, P50_DIMENSION, P53_LENGTH, P55_SHAPE_DIFFERS, P56_NOT_COMMON, P57_SUBSCRIPT,
    P59_NO_ARRAY,
};

/// The shape of a name, that of a new scalar where nothing stands under it.
#[inline(always)]
pub fn shape_at(block: &Block, v: Var) -> Shape
    requires { is_legal_name v ≡ true }
    ensures { result ≡ shape_at v (table_of block.now.entries) }
{
    let place = block.place(v);
    if place == 0 {
        scalar_shape(v)
    } else {
        block.shape(v, place)
    }
}

/// P59 exactly where nothing stands under a name.
#[inline(always)]
pub fn require_variable(block: &Block, v: Var) -> Result<(), Code>
    requires { is_legal_name v ≡ true }
    ensures { Answers (missing_code v (table_of block.now.entries)) result }
{
    if block.place(v) == 0 {
        return Err(Code::known(P59_NO_ARRAY));
    }
    Ok(())
}

/// P59 exactly where a name is that of an array that wasn't made.
#[inline(always)]
fn require_array(block: &Block, v: Var) -> Result<(), Code>
    requires { is_legal_name v ≡ true }
    ensures { Answers (no_array v (table_of block.now.entries)) result }
{
    if v.array {
        return require_variable(block, v);
    }
    Ok(())
}

/// P57 exactly where a shape has no value at these subscripts.
#[inline(always)]
fn require_cell(block: &Block, v: Var, r: u16, c: u16) -> Result<usize, Code>
    requires { is_legal_name v ≡ true }
    ensures place { IfOk result (λ cell. cell ≡ cell_at (shape_at v (table_of block.now.entries)) r c) }
    ensures there { OnOk result (has_cell (shape_at v (table_of block.now.entries)) r c ≡ true) }
    ensures code { Answers (no_cell v r c (table_of block.now.entries)) result }
{
    let shape = shape_at(block, v);
    if !has_cell(shape, r, c) {
        return Err(Code::known(P57_SUBSCRIPT));
    }
    Ok(cell_at(shape, r, c))
}

/// The place of a value along the rows of its variable, P59 or P57 exactly where it has none.
#[inline(always)]
pub fn cell_of(block: &Block, v: Var, r: u16, c: u16) -> Result<usize, Code>
    requires { is_legal_name v ≡ true }
    ensures place { IfOk result (λ cell. cell ≡ cell_at (shape_at v (table_of block.now.entries)) r c) }
    ensures there { OnOk result (has_cell (shape_at v (table_of block.now.entries)) r c ≡ true) }
    ensures code { Answers (get_code v r c (table_of block.now.entries)) result }
{
    require_array(block, v)?;
    require_cell(block, v, r, c)
}

/// P59 or P57 exactly where a name has no such value.
pub fn require_value(block: &Block, v: Var, r: u16, c: u16) -> Result<(), Code>
    requires named { is_legal_name v ≡ true }
    requires sound { IfSome (map.get (table_of block.now.entries) v) (IsVariable v) }
    ensures { Answers (get_code v r c (table_of block.now.entries)) result }
{
    if !v.array && r == 0 && c == 0 {
        return Ok(());
    }
    cell_of(block, v, r, c)?;
    Ok(())
}

/// The place of a value along the rows of the variable at a place, P57 exactly where it has none.
#[inline(always)]
pub fn cell_in(block: &Block, v: Var, place: usize, r: u16, c: u16) -> Result<usize, Code>
    requires at { StandsAt v place block.now.entries }
    requires there { map.contains_key (table_of block.now.entries) v ≡ true }
    ensures place { IfOk result (λ cell. cell ≡ cell_at (shape_at v (table_of block.now.entries)) r c) }
    ensures there { OnOk result (has_cell (shape_at v (table_of block.now.entries)) r c ≡ true) }
    ensures code { Answers (get_code v r c (table_of block.now.entries)) result }
{
    let shape = block.shape(v, place);
    if !has_cell(shape, r, c) {
        return Err(Code::known(P57_SUBSCRIPT));
    }
    Ok(cell_at(shape, r, c))
}

/// P34 exactly where the values of a name have no such part.
#[inline(always)]
pub fn require_part(block: &Block, v: Var, from: usize, n: usize) -> Result<(), Code>
    requires { is_legal_name v ≡ true }
    ensures { Answers (no_part v from n (table_of block.now.entries)) result }
{
    let len = usize::from(shape_at(block, v).len);
    if n > len || from > len - n {
        return Err(Code::known(P34_RANGE));
    }
    Ok(())
}

/// P50 or P53 exactly where a name can't have a shape.
pub fn require_allowed(v: Var, shape: Shape) -> Result<(), Code>
    ensures { Answers (first_of (bad_dimensions v shape ∷ bad_length v shape ∷ [])) result }
{
    if !has_dimensions(v, shape) {
        return Err(Code::known(P50_DIMENSION));
    }
    if !has_length(v, shape) {
        return Err(Code::known(P53_LENGTH));
    }
    Ok(())
}

/// P56 exactly where a variable is there and not common.
pub fn require_common(block: &Block, v: Var) -> Result<(), Code>
    requires { is_legal_name v ≡ true }
    ensures { Answers (not_common v (table_of block.now.entries)) result }
{
    let place = block.place(v);
    if place > 0 && !block.is_common(v, place) {
        return Err(Code::known(P56_NOT_COMMON));
    }
    Ok(())
}

/// P55 exactly where a variable is there in another shape.
pub fn require_shape(block: &Block, v: Var, shape: Shape) -> Result<(), Code>
    requires { is_legal_name v ≡ true }
    ensures { Answers (other_shape v shape (table_of block.now.entries)) result }
{
    let place = block.place(v);
    if place > 0 && !is_same_shape(block.shape(v, place), shape) {
        return Err(Code::known(P55_SHAPE_DIFFERS));
    }
    Ok(())
}

/// P55 exactly where a shape takes more than a variable has.
pub fn require_room(block: &Block, v: Var, shape: Shape) -> Result<(), Code>
    requires { is_legal_name v ≡ true }
    ensures { Answers (too_large v shape (table_of block.now.entries)) result }
{
    if size_of(v, shape) > size_of(v, shape_at(block, v)) {
        return Err(Code::known(P55_SHAPE_DIFFERS));
    }
    Ok(())
}
