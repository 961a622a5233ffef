// Whole arrays among variables.
ghost use Rattle.std.specs.Prelude.{◌≡◌, ◌<◌, true, false, length, get_or, drop, replicate, IfOk, OnOk, Some};
ghost use Rattle.b2_atom.specs.Leaves.{leaf_width};
ghost use Rattle.b2_atom.specs.declared.words.Origin.TheVariants.{Atoms};
ghost use Rattle.b2_rows.specs.Leaves.{is_leaf, leaf_bytes};
ghost use Rattle.b2_dec.specs.Number.{zero_number};
ghost use Rattle.b2_vars.specs.Calls.{with_bytes_of, with_change};
ghost use Rattle.b2_vars.specs.Shapes.{cell_at, cells, has_cell};
ghost use Rattle.b2_vars.specs.Tables.{IsVariable, shape_at, variable_at};
ghost use Rattle.b2_vars.specs.Variables.{with_number};
ghost use Rattle.b2_expr.specs.Reads.{Gives};
ghost use Rattle.b2_expr.specs.Scope.{surroundings};
ghost use Rattle.b2_receiver.specs.Receivers.{array_leaf, is_alpha_array};
ghost use Rattle.b2_stmt_mat.specs.Arrays as spec;
ghost use Rattle.b2_expr.specs.Workspace.{SameReferences, among, surroundings_of as seen_by, workspace};
ghost use Rattle.b2_receiver.specs.Assigning.{unassigned};
ghost use Rattle.b2_stmt_mat.specs.Arrays.{IfCode, IsArrayIn, IsArrayOf, all_bytes, families, with_numbers};
ghost use Rattle.b2_stmt_mat.specs.ByteArrays.{with_all};

use b2_atom::Cursor;
use b2_base::codes::X77_NO_PARTITION;
use b2_base::{Code, Fault, NoMemory};
use b2_dec::{Dec, Kind};
use b2_expr::{Env, Workspace, reached_after};
use b2_matalpha::copy;
use b2_receiver::{Array, array_named};
use b2_vars::{Shape, Var, Vars};
use std::alloc::Global;

/// The array of the name at a text, and what stands after the name. P59 comes exactly where it isn't there.
#[tactic(auto, using(crate::proofs::ArraysThere::array_there_so))]
pub fn array_at<'t>(e: &Env<'_>, kind: Kind, text: &'t [u8]) -> Result<(Array, &'t [u8]), Code>
    requires named { is_leaf (array_leaf kind) text.now ≡ true }
    ensures array { Gives (spec.array_of (surroundings e.now) (is_alpha_array kind) (leaf_bytes (array_leaf kind) text.now)) (drop (leaf_width Atoms (array_leaf kind) text.now) text.now) result }
    ensures there { IfOk result (λ p. IsArrayIn (is_alpha_array kind) p.0 (families (surroundings e.now))) }
{
    let mut c = Cursor::over(text);
    match array_named(&mut c, kind, e) {
        Ok(array) => Ok((array, c.rest())),
        Err(code) => Err(code),
    }
}

/// The variables among which an array is. Where there are no `@` variables no array is among them, and the own stand for them.
pub fn vars_of<'a>(e: &Env<'a>, global: bool) -> &'a Vars
    ensures { result.now ≡ spec.vars_of global (families (surroundings e.now)) }
{
    match e.globals {
        Some(vars) if global => vars,
        _ => e.own,
    }
}

/// The shape of an array that is there.
#[tactic(auto, using(crate::proofs::ArraysThere::shape_found, crate::proofs::ArraysThere::sound_found, crate::proofs::ArraysThere::no_shape))]
pub fn shape_of(vars: &Vars, v: Var) -> Shape
    requires there { IsArrayOf v.alpha v vars.now.table }
    ensures value { result ≡ shape_at v vars.now.table }
    ensures sound { IsVariable v (variable_at v vars.now.table) }
{
    match vars.shape(v) {
        Some(shape) => shape,
        None => unreachable!(),
    }
}

/// How many values a shape of an array has.
pub fn cell_count(shape: Shape) -> usize
    ensures value { result ≡ cells shape }
{
    usize::from(shape.rows.max(1)) * usize::from(shape.cols.max(1))
}

/// The row and the column of a place along rows; the column is 0 for an array of one dimension.
#[tactic(auto, using(crate::proofs::CellPlaces::cell_is, crate::proofs::CellPlaces::cell_there, crate::proofs::CellPlaces::cell_fits, crate::proofs::CellPlaces::row_fits, crate::proofs::CellPlaces::column_fits, crate::proofs::CellPlaces::place_is, crate::proofs::CellPlaces::place_there))]
fn subscripts_of_cell(shape: Shape, cell: usize) -> (u16, u16)
    requires rows { 0 < shape.rows }
    requires within { cell < cells shape }
    ensures there { has_cell shape result.0 result.1 ≡ true }
    ensures cell { cell_at shape result.0 result.1 ≡ cell }
{
    let width = usize::from(shape.cols);
    if width == 0 {
        return ((cell + 1) as u16, 0);
    }
    ((cell / width + 1) as u16, (cell % width + 1) as u16)
}

/// The number at a place along the rows of an array.
#[tactic(auto, using(crate::proofs::ArraysThere::no_get, crate::proofs::ArraysThere::number_there))]
fn number_in(vars: &Vars, v: Var, shape: Shape, cell: usize) -> Dec
    requires there { IsArrayOf false v vars.now.table }
    requires shape { shape ≡ shape_at v vars.now.table }
    requires rows { 0 < shape.rows }
    requires within { cell < cells shape }
    ensures { result ≡ get_or (variable_at v vars.now.table).numbers cell zero_number }
{
    let (row, column) = subscripts_of_cell(shape, cell);
    match vars.number(v, row, column) {
        Ok(x) => x,
        Err(_) => unreachable!(),
    }
}

/// Copies the numbers of an array, along rows, into as many.
fn copy_numbers(vars: &Vars, v: Var, into: &mut [Dec])
    requires there { IsArrayOf false v vars.now.table }
    requires count { length into.old ≡ length (variable_at v vars.now.table).numbers }
    ensures { into.new ≡ (variable_at v vars.now.table).numbers }
{
    let shape = shape_of(vars, v);
    for (cell, slot) in into.iter_mut().enumerate() {
        *slot = number_in(vars, v, shape, cell);
    }
}

/// As many zeros.
pub fn zeros(alloc: Global, count: usize) -> Result<Vec<Dec>, NoMemory>
    ensures zeros { IfOk result (λ numbers. numbers.items ≡ replicate count zero_number) }
    ensures count { IfOk result (λ numbers. length numbers.items ≡ count) }
{
    let numbers = vec![in alloc; Dec::zero(); count]?;
    Ok(numbers)
}

/// The numbers of an array along rows, in memory of their own.
pub fn numbers_of(alloc: Global, vars: &Vars, v: Var) -> Result<Vec<Dec>, NoMemory>
    requires there { IsArrayOf false v vars.now.table }
    ensures numbers { IfOk result (λ numbers. numbers.items ≡ (variable_at v vars.now.table).numbers) }
    ensures count { IfOk result (λ numbers. length numbers.items ≡ cells (shape_at v vars.now.table)) }
{
    let mut numbers = zeros(alloc, cell_count(shape_of(vars, v)))?;
    copy_numbers(vars, v, &mut numbers);
    Ok(numbers)
}

/// Puts a number at a place along the rows of an array.
fn put_cell_number(vars: &mut Vars, v: Var, shape: Shape, cell: usize, x: Dec)
    requires there { IsArrayOf false v vars.old.table }
    requires shape { shape ≡ shape_at v vars.old.table }
    requires rows { 0 < shape.rows }
    requires within { cell < cells shape }
    ensures { vars.new ≡ with_change v (with_number cell x) vars.old }
{
    let (row, column) = subscripts_of_cell(shape, cell);
    let _count = vars.count();
    match vars.set_number(v, row, column, x) {
        Ok(()) => {}
        Err(_) => unreachable!(),
    }
}

/// Puts numbers, along rows, in the place of all that an array has.
#[tactic(auto, using(crate::proofs::Written::next_put, crate::proofs::Written::none_put, crate::proofs::Written::all_put, crate::proofs::Written::there_after, crate::proofs::Written::shape_after))]
pub fn put_numbers(vars: &mut Vars, v: Var, numbers: &[Dec])
    requires there { IsArrayOf false v vars.old.table }
    requires count { length numbers.now ≡ cells (shape_at v vars.old.table) }
    ensures { vars.new ≡ with_change v (with_numbers numbers.now) vars.old }
{
    let shape = shape_of(vars, v);
    for (cell, x) in numbers.iter().enumerate() {
        put_cell_number(vars, v, shape, cell, *x);
    }
}

/// The bytes of all values of an array, along rows.
pub fn bytes_of(vars: &Vars, v: Var) -> &[u8]
    requires there { IsArrayOf true v vars.now.table }
    ensures { result.now ≡ spec.bytes_of v vars.now.table }
{
    match vars.all(v) {
        Ok(bytes) => bytes,
        Err(_) => unreachable!(),
    }
}

/// Puts bytes in the place of all that an array has.
pub fn put_bytes(vars: &mut Vars, v: Var, bytes: &[u8])
    requires there { IsArrayOf true v vars.old.table }
    requires count { length bytes.now ≡ length (spec.bytes_of v vars.old.table) }
    ensures { vars.new ≡ with_bytes_of v 0 vars.old bytes.now }
{
    vars.change_all(v, |all| copy(bytes, all));
}

/// Puts bytes in the place of all that an array has, wherever it is, with which a statement ends. Its code.
#[tactic(auto, using(crate::proofs::Put::own_there, crate::proofs::Put::lent_there, crate::proofs::Put::own_bytes, crate::proofs::Put::lent_bytes))]
pub fn put_all_bytes(
    work: &mut Workspace<'_>,
    to: &Array,
    bytes: &[u8],
    code: Option<Code>,
) -> Option<Code>
    requires there { IsArrayIn true to.now (families (seen_by (workspace work.old))) }
    requires count { length bytes.now ≡ length (all_bytes to.now (families (seen_by (workspace work.old)))) }
    ensures worked { record { work = workspace work.new; code = result } ≡ among to.now.global (λ old. record { vars = with_all to.now.var bytes.now old; code = code }) (workspace work.old) }
    ensures same_references { SameReferences work.old work.new }
{
    if !to.global {
        put_bytes(work.own, to.var, bytes);
        return code;
    }
    if !work.found {
        return Some(Code::known(X77_NO_PARTITION));
    }
    put_bytes(work.globals, to.var, bytes);
    work.reached = reached_after(work.reached, &code);
    code
}

/// A code with which nothing is assigned to an array. With what the statement ends.
fn refuse_array(work: &mut Workspace<'_>, global: bool, code: Code) -> Option<Code>
    ensures worked { record { work = workspace work.new; code = result } ≡ among global (λ old. unassigned code old) (workspace work.old) }
    ensures same_references { SameReferences work.old work.new }
{
    if !global {
        return Some(code);
    }
    if !work.found {
        return Some(Code::known(X77_NO_PARTITION));
    }
    work.reached = reached_after(work.reached, &Some(code));
    Some(code)
}

/// A fault with which nothing is assigned to an array. With what the statement ends, where memory didn't fail.
pub fn refuse_fault(
    work: &mut Workspace<'_>,
    global: bool,
    fault: Fault,
) -> Result<Option<Code>, NoMemory>
    ensures worked { IfOk result (λ code. IfCode fault (λ c. record { work = workspace work.new; code = code } ≡ among global (λ old. unassigned c old) (workspace work.old))) }
    ensures same_references { SameReferences work.old work.new }
{
    match fault {
        Fault::Code(code) => Ok(refuse_array(work, global, code)),
        Fault::NoMemory => Err(NoMemory),
    }
}
