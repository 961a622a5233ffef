// MAT MOVE, MAT SORT and MAT COPY: arrays of alpha values as a whole.
ghost use Rattle.std.specs.Prelude.{◌≡◌, ◌<◌, ◌≤◌, true, length, IfOk, Ok};
ghost use Rattle.b2_vars.specs.Tables.{shape_at};
ghost use Rattle.b2_atom.specs.declared.rows.TheConstants as row;
ghost use Rattle.b2_rows.specs.Rows.{after_phrase, is_phrase, tree_at};
ghost use Rattle.b2_expr.specs.Reads.{Gives};
ghost use Rattle.b2_expr.specs.Scope.{surroundings};
ghost use Rattle.b2_expr.specs.Value.{in_statement};
ghost use Rattle.b2_expr.specs.Workspace.{SameReferences, surroundings_of as seen_by, workspace};
ghost use Rattle.b2_stmt_mat.specs.Arrays as arrays;
ghost use Rattle.b2_stmt_mat.specs.Arrays.{AnswersBy, IsArrayIn, IsArrayOf, all_bytes, families, named_bytes};
ghost use Rattle.b2_stmt_mat.specs.ByteArrays as spec;
ghost use Rattle.b2_stmt_mat.specs.ByteArrays.{byte_items};

use crate::arrays::{array_at, bytes_of, put_all_bytes, refuse_fault, shape_of, vars_of};
use b2_base::codes::P43_SHAPES;
use b2_base::lexical::{first_bytes, rest_after};
use b2_base::{Code, Fault, NoMemory};
use b2_dec::Kind;
use b2_expr::{Env, Workspace, surroundings_of};
use b2_matalpha::{copy, move_by, sort_locators};
use b2_receiver::Array;
use b2_vars::{Var, Vars};
use std::alloc::Global;

/// How many bytes of an array a place of two bytes can name.
pub const NAMED_BYTES: usize = 65_535;

/// What MAT MOVE asks for: the array whose elements are moved, the locators that name them, and where they go.
#[derive(Clone, Copy)]
pub struct ArrayMove {
    pub of: Array,
    pub locators: Array,
    pub to: Array,
}

/// What MAT SORT asks for: the array whose elements are ordered, and where their locators go.
#[derive(Clone, Copy)]
pub struct ArraySort {
    pub of: Array,
    pub to: Array,
}

/// What MAT COPY asks for.
#[derive(Clone, Copy)]
pub struct ArrayCopy {
    pub of: Array,
    pub to: Array,
}

/// The whole array of alpha values at a text, and what stands after it. P59 where it isn't there.
#[tactic(auto, using(crate::proofs::ByteArrayRows::array_name, crate::proofs::ByteArrayRows::array_is, crate::proofs::ByteArrayRows::array_rest))]
fn whole_at<'t>(e: &Env<'_>, text: &'t [u8]) -> Result<(Array, &'t [u8]), Code>
    requires phrase { is_phrase row.ALPHA_ARRAY text.now ≡ true }
    ensures array { Gives (spec.bytes_in (in_statement (surroundings e.now)) (tree_at row.ALPHA_ARRAY text.now)) (after_phrase row.ALPHA_ARRAY text.now) result }
    ensures there { IfOk result (λ p. IsArrayIn true p.0 (families (surroundings e.now))) }
{
    match array_at(e, Kind::Alpha, text) {
        Ok((array, rest)) => Ok((array, rest_after(rest, 2))),
        Err(code) => Err(code),
    }
}

/// What MAT MOVE asks for, or the first code from the left.
#[tactic(auto, using(crate::proofs::ByteArrayRows::move_of, crate::proofs::ByteArrayRows::move_locators, crate::proofs::ByteArrayRows::move_to, crate::proofs::ByteArrayRows::move_is))]
fn move_at(e: &Env<'_>, unit: &[u8]) -> Result<ArrayMove, Code>
    requires phrase { is_phrase row.MAT_MOVE unit.now ≡ true }
    ensures asked { result ≡ spec.move_in (in_statement (surroundings e.now)) (tree_at row.MAT_MOVE unit.now) }
    ensures of { IfOk result (λ m. IsArrayIn true m.of (families (surroundings e.now))) }
    ensures locators { IfOk result (λ m. IsArrayIn true m.locators (families (surroundings e.now))) }
    ensures to { IfOk result (λ m. IsArrayIn true m.to (families (surroundings e.now))) }
{
    let (of, rest) = match whole_at(e, rest_after(rest_after(unit, 1), 1)) {
        Ok(found) => found,
        Err(code) => return Err(code),
    };
    let (locators, rest) = match whole_at(e, rest_after(rest, 1)) {
        Ok(found) => found,
        Err(code) => return Err(code),
    };
    match whole_at(e, rest_after(rest, 1)) {
        Ok((to, _)) => Ok(ArrayMove { of, locators, to }),
        Err(code) => Err(code),
    }
}

/// What MAT SORT asks for, or the first code from the left. Its work array has to be there and isn't used.
#[tactic(auto, using(crate::proofs::ByteArrayRows::sort_of, crate::proofs::ByteArrayRows::sort_work, crate::proofs::ByteArrayRows::sort_to, crate::proofs::ByteArrayRows::sort_is))]
fn sort_at(e: &Env<'_>, unit: &[u8]) -> Result<ArraySort, Code>
    requires phrase { is_phrase row.MAT_SORT unit.now ≡ true }
    ensures asked { result ≡ spec.sort_in (in_statement (surroundings e.now)) (tree_at row.MAT_SORT unit.now) }
    ensures of { IfOk result (λ m. IsArrayIn true m.of (families (surroundings e.now))) }
    ensures to { IfOk result (λ m. IsArrayIn true m.to (families (surroundings e.now))) }
{
    let (of, rest) = match whole_at(e, rest_after(rest_after(unit, 1), 1)) {
        Ok(found) => found,
        Err(code) => return Err(code),
    };
    let (_work, rest) = match whole_at(e, rest_after(rest, 1)) {
        Ok(found) => found,
        Err(code) => return Err(code),
    };
    match whole_at(e, rest_after(rest, 1)) {
        Ok((to, _)) => Ok(ArraySort { of, to }),
        Err(code) => Err(code),
    }
}

/// What MAT COPY asks for, or the first code from the left.
#[tactic(auto, using(crate::proofs::ByteArrayRows::copy_of, crate::proofs::ByteArrayRows::copy_to, crate::proofs::ByteArrayRows::copy_is))]
fn copy_at(e: &Env<'_>, unit: &[u8]) -> Result<ArrayCopy, Code>
    requires phrase { is_phrase row.MAT_COPY unit.now ≡ true }
    ensures asked { result ≡ spec.copy_in (in_statement (surroundings e.now)) (tree_at row.MAT_COPY unit.now) }
    ensures of { IfOk result (λ m. IsArrayIn true m.of (families (surroundings e.now))) }
    ensures to { IfOk result (λ m. IsArrayIn true m.to (families (surroundings e.now))) }
{
    let (of, rest) = match whole_at(e, rest_after(rest_after(unit, 1), 1)) {
        Ok(found) => found,
        Err(code) => return Err(code),
    };
    match whole_at(e, rest_after(rest, 1)) {
        Ok((to, _)) => Ok(ArrayCopy { of, to }),
        Err(code) => Err(code),
    }
}

/// The bytes of an array that a place of two bytes can name.
fn named_bytes_of(vars: &Vars, v: Var) -> &[u8]
    requires there { IsArrayOf true v vars.now.table }
    ensures bytes { result.now ≡ named_bytes (arrays.bytes_of v vars.now.table) }
    ensures short { length result.now ≤ 65535 }
{
    first_bytes(bytes_of(vars, v), NAMED_BYTES)
}

/// The length of the values of an array.
#[tactic(auto, using(crate::proofs::ArraysThere::some_length))]
fn length_of(vars: &Vars, v: Var) -> usize
    requires there { IsArrayOf true v vars.now.table }
    ensures value { result ≡ (shape_at v vars.now.table).len }
    ensures some { 0 < result }
{
    usize::from(shape_of(vars, v).len)
}

/// The bytes of all values of an array, in memory of their own.
fn bytes_copied(alloc: Global, vars: &Vars, v: Var) -> Result<Vec<u8>, NoMemory>
    requires there { IsArrayOf true v vars.now.table }
    ensures { IfOk result (λ bytes. bytes.items ≡ arrays.bytes_of v vars.now.table) }
{
    let bytes = Vec::from_slice(alloc, bytes_of(vars, v))?;
    Ok(bytes)
}

/// Moves elements into bytes. The code with which that ended, or none; the elements before a locator that is past the array stay
/// moved.
fn move_into(e: &Env<'_>, asked: &ArrayMove, made: &mut [u8]) -> Option<Code>
    requires of { IsArrayIn true asked.now.of (families (surroundings e.now)) }
    requires locators { IsArrayIn true asked.now.locators (families (surroundings e.now)) }
    requires to { IsArrayIn true asked.now.to (families (surroundings e.now)) }
    requires old { made.old ≡ all_bytes asked.now.to (families (surroundings e.now)) }
    ensures code { result ≡ spec.move_code asked.now (families (surroundings e.now)) }
    ensures bytes { made.new ≡ spec.bytes_moved asked.now (families (surroundings e.now)) }
{
    let of = vars_of(e, asked.of.global);
    let locators = vars_of(e, asked.locators.global);
    let to = vars_of(e, asked.to.global);
    let ended = move_by(
        named_bytes_of(of, asked.of.var),
        length_of(of, asked.of.var),
        bytes_of(locators, asked.locators.var),
        made,
        length_of(to, asked.to.var),
    );
    ended.err()
}

/// Moves elements. The code with which that ended, or none.
#[tactic(auto, using(crate::proofs::Put::moved_put))]
fn move_elements(
    alloc: Global,
    work: &mut Workspace<'_>,
    asked: &ArrayMove,
) -> Result<Option<Code>, NoMemory>
    requires of { IsArrayIn true asked.now.of (families (seen_by (workspace work.old))) }
    requires locators { IsArrayIn true asked.now.locators (families (seen_by (workspace work.old))) }
    requires to { IsArrayIn true asked.now.to (families (seen_by (workspace work.old))) }
    ensures worked { IfOk result (λ code. record { work = workspace work.new; code = code } ≡ spec.moves_found (Ok asked.now) (workspace work.old)) }
    ensures same_references { SameReferences work.old work.new }
{
    let e = surroundings_of(work);
    let mut made = bytes_copied(alloc, vars_of(&e, asked.to.global), asked.to.var)?;
    let code = move_into(&e, asked, &mut made);
    Ok(put_all_bytes(work, &asked.to, &made, code))
}

/// The locators of the elements of an array in order, at the front of the bytes of another. P43 where its values aren't two
/// bytes long or there is no room.
#[tactic(auto, using(crate::proofs::Put::sort_answered))]
fn sorted_bytes(alloc: Global, e: &Env<'_>, asked: &ArraySort) -> Result<Vec<u8>, Fault>
    requires of { IsArrayIn true asked.now.of (families (surroundings e.now)) }
    requires to { IsArrayIn true asked.now.to (families (surroundings e.now)) }
    ensures answer { AnswersBy byte_items (spec.sorted_bytes asked.now (families (surroundings e.now))) result }
    ensures count { IfOk result (λ bytes. length bytes.items ≡ length (all_bytes asked.now.to (families (surroundings e.now)))) }
{
    let of = vars_of(e, asked.of.global);
    let to = vars_of(e, asked.to.global);
    if length_of(to, asked.to.var) != 2 {
        return Err(Fault::Code(Code::known(P43_SHAPES)));
    }
    let mut made = bytes_copied(alloc, to, asked.to.var)?;
    let len = length_of(of, asked.of.var);
    match sort_locators(alloc, named_bytes_of(of, asked.of.var), len, &mut made) {
        Ok(()) => Ok(made),
        Err(fault) => Err(fault),
    }
}

/// Orders elements. The code with which that ended, or none; with one nothing changed.
#[tactic(auto, using(crate::proofs::Put::sort_refused))]
fn sort_elements(
    alloc: Global,
    work: &mut Workspace<'_>,
    asked: &ArraySort,
) -> Result<Option<Code>, NoMemory>
    requires of { IsArrayIn true asked.now.of (families (seen_by (workspace work.old))) }
    requires to { IsArrayIn true asked.now.to (families (seen_by (workspace work.old))) }
    ensures worked { IfOk result (λ code. record { work = workspace work.new; code = code } ≡ spec.sorts_found (Ok asked.now) (workspace work.old)) }
    ensures same_references { SameReferences work.old work.new }
{
    match sorted_bytes(alloc, &surroundings_of(work), asked) {
        Ok(made) => Ok(put_all_bytes(work, &asked.to, &made, None)),
        Err(fault) => refuse_fault(work, asked.to.global, fault),
    }
}

/// Copies the bytes of an array as one alpha value.
fn copied_bytes(alloc: Global, e: &Env<'_>, asked: &ArrayCopy) -> Result<Vec<u8>, NoMemory>
    requires of { IsArrayIn true asked.now.of (families (surroundings e.now)) }
    requires to { IsArrayIn true asked.now.to (families (surroundings e.now)) }
    ensures bytes { IfOk result (λ bytes. bytes.items ≡ spec.bytes_copied asked.now (families (surroundings e.now))) }
    ensures count { IfOk result (λ bytes. length bytes.items ≡ length (all_bytes asked.now.to (families (surroundings e.now)))) }
{
    let mut made = bytes_copied(alloc, vars_of(e, asked.to.global), asked.to.var)?;
    copy(
        bytes_of(vars_of(e, asked.of.global), asked.of.var),
        &mut made,
    );
    Ok(made)
}

/// Copies an array as one alpha value.
fn copy_elements(
    alloc: Global,
    work: &mut Workspace<'_>,
    asked: &ArrayCopy,
) -> Result<Option<Code>, NoMemory>
    requires of { IsArrayIn true asked.now.of (families (seen_by (workspace work.old))) }
    requires to { IsArrayIn true asked.now.to (families (seen_by (workspace work.old))) }
    ensures worked { IfOk result (λ code. record { work = workspace work.new; code = code } ≡ spec.copies_found (Ok asked.now) (workspace work.old)) }
    ensures same_references { SameReferences work.old work.new }
{
    let made = copied_bytes(alloc, &surroundings_of(work), asked)?;
    Ok(put_all_bytes(work, &asked.to, &made, None))
}

/// MAT MOVE: moves the elements that locators name. The code with which that ended, or none.
pub fn move_array(
    alloc: Global,
    work: &mut Workspace<'_>,
    unit: &[u8],
) -> Result<Option<Code>, NoMemory>
    requires phrase { is_phrase row.MAT_MOVE unit.now ≡ true }
    ensures worked { IfOk result (λ code. record { work = workspace work.new; code = code } ≡ spec.moves (tree_at row.MAT_MOVE unit.now) (workspace work.old)) }
    ensures same_references { SameReferences work.old work.new }
{
    match move_at(&surroundings_of(work), unit) {
        Ok(asked) => move_elements(alloc, work, &asked),
        Err(code) => Ok(Some(code)),
    }
}

/// MAT SORT: the locators of an array's elements in order. The code with which that ended, or none.
pub fn sort_array(
    alloc: Global,
    work: &mut Workspace<'_>,
    unit: &[u8],
) -> Result<Option<Code>, NoMemory>
    requires phrase { is_phrase row.MAT_SORT unit.now ≡ true }
    ensures worked { IfOk result (λ code. record { work = workspace work.new; code = code } ≡ spec.sorts (tree_at row.MAT_SORT unit.now) (workspace work.old)) }
    ensures same_references { SameReferences work.old work.new }
{
    match sort_at(&surroundings_of(work), unit) {
        Ok(asked) => sort_elements(alloc, work, &asked),
        Err(code) => Ok(Some(code)),
    }
}

/// MAT COPY: copies an array as one alpha value. The code with which that ended, or none.
pub fn copy_array(
    alloc: Global,
    work: &mut Workspace<'_>,
    unit: &[u8],
) -> Result<Option<Code>, NoMemory>
    requires phrase { is_phrase row.MAT_COPY unit.now ≡ true }
    ensures worked { IfOk result (λ code. record { work = workspace work.new; code = code } ≡ spec.copies (tree_at row.MAT_COPY unit.now) (workspace work.old)) }
    ensures same_references { SameReferences work.old work.new }
{
    match copy_at(&surroundings_of(work), unit) {
        Ok(asked) => copy_elements(alloc, work, &asked),
        Err(code) => Ok(Some(code)),
    }
}
