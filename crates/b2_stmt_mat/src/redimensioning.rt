// MAT REDIM: another shape for an array.
ghost use Rattle.std.specs.Prelude.{◌≡◌, true, drop, IfOk};
ghost use Rattle.b2_atom.specs.declared.rows.TheConstants as row;
ghost use Rattle.b2_atom.specs.Leaves.{leaf_width};
ghost use Rattle.b2_atom.specs.declared.words.Origin.TheVariants.{Atoms};
ghost use Rattle.b2_rows.specs.Rows.{is_phrase, tree_at};
ghost use Rattle.b2_rows.specs.Leaves.{is_leaf, leaf_bytes};
ghost use Rattle.b2_receiver.specs.Receivers.{array_leaf, is_alpha_array};
ghost use Rattle.b2_vars.specs.Names.{is_legal_name};
ghost use Rattle.b2_expr.specs.Scope.{surroundings};
ghost use Rattle.b2_expr.specs.Value.{in_statement};
ghost use Rattle.b2_expr.specs.Workspace.{SameReferences, among, workspace};
ghost use Rattle.b2_stmt_mat.specs.Redimensioning as spec;

use crate::arrays::{array_at, shape_of, vars_of};
use b2_base::codes::X77_NO_PARTITION;
use b2_base::lexical::rest_after;
use b2_base::{Code, NoMemory};
use b2_dec::Kind;
use b2_dims::array_shape_at;
use b2_expr::{Env, Workspace, reached_after, surroundings_of};
use b2_receiver::Array;
use b2_rows::is_alpha_at;
use b2_vars::Shape;

/// What MAT REDIM asks for: an array, and its shape from then on.
#[derive(Clone, Copy)]
pub struct Redimensioned {
    pub array: Array,
    pub shape: Shape,
}

/// Whether the values of arrays of a kind are bytes.
fn is_alpha(kind: Kind) -> bool
    ensures { result ≡ is_alpha_array kind }
{
    match kind {
        Kind::Number => false,
        Kind::Alpha => true,
    }
}

/// What MAT REDIM asks for at the name of an array of a kind, or the first code.
fn redimensioned_of(e: &Env<'_>, kind: Kind, text: &[u8]) -> Result<Redimensioned, Code>
    requires named { is_leaf (array_leaf kind) text.now ≡ true }
    requires phrase { is_phrase row.SUBSCRIPTS_AND_LENGTH (drop (leaf_width Atoms (array_leaf kind) text.now) text.now) ≡ true }
    ensures asked { result ≡ spec.redimensioned_of (in_statement (surroundings e.now)) (is_alpha_array kind) (leaf_bytes (array_leaf kind) text.now) (tree_at row.SUBSCRIPTS_AND_LENGTH (drop (leaf_width Atoms (array_leaf kind) text.now) text.now)) }
    ensures named { IfOk result (λ r. is_legal_name r.array.var ≡ true) }
{
    let (array, after) = match array_at(e, kind, text) {
        Ok(found) => found,
        Err(code) => return Err(code),
    };
    let len = shape_of(vars_of(e, array.global), array.var).len;
    match array_shape_at(e, len, is_alpha(kind), after) {
        Ok((shape, _)) => Ok(Redimensioned { array, shape }),
        Err(code) => Err(code),
    }
}

/// What MAT REDIM asks for, or the first code from the left.
#[tactic(auto, using(crate::proofs::RedimensionRows::alpha_leaf, crate::proofs::RedimensionRows::alpha_shape, crate::proofs::RedimensionRows::alpha_is, crate::proofs::RedimensionRows::number_leaf, crate::proofs::RedimensionRows::number_shape, crate::proofs::RedimensionRows::number_is))]
fn redimensioned_at(e: &Env<'_>, unit: &[u8]) -> Result<Redimensioned, Code>
    requires phrase { is_phrase row.MAT_REDIM unit.now ≡ true }
    ensures asked { result ≡ spec.redimensioned_in (in_statement (surroundings e.now)) (tree_at row.MAT_REDIM unit.now) }
    ensures named { IfOk result (λ r. is_legal_name r.array.var ≡ true) }
{
    let text = rest_after(rest_after(unit, 1), 1);
    if is_alpha_at(text) {
        redimensioned_of(e, Kind::Alpha, text)
    } else {
        redimensioned_of(e, Kind::Number, text)
    }
}

/// Gives an array another shape. The code with which that ended, or none.
#[tactic(auto, using(crate::proofs::Written::kept_work, crate::proofs::Written::kept_lent))]
fn redimension_asked(work: &mut Workspace<'_>, asked: Redimensioned) -> Option<Code>
    requires named { is_legal_name asked.array.var ≡ true }
    ensures worked { record { work = workspace work.new; code = result } ≡ among asked.array.global (spec.redimensioned asked) (workspace work.old) }
    ensures same_references { SameReferences work.old work.new }
{
    if !asked.array.global {
        let ended = work.own.redim(asked.array.var, asked.shape);
        return ended.err();
    }
    if !work.found {
        return Some(Code::known(X77_NO_PARTITION));
    }
    let ended = work.globals.redim(asked.array.var, asked.shape);
    let code = ended.err();
    work.reached = reached_after(work.reached, &code);
    code
}

/// MAT REDIM: gives an array another shape. The code with which that ended, or none.
pub fn redimension(work: &mut Workspace<'_>, unit: &[u8]) -> Option<Code>
    requires phrase { is_phrase row.MAT_REDIM unit.now ≡ true }
    ensures worked { record { work = workspace work.new; code = result } ≡ spec.redimensions (tree_at row.MAT_REDIM unit.now) (workspace work.old) }
    ensures same_references { SameReferences work.old work.new }
{
    match redimensioned_at(&surroundings_of(work), unit) {
        Ok(asked) => redimension_asked(work, asked),
        Err(code) => Some(code),
    }
}
