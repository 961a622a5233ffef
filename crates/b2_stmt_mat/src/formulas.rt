// The right sides of MAT: what an array of numbers is made of.
ghost use Rattle.std.specs.Prelude.{◌≡◌, true, false, IfOk};
ghost use Rattle.b2_base.specs.Lexical.{first};
ghost use Rattle.b2_atom.specs.Grammar.{is_among};
ghost use Rattle.b2_atom.specs.declared.rows.TheConstants as row;
ghost use Rattle.b2_atom.specs.declared.words.TheConstants as word;
ghost use Rattle.b2_rows.specs.Rows.{is_phrase, tree_at};
ghost use Rattle.b2_expr.specs.Scope.{surroundings};
ghost use Rattle.b2_expr.specs.Value.{in_statement};
ghost use Rattle.b2_stmt_mat.specs.Arrays.{IsArrayIn, families};
ghost use Rattle.b2_stmt_mat.specs.Formulas as spec;
ghost use Rattle.b2_stmt_mat.specs.Formulas.{AreThere};

use crate::arrays::array_at;
use b2_atom::words::{CON, IDN, TRN_OPEN, ZER};
use b2_base::Code;
use b2_base::lexical::{first, rest_after};
use b2_dec::{Dec, Kind};
use b2_dims::{Dimensions, dimensions_at, number_at};
use b2_expr::Env;
use b2_matrix::{Fill, MatOp};
use b2_receiver::Array;
use b2_rows::is_at;

/// What an array of numbers is made of.
#[derive(Clone, Copy)]
pub enum Formula {
    /// A multiple of an array.
    Scaled(Dec, Array),
    /// An array transposed.
    Transposed(Array),
    /// Ones, zeros or the unit matrix, with the dimensions that are written.
    Filled(Fill, Option<Dimensions>),
    /// An array as it is.
    Copied(Array),
    /// The sum, the difference or the product of two arrays.
    Combined(MatOp, Array, Array),
}

/// What MAT asks for: the array that is assigned, and what it is made of.
#[derive(Clone, Copy)]
pub struct MatrixAssignment {
    pub to: Array,
    pub made_of: Formula,
}

/// A multiple: the number, and then the array.
#[tactic(auto, using(crate::proofs::FormulaRows::scaled_sum, crate::proofs::FormulaRows::scaled_name, crate::proofs::FormulaRows::scaled_is))]
fn scaled_at(e: &Env<'_>, text: &[u8]) -> Result<Formula, Code>
    requires phrase { is_phrase row.SCALED text.now ≡ true }
    ensures made_of { result ≡ spec.scaled_in (in_statement (surroundings e.now)) (tree_at row.SCALED text.now) }
    ensures there { IfOk result (λ f. AreThere f (families (surroundings e.now))) }
{
    let (k, after) = match number_at(e, rest_after(text, 1)) {
        Ok(found) => found,
        Err(code) => return Err(code),
    };
    match array_at(e, Kind::Number, rest_after(after, 2)) {
        Ok((array, _)) => Ok(Formula::Scaled(k, array)),
        Err(code) => Err(code),
    }
}

/// An array transposed.
#[tactic(auto, using(crate::proofs::FormulaRows::transposed_name, crate::proofs::FormulaRows::transposed_is))]
fn transposed_at(e: &Env<'_>, text: &[u8]) -> Result<Formula, Code>
    requires phrase { is_phrase row.TRANSPOSED text.now ≡ true }
    ensures made_of { result ≡ spec.transposed_in (in_statement (surroundings e.now)) (tree_at row.TRANSPOSED text.now) }
    ensures there { IfOk result (λ f. AreThere f (families (surroundings e.now))) }
{
    match array_at(e, Kind::Number, rest_after(text, 1)) {
        Ok((array, _)) => Ok(Formula::Transposed(array)),
        Err(code) => Err(code),
    }
}

/// What a word fills an array with.
fn fill_of(word: u8) -> Fill
    ensures { result ≡ spec.fill_of word }
{
    if word == CON {
        Fill::Con
    } else if word == ZER {
        Fill::Zer
    } else {
        Fill::Idn
    }
}

/// CON, ZER or IDN, with dimensions or without.
#[tactic(auto, using(crate::proofs::FormulaRows::filled_dimensions, crate::proofs::FormulaRows::filled_with_dimensions, crate::proofs::FormulaRows::filled_without))]
fn filled_at(e: &Env<'_>, text: &[u8]) -> Result<Formula, Code>
    requires phrase { is_phrase row.FILLED text.now ≡ true }
    ensures made_of { result ≡ spec.filled_in (in_statement (surroundings e.now)) (tree_at row.FILLED text.now) }
    ensures there { IfOk result (λ f. AreThere f (families (surroundings e.now))) }
{
    let with = fill_of(first(text));
    let after = rest_after(text, 1);
    if !is_at(b'(', after) {
        return Ok(Formula::Filled(with, None));
    }
    match dimensions_at(e, after) {
        Ok((dimensions, _)) => Ok(Formula::Filled(with, Some(dimensions))),
        Err(code) => Err(code),
    }
}

/// What a sign combines two arrays by.
fn op_of(sign: u8) -> MatOp
    ensures { result ≡ spec.op_of sign }
{
    match sign {
        b'*' => MatOp::Mul,
        b'+' => MatOp::Add,
        _ => MatOp::Sub,
    }
}

/// The second array of a sum, a difference or a product, after its sign.
#[tactic(auto, using(crate::proofs::FormulaRows::second_name, crate::proofs::FormulaRows::second_is))]
fn second_at(e: &Env<'_>, b: Array, text: &[u8]) -> Result<Formula, Code>
    requires phrase { is_phrase row.SECOND_MATRIX text.now ≡ true }
    requires first { IsArrayIn false b (families (surroundings e.now)) }
    ensures made_of { result ≡ spec.second_in (in_statement (surroundings e.now)) b (tree_at row.SECOND_MATRIX text.now) }
    ensures there { IfOk result (λ f. AreThere f (families (surroundings e.now))) }
{
    match array_at(e, Kind::Number, rest_after(text, 1)) {
        Ok((c, _)) => Ok(Formula::Combined(op_of(first(text)), b, c)),
        Err(code) => Err(code),
    }
}

/// Whether the sign of a second array stands at a text.
fn has_second(text: &[u8]) -> bool
    ensures { result ≡ spec.has_second text.now }
{
    matches!(first(text), b'*' | b'+' | b'-')
}

/// One array, or two with a sign between them.
#[tactic(auto, using(crate::proofs::FormulaRows::first_name, crate::proofs::FormulaRows::first_refused, crate::proofs::FormulaRows::second_here, crate::proofs::FormulaRows::one_is, crate::proofs::FormulaRows::two_are))]
fn matrices_at(e: &Env<'_>, text: &[u8]) -> Result<Formula, Code>
    requires phrase { is_phrase row.MATRICES text.now ≡ true }
    ensures made_of { result ≡ spec.matrices_in (in_statement (surroundings e.now)) (tree_at row.MATRICES text.now) }
    ensures there { IfOk result (λ f. AreThere f (families (surroundings e.now))) }
{
    let (array, after) = match array_at(e, Kind::Number, text) {
        Ok(found) => found,
        Err(code) => return Err(code),
    };
    if has_second(after) {
        return second_at(e, array, after);
    }
    Ok(Formula::Copied(array))
}

/// Whether CON, ZER or IDN stands at a text.
fn is_constant_at(text: &[u8]) -> bool
    ensures { result ≡ is_among word.CON word.IDN (first text.now) }
{
    let word = first(text);
    CON <= word && word <= IDN
}

/// What is none of a multiple and TRN.
#[tactic(auto, using(crate::proofs::FormulaRows::constant_here, crate::proofs::FormulaRows::constant_is, crate::proofs::FormulaRows::matrices_here, crate::proofs::FormulaRows::matrices_are))]
fn but_transposed_at(e: &Env<'_>, text: &[u8]) -> Result<Formula, Code>
    requires phrase { is_phrase row.MATRIX_BUT_TRANSPOSED text.now ≡ true }
    ensures made_of { result ≡ spec.but_transposed_in (in_statement (surroundings e.now)) (tree_at row.MATRIX_BUT_TRANSPOSED text.now) }
    ensures there { IfOk result (λ f. AreThere f (families (surroundings e.now))) }
{
    if is_constant_at(text) {
        filled_at(e, text)
    } else {
        matrices_at(e, text)
    }
}

/// What is no multiple.
#[tactic(auto, using(crate::proofs::FormulaRows::trn_here, crate::proofs::FormulaRows::trn_is, crate::proofs::FormulaRows::no_trn_here, crate::proofs::FormulaRows::no_trn_is))]
fn but_scaled_at(e: &Env<'_>, text: &[u8]) -> Result<Formula, Code>
    requires phrase { is_phrase row.MATRIX_BUT_SCALED text.now ≡ true }
    ensures made_of { result ≡ spec.but_scaled_in (in_statement (surroundings e.now)) (tree_at row.MATRIX_BUT_SCALED text.now) }
    ensures there { IfOk result (λ f. AreThere f (families (surroundings e.now))) }
{
    if is_at(TRN_OPEN, text) {
        transposed_at(e, text)
    } else {
        but_transposed_at(e, text)
    }
}

/// What MAT asks for: the array that is assigned, and then what it is made of; or the first code from the left.
#[tactic(auto, using(crate::proofs::FormulaRows::result_name, crate::proofs::FormulaRows::result_refused, crate::proofs::FormulaRows::multiple_here, crate::proofs::FormulaRows::multiple_is, crate::proofs::FormulaRows::no_multiple_here, crate::proofs::FormulaRows::no_multiple_is))]
pub fn assignment_at(e: &Env<'_>, unit: &[u8]) -> Result<MatrixAssignment, Code>
    requires phrase { is_phrase row.MAT unit.now ≡ true }
    ensures asked { result ≡ spec.assignment_in (in_statement (surroundings e.now)) (tree_at row.MAT unit.now) }
    ensures to { IfOk result (λ a. IsArrayIn false a.to (families (surroundings e.now))) }
    ensures there { IfOk result (λ a. AreThere a.made_of (families (surroundings e.now))) }
{
    let (to, after) = match array_at(e, Kind::Number, rest_after(unit, 1)) {
        Ok(found) => found,
        Err(code) => return Err(code),
    };
    let text = rest_after(after, 1);
    let made_of = if is_at(b'(', text) {
        scaled_at(e, text)
    } else {
        but_scaled_at(e, text)
    };
    match made_of {
        Ok(made_of) => Ok(MatrixAssignment { to, made_of }),
        Err(code) => Err(code),
    }
}
