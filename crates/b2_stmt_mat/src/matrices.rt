// What MAT makes of a right side, and assigning it.
ghost use Rattle.std.specs.Prelude.{◌≡◌, ◌<◌, ◌*◌, MatchResult, Err, true, false, List, [], length, IfOk, OnOk, Ok, None};
ghost use Rattle.b2_atom.specs.declared.rows.TheConstants as row;
ghost use Rattle.b2_rows.specs.Rows.{is_phrase, tree_at};
ghost use Rattle.b2_vars.specs.Shapes.{cells, has_dimensions};
ghost use Rattle.b2_vars.specs.Tables.{shape_at, variable_at};
ghost use Rattle.b2_expr.specs.Scope.{surroundings};
ghost use Rattle.b2_expr.specs.Workspace.{SameReferences, among, surroundings_of as seen_by, workspace};
ghost use Rattle.b2_matrix.specs.Answers as answers;
ghost use Rattle.b2_matrix.specs.Answers.{suit};
ghost use Rattle.b2_matrix.specs.Arrays.{columns_of, elements, multiples};
ghost use Rattle.b2_stmt_mat.specs.Arrays.{AnswersBy, IsArrayIn, IsArrayOf, families, lent_as, matrix_of, shape_in, vars_of as vars_in};
ghost use Rattle.b2_stmt_mat.specs.Formulas.{AreThere};
ghost use Rattle.b2_stmt_mat.specs.Matrices as spec;
ghost use Rattle.b2_stmt_mat.specs.Matrices.{items_seen, made_seen};

use crate::arrays::{cell_count, numbers_of, put_numbers, refuse_fault, shape_of, vars_of, zeros};
use crate::formulas::{Formula, MatrixAssignment, assignment_at};
use b2_base::codes::{P43_SHAPES, P45_OPERAND_IS_RESULT, P50_DIMENSION, X77_NO_PARTITION};
use b2_base::{Code, Fault, NoMemory};
use b2_dec::{Dec, Mode};
use b2_dims::Dimensions;
use b2_expr::{Env, Workspace, reached_after, surroundings_of};
use b2_matrix::{Fill, Mat, MatOp, combine, fill, scale, transpose};
use b2_receiver::Array;
use b2_vars::{LONGEST_ARRAY, Shape, Var, Vars, WIDEST_ARRAY};
use std::alloc::Global;

/// What MAT has made: its dimensions, and its numbers along rows.
#[derive(Drop)]
pub struct MadeMatrix {
    pub dimensions: Dimensions,
    pub numbers: Vec<Dec>,
}

/// Whether two names are those of one array of numbers.
fn is_same_array(a: Array, b: Array) -> bool
    ensures { result ≡ spec.is_same_array a b }
{
    a.var.letter == b.var.letter
        && match (a.var.digit, b.var.digit) {
            (None, None) => true,
            (Some(x), Some(y)) => x == y,
            _ => false,
        }
        && a.global == b.global
}

/// Whether the result is an operand of a product or of TRN.
fn is_own_operand(made_of: &Formula, to: Array) -> bool
    ensures { result ≡ spec.is_own_operand made_of.now to }
{
    match made_of {
        Formula::Transposed(b) => is_same_array(*b, to),
        Formula::Combined(MatOp::Mul, b, c) => is_same_array(*b, to) || is_same_array(*c, to),
        _ => false,
    }
}

/// How many columns an array of this shape has, 1 where it has one dimension.
fn columns_of_shape(shape: Shape) -> u16
    ensures value { result ≡ columns_of shape.cols }
{
    shape.cols.max(1)
}

/// Whether arrays of these shapes go together.
fn suit(op: MatOp, b: Shape, c: Shape) -> bool
    ensures { result ≡ answers.suit op (lent_as b []) (lent_as c []) }
{
    match op {
        MatOp::Add | MatOp::Sub => b.rows == c.rows && columns_of_shape(b) == columns_of_shape(c),
        MatOp::Mul => columns_of_shape(b) == c.rows,
    }
}

/// The shape of an array that is there.
fn shape_found(e: &Env<'_>, array: &Array) -> Shape
    requires there { IsArrayIn false array.now (families (surroundings e.now)) }
    ensures { result ≡ shape_in array.now (families (surroundings e.now)) }
{
    shape_of(vars_of(e, array.global), array.var)
}

/// Whether the shapes of the arrays of a right side don't go together.
fn differs(e: &Env<'_>, made_of: &Formula) -> bool
    requires there { AreThere made_of.now (families (surroundings e.now)) }
    ensures { result ≡ spec.differs made_of.now (families (surroundings e.now)) }
{
    match made_of {
        Formula::Combined(op, b, c) => { !suit(*op, shape_found(e, b), shape_found(e, c)) },
        _ => false,
    }
}

/// The dimensions of a shape.
fn dimensions_of(shape: Shape) -> Dimensions
    ensures { result ≡ record { rows = shape.rows; cols = shape.cols } }
{
    Dimensions {
        rows: shape.rows,
        cols: shape.cols,
    }
}

/// The dimensions of a sum, a difference or a product.
fn combined_dimensions(op: MatOp, b: Shape, c: Shape) -> Dimensions
    ensures { result ≡ spec.combined_dimensions op (lent_as b []) (lent_as c []) }
{
    match op {
        MatOp::Add | MatOp::Sub => dimensions_of(b),
        MatOp::Mul => Dimensions {
            rows: b.rows,
            cols: columns_of_shape(c),
        },
    }
}

/// The dimensions of an array that is transposed.
fn transposed_dimensions(b: Shape) -> Dimensions
    ensures { result ≡ record { rows = columns_of b.cols; cols = b.rows } }
{
    Dimensions {
        rows: columns_of_shape(b),
        cols: b.rows,
    }
}

/// The dimensions of the result.
fn dimensions_made(e: &Env<'_>, made_of: &Formula, to: Array) -> Dimensions
    requires to { IsArrayIn false to (families (surroundings e.now)) }
    requires there { AreThere made_of.now (families (surroundings e.now)) }
    ensures { result ≡ spec.dimensions_made made_of.now to (families (surroundings e.now)) }
{
    match made_of {
        Formula::Scaled(_, b) | Formula::Copied(b) => dimensions_of(shape_found(e, b)),
        Formula::Transposed(b) => transposed_dimensions(shape_found(e, b)),
        Formula::Filled(_, Some(dimensions)) => *dimensions,
        Formula::Filled(_, None) => dimensions_of(shape_found(e, &to)),
        Formula::Combined(op, b, c) => {
            combined_dimensions(*op, shape_found(e, b), shape_found(e, c))
        }
    }
}

/// The shape of an array of numbers with these dimensions.
fn shape_with(dimensions: Dimensions) -> Shape
    ensures { result ≡ spec.shape_with dimensions }
{
    Shape {
        rows: dimensions.rows,
        cols: dimensions.cols,
        len: 0,
    }
}

/// Whether an array may have this shape.
fn is_allowed(to: Var, shape: Shape) -> bool
    requires array { to.array ≡ true }
    ensures { result ≡ has_dimensions to shape }
{
    let most_rows = if shape.cols == 0 {
        LONGEST_ARRAY
    } else {
        WIDEST_ARRAY
    };
    1 <= shape.rows && shape.rows <= most_rows && shape.cols <= WIDEST_ARRAY
}

/// The code that comes before any number is made: P45, P43, P50 and P43, in this order.
fn refusal(e: &Env<'_>, asked: &MatrixAssignment, shape: Shape) -> Option<Code>
    requires to { IsArrayIn false asked.now.to (families (surroundings e.now)) }
    requires there { AreThere asked.now.made_of (families (surroundings e.now)) }
    requires shape { shape ≡ spec.shape_with (spec.dimensions_made asked.now.made_of asked.now.to (families (surroundings e.now))) }
    ensures { result ≡ spec.refusal asked.now.made_of asked.now.to (families (surroundings e.now)) }
{
    if is_own_operand(&asked.made_of, asked.to) {
        return Some(Code::known(P45_OPERAND_IS_RESULT));
    }
    if differs(e, &asked.made_of) {
        return Some(Code::known(P43_SHAPES));
    }
    if !is_allowed(asked.to.var, shape) {
        return Some(Code::known(P50_DIMENSION));
    }
    if cell_count(shape_found(e, &asked.to)) < cell_count(shape) {
        return Some(Code::known(P43_SHAPES));
    }
    None
}

/// Ones, zeros or the unit matrix. P44 comes where that isn't square.
fn numbers_filled(alloc: Global, with: Fill, shape: Shape) -> Result<Vec<Dec>, Fault>
    requires rows { 0 < shape.rows }
    ensures made { AnswersBy items_seen (spec.filled with (record { rows = shape.rows; cols = shape.cols })) result }
    ensures count { IfOk result (λ into. length into.items ≡ cells shape) }
{
    let mut into = zeros(alloc, cell_count(shape))?;
    match fill(with, shape.rows, shape.cols, &mut into) {
        Ok(()) => Ok(into),
        Err(code) => Err(Fault::Code(code)),
    }
}

/// The numbers of an array transposed.
fn numbers_transposed(alloc: Global, vars: &Vars, b: Var) -> Result<Vec<Dec>, NoMemory>
    requires there { IsArrayOf false b vars.now.table }
    ensures made { IfOk result (λ into. into.items ≡ spec.transposed_numbers (matrix_of b vars.now.table)) }
    ensures count { IfOk result (λ into. length into.items ≡ cells (shape_at b vars.now.table)) }
{
    let shape = shape_of(vars, b);
    let cells = numbers_of(alloc, vars, b)?;
    let mut into = zeros(alloc, cells.len())?;
    let (rows, cols) = (shape.rows, shape.cols);
    let cells = &cells;
    transpose(Mat { rows, cols, cells }, &mut into);
    Ok(into)
}

/// The numbers of a multiple, into as many, or the first code along rows.
#[tactic(auto, using(crate::proofs::MadeOf::all_are, crate::proofs::MadeOf::one_is_refused))]
fn scale_into(k: Dec, shape: Shape, cells: &[Dec], mode: Mode, into: &mut [Dec]) -> Result<(), Code>
    requires whole { length cells.now ≡ shape.rows * columns_of shape.cols }
    requires count { length into.old ≡ shape.rows * columns_of shape.cols }
    ensures { MatchResult result (λ done. spec.all_made (multiples mode k (lent_as shape cells.now)) ≡ Ok into.new) (λ code. spec.all_made (multiples mode k (lent_as shape cells.now)) ≡ Err code) }
{
    let (rows, cols) = (shape.rows, shape.cols);
    scale(k, Mat { rows, cols, cells }, mode, into)
}

/// The numbers of a multiple, or the first code along rows.
#[tactic(auto, using(crate::proofs::MadeOf::whole_array))]
fn numbers_scaled(alloc: Global, vars: &Vars, k: Dec, b: Var, mode: Mode) -> Result<Vec<Dec>, Fault>
    requires there { IsArrayOf false b vars.now.table }
    ensures made { AnswersBy items_seen (spec.all_made (multiples mode k (matrix_of b vars.now.table))) result }
    ensures count { IfOk result (λ into. length into.items ≡ cells (shape_at b vars.now.table)) }
{
    let shape = shape_of(vars, b);
    let cells = numbers_of(alloc, vars, b)?;
    let mut into = zeros(alloc, cells.len())?;
    match scale_into(k, shape, &cells, mode, &mut into) {
        Ok(()) => Ok(into),
        Err(code) => Err(Fault::Code(code)),
    }
}

/// The numbers of a sum, a difference or a product, into as many, or the first code along rows.
#[tactic(auto, using(crate::proofs::MadeOf::all_are, crate::proofs::MadeOf::combined_refused))]
fn combine_into(
    op: MatOp,
    b: Shape,
    firsts: &[Dec],
    c: Shape,
    seconds: &[Dec],
    mode: Mode,
    into: &mut [Dec],
) -> Result<(), Code>
    requires first { length firsts.now ≡ b.rows * columns_of b.cols }
    requires second { length seconds.now ≡ c.rows * columns_of c.cols }
    requires suit { answers.suit op (lent_as b firsts.now) (lent_as c seconds.now) ≡ true }
    requires count { length into.old ≡ b.rows * columns_of c.cols }
    ensures { MatchResult result (λ done. spec.all_made (elements op mode (lent_as b firsts.now) (lent_as c seconds.now)) ≡ Ok into.new) (λ code. spec.all_made (elements op mode (lent_as b firsts.now) (lent_as c seconds.now)) ≡ Err code) }
{
    let first = Mat {
        rows: b.rows,
        cols: b.cols,
        cells: firsts,
    };
    let second = Mat {
        rows: c.rows,
        cols: c.cols,
        cells: seconds,
    };
    match combine(op, first, second, mode, into) {
        Ok(_) => Ok(()),
        Err(code) => Err(code),
    }
}

/// The numbers of a sum, a difference or a product of an array among some variables with one among others, or the first code along rows.
#[tactic(auto, using(crate::proofs::MadeOf::whole_array))]
fn numbers_combined(
    alloc: Global,
    of: &Vars,
    with: &Vars,
    op: MatOp,
    b: Var,
    c: Var,
    mode: Mode,
) -> Result<Vec<Dec>, Fault>
    requires first { IsArrayOf false b of.now.table }
    requires second { IsArrayOf false c with.now.table }
    requires suit { suit op (matrix_of b of.now.table) (matrix_of c with.now.table) ≡ true }
    ensures made { AnswersBy items_seen (spec.all_made (elements op mode (matrix_of b of.now.table) (matrix_of c with.now.table))) result }
    ensures count { IfOk result (λ into. length into.items ≡ (shape_at b of.now.table).rows * columns_of (shape_at c with.now.table).cols) }
{
    let (first, second) = (shape_of(of, b), shape_of(with, c));
    let firsts = numbers_of(alloc, of, b)?;
    let seconds = numbers_of(alloc, with, c)?;
    let mut into = zeros(
        alloc,
        usize::from(first.rows) * usize::from(columns_of_shape(second)),
    )?;
    match combine_into(op, first, &firsts, second, &seconds, mode, &mut into) {
        Ok(()) => Ok(into),
        Err(code) => Err(Fault::Code(code)),
    }
}

/// The numbers of the result along rows, or the first code of them.
fn numbers_made(
    alloc: Global,
    e: &Env<'_>,
    asked: &MatrixAssignment,
    shape: Shape,
    mode: Mode,
) -> Result<Vec<Dec>, Fault>
    requires there { AreThere asked.now.made_of (families (surroundings e.now)) }
    requires suit { spec.differs asked.now.made_of (families (surroundings e.now)) ≡ false }
    requires rows { 0 < shape.rows }
    requires shape { shape ≡ spec.shape_with (spec.dimensions_made asked.now.made_of asked.now.to (families (surroundings e.now))) }
    ensures made { AnswersBy items_seen (spec.numbers_made asked.now.made_of (record { rows = shape.rows; cols = shape.cols }) mode (families (surroundings e.now))) result }
    ensures count { IfOk result (λ numbers. length numbers.items ≡ cells shape) }
{
    match &asked.made_of {
        Formula::Scaled(k, b) => { numbers_scaled(alloc, vars_of(e, b.global), *k, b.var, mode) },
        Formula::Transposed(b) => { Ok(numbers_transposed(alloc, vars_of(e, b.global), b.var)?) },
        Formula::Filled(with, _) => numbers_filled(alloc, *with, shape),
        Formula::Copied(b) => Ok(numbers_of(alloc, vars_of(e, b.global), b.var)?),
        Formula::Combined(op, b, c) => numbers_combined(
            alloc,
            vars_of(e, b.global),
            vars_of(e, c.global),
            *op,
            b.var,
            c.var,
            mode,
        ),
    }
}

/// What MAT makes, or its first code after those of what is written.
fn matrix_made(
    alloc: Global,
    e: &Env<'_>,
    asked: &MatrixAssignment,
    mode: Mode,
) -> Result<MadeMatrix, Fault>
    requires to { IsArrayIn false asked.now.to (families (surroundings e.now)) }
    requires there { AreThere asked.now.made_of (families (surroundings e.now)) }
    ensures made { AnswersBy made_seen (spec.made_of asked.now mode (families (surroundings e.now))) result }
    ensures room { IfOk result (λ made. spec.HasRoom asked.now.to.var (made_seen made) (vars_in asked.now.to.global (families (surroundings e.now))).table) }
{
    let dimensions = dimensions_made(e, &asked.made_of, asked.to);
    let shape = shape_with(dimensions);
    if let Some(code) = refusal(e, asked, shape) {
        return Err(Fault::Code(code));
    }
    let numbers = numbers_made(alloc, e, asked, shape, mode)?;
    Ok(MadeMatrix {
        dimensions,
        numbers,
    })
}

/// Gives an array the dimensions and the numbers that were made.
#[tactic(auto, using(crate::proofs::Written::changed_there, crate::proofs::Written::changed_cells, crate::proofs::Written::both_put))]
fn put_made(vars: &mut Vars, to: Var, made: &MadeMatrix)
    requires to { IsArrayOf false to vars.old.table }
    requires room { spec.HasRoom to (made_seen made.now) vars.old.table }
    ensures { vars.new ≡ spec.with_made to (made_seen made.now) vars.old }
{
    match vars.redim(to, shape_with(made.dimensions)) {
        Ok(()) => put_numbers(vars, to, &made.numbers),
        Err(_) => unreachable!(),
    }
}

/// Gives an array what was made, wherever it is. The code with which that ended, or none.
#[tactic(auto, using(crate::proofs::Put::own_there, crate::proofs::Put::lent_there, crate::proofs::Put::own_room, crate::proofs::Put::lent_room))]
fn put_matrix(work: &mut Workspace<'_>, to: &Array, made: &MadeMatrix) -> Option<Code>
    requires to { IsArrayIn false to.now (families (seen_by (workspace work.old))) }
    requires room { spec.HasRoom to.now.var (made_seen made.now) (vars_in to.now.global (families (seen_by (workspace work.old)))).table }
    ensures worked { record { work = workspace work.new; code = result } ≡ among to.now.global (λ old. record { vars = spec.with_made to.now.var (made_seen made.now) old; code = None }) (workspace work.old) }
    ensures same_references { SameReferences work.old work.new }
{
    if !to.global {
        put_made(work.own, to.var, made);
        return None;
    }
    if !work.found {
        return Some(Code::known(X77_NO_PARTITION));
    }
    put_made(work.globals, to.var, made);
    work.reached = reached_after(work.reached, &None);
    None
}

/// Assigns what is asked for. The code with which that ended, or none.
#[tactic(auto, using(crate::proofs::Put::made_refused))]
fn assign_asked(
    alloc: Global,
    work: &mut Workspace<'_>,
    asked: &MatrixAssignment,
) -> Result<Option<Code>, NoMemory>
    requires to { IsArrayIn false asked.now.to (families (seen_by (workspace work.old))) }
    requires there { AreThere asked.now.made_of (families (seen_by (workspace work.old))) }
    ensures worked { IfOk result (λ code. record { work = workspace work.new; code = code } ≡ spec.assigns_found (Ok asked.now) (workspace work.old)) }
    ensures same_references { SameReferences work.old work.new }
{
    match matrix_made(alloc, &surroundings_of(work), asked, work.setting.mode) {
        Ok(made) => Ok(put_matrix(work, &asked.to, &made)),
        Err(fault) => refuse_fault(work, asked.to.global, fault),
    }
}

/// MAT: assigns what is made of arrays of numbers to one. The code with which that ended, or none; with one nothing changed.
pub fn assign_matrix(
    alloc: Global,
    work: &mut Workspace<'_>,
    unit: &[u8],
) -> Result<Option<Code>, NoMemory>
    requires phrase { is_phrase row.MAT unit.now ≡ true }
    ensures worked { IfOk result (λ code. record { work = workspace work.new; code = code } ≡ spec.assigns (tree_at row.MAT unit.now) (workspace work.old)) }
    ensures same_references { SameReferences work.old work.new }
{
    match assignment_at(&surroundings_of(work), unit) {
        Ok(asked) => assign_asked(alloc, work, &asked),
        Err(code) => Ok(Some(code)),
    }
}
