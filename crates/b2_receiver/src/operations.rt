// The right side of an alpha assignment: what it is at a text, and what it makes of the bytes of a receiver.
ghost use Rattle.std.specs.Prelude.{◌≡◌, true, Ok, Err, MatchResult};
ghost use Rattle.b2_atom.specs.declared.rows.TheConstants as row;
ghost use Rattle.b2_atom.specs.declared.words.Origin.TheVariants.{Atoms};
ghost use Rattle.b2_atom.specs.Grammar.{starts};
ghost use Rattle.b2_rows.specs.Rows.{is_phrase, tree_at, after_phrase, is_list, list_at, after_list};
ghost use Rattle.b2_vars.specs.Answers.{Answers};
ghost use Rattle.b2_expr.specs.Reads.{Gives};
ghost use Rattle.b2_receiver.specs.RightSide as spec;
ghost use Rattle.b2_receiver.specs.RightSide.{after_right_side, is_right_side, side_made, made_by, operated, operation_start, operator_of, right_side_tree, side_seen};
ghost use Rattle.b2_expr.specs.Value as meaning;
ghost use Rattle.b2_expr.specs.Value.{context};

use b2_alpha::{add, addc, assign, bool_op, dac, dsc, sub, subc};
use b2_atom::rows::{FIRST_AND_OPERATIONS, OPERATIONS};
use b2_atom::words::{ADD, ADDC, AND, BOOL, DAC, DSC, OR, SUB, SUBC, XOR};
use b2_base::lexical::{first, rest_after};
use b2_base::{Code, Fault};
use b2_dec::Bytes;
use b2_expr::{Scope, alpha_at};
use b2_rows::{hex_digit_at, is_alpha_at, is_at, is_read};
use std::alloc::Global;

/// What is done with the bytes of a receiver and an operand.
#[derive(Clone, Copy)]
pub enum AlphaOperator {
    /// AND, OR, XOR and BOOL: bits joined by a digit.
    Bool(u8),
    Add,
    Addc,
    Sub,
    Subc,
    Dac,
    Dsc,
}

/// An operator, and the value of its operand.
#[derive(Drop)]
pub struct Operation {
    pub operator: AlphaOperator,
    pub operand: Bytes,
}

/// The right side of an alpha assignment: a first operand where one is written, and operations from the left.
#[derive(Drop)]
pub struct RightSide {
    pub first: Option<Bytes>,
    pub operations: Vec<Operation>,
}

/// The operator of a word that isn't BOOL.
fn operator_of(word: u8) -> AlphaOperator
    ensures { result ≡ operator_of word }
{
    match word {
        AND => AlphaOperator::Bool(8),
        OR => AlphaOperator::Bool(14),
        XOR => AlphaOperator::Bool(6),
        ADD => AlphaOperator::Add,
        ADDC => AlphaOperator::Addc,
        SUB => AlphaOperator::Sub,
        SUBC => AlphaOperator::Subc,
        DAC => AlphaOperator::Dac,
        _ => AlphaOperator::Dsc,
    }
}

/// Whether an operation begins at a text.
#[tactic(auto, unfolding(b2_atom::specs::Grammar::starts))]
pub fn is_operation_at(text: &[u8]) -> bool
    ensures { result ≡ starts Atoms operation_start text.now }
{
    let word = first(text);
    word >= AND && word <= DSC
}

/// Whether the right side of an alpha assignment is read at a text.
#[tactic(auto, unfolding(crate::specs::RightSide::is_right_side))]
pub fn is_right_side_read(text: &[u8]) -> bool
    ensures { result ≡ is_right_side text.now }
{
    if is_alpha_at(text) {
        is_read(FIRST_AND_OPERATIONS, text)
    } else {
        is_read(OPERATIONS, text)
    }
}

/// An operand after its operator.
fn with_operand<'a>(
    operator: AlphaOperator,
    s: &Scope<'_>,
    text: &'a [u8],
) -> Result<(Operation, &'a [u8]), Code>
    requires phrase { is_phrase row.ALPHA text.now ≡ true }
    ensures { Gives (spec.with_operand operator (meaning.text (context s.now) (tree_at row.ALPHA text.now))) (after_phrase row.ALPHA text.now) result }
{
    let mut operand = Bytes::new();
    match alpha_at(s, text, &mut operand) {
        Ok(rest) => Ok((Operation { operator, operand }, rest)),
        Err(code) => Err(code),
    }
}

/// BOOL, its digit and its operand.
#[tactic(auto, using(crate::proofs::OperationRows::digit_here, crate::proofs::OperationRows::digit_operand, crate::proofs::OperationRows::digit_is, crate::proofs::OperationRows::digit_rest))]
fn digit_operation_at<'a>(s: &Scope<'_>, text: &'a [u8]) -> Result<(Operation, &'a [u8]), Code>
    requires phrase { is_phrase row.BOOLEAN text.now ≡ true }
    ensures { Gives (spec.digit_operation (context s.now) (tree_at row.BOOLEAN text.now)) (after_phrase row.BOOLEAN text.now) result }
{
    let digit = hex_digit_at(rest_after(text, 1));
    with_operand(AlphaOperator::Bool(digit), s, rest_after(text, 2))
}

/// Any other operation.
#[tactic(auto, using(crate::proofs::OperationRows::word_operand, crate::proofs::OperationRows::word_is, crate::proofs::OperationRows::word_rest))]
fn word_operation_at<'a>(s: &Scope<'_>, text: &'a [u8]) -> Result<(Operation, &'a [u8]), Code>
    requires phrase { is_phrase row.OTHER_OPERATION text.now ≡ true }
    ensures { Gives (spec.word_operation (context s.now) (tree_at row.OTHER_OPERATION text.now)) (after_phrase row.OTHER_OPERATION text.now) result }
{
    with_operand(operator_of(first(text)), s, rest_after(text, 1))
}

/// An operation, and what stands after it.
#[tactic(auto, using(crate::proofs::OperationRows::on_digit_here, crate::proofs::OperationRows::on_digit_is, crate::proofs::OperationRows::on_digit_rest, crate::proofs::OperationRows::on_word_here, crate::proofs::OperationRows::on_word_is, crate::proofs::OperationRows::on_word_rest))]
fn operation_at<'a>(s: &Scope<'_>, text: &'a [u8]) -> Result<(Operation, &'a [u8]), Code>
    requires phrase { is_phrase row.OPERATION text.now ≡ true }
    ensures { Gives (spec.operation (context s.now) (tree_at row.OPERATION text.now)) (after_phrase row.OPERATION text.now) result }
{
    if is_at(BOOL, text) {
        digit_operation_at(s, text)
    } else {
        word_operation_at(s, text)
    }
}

/// Puts an operation after others, and gives what stands after it.
fn put_operation<'a>(
    s: &Scope<'_>,
    text: &'a [u8],
    into: &mut Vec<Operation>,
) -> Result<&'a [u8], Fault>
    requires phrase { is_phrase row.OPERATION text.now ≡ true }
    ensures { spec.PutsOperations (spec.then_operation (context s.now) (Ok into.old.items) (tree_at row.OPERATION text.now)) (after_phrase row.OPERATION text.now) into.new.items result }
{
    match operation_at(s, text) {
        Ok((operation, rest)) => match into.push(operation) {
            Ok(()) => Ok(rest),
            Err(_) => Err(Fault::NoMemory),
        },
        Err(code) => Err(Fault::Code(code)),
    }
}

/// Puts further operations after others, as long as some stand there.
#[tactic(auto, using(crate::proofs::OperationRows::more_part, crate::proofs::OperationRows::more_list, crate::proofs::OperationRows::more_is, crate::proofs::OperationRows::more_rest, crate::proofs::OperationRows::more_shorter, crate::proofs::OperationRows::no_more_is, crate::proofs::OperationRows::no_more_rest, crate::proofs::OperationRows::refused))]
fn further_operations<'a>(
    s: &Scope<'_>,
    text: &'a [u8],
    into: &mut Vec<Operation>,
) -> Result<&'a [u8], Fault>
    requires list { is_list operation_start row.OPERATION text.now ≡ true }
    ensures { spec.PutsOperations (spec.further_operations (context s.now) (Ok into.old.items) (list_at operation_start row.OPERATION text.now)) (after_list operation_start row.OPERATION text.now) into.new.items result }
{
    let mut left = text;
    while is_operation_at(left) {
        left = match put_operation(s, left, into) {
            Ok(rest) => rest,
            Err(fault) => return Err(fault),
        };
    }
    Ok(left)
}

/// A first operand, and operations or none.
#[tactic(auto, using(crate::proofs::OperationRows::first_operand, crate::proofs::OperationRows::first_list, crate::proofs::OperationRows::first_is, crate::proofs::OperationRows::first_rest))]
fn first_and_operations_at<'a>(
    alloc: Global,
    s: &Scope<'_>,
    text: &'a [u8],
) -> Result<(RightSide, &'a [u8]), Fault>
    requires phrase { is_phrase row.FIRST_AND_OPERATIONS text.now ≡ true }
    ensures { spec.GivesSide (spec.first_and_operations (context s.now) (tree_at row.FIRST_AND_OPERATIONS text.now)) (after_phrase row.FIRST_AND_OPERATIONS text.now) result }
{
    let mut value = Bytes::new();
    let after = match alpha_at(s, text, &mut value) {
        Ok(rest) => rest,
        Err(code) => return Err(Fault::Code(code)),
    };
    let mut operations = Vec::new(alloc);
    match further_operations(s, after, &mut operations) {
        Ok(rest) => {
            let first = Some(value);
            Ok((RightSide { first, operations }, rest))
        }
        Err(fault) => Err(fault),
    }
}

/// Operations without a first operand.
#[tactic(auto, using(crate::proofs::OperationRows::alone_first, crate::proofs::OperationRows::alone_list, crate::proofs::OperationRows::alone_is, crate::proofs::OperationRows::alone_rest, crate::proofs::OperationRows::refused))]
fn operations_alone_at<'a>(
    alloc: Global,
    s: &Scope<'_>,
    text: &'a [u8],
) -> Result<(RightSide, &'a [u8]), Fault>
    requires phrase { is_phrase row.OPERATIONS text.now ≡ true }
    ensures { spec.GivesSide (spec.operations_alone (context s.now) (tree_at row.OPERATIONS text.now)) (after_phrase row.OPERATIONS text.now) result }
{
    let mut operations = Vec::new(alloc);
    let after = match put_operation(s, text, &mut operations) {
        Ok(rest) => rest,
        Err(fault) => return Err(fault),
    };
    match further_operations(s, after, &mut operations) {
        Ok(rest) => {
            let first = None;
            Ok((RightSide { first, operations }, rest))
        }
        Err(fault) => Err(fault),
    }
}

/// The right side of an alpha assignment, and what stands after it. Memory is taken where there are operations.
#[tactic(auto, using(crate::proofs::OperationRows::right_first_here, crate::proofs::OperationRows::right_first_is, crate::proofs::OperationRows::right_first_rest, crate::proofs::OperationRows::right_alone_here, crate::proofs::OperationRows::right_alone_is, crate::proofs::OperationRows::right_alone_rest))]
pub fn right_side_at<'a>(
    alloc: Global,
    s: &Scope<'_>,
    text: &'a [u8],
) -> Result<(RightSide, &'a [u8]), Fault>
    requires phrase { is_right_side text.now ≡ true }
    ensures { spec.GivesSide (spec.right_side (context s.now) (right_side_tree text.now)) (after_right_side text.now) result }
{
    if is_alpha_at(text) {
        first_and_operations_at(alloc, s, text)
    } else {
        operations_alone_at(alloc, s, text)
    }
}

/// Does one operation on the bytes of a receiver. X75 exactly where a nibble that DAC or DSC uses is above 9; the receiver
/// then stays.
fn operate(operator: AlphaOperator, to: &mut [u8], operand: &[u8]) -> Result<(), Code>
    ensures { MatchResult result (λ done. operated operator to.old operand.now ≡ Ok to.new) (λ code. (operated operator to.old operand.now ≡ Err code) × (to.new ≡ to.old)) }
{
    match operator {
        AlphaOperator::Bool(digit) => bool_op(to, operand, digit % 16),
        AlphaOperator::Add => add(to, operand),
        AlphaOperator::Addc => addc(to, operand),
        AlphaOperator::Sub => sub(to, operand),
        AlphaOperator::Subc => subc(to, operand),
        AlphaOperator::Dac => return dac(to, operand),
        AlphaOperator::Dsc => return dsc(to, operand),
    }
    Ok(())
}

/// Does operations from the left, until one refuses; what was made before it stays.
fn operate_all(operations: &[Operation], to: &mut [u8]) -> Result<(), Code>
    ensures bytes { to.new ≡ (made_by operations.now to.old).bytes }
    ensures code { Answers (made_by operations.now to.old).code result }
{
    for operation in operations {
        match operate(operation.operator, to, operation.operand.bytes()) {
            Ok(()) => {}
            Err(code) => return Err(code),
        }
    }
    Ok(())
}

/// Makes of the bytes of a receiver what a right side makes of them: first its first operand, padded with blanks or cut,
/// where there is one, and then each operation on all of them.
pub fn make_side(side: &RightSide, to: &mut [u8]) -> Result<(), Code>
    ensures bytes { to.new ≡ (side_made (side_seen side.now) to.old).bytes }
    ensures code { Answers (side_made (side_seen side.now) to.old).code result }
{
    match &side.first {
        Some(bytes) => assign(to, bytes.bytes()),
        None => {}
    }
    operate_all(&side.operations, to)
}
