// Assignments.
ghost use Rattle.std.specs.Prelude.{◌≡◌, true, IfOk, Ok};
ghost use Rattle.b2_atom.specs.declared.rows.TheConstants as row;
ghost use Rattle.b2_rows.specs.Rows.{is_phrase, tree_at};
ghost use Rattle.b2_receiver.specs.Receiving.{assign_number_at, assign_side_at as side_assigned_at};
ghost use Rattle.b2_receiver.specs.RightSide.{is_right_side, right_side_tree, side_seen};
ghost use Rattle.b2_receiver.specs.RightSide.{right_side as side_of};
ghost use Rattle.b2_expr.specs.Value.{context_of};
ghost use Rattle.b2_expr.specs.Workspace.{SameReferences, workspace};
ghost use Rattle.b2_stmt_var.specs.Assignments as spec;
ghost use Rattle.b2_stmt_var.specs.Assignments.{side_of_assignment, sum_of_assignment};
ghost use Rattle.b2_rows.specs.CommaLists.{after_all_listed, all_listed};

use b2_atom::Cursor;
use b2_base::lexical::rest_after;
use b2_base::{Code, NoMemory};
use b2_dec::Dec;
use b2_expr::{Workspace, number, surroundings_of};
use b2_receiver::{
    RightSide, assign_number_at, assign_side_at, code_of_fault, past_alpha_receiver,
    past_number_receiver, right_side,
};
use b2_rows::{is_alpha_at, is_at};
use std::alloc::Global;

/// The expression of an assignment of a number.
#[tactic(auto, using(crate::proofs::NumberRows::first_part, crate::proofs::NumberRows::first_list, crate::proofs::NumberRows::other_part, crate::proofs::NumberRows::other_list, crate::proofs::NumberRows::other_rest, crate::proofs::NumberRows::other_end, crate::proofs::NumberRows::other_shorter, crate::proofs::NumberRows::whole_end, crate::proofs::NumberRows::found_part, crate::proofs::NumberRows::found_tree))]
fn expression_after(text: &[u8]) -> &[u8]
    requires phrase { is_phrase row.NUMERIC_ASSIGNMENT text.now ≡ true }
    ensures part { is_phrase row.SUM result.now ≡ true }
    ensures tree { sum_of_assignment (after_all_listed (tree_at row.NUMERIC_ASSIGNMENT text.now)) ≡ tree_at row.SUM result.now }
{
    let mut left = past_number_receiver(text);
    while is_at(b',', left) {
        left = past_number_receiver(rest_after(left, 1));
    }
    rest_after(left, 1)
}

/// Assigns a number to the receivers of an assignment, from left to right.
#[tactic(auto, using(crate::proofs::NumberRows::first_part, crate::proofs::NumberRows::first_list, crate::proofs::NumberRows::other_part, crate::proofs::NumberRows::other_list, crate::proofs::NumberRows::other_items, crate::proofs::NumberRows::no_items, crate::proofs::NumberRows::receiver_shorter, crate::proofs::NumberRows::whole_items, crate::proofs::Assigned::one_more, crate::proofs::Assigned::one_coded))]
fn assign_all(work: &mut Workspace<'_>, x: Dec, text: &[u8]) -> Result<Option<Code>, NoMemory>
    requires phrase { is_phrase row.NUMERIC_ASSIGNMENT text.now ≡ true }
    ensures worked { IfOk result (λ code. record { work = workspace work.new; code = code } ≡ spec.assign_each (assign_number_at (Ok x)) (all_listed (tree_at row.NUMERIC_ASSIGNMENT text.now)) (workspace work.old)) }
    ensures same_references { SameReferences work.old work.new }
{
    let mut left = text;
    loop {
        let code = assign_number_at(work, Ok(x), left)?;
        if code.is_some() {
            return Ok(code);
        }
        left = past_number_receiver(left);
        if !is_at(b',', left) {
            return Ok(None);
        }
        left = rest_after(left, 1);
    }
}

/// Assigns a number.
fn assign_numbers(work: &mut Workspace<'_>, text: &[u8]) -> Result<Option<Code>, NoMemory>
    requires phrase { is_phrase row.NUMERIC_ASSIGNMENT text.now ≡ true }
    ensures worked { IfOk result (λ code. record { work = workspace work.new; code = code } ≡ spec.assign_numbers (tree_at row.NUMERIC_ASSIGNMENT text.now) (workspace work.old)) }
    ensures same_references { SameReferences work.old work.new }
{
    let mut c = Cursor::over(expression_after(text));
    match number(&mut c, &surroundings_of(work)) {
        Ok(x) => assign_all(work, x, text),
        Err(code) => Ok(Some(code)),
    }
}

/// The right side of an alpha assignment.
#[tactic(auto, using(crate::proofs::SideRows::first_part, crate::proofs::SideRows::first_list, crate::proofs::SideRows::other_part, crate::proofs::SideRows::other_list, crate::proofs::SideRows::other_rest, crate::proofs::SideRows::other_end, crate::proofs::SideRows::other_shorter, crate::proofs::SideRows::whole_end, crate::proofs::SideRows::found_part, crate::proofs::SideRows::found_tree))]
fn side_after(text: &[u8]) -> &[u8]
    requires phrase { is_phrase row.ALPHA_ASSIGNMENT text.now ≡ true }
    ensures part { is_right_side result.now ≡ true }
    ensures tree { side_of_assignment (after_all_listed (tree_at row.ALPHA_ASSIGNMENT text.now)) ≡ right_side_tree result.now }
{
    let mut left = past_alpha_receiver(text);
    while is_at(b',', left) {
        left = past_alpha_receiver(rest_after(left, 1));
    }
    rest_after(left, 1)
}

/// Assigns a right side to the receivers of an assignment, from left to right.
#[tactic(auto, using(crate::proofs::SideRows::first_part, crate::proofs::SideRows::first_list, crate::proofs::SideRows::other_part, crate::proofs::SideRows::other_list, crate::proofs::SideRows::other_items, crate::proofs::SideRows::no_items, crate::proofs::SideRows::receiver_shorter, crate::proofs::SideRows::whole_items, crate::proofs::Assigned::one_more, crate::proofs::Assigned::one_coded))]
fn assign_side_to_all(
    work: &mut Workspace<'_>,
    side: &RightSide,
    text: &[u8],
) -> Result<Option<Code>, NoMemory>
    requires phrase { is_phrase row.ALPHA_ASSIGNMENT text.now ≡ true }
    ensures worked { IfOk result (λ code. record { work = workspace work.new; code = code } ≡ spec.assign_each (side_assigned_at (side_seen side.now)) (all_listed (tree_at row.ALPHA_ASSIGNMENT text.now)) (workspace work.old)) }
    ensures same_references { SameReferences work.old work.new }
{
    let mut left = text;
    loop {
        let code = assign_side_at(work, side, left)?;
        if code.is_some() {
            return Ok(code);
        }
        left = past_alpha_receiver(left);
        if !is_at(b',', left) {
            return Ok(None);
        }
        left = rest_after(left, 1);
    }
}

/// Assigns the right side at a text to the receivers of an assignment.
fn assign_side_of(
    alloc: Global,
    work: &mut Workspace<'_>,
    side: &[u8],
    text: &[u8],
) -> Result<Option<Code>, NoMemory>
    requires side { is_right_side side.now ≡ true }
    requires phrase { is_phrase row.ALPHA_ASSIGNMENT text.now ≡ true }
    ensures worked { IfOk result (λ code. record { work = workspace work.new; code = code } ≡ spec.sides_by (side_of (context_of (workspace work.old)) (right_side_tree side.now)) (all_listed (tree_at row.ALPHA_ASSIGNMENT text.now)) (workspace work.old)) }
    ensures same_references { SameReferences work.old work.new }
{
    match right_side(alloc, &mut Cursor::over(side), &surroundings_of(work)) {
        Ok(side) => assign_side_to_all(work, &side, text),
        Err(fault) => code_of_fault(fault),
    }
}

/// Assigns bytes.
fn assign_sides(
    alloc: Global,
    work: &mut Workspace<'_>,
    text: &[u8],
) -> Result<Option<Code>, NoMemory>
    requires phrase { is_phrase row.ALPHA_ASSIGNMENT text.now ≡ true }
    ensures worked { IfOk result (λ code. record { work = workspace work.new; code = code } ≡ spec.assign_sides (tree_at row.ALPHA_ASSIGNMENT text.now) (workspace work.old)) }
    ensures same_references { SameReferences work.old work.new }
{
    assign_side_of(alloc, work, side_after(text), text)
}

/// Assigns: the expression first, and then each receiver from left to right. The code with which that ended, or none.
#[tactic(auto, using(crate::proofs::Assigned::alpha_here, crate::proofs::Assigned::alpha_is, crate::proofs::Assigned::number_here, crate::proofs::Assigned::number_is))]
pub fn assign(
    alloc: Global,
    work: &mut Workspace<'_>,
    text: &[u8],
) -> Result<Option<Code>, NoMemory>
    requires phrase { is_phrase row.ASSIGNMENT text.now ≡ true }
    ensures worked { IfOk result (λ code. record { work = workspace work.new; code = code } ≡ spec.assigns (tree_at row.ASSIGNMENT text.now) (workspace work.old)) }
    ensures same_references { SameReferences work.old work.new }
{
    if is_alpha_at(text) {
        assign_sides(alloc, work, text)
    } else {
        assign_numbers(work, text)
    }
}
