// READ: each receiver takes the next literal of the own text.
ghost use Rattle.std.specs.Prelude.{◌≡◌, true, IfOk, Some};
ghost use Rattle.b2_atom.specs.declared.rows.TheConstants as row;
ghost use Rattle.b2_rows.specs.Rows.{is_phrase, tree_at};
ghost use Rattle.b2_vars.specs.Variables.{is_alpha};
ghost use Rattle.b2_receiver.specs.Assigning.{is_alpha_receiver};
ghost use Rattle.b2_receiver.specs.Receivers.{IsNamed};
ghost use Rattle.b2_expr.specs.Workspace.{SameReferences, workspace};
ghost use Rattle.b2_stmt_var.specs.Reading as spec;
ghost use Rattle.b2_rows.specs.CommaLists.{are_others, past_first, receivers_at};

use crate::data::{Literal, next_literal};
use b2_atom::Cursor;
use b2_base::codes::{X70_TOO_LITTLE, X74_OTHER_KIND};
use b2_base::lexical::rest_after;
use b2_base::{Code, NoMemory};
use b2_dec::Value;
use b2_expr::{Workspace, suits, surroundings_of};
use b2_receiver::{Receiver, any_receiver, give_value, past_any_receiver};
use b2_rows::is_at;
use b2_text::{Spot, Text};

/// Whether a literal is for a receiver; a number that is out of range is of its kind.
#[inline(always)]
fn is_for(to: &Receiver, literal: &Result<Value, Code>) -> bool
    ensures { result ≡ spec.is_for to.now literal.now }
{
    match literal {
        Ok(value) => suits(to.is_alpha(), value),
        Err(_) => !to.is_alpha(),
    }
}

/// A literal's value for a receiver, X74 where they are not of one kind.
#[tactic(auto, using(b2_receiver::proofs::OneKind::one_kind))]
#[inline(always)]
fn value_for(to: &Receiver, literal: Result<Value, Code>) -> Result<Value, Code>
    ensures value { result ≡ spec.value_for to.now literal }
    ensures kind { IfOk result (λ x. is_alpha x ≡ is_alpha_receiver to.now) }
{
    if is_for(to, &literal) {
        literal
    } else {
        Err(Code::known(X74_OTHER_KIND))
    }
}

/// Assigns a literal to a receiver: it counts as read where that has no code.
#[inline(always)]
fn take_literal(
    work: &mut Workspace<'_>,
    next: &mut Option<(Spot, u8)>,
    to: &Receiver,
    literal: Literal,
) -> Result<Option<Code>, NoMemory>
    requires named { IsNamed to.now }
    ensures worked { IfOk result (λ code. record { work = workspace work.new; next = next.new; code = code } ≡ spec.takes_literal to.now (Some literal) (workspace work.old) next.old) }
    ensures same_references { SameReferences work.old work.new }
{
    let value = match value_for(to, literal.value) {
        Ok(value) => value,
        Err(code) => return Ok(Some(code)),
    };
    let code = give_value(work, to, &value)?;
    if code.is_none() {
        *next = Some(literal.after);
    }
    Ok(code)
}

/// Reads a literal into the receiver at a text.
#[inline(always)]
fn read_one(
    work: &mut Workspace<'_>,
    next: &mut Option<(Spot, u8)>,
    own: &Text,
    text: &[u8],
) -> Result<Option<Code>, NoMemory>
    requires phrase { is_phrase row.RECEIVER text.now ≡ true }
    ensures worked { IfOk result (λ code. record { work = workspace work.new; next = next.new; code = code } ≡ spec.reads_one own.now.lines (tree_at row.RECEIVER text.now) (workspace work.old) next.old) }
    ensures same_references { SameReferences work.old work.new }
{
    let to = match any_receiver(&mut Cursor::over(text), &surroundings_of(work)) {
        Ok(to) => to,
        Err(code) => return Ok(Some(code)),
    };
    match next_literal(own, *next) {
        Some(literal) => take_literal(work, next, &to, literal),
        None => Ok(Some(Code::known(X70_TOO_LITTLE))),
    }
}

/// Reads literals into the receivers that stand at a text, from left to right.
#[tactic(auto, using(b2_receiver::proofs::ReceiverLists::other_part, b2_receiver::proofs::ReceiverLists::other_list, b2_receiver::proofs::ReceiverLists::other_items, b2_receiver::proofs::ReceiverLists::no_items, b2_receiver::proofs::ReceiverLists::receiver_shorter, crate::proofs::ReadRows::one_more, crate::proofs::ReadRows::one_coded))]
fn read_all(
    work: &mut Workspace<'_>,
    next: &mut Option<(Spot, u8)>,
    own: &Text,
    text: &[u8],
) -> Result<Option<Code>, NoMemory>
    requires phrase { is_phrase row.RECEIVER text.now ≡ true }
    requires list { are_others (past_first text.now) ≡ true }
    ensures worked { IfOk result (λ code. record { work = workspace work.new; next = next.new; code = code } ≡ spec.read_each (spec.reads_one own.now.lines) (receivers_at text.now) (workspace work.old) next.old) }
    ensures same_references { SameReferences work.old work.new }
{
    let mut left = text;
    loop {
        let code = read_one(work, next, own, left)?;
        if code.is_some() {
            return Ok(code);
        }
        left = past_any_receiver(left);
        if !is_at(b',', left) {
            return Ok(None);
        }
        left = rest_after(left, 1);
    }
}

/// READ: the code with which it ends, or none. What was read before a code stays so.
#[tactic(auto, using(crate::proofs::ReadRows::read_receiver, crate::proofs::ReadRows::read_list, crate::proofs::ReadRows::read_is))]
pub fn read(
    work: &mut Workspace<'_>,
    next: &mut Option<(Spot, u8)>,
    own: &Text,
    unit: &[u8],
) -> Result<Option<Code>, NoMemory>
    requires phrase { is_phrase row.READ unit.now ≡ true }
    ensures worked { IfOk result (λ code. record { work = workspace work.new; next = next.new; code = code } ≡ spec.reads_data own.now.lines (tree_at row.READ unit.now) (workspace work.old) next.old) }
    ensures same_references { SameReferences work.old work.new }
{
    read_all(work, next, own, rest_after(unit, 1))
}
