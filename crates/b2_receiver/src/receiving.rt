// Receivers that take what they are given, also at the place where they are written.
ghost use Rattle.std.specs.Prelude.{◌≡◌, true, IfOk, Ok};
ghost use Rattle.std.specs.Fn.{FnOnceReturnsAtMut};
ghost use Rattle.b2_atom.specs.declared.rows.TheConstants as row;
ghost use Rattle.b2_rows.specs.Rows.{is_phrase, tree_at};
ghost use Rattle.b2_vars.specs.Assigned.{Assigned};
ghost use Rattle.b2_vars.specs.Tables.{VarsState};
ghost use Rattle.b2_vars.specs.Variables.{is_alpha};
ghost use Rattle.b2_receiver.specs.Assigning.{AssignsAs, is_alpha_receiver};
ghost use Rattle.b2_receiver.specs.Receivers.{IsAlpha, IsNamed, IsNumeric};
ghost use Rattle.b2_receiver.specs.Receiving as spec;
ghost use Rattle.b2_receiver.specs.RightSide.{side_seen};
ghost use Rattle.b2_expr.specs.Workspace.{SameReferences, among, workspace};

use crate::assign::{assign_bytes, assign_number, assign_side, assign_value, code_of};
use crate::operations::RightSide;
use crate::receiver::{AlphaReceiver, Receiver};
use crate::receivers::{alpha_receiver, number_receiver};
use b2_atom::Cursor;
use b2_base::codes::X77_NO_PARTITION;
use b2_base::{Code, Fault, NoMemory};
use b2_dec::{Dec, Value};
use b2_expr::{Element, Workspace, reached_after, surroundings_of};
use b2_vars::Vars;

/// Hands the own variables of a workspace, or its `@` variables, to a closure that assigns among them. Gives the code with
/// which that ended, or none; X77 where there are no `@` variables.
pub fn change_among<F: FnOnce(&mut Vars) -> Result<(), Fault>>(
    work: &mut Workspace<'_>,
    global: bool,
    assign: F,
) -> Result<Option<Code>, NoMemory>
    requires callable { F.IsAlwaysCallable assign }
    ensures worked { (does : VarsState → Assigned) → AssignsAs does (λ old r new. FnOnceReturnsAtMut F.FnOnce assign old r new) → IfOk result (λ code. record { work = workspace work.new; code = code } ≡ among global does (workspace work.old)) }
    ensures same_references { SameReferences work.old work.new }
{
    if !global {
        return code_of(assign(work.own));
    }
    if !work.found {
        return Ok(Some(Code::known(X77_NO_PARTITION)));
    }
    let code = code_of(assign(work.globals))?;
    work.reached = reached_after(work.reached, &code);
    Ok(code)
}

/// Assigns a number to a numeric receiver. Gives the code with which that ended, or none (`assign_number`).
fn give_number(work: &mut Workspace<'_>, to: Element, x: Dec) -> Result<Option<Code>, NoMemory>
    requires named { IsNumeric to.var }
    ensures worked { IfOk result (λ code. record { work = workspace work.new; code = code } ≡ spec.given_number to x (workspace work.old)) }
    ensures same_references { SameReferences work.old work.new }
{
    change_among(work, to.global, |vars| assign_number(vars, to, x))
}

/// Assigns bytes to an alpha receiver. Gives the code with which that ended, or none (`assign_bytes`).
pub fn give_bytes(
    work: &mut Workspace<'_>,
    to: &AlphaReceiver,
    bytes: &[u8],
) -> Result<Option<Code>, NoMemory>
    requires named { IsAlpha to.now.element.var }
    ensures worked { IfOk result (λ code. record { work = workspace work.new; code = code } ≡ spec.given_bytes to.now bytes.now (workspace work.old)) }
    ensures same_references { SameReferences work.old work.new }
{
    change_among(
        work,
        to.element.global,
        |vars| assign_bytes(vars, to, bytes),
    )
}

/// Assigns the right side of an alpha assignment (`assign_side`).
fn give_side(
    work: &mut Workspace<'_>,
    to: &AlphaReceiver,
    side: &RightSide,
) -> Result<Option<Code>, NoMemory>
    requires named { IsAlpha to.now.element.var }
    ensures worked { IfOk result (λ code. record { work = workspace work.new; code = code } ≡ spec.given_side to.now (side_seen side.now) (workspace work.old)) }
    ensures same_references { SameReferences work.old work.new }
{
    change_among(work, to.element.global, |vars| assign_side(vars, to, side))
}

/// Assigns a value to a receiver of its kind. Gives the code with which that ended, or none (`assign_value`).
pub fn give_value(
    work: &mut Workspace<'_>,
    to: &Receiver,
    value: &Value,
) -> Result<Option<Code>, NoMemory>
    requires named { IsNamed to.now }
    requires kind { is_alpha value.now ≡ is_alpha_receiver to.now }
    ensures worked { IfOk result (λ code. record { work = workspace work.new; code = code } ≡ spec.given_value to.now value.now (workspace work.old)) }
    ensures same_references { SameReferences work.old work.new }
{
    change_among(work, to.is_global(), |vars| assign_value(vars, to, value))
}

/// Assigns bytes to the alpha receiver at a text, located among the variables as they are. Gives the first code: of the
/// receiver, then of assigning to it (`assign_bytes`).
pub fn assign_bytes_at(
    work: &mut Workspace<'_>,
    bytes: &[u8],
    text: &[u8],
) -> Result<Option<Code>, NoMemory>
    requires phrase { is_phrase row.ALPHA_RECEIVER text.now ≡ true }
    ensures worked { IfOk result (λ code. record { work = workspace work.new; code = code } ≡ spec.assign_bytes_at (Ok bytes.now) (tree_at row.ALPHA_RECEIVER text.now) (workspace work.old)) }
    ensures same_references { SameReferences work.old work.new }
{
    match alpha_receiver(&mut Cursor::over(text), &surroundings_of(work)) {
        Ok(to) => give_bytes(work, &to, bytes),
        Err(code) => Ok(Some(code)),
    }
}

/// Assigns the right side of an alpha assignment to the receiver at a text, as `assign_bytes_at` (`assign_side`).
pub fn assign_side_at(
    work: &mut Workspace<'_>,
    side: &RightSide,
    text: &[u8],
) -> Result<Option<Code>, NoMemory>
    requires phrase { is_phrase row.ALPHA_RECEIVER text.now ≡ true }
    ensures worked { IfOk result (λ code. record { work = workspace work.new; code = code } ≡ spec.assign_side_at (side_seen side.now) (tree_at row.ALPHA_RECEIVER text.now) (workspace work.old)) }
    ensures same_references { SameReferences work.old work.new }
{
    match alpha_receiver(&mut Cursor::over(text), &surroundings_of(work)) {
        Ok(to) => give_side(work, &to, side),
        Err(code) => Ok(Some(code)),
    }
}

/// Assigns a number, or gives the code in its place, to the numeric receiver at a text, located among the variables as they
/// are. Gives the first code: of the receiver, then the one in the number's place, then of assigning (`assign_number`).
pub fn assign_number_at(
    work: &mut Workspace<'_>,
    x: Result<Dec, Code>,
    text: &[u8],
) -> Result<Option<Code>, NoMemory>
    requires phrase { is_phrase row.NUMERIC_RECEIVER text.now ≡ true }
    ensures worked { IfOk result (λ code. record { work = workspace work.new; code = code } ≡ spec.assign_number_at x (tree_at row.NUMERIC_RECEIVER text.now) (workspace work.old)) }
    ensures same_references { SameReferences work.old work.new }
{
    let to = match number_receiver(&mut Cursor::over(text), &surroundings_of(work)) {
        Ok(to) => to,
        Err(code) => return Ok(Some(code)),
    };
    match x {
        Ok(x) => give_number(work, to, x),
        Err(code) => Ok(Some(code)),
    }
}
