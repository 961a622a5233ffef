// Receivers that are assigned, and whether they count as reached.
//
// `assign | OWN | TYPED`: the code of an alpha assignment, if there is one, whether its receiver counts as reached, and what stands
// at the cursor then. `elsewhere | AREA | OWN | TYPED`: a receiver that is located, and then assigned among variables of an area
// where there are none: the code, whether it is reached, and what the variables take then.
ghost use Rattle.std.specs.Prelude.{IfSome};
ghost use Rattle.b2_receiver.specs.Receivers.{IsAlpha, IsNamed};

use crate::desk::{Desk, execute, line_of};
use crate::locating::{after_count, framed};
use b2_atom::Cursor;
use b2_atom::rows::{ALPHA_RECEIVER, RECEIVER};
use b2_base::Fault;
use b2_base::lexical::rest_after;
use b2_cases::{Sheet, number_of};
use b2_dec::Dec;
use b2_receiver::{
    AlphaReceiver, Receiver, RightSide, alpha_receiver, any_receiver, assign_bytes, assign_number,
    assign_side, is_reached, is_right_side_read, right_side,
};
use b2_rows::is_read;
use b2_vars::Vars;

/// Shows the code of an assignment, if there is one, and whether its receiver counts as reached.
fn show_assigned(sheet: &mut Sheet<'_>, outcome: &Result<(), Fault>) {
    match outcome {
        Ok(()) => {}
        Err(Fault::Code(code)) => {
            sheet.show_code(*code);
            sheet.show(" ");
        }
        Err(Fault::NoMemory) => sheet.no_memory(),
    }
    sheet.show(if is_reached(outcome) {
        "reached"
    } else {
        "not reached"
    });
}

/// The receiver of either kind that is typed.
fn receiver_of(sheet: &mut Sheet<'_>, desk: &Desk, typed: &[u8]) -> Option<Receiver>
    ensures { IfSome result IsNamed }
{
    let line = framed(sheet, "receiver", typed)?;
    let text = after_count(&line, 1);
    if !is_read(RECEIVER, text) {
        sheet.misread();
        return None;
    }
    match any_receiver(&mut Cursor::over(text), &desk.env()) {
        Ok(to) => Some(to),
        Err(_) => {
            sheet.misread();
            None
        }
    }
}

/// Assigns a receiver among variables of an area where there are none.
fn assign_in(sheet: &mut Sheet<'_>, area: usize, to: Receiver)
    requires named { IsNamed to }
{
    let Ok(mut vars) = Vars::new(sheet.alloc(), area) else {
        return sheet.no_memory();
    };
    let outcome = match to {
        Receiver::Number(to) => assign_number(&mut vars, to, Dec::zero()),
        Receiver::Alpha(to) => assign_bytes(&mut vars, &to, b"A"),
    };
    show_assigned(sheet, &outcome);
    sheet.show(", ");
    sheet.show_number(vars.count() as u64);
    sheet.show(" bytes");
}

pub fn elsewhere(sheet: &mut Sheet<'_>, desk: &mut Desk) {
    let area = usize::from(number_of(sheet.cell()));
    let own = sheet.cell();
    let typed = sheet.cell();
    execute(sheet, desk, own);
    if let Some(to) = receiver_of(sheet, desk, typed) {
        assign_in(sheet, area, to);
    }
}

/// The alpha receiver at a cursor.
fn alpha_at(sheet: &mut Sheet<'_>, c: &mut Cursor<'_>, desk: &Desk) -> Option<AlphaReceiver>
    ensures { IfSome result (λ to. IsAlpha to.element.var) }
{
    if !is_read(ALPHA_RECEIVER, c.rest()) {
        sheet.misread();
        return None;
    }
    match alpha_receiver(c, &desk.env()) {
        Ok(to) => Some(to),
        Err(_) => {
            sheet.misread();
            None
        }
    }
}

/// The right side at a cursor, which then stands after it.
fn side_at(sheet: &mut Sheet<'_>, c: &mut Cursor<'_>, desk: &Desk) -> Option<RightSide> {
    if !is_right_side_read(c.rest()) {
        sheet.misread();
        return None;
    }
    match right_side(sheet.alloc(), c, &desk.env()) {
        Ok(side) => Some(side),
        Err(fault) => {
            sheet.show_fault(fault);
            None
        }
    }
}

/// Assigns the right side at a cursor to a receiver.
fn assign_rest(sheet: &mut Sheet<'_>, c: &mut Cursor<'_>, desk: &mut Desk, to: &AlphaReceiver)
    requires named { IsAlpha to.now.element.var }
{
    if let Some(side) = side_at(sheet, c, desk) {
        let outcome = assign_side(&mut desk.me.vars, to, &side);
        show_assigned(sheet, &outcome);
    }
    sheet.show(" before ");
    sheet.show_bytes(c.rest());
}

/// Does the assignment of a text.
fn assign_at(sheet: &mut Sheet<'_>, text: &[u8], desk: &mut Desk) {
    let mut c = Cursor::over(text);
    if let Some(to) = alpha_at(sheet, &mut c, desk) {
        let mut side = Cursor::over(rest_after(c.rest(), 1));
        assign_rest(sheet, &mut side, desk, &to);
    }
}

pub fn assign_typed(sheet: &mut Sheet<'_>, desk: &mut Desk) {
    let own = sheet.cell();
    let typed = sheet.cell();
    execute(sheet, desk, own);
    if let Some(line) = line_of(sheet, typed) {
        assign_at(sheet, after_count(&line, 0), desk);
    }
}
