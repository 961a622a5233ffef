// Receivers at a cursor.
use b2_atom::Cursor;
use b2_atom::rows::{ALPHA_RECEIVER, BUFFER, NUMERIC_RECEIVER, RECEIVER, VARIABLE, WHOLE_ARRAY};
use b2_base::Code;
use b2_cases::Sheet;
use b2_dec::Kind;
use b2_expr::{Element, Env};
use b2_receiver::{
    AlphaReceiver, Array, Buffer, Receiver, alpha_receiver, any_receiver, array_named, buffer,
    number_receiver, whole_array,
};
use b2_rows::is_read;
use b2_vars::Var;

/// Shows the name of a variable.
fn show_name(sheet: &mut Sheet<'_>, global: bool, var: &Var) {
    if global {
        sheet.show("@");
    }
    sheet.show_letter(var.letter);
    if let Some(digit) = var.digit {
        sheet.show_letter(digit);
    }
    if var.alpha {
        sheet.show("$");
    }
}

fn show_whole(sheet: &mut Sheet<'_>, array: &Array) {
    show_name(sheet, array.global, &array.var);
    sheet.show(if array.var.array { "()" } else { "" });
}

fn show_element(sheet: &mut Sheet<'_>, to: &Element) {
    show_name(sheet, to.global, &to.var);
    sheet.show("(");
    sheet.show_number(u64::from(to.row));
    sheet.show(",");
    sheet.show_number(u64::from(to.column));
    sheet.show(")");
}

fn show_portion(sheet: &mut Sheet<'_>, to: &AlphaReceiver) {
    show_element(sheet, &to.element);
    sheet.show(" ");
    sheet.show_number(to.portion.from as u64);
    sheet.show(" ");
    sheet.show_number(to.portion.count as u64);
}

/// Shows the numeric receiver at a cursor; gives the code where there is none.
pub fn show_numeric(c: &mut Cursor<'_>, e: &Env<'_>, sheet: &mut Sheet<'_>) -> Option<Code> {
    if !is_read(NUMERIC_RECEIVER, c.rest()) {
        sheet.misread();
        return None;
    }
    match number_receiver(c, e) {
        Ok(to) => {
            show_element(sheet, &to);
            None
        }
        Err(code) => Some(code),
    }
}

/// Shows the alpha receiver at a cursor.
pub fn show_alpha(c: &mut Cursor<'_>, e: &Env<'_>, sheet: &mut Sheet<'_>) -> Option<Code> {
    if !is_read(ALPHA_RECEIVER, c.rest()) {
        sheet.misread();
        return None;
    }
    match alpha_receiver(c, e) {
        Ok(to) => {
            show_portion(sheet, &to);
            None
        }
        Err(code) => Some(code),
    }
}

/// Shows the receiver of either kind at a cursor.
pub fn show_any(c: &mut Cursor<'_>, e: &Env<'_>, sheet: &mut Sheet<'_>) -> Option<Code> {
    if !is_read(RECEIVER, c.rest()) {
        sheet.misread();
        return None;
    }
    match any_receiver(c, e) {
        Ok(Receiver::Number(to)) => show_element(sheet, &to),
        Ok(Receiver::Alpha(to)) => show_portion(sheet, &to),
        Err(code) => return Some(code),
    }
    None
}

/// Shows the buffer at a cursor.
pub fn show_buffer(c: &mut Cursor<'_>, e: &Env<'_>, sheet: &mut Sheet<'_>) -> Option<Code> {
    if !is_read(BUFFER, c.rest()) {
        sheet.misread();
        return None;
    }
    match buffer(c, e) {
        Ok(Buffer::Value(to)) => show_portion(sheet, &to),
        Ok(Buffer::Array(array)) => show_whole(sheet, &array),
        Err(code) => return Some(code),
    }
    None
}

/// Shows the whole array at a cursor.
pub fn show_array(c: &mut Cursor<'_>, e: &Env<'_>, sheet: &mut Sheet<'_>) -> Option<Code> {
    if !is_read(WHOLE_ARRAY, c.rest()) {
        sheet.misread();
        return None;
    }
    match whole_array(c, e) {
        Ok(array) => {
            show_whole(sheet, &array);
            None
        }
        Err(code) => Some(code),
    }
}

/// Shows the array of the name at a cursor.
#[tactic(auto, using(b2_expr::proofs::Names::number_leaf))]
pub fn show_named(c: &mut Cursor<'_>, e: &Env<'_>, sheet: &mut Sheet<'_>) -> Option<Code> {
    if !is_read(VARIABLE, c.rest()) {
        sheet.misread();
        return None;
    }
    match array_named(c, Kind::Number, e) {
        Ok(array) => {
            show_whole(sheet, &array);
            None
        }
        Err(code) => Some(code),
    }
}
