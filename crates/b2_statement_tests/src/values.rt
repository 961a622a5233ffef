// Values at a cursor.
use b2_atom::Cursor;
use b2_atom::rows::{ALPHA, CONDITION, SUM};
use b2_base::Code;
use b2_base::lexical::first_bytes;
use b2_cases::Sheet;
use b2_dec::{Bytes, Dec};
use b2_expr::{Env, alpha, condition, number};
use b2_rows::is_read;

/// Shows a number as PRINT would, but without blanks.
fn show_dec(sheet: &mut Sheet<'_>, value: Dec) {
    let mut printed = [0; 24];
    let count = b2_dectext::write(value, &mut printed);
    for byte in first_bytes(&printed, count) {
        if *byte != b' ' {
            sheet.show_letter(*byte);
        }
    }
}

/// Shows the number at a cursor; gives the code where there is none.
pub fn show_number(c: &mut Cursor<'_>, e: &Env<'_>, sheet: &mut Sheet<'_>) -> Option<Code> {
    if !is_read(SUM, c.rest()) {
        sheet.misread();
        return None;
    }
    match number(c, e) {
        Ok(value) => {
            show_dec(sheet, value);
            None
        }
        Err(code) => Some(code),
    }
}

/// Shows the alpha value at a cursor. The bytes are those that were there before, where the code comes.
pub fn show_alpha(c: &mut Cursor<'_>, e: &Env<'_>, sheet: &mut Sheet<'_>) -> Option<Code> {
    if !is_read(ALPHA, c.rest()) {
        sheet.misread();
        return None;
    }
    let mut bytes = Bytes::of(b"KEPT").unwrap_or(Bytes::new());
    let found = alpha(c, e, &mut bytes);
    sheet.show_bytes(bytes.bytes());
    match found {
        Ok(()) => None,
        Err(code) => {
            sheet.show(" ");
            Some(code)
        }
    }
}

/// Shows whether the condition at a cursor holds.
pub fn show_condition(c: &mut Cursor<'_>, e: &Env<'_>, sheet: &mut Sheet<'_>) -> Option<Code> {
    if !is_read(CONDITION, c.rest()) {
        sheet.misread();
        return None;
    }
    match condition(c, e) {
        Ok(holds) => {
            sheet.show_truth(holds);
            None
        }
        Err(code) => Some(code),
    }
}
