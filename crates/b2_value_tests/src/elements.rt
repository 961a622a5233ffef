// Arrays of alpha values: searches, moves by locators, and sorts. Bytes are hexadecimal digits, and texts in quotes. A receiver
// has points before a call, as many as ROOM says; it is shown as text.
//
// - `element search | ARRAY | RELATION | VALUE | STEP | ROOM`: the receiver.
// - `element move_by | ARRAY | LENGTH | LOCATORS | LENGTH | ROOM`: how many were moved, or the code, and the receiver. The
//   lengths are those of an element of the array and of the receiver.
// - `element sort_locators | ARRAY | LENGTH | ROOM`: the receiver, after the code, if any.
// - `element copy | ARRAY | ROOM`: the receiver.
use crate::items::next_packed;
use crate::strings::next_relation;
use b2_cases::Sheet;
use b2_matalpha::{copy, move_by, search, sort_locators};

pub fn answer(call: &str, sheet: &mut Sheet<'_>) {
    match call {
        "search" => found(sheet),
        "move_by" => moved(sheet),
        "sort_locators" => sorted(sheet),
        "copy" => copied(sheet),
        _ => sheet.no_such_call(),
    }
}

/// Reads a cell that says how many points a receiver has.
fn next_points(sheet: &mut Sheet<'_>) -> Vec<u8> {
    let alloc = sheet.alloc();
    sheet.open();
    let room = sheet.number();
    match vec![in alloc; b'.'; room as usize] {
        Ok(points) => points,
        Err(_) => {
            sheet.no_memory();
            Vec::new(alloc)
        }
    }
}

/// Reads a cell that says a whole number.
fn next_count(sheet: &mut Sheet<'_>) -> usize {
    sheet.open();
    sheet.count()
}

fn found(sheet: &mut Sheet<'_>) {
    let array = next_packed(sheet);
    let relation = next_relation(sheet);
    let value = next_packed(sheet);
    let step = next_count(sheet);
    let mut into = next_points(sheet);
    if array.len() > 65535 || value.is_empty() || step == 0 {
        return sheet.misread();
    }
    search(&array, relation, &value, step, &mut into);
    sheet.show_bytes(&into);
}

fn moved(sheet: &mut Sheet<'_>) {
    let array = next_packed(sheet);
    let len = next_count(sheet);
    let locators = next_packed(sheet);
    let to_len = next_count(sheet);
    let mut to = next_points(sheet);
    if array.len() > 65535 || len == 0 || to_len == 0 {
        return sheet.misread();
    }
    match move_by(&array, len, &locators, &mut to, to_len) {
        Ok(count) => sheet.show_number(count as u64),
        Err(code) => sheet.show_code(code),
    }
    sheet.show(" ");
    sheet.show_bytes(&to);
}

fn sorted(sheet: &mut Sheet<'_>) {
    let array = next_packed(sheet);
    let len = next_count(sheet);
    let mut into = next_points(sheet);
    if array.len() > 65535 || len == 0 {
        return sheet.misread();
    }
    if let Err(fault) = sort_locators(sheet.alloc(), &array, len, &mut into) {
        sheet.show_fault(fault);
        sheet.show(" ");
    }
    sheet.show_bytes(&into);
}

fn copied(sheet: &mut Sheet<'_>) {
    let array = next_packed(sheet);
    let mut into = next_points(sheet);
    copy(&array, &mut into);
    sheet.show_bytes(&into);
}
