// PACK and UNPACK by an image, $PACK and $UNPACK by a specification.
//
// - `PACK | IMAGE | NUMBERS | BUFFER`: the code, if any, and the buffer after it.
// - `UNPACK | IMAGE | COUNT | BUFFER`: the numbers, or the code.
// - `$PACK | SPECIFICATION | VALUES | BUFFER`: the code, if any, and the buffer after it; `$PACK text` shows it as text.
// - `$UNPACK | SPECIFICATION | KINDS | BUFFER`: the values, or the code. KINDS has `A` for bytes, and `N` for a number.
//
// Buffers and specifications are hexadecimal digits, and texts in quotes.
use crate::items::{next_decs, next_packed, next_values};
use crate::showing::{show_decs, show_packed, show_values};
use b2_cases::Sheet;
use b2_dec::Kind;
use b2_pack::{fields, pack, unfields, unpack};

pub fn answer(call: &str, sheet: &mut Sheet<'_>) {
    match call {
        "PACK" => packed(sheet),
        "UNPACK" => unpacked(sheet),
        "$PACK" => fielded(sheet, false),
        "$PACK text" => fielded(sheet, true),
        "$UNPACK" => unfielded(sheet),
        _ => sheet.no_such_call(),
    }
}

fn packed(sheet: &mut Sheet<'_>) {
    let image = sheet.bytes();
    let xs = next_decs(sheet);
    let mut buffer = next_packed(sheet);
    sheet.show_refused(pack(&image, &xs, &mut buffer));
    show_packed(sheet, &buffer);
}

fn unpacked(sheet: &mut Sheet<'_>) {
    let image = sheet.bytes();
    sheet.open();
    let count = sheet.count();
    let buffer = next_packed(sheet);
    match unpack(sheet.alloc(), &image, count, &buffer) {
        Ok(xs) => show_decs(sheet, &xs),
        Err(fault) => sheet.show_fault(fault),
    }
}

fn fielded(sheet: &mut Sheet<'_>, as_text: bool) {
    let specification = next_packed(sheet);
    let values = next_values(sheet);
    let mut buffer = next_packed(sheet);
    sheet.show_refused(fields(&specification, &values, &mut buffer));
    if as_text {
        sheet.show_bytes(&buffer);
    } else {
        show_packed(sheet, &buffer);
    }
}

/// Reads a cell whose letters say kinds.
pub fn next_kinds(sheet: &mut Sheet<'_>) -> Vec<Kind> {
    let mut kinds = Vec::new(sheet.alloc());
    for letter in sheet.cell() {
        match *letter {
            b'A' => sheet.push(&mut kinds, Kind::Alpha),
            b'N' => sheet.push(&mut kinds, Kind::Number),
            _ => sheet.misread(),
        }
    }
    kinds
}

fn unfielded(sheet: &mut Sheet<'_>) {
    let specification = next_packed(sheet);
    let kinds = next_kinds(sheet);
    let buffer = next_packed(sheet);
    match unfields(sheet.alloc(), &specification, &kinds, &buffer) {
        Ok(values) => show_values(sheet, &values),
        Err(fault) => sheet.show_fault(fault),
    }
}
