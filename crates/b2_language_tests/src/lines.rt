// Lines of atoms: their units, the rows of these, and how they are listed.
use crate::atom_cells::show_atoms;
use crate::row_names::{name_of, row_named};
use b2_atom::{Atoms, Cursor, reads_row};
use b2_cases::{Sheet, number_of};
use b2_lister::list;
use b2_rows::is_read;

/// Shows the bytes that are taken of a unit one by one, with a `!` after one that was shown otherwise before, and after
/// the last where there is a further one.
fn show_taken(sheet: &mut Sheet<'_>, unit: Cursor<'_>) {
    let mut cursor = unit;
    let whole = cursor.rest();
    show_atoms(sheet, whole);
    for byte in whole {
        if cursor.peek() != Some(*byte) || cursor.take() != Some(*byte) {
            sheet.show("!");
        }
    }
    if cursor.take().is_some() {
        sheet.show("!");
    }
}

/// `units | ATOMS`: each unit, and to which a step goes on that passes the rest of its statement; or that the bytes spell
/// no line.
pub fn units(sheet: &mut Sheet<'_>, atoms: &[u8]) {
    match Atoms::of(sheet.alloc(), atoms) {
        Ok(Some(line)) => {
            if line.bytes() != atoms || line.unit(line.units()).is_some() {
                sheet.show("!");
            }
            for k in 0..line.units() {
                show_unit(sheet, &line, k);
            }
        }
        Ok(None) => sheet.show("no line"),
        Err(_) => sheet.no_memory(),
    }
}

fn show_unit(sheet: &mut Sheet<'_>, line: &Atoms, k: usize) {
    if k > 0 {
        sheet.show(", ");
    }
    if let Some(cursor) = line.unit(k) {
        show_taken(sheet, cursor);
    }
    sheet.show(" to ");
    sheet.show_number(line.skip(k) as u64);
}

/// `rows | ATOMS`: the row of each unit.
pub fn rows(sheet: &mut Sheet<'_>, atoms: &[u8]) {
    match Atoms::of(sheet.alloc(), atoms) {
        Ok(Some(line)) => {
            for k in 0..line.units() {
                show_row(sheet, &line, k);
            }
        }
        Ok(None) => sheet.show("no line"),
        Err(_) => sheet.no_memory(),
    }
}

fn show_row(sheet: &mut Sheet<'_>, line: &Atoms, k: usize) {
    if k > 0 {
        sheet.show(", ");
    }
    match line.find_unit(k) {
        Some(unit) => sheet.show(name_of(unit.row)),
        None => sheet.show("no unit"),
    }
}

/// `list | ATOMS | NUMBER`: the line of that number as it is listed.
pub fn listed(sheet: &mut Sheet<'_>, atoms: &[u8]) {
    let number = number_of(sheet.cell());
    match Atoms::of(sheet.alloc(), atoms) {
        Ok(Some(line)) => show_listed(sheet, number, &line),
        Ok(None) => sheet.show("no line"),
        Err(_) => sheet.no_memory(),
    }
}

fn show_listed(sheet: &mut Sheet<'_>, number: u16, line: &Atoms) {
    let mut text = Vec::new(sheet.alloc());
    match list(sheet.alloc(), number, line.bytes(), &mut text) {
        Ok(()) => sheet.show_bytes(&text),
        Err(_) => sheet.no_memory(),
    }
}

/// `reads row | TEXT | ROW`: whether the row is read at the front of the text, as the table's walk says and as the layer of
/// rows says.
pub fn reads(sheet: &mut Sheet<'_>, text: &[u8]) {
    match row_named(sheet.cell()) {
        Some(row) => {
            sheet.show_truth(reads_row(row, text));
            sheet.show(" ");
            sheet.show_truth(is_read(row, text));
        }
        None => sheet.misread(),
    }
}
