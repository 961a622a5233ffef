// Typed lines and words.
use crate::atom_cells::show_atoms;
use crate::codes::{show_line_error, show_stop};
use b2_atom::words::word_text;
use b2_atom::{Atoms, Origin, read_source};
use b2_base::lexical::first;
use b2_cases::{Sheet, str_of};
use b2_syntax::{Entered, read};

/// `read | TYPED LINE`: what the line means, or the code and the column of what is missing.
pub fn read_line(sheet: &mut Sheet<'_>) {
    let typed = sheet.bytes();
    match read(sheet.alloc(), &typed) {
        Ok(entered) => show_entered(sheet, &entered),
        Err(error) => show_line_error(sheet, error),
    }
}

fn show_entered(sheet: &mut Sheet<'_>, entered: &Entered) {
    match entered {
        Entered::Empty => sheet.show("empty"),
        Entered::Delete(number) => {
            sheet.show("delete ");
            sheet.show_number(u64::from(*number));
        }
        Entered::Immediate(atoms) => {
            sheet.show("immediate ");
            show_atoms(sheet, atoms.bytes());
        }
        Entered::Numbered(number, atoms) => {
            sheet.show("line ");
            sheet.show_number(u64::from(*number));
            sheet.show(" ");
            show_atoms(sheet, atoms.bytes());
        }
    }
}

/// Where a typed text is read from.
fn origin_of(cell: &[u8]) -> Option<Origin> {
    match str_of(cell) {
        "program" => Some(Origin::Program),
        "immediate" => Some(Origin::Immediate),
        _ => None,
    }
}

/// `source | ORIGIN | TYPED TEXT`: its atoms, or the code of what is missing and how many bytes are left there.
pub fn source(sheet: &mut Sheet<'_>) {
    let Some(origin) = origin_of(sheet.cell()) else {
        return sheet.misread();
    };
    let typed = sheet.bytes();
    match read_source(sheet.alloc(), origin, &typed) {
        Ok(atoms) => show_atoms(sheet, &atoms),
        Err(stop) => show_stop(sheet, stop),
    }
}

/// `line | ORIGIN | TYPED TEXT`: the atoms of a copy of the line, with a `!` where they differ from the line's own.
pub fn line(sheet: &mut Sheet<'_>) {
    let Some(origin) = origin_of(sheet.cell()) else {
        return sheet.misread();
    };
    let typed = sheet.bytes();
    match Atoms::read(sheet.alloc(), origin, &typed) {
        Ok(Some(atoms)) => show_copy(sheet, &atoms),
        Ok(None) => sheet.show("too long"),
        Err(stop) => show_stop(sheet, stop),
    }
}

fn show_copy(sheet: &mut Sheet<'_>, line: &Atoms) {
    match line.try_clone(sheet.alloc()) {
        Ok(copy) => {
            if copy.bytes() != line.bytes() {
                sheet.show("!");
            }
            show_atoms(sheet, copy.bytes());
        }
        Err(_) => sheet.no_memory(),
    }
}

/// `word | BYTE`: how the word of that code is spelled.
pub fn word(sheet: &mut Sheet<'_>) {
    let code = sheet.bytes();
    sheet.show_bytes(word_text(first(&code)));
}
