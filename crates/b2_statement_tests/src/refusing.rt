// Statements that one of the crates refuses, since another has them, since they are for programs alone, or since what is selected
// is no printer of theirs.
//
// `control | UNIT | LINE`, `variables | UNIT | LINE` and `terminal | UNIT | LINE`: the code of that statement of a line, counted from
// 0, by the crate of control, by that of statements on variables, or by that of statements at the terminal. The line is read as
// one of a program, since what is for programs alone isn't read where it is typed at once.
// `print | SELECTED | LINE`: the code by the last of these where this address is selected. There are the printers 215, for all, and
// 216, for another partition, and the platter D11.
use crate::desk::{Desk, code_at};
use b2_base::Addr;
use b2_cases::{Sheet, small_of};

/// Shows the code with which a crate refuses a statement of a line.
fn show_refusal(sheet: &mut Sheet<'_>, desk: &mut Desk, source: &[u8], unit: u8, by: &str) {
    match code_at(sheet, desk, source, unit, by) {
        Some(code) => sheet.show_code(code),
        None => sheet.show("no code"),
    }
}

pub fn refused(by: &str, sheet: &mut Sheet<'_>, desk: &mut Desk) {
    let unit = small_of(sheet.cell());
    let source = sheet.cell();
    show_refusal(sheet, desk, source, unit, by);
}

pub fn refused_print(sheet: &mut Sheet<'_>, desk: &mut Desk) {
    match Addr::of(sheet.cell()) {
        Some(selected) => desk.me.print = selected,
        None => sheet.misread(),
    }
    let source = sheet.cell();
    show_refusal(sheet, desk, source, 0, "terminal");
}
