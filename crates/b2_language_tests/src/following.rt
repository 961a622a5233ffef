// The units of a line of a program, and what follows them.
use crate::row_names::name_of;
use b2_atom::{Atoms, LentAtoms, Origin};
use b2_cases::{Sheet, number_of};
use b2_rows::{Goal, after_false, next_unit, past_colon, row_unit, taken_fault};

/// Shows where a step goes on.
fn show_goal(sheet: &mut Sheet<'_>, goal: Goal) {
    match goal {
        Goal::Line(number) => {
            sheet.show("line ");
            sheet.show_number(u64::from(number));
        }
        Goal::Unit(k) => {
            sheet.show("unit ");
            sheet.show_number(k as u64);
        }
        Goal::NextLine => sheet.show("next line"),
    }
}

/// Shows the unit at which a step goes on after a fault.
fn show_taken(sheet: &mut Sheet<'_>, taken: Option<usize>) {
    match taken {
        Some(k) => {
            sheet.show("unit ");
            sheet.show_number(k as u64);
        }
        None => sheet.show("none"),
    }
}

/// `unit | TYPED LINE | UNIT`: the row of the unit, where a step goes on after it, past the next `:`, after a false IF, and
/// after a fault.
pub fn unit(sheet: &mut Sheet<'_>) {
    let typed = sheet.bytes();
    let k = usize::from(number_of(sheet.cell()));
    match Atoms::read(sheet.alloc(), Origin::Program, &typed) {
        Ok(Some(line)) => show_unit(sheet, &line.lend(), k),
        _ => sheet.show("no line"),
    }
}

fn show_unit(sheet: &mut Sheet<'_>, line: &LentAtoms<'_>, k: usize) {
    let Some(unit) = row_unit(line, k) else {
        return sheet.show("no unit");
    };
    sheet.show(name_of(unit.row));
    let goals = [
        (": then ", next_unit(line, k)),
        (", past ", past_colon(line, k)),
        (", false ", after_false(line, k)),
    ];
    for (words, goal) in goals {
        sheet.show(words);
        show_goal(sheet, goal);
    }
    sheet.show(", fault ");
    show_taken(sheet, taken_fault(line, k));
}

/// `uses | TYPED LINE | UNIT`: whether FN and whether an `@` name stands in the unit.
pub fn uses(sheet: &mut Sheet<'_>) {
    let typed = sheet.bytes();
    let k = usize::from(number_of(sheet.cell()));
    match Atoms::read(sheet.alloc(), Origin::Program, &typed) {
        Ok(Some(line)) => sheet.show(uses_of(&line.lend(), k)),
        _ => sheet.show("no line"),
    }
}

fn uses_of(line: &LentAtoms<'_>, k: usize) -> &'static str {
    match row_unit(line, k) {
        Some(unit) => match (unit.uses.functions, unit.uses.globals) {
            (true, true) => "both",
            (true, false) => "FN",
            (false, true) => "@",
            (false, false) => "neither",
        },
        None => "no unit",
    }
}
