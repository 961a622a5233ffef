// Places in a text of the lines `10 A=1:B=2` and `20 C=3`, at home in partition 2.
//
// `after | LINE | UNIT | SOURCE`: the place after a unit of a line of this source. `goal | LINE | UNIT | GOAL`: where a goal on a
// line leads from a place; a goal is `line N`, `unit N` or `next line`. A LINE `-` is the immediate line. Each gives the home,
// the line and the unit of the place, or `none`.
ghost use Rattle.std.specs.Prelude.{◌≡◌, ◌≤◌, IfSome};
ghost use Rattle.b2_access.specs.Places.{IsUnit};

use crate::pieces::{show_count, word};
use b2_access::{goal_place, place_after};
use b2_atom::Atoms;
use b2_base::{NoMemory, Part};
use b2_cases::{Sheet, number_of, small_of, str_of};
use b2_flow::Place;
use b2_rows::Goal;
use b2_text::Text;

/// How many bytes the area of the text has.
const AREA: usize = 2048;

/// The line of these bytes, None where they spell none.
pub fn line_spelled(sheet: &mut Sheet<'_>, bytes: &[u8]) -> Option<Atoms> {
    match Atoms::of(sheet.alloc(), bytes) {
        Ok(line) => line,
        Err(NoMemory) => {
            sheet.no_memory();
            None
        }
    }
}

/// Puts a line into a text. One that isn't taken is misread.
fn put_line(sheet: &mut Sheet<'_>, text: &mut Text, number: u16, source: &[u8])
    requires { number ≤ 9999 }
{
    match line_spelled(sheet, source) {
        Some(atoms) if text.put(number, &atoms).is_ok() => {}
        _ => sheet.misread(),
    }
}

/// The text of the two lines.
fn two_lines(sheet: &mut Sheet<'_>) -> Option<Text> {
    let Ok(mut text) = Text::new(sheet.alloc(), AREA) else {
        sheet.no_memory();
        return None;
    };
    put_line(sheet, &mut text, 10, b"A=1:B=2");
    put_line(sheet, &mut text, 20, b"C=3");
    Some(text)
}

/// The number of the line in a cell, None for the immediate line.
fn line_of(cell: &[u8]) -> Option<u16> {
    match str_of(cell) {
        "-" => None,
        _ => Some(number_of(cell)),
    }
}

/// A unit of a line, at home in partition 2.
fn place_of(line: Option<u16>, unit: u8) -> Place
    ensures { result.unit ≡ unit }
{
    Place {
        home: Part::known(2),
        line,
        unit,
    }
}

/// Shows what a place is.
pub fn show_place(sheet: &mut Sheet<'_>, place: &Option<Place>) {
    let Some(place) = place else {
        return sheet.show("none");
    };
    show_count(sheet, "home ", u64::from(place.home.number()));
    match place.line {
        Some(line) => show_count(sheet, " line ", u64::from(line)),
        None => sheet.show(" immediate line"),
    }
    show_count(sheet, " unit ", u64::from(place.unit));
}

/// The place after a unit.
pub fn after_unit(sheet: &mut Sheet<'_>) {
    let line = line_of(sheet.cell());
    let unit = small_of(sheet.cell()).min(254);
    let source = sheet.cell();
    let Some(text) = two_lines(sheet) else {
        return;
    };
    match line_spelled(sheet, source) {
        Some(atoms) => {
            let place = place_after(&text, &atoms.lend(), place_of(line, unit));
            show_place(sheet, &place);
        }
        None => sheet.misread(),
    }
}

/// The goal in a cell, None where it is misspelled.
fn goal_of(cell: &[u8]) -> Option<Goal>
    ensures { IfSome result IsUnit }
{
    let (kind, rest) = word(cell);
    match str_of(kind) {
        "line" => Some(Goal::Line(number_of(rest))),
        "unit" => Some(Goal::Unit(usize::from(small_of(rest)))),
        "next" => Some(Goal::NextLine),
        _ => None,
    }
}

/// Where a goal leads.
pub fn at_goal(sheet: &mut Sheet<'_>) {
    let line = line_of(sheet.cell());
    let unit = small_of(sheet.cell());
    let Some(goal) = goal_of(sheet.cell()) else {
        return sheet.misread();
    };
    if let Some(text) = two_lines(sheet) {
        let place = goal_place(&text, place_of(line, unit), goal);
        show_place(sheet, &place);
    }
}
