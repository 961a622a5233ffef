// The screen that bytes leave.
//
// `screen | N | BYTES | MORE | ..`: bytes that are shown N times, and bytes after them, a cell for each call. It gives the row
// and the column of the cursor, and each row that isn't blank by its number, without the blanks at its end.
use crate::pieces::show_count;
use b2_cases::{Sheet, number_of};
use b2_screen::Screen;

/// Shows the row of this number, where it isn't blank.
fn show_row(sheet: &mut Sheet<'_>, number: u8, cells: &[u8]) {
    let text = cells.trim_ascii_end();
    if !text.is_empty() {
        show_count(sheet, ", ", u64::from(number));
        sheet.show(" ");
        sheet.show_bytes(text);
    }
}

/// Feeds bytes so many times.
fn feed_again(screen: &mut Screen, times: u16, bytes: &[u8]) {
    for _ in 0..times {
        screen.feed(bytes);
    }
}

/// Feeds the bytes of each cell that is left.
fn feed_cells(sheet: &mut Sheet<'_>, screen: &mut Screen) {
    for _ in 0..u64::MAX {
        if sheet.is_empty() {
            break;
        }
        screen.feed(&sheet.bytes());
    }
}

/// The screen after the bytes of the cells.
pub fn fed(sheet: &mut Sheet<'_>) {
    let mut screen = Screen::new();
    let times = number_of(sheet.cell());
    feed_again(&mut screen, times, &sheet.bytes());
    feed_cells(sheet, &mut screen);
    let (row, column) = screen.cursor();
    show_count(sheet, "cursor ", u64::from(row));
    show_count(sheet, " ", u64::from(column));
    for number in 0..24u8 {
        show_row(sheet, number, screen.row(number));
    }
}
