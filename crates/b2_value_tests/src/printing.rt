// What PRINT, PRINTUSING and CONVERT show.
//
// - `print lay | COLUMN | WIDTH | ITEMS`: all bytes after a `>` that was there, and the column after them.
// - `print using | IMAGE | VALUES | FOLLOWED`: all bytes after a `>` that was there, after the code, if any. FOLLOWED is `yes`
//   where more is shown after them.
// - `print convert | IMAGE | NUMBER`: what stands in place of `old`, after the code, if any.
// - `print column_after | COLUMN | TEXT`.
//
// There are at most four items. An item is a number, bytes between quotes, `TAB COLUMN`, `HEX "BYTES"`, `ZONE`, `LINE`,
// `AT ROW COLUMN ERASED` or `BOX ROWS COLUMNS`.
ghost use Rattle.std.specs.Prelude.{◌≤◌};

use crate::items::{dec_of, next_dec, next_values};
use b2_cases::{Item, Sheet, is_yes, number_of, str_of};
use b2_dec::Bytes;
use b2_print::{Item as Shown, are_on_screen, column_after, convert, lay, using};

pub fn answer(call: &str, sheet: &mut Sheet<'_>) {
    match call {
        "lay" => laid(sheet),
        "using" => imaged(sheet),
        "convert" => converted(sheet),
        "column_after" => column(sheet),
        _ => sheet.no_such_call(),
    }
}

/// Reads bytes between quotes, as they stand there.
fn hex_bytes<'a>(sheet: &mut Sheet<'a>) -> &'a [u8] {
    match sheet.item() {
        Item::Quoted(bytes) => bytes,
        Item::Word(_) => {
            sheet.misread();
            &[]
        }
    }
}

/// Reads an item of PRINT.
fn shown<'a>(sheet: &mut Sheet<'a>) -> Shown<'a> {
    let word = match sheet.item() {
        Item::Quoted(bytes) => return Shown::Alpha(bytes),
        Item::Word(word) => word,
    };
    match str_of(word) {
        "TAB" => Shown::Tab(sheet.small()),
        "HEX" => Shown::Hex(hex_bytes(sheet)),
        "ZONE" => Shown::Zone,
        "LINE" => Shown::Line,
        "AT" => Shown::At {
            row: sheet.small(),
            column: sheet.small(),
            erase: sheet.small(),
        },
        "BOX" => Shown::Outline {
            rows: sheet.small(),
            columns: sheet.small(),
        },
        _ => Shown::Number(dec_of(sheet, word)),
    }
}

/// Reads an item of PRINT, or gives a newline where all have been read.
fn shown_or_line<'a>(sheet: &mut Sheet<'a>) -> Shown<'a> {
    if sheet.has_items() {
        shown(sheet)
    } else {
        Shown::Line
    }
}

/// How many items of PRINT there are, of at most four.
fn count_of(sheet: &mut Sheet<'_>) -> usize
    ensures { result ≤ 4 }
{
    for count in 0..4usize {
        if !sheet.has_items() {
            return count;
        }
        shown(sheet);
    }
    4
}

fn laid(sheet: &mut Sheet<'_>) {
    let from = number_of(sheet.cell());
    let width = number_of(sheet.cell());
    let text = sheet.bytes();
    let count = count_of(&mut Sheet::of_items(sheet.alloc(), &text));
    let mut items = Sheet::of_items(sheet.alloc(), &text);
    let all = [
        shown_or_line(&mut items),
        shown_or_line(&mut items),
        shown_or_line(&mut items),
        shown_or_line(&mut items),
    ];
    if !items.is_well_read() {
        return sheet.misread();
    }
    show_laid(sheet, &all[..count], from, width);
}

fn show_laid(sheet: &mut Sheet<'_>, items: &[Shown<'_>], from: u16, width: u16) {
    if !are_on_screen(items) {
        return sheet.show("off the screen");
    }
    let mut into = Vec::new(sheet.alloc());
    sheet.push(&mut into, b'>');
    match lay(sheet.alloc(), items, from, width, &mut into) {
        Ok(after) => {
            sheet.show_quoted(&into);
            sheet.show(" ");
            sheet.show_number(u64::from(after));
        }
        Err(_) => sheet.no_memory(),
    }
}

fn imaged(sheet: &mut Sheet<'_>) {
    let image = sheet.bytes();
    let values = next_values(sheet);
    let is_followed = is_yes(sheet.cell());
    let mut into = Vec::new(sheet.alloc());
    sheet.push(&mut into, b'>');
    if let Err(fault) = using(sheet.alloc(), &image, &values, is_followed, &mut into) {
        sheet.show_fault(fault);
        sheet.show(" ");
    }
    sheet.show_quoted(&into);
}

fn converted(sheet: &mut Sheet<'_>) {
    let image = sheet.bytes();
    let x = next_dec(sheet);
    let mut into = Bytes::new();
    into.extend(b"old");
    if image.len() > 255 {
        return sheet.misread();
    }
    sheet.show_refused(convert(&image, x, &mut into));
    sheet.show_quoted(into.bytes());
}

fn column(sheet: &mut Sheet<'_>) {
    let from = number_of(sheet.cell());
    let text = sheet.bytes();
    sheet.show_number(u64::from(column_after(from, &text)));
}
