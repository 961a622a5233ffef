// The words of a cell, and what the drivers show in the same way.
use b2_base::cut;
use b2_cases::Sheet;

/// The first word of a text, and what follows the blank after it.
pub fn word(text: &[u8]) -> (&[u8], &[u8]) {
    let (first, rest) = cut(text, b' ');
    (first, rest.unwrap_or(&[]))
}

/// The cells that are left as lines of a text, with a newline between two.
pub fn text_of(sheet: &mut Sheet<'_>) -> Vec<u8> {
    let mut text = Vec::new(sheet.alloc());
    for line in 0..u64::MAX {
        if sheet.is_empty() {
            break;
        }
        if line > 0 {
            sheet.append(&mut text, b"\n");
        }
        let bytes = sheet.bytes();
        sheet.append(&mut text, &bytes);
    }
    text
}

/// Shows a name, and bytes after a blank.
pub fn show_named(sheet: &mut Sheet<'_>, name: &str, bytes: &[u8]) {
    sheet.show(name);
    sheet.show(" ");
    sheet.show_bytes(bytes);
}

/// Shows a text, and a number after it.
pub fn show_count(sheet: &mut Sheet<'_>, text: &str, number: u64) {
    sheet.show(text);
    sheet.show_number(number);
}
