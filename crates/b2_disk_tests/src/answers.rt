// What calls answer, as rows show it.
use b2_base::Code;
use b2_base::lexical::{hex_pair, rest_after};
use b2_cases::Sheet;

/// Shows `done`, or a code.
pub fn show_done(sheet: &mut Sheet<'_>, outcome: Result<(), Code>) {
    match outcome {
        Ok(()) => sheet.show("done"),
        Err(code) => sheet.show_code(code),
    }
}

/// Shows a number.
pub fn show_number(sheet: &mut Sheet<'_>, n: u32) {
    sheet.show_number(u64::from(n));
}

/// Shows a number, after a blank.
pub fn show_next_number(sheet: &mut Sheet<'_>, n: u32) {
    sheet.show(" ");
    show_number(sheet, n);
}

/// How many bytes at the front are this one.
fn count_of_front(bytes: &[u8], byte: u8) -> usize {
    for (place, other) in bytes.iter().enumerate() {
        if *other != byte {
            return place;
        }
    }
    bytes.len()
}

/// From how many equal bytes on they are shown as one, with their count.
const RUN: usize = 8;

/// Shows bytes as pairs of digits with blanks between them; a run of eight or more equal bytes as one, with its length
/// after `*`.
pub fn show_pairs(sheet: &mut Sheet<'_>, bytes: &[u8]) {
    let mut left = bytes;
    for shown in 0..bytes.len() {
        let [byte, rest @ ..] = left else {
            break;
        };
        if shown > 0 {
            sheet.show(" ");
        }
        sheet.show_letters(&hex_pair(*byte));
        let length = count_of_front(left, *byte);
        if length >= RUN {
            sheet.show("*");
            sheet.show_number(length as u64);
            left = rest_after(left, length);
        } else {
            left = rest;
        }
    }
}

/// Bytes up to the last that isn't 00.
fn without_end(bytes: &[u8]) -> &[u8] {
    let mut left = bytes;
    for _ in 0..bytes.len() {
        match left {
            [inner @ .., 0] => left = inner,
            _ => break,
        }
    }
    left
}

/// Shows the bytes of a sector up to the last that isn't 00; `00` where all are.
pub fn show_sector(sheet: &mut Sheet<'_>, sector: &[u8; 256]) {
    let bytes = without_end(sector);
    if bytes.is_empty() {
        sheet.show("00");
    }
    show_pairs(sheet, bytes);
}
