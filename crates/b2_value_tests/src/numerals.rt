// Numbers from text and to text.
//
// - `numeral write | NUMBER`: the 24 bytes, of marks, after the printed form was put at their front.
// - `numeral read | TEXT`: the length of the longest number at the front, and the number.
// - `numeral literal | TEXT`: the same, with the code of one that is out of range.
// - `numeral num | TEXT`: the length of the number with the spaces around it.
use crate::items::next_dec;
use crate::showing::show_dec;
use b2_cases::Sheet;
use b2_dectext::{literal, num, read, write};

pub fn answer(call: &str, sheet: &mut Sheet<'_>) {
    match call {
        "write" => written(sheet),
        "read" => found(sheet),
        "literal" => found_literal(sheet),
        "num" => measured(sheet),
        _ => sheet.no_such_call(),
    }
}

fn written(sheet: &mut Sheet<'_>) {
    let x = next_dec(sheet);
    let mut into = [b'#'; 24];
    let len = write(x, &mut into);
    sheet.show_quoted(&into);
    sheet.show(" ");
    sheet.show_number(len as u64);
}

fn found(sheet: &mut Sheet<'_>) {
    let text = sheet.bytes();
    let (len, number) = read(&text);
    sheet.show_number(len as u64);
    sheet.show(" ");
    match number {
        Some(x) => show_dec(sheet, x),
        None => sheet.show("none"),
    }
}

fn found_literal(sheet: &mut Sheet<'_>) {
    let text = sheet.bytes();
    match literal(&text) {
        Some((len, number)) => {
            sheet.show_number(len as u64);
            sheet.show(" ");
            match number {
                Ok(x) => show_dec(sheet, x),
                Err(code) => sheet.show_code(code),
            }
        }
        None => sheet.show("none"),
    }
}

fn measured(sheet: &mut Sheet<'_>) {
    let text = sheet.bytes();
    sheet.show_number(num(&text) as u64);
}
