// The lexical layer: kinds of bytes, digits, and the fronts of texts.
//
// - `text cut | MARK | TEXT`: the first piece, and what follows the mark.
// - `text kinds | BYTE`: the kinds of the byte.
// - `text NAME | TEXT`: what the call of that name gives for the text, or for its first byte or all of its bytes.
// - `text NAME | TEXT | NUMBER`, for the calls that take a place, a count or a cap.
// - `text NAME | NUMBER`, for the calls that take a number.
use b2_base::cut;
use b2_base::lexical::{
    all_printable, at, capped_value, decimal_byte, decimal_of, digits_width, first, first_bytes,
    hex_digit, hex_pair, hex_value, is_decimal, is_digit, is_hex_digit, is_letter, is_printable,
    is_small_letter, rest_after, skip_blanks, upper, without_zeros,
};
use b2_cases::{Sheet, small_of, whole_of};

pub fn answer(call: &str, sheet: &mut Sheet<'_>) {
    match call {
        "cut" => cut_at(sheet),
        "hex_digit" | "decimal_byte" => of_number(call, sheet),
        "at" | "rest_after" | "first_bytes" | "capped_value" => placed(call, sheet),
        _ => of_text(call, sheet),
    }
}

fn cut_at(sheet: &mut Sheet<'_>) {
    let mark = sheet.bytes();
    let text = sheet.bytes();
    let (before, after) = cut(&text, first(&mark));
    sheet.show_bytes(before);
    if let Some(rest) = after {
        sheet.show(" then ");
        sheet.show_bytes(rest);
    }
}

fn of_number(call: &str, sheet: &mut Sheet<'_>) {
    let n = small_of(sheet.cell());
    match call {
        "hex_digit" if n < 16 => sheet.show_bytes(&[hex_digit(n)]),
        "decimal_byte" if n < 100 => sheet.show_bytes(&[decimal_byte(n)]),
        _ => sheet.misread(),
    }
}

fn placed(call: &str, sheet: &mut Sheet<'_>) {
    let text = sheet.bytes();
    let n = whole_of(sheet.cell());
    match call {
        "at" => sheet.show_bytes(&[at(&text, n as usize)]),
        "rest_after" => sheet.show_bytes(rest_after(&text, n as usize)),
        "first_bytes" => sheet.show_bytes(first_bytes(&text, n as usize)),
        _ => sheet.show_number(u64::from(capped_value(&text, n.min(100000000)))),
    }
}

fn of_text(call: &str, sheet: &mut Sheet<'_>) {
    let text = sheet.bytes();
    match call {
        "first" => sheet.show_bytes(&[first(&text)]),
        "skip_blanks" => sheet.show_bytes(skip_blanks(&text)),
        "digits_width" => sheet.show_number(digits_width(&text) as u64),
        "without_zeros" => sheet.show_bytes(without_zeros(&text)),
        "all_printable" => sheet.show_truth(all_printable(&text)),
        _ => of_byte(call, first(&text), sheet),
    }
}

fn of_byte(call: &str, byte: u8, sheet: &mut Sheet<'_>) {
    match call {
        "kinds" => show_kinds(byte, sheet),
        "upper" => sheet.show_bytes(&[upper(byte)]),
        "hex_value" if is_hex_digit(byte) => sheet.show_number(u64::from(hex_value(byte))),
        "hex_pair" => sheet.show_bytes(&hex_pair(byte)),
        "is_decimal" => sheet.show_truth(is_decimal(byte)),
        "decimal_of" => sheet.show_number(u64::from(decimal_of(byte))),
        _ => sheet.no_such_call(),
    }
}

fn show_kinds(byte: u8, sheet: &mut Sheet<'_>) {
    let kinds = [
        (is_digit(byte), "digit "),
        (is_letter(byte), "letter "),
        (is_small_letter(byte), "small "),
        (is_hex_digit(byte), "hex "),
        (is_printable(byte), "printable"),
    ];
    for (holds, name) in kinds {
        if holds {
            sheet.show(name);
        }
    }
}
