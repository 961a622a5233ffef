// Numbers, values and packed bytes as rows show them.
use b2_base::lexical::{first_bytes, hex_pair, rest_after};
use b2_cases::Sheet;
use b2_dec::{Dec, Value};

/// Digits without the zeros at their end.
fn without_last_zeros(digits: &[u8]) -> &[u8] {
    let mut left = digits;
    for _ in 0..digits.len() {
        match left {
            [before @ .., b'0'] => left = before,
            _ => break,
        }
    }
    left
}

/// Shows a number with all its digits: from .1 to 9999999999999 as it is, and else with one digit before the point and an
/// exponent.
pub fn show_dec(sheet: &mut Sheet<'_>, x: Dec) {
    if x.is_zero() {
        return sheet.show("0");
    }
    if x.is_negative() {
        sheet.show("-");
    }
    let exponent = x.exponent();
    let is_plain = exponent >= -1 && exponent <= 12;
    let whole = if is_plain { (exponent + 1) as usize } else { 1 };
    show_digits(sheet, x.coefficient(), whole);
    if !is_plain {
        sheet.show("E");
        sheet.show_signed(i64::from(exponent));
    }
}

/// Shows digits with a point after so many of them, and without the zeros at the end of the fraction.
fn show_digits(sheet: &mut Sheet<'_>, coefficient: u64, whole: usize) {
    let Ok(digits) = format!(in sheet.alloc(); "{coefficient}") else {
        return sheet.no_memory();
    };
    sheet.show_letters(first_bytes(digits.as_bytes(), whole));
    let fraction = without_last_zeros(rest_after(digits.as_bytes(), whole));
    if !fraction.is_empty() {
        sheet.show(".");
        sheet.show_letters(fraction);
    }
}

/// Shows numbers with a blank between them.
pub fn show_decs(sheet: &mut Sheet<'_>, xs: &[Dec]) {
    for (place, x) in xs.iter().enumerate() {
        if place > 0 {
            sheet.show(" ");
        }
        show_dec(sheet, *x);
    }
}

/// Shows a value: a number, or bytes between quotes.
pub fn show_value(sheet: &mut Sheet<'_>, value: &Value) {
    match value {
        Value::Number(x) => show_dec(sheet, *x),
        Value::Alpha(bytes) => sheet.show_quoted(bytes.bytes()),
    }
}

/// Shows values with a blank between them.
pub fn show_values(sheet: &mut Sheet<'_>, values: &[Value]) {
    for (place, value) in values.iter().enumerate() {
        if place > 0 {
            sheet.show(" ");
        }
        show_value(sheet, value);
    }
}

/// How often a byte stands at the front of a text.
fn run_length(byte: u8, text: &[u8]) -> usize {
    text.iter().take_while(|other| **other == byte).count()
}

/// The shortest run of a byte that is shown once.
const SHOWN_ONCE: usize = 10;

/// Shows bytes in hexadecimal digits; a long run of one byte is shown once, with its length, and stands apart.
pub fn show_packed(sheet: &mut Sheet<'_>, bytes: &[u8]) {
    let mut left = bytes;
    let mut is_apart = true;
    for _ in 0..bytes.len() {
        let [byte, ..] = left else {
            break;
        };
        let run = run_length(*byte, left);
        let is_run = run >= SHOWN_ONCE;
        if is_run && !is_apart {
            sheet.show(" ");
        }
        sheet.show_letters(&hex_pair(*byte));
        if is_run {
            sheet.show("*");
            sheet.show_number(run as u64);
            sheet.show(" ");
        }
        is_apart = is_run;
        left = rest_after(left, if is_run { run } else { 1 });
    }
}
