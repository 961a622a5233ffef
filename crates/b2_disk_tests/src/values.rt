// Values as rows say and show them: a number, bytes between quotes, or `x*124` for that many letters x.
use b2_base::lexical::first_bytes;
use b2_cases::{Item, Sheet, whole_of};
use b2_dec::{Bytes, Dec, Kind, Value};
use b2_dectext::{read, write};

/// The letter that stands in values of which only the length counts.
const LETTER: u8 = b'x';

/// The value of that many letters.
fn letters(sheet: &mut Sheet<'_>, count: u32) -> Value {
    let mut bytes = Bytes::new();
    for _ in 0..count {
        if bytes.len() >= 255 {
            sheet.misread();
            break;
        }
        bytes.push(LETTER);
    }
    Value::Alpha(bytes)
}

/// The value of the bytes between quotes.
fn alpha_of(sheet: &mut Sheet<'_>, inner: &[u8]) -> Value {
    match Bytes::of(&sheet.spelled(inner)) {
        Some(alpha) => Value::Alpha(alpha),
        None => {
            sheet.misread();
            Value::Alpha(Bytes::new())
        }
    }
}

/// The number that a word is.
fn number_of(sheet: &mut Sheet<'_>, word: &[u8]) -> Value {
    match read(word) {
        (length, Some(number)) if length == word.len() => Value::Number(number),
        _ => {
            sheet.misread();
            Value::Number(Dec::of_whole(0))
        }
    }
}

fn value_of(sheet: &mut Sheet<'_>, item: Item<'_>) -> Value {
    match item {
        Item::Quoted(inner) => alpha_of(sheet, inner),
        Item::Word([b'x', b'*', count @ ..]) => letters(sheet, whole_of(count)),
        Item::Word(word) => number_of(sheet, word),
    }
}

/// Adds the value of an item that many times.
fn add_times(sheet: &mut Sheet<'_>, values: &mut Vec<Value>, times: u32, item: Item<'_>) {
    for _ in 0..times {
        let value = value_of(sheet, item);
        sheet.push(values, value);
    }
}

/// Reads the values that are left of the open cell; after a word `*510` the next one stands that many times.
pub fn values_left(sheet: &mut Sheet<'_>) -> Vec<Value> {
    let mut values = Vec::new(sheet.alloc());
    for _ in 0..u64::MAX {
        if !sheet.has_items() {
            break;
        }
        match sheet.item() {
            Item::Word([b'*', times @ ..]) => {
                let item = sheet.item();
                add_times(sheet, &mut values, whole_of(times), item);
            }
            item => add_times(sheet, &mut values, 1, item),
        }
    }
    values
}

/// Reads the kinds that a word says: `N` for a number, and `A` for an alpha value.
pub fn kinds(sheet: &mut Sheet<'_>) -> Vec<Kind> {
    let mut kinds = Vec::new(sheet.alloc());
    for letter in sheet.word() {
        match *letter {
            b'N' => sheet.push(&mut kinds, Kind::Number),
            b'A' => sheet.push(&mut kinds, Kind::Alpha),
            _ => sheet.misread(),
        }
    }
    kinds
}

/// Shows a number.
fn show_dec(sheet: &mut Sheet<'_>, number: Dec) {
    let mut text = [0; 24];
    let length = write(number, &mut text);
    for byte in first_bytes(&text, length) {
        if *byte != b' ' {
            sheet.show_letter(*byte);
        }
    }
}

fn show_alpha(sheet: &mut Sheet<'_>, bytes: &[u8]) {
    if bytes.iter().all(|byte| *byte == b'x') {
        sheet.show("x*");
        sheet.show_number(bytes.len() as u64);
    } else {
        sheet.show_quoted(bytes);
    }
}

/// Shows values, each with a blank after it.
pub fn show_values(sheet: &mut Sheet<'_>, values: &[Value]) {
    for value in values {
        match value {
            Value::Number(number) => show_dec(sheet, *number),
            Value::Alpha(alpha) => show_alpha(sheet, alpha.bytes()),
        }
        sheet.show(" ");
    }
}
