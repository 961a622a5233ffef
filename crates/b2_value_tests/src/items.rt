// What the cells and items of a row say: numbers, values and bytes.
use b2_base::cut;
use b2_base::lexical::{hex_value, is_hex_digit};
use b2_cases::{Item, Sheet, number_of};
use b2_dec::{Bytes, Dec, Value};
use b2_dectext::read;

/// The number that a word is.
pub fn dec_of(sheet: &mut Sheet<'_>, word: &[u8]) -> Dec {
    match read(word) {
        (len, Some(x)) if len == word.len() => x,
        _ => {
            sheet.misread();
            Dec::of_whole(0)
        }
    }
}

/// Reads a cell that is a number.
pub fn next_dec(sheet: &mut Sheet<'_>) -> Dec {
    let cell = sheet.cell();
    dec_of(sheet, cell)
}

/// Reads the numbers that are left of the open cell.
pub fn decs_left(sheet: &mut Sheet<'_>) -> Vec<Dec> {
    let mut all = Vec::new(sheet.alloc());
    for _ in 0..u64::MAX {
        if !sheet.has_items() {
            break;
        }
        let word = sheet.word();
        let x = dec_of(sheet, word);
        sheet.push(&mut all, x);
    }
    all
}

/// Reads a cell of numbers.
pub fn next_decs(sheet: &mut Sheet<'_>) -> Vec<Dec> {
    sheet.open();
    decs_left(sheet)
}

/// Reads an item that is a value: a number, or the bytes between quotes.
pub fn value(sheet: &mut Sheet<'_>) -> Value {
    match sheet.item() {
        Item::Word(word) => Value::Number(dec_of(sheet, word)),
        Item::Quoted(text) => Value::Alpha(bytes_of(sheet, text)),
    }
}

/// The bytes that a text spells.
fn bytes_of(sheet: &mut Sheet<'_>, text: &[u8]) -> Bytes {
    match Bytes::of(&sheet.spelled(text)) {
        Some(bytes) => bytes,
        None => {
            sheet.misread();
            Bytes::new()
        }
    }
}

/// Reads a cell of values.
pub fn next_values(sheet: &mut Sheet<'_>) -> Vec<Value> {
    let mut all = Vec::new(sheet.alloc());
    sheet.open();
    for _ in 0..u64::MAX {
        if !sheet.has_items() {
            break;
        }
        let value = value(sheet);
        sheet.push(&mut all, value);
    }
    all
}

/// Appends the bytes that a word spells in hexadecimal digits.
fn push_hex(sheet: &mut Sheet<'_>, into: &mut Vec<u8>, word: &[u8]) {
    let mut left = word;
    for _ in 0..word.len() {
        match left {
            [high, low, rest @ ..] if is_hex_digit(*high) && is_hex_digit(*low) => {
                sheet.push(into, hex_value(*high) * 16 + hex_value(*low));
                left = rest;
            }
            [] => break,
            _ => return sheet.misread(),
        }
    }
}

/// Appends the bytes of an item: those between quotes, or those of a word in hexadecimal digits, which `*` and a number
/// repeat.
fn push_item(sheet: &mut Sheet<'_>, into: &mut Vec<u8>) {
    match sheet.item() {
        Item::Quoted(text) => {
            let bytes = sheet.spelled(text);
            sheet.append(into, &bytes);
        }
        Item::Word(word) => {
            let (pairs, times) = cut(word, b'*');
            for _ in 0..times.map_or(1, number_of) {
                push_hex(sheet, into, pairs);
            }
        }
    }
}

/// Reads a cell of bytes: texts in quotes, and words of hexadecimal digits.
pub fn next_packed(sheet: &mut Sheet<'_>) -> Vec<u8> {
    let mut all = Vec::new(sheet.alloc());
    sheet.open();
    for _ in 0..u64::MAX {
        if !sheet.has_items() {
            break;
        }
        push_item(sheet, &mut all);
    }
    all
}
