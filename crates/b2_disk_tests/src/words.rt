// The words of a call: numbers, names and kinds of files.
use b2_base::Name8;
use b2_base::lexical::{digits_width, hex_value, is_hex_digit};
use b2_cases::{Sheet, str_of, whole_of};

/// Reads a whole number, at most 100000000.
pub fn whole(sheet: &mut Sheet<'_>) -> u32 {
    let word = sheet.word();
    if word.is_empty() || digits_width(word) != word.len() {
        sheet.misread();
    }
    whole_of(word)
}

/// Reads a whole number of sectors, lines or bytes, at most 65535.
pub fn short(sheet: &mut Sheet<'_>) -> u16 {
    let number = whole(sheet);
    if number > 65535 {
        sheet.misread();
        return 0;
    }
    number as u16
}

/// Reads the name of a file, None where the word is none.
pub fn name(sheet: &mut Sheet<'_>) -> Option<Name8> {
    let word = sheet.word();
    let found = Name8::of(&sheet.spelled(word));
    if found.is_none() {
        sheet.misread();
    }
    found
}

/// Reads `P` for a program, or `D` for data: whether it is a program.
pub fn is_program(sheet: &mut Sheet<'_>) -> bool {
    match str_of(sheet.word()) {
        "P" => true,
        "D" => false,
        _ => {
            sheet.misread();
            false
        }
    }
}

/// The byte that two hexadecimal digits say, None where they say none.
pub fn hex_byte_of(word: &[u8]) -> Option<u8> {
    match word {
        [high, low] if is_hex_digit(*high) && is_hex_digit(*low) => {
            Some(hex_value(*high) * 16 + hex_value(*low))
        }
        _ => None,
    }
}
