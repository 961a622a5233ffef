// What the cells of a row say.
use b2_base::cut;
use b2_base::lexical::{capped_value, hex_value, is_hex_digit};
use std::alloc::{AllocError, Global};
use std::str;

/// The cells of a row that have not been read.
#[derive(Clone, Copy)]
pub struct Cells<'a> {
    left: &'a [u8],
}

impl<'a> Cells<'a> {
    pub(crate) fn of(left: &'a [u8]) -> Cells<'a> {
        Cells { left }
    }

    /// Returns whether all cells have been read.
    pub fn is_empty(&self) -> bool {
        self.left.is_empty()
    }

    /// Reads a cell, and gives it without the blanks around it; an empty one where all have been read.
    pub fn next(&mut self) -> &'a [u8] {
        let (cell, rest) = cut(self.left, b'|');
        self.left = rest.unwrap_or(&[]);
        trimmed(cell)
    }
}

/// A text without the blanks at both ends.
pub(crate) fn trimmed(text: &[u8]) -> &[u8] {
    let mut left = text;
    for _ in 0..text.len() {
        match left {
            [b' ', inner @ ..] => left = inner,
            [inner @ .., b' '] => left = inner,
            _ => break,
        }
    }
    left
}

/// The bytes that a cell spells.
pub fn bytes_of(alloc: Global, cell: &[u8]) -> Result<Vec<u8>, AllocError> {
    let mut bytes = Vec::new(alloc);
    let mut left = cell;
    for _ in 0..cell.len() {
        match left {
            [b'\\', high, low, rest @ ..] if is_hex_digit(*high) && is_hex_digit(*low) => {
                bytes.push(hex_value(*high) * 16 + hex_value(*low))?;
                left = rest;
            }
            [byte, rest @ ..] => {
                bytes.push(*byte)?;
                left = rest;
            }
            [] => break,
        }
    }
    Ok(bytes)
}

/// The whole number that a cell's digits say, at most 100000000.
pub fn whole_of(cell: &[u8]) -> u32 {
    capped_value(cell, 100000000)
}

/// The whole number that a cell's digits say, at most 65535.
pub fn number_of(cell: &[u8]) -> u16 {
    capped_value(cell, 65535) as u16
}

/// The whole number that a cell's digits say, at most 255.
pub fn small_of(cell: &[u8]) -> u8 {
    capped_value(cell, 255) as u8
}

/// Returns whether a cell says `yes`.
pub fn is_yes(cell: &[u8]) -> bool {
    matches!(cell, b"yes")
}

/// The text of a cell; none where its bytes are no text.
pub fn str_of(cell: &[u8]) -> &str {
    str::from_utf8(cell).unwrap_or("")
}
