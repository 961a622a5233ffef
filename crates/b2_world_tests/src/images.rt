// Images of platters, as rows spell them.
//
// An image is spelled in words: how many bytes it has, and then places and the bytes that stand from there on. All other bytes
// are 00.
use crate::pieces::word;
use b2_cases::{Sheet, whole_of};
use b2_platter::Platter;

/// Puts bytes in place from one on, as far as the image goes.
fn put_bytes(image: &mut Vec<u8>, from: usize, bytes: &[u8]) {
    for (index, byte) in bytes.iter().enumerate() {
        let place = from.saturating_add(index);
        if place < image.len() {
            image[place] = *byte;
        }
    }
}

/// Puts the bytes in place that words spell.
fn put_words(sheet: &mut Sheet<'_>, image: &mut Vec<u8>, words: &[u8]) {
    let mut left = words;
    for _ in 0..words.len() {
        let (place, after) = word(left);
        let (text, rest) = word(after);
        let bytes = sheet.spelled(text);
        put_bytes(image, whole_of(place) as usize, &bytes);
        left = rest;
    }
}

/// The platter of the image that a text spells, None where that isn't good.
pub fn platter_spelled(sheet: &mut Sheet<'_>, spelled: &[u8]) -> Option<Platter> {
    let (length, words) = word(spelled);
    let Ok(mut image) = vec![in sheet.alloc(); 0; whole_of(length) as usize] else {
        sheet.no_memory();
        return None;
    };
    put_words(sheet, &mut image, words);
    match Platter::open(image) {
        Ok(platter) => Some(platter),
        Err(_) => None,
    }
}
