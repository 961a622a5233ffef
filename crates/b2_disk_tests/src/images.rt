// Calls on a platter as a whole.
use crate::answers::{show_number, show_pairs, show_sector};
use crate::words::{hex_byte_of, whole};
use b2_base::NoMemory;
use b2_base::lexical::{first_bytes, rest_after};
use b2_cases::Sheet;
use b2_platter::{ImageErr, Platter};
use std::alloc::Global;

/// Makes the call of that name, and returns whether it is one of these.
pub fn is_answered(p: &mut Platter, call: &str, sheet: &mut Sheet<'_>) -> bool {
    match call {
        "blank" => make_blank(p, sheet),
        "change" => change(p, sheet),
        "resize" => resize(p, sheet),
        "sector" => show_one(p, sheet),
        "bytes" => show_some(p, sheet),
        "size" => show_number(sheet, p.sectors()),
        "version" => show_number(sheet, u32::from(p.version())),
        _ => return false,
    }
    true
}

/// A blank disk of a version, None where it has no disk of so many sectors.
pub fn blank_of(alloc: Global, sectors: u32, version: u32) -> Option<Result<Platter, NoMemory>> {
    if version == 1 && sectors >= 16 && sectors <= 32512 {
        return Some(Platter::blank(alloc, sectors, 1));
    }
    if version == 2 && sectors >= 16 && sectors <= 262144 {
        return Some(Platter::blank(alloc, sectors, 2));
    }
    None
}

/// `blank SECTORS`, or `blank SECTORS VERSION`: a blank disk in place of this one, of its version where none is said.
fn make_blank(p: &mut Platter, sheet: &mut Sheet<'_>) {
    let sectors = whole(sheet);
    let version = if sheet.has_items() {
        whole(sheet)
    } else {
        u32::from(p.version())
    };
    match blank_of(sheet.alloc(), sectors, version) {
        Some(Ok(blank)) => *p = blank,
        Some(Err(_)) => sheet.no_memory(),
        None => sheet.misread(),
    }
}

/// The image of a disk.
pub fn image_of(p: &Platter, sheet: &mut Sheet<'_>) -> Vec<u8> {
    let mut image = Vec::new(sheet.alloc());
    sheet.append(&mut image, p.image());
    image
}

/// `change PLACE BYTE .. ; PLACE BYTE ..`: opens the image with these bytes in place. Where it isn't good, the disk stays.
fn change(p: &mut Platter, sheet: &mut Sheet<'_>) {
    let mut image = image_of(p, sheet);
    put_changes(sheet, &mut image);
    open(sheet, p, image);
}

/// `resize LENGTH PLACE BYTE .. ; ..`: the same of the image with another length.
fn resize(p: &mut Platter, sheet: &mut Sheet<'_>) {
    let length = whole(sheet) as usize;
    let Ok(mut image) = vec![in sheet.alloc(); 0; length] else {
        return sheet.no_memory();
    };
    for (place, byte) in p.image().iter().enumerate() {
        if place < image.len() {
            image[place] = *byte;
        }
    }
    put_changes(sheet, &mut image);
    open(sheet, p, image);
}

/// Opens an image in place of the disk: `good`, or the first check that it fails.
pub fn open(sheet: &mut Sheet<'_>, p: &mut Platter, image: Vec<u8>) {
    match Platter::open(image) {
        Ok(opened) => {
            *p = opened;
            sheet.show("good");
        }
        Err(refused) => show_check(sheet, refused),
    }
}

/// Shows which check an image fails.
pub fn show_check(sheet: &mut Sheet<'_>, refused: ImageErr) {
    let ImageErr(check) = refused;
    sheet.show("check ");
    sheet.show_number(u64::from(check));
}

/// Puts a byte in its place.
pub fn put_byte(sheet: &mut Sheet<'_>, image: &mut Vec<u8>, place: usize, byte: u8) {
    if place >= image.len() {
        return sheet.misread();
    }
    image[place] = byte;
}

/// Puts bytes in their places, each group of them from a place on.
fn put_changes(sheet: &mut Sheet<'_>, image: &mut Vec<u8>) {
    for _ in 0..u64::MAX {
        if !sheet.has_items() {
            break;
        }
        let place = whole(sheet) as usize;
        put_group(sheet, image, place);
    }
}

/// Puts bytes in place from one on, up to a `;` or the end.
fn put_group(sheet: &mut Sheet<'_>, image: &mut Vec<u8>, from: usize) {
    let mut place = from;
    for _ in 0..u64::MAX {
        let word = sheet.word();
        if matches!(word, [] | [b';']) {
            break;
        }
        match hex_byte_of(word) {
            Some(byte) => put_byte(sheet, image, place, byte),
            None => sheet.misread(),
        }
        place = place.saturating_add(1);
    }
}

/// `sector N`: its bytes up to the last that isn't 00.
fn show_one(p: &Platter, sheet: &mut Sheet<'_>) {
    let n = whole(sheet);
    if n >= p.sectors() {
        return sheet.misread();
    }
    show_sector(sheet, p.sector(n));
}

/// `bytes PLACE COUNT`: bytes of the image.
fn show_some(p: &Platter, sheet: &mut Sheet<'_>) {
    let place = whole(sheet) as usize;
    let count = whole(sheet) as usize;
    show_pairs(sheet, first_bytes(rest_after(p.image(), place), count));
}
