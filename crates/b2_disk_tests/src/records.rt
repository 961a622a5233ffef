// Calls on records, alone and on a disk.
use crate::answers::{show_number, show_sector};
use crate::images;
use crate::values::{show_values, values_left};
use crate::words::whole;
use b2_cases::Sheet;
use b2_dec::Value;
use b2_platter::Platter;
use b2_record::{all_short, put, sectors_of, take};

/// Makes the call of that name, and returns whether it is one of these.
pub fn is_answered(p: &mut Platter, call: &str, sheet: &mut Sheet<'_>) -> bool {
    match call {
        "put" => put_at(p, sheet),
        "take" => take_from(p, sheet),
        _ => return false,
    }
    true
}

/// The sectors of a record, one after the other. Misread where a value may not stand in a record, or they are too many.
fn sectors(sheet: &mut Sheet<'_>, values: &[Value]) -> Vec<u8> {
    let mut bytes = Vec::new(sheet.alloc());
    if !all_short(values) {
        sheet.misread();
        return bytes;
    }
    let Some(count) = sectors_of(values) else {
        sheet.misread();
        return bytes;
    };
    for k in 1..count + 1 {
        let mut sector = [0xEE; 256];
        put(values, k, &mut sector);
        sheet.append(&mut bytes, &sector);
    }
    bytes
}

/// `record | VALUES`: the sectors of the record, with `/` between them.
pub fn show_sectors(sheet: &mut Sheet<'_>) {
    sheet.open();
    let values = values_left(sheet);
    let bytes = sectors(sheet, &values);
    let mut left: &[u8] = &bytes;
    for place in 0..bytes.len() {
        let Some((sector, rest)) = left.split_first_chunk::<256>() else {
            break;
        };
        if place > 0 {
            sheet.show(" / ");
        }
        show_sector(sheet, sector);
        left = rest;
    }
}

/// `sectors | VALUES`: how many sectors the record of these values has; `none` where it would have too many.
pub fn count_sectors(sheet: &mut Sheet<'_>) {
    sheet.open();
    let values = values_left(sheet);
    if !all_short(&values) {
        return sheet.misread();
    }
    match sectors_of(&values) {
        Some(sectors) => show_number(sheet, sectors),
        None => sheet.show("none"),
    }
}

/// `put SECTOR VALUES`: puts the record of these values into the image from a sector on.
fn put_at(p: &mut Platter, sheet: &mut Sheet<'_>) {
    let from = 256 * whole(sheet) as usize;
    let values = values_left(sheet);
    let bytes = sectors(sheet, &values);
    let mut image = images::image_of(p, sheet);
    for (place, byte) in bytes.iter().enumerate() {
        images::put_byte(sheet, &mut image, from.saturating_add(place), *byte);
    }
    images::open(sheet, p, image);
}

/// `take SECTOR LAST`: the record that begins at a sector and ends at the last one or before, and how many sectors it has.
fn take_from(p: &Platter, sheet: &mut Sheet<'_>) {
    let at = whole(sheet);
    let last = whole(sheet);
    if last >= p.sectors() {
        return sheet.misread();
    }
    match take(sheet.alloc(), p, at, last) {
        Ok((values, count)) => {
            show_values(sheet, &values);
            sheet.show("in ");
            show_number(sheet, count);
        }
        Err(fault) => sheet.show_fault(fault),
    }
}
