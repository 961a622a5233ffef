// Calls on sectors by their number.
use crate::answers::{show_number, show_sector};
use crate::data_files::{next_record, show_place};
use crate::values::{kinds, show_values};
use crate::words::{hex_byte_of, whole};
use b2_base::cut;
use b2_cases::{Sheet, whole_of};
use b2_platter::Platter;
use b2_raw::{block, end, load, put_block, save};

/// Makes the call of that name, and returns whether it is one of these.
pub fn is_answered(p: &mut Platter, call: &str, sheet: &mut Sheet<'_>) -> bool {
    match call {
        "raw-save" => save_at(p, sheet),
        "raw-end" => {
            let at = whole(sheet);
            show_place(sheet, end(p, at));
        }
        "raw-load" => load_at(p, sheet),
        "put-block" => put_at(p, sheet),
        "block" => show_at(p, sheet),
        _ => return false,
    }
    true
}

/// `raw-save SECTOR VALUES`: the sector after the record.
fn save_at(p: &mut Platter, sheet: &mut Sheet<'_>) {
    let at = whole(sheet);
    let values = next_record(sheet);
    show_place(sheet, save(p, at, &values));
}

/// `raw-load SECTOR KINDS`: the first values of the record, and the sector after it; `end` where the end mark is.
fn load_at(p: &Platter, sheet: &mut Sheet<'_>) {
    let at = whole(sheet);
    let kinds = kinds(sheet);
    match load(sheet.alloc(), p, at, &kinds) {
        Ok(None) => sheet.show("end"),
        Ok(Some((values, next))) => {
            show_values(sheet, &values);
            sheet.show("then ");
            show_number(sheet, next);
        }
        Err(fault) => sheet.show_fault(fault),
    }
}

/// Adds the byte of a word, as often as it says.
fn add_bytes(sheet: &mut Sheet<'_>, bytes: &mut Vec<u8>, word: &[u8]) {
    let (pair, times) = cut(word, b'*');
    let count = match times {
        Some(times) => whole_of(times),
        None => 1,
    };
    for _ in 0..count {
        match hex_byte_of(pair) {
            Some(byte) => sheet.append(bytes, &[byte]),
            None => return sheet.misread(),
        }
    }
}

/// Reads the bytes that are left of the open cell.
fn bytes_left(sheet: &mut Sheet<'_>) -> Vec<u8> {
    let mut bytes = Vec::new(sheet.alloc());
    for _ in 0..u64::MAX {
        if !sheet.has_items() {
            break;
        }
        let word = sheet.word();
        add_bytes(sheet, &mut bytes, word);
    }
    bytes
}

/// `put-block SECTOR BYTES`: the next sector.
fn put_at(p: &mut Platter, sheet: &mut Sheet<'_>) {
    let at = whole(sheet);
    let bytes = bytes_left(sheet);
    if bytes.len() > 256 {
        return sheet.misread();
    }
    show_place(sheet, put_block(p, at, &bytes));
}

/// `block SECTOR`: its bytes up to the last that isn't 00.
fn show_at(p: &Platter, sheet: &mut Sheet<'_>) {
    let at = whole(sheet);
    match block(p, at) {
        Ok(bytes) => show_sector(sheet, &bytes),
        Err(code) => sheet.show_code(code),
    }
}
