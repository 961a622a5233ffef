// Calls on the catalogue of a disk.
ghost use Rattle.std.specs.Prelude.{◌≡◌, ◌<◌, ◌+◌, IfSome};

use crate::answers::{show_done, show_next_number, show_number};
use crate::words::{is_program, name, whole};
use b2_base::codes::Code;
use b2_base::{Name8, Steps};
use b2_cases::Sheet;
use b2_catalog::{Entry, enter, find, format, limits, listing, look, reuse, scratch, set_used};
use b2_platter::{Platter, checks, image};
use std::marker::Brand;
use std::sync::ledger::{Blank, Ledger};

/// Makes the call of that name, and returns whether it is one of these.
pub fn is_answered(p: &mut Platter, call: &str, sheet: &mut Sheet<'_>) -> bool {
    match call {
        "enter" => enter_all(p, sheet),
        "reuse" => take_again(p, sheet),
        "used" => use_sectors(p, sheet),
        "limits" => show_limits(p, sheet),
        "format" => format_disk(p, sheet),
        "listing" => show_listing(p, sheet),
        "scratch" | "look" | "find" | "reads" => {
            if let Some(name) = name(sheet) {
                at_name(p, name, call, sheet);
            }
        }
        _ => return false,
    }
    true
}

/// Makes a call on the file of a name.
fn at_name(p: &mut Platter, name: Name8, call: &str, sheet: &mut Sheet<'_>) {
    match call {
        "scratch" => show_done(sheet, scratch(p, name)),
        "look" => show_found(sheet, name, look(p, name)),
        "find" => find_counted(p, name, sheet),
        _ => show_reads(p, name, sheet),
    }
}

/// Shows an entry as a listing has it: P for a program or D for data, S where it is scratched, its first, its last and
/// its used sectors; and whether it is of another name.
fn show_entry(sheet: &mut Sheet<'_>, name: Name8, e: Entry) {
    sheet.show(if e.program { "P" } else { "D" });
    if !e.live {
        sheet.show("S");
    }
    show_next_number(sheet, e.start);
    show_next_number(sheet, e.end);
    show_next_number(sheet, e.used);
    if e.name != name {
        sheet.show(" of another name");
    }
}

/// Shows what was made, or a code.
fn show_made(sheet: &mut Sheet<'_>, name: Name8, outcome: Result<Entry, Code>) {
    match outcome {
        Ok(e) => show_entry(sheet, name, e),
        Err(code) => sheet.show_code(code),
    }
}

/// Shows what was found, or `none`.
fn show_found(sheet: &mut Sheet<'_>, name: Name8, found: Option<Entry>) {
    match found {
        Some(e) => show_entry(sheet, name, e),
        None => sheet.show("none"),
    }
}

/// `enter KIND SECTORS NAME ..`: enters files of these names.
fn enter_all(p: &mut Platter, sheet: &mut Sheet<'_>) {
    let program = is_program(sheet);
    let sectors = whole(sheet);
    if sectors < 2 {
        return sheet.misread();
    }
    for k in 0..u64::MAX {
        if !sheet.has_items() {
            break;
        }
        if k > 0 {
            sheet.show(", ");
        }
        if let Some(name) = name(sheet) {
            show_made(sheet, name, enter(p, name, program, sectors));
        }
    }
}

/// `reuse OLD NEW KIND`.
fn take_again(p: &mut Platter, sheet: &mut Sheet<'_>) {
    let old = name(sheet);
    let new = name(sheet);
    let program = is_program(sheet);
    if let (Some(old), Some(new)) = (old, new) {
        show_made(sheet, new, reuse(p, old, new, program));
    }
}

/// What the counted look-up finds.
fn found<L: Ledger>(p: &Platter, name: Name8, blank: Blank) -> Option<Entry>
    requires name { blank.name ≡ L.name }
    requires parts { blank.parts ≡ L.parts }
    requires some { 0 < L.parts }
{
    find(p, name, &mut Steps::<L>::new(blank))
}

/// `find NAME`.
fn find_counted(p: &Platter, name: Name8, sheet: &mut Sheet<'_>) {
    show_found(sheet, name, found::<Brand>(p, name, Blank::new(1)));
}

/// How many of two index sectors the look-up of a name that isn't there reads, which are its steps: one where the first on
/// its way has a free slot, else both. None where the name is there, or the index has another size.
fn sectors_read<L: Ledger>(p: &Platter, name: Name8, steps: &mut Steps<L>) -> Option<u32>
    ensures { IfSome result (λ read. steps.new ≡ steps.old + read) }
{
    let image = p.image();
    if image.len() < 512 || image::index(image) != 2 {
        return None;
    }
    if find(p, name, steps).is_some() {
        return None;
    }
    if checks::has_free(image, checks::hash(2, &name.bytes())) {
        return Some(1);
    }
    Some(2)
}

/// The same, with a count of its own.
fn sectors_counted<L: Ledger>(p: &Platter, name: Name8, blank: Blank) -> Option<u32>
    requires name { blank.name ≡ L.name }
    requires parts { blank.parts ≡ L.parts }
    requires some { 0 < L.parts }
{
    sectors_read(p, name, &mut Steps::<L>::new(blank))
}

/// `reads NAME`: how many of two index sectors the look-up of a name reads that isn't there, and `none` where it is. That
/// these are the steps that `find` counts is proved.
fn show_reads(p: &Platter, name: Name8, sheet: &mut Sheet<'_>) {
    match sectors_counted::<Brand>(p, name, Blank::new(1)) {
        Some(read) => show_number(sheet, read),
        None => sheet.show("none"),
    }
}

/// `used NAME SECTORS`: says how many sectors of a live file are used.
fn use_sectors(p: &mut Platter, sheet: &mut Sheet<'_>) {
    let Some(name) = name(sheet) else {
        return;
    };
    let used = whole(sheet);
    if let Some(e) = look(p, name)
        && e.live
        && used >= 1
        && e.end.saturating_sub(e.start) >= used
    {
        set_used(p, e, used);
        return sheet.show("done");
    }
    sheet.misread();
}

/// `limits`: the index sectors, the first sector after the catalogue, and the next free sector.
fn show_limits(p: &Platter, sheet: &mut Sheet<'_>) {
    let (index, end, next) = limits(p);
    show_number(sheet, index);
    show_next_number(sheet, end);
    show_next_number(sheet, next);
}

/// `format INDEX LAST`.
fn format_disk(p: &mut Platter, sheet: &mut Sheet<'_>) {
    let index = whole(sheet);
    let end = whole(sheet);
    show_done(sheet, format(p, index, end));
}

/// `listing`.
fn show_listing(p: &Platter, sheet: &mut Sheet<'_>) {
    let mut text = Vec::new(sheet.alloc());
    match listing(p, &mut text) {
        Ok(()) => sheet.show_bytes(&text),
        Err(_) => sheet.no_memory(),
    }
}
