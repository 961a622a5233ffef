// Calls on data files. The slot that was opened last is the one that they are made with.
ghost use Rattle.std.specs.Prelude.{◌≡◌, ◌≤◌, true, IfSome};
ghost use Rattle.std.specs.List.{list_all};
ghost use Rattle.b2_record.specs.Items.{is_short};

use crate::answers::{show_next_number, show_number};
use crate::values::{kinds, show_values, values_left};
use crate::words::{name, whole};
use b2_base::{Addr, Code};
use b2_cases::Sheet;
use b2_datafile::{By, Slot, end, load, open, open_new, save, skip};
use b2_dec::Value;
use b2_platter::Platter;
use b2_record::all_short;

/// Makes the call of that name, and returns whether it is one of these.
pub fn is_answered(
    p: &mut Platter,
    slot: &mut Option<Slot>,
    call: &str,
    sheet: &mut Sheet<'_>,
) -> bool {
    match call {
        "make" => make(p, slot, sheet),
        "remake" => remake(p, slot, sheet),
        "open" => open_one(p, slot, sheet),
        "at" => place_at(slot, sheet),
        "save-many" => save_many(p, slot, sheet),
        "load-all" => load_all(p, slot, sheet),
        "save" | "end" | "load" | "forward" | "back" | "to-begin" | "to-end" => {
            match opened(slot) {
                Some(s) => at_slot(p, &s, call, sheet),
                None => sheet.misread(),
            }
        }
        _ => return false,
    }
    true
}

/// Makes a call at the place of the slot.
fn at_slot(p: &mut Platter, s: &Slot, call: &str, sheet: &mut Sheet<'_>)
    requires { s.now.start ≤ s.now.pos }
{
    match call {
        "save" => save_one(p, s, sheet),
        "end" => show_place(sheet, end(p, s)),
        "load" => load_one(p, s, sheet),
        "forward" => {
            let count = whole(sheet);
            move_by(p, s, By::Forward(count), sheet);
        }
        "back" => {
            let count = whole(sheet);
            move_by(p, s, By::Back(count), sheet);
        }
        "to-begin" => move_by(p, s, By::Begin, sheet),
        _ => move_by(p, s, By::End, sheet),
    }
}

/// The slot that is open, where its place isn't before its file.
fn opened(slot: &Option<Slot>) -> Option<Slot>
    ensures { IfSome result (λ s. s.start ≤ s.pos) }
{
    match slot {
        Some(s) if s.start <= s.pos => Some(*s),
        _ => None,
    }
}

/// Shows the first and the last sector of a slot's file, and its place.
fn show_slot(sheet: &mut Sheet<'_>, s: &Slot) {
    show_number(sheet, s.start);
    show_next_number(sheet, s.end);
    sheet.show(" at");
    show_next_number(sheet, s.pos);
}

/// Takes the slot that was opened and shows it, or the code.
fn take_slot(slot: &mut Option<Slot>, outcome: Result<Slot, Code>, sheet: &mut Sheet<'_>) {
    match outcome {
        Ok(s) => {
            show_slot(sheet, &s);
            *slot = Some(s);
        }
        Err(code) => sheet.show_code(code),
    }
}

/// `make SECTORS NAME`: makes a new data file. Its disk's address is no more than handed on.
fn make(p: &mut Platter, slot: &mut Option<Slot>, sheet: &mut Sheet<'_>) {
    let sectors = whole(sheet);
    match name(sheet) {
        Some(name) if sectors >= 2 => {
            take_slot(
                slot,
                open_new(p, Addr::default(), None, sectors, name),
                sheet,
            );
        }
        _ => sheet.misread(),
    }
}

/// `remake OLD NAME`: makes a data file of the sectors of a scratched one.
fn remake(p: &mut Platter, slot: &mut Option<Slot>, sheet: &mut Sheet<'_>) {
    let Some(old) = name(sheet) else {
        return;
    };
    if let Some(new) = name(sheet) {
        take_slot(slot, open_new(p, Addr::default(), Some(old), 0, new), sheet);
    }
}

/// `open NAME`.
fn open_one(p: &Platter, slot: &mut Option<Slot>, sheet: &mut Sheet<'_>) {
    if let Some(name) = name(sheet) {
        take_slot(slot, open(p, Addr::default(), name), sheet);
    }
}

/// The slot with another place.
fn moved(s: Slot, pos: u32) -> Slot {
    Slot {
        addr: s.addr,
        name: s.name,
        start: s.start,
        end: s.end,
        pos,
    }
}

/// `at SECTOR`: sets the place of the slot.
fn place_at(slot: &mut Option<Slot>, sheet: &mut Sheet<'_>) {
    let pos = whole(sheet);
    match *slot {
        Some(s) => *slot = Some(moved(s, pos)),
        None => sheet.misread(),
    }
}

/// Shows a place, or a code.
pub fn show_place(sheet: &mut Sheet<'_>, outcome: Result<u32, Code>) {
    match outcome {
        Ok(pos) => show_number(sheet, pos),
        Err(code) => sheet.show_code(code),
    }
}

/// Reads values that may stand in a record; none where one of them may not.
pub fn next_record(sheet: &mut Sheet<'_>) -> Vec<Value>
    ensures { list_all is_short result.items ≡ true }
{
    let values = values_left(sheet);
    if all_short(&values) {
        return values;
    }
    sheet.misread();
    Vec::new(sheet.alloc())
}

/// `save VALUES`: the place after the record.
fn save_one(p: &mut Platter, s: &Slot, sheet: &mut Sheet<'_>)
    requires { s.now.start ≤ s.now.pos }
{
    let values = next_record(sheet);
    show_place(sheet, save(p, s, &values));
}

/// `load KINDS`: the first values of the record, and the place after it; `end` where the records end.
fn load_one(p: &Platter, s: &Slot, sheet: &mut Sheet<'_>)
    requires { s.now.start ≤ s.now.pos }
{
    let kinds = kinds(sheet);
    match load(sheet.alloc(), p, s, &kinds) {
        Ok(None) => sheet.show("end"),
        Ok(Some((values, next))) => {
            show_values(sheet, &values);
            sheet.show("then ");
            show_number(sheet, next);
        }
        Err(fault) => sheet.show_fault(fault),
    }
}

/// `forward COUNT`, `back COUNT`, `to-begin` and `to-end`: the place that the slot's is moved to.
fn move_by(p: &Platter, s: &Slot, by: By, sheet: &mut Sheet<'_>)
    requires { s.now.start ≤ s.now.pos }
{
    match skip(sheet.alloc(), p, s, by) {
        Ok(pos) => show_number(sheet, pos),
        Err(fault) => sheet.show_fault(fault),
    }
}

/// `save-many COUNT VALUES`: saves the record that many times, each time at the place after it. The slot's place goes along.
fn save_many(p: &mut Platter, slot: &mut Option<Slot>, sheet: &mut Sheet<'_>) {
    let count = whole(sheet);
    let values = next_record(sheet);
    for _ in 0..count {
        let Some(s) = opened(slot) else {
            return sheet.misread();
        };
        match save(p, &s, &values) {
            Ok(pos) => *slot = Some(moved(s, pos)),
            Err(code) => return sheet.show_code(code),
        }
    }
    match slot {
        Some(s) => show_number(sheet, s.pos),
        None => sheet.misread(),
    }
}

/// How many records `load-all` loads at most.
const MOST_RECORDS: u32 = 2000;

/// `load-all KINDS`: loads records from the slot's place on: how many come before the end.
fn load_all(p: &Platter, slot: &Option<Slot>, sheet: &mut Sheet<'_>) {
    let kinds = kinds(sheet);
    let Some(mut s) = opened(slot) else {
        return sheet.misread();
    };
    for read in 0..MOST_RECORDS {
        if s.pos < s.start {
            break;
        }
        match load(sheet.alloc(), p, &s, &kinds) {
            Ok(None) => return show_number(sheet, read),
            Ok(Some((_, next))) => s = moved(s, next),
            Err(fault) => return sheet.show_fault(fault),
        }
    }
    sheet.misread();
}
