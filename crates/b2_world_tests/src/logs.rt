// Logs, and the events that they are.
//
// `log | LINE | ..`: the events of a log of these lines over the boot `three`, or the first line that fails a check and its first
// check. An empty cell in the end is a newline after the last line.
use crate::boots::{named, no_boot};
use crate::pieces::{show_count, text_of};
use b2_boot::{Boot, Event, LogErr, log_of};
use b2_cases::Sheet;
use b2_term::KeyItem;

/// The most bytes that a log may have.
const LONGEST_LOG: usize = 4194304;

/// Shows a key at a terminal.
fn show_key(sheet: &mut Sheet<'_>, terminal: u8, key: KeyItem) {
    match key {
        KeyItem::Byte(byte) => {
            show_count(sheet, "key ", u64::from(terminal));
            sheet.show(" ");
            sheet.show_bytes(&[byte]);
        }
        KeyItem::Special(n) => {
            show_count(sheet, "special ", u64::from(terminal));
            show_count(sheet, " ", u64::from(n));
        }
    }
}

/// Shows an event.
fn show_event(sheet: &mut Sheet<'_>, event: Event) {
    match event {
        Event::Key(terminal, key) => show_key(sheet, terminal.number(), key),
        Event::Front(terminal, part) => {
            show_count(sheet, "front ", u64::from(terminal.number()));
            show_count(sheet, " ", u64::from(part.number()));
        }
        Event::Halt(part) => show_count(sheet, "halt ", u64::from(part.number())),
        Event::Reset(part) => show_count(sheet, "reset ", u64::from(part.number())),
        Event::Turn(part, quota) => {
            show_count(sheet, "turn ", u64::from(part.number()));
            show_count(sheet, " ", u64::from(quota));
        }
        Event::Rounds(n) => show_count(sheet, "rounds ", u64::from(n)),
    }
}

/// Shows the events.
fn show_events(sheet: &mut Sheet<'_>, events: &[Event]) {
    if events.is_empty() {
        sheet.show("nothing");
    }
    for (place, event) in events.iter().enumerate() {
        if place > 0 {
            sheet.show(", ");
        }
        show_event(sheet, *event);
    }
}

/// Shows the events of a log over a boot, or why it isn't one.
fn show_log(sheet: &mut Sheet<'_>, text: &[u8], boot: &Boot) {
    if text.len() > LONGEST_LOG {
        return sheet.misread();
    }
    match log_of(sheet.alloc(), text, boot) {
        Ok(events) => show_events(sheet, &events),
        Err(LogErr::Line(line, check)) => {
            show_count(sheet, "line ", u64::from(line));
            show_count(sheet, " check ", u64::from(check));
        }
        Err(LogErr::NoMemory) => sheet.no_memory(),
    }
}

/// The events of a log, or what is said where it isn't one.
pub fn read(sheet: &mut Sheet<'_>) {
    let text = text_of(sheet);
    match named(sheet, b"three") {
        Some(boot) => show_log(sheet, &text, &boot),
        None => no_boot(sheet),
    }
}
