// A terminal with partition 1 in front, which goes round to 1, 3 and 2, and the calls of it.
//
// `terminal | CALL | ..`: what the calls answer one after another, and the transcript in the end. `keys BYTES` and `special N`
// queue keys, `many N BYTES` does so N times, `read` reads a line and `one` one key, `insert BYTES` types bytes into the line,
// `show BYTES` shows them, `front N` puts a partition in front and asks who is there, and `release` hands the terminal on and
// asks so too.
//
// `round | FRONT | PARTITION PARTITION .. | TIMES`: who is in front of a terminal that goes round in this order, at first and after
// each of so many releases.
use crate::boots::group_of;
use crate::pieces::{show_count, show_named, word};
use b2_base::{NoMemory, Part};
use b2_cases::{Sheet, number_of, small_of, str_of};
use b2_term::{KeyItem, Read, Terminal, is_order};

/// Queues each byte as a key, and says how many were taken.
fn keys_taken(terminal: &mut Terminal, keys: &[u8]) -> u32 {
    let mut taken = 0u32;
    for key in keys {
        if terminal.key(KeyItem::Byte(*key)) {
            taken = taken.saturating_add(1);
        }
    }
    taken
}

/// The same so many times, and shows how many.
fn show_keys(sheet: &mut Sheet<'_>, terminal: &mut Terminal, times: u16, keys: &[u8]) {
    let mut taken = 0u32;
    for _ in 0..times {
        taken = taken.saturating_add(keys_taken(terminal, keys));
    }
    sheet.show_number(u64::from(taken));
    sheet.show(" taken");
}

/// Shows a special function key.
fn show_special(sheet: &mut Sheet<'_>, number: u8) {
    sheet.show("special ");
    sheet.show_number(u64::from(number));
}

/// Shows a line that was read, or why there is none.
fn show_read(sheet: &mut Sheet<'_>, read: &Read) {
    match read {
        Read::Line(line) => show_named(sheet, "line", line.bytes()),
        Read::Special(n) => show_special(sheet, *n),
        Read::NoKeys => sheet.show("no keys"),
    }
}

/// Reads a line.
fn read(sheet: &mut Sheet<'_>, terminal: &mut Terminal) {
    match terminal.read_line() {
        Ok(read) => show_read(sheet, &read),
        Err(NoMemory) => sheet.no_memory(),
    }
}

/// Takes a key.
fn take_key(sheet: &mut Sheet<'_>, terminal: &mut Terminal) {
    match terminal.one_key() {
        Some(KeyItem::Byte(byte)) => show_named(sheet, "key", &[byte]),
        Some(KeyItem::Special(n)) => show_special(sheet, n),
        None => sheet.show("no key"),
    }
}

/// Puts a partition in front, where there is one of the number, and shows who is.
fn show_front(sheet: &mut Sheet<'_>, terminal: &mut Terminal, number: u8) {
    if let Some(part) = Part::of(number) {
        terminal.set_front(part);
    }
    sheet.show("front ");
    sheet.show_number(u64::from(terminal.front().number()));
}

/// Hands a terminal on, and shows who is in front then.
fn release(sheet: &mut Sheet<'_>, terminal: &mut Terminal) {
    terminal.release();
    show_count(sheet, "front ", u64::from(terminal.front().number()));
}

/// Shows a word for what was done, where memory didn't fail.
fn show_done(sheet: &mut Sheet<'_>, outcome: Result<(), NoMemory>, done: &str) {
    match outcome {
        Ok(()) => sheet.show(done),
        Err(NoMemory) => sheet.no_memory(),
    }
}

/// Makes a call, and shows its answer.
fn answer(sheet: &mut Sheet<'_>, terminal: &mut Terminal, cell: &[u8]) {
    let (call, rest) = word(cell);
    match str_of(call) {
        "keys" => {
            let keys = sheet.spelled(rest);
            show_keys(sheet, terminal, 1, &keys);
        }
        "many" => {
            let (times, text) = word(rest);
            let keys = sheet.spelled(text);
            show_keys(sheet, terminal, number_of(times), &keys);
        }
        "special" => sheet.show(if terminal.key(KeyItem::Special(small_of(rest))) {
            "taken"
        } else {
            "dropped"
        }),
        "read" => read(sheet, terminal),
        "one" => take_key(sheet, terminal),
        "insert" => {
            let bytes = sheet.spelled(rest);
            show_done(sheet, terminal.insert(&bytes), "inserted");
        }
        "show" => {
            let bytes = sheet.spelled(rest);
            show_done(sheet, terminal.show(&bytes), "shown");
        }
        "front" => show_front(sheet, terminal, small_of(rest)),
        "release" => release(sheet, terminal),
        _ => sheet.no_such_call(),
    }
}

/// An idle terminal with a partition in front, which goes round in an order; none where that is no order.
fn idle(sheet: &mut Sheet<'_>, front: Part, order: &[Part]) -> Option<Terminal> {
    if !is_order(order) {
        sheet.show("no order");
        return None;
    }
    match Terminal::new(sheet.alloc(), front, order) {
        Ok(terminal) => Some(terminal),
        Err(NoMemory) => {
            sheet.no_memory();
            None
        }
    }
}

/// Who is in front of a terminal that goes round in an order.
pub fn went_round(sheet: &mut Sheet<'_>) {
    let cell = sheet.cell();
    let Some(front) = Part::of(small_of(cell)) else {
        return sheet.misread();
    };
    let order = group_of(sheet);
    let times = sheet.cell();
    let Some(mut terminal) = idle(sheet, front, &order) else {
        return;
    };
    show_count(sheet, "front ", u64::from(front.number()));
    for _ in 0..number_of(times) {
        sheet.show(", ");
        release(sheet, &mut terminal);
    }
}

/// What the calls in the cells answer, and the transcript after them.
pub fn called(sheet: &mut Sheet<'_>) {
    let order = [Part::known(1), Part::known(3), Part::known(2)];
    let Some(mut terminal) = idle(sheet, Part::known(1), &order) else {
        return;
    };
    for _ in 0..u64::MAX {
        if sheet.is_empty() {
            break;
        }
        let cell = sheet.cell();
        answer(sheet, &mut terminal, cell);
        sheet.show(", ");
    }
    show_named(sheet, "transcript", terminal.transcript());
}
