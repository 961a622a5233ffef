// A shelf and a sink in memory, whose calls fail by their numbers.
//
// - `outside shelf | FAILING | CALL | CALL ..`: what each call gives. The shelf has a file `a` of the bytes `ABC`. A call is
//   `fetch NAME LIMIT`, `keep NAME "BYTES"` or `file NAME`.
// - `outside sink | FAILING | "BYTES" ..`: what each put gives, and what was written in the end.
use b2_base::{Fetch, Keep, MemShelf, MemSink, Shelf, Sink};
use b2_cases::{Sheet, str_of, whole_of};
use std::alloc::{AllocError, Global};
use std::collections::BTreeMap;

pub fn answer(call: &str, sheet: &mut Sheet<'_>) {
    match call {
        "shelf" => shelf_calls(sheet),
        "sink" => sink_calls(sheet),
        _ => sheet.no_such_call(),
    }
}

/// Reads the numbers of the calls that fail.
fn failing(sheet: &mut Sheet<'_>) -> Vec<u32> {
    let mut all = Vec::new(sheet.alloc());
    sheet.open();
    for _ in 0..u64::MAX {
        if !sheet.has_items() {
            break;
        }
        let number = whole_of(sheet.word());
        sheet.push(&mut all, number);
    }
    all
}

/// How a fetch went.
pub fn name_of_fetch(answer: Fetch) -> &'static str {
    match answer {
        Fetch::Done => "done",
        Fetch::Missing => "missing",
        Fetch::Failed => "failed",
        Fetch::TooLong => "too long",
        Fetch::NoMemory => "no memory",
    }
}

/// How a keep or a put went.
pub fn name_of_keep(answer: Keep) -> &'static str {
    match answer {
        Keep::Done => "done",
        Keep::Failed => "failed",
        Keep::NoMemory => "no memory",
    }
}

/// A shelf with the file `a` of the bytes `ABC`.
fn shelf(alloc: Global, failing: Vec<u32>) -> Result<MemShelf, AllocError> {
    let mut files = BTreeMap::new(alloc);
    files.insert(b"a".to_vec(alloc)?, b"ABC".to_vec(alloc)?)?;
    Ok(MemShelf::new(alloc, files, failing))
}

fn shelf_calls(sheet: &mut Sheet<'_>) {
    let failing = failing(sheet);
    let Ok(mut shelf) = shelf(sheet.alloc(), failing) else {
        return sheet.no_memory();
    };
    for place in 0..100u8 {
        if sheet.is_empty() {
            break;
        }
        if place > 0 {
            sheet.show(", ");
        }
        shelf_call(&mut shelf, sheet);
    }
}

fn shelf_call(shelf: &mut MemShelf, sheet: &mut Sheet<'_>) {
    sheet.open();
    let call = str_of(sheet.word());
    let name = sheet.word();
    match call {
        "fetch" => {
            let mut into = Vec::new(sheet.alloc());
            let limit = sheet.number();
            sheet.show(name_of_fetch(shelf.fetch(name, limit as usize, &mut into)));
            sheet.show(" ");
            sheet.show_quoted(&into);
        }
        "keep" => {
            let bytes = sheet.quoted();
            sheet.show(name_of_keep(shelf.keep(name, &bytes)));
        }
        "file" => match shelf.file(name) {
            Some(bytes) => sheet.show_quoted(bytes),
            None => sheet.show("none"),
        },
        _ => sheet.misread(),
    }
}

fn sink_calls(sheet: &mut Sheet<'_>) {
    let failing = failing(sheet);
    let mut sink = MemSink::new(sheet.alloc(), failing);
    sheet.open();
    for _ in 0..100u8 {
        if !sheet.has_items() {
            break;
        }
        let bytes = sheet.quoted();
        sheet.show(name_of_keep(sink.put(&bytes)));
        sheet.show(", ");
    }
    sheet.show_quoted(sink.written());
}
