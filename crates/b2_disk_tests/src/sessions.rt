// The calls of a row, one after the other.
use crate::{catalogs, data_files, each, images, programs, raws, records};
use b2_base::cut;
use b2_cases::{Cells, Sheet, str_of};
use b2_datafile::Slot;
use b2_platter::Platter;
use b2_text::Text;
use std::alloc::{AllocError, Global};
use std::mem;

/// What the calls of a row are made on.
#[derive(Drop)]
pub struct Session {
    /// The disk.
    pub disk: Platter,
    /// The other disk, from which files are moved.
    pub other: Platter,
    /// The data file that was opened last.
    pub slot: Option<Slot>,
    /// The text of the program.
    pub text: Text,
}

/// How many sectors the disks have at first.
const SECTORS: u32 = 16;

/// How many bytes the text has room for at first.
const AREA: usize = 2048;

/// `disk | CALL | CALL ..`: the answers of all calls that answer, with commas between them, where the disks are of version 1.
pub fn all_answers(sheet: &mut Sheet<'_>) {
    show_session(sheet, 1);
}

/// `wide | CALL | CALL ..`: the same where the disks are of version 2.
pub fn wide_answers(sheet: &mut Sheet<'_>) {
    show_session(sheet, 2);
}

/// `both | CALL | CALL ..`: the same over either version, one after the other, with `or` between where they aren't the same.
pub fn both_answers(alloc: Global, cells: Cells<'_>) -> Result<String, AllocError> {
    let mut said = version_answers(alloc, cells, 1)?;
    let wide = version_answers(alloc, cells, 2)?;
    if said.as_str() != wide.as_str() {
        said.push_str(" or ")?;
        said.push_str(wide.as_str())?;
    }
    Ok(said)
}

/// The answers of a row's calls on disks of a version.
fn version_answers(alloc: Global, cells: Cells<'_>, version: u32) -> Result<String, AllocError> {
    let mut sheet = Sheet::new(alloc, cells);
    show_session(&mut sheet, version);
    sheet.finish()
}

/// Shows the answers of a row's calls on disks of a version.
fn show_session(sheet: &mut Sheet<'_>, version: u32) {
    let alloc = sheet.alloc();
    let (Some(Ok(disk)), Some(Ok(other)), Ok(text)) = (
        images::blank_of(alloc, SECTORS, version),
        images::blank_of(alloc, SECTORS, version),
        Text::new(alloc, AREA),
    ) else {
        return sheet.no_memory();
    };
    let mut session = Session {
        disk,
        other,
        slot: None,
        text,
    };
    show_answers(sheet, &mut session);
}

fn show_answers(sheet: &mut Sheet<'_>, session: &mut Session) {
    let mut is_first = true;
    for _ in 0..u64::MAX {
        if sheet.is_empty() {
            break;
        }
        let cell = sheet.cell();
        let Ok(said) = answer(sheet.alloc(), session, cell) else {
            return sheet.no_memory();
        };
        if said.is_empty() {
            continue;
        }
        if !is_first {
            sheet.show(", ");
        }
        sheet.show(said.as_str());
        is_first = false;
    }
}

/// Makes a call: its answer.
fn answer(alloc: Global, session: &mut Session, call: &[u8]) -> Result<String, AllocError> {
    let (name, rest) = cut(call, b' ');
    match str_of(name) {
        "each-place" => each::places(alloc, session, rest.unwrap_or(&[])),
        "each-value" => each::values(alloc, session, rest.unwrap_or(&[])),
        _ => simple_answer(alloc, session, call),
    }
}

/// Makes a call that makes no others: its answer.
pub fn simple_answer(
    alloc: Global,
    session: &mut Session,
    call: &[u8],
) -> Result<String, AllocError> {
    let mut sheet = Sheet::of_items(alloc, call);
    let name = str_of(sheet.word());
    if !is_answered(session, name, &mut sheet) {
        sheet.no_such_call();
    }
    sheet.finish()
}

/// Makes the call of that name, and returns whether there is one.
fn is_answered(session: &mut Session, call: &str, sheet: &mut Sheet<'_>) -> bool {
    if call == "other" {
        mem::swap(&mut session.disk, &mut session.other);
        return true;
    }
    images::is_answered(&mut session.disk, call, sheet)
        || catalogs::is_answered(&mut session.disk, call, sheet)
        || records::is_answered(&mut session.disk, call, sheet)
        || raws::is_answered(&mut session.disk, call, sheet)
        || data_files::is_answered(&mut session.disk, &mut session.slot, call, sheet)
        || programs::is_answered(session, call, sheet)
}
