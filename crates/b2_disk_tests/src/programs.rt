// Calls on program files, and files moved between disks.
ghost use Rattle.std.specs.Prelude.{◌≤◌};

use crate::answers::show_done;
use crate::sessions::Session;
use crate::words::{name, short, whole};
use b2_atom::{Atoms, REM};
use b2_base::{Fault, Name8};
use b2_cases::Sheet;
use b2_progfile::{load, move_file, move_platter, save};
use b2_text::Text;

/// Makes the call of that name, and returns whether it is one of these.
pub fn is_answered(session: &mut Session, call: &str, sheet: &mut Sheet<'_>) -> bool {
    match call {
        "text" => make_text(&mut session.text, sheet),
        "line" => put_line(&mut session.text, sheet),
        "remark" => put_remark(&mut session.text, sheet),
        "lines" => show_lines(&session.text, sheet),
        "taken" => sheet.show_number(session.text.size() as u64),
        "save-program" => save_new(session, sheet),
        "save-over" => save_over(session, sheet),
        "load-program" => load_one(session, false, sheet),
        "load-instead" => load_one(session, true, sheet),
        "move" => move_one(session, sheet),
        "move-all" => move_all(session, sheet),
        _ => return false,
    }
    true
}

/// Shows `done`, or the code of a fault.
fn show_outcome(sheet: &mut Sheet<'_>, outcome: Result<(), Fault>) {
    match outcome {
        Ok(()) => sheet.show("done"),
        Err(fault) => sheet.show_fault(fault),
    }
}

/// `text AREA`: a text without lines in place of this one.
fn make_text(text: &mut Text, sheet: &mut Sheet<'_>) {
    let area = whole(sheet) as usize;
    match Text::new(sheet.alloc(), area) {
        Ok(made) => *text = made,
        Err(_) => sheet.no_memory(),
    }
}

/// Reads the number of a line.
fn line_number(sheet: &mut Sheet<'_>) -> u16
    ensures { result ≤ 9999 }
{
    let number = short(sheet);
    if number > 9999 {
        sheet.misread();
        return 0;
    }
    number
}

/// Puts a line of these bytes into a text; shows the code where it can't.
fn put_bytes(sheet: &mut Sheet<'_>, text: &mut Text, number: u16, bytes: &[u8])
    requires { number ≤ 9999 }
{
    match Atoms::of(sheet.alloc(), bytes) {
        Ok(Some(atoms)) => {
            if let Err(code) = text.put(number, &atoms) {
                sheet.show_code(code);
            }
        }
        Ok(None) => sheet.misread(),
        Err(_) => sheet.no_memory(),
    }
}

/// `line NUMBER ATOMS`: puts a line into the text.
fn put_line(text: &mut Text, sheet: &mut Sheet<'_>) {
    let number = line_number(sheet);
    let word = sheet.word();
    let bytes = sheet.spelled(word);
    put_bytes(sheet, text, number, &bytes);
}

/// `remark NUMBER COUNT`: puts a line of REM and that many letters A into the text.
fn put_remark(text: &mut Text, sheet: &mut Sheet<'_>) {
    let number = line_number(sheet);
    let mut bytes = Vec::new(sheet.alloc());
    sheet.push(&mut bytes, REM);
    for _ in 0..whole(sheet) {
        sheet.push(&mut bytes, b'A');
    }
    put_bytes(sheet, text, number, &bytes);
}

/// `lines`: the lines of the text, each its number and its atoms; `none` where there are none.
fn show_lines(text: &Text, sheet: &mut Sheet<'_>) {
    let mut is_first = true;
    let mut left = text.lines(0, 9999);
    while let Some(line) = left.next() {
        if !is_first {
            sheet.show("; ");
        }
        sheet.show_number(u64::from(line.number));
        sheet.show(" ");
        sheet.show_bytes(line.atoms);
        is_first = false;
    }
    if is_first {
        sheet.show("none");
    }
}

/// Saves lines as a new file, or into the sectors of a scratched one.
fn save_lines(
    session: &mut Session,
    sheet: &mut Sheet<'_>,
    from: u16,
    to: u16,
    old: Option<Name8>,
    name: Name8,
) {
    let alloc = sheet.alloc();
    let outcome = save(alloc, &mut session.disk, &session.text, from, to, old, name);
    show_outcome(sheet, outcome);
}

/// `save-program FROM TO NAME`: saves lines as a new file.
fn save_new(session: &mut Session, sheet: &mut Sheet<'_>) {
    let from = short(sheet);
    let to = short(sheet);
    if let Some(name) = name(sheet) {
        save_lines(session, sheet, from, to, None, name);
    }
}

/// `save-over FROM TO OLD NAME`: saves lines into the sectors of a scratched file.
fn save_over(session: &mut Session, sheet: &mut Sheet<'_>) {
    let from = short(sheet);
    let to = short(sheet);
    let old = name(sheet);
    if let Some(new) = name(sheet) {
        save_lines(session, sheet, from, to, old, new);
    }
}

/// `load-program NAME`: puts the lines of a file to those of the text; `load-instead NAME` in place of them.
fn load_one(session: &mut Session, replace: bool, sheet: &mut Sheet<'_>) {
    let Some(name) = name(sheet) else {
        return;
    };
    let outcome = load(
        sheet.alloc(),
        &session.disk,
        name,
        &mut session.text,
        replace,
    );
    show_outcome(sheet, outcome);
}

/// `move NAME`: moves a file of the other disk to this one.
fn move_one(session: &mut Session, sheet: &mut Sheet<'_>) {
    if let Some(name) = name(sheet) {
        show_done(sheet, move_file(&session.other, name, &mut session.disk));
    }
}

/// `move-all`: moves all live files of the other disk to this one.
fn move_all(session: &mut Session, sheet: &mut Sheet<'_>) {
    let outcome = move_platter(sheet.alloc(), &session.other, &mut session.disk);
    show_outcome(sheet, outcome);
}
