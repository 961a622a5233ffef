// A program text, and what is asked of it call by call.
use crate::atom_cells::{atoms_of, show_atoms};
use b2_atom::Atoms;
use b2_atom::words::REM;
use b2_base::codes::A01_TEXT_AREA;
use b2_base::lexical::{first, is_digit, is_letter};
use b2_base::{Code, cut};
use b2_cases::{Sheet, number_of, small_of, str_of, whole_of};
use b2_text::{Spot, Text};

/// The text that is asked, and one whose lines it may take.
#[derive(Drop)]
struct Texts {
    asked: Text,
    other: Text,
}

/// The area of the other text.
const OTHER_AREA: usize = 8192;

/// `text | AREA | STEP | STEP ..`: what each step gives, asked of a text that has no lines in the beginning.
pub fn text(sheet: &mut Sheet<'_>) {
    let area = whole_of(sheet.cell()) as usize;
    let (Ok(asked), Ok(other)) = (
        Text::new(sheet.alloc(), area),
        Text::new(sheet.alloc(), OTHER_AREA),
    ) else {
        return sheet.no_memory();
    };
    show_steps(sheet, &mut Texts { asked, other });
}

/// Shows what each step gives.
fn show_steps(sheet: &mut Sheet<'_>, texts: &mut Texts) {
    for count in 0..u64::MAX {
        if sheet.is_empty() {
            break;
        }
        if count > 0 {
            sheet.show(", ");
        }
        step(sheet, texts);
    }
}

/// Makes a step: a call's name and what it is called with.
fn step(sheet: &mut Sheet<'_>, texts: &mut Texts) {
    let (name, rest) = cut(sheet.cell(), b' ');
    let call = str_of(name);
    let words = rest.unwrap_or(&[]);
    match call {
        "put" => put(sheet, &mut texts.asked, words),
        "remark" => remark(sheet, &mut texts.asked, words),
        "other" => put(sheet, &mut texts.other, words),
        "take" => take(sheet, texts),
        "delete" => {
            let (from, to) = two_numbers(words);
            texts.asked.delete(from, to);
            sheet.show("done");
        }
        "clear" => {
            texts.asked.clear();
            sheet.show("done");
        }
        _ => show_found(sheet, &texts.asked, call, words),
    }
}

/// Two numbers with a blank between them.
fn two_numbers(words: &[u8]) -> (u16, u16) {
    let (before, after) = cut(words, b' ');
    (number_of(before), number_of(after.unwrap_or(&[])))
}

/// `put NUMBER ATOMS`, and `other NUMBER ATOMS` for the other text.
fn put(sheet: &mut Sheet<'_>, text: &mut Text, words: &[u8]) {
    let (number, spelled) = cut(words, b' ');
    let atoms = atoms_of(sheet, spelled.unwrap_or(&[]));
    put_bytes(sheet, text, number_of(number), &atoms);
}

/// `remark NUMBER COUNT`: puts a REM with that many letters.
fn remark(sheet: &mut Sheet<'_>, text: &mut Text, words: &[u8]) {
    let (number, letters) = two_numbers(words);
    let mut atoms = Vec::new(sheet.alloc());
    sheet.push(&mut atoms, REM);
    for _ in 0..letters {
        sheet.push(&mut atoms, b'A');
    }
    put_bytes(sheet, text, number, &atoms);
}

fn put_bytes(sheet: &mut Sheet<'_>, text: &mut Text, number: u16, atoms: &[u8]) {
    match Atoms::of(sheet.alloc(), atoms) {
        Ok(Some(line)) => match text.put(number.min(9999), &line) {
            Ok(()) => sheet.show("done"),
            Err(code) => sheet.show_code(code),
        },
        Ok(None) => sheet.show("no line"),
        Err(_) => sheet.no_memory(),
    }
}

/// `take`: the text takes the lines of the other one in place of its own.
fn take(sheet: &mut Sheet<'_>, texts: &mut Texts) {
    if texts.other.size() > texts.asked.area() {
        return sheet.show_code(Code::known(A01_TEXT_AREA));
    }
    texts.asked.clear();
    let mut left = texts.other.lines(0, 9999);
    while let Some(line) = left.next() {
        let Ok(Some(atoms)) = Atoms::of(sheet.alloc(), line.atoms) else {
            return sheet.no_memory();
        };
        if let Err(code) = texts.asked.put(line.number.min(9999), &atoms) {
            return sheet.show_code(code);
        }
    }
    sheet.show("done");
}

/// Shows what is found in a text.
fn show_found(sheet: &mut Sheet<'_>, text: &Text, call: &str, words: &[u8]) {
    match call {
        "size" => sheet.show_number(text.size() as u64),
        "next" => show_next(sheet, text, words),
        "line" => show_line(sheet, text, number_of(words)),
        "lines" => show_lines(sheet, text, two_numbers(words)),
        "marked" => show_spot(sheet, text.marked(small_of(words))),
        "function" => show_function(sheet, text, first(words)),
        "data" => {
            let (line, unit) = two_numbers(words);
            let unit = unit.min(255) as u8;
            show_spot(sheet, text.data_at(Spot { line, unit }));
        }
        _ => sheet.no_such_call(),
    }
}

/// `next` for the first line of all, and `next NUMBER` for the first above that number.
fn show_next(sheet: &mut Sheet<'_>, text: &Text, words: &[u8]) {
    let from = if words.is_empty() {
        None
    } else {
        Some(number_of(words))
    };
    match text.next_after(from) {
        Some(number) => sheet.show_number(u64::from(number)),
        None => sheet.show("none"),
    }
}

/// `line NUMBER`: the line of the number, with that number.
fn show_line(sheet: &mut Sheet<'_>, text: &Text, number: u16) {
    match text.line(number) {
        Some(line) => {
            sheet.show_number(u64::from(line.number));
            sheet.show(" ");
            show_atoms(sheet, line.atoms);
        }
        None => sheet.show("none"),
    }
}

/// `lines FROM TO`: the numbers of the lines from one to another.
fn show_lines(sheet: &mut Sheet<'_>, text: &Text, range: (u16, u16)) {
    let (from, to) = range;
    if from > to {
        return sheet.misread();
    }
    let mut is_first = true;
    let mut left = text.lines(from, to);
    while let Some(line) = left.next() {
        if !is_first {
            sheet.show(" ");
        }
        sheet.show_number(u64::from(line.number));
        is_first = false;
    }
}

/// `function NAME`: where the DEFFN of a letter or a digit stands.
fn show_function(sheet: &mut Sheet<'_>, text: &Text, name: u8) {
    if is_letter(name) || is_digit(name) {
        show_spot(sheet, text.function(name));
    } else {
        sheet.misread();
    }
}

fn show_spot(sheet: &mut Sheet<'_>, found: Option<Spot>) {
    match found {
        Some(spot) => {
            sheet.show("line ");
            sheet.show_number(u64::from(spot.line));
            sheet.show(" unit ");
            sheet.show_number(u64::from(spot.unit));
        }
        None => sheet.show("none"),
    }
}
