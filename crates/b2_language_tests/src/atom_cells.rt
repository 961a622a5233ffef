// Atoms, as rows write them.
use b2_atom::words::{BA, DA, LAST, LINE_MARK, REM, is_short, short_text, word_text};
use b2_base::cut;
use b2_base::lexical::{
    capped_value, decimal_byte, decimal_of, digits_width, is_decimal, is_printable,
};
use b2_cases::Sheet;

/// The code of the word of a spelling, None where there is no such word.
fn word_of(spelling: &[u8]) -> Option<u8> {
    if spelling == short_text(DA) {
        return Some(DA);
    }
    if spelling == short_text(BA) {
        return Some(BA);
    }
    for code in REM..=LAST {
        if word_text(code) == spelling {
            return Some(code);
        }
    }
    None
}

/// Appends the word or the number of a line that stands between braces.
fn push_braced(sheet: &mut Sheet<'_>, atoms: &mut Vec<u8>, inner: &[u8]) {
    if let Some(code) = word_of(inner) {
        return sheet.push(atoms, code);
    }
    if inner.is_empty() || inner.len() > 4 || digits_width(inner) != inner.len() {
        sheet.misread();
    }
    let number = capped_value(inner, 9999);
    sheet.push(atoms, LINE_MARK);
    sheet.push(atoms, decimal_byte((number / 100) as u8));
    sheet.push(atoms, decimal_byte((number % 100) as u8));
}

/// The atoms that a text spells. A row is misread where something stands between its braces that is neither a word nor a number.
pub fn atoms_of(sheet: &mut Sheet<'_>, text: &[u8]) -> Vec<u8> {
    let mut atoms = Vec::new(sheet.alloc());
    let mut left = text;
    for _ in 0..=text.len() {
        let (plain, braced) = cut(left, b'{');
        let bytes = sheet.spelled(plain);
        sheet.append(&mut atoms, &bytes);
        let Some(rest) = braced else {
            break;
        };
        let (inner, after) = cut(rest, b'}');
        push_braced(sheet, &mut atoms, inner);
        left = after.unwrap_or(&[]);
    }
    atoms
}

/// Shows atoms as a cell spells them.
pub fn show_atoms(sheet: &mut Sheet<'_>, atoms: &[u8]) {
    let mut left = atoms;
    for _ in 0..atoms.len() {
        match left {
            [LINE_MARK, high, low, rest @ ..] if is_decimal(*high) && is_decimal(*low) => {
                show_line_number(sheet, *high, *low);
                left = rest;
            }
            [b' '] => {
                sheet.show("\\20");
                break;
            }
            [byte, rest @ ..] => {
                show_atom(sheet, *byte);
                left = rest;
            }
            [] => break,
        }
    }
}

fn show_line_number(sheet: &mut Sheet<'_>, high: u8, low: u8) {
    sheet.show("{");
    sheet.show_number(u64::from(decimal_of(high)) * 100 + u64::from(decimal_of(low)));
    sheet.show("}");
}

/// Shows a word between braces, or a byte that is none.
fn show_atom(sheet: &mut Sheet<'_>, atom: u8) {
    if atom >= REM && atom <= LAST {
        sheet.show("{");
        sheet.show_letters(word_text(atom));
        sheet.show("}");
    } else if is_short(atom) {
        sheet.show("{");
        sheet.show_letters(short_text(atom));
        sheet.show("}");
    } else if is_printable(atom) && !matches!(atom, b'\\' | b'|' | b'{' | b'}') {
        sheet.show_letter(atom);
    } else {
        sheet.show_hex(atom);
    }
}
