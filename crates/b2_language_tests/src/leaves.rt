// What is typed by hand, read at a text of a unit.
use b2_alpha::Rel;
use b2_atom::rows::LINE_NUMBERS;
use b2_atom::words::{LINE_MARK, Origin};
use b2_atom::{
    address_width, alpha_name_width, function_name_width, hex_digit_width, hex_pair_width,
    image_width, literal_width, local_name_width, numeric_name_width, relation_width, slot_width,
    small_width,
};
use b2_base::lexical::{at, first, is_decimal};
use b2_cases::Sheet;
use b2_rows::{
    Name, address_at, alpha_name, function_name, hex_byte_at, hex_digit_at, image_at, is_line_at,
    is_read, line_at, local_name, named_lines, numeric_name, quoted_at, relation_at, slot_at,
    small_at,
};

/// `CALL | TEXT`: what is read at the text, or that nothing of the kind stands there.
pub fn leaf(sheet: &mut Sheet<'_>, call: &str, text: &[u8]) {
    match call {
        "line number" | "small number" | "slot" | "hex byte" | "hex digit" => {
            show_number(sheet, number_at(call, text));
        }
        "name" | "alpha name" | "local name" => show_name(sheet, name_at(call, text)),
        "function name" | "literal" | "image" | "address" => show_bytes(sheet, call, text),
        "relation" => show_relation(sheet, text),
        "named lines" => show_lines(sheet, lines_at(text)),
        _ => sheet.no_such_call(),
    }
}

/// The number of a line that stands at a text.
fn line_number(text: &[u8]) -> Option<u16> {
    if text.len() < 3 || first(text) != LINE_MARK {
        return None;
    }
    if is_decimal(at(text, 1)) && is_decimal(at(text, 2)) {
        Some(line_at(text))
    } else {
        None
    }
}

/// The number of a kind that stands at a text.
fn number_at(kind: &str, text: &[u8]) -> Option<u16> {
    match kind {
        "line number" => line_number(text),
        "small number" if small_width(text) > 0 => Some(u16::from(small_at(text))),
        "slot" if slot_width(text) > 0 => Some(u16::from(slot_at(text))),
        "hex byte" if hex_pair_width(Origin::Atoms, text) > 0 => {
            Some(u16::from(hex_byte_at(text)))
        }
        "hex digit" if hex_digit_width(Origin::Atoms, text) > 0 => {
            Some(u16::from(hex_digit_at(text)))
        }
        _ => None,
    }
}

fn show_number(sheet: &mut Sheet<'_>, found: Option<u16>) {
    match found {
        Some(number) => sheet.show_number(u64::from(number)),
        None => sheet.show("none"),
    }
}

/// The name of a kind that stands at a text, and how many bytes it takes.
fn name_at(kind: &str, text: &[u8]) -> Option<(Name, usize)> {
    match kind {
        "name" if numeric_name_width(Origin::Atoms, text) > 0 => Some(numeric_name(text)),
        "alpha name" if alpha_name_width(Origin::Atoms, text) > 0 => Some(alpha_name(text)),
        "local name" if local_name_width(Origin::Atoms, text) > 0 => Some(local_name(text)),
        _ => None,
    }
}

/// Shows a name's parts as they are typed, and how many bytes it takes.
fn show_name(sheet: &mut Sheet<'_>, found: Option<(Name, usize)>) {
    let Some((name, width)) = found else {
        return sheet.show("none");
    };
    if name.global {
        sheet.show("@");
    }
    sheet.show_letter(name.letter);
    if let Some(digit) = name.digit {
        sheet.show_letter(digit);
    }
    if name.alpha {
        sheet.show("$");
    }
    sheet.show(" in ");
    sheet.show_number(width as u64);
}

fn show_bytes(sheet: &mut Sheet<'_>, kind: &str, text: &[u8]) {
    match kind {
        "function name" if function_name_width(Origin::Atoms, text) > 0 => {
            sheet.show_bytes(&[function_name(text)]);
        }
        "literal" if literal_width(text) > 0 => sheet.show_bytes(quoted_at(text)),
        "image" if image_width(Origin::Atoms, text) > 0 => sheet.show_bytes(image_at(text)),
        "address" if address_width(Origin::Atoms, text) > 0 => {
            sheet.show_bytes(&address_at(text).bytes());
        }
        _ => sheet.show("none"),
    }
}

fn sign_of(relation: Rel) -> &'static str {
    match relation {
        Rel::Eq => "=",
        Rel::Ne => "<>",
        Rel::Lt => "<",
        Rel::Le => "<=",
        Rel::Gt => ">",
        Rel::Ge => ">=",
    }
}

fn show_relation(sheet: &mut Sheet<'_>, text: &[u8]) {
    let width = relation_width(text);
    if width == 0 {
        return sheet.show("none");
    }
    sheet.show(sign_of(relation_at(text)));
    sheet.show(" in ");
    sheet.show_number(width as u64);
}

/// The first and the last of the lines that are named at a text.
#[tactic(auto, unfolding(b2_rows::specs::Optional::maybe_phrase))]
fn lines_at(text: &[u8]) -> Option<(u16, Option<u16>)> {
    if is_line_at(text) && !is_read(LINE_NUMBERS, text) {
        return None;
    }
    Some(named_lines(text))
}

fn show_lines(sheet: &mut Sheet<'_>, found: Option<(u16, Option<u16>)>) {
    let Some((from, to)) = found else {
        return sheet.show("none");
    };
    sheet.show_number(u64::from(from));
    match to {
        Some(to) => {
            sheet.show(" to ");
            sheet.show_number(u64::from(to));
        }
        None => sheet.show(" alone"),
    }
}
