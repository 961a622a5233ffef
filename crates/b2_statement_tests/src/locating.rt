// Values and receivers at a cursor: what they are and what then stands at the cursor, or the code and what stands there then.
//
// `number | LENT | OWN | TYPED`, and so `alpha`, `condition`, `numeric receiver`, `alpha receiver`, `receiver`, `buffer`, `whole
// array` and `array`. OWN are statements that are done before, with `~` between them. LENT are done in another partition, whose
// variables are then lent as `@` variables; where there are none of these, no `@` variables are found. A variable is shown with its
// row and its column, and an alpha receiver with the bytes before it and its own.
use crate::desk::{Desk, execute, line_of};
use crate::{places, values};
use b2_atom::{Atoms, Cursor};
use b2_base::Code;
use b2_base::lexical::rest_after;
use b2_cases::Sheet;
use b2_expr::Env;
use b2_rows::row_unit;

/// A line of what is typed, in a statement that wants it.
pub fn framed(sheet: &mut Sheet<'_>, call: &str, typed: &[u8]) -> Option<Atoms> {
    let (before, behind): (&[u8], &[u8]) = match call {
        "number" | "alpha" => (b"PRINT ", b";2"),
        "condition" => (b"IF ", b" THEN 10"),
        "buffer" => (b"INIT(41)", b",Z$"),
        "whole array" => (b"DATALOAD DC ", b",Z9"),
        "array" => (b"MAT ", b"=A"),
        _ => (b"READ ", b",Z9"),
    };
    let mut source = Vec::new(sheet.alloc());
    sheet.append(&mut source, before);
    sheet.append(&mut source, typed);
    sheet.append(&mut source, behind);
    line_of(sheet, &source)
}

/// How many bytes the words of the statement take that stand before what is typed.
fn words_before(call: &str) -> usize {
    match call {
        "buffer" => 4,
        "whole array" => 2,
        _ => 1,
    }
}

/// What stands in the line after a number of bytes.
pub fn after_count(line: &Atoms, count: usize) -> &[u8] {
    match row_unit(&line.lend(), 0) {
        Some(unit) => rest_after(unit.bytes, count),
        None => &[],
    }
}

/// Shows what a call gives at a cursor; gives the code where it fails.
fn show_found(call: &str, c: &mut Cursor<'_>, e: &Env<'_>, sheet: &mut Sheet<'_>) -> Option<Code> {
    match call {
        "number" => values::show_number(c, e, sheet),
        "alpha" => values::show_alpha(c, e, sheet),
        "condition" => values::show_condition(c, e, sheet),
        "numeric receiver" => places::show_numeric(c, e, sheet),
        "alpha receiver" => places::show_alpha(c, e, sheet),
        "receiver" => places::show_any(c, e, sheet),
        "buffer" => places::show_buffer(c, e, sheet),
        "whole array" => places::show_array(c, e, sheet),
        "array" => places::show_named(c, e, sheet),
        _ => {
            sheet.no_such_call();
            None
        }
    }
}

/// Shows what a call gives at a text, and what stands at the cursor then.
fn show_at(call: &str, text: &[u8], e: &Env<'_>, sheet: &mut Sheet<'_>) {
    let mut c = Cursor::over(text);
    if let Some(code) = show_found(call, &mut c, e, sheet) {
        sheet.show_code(code);
    }
    sheet.show(" before ");
    sheet.show_bytes(c.rest());
}

/// The same for what the cells say. The partition is the one that lends at first, where it has variables to lend.
pub fn locate(call: &str, sheet: &mut Sheet<'_>, desk: &mut Desk) {
    let lent = sheet.cell();
    let own = sheet.cell();
    let typed = sheet.cell();
    if !lent.is_empty() {
        execute(sheet, desk, lent);
        desk.lend();
    }
    execute(sheet, desk, own);
    if let Some(line) = framed(sheet, call, typed) {
        let text = after_count(&line, words_before(call));
        show_at(call, text, &desk.env(), sheet);
    }
}
