// Why a line isn't read, as rows show it.
use b2_atom::Stop;
use b2_base::Code;
use b2_cases::Sheet;
use b2_syntax::LineErr;

/// Shows the code and the column of what is missing in a typed line.
pub fn show_line_error(sheet: &mut Sheet<'_>, error: LineErr) {
    match error {
        LineErr::At(code, column) => {
            sheet.show_code(code);
            sheet.show(" COL ");
            sheet.show_number(column as u64);
        }
        LineErr::NoMemory => sheet.no_memory(),
    }
}

/// Shows the code of what is missing, and how many bytes are left there.
pub fn show_stop(sheet: &mut Sheet<'_>, stop: Stop) {
    match stop {
        Stop::At(number, left) => match Code::new(number) {
            Some(code) => {
                sheet.show_code(code);
                sheet.show(" with ");
                sheet.show_number(left as u64);
                sheet.show(" left");
            }
            None => sheet.show("no code"),
        },
        Stop::Deep => sheet.show("too deep"),
        Stop::NoMemory => sheet.no_memory(),
    }
}
