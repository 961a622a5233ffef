// The rows of the language's table that rows of tests name.
use b2_atom::rows;

const NAMES: [(u16, &str); 17] = [
    (rows::SUM, "sum"),
    (rows::ALPHA, "alpha"),
    (rows::SUBSCRIPTS, "subscripts"),
    (rows::CONDITION, "condition"),
    (rows::LINE_NUMBER, "line number"),
    (rows::FOLLOWING, "following"),
    (rows::LEFT_OUT, "left out"),
    (rows::ASSIGNMENT, "assignment"),
    (rows::REMARK, "remark"),
    (rows::IMAGE_LINE, "image line"),
    (rows::GOTO, "goto"),
    (rows::IF, "if"),
    (rows::IF_END, "if end"),
    (rows::ELSE, "else"),
    (rows::ERROR, "error"),
    (rows::STOP, "stop"),
    (rows::PRINT, "print"),
];

/// The row of a name.
pub fn row_named(name: &[u8]) -> Option<u16> {
    for (row, spelling) in NAMES {
        if spelling.as_bytes() == name {
            return Some(row);
        }
    }
    None
}

/// The name of a row.
pub fn name_of(row: u16) -> &'static str {
    for (named, spelling) in NAMES {
        if named == row {
            return spelling;
        }
    }
    "a row without a name here"
}
