//! Rows of the language's table as they are read at the bytes of a unit: the layer between the table and what expressions and
//! statements mean.
//!
//! A step looks at the bytes of a unit and never walks the table; what those bytes mean is said of their tree. This crate
//! joins the two. Its definitions say that a row is read at a text, which tree that gives and what is left after it, without
//! any count of levels, parentheses or repetitions, and `laws` that such a row stands at the text item by item. So a function
//! above, which wants that its row is read at its text, knows what each byte is and where each row in it begins.
//!
//! Stands on `b2_atom` for the table and the units of a line, on `b2_alpha` for relations and on `b2_base`. No call takes
//! memory. Readers of what is typed by hand want that it stands there, and give its value; `goes_on` and `operand_at` tell by
//! a byte which way a row goes on; `row_unit` gives a unit with its row and tells whether an `@` name and whether FN
//! stands in it, and `next_unit`, `past_colon`, `after_false` and `taken_fault` give what follows it on its line.
//!
//! The definitions are in `specs/`: rows in `Rows`, what is typed by hand in `Leaves` and its values in `Values`, the lines that
//! are named in `LineNumbers`, which rows take a byte in `Takes`, items after operators and commas in `Links` and `Chains`, lists with commas in `CommaLists`, choices in `Choices`, what follows a unit
//! in `Following`, and the laws in `Laws`. The crates above cite lemmas of `proofs/`, whose first page lists them.
#![tactic(auto)]

mod begins;
mod chains;
mod following;
pub mod laws;
mod leaves;
mod line_numbers;
mod operands;
mod row_units;

pub use begins::{is_alpha_at, is_array_at, is_at, is_hex_at, is_line_at, is_numeric_at};
pub use chains::{Chain, goes_on, has_sign};
pub use following::{Goal, after_false, next_unit, past_colon, taken_fault};
pub use leaves::{
    Name, address_at, alpha_name, function_name, hex_byte_at, hex_digit_at, image_at, line_at,
    local_name, numeric_name, quoted_at, relation_at, slot_at, small_at,
};
pub use line_numbers::named_lines;
pub use operands::{AlphaOperand, Operand, alpha_operand_at, operand_at};
pub use row_units::{RowUnit, is_read, row_unit, spells_a_line};
