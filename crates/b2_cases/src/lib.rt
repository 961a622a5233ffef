//! Rows of tests, as the crates of tests read them from their standard input.
//!
//! A row is a line: the name of a call, its cells, and what the call is to give, with `|` between them. Blanks around a cell
//! don't count. A byte that can't be shown so (a `|`, a backslash, a blank at an end, one that isn't printable) is written
//! as a backslash and two hexadecimal digits. Empty lines and lines that begin with `#` are no rows.
//!
//! - `try_rows` tries each row of the standard input, and names those that give something else than they say.
//! - `cells` reads what the cells say, and `shown` writes what calls give in the same way; a `Sheet` does both, and notes what
//!   goes wrong.
//!
//! It stands on `b2_base`. It is for tests alone: nothing of the machine stands on it, and it promises nothing but to be safe.
//! What shows that it tells a wrong row is the last row of each table, which is wrong and must be named.
#![tactic(auto)]

pub mod answers;
mod cells;
mod rows;
mod sheet;
pub mod shown;

pub use cells::{Cells, bytes_of, is_yes, number_of, small_of, str_of, whole_of};
pub use rows::{Calls, try_rows};
pub use sheet::{Item, Sheet};
