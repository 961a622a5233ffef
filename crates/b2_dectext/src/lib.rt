//! Numbers from text and to text.
//!
//! `read` takes the longest number at the front of a text, and `literal` does with the code of one that is out of range.
//! `num` counts it with the spaces around it, and `write` gives the printed form of a number. `specs/Grammar.antt` has
//! the grammar of number text, which number a text is and what the longest one is, `specs/NumberText.antt` the same as
//! functions of a text, and `specs/Printed.antt` the printed form. `printed_is_read` is the law that joins the two: what
//! is shown is read back, as the number that it shows.
//!
//! For what reads and writes fields of numbers above it, this crate also has the leading digits of a number that is read digit
//! by digit (`Leading`), and what a field is made of: a sign, marks for digits, and text at its right end
//! (`specs/FieldParts.antt`).
//!
//! Stands on `b2_dec`. No call takes memory.
#![tactic(auto)]

mod field_parts;
mod laws;
mod leading;
mod printing;
mod reading;
mod scanning;

pub use field_parts::{Sign, marks_len, split_sign};
pub use laws::printed_is_read;
pub use leading::{Leading, rounded, with_digit};
pub use printing::write;
pub use reading::{literal, num, read};
