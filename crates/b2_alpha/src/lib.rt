//! The operations on alpha values, which are byte strings of a stated length.
//!
//! Assignment with its padding, bits joined by a digit, sums with and without carries, binary and decimal, the length
//! and the search of a value, numbers in bytes, rotation, and hexadecimal text. All calls work in place on slices and
//! take no memory.
//!
//! Stands on `b2_base` alone. Each contract is a function on whole lists of bytes in `specs/`: `Values` has the padding,
//! `Bits` what a bit becomes, `Places` numbers in places of a base, `Sums` the sums as such numbers, `Relations` the
//! comparisons. What holds of these functions themselves is said by the calls of `laws`.
#![tactic(auto)]

mod bits;
pub mod laws;
mod number;
mod relation;
mod sums;
mod value;

pub use bits::{bool_op, rotate};
pub use number::{bin, hex_text, val};
pub use relation::{Rel, compare, pos};
pub use sums::{add, addc, dac, dsc, sub, subc};
pub use value::{assign, value_len};
