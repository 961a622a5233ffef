//! Arithmetic on arrays of numbers: sums, differences, products, multiples, the transposed array and filled ones.
//!
//! An array is lent as a `Mat`, its numbers along rows. Each call writes the elements of its result along rows into a slice
//! that has exactly their count, and takes no memory. A call either gives exactly the elements that the definition gives, or
//! the first code that comes as they are made along rows; where shapes don't suit, nothing is written.
//!
//! The definitions are in `specs/`: `Arrays` has an array's rows, its elements by row and column, and what the result of each
//! call has there, and `Answers` when a call gives which code. `laws` says what holds of these definitions themselves.
//!
//! Stands on `b2_dec` for numbers and their rounded sums and products, and on `b2_base` for codes.
#![tactic(auto)]

mod array;
mod combining;
mod filling;
pub mod laws;

pub use array::{Fill, Mat};
pub use combining::{MatOp, combine, scale};
pub use filling::{fill, transpose};
