//! Dimensions of arrays and lengths of alpha values, as DIM, COM, MAT REDIM and the constants of MAT have them after a name.
//!
//! `dimensions_at` gives the dimensions that stand at a text, and `array_shape_at` these with the length after them: each number
//! is taken, cut to a whole number and tested before the next. `number_at` and `tested_length` are their parts, for a length that
//! stands alone. What they give is said by their trees in `specs/Dimensions.antt`.
//!
//! Stands on `b2_expr` for the values of numbers, on `b2_rows` and `b2_atom` for rows at the bytes of a unit, on `b2_vars` for
//! shapes, and on `b2_dec` and `b2_base`. No call takes memory.
#![tactic(auto)]

mod dimensions;

pub use dimensions::{Dimensions, array_shape_at, dimensions_at, number_at, tested_length};
