//! The machine's decimal numbers: thirteen digits, exponents from -99 to 99.
//!
//! Each call gives the exact result, rounded to thirteen digits by its mode, or the code of an error. The results are
//! fractions of whole numbers, and `specs/Rounding.antt` says what such a fraction is rounded to, without a word on
//! digits or on how they are aligned. `specs/Number.antt` has what a number is, and `specs/Arithmetic.antt` what each call
//! gives. The code works on digits in `u64` and `u128`, and takes no memory.
//!
//! Stands on `b2_base` for the codes of errors.
#![tactic(auto)]

mod fractions;
mod lanes;
mod laws;
mod number;
mod order;
mod packing;
mod powers;
mod products;
mod rests;
mod rounding;
mod sums;
mod values;

pub use fractions::{fix, int};
pub use laws::{
    law_cuts_down, law_has_limits, law_has_one_spelling, law_nothing_is_left,
    law_rounds_to_nearest, law_sums_commute,
};
pub use number::{Dec, Mode, NumberOrCode};
pub use order::{abs, cmp, sgn, whole};
pub use packing::{pack, unpack, unpacked};
pub use powers::{power, power_or_code, sqr};
pub use products::{div, mul, product_or_code, quotient_or_code};
pub use rests::{modulo, round_to};
pub use rounding::{COEFFICIENT_LIMIT, round_exact, round_short, round_whole_part};
pub use sums::{add, difference_or_code, sub, sum_or_code};
pub use values::{Bytes, Kind, KindList, Value, ValueList};
