//! Searching, moving, sorting and copying in arrays of bytes.
//!
//! An array is lent as all its bytes, along rows, with the length of its elements. Elements are named by locators: their
//! places counted from 1, two bytes each with the high byte first, and 0000 after the last. `search` and `sort_locators`
//! write locators, `move_by` reads them, and `copy` assigns a whole array as one value.
//!
//! The definitions are functions on lists of bytes in `specs/`: `Elements` has what an element is, `Locators` how places are
//! written and read, `Searches` which places a search finds, `Moves` what a move takes and leaves, and `Sorts` the order of
//! elements, as a function and as the law that fixes it. `laws` says what holds of these definitions themselves.
//!
//! Stands on `b2_alpha` for assignment and comparison, and on `b2_base` for codes.
#![tactic(auto)]

mod elements;
pub mod laws;
mod locators;
mod moving;
mod searching;
mod sorting;

pub use moving::{copy, move_by};
pub use searching::search;
pub use sorting::sort_locators;
