//! Records: a list of values in as many sectors as it needs, from 1 to 255.
//!
//! A sector of a record begins with its kind and its number within the record. Kind 81 is the only sector of a record, 82
//! its first, 83 one between, and 84 its last. Then come values, FD, and 00 to the end. A number is 08 and its eight packed
//! bytes; an alpha value of 1 to 124 bytes is the byte 80 plus its length, and its bytes. A value goes into the current
//! sector where it and FD fit, and else into the next. Nothing else is a record.
//!
//! `sectors_of` counts the sectors of a record, `put` writes one of them, `put_next` writes one after the other, and `take`
//! reads the record at a place: it gives the one list of values whose record stands there, and D88 exactly where none does.
//! `agree` says whether values are of the kinds that are asked, and `end_sector` has the sector that ends records.
//! `laws` says that a list of values has one record, that at one place one record begins at most, and that what a function
//! of the image reads there is that record.
//!
//! Stands on `b2_base` for codes, on `b2_dec` for values, on `b2_platter` for sectors, and on `arrayvec` for a sector that
//! is being written. The definitions are in `specs/`: `Items` for the bytes of values, `Records` for the grammar, a relation
//! between values and sectors, `Writing` for the one spelling of a list of values, `Reading` for the record at a place, as a
//! function of the image, `Asking` for the first values as they are asked, and `EndSector` for the end mark.
#![tactic(auto)]

mod asking;
pub mod end_sector;
mod items;
pub mod laws;
mod records;
mod sectors;

pub use asking::agree;
pub use items::{all_short, is_short};
pub use records::{put, put_next, sectors_of, take};
