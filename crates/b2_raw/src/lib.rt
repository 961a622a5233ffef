//! A disk by its sectors and its bytes: records and blocks that are written and read by the number of a sector, and the
//! report on an image, whether it is good or not.
//!
//! `save` writes the record of some values from a sector on, `end` the end mark, and `put_block` up to 256 bytes; each gives
//! the next sector. They write sectors after the catalogue, and refuse all others: so no catalogue and no file is changed.
//! `load` and `block` read any sector. `report` says whether an image is good. `laws` says what writing leaves, and that what
//! is written is read back.
//!
//! Stands on `b2_base`, on `b2_dec` for values, on `b2_platter` for sectors and the checks of an image, on `b2_catalog` for the
//! listing, on `b2_record` for records and the end mark, and on `itoa` for the number of a check. The definitions are in
//! `specs/`: `Raw` for what each call gives as a function of the image, `Laws` for what the laws speak of, and `Report`.
#![tactic(auto)]

pub mod laws;
mod reading;
mod reporting;
mod writing;

pub use reading::{block, load};
pub use reporting::report;
pub use writing::{end, put_block, save};
