//! Data files: records one after the other, and an end mark.
//!
//! A file's records begin at its first sector. The end mark is a sector of A0 and 00; a new file has it in its first
//! sector. A slot is an open file with a place. `save` writes a record at the place, `end` the end mark, `load` reads the
//! record there, and `skip` moves the place over records. The records end at an end mark, and at the control sector. Where
//! the catalogue has no live data file of the slot's name and start, the answer is D80. A refusal changes nothing.
//!
//! Stands on `b2_base` for slots and codes, `b2_dec` for values, `b2_platter` and `b2_catalog` for the disk and its files,
//! and `b2_record` for records and the end mark. The definitions are in `specs/`: `Files` for the records of a file, `Slots` for what a slot
//! opens and what is refused, `Loading` and `Moving` for what is read, and `Laws` for where the laws of saving hold. What a
//! call gives is a function of the image, and a relation besides; `laws` says that the functions say what the relations do.
#![tactic(auto)]

pub mod laws;
mod loading;
mod moving;
mod opening;
mod saving;

pub use b2_base::{By, Slot};
pub use loading::load;
pub use moving::skip;
pub use opening::{open, open_new};
pub use saving::{end, save};
