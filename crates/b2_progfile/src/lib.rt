//! Program files on disks.
//!
//! A program is spelled as its lines, ascending, each with its number in two bytes, the length of its atoms and the atoms;
//! then FF FF. These bytes are cut into pieces of 255, each in a sector after a byte 50, and the last is filled with 00. A
//! program file has one sector more, its control sector.
//!
//! `save` makes a file for the lines of a text, a new one or a scratched one that is taken again, and writes its sectors,
//! which spell these lines. `load` gives a text the lines that a program file's sectors spell. `move_file` copies a live
//! file to another platter, and `move_platter` all of them, in the order of their starts, into an emptied catalogue. Each
//! refusal comes exactly where it is said, and leaves the platter or the text as it was. The laws stand in `laws`.
//!
//! Stands on `b2_base` for names and codes, on `b2_atom` and `b2_text` for lines, and on `b2_platter` and `b2_catalog` for
//! the disk and its files. The definitions are in `specs/`: `Programs` for the grammar, a relation between lines and
//! sectors, `Reading` for the program that sectors spell, `Saving` for the sectors that are written, the refusals and the
//! image that a call leaves, `Loading` for what is loaded, `Moving` and `MovingAll` for what is moved, and `Laws`. What a call
//! gives is a function of images, and a relation besides; the laws say that the functions say what the relations do.
#![tactic(auto)]

mod gathered;
pub mod laws;
mod loading;
mod moving;
mod moving_all;
mod reading;
mod saving;
mod spelling;

pub use loading::load;
pub use moving::move_file;
pub use moving_all::move_platter;
pub use saving::save;
