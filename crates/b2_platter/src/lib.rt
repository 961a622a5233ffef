//! Disk images that are good by their type.
//!
//! An image is whole sectors of 256 bytes. The first of them are the index: a head of sixteen bytes (version, index
//! sectors, all sectors, the first sector after the catalogue, the next free sector, and 00) and then slots of sixteen
//! bytes, each free, gone, or that of a file. A file is live or scratched, a program or data; its slot has its first and
//! its last sector and its name, and its last sector is its control sector, which says how many are used.
//!
//! A `Platter` is an image that fails none of nine checks: `open` tells which is the first that fails, and every call
//! that changes a platter keeps it good. How numbers are spelled is the `Layout`, which all checks and all spelling take.
//! There are two, of the versions 1 and 2; the first byte of an image tells its own, and a change of a platter keeps it.
//!
//! Stands on `b2_base`, and on `byteorder` for numbers of several bytes. The definitions are in `specs/`: `Layout` and
//! `Slot` for the spelling, `Image` for rows and sectors, `Checks` for the nine checks, `Own` for what an image says in its
//! own layout, `Edits` for images that are made and changed, `Volume` for what an image says as whole values, which spells
//! it again byte for byte, and `Reading` for why nothing is read.
#![tactic(auto)]

pub mod checks;
pub mod edits;
pub mod image;
mod layout;
mod platter;
pub mod slot;

pub use layout::Layout;
pub use platter::{ImageErr, Platter, image_is_what_it_says};
