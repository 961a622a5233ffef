//! The hashed index of a platter: its catalogue.
//!
//! The catalogue is the finite map from names to files, live and scratched, that the slots of the index stand for. A name
//! is looked up from the index sector of its hash on, cyclically, all slots of a sector, up to the name or a sector with a
//! free slot; `find` counts a step for each sector that it reads. A new name takes the lowest free slot of the first of
//! these sectors that has one, and a new file takes the next free sectors.
//!
//! Each call makes its one change to the map, keeps the image good, and leaves the sectors of other files; a refusal
//! changes nothing. Each contract says the whole image that the call leaves.
//!
//! Stands on `b2_base` and `b2_platter`, and on `itoa` for the numbers of a listing. The definitions are in `specs/`:
//! `Catalogue` for the map, `Ways` for the look-up and the place of a new name, `Changes` for images with rows and sectors
//! in place, `Calls` for what the calls refuse and do, `Making` for a file that is new or taken again, `Listing` for the
//! lines of a listing, and `Results` for what a call gives where a function says it.
#![tactic(auto)]

mod additions;
mod changes;
mod entry;
pub mod laws;
mod lines;
mod lookup;
mod making;
mod place;
mod plain;
mod renames;
mod spelling;

pub use additions::enter;
pub use changes::{scratch, set_used};
pub use entry::Entry;
pub use lines::listing;
pub use lookup::{find, look};
pub use making::make_file;
pub use plain::{format, limits};
pub use renames::reuse;
