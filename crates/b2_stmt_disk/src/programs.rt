//! Statements on programs on disks: SAVE and LOAD.
//!
//! `plan` takes the statement at a partition's place, over the devices that there are: it asks for an access of a platter, which
//! the partition may use, and its own text; `finish` does the rest by the access and its answer, and by the text as it then is.
//! What each statement does is said by its row and its tree in `specs/programs/`: a statement a file, over drives and names of files in
//! `b2_drive`; `Plan` finds the unit and chooses among them. `is_built` tells which rows are built here. `laws` says what a
//! statement leaves alone, and for which devices it asks.

pub mod laws;
mod loading;
mod planning;
mod saving;

pub use planning::{finish, is_built, plan};
