//! Statements on disks and devices, in three families: on a disk's index, LIMITS, SCRATCH, SCRATCH DISK, LIST DC, MOVE and SELECT
//! DISK; in `devices`, those that take devices and free them, `$OPEN` and `$CLOSE`, and SELECT PRINT; and in `programs`, SAVE and LOAD.
//!
//! Of each family, `plan` takes the statement at a partition's place, over the devices that there are: it ends at once, or asks for an access of
//! one platter, or of two, which the partition may use; `finish` does the rest by the answer. What each statement does is said by its row
//! and its tree in `specs/`: a statement or two a file, over drives and names of files in `b2_drive`; `Plan` finds the
//! unit and chooses among them. `is_built` tells which rows are built here. `laws` says what a statement leaves alone, and for
//! which devices it asks.
//!
//! Stands on `b2_drive` for drives, names and how devices are written, on `b2_expr` for values, on `b2_receiver` for receivers, on `b2_access` for
//! the private state, devices, loans and accesses, on `b2_rows` for units, and on `b2_text`, `b2_vars`, `b2_flow`, `b2_atom`, `b2_dec` and `b2_base`.
#![tactic(auto)]

pub mod devices;
pub mod laws;
mod limits;
mod listing;
mod moving;
mod planning;
pub mod programs;
mod scratching;

pub use planning::{finish, is_built, plan};
