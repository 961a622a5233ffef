//! Drives, names of files and what is asked for, as statements on disks have them.
//!
//! A drive names a platter, or means the one that the partition has selected; `drive` and `last_drive` give that platter where
//! the partition may use it, and else P48. `name_at` gives the name of a file, or D87. `asks_or_fails` plans what a statement asks
//! for, and `after_change` tells how one ends that changes a disk. The definitions are in `specs/`: `Drives`, `FileNames` and
//! `Asking`. The crates of statements on disks cite `proofs/Asked` for what holds of what they ask for.
//!
//! Stands on `b2_expr` for values, on `b2_access` for devices and the private state, on `b2_rows` for units, and on `b2_atom`,
//! `b2_dec` and `b2_base`.
#![tactic(auto)]

mod asking;
mod drives;
mod file_names;

pub use asking::{after_change, asks_or_fails};
pub use drives::{Drives, drive, drives_for, last_drive, past_drive, select, used_at};
pub use file_names::name_at;
