//! Statements on data files: DATASAVE DC, DATALOAD DC, DSKIP, DBACKSPACE and IF END.
//!
//! `plan` takes the statement at a partition's place, over the devices that there are: it asks for an access of one platter, which
//! the partition may use, or fails with a code; `finish` does the rest by the answer. A statement that opens a file puts it into a
//! slot; the others go by the file in their slot, on its own platter, and move its place. What each statement does is said by its
//! row and its tree in `specs/`: `Opening`, `Saving`, `Loading` and `Skipping`, over slots in `Slots` and what came of an access in
//! `Coming`; `Plan` finds the unit and chooses among them. `is_built` tells which rows are built here. `laws` says what a statement
//! leaves alone, and for which devices it asks.
//!
//! Stands on `b2_drive` for drives and names, on `b2_expr` for values, on `b2_alpha` for the blanks at the end of an element, on
//! `b2_receiver` for receivers, on `b2_access` for the private state, devices, loans and accesses, on `b2_rows` for units, and on
//! `b2_text`, `b2_vars`, `b2_flow`, `b2_atom`, `b2_dec` and `b2_base`.
#![tactic(auto)]

mod asking;
mod elements;
mod ending;
mod file_answers;
pub mod laws;
mod loaded_values;
mod loading;
mod opening;
mod planning;
mod saved_values;
mod saving;
mod skipping;
mod slots;

pub use planning::{finish, is_built, plan};
