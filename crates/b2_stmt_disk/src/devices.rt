//! Statements that take devices and free them, and the one that says where PRINT shows: `$OPEN`, `$CLOSE` and SELECT PRINT.
//!
//! `plan` takes the statement at a partition's place, over the devices that there are: it ends at once, or asks for an access by
//! which devices are taken or freed; `finish` does the rest by the answer. What each statement does is said by its row and its
//! tree in `specs/devices/`: `Taking` and `Freeing`, over lists of devices (`Lists`) and what a partition holds (`Held`), and `Selecting`;
//! `Plan` finds the unit and chooses among them. `is_built` tells which rows are built here. `laws` says what a statement leaves alone, and for
//! which devices it asks.

mod freeing;
mod held;
pub mod laws;
mod lists;
mod planning;
mod selecting;
mod taking;

pub use planning::{finish, is_built, plan};
