//! Statements at the terminal: PRINT, PRINTUSING, CONVERT, KEYIN, LINPUT, INPUT and $RELEASE TERMINAL. The first two may show at
//! a printer.
//!
//! `plan` takes the statement at a partition's place, over the devices that there are: it ends at once, or asks that bytes are
//! shown or printed, for a line or a key, or that the terminal is handed on; `finish` does the rest by the answer. What each statement does is said by its row and its tree in `specs/`, a statement a
//! file or two; `Plan` finds the unit and chooses among them. PRINT and PRINTUSING finish by what they asked for and its answer alone
//! (`is_printing`, `finish_printing`). `is_built` tells which rows are built here.
//! `laws` says what a statement leaves alone, and for which devices it asks.
//!
//! Stands on `b2_expr` for values and receivers, on `b2_print` for lines and images, on `b2_dectext` for number text, on
//! `b2_alpha`, on `b2_access` for the private state, devices and loans, on `b2_rows` for units, and on `b2_text`, `b2_vars`, `b2_flow`,
//! `b2_atom`, `b2_dec` and `b2_base`.
#![tactic(auto)]

mod converting;
mod handing;
mod imaging;
mod inputs;
mod keys;
pub mod laws;
mod line_reading;
mod outlets;
mod planning;
mod printing;
mod screen_items;
mod showing;
mod typed_text;

pub use planning::{finish, finish_printing, is_built, is_printing, plan, plan_found};
