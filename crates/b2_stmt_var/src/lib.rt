//! Statements on variables: assignments, DIM and COM, INIT, ROTATE, READ and RESTORE, CLEAR V and CLEAR N.
//!
//! `plan` executes the statement at a partition's place, and `execute` one that its caller has found: each changes variables
//! and where READ goes on, and nothing else, so none asks for an access and `finish` has nothing to do. What each statement
//! leaves is said by its row and its tree in `specs/`, a family a file; `Plan` has a line for each row. `is_built` tells which
//! rows are built here. `do_fast` does the commonest assignments fast, and tells in words where they lead. `laws` says
//! what all statements leave alone, in which order READ takes literals, and what lengths are worth.
//!
//! Stands on `b2_expr` and `b2_receiver` for values and receivers, on `b2_dims` for dimensions, on `b2_access` for the private
//! state and loans, on `b2_rows` for units, on `b2_alpha` for bits that turn, on `b2_text` for DATA, and on `b2_vars`, `b2_atom`,
//! `b2_dec`, `b2_dectext` and `b2_base`.
#![tactic(auto)]

mod assignments;
mod buffers;
mod data;
mod dimensions;
mod fast;
pub mod laws;
mod planning;
mod reading;
mod restoring;

pub use fast::do_fast;
pub use planning::{execute, finish, is_built, plan, plan_found};
