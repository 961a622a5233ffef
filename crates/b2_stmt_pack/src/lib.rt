//! Statements on packed fields: PACK, UNPACK, $PACK and $UNPACK.
//!
//! `plan` executes the statement at a partition's place: it changes variables and nothing else, so none asks for an access and
//! `finish` has nothing to do. What each statement leaves is said by its row and its tree in `specs/`, a family a file; `Plan`
//! has a line for each row. `is_built` tells which rows are built here. `laws` says what all of them leave alone, and what they
//! are for.
//!
//! A buffer is changed in its place once no code can come any more; memory is taken for the values of a list alone, and for the
//! kinds of receivers.
//!
//! Stands on `b2_pack` for fields, on `b2_expr` and `b2_receiver` for what is written, on `b2_access` for the private state and
//! loans, on `b2_rows` for units, and on `b2_vars`, `b2_text`, `b2_flow`, `b2_atom`, `b2_dec` and `b2_base`.
#![tactic(auto)]

mod buffers;
mod fields;
pub mod laws;
mod lists;
mod numbers;
mod planning;

pub use planning::{finish, is_built, plan};
