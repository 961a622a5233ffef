//! Statements on whole arrays: the assignments of MAT, MAT REDIM, MAT SEARCH, MAT MOVE, MAT SORT and MAT COPY.
//!
//! `plan` executes the statement at a partition's place: it changes variables and nothing else, so none asks for an access and
//! `finish` has nothing to do. What each statement leaves is said by its row and its tree in `specs/`, a family a file; `Plan`
//! has a line for each row. `is_built` tells which rows are built here. `laws` says what all of them leave alone, and what they
//! are for.
//!
//! The elements of a result are made beside the array, in memory that is asked for first, and are assigned once no code can
//! come any more. So a result may be an operand, and what is read is what stood there before.
//!
//! Stands on `b2_matrix` and `b2_matalpha` for arrays, on `b2_expr`, `b2_dims` and `b2_receiver` for what is written, on
//! `b2_access` for the private state and loans, on `b2_rows` for units, and on `b2_vars`, `b2_text`, `b2_flow`, `b2_atom`,
//! `b2_alpha`, `b2_dec` and `b2_base`.
#![tactic(auto)]

mod arrays;
mod byte_arrays;
mod formulas;
pub mod laws;
mod matrices;
mod planning;
mod redimensioning;
mod searching;

pub use planning::{finish, is_built, plan};
