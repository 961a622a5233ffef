//! Statements of control: what each plans, and how it finishes.
//!
//! `plan` executes the statement at a partition's place: it changes the private state and says how the step ends, or asks for
//! one access of the store, after whose answer `finish` does the rest. What each statement does is said by its row and its
//! tree in `specs/`, a family a file; `Plan` finds the unit and chooses among them. `is_built` tells which rows are built
//! here. `do_fast` does a statement at once where that takes no access, or does nothing. `laws` says what a statement leaves alone.
//!
//! Stands on `b2_expr` for values and receivers, on `b2_access` for the private state and loans, on `b2_rows` for units and
//! what follows them, on `b2_flow` for frames, on `b2_text`, `b2_vars`, `b2_atom`, `b2_dec` and `b2_base`.
#![tactic(auto)]

mod arguments;
mod asked;
mod borrowing;
mod branches;
mod breaks;
mod calls;
mod choices;
mod clearing;
mod fast;
mod finishing;
mod framing;
pub mod laws;
mod loops;
mod marked;
mod parts;
mod planning;
mod run_control;

pub use clearing::asks_access;
pub use fast::do_fast;
pub use finishing::finish;
pub use planning::{execute, is_built, plan, plan_found};
