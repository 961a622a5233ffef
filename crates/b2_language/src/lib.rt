//! A language of any kind, as its machine knows it.
//!
//! `Language` is what the statements of a language do, by the rows of its table: which rows are built, what a statement plans,
//! and how it finishes. It is a parameter of the machine, as the shared store is; what a machine needs to know of it are its
//! laws. `globals_wanted` says whose `@` variables a statement wants to be lent.
//!
//! Stands on `b2_access` for the private state, what is lent, accesses and answers, on `b2_rows` for units, on `b2_text` and
//! `b2_flow` for lines and places, on `b2_atom` and `b2_base`. The definitions are in `specs/`: what a language is and owes in
//! `Languages`, where a unit leads by itself in `Following`, and whose `@` variables are
//! lent in `Wanted`.
#![tactic(auto)]

mod following;
mod language;
mod wanted;

pub use following::{move_to, place_on};
pub use language::Language;
pub use wanted::{globals_wanted, names_globals};
